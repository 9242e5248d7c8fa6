// Laws of templates: each function has an empty body, and its clause is the law.
ghost use Rattle.formatx.specs.Laws.{FieldsAreWide, FinishesAgree, HasOneReading, MissingIsEmpty};

/// Strict and lenient printing agree, but where the strict one refuses a missing value.
pub fn finishes_agree()
    ensures { FinishesAgree }
{}

/// A lenient finish has the empty text in place of a value that isn't there, and a strict one refuses it.
pub fn missing_is_empty()
    ensures { MissingIsEmpty }
{}

/// A printed field whose shape isn't raw has at least its width in characters.
pub fn fields_are_wide()
    ensures { FieldsAreWide }
{}

/// A source is read into the segments of one template, or it has one first fault, and never both.
pub fn one_reading()
    ensures { HasOneReading }
{}
