// Laws of what the crate prints.

ghost use Rattle.strfmt.specs.Laws.{FillsWidth, PrintsOnce, ReadsOnce};

/// The field of a text and of an integer has at least its width in characters.
pub fn field_fills_width()
    ensures { FillsWidth }
{}

/// Each pattern reads in exactly one way.
pub fn pattern_reads_once()
    ensures { ReadsOnce }
{}

/// Under one partial map from the texts of keys to meanings a text prints exactly one thing.
pub fn text_prints_once()
    ensures { PrintsOnce }
{}
