//! The laws of planned texts: they read rows back, and no text is the row of two lists of values.
#![tactic(auto)]

ghost use Rattle.row_format.specs.Laws.{ReadsBack, HasOneList, ReadsToOneList};

/// A planned text reads each row of values that fit back to its values.
pub fn reads_back()
    ensures { ReadsBack }
{}

/// No text is the row of two lists of values.
pub fn has_one_list()
    ensures { HasOneList }
{}

/// Tokens read to at most one list of values.
pub fn reads_to_one_list()
    ensures { ReadsToOneList }
{}
