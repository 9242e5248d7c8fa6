// What formats print, as a function whose contract says it.
ghost use Rattle.row_format.specs.Laws.{PrintsColumns};

/// What elements print of values that fit is the text of their columns.
pub fn prints_columns()
    ensures { PrintsColumns }
{}
