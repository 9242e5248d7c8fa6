// Laws of printers: each function has an empty body, and its clause is the law.
ghost use Rattle.printer.specs.Laws.{DialectWordsDiffer, PrintsOnce};

/// A template prints one text or one fault over values.
pub fn prints_once()
    ensures { PrintsOnce }
{}

/// No word names two dialects.
pub fn dialect_words_differ()
    ensures { DialectWordsDiffer }
{}
