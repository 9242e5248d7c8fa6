// The dialects of templates.
ghost use Rattle.std.specs.Prelude.{◌≡◌, MatchOption};
ghost use Rattle.printer.specs.Dialect.{dialect_word, NamesNoDialect};

/// The language that a template is written in.
#[derive(Clone, Copy, Debug, PartialEq, Eq)]
pub enum Dialect {
    Printf,
    Strfmt,
    Formatx,
}

impl Dialect {
    /// The dialect that the word names. It takes no memory.
    pub fn named(word: &str) -> Option<Dialect>
        ensures { MatchOption result (NamesNoDialect word.now) (λ dialect. word.now ≡ dialect_word dialect) }
    {
        match word {
            "printf" => Some(Dialect::Printf),
            "strfmt" => Some(Dialect::Strfmt),
            "formatx" => Some(Dialect::Formatx),
            _ => None,
        }
    }
}
