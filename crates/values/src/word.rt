// Words.
ghost use Rattle.std.specs.Prelude.{◌≡◌, IfOk};
ghost use Rattle.values.specs.Datum.{word_text};

use numerals::NoMemory;
use std::alloc::Global;

/// A text that a field of the kind `word` holds.
#[derive(Debug, PartialEq, Eq, Drop)]
pub struct Word {
    text: String,
}

impl Word {
    pub fn new(alloc: Global, text: &str) -> Result<Word, NoMemory>
        ensures { IfOk result (λ word. word_text word ≡ text.now) }
    {
        let text = String::from_str(alloc, text)?;
        Ok(Word { text })
    }

    pub fn as_str(&self) -> &str
        ensures { result.now ≡ word_text self.now }
    {
        self.text.as_str()
    }
}
