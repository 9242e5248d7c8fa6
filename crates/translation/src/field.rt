// A field of the template.
ghost use Rattle.std.specs.Prelude.{◌≡◌, ◌++◌, IfErr, OnOk, string_bytes};
ghost use Rattle.translation.specs.Inner.Options.{field_text};

use crate::options::Options;
use crate::{Target, TranslateError};
use numerals::{Radix, push_digits};

/// A field in braces behind a prefix.
#[derive(Clone, Copy)]
pub(crate) struct Field {
    pub(crate) prefix: &'static str,
    pub(crate) options: Options,
}

impl Field {
    /// Appends the field, for the kind of this number.
    pub(crate) fn push(
        &self,
        text: &mut String,
        number: usize,
        target: Target,
    ) -> Result<(), TranslateError>
        ensures ok { OnOk result (string_bytes text.new ≡ string_bytes text.old ++ field_text target number self.now) }
        ensures memory { IfErr result (λ e. e ≡ TranslateError.NoMemory) }
    {
        text.push_str(self.prefix)?;
        text.push_str("{")?;
        push_digits(text, number as u128, Radix::Ten, false)?;
        self.options.push(text, target)?;
        text.push_str("}")?;
        Ok(())
    }
}
