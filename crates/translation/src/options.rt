// The options of a field in braces.
ghost use Rattle.std.specs.Prelude.{◌≡◌, ◌++◌, IfErr, OnOk, string_bytes};
ghost use Rattle.translation.specs.Inner.Options.{behind_colon, letters_text, plus_text, precision_text, side_text, width_text, written, zero_text};

use crate::{Target, TranslateError};
use numerals::{Radix, push_digits};

/// On which side of its room a text stands, and what fills the room: spaces, but for `RightOfZeros`.
#[derive(Clone, Copy, Debug, PartialEq, Eq)]
pub(crate) enum Side {
    Unset,
    Left,
    Right,
    RightOfZeros,
}

/// The type of a number that isn't in decimal.
#[derive(Clone, Copy, Debug, PartialEq, Eq)]
pub(crate) enum Letters {
    Unset,
    LowerHex,
    UpperHex,
    Octal,
}

/// The options of a field in braces, in the order in which they are written.
#[derive(Clone, Copy, Debug, PartialEq, Eq)]
pub(crate) struct Options {
    pub(crate) side: Side,
    pub(crate) plus: bool,
    pub(crate) zero: bool,
    pub(crate) width: Option<u32>,
    pub(crate) precision: Option<u32>,
    pub(crate) letters: Letters,
}

impl Side {
    fn text(self) -> &'static str
        ensures { result.now ≡ side_text self }
    {
        match self {
            Side::Unset => "",
            Side::Left => "<",
            Side::Right => ">",
            Side::RightOfZeros => "0>",
        }
    }
}

impl Letters {
    fn text(self, target: Target) -> &'static str
        ensures { result.now ≡ letters_text target self }
    {
        match (target, self) {
            (_, Letters::Unset) => "",
            (Target::Strfmt, Letters::LowerHex) => "x",
            (Target::Strfmt, Letters::UpperHex) => "X",
            (Target::Formatx, Letters::LowerHex) => "x?",
            (Target::Formatx, Letters::UpperHex) => "X?",
            (_, Letters::Octal) => "o",
        }
    }
}

impl Options {
    /// No options at all.
    pub(crate) const NONE: Options = Options {
        side: Side::Unset,
        plus: false,
        zero: false,
        width: None,
        precision: None,
        letters: Letters::Unset,
    };

    /// Appends the options behind a colon, if there are any.
    pub(crate) fn push(&self, text: &mut String, target: Target) -> Result<(), TranslateError>
        ensures ok { OnOk result (string_bytes text.new ≡ string_bytes text.old ++ behind_colon (written target self.now)) }
        ensures memory { IfErr result (λ e. e ≡ TranslateError.NoMemory) }
    {
        if *self == Options::NONE {
            return Ok(());
        }
        text.push_str(":")?;
        self.push_written(text, target)?;
        Ok(())
    }

    /// Appends the options.
    fn push_written(&self, text: &mut String, target: Target) -> Result<(), TranslateError>
        ensures ok { OnOk result (string_bytes text.new ≡ string_bytes text.old ++ written target self.now) }
        ensures memory { IfErr result (λ e. e ≡ TranslateError.NoMemory) }
    {
        text.push_str(self.side.text())?;
        if self.plus {
            text.push('+')?;
        }
        if self.zero {
            text.push('0')?;
        }
        if let Some(width) = self.width {
            push_digits(text, u128::from(width), Radix::Ten, false)?;
        }
        if let Some(precision) = self.precision {
            text.push('.')?;
            push_digits(text, u128::from(precision), Radix::Ten, false)?;
        }
        text.push_str(self.letters.text(target))?;
        Ok(())
    }
}
