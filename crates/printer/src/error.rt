// Why a text is no template, and why a template has no text.
ghost use Rattle.std.specs.Prelude.{◌≡◌};

use numerals::NoMemory;
use std::alloc::AllocError;

/// In which dialect a text is no template.
#[derive(Clone, Copy, Debug, PartialEq, Eq)]
pub enum TemplateFault {
    Printf,
    Formatx,
}

/// Why a text can't be printed by.
#[derive(Clone, Copy, Debug, PartialEq, Eq)]
pub enum PrinterError {
    /// It isn't in the grammar of its dialect.
    Template(TemplateFault),
    NoMemory,
}

impl From<AllocError> for PrinterError {
    ghost use Rattle.printer.specs.declared.error.PrinterError.TheVariants.{NoMemory};

    ghost from_gives = { λ _ error. error ≡ NoMemory };

    fn from(_: AllocError) -> PrinterError {
        PrinterError::NoMemory
    }
}

impl From<NoMemory> for PrinterError {
    ghost use Rattle.printer.specs.declared.error.PrinterError.TheVariants.{NoMemory};

    ghost from_gives = { λ _ error. error ≡ NoMemory };

    fn from(_: NoMemory) -> PrinterError {
        PrinterError::NoMemory
    }
}

/// What is wrong where a template has no text for some values: three faults of printf, three of strfmt, three of formatx.
#[derive(Clone, Copy, Debug, PartialEq, Eq)]
pub enum RenderFault {
    WrongType,
    TooManyArgs,
    NotEnoughArgs,
    Invalid,
    KeyError,
    TypeError,
    Parse,
    MissingArgument,
    UnsupportedTrait,
}

/// Why a template printed no text.
#[derive(Clone, Copy, Debug, PartialEq, Eq)]
pub enum TextError {
    /// The first fault from the left.
    Fault(RenderFault),
    NoMemory,
}

impl From<AllocError> for TextError {
    ghost use Rattle.printer.specs.declared.error.TextError.TheVariants.{NoMemory};

    ghost from_gives = { λ _ error. error ≡ NoMemory };

    fn from(_: AllocError) -> TextError {
        TextError::NoMemory
    }
}

impl From<NoMemory> for TextError {
    ghost use Rattle.printer.specs.declared.error.TextError.TheVariants.{NoMemory};

    ghost from_gives = { λ _ error. error ≡ NoMemory };

    fn from(_: NoMemory) -> TextError {
        TextError::NoMemory
    }
}
