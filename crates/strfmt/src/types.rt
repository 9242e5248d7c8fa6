// Alignments, signs and the error of the crate.

ghost use Rattle.std.specs.Prelude.{◌≡◌, Some};

use std::alloc::AllocError;
use std::error::Error;
use std::fmt;

/// Where a field's text stands within its width.
#[derive(Debug, Clone, PartialEq, Drop)]
pub enum Alignment {
    Unspecified,
    Left,
    Center,
    Right,
    /// The fill would stand between a sign and its digits; where padding is needed it is refused.
    Equal,
}

/// The sign of a specification.
#[derive(Debug, Clone, PartialEq, Drop)]
pub enum Sign {
    Unspecified,
    Plus,
    Minus,
    Space,
}

impl Sign {
    ghost use Rattle.strfmt.specs.Spec.{is_unspecified};

    /// Whether no sign is given; in the Rust crate this is inverted.
    pub fn is_unspecified(&self) -> bool
        ensures { result ≡ is_unspecified self.now }
    {
        matches!(self, Sign::Unspecified)
    }
}

/// Why a text, a pattern or a value is refused, with a message.
#[derive(Debug, PartialEq, Drop)]
pub enum FmtError {
    /// The text, the pattern or the specification is malformed, or asks for what isn't supported.
    Invalid(String),
    /// A key that doesn't read, or has no value in the map.
    KeyError(String),
    /// A specification that doesn't fit the type of its value.
    TypeError(String),
    NoMemory,
}

impl From<AllocError> for FmtError {
    ghost use Rattle.strfmt.specs.declared.types.FmtError.TheVariants.{NoMemory};

    ghost from_gives = { λ _ error. error ≡ NoMemory };

    fn from(_: AllocError) -> FmtError {
        FmtError::NoMemory
    }
}

impl From<numerals::NoMemory> for FmtError {
    ghost use Rattle.strfmt.specs.declared.types.FmtError.TheVariants.{NoMemory};

    ghost from_gives = { λ _ error. error ≡ NoMemory };

    fn from(_: numerals::NoMemory) -> FmtError {
        FmtError::NoMemory
    }
}

impl fmt::Display for FmtError {
    ghost use Rattle.strfmt.specs.Fault.{error_text};

    ghost output = { λ e. Some (error_text e) };

    fn fmt<W: fmt::Write>(&self, f: &mut fmt::Formatter<W>) -> fmt::Result {
        match self {
            FmtError::Invalid(message) => write!(f, "Invalid({message})"),
            FmtError::KeyError(message) => write!(f, "KeyError({message})"),
            FmtError::TypeError(message) => write!(f, "TypeError({message})"),
            FmtError::NoMemory => write!(f, "NoMemory"),
        }
    }
}

impl Error for FmtError {}

pub type Result<T> = std::result::Result<T, FmtError>;
