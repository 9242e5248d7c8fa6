// What can go wrong in a template, or between a template and its values.
ghost use Rattle.std.specs.Prelude.{◌≡◌, codes, unwrap_or};
ghost use Rattle.formatx.specs.Fault.{trait_of};

use crate::ast::{FormatType, Span};
use std::alloc::AllocError;
use std::error::Error as StdError;
use std::fmt;

/// Why a template isn't parsed or rendered. Spans are in bytes of the source.
#[derive(Debug, Drop)]
pub enum Error {
    /// A place outside the grammar, or a count or precision that has no number.
    Parse { span: Span, message: String },
    /// A placeholder without its value, by its position in decimal or its name.
    MissingArgument { name: String, span: Span },
    /// A type that no value is printed by.
    UnsupportedTrait { format_type: FormatType, span: Span },
    /// There was no memory.
    NoMemory,
}

impl fmt::Display for Error {
    ghost use Rattle.formatx.specs.Fault.{error_text};
    ghost use Rattle.std.specs.Prelude.{Some};

    ghost output = { λ e. Some (error_text e) };

    fn fmt<W: fmt::Write>(&self, f: &mut fmt::Formatter<W>) -> fmt::Result {
        match self {
            Error::Parse { span, message } => {
                let at = span.start;
                write!(f, "parse error at byte {at}: {message}")
            }
            Error::MissingArgument { name, span: _ } => write!(f, "missing argument: `{name}`"),
            Error::UnsupportedTrait {
                format_type,
                span: _,
            } => {
                let name = trait_name(*format_type);
                write!(f, "unsupported format trait: `{name}`")
            }
            Error::NoMemory => write!(f, "no memory"),
        }
    }
}

fn trait_name(format_type: FormatType) -> &'static str
    ensures { result.now ≡ unwrap_or (trait_of format_type) (codes "Unknown") }
{
    match format_type {
        FormatType::Octal => "Octal",
        FormatType::LowerHex => "LowerHex",
        FormatType::UpperHex => "UpperHex",
        FormatType::Binary => "Binary",
        FormatType::LowerExp => "LowerExp",
        FormatType::UpperExp => "UpperExp",
        FormatType::Pointer => "Pointer",
        _ => "Unknown",
    }
}

impl StdError for Error {}

impl From<AllocError> for Error {
    ghost use Rattle.std.specs.Prelude.{◌≡◌};
    ghost use Rattle.formatx.specs.declared.error.Error.TheVariants.{NoMemory};

    ghost from_gives = { λ _ e. e ≡ NoMemory };

    fn from(_error: AllocError) -> Error {
        Error::NoMemory
    }
}

impl From<numerals::NoMemory> for Error {
    ghost use Rattle.std.specs.Prelude.{◌≡◌};
    ghost use Rattle.formatx.specs.declared.error.Error.TheVariants.{NoMemory};

    ghost from_gives = { λ _ e. e ≡ NoMemory };

    fn from(_error: numerals::NoMemory) -> Error {
        Error::NoMemory
    }
}
