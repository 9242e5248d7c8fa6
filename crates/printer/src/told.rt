// Under which name the error of a dialect is told.
ghost use Rattle.std.specs.Prelude.{◌≡◌, ◌⊎◌};
ghost use Rattle.printer.specs.Inner.Appending.{IsCarriedFault, TellsFormatx, TellsPrintf, TellsStrfmt};

use crate::{RenderFault, TextError};
use sprintf::PrintfError;
use strfmt::FmtError;

/// The error of a printf format over carried values.
pub(crate) fn printf_told(error: PrintfError) -> TextError
    requires { IsCarriedFault error ⊎ (error ≡ PrintfError.NoMemory) }
    ensures { TellsPrintf error result }
{
    match error {
        PrintfError::WrongType => TextError::Fault(RenderFault::WrongType),
        PrintfError::TooManyArgs => TextError::Fault(RenderFault::TooManyArgs),
        PrintfError::NotEnoughArgs => TextError::Fault(RenderFault::NotEnoughArgs),
        PrintfError::ParseError => unreachable!(),
        PrintfError::Unknown => unreachable!(),
        PrintfError::NoMemory => TextError::NoMemory,
    }
}

/// The error of a strfmt template.
pub(crate) fn strfmt_told(error: FmtError) -> TextError
    ensures { TellsStrfmt error result }
{
    match error {
        FmtError::Invalid(_) => TextError::Fault(RenderFault::Invalid),
        FmtError::KeyError(_) => TextError::Fault(RenderFault::KeyError),
        FmtError::TypeError(_) => TextError::Fault(RenderFault::TypeError),
        FmtError::NoMemory => TextError::NoMemory,
    }
}

/// The error of a formatx template.
pub(crate) fn formatx_told(error: formatx::Error) -> TextError
    ensures { TellsFormatx error result }
{
    match error {
        formatx::Error::Parse { .. } => TextError::Fault(RenderFault::Parse),
        formatx::Error::MissingArgument { .. } => TextError::Fault(RenderFault::MissingArgument),
        formatx::Error::UnsupportedTrait { .. } => TextError::Fault(RenderFault::UnsupportedTrait),
        formatx::Error::NoMemory => TextError::NoMemory,
    }
}
