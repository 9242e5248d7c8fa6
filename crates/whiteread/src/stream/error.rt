// Why a value can't be read.
ghost use Rattle.std.specs.Prelude.{◌≡◌, ◌↔◌, IsTrue, Some};
ghost use Rattle.whiteread.specs.declared.stream.error.Progress.{Progress};
ghost use Rattle.whiteread.specs.declared.stream.error.IoFault.{IoFault};

use std::alloc::{AllocError, AllocFailed};
use std::fmt;

/// How much of a value was read before the words ended.
#[derive(Debug, Drop)]
pub enum Progress {
    /// No word of it.
    Nothing,
    /// A part of it.
    Partial,
}

/// What went wrong with the input behind a stream.
#[derive(Debug, PartialEq, Drop)]
pub enum IoFault {
    /// A read of the source failed.
    ReadFault,
    /// A line isn't UTF-8.
    NotUtf8,
    /// The input is past its limit.
    TooLong,
    /// A file can't be opened.
    CannotOpen,
}

/// Why a value can't be read.
#[derive(Debug, Drop)]
pub enum Error {
    /// The words ended before the value, or within it.
    TooShort(Progress),
    /// Words are left after the value.
    Leftovers,
    /// A word doesn't spell a value of its type.
    ParseError,
    /// The input gave a fault.
    IoError(IoFault),
    /// There was no memory.
    NoMemory,
}

pub type Result<T> = std::result::Result<T, Error>;

impl From<AllocError> for Error {
    ghost use Rattle.whiteread.specs.declared.stream.error.Error.TheVariants.{NoMemory};

    ghost from_gives = { λ _ error. error ≡ NoMemory };

    fn from(_: AllocError) -> Error {
        Error::NoMemory
    }
}

impl<T: Drop> From<AllocFailed<T>> for Error {
    ghost use Rattle.whiteread.specs.declared.stream.error.Error.TheVariants.{NoMemory};

    ghost from_gives = { λ _ error. error ≡ NoMemory };

    fn from(_: AllocFailed<T>) -> Error {
        Error::NoMemory
    }
}

impl Error {
    pub fn is_too_short(&self) -> bool
        ensures { IsTrue result ↔ ((progress : Progress) × (self.now ≡ Error.TooShort progress)) }
    {
        matches!(self, Error::TooShort(_))
    }

    pub fn is_nothing(&self) -> bool
        ensures { IsTrue result ↔ (self.now ≡ Error.TooShort Progress.Nothing) }
    {
        matches!(self, Error::TooShort(Progress::Nothing))
    }

    pub fn is_partial(&self) -> bool
        ensures { IsTrue result ↔ (self.now ≡ Error.TooShort Progress.Partial) }
    {
        matches!(self, Error::TooShort(Progress::Partial))
    }

    pub fn is_leftovers(&self) -> bool
        ensures { IsTrue result ↔ (self.now ≡ Error.Leftovers) }
    {
        matches!(self, Error::Leftovers)
    }

    pub fn is_parse_error(&self) -> bool
        ensures { IsTrue result ↔ (self.now ≡ Error.ParseError) }
    {
        matches!(self, Error::ParseError)
    }

    pub fn is_io_error(&self) -> bool
        ensures { IsTrue result ↔ ((fault : IoFault) × (self.now ≡ Error.IoError fault)) }
    {
        matches!(self, Error::IoError(_))
    }
}

impl fmt::Display for Error {
    ghost use Rattle.whiteread.specs.Located.ErrorText.{error_text};

    ghost output = { λ error. Some (error_text error) };

    fn fmt<W: fmt::Write>(&self, f: &mut fmt::Formatter<W>) -> fmt::Result {
        f.write_str(match self {
            Error::TooShort(Progress::Nothing) => "not enough input to start parsing a value",
            Error::TooShort(Progress::Partial) => "not enough input to finish parsing a value",
            Error::Leftovers => "excessive input provided",
            Error::ParseError => "parse error occured",
            Error::IoError(IoFault::ReadFault) => "read fault",
            Error::IoError(IoFault::NotUtf8) => "not UTF-8",
            Error::IoError(IoFault::TooLong) => "past the limit",
            Error::IoError(IoFault::CannotOpen) => "cannot open",
            Error::NoMemory => "no memory",
        })
    }
}

impl std::error::Error for Error {}
