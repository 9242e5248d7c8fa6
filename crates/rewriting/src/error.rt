// Why a run of the rewriting job ends.
ghost use Rattle.std.specs.Prelude.{◌≡◌};
ghost use Rattle.line_job.specs.declared.stop.Stop.TheVariants.{Line};
ghost use Rattle.rewriting.specs.Error.{error_of};

use header_lines::LineCause;
use line_job::Stop;
use printer::{RenderFault, TemplateFault};
use row_plan::Refused;
use std::alloc::AllocError;

/// Why the rewriting job ended without success. Lines count from 1.
#[derive(Clone, Copy, Debug, PartialEq, Eq)]
pub enum ReformatError {
    /// A header line is missing, or it is the kinds line and has a word that names no kind, or it is the dialect line and
    /// isn't one dialect word.
    Header { line: u64 },
    /// The format line is no printf format.
    SourceFormat { line: u64 },
    /// The rows of the format can't be read back.
    Refused { line: u64, why: Refused },
    /// The template isn't in the grammar of its dialect.
    Template { line: u64, why: TemplateFault },
    /// No list of values prints to this line.
    NotARow { line: u64 },
    /// The line has its list, and the template has no text for it.
    Render { line: u64, fault: RenderFault },
    /// The line isn't UTF-8.
    NotUtf8 { line: u64 },
    /// More bytes came than the limit allows.
    TooLong,
    /// A read failed.
    ReadFault,
    /// A write failed.
    WriteFault,
    /// There was no memory.
    NoMemory,
}

impl From<AllocError> for ReformatError {
    ghost use Rattle.rewriting.specs.declared.error.ReformatError.TheVariants.{NoMemory};

    ghost from_gives = { λ _ error. error ≡ NoMemory };

    fn from(_: AllocError) -> ReformatError {
        ReformatError::NoMemory
    }
}

impl From<LineCause> for ReformatError {
    ghost from_gives = { λ cause error. error ≡ error_of (Line cause) };

    fn from(cause: LineCause) -> Self {
        match cause {
            LineCause::Header { line } => ReformatError::Header { line },
            LineCause::SourceFormat { line } => ReformatError::SourceFormat { line },
            LineCause::Refused { line, why } => ReformatError::Refused { line, why },
            LineCause::Template { line, why } => ReformatError::Template { line, why },
            LineCause::NotARow { line } => ReformatError::NotARow { line },
            LineCause::Render { line, fault } => ReformatError::Render { line, fault },
        }
    }
}

impl From<Stop<LineCause>> for ReformatError {
    ghost from_gives = { λ stop error. error ≡ error_of stop };

    fn from(stop: Stop<LineCause>) -> Self {
        match stop {
            Stop::Line(cause) => ReformatError::from(cause),
            Stop::NotUtf8 { line } => ReformatError::NotUtf8 { line },
            Stop::TooLong => ReformatError::TooLong,
            Stop::ReadFault => ReformatError::ReadFault,
            Stop::WriteFault => ReformatError::WriteFault,
            Stop::NoMemory => ReformatError::NoMemory,
        }
    }
}
