// Why a run stops, and what is told of it.
ghost use Rattle.std.specs.Prelude.{◌≡◌};
ghost use Rattle.line_job.specs.declared.stop.Stop.TheVariants.{WriteFault};
ghost use Rattle.line_job.specs.Ends.{Tells, sink_seen};
ghost use Rattle.line_job.specs.Told.{status_of};

use crate::job::Refusal;
use edge_io::{Failed, Sink, write_all};
use std::alloc::AllocError;

/// Why a run stops before its end. Lines count from 1.
#[derive(Clone, Copy, Debug, PartialEq, Eq)]
pub enum Stop<W: Copy> {
    /// The job refuses a line, or misses one.
    Line(W),
    /// The line isn't UTF-8.
    NotUtf8 { line: u64 },
    /// More bytes came than the limit allows.
    TooLong,
    /// A read failed.
    ReadFault,
    /// A write failed.
    WriteFault,
    /// There was no memory.
    NoMemory,
}

impl<W: Copy> From<Failed> for Stop<W> {
    ghost from_gives = { λ _ stop. stop ≡ WriteFault };

    /// A write that failed.
    fn from(_: Failed) -> Self {
        Stop::WriteFault
    }
}

impl<W: Copy> From<AllocError> for Stop<W> {
    ghost use Rattle.line_job.specs.declared.stop.Stop.TheVariants.{NoMemory};

    ghost from_gives = { λ _ stop. stop ≡ NoMemory };

    fn from(_: AllocError) -> Self {
        Stop::NoMemory
    }
}

impl<W: Copy> From<Refusal<W>> for Stop<W> {
    ghost use Rattle.line_job.specs.Stop.{stop_of};

    ghost from_gives = { λ refusal stop. stop ≡ stop_of refusal };

    /// A line that the job refuses, or its want of memory.
    fn from(refusal: Refusal<W>) -> Self {
        match refusal {
            Refusal::Line(why) => Stop::Line(why),
            Refusal::NoMemory => Stop::NoMemory,
        }
    }
}

/// The exit status of a stop: 1 for a refused line, 3 past the limit, 4 for a read fault, 5 for a write fault, 6 for want
/// of memory. Success has the status 0.
pub fn status_of<W: Copy>(stop: Stop<W>) -> u8
    ensures { result ≡ status_of stop }
{
    match stop {
        Stop::Line(_) => 1,
        Stop::NotUtf8 { .. } => 1,
        Stop::TooLong => 3,
        Stop::ReadFault => 4,
        Stop::WriteFault => 5,
        Stop::NoMemory => 6,
    }
}

/// Writes a text to the error output, as far as that takes it.
pub fn tell<E: Sink>(errors: &mut E, text: &[u8])
    ensures { Tells (sink_seen E.held E.faults errors.old errors.new) text.now }
{
    let _ = write_all(errors, text);
}
