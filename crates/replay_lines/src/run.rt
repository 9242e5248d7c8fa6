// A run over an input.

use crate::tally::Tally;
use edge_io::{Sink, Source, write_all};
use replay::{Calls, Fault, Outcome, judge};
use std::alloc::{AllocError, Global};
use whiteread::Reader;
use whiteread::stream::{Error, IoFault};

/// How many bytes of input are taken at most.
const LIMIT: u64 = 268435456;

/// Why a run stopped before the end.
#[derive(Clone, Copy, Debug, PartialEq, Eq)]
enum Stop {
    TooLong,
    ReadFault,
    WriteFault,
    NoMemory,
}

impl From<AllocError> for Stop {
    fn from(_error: AllocError) -> Stop {
        Stop::NoMemory
    }
}

/// Makes the call of each line, and writes what differs and the counts. It answers the exit status: 0 where no line
/// failed, 1 where one did, 3 past the limit, 4 for a read fault, 5 for a write fault, 6 for want of memory.
pub fn replay<C: Calls, S: Source, K: Sink>(
    alloc: Global,
    calls: &C,
    input: &mut S,
    output: &mut K,
) -> u8 {
    match replay_lines(alloc, calls, input, output) {
        Ok(tally) if tally.failed == 0 => 0,
        Ok(_) => 1,
        Err(Stop::TooLong) => 3,
        Err(Stop::ReadFault) => 4,
        Err(Stop::WriteFault) => 5,
        Err(Stop::NoMemory) => 6,
    }
}

fn replay_lines<C: Calls, S: Source, K: Sink>(
    alloc: Global,
    calls: &C,
    input: &mut S,
    output: &mut K,
) -> Result<Tally, Stop> {
    let mut reader = Reader::new(alloc, input, LIMIT);
    let mut tally = Tally::new();
    'lines: for number in 1..u64::MAX {
        let Some(outcome) = next_outcome(alloc, calls, &mut reader)? else {
            break 'lines;
        };
        if let Outcome::Failed(why) = &outcome {
            tell(output, &format!(in alloc; "line {number}: {why}\n")?)?;
        }
        tally.count(&outcome);
    }
    tell(output, &tally.text(alloc)?)?;
    Ok(tally)
}

/// What came of the next line, where there is one.
fn next_outcome<C: Calls, S: Source>(
    alloc: Global,
    calls: &C,
    reader: &mut Reader<S>,
) -> Result<Option<Outcome>, Stop> {
    match reader.advance_line() {
        Ok(true) => match judge(alloc, calls, text_of(reader.current_line())) {
            Ok(outcome) => Ok(Some(outcome)),
            Err(_) => Err(Stop::NoMemory),
        },
        Ok(false) => Ok(None),
        Err(why) => match why.into_inner() {
            Error::IoError(IoFault::NotUtf8) => {
                Ok(Some(Outcome::Failed(Fault::NotUtf8.to_string(alloc)?)))
            }
            Error::IoError(IoFault::ReadFault) => Err(Stop::ReadFault),
            Error::IoError(IoFault::TooLong) => Err(Stop::TooLong),
            _ => Err(Stop::NoMemory),
        },
    }
}

/// The line without the line feed that ends it.
fn text_of(line: &str) -> &str {
    line.strip_suffix('\n').unwrap_or(line)
}

fn tell<K: Sink>(output: &mut K, text: &str) -> Result<(), Stop> {
    write_all(output, text.as_bytes()).map_err(|_| Stop::WriteFault)
}
