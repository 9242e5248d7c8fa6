// The lines of an input, one by one.
ghost use Rattle.std.specs.Prelude.{◌≡◌, ◌↔◌, IsTrue, length};
ghost use Rattle.whiteread.specs.Lines.{without_feed};
ghost use Rattle.whiteread.specs.ReaderState.{reader_source};
ghost use Rattle.line_job.specs.Inner.NextLine.{IsOpen, IsReady, NextLine, IsToldAs};

use edge_io::Source;
use whiteread::Reader;
use whiteread::stream::{Error, IoFault};

/// Why no line could be had.
#[derive(Clone, Copy)]
pub(crate) enum LineFault {
    ReadFault,
    /// The line of this number isn't UTF-8.
    NotUtf8(u64),
    TooLong,
    NoMemory,
}

/// The line without the line feed that ends it.
pub(crate) fn text_of(line: &str) -> &str
    ensures { result.now ≡ without_feed line.now }
{
    match line.strip_suffix('\n') {
        Some(text) => text,
        None => line,
    }
}

// Whether the line is there and no line feed ends it, so that it is the last.
fn is_open(line: &str) -> bool
    ensures { IsTrue result ↔ IsOpen line.now }
{
    !line.is_empty() && text_of(line).len() == line.len()
}

// The fault that a reader's error is told as; the number is that of the line that was wanted.
fn fault_of(error: Error, number: u64) -> LineFault
    ensures { IsToldAs error number result }
{
    match error {
        Error::IoError(IoFault::ReadFault) => LineFault::ReadFault,
        Error::IoError(IoFault::NotUtf8) => LineFault::NotUtf8(number),
        Error::IoError(IoFault::TooLong) => LineFault::TooLong,
        _ => LineFault::NoMemory,
    }
}

/// Reads the next line, after so many were taken, and answers true; or answers false where none is left. After a line
/// that no line feed ends nothing is read.
pub(crate) fn next_line<B: Source>(reader: &mut Reader<B>, before: u64) -> Result<bool, LineFault>
    requires { IsReady B.supply before reader.old }
    ensures step { NextLine B.supply before reader.old result reader.new }
    ensures same_reference { B.supply.reference (reader_source reader.new) ≡ B.supply.reference (reader_source reader.old) }
{
    if is_open(reader.current_line()) {
        return Ok(false);
    }
    match reader.advance_line() {
        Ok(found) => Ok(found),
        Err(why) => Err(fault_of(why.into_inner(), before.saturating_add(1))),
    }
}
