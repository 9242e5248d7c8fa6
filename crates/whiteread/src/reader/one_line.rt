// One line of a source, read without a reader.
ghost use Rattle.whiteread.specs.Lines.OneLine.{GivesByte, TakesOneLine, ReadsOneLine, ReadsText};

use crate::reader::{Error, Result};
use crate::stream;
use crate::stream::{FromStream, IoFault, SplitAsciiWhitespace, read_whole};
use edge_io::Source;
use std::alloc::Global;

/// The longest line that is taken, in bytes.
const LONGEST_LINE: usize = 268435456;

/// Takes one line of the source, byte by byte and no byte after its line feed, and reads a value from all its words.
/// At the end of the input the line is empty. Its errors stand in the row that is handed in. After a refusal the bytes
/// that it took are dropped. A line may have at most 268435456 bytes.
pub fn parse_line_from<T: FromStream, S: Source>(
    alloc: Global,
    source: &mut S,
    row: u64,
) -> Result<T>
    ensures { ReadsOneLine S.supply T.reading row T.REQUEST_CHEAP_ERROR source.old result source.new }
{
    let bytes = match take_line(alloc, source) {
        Ok(bytes) => bytes,
        Err(why) => return Err(Error::without_place(why)),
    };
    match std::str::from_utf8(&bytes) {
        Ok(line) => read_text(alloc, line, row),
        Err(_) => Err(Error::without_place(stream::Error::IoError(IoFault::NotUtf8))),
    }
}

/// Reads a value from all words of a line.
fn read_text<T: FromStream>(alloc: Global, line: &str, row: u64) -> Result<T>
    ensures { ReadsText T.reading row T.REQUEST_CHEAP_ERROR line.now result }
{
    let mut words = SplitAsciiWhitespace::new(line);
    match read_whole(alloc, &mut words) {
        Ok(value) => Ok(value),
        Err(why) => Err(Error::new(
            alloc,
            why,
            row,
            words.position(),
            line,
            T::REQUEST_CHEAP_ERROR,
        )),
    }
}

/// Takes the bytes of one line.
fn take_line<S: Source>(alloc: Global, source: &mut S) -> stream::Result<Vec<u8>>
    ensures { TakesOneLine S.supply source.old result source.new }
{
    let mut line = Vec::new(alloc);
    'bytes: loop {
        let Some(byte) = read_byte(source)? else {
            return Ok(line);
        };
        if line.len() == LONGEST_LINE {
            return Err(stream::Error::IoError(IoFault::TooLong));
        }
        if line.push(byte).is_err() {
            return Err(stream::Error::NoMemory);
        }
        if byte == b'\n' {
            return Ok(line);
        }
    }
}

/// Reads one byte; None at the end of the input.
fn read_byte<S: Source>(source: &mut S) -> stream::Result<Option<u8>>
    ensures { GivesByte S.supply source.old result source.new }
{
    let mut byte = [0];
    match source.read(&mut byte) {
        Ok(0) => Ok(None),
        Ok(_) => Ok(Some(byte[0])),
        Err(_) => Err(stream::Error::IoError(IoFault::ReadFault)),
    }
}
