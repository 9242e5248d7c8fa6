// Lines of a source, read in pieces, and the values that are read from them.
ghost use Rattle.std.specs.Prelude.{◌≡◌, ◌≤◌, ◌↔◌, [], true, false, IsTrue, IfErr, length, take, drop, IsCharBoundary};
ghost use Rattle.edge_io.specs.Ends.{Rises};
ghost use Rattle.whiteread.specs.Lines.{HasNoFeed, IsFirstLine};
ghost use Rattle.whiteread.specs.ReaderState.Buffer.{buffer_line, buffer_waiting};

mod buffer;
pub(crate) mod ends;
mod error;
pub(crate) mod one_line;
mod values;
mod words;

use crate::stream;
use crate::stream::IoFault;
use buffer::Buffer;
use edge_io::Source;
pub use error::{Error, Result};
use std::alloc::Global;

/// How many bytes a read asks for at most.
const PIECE: u64 = 4096;

/// One more of a fault. The count stands still at the greatest u64.
fn counted(count: u64) -> u64
    ensures { Rises count result }
{
    count.saturating_add(1)
}

/// Hands out the lines of a source one by one, and reads words and values from them. It takes at most so many bytes
/// as its limit says, reads only where no whole line is waiting, and holds no more than a line and a read.
#[derive(Drop)]
pub struct Reader<B> {
    alloc: Global,
    source: B,
    limit: u64,
    taken: u64,
    past: bool,
    buffer: Buffer,
    passed: usize,
    row: u64,
    not_utf8: u64,
    too_long: u64,
    ghost within: { taken ≤ limit },
    ghost full: { past ≡ true → taken ≡ limit },
    ghost no_line: { past ≡ true → HasNoFeed (buffer_waiting buffer) },
    ghost boundary: { IsCharBoundary (buffer_line buffer) passed },
}

impl<B: Source> Reader<B> {
    ghost use Rattle.whiteread.specs.ReaderState.{reader_source, reader_limit, reader_taken, reader_past, reader_waiting, reader_line, reader_passed, reader_row, reader_faults, fault_counts, ShowsSame};
    ghost use Rattle.whiteread.specs.LineCall.{LineCall};
    ghost use Rattle.whiteread.specs.Inner.LineSteps.{AwaitCall, PieceCall, TakeCall};
    ghost use Rattle.whiteread.specs.Located.{inner_answer, unplaced};

    /// A reader over the source, with no line yet, that takes at most `limit` bytes. It takes no memory.
    pub fn new(alloc: Global, buf: B, limit: u64) -> Reader<B>
        ensures source { reader_source result ≡ buf }
        ensures limit { reader_limit result ≡ limit }
        ensures taken { reader_taken result ≡ 0 }
        ensures past { reader_past result ≡ false }
        ensures waiting { reader_waiting result ≡ [] }
        ensures line { reader_line result ≡ [] }
        ensures passed { reader_passed result ≡ 0 }
        ensures row { reader_row result ≡ 0 }
        ensures faults { reader_faults B.supply result ≡ fault_counts (B.supply.faults buf) 0 0 }
    {
        Reader {
            alloc,
            source: buf,
            limit,
            taken: 0,
            past: false,
            buffer: Buffer::new(alloc),
            passed: 0,
            row: 0,
            not_utf8: 0,
            too_long: 0,
        }
    }

    /// Reads a new line, whose words stay to be read, and answers true; or answers false at the end of the input.
    /// It refuses by `IoError` and `NoMemory` alone.
    pub fn advance_line(&mut self) -> Result<bool>
        ensures line { LineCall B.supply self.old (inner_answer result) self.new }
        ensures no_place { IfErr result (λ error. error ≡ unplaced error.error) }
    {
        match self.read_line() {
            Ok(found) => Ok(found),
            Err(why) => Err(Error::without_place(why)),
        }
    }

    /// The current line, its line feed included; empty where there is none.
    pub fn current_line(&self) -> &str
        ensures { result.now ≡ reader_line self.now }
    {
        self.buffer.line()
    }

    /// Whether a whole line is waiting, so that the next reading of a line makes no read.
    pub fn line_waits(&mut self) -> bool
        ensures waits { IsTrue result ↔ (¬ HasNoFeed (reader_waiting self.old)) }
        ensures unchanged { ShowsSame self.old self.new }
    {
        self.buffer.line_len().is_some()
    }

    /// The source. Bytes that were taken already are dropped.
    pub fn into_inner(self) -> B
        ensures { result ≡ reader_source self }
    {
        let Reader { source, .. } = self;
        source
    }

    /// Reads a new line: true where there is one, false at the end of the input.
    pub(crate) fn read_line(&mut self) -> stream::Result<bool>
        ensures { LineCall B.supply self.old result self.new }
    {
        self.buffer.clear_line();
        self.passed = 0;
        let Some(len) = self.await_line()? else {
            self.row = self.row.saturating_add(1);
            return Ok(false);
        };
        self.take_line(len)?;
        Ok(true)
    }

    /// Reads until a whole line waits, and answers its length; None where the input has ended.
    fn await_line(&mut self) -> stream::Result<Option<usize>>
        requires { reader_line self.old ≡ [] }
        ensures { AwaitCall B.supply self.old result self.new }
    {
        'reads: loop {
            if let Some(len) = self.buffer.line_len() {
                return Ok(Some(len));
            }
            if !self.read_piece()? {
                let len = self.buffer.len();
                if len == 0 {
                    return Ok(None);
                }
                return Ok(Some(len));
            }
        }
    }

    /// Makes one read, and answers whether it gave bytes. At the limit it asks for one byte, which is past it.
    fn read_piece(&mut self) -> stream::Result<bool>
        requires no_feed { HasNoFeed (reader_waiting self.old) }
        requires no_line { reader_line self.old ≡ [] }
        ensures { PieceCall B.supply self.old result self.new }
    {
        if self.past {
            self.too_long = counted(self.too_long);
            return Err(stream::Error::IoError(IoFault::TooLong));
        }
        if self.taken == self.limit {
            return self.probe();
        }
        let ask = (self.limit - self.taken).min(PIECE);
        let count = self.buffer.read_from(&mut self.source, ask as usize)?;
        self.taken += count as u64;
        Ok(count > 0)
    }

    /// Asks the source for one byte past the limit. It answers false where there is none, and refuses where there is.
    fn probe(&mut self) -> stream::Result<bool>
        requires no_line { HasNoFeed (reader_waiting self.old) }
        requires full { reader_taken self.old ≡ reader_limit self.old }
        requires within { reader_past self.old ≡ false }
        ensures { PieceCall B.supply self.old result self.new }
    {
        let mut byte = [0];
        match self.source.read(&mut byte) {
            Ok(0) => Ok(false),
            Ok(_) => {
                self.past = true;
                self.too_long = counted(self.too_long);
                Err(stream::Error::IoError(IoFault::TooLong))
            }
            Err(_) => Err(stream::Error::IoError(IoFault::ReadFault)),
        }
    }

    /// Makes the first bytes that wait the current line.
    fn take_line(&mut self, len: usize) -> stream::Result<()>
        requires waits { len ≤ length (reader_waiting self.old) }
        requires first { IsFirstLine (take len (reader_waiting self.old)) (drop len (reader_waiting self.old)) }
        requires none_passed { reader_passed self.old ≡ 0 }
        ensures { TakeCall B.supply len self.old result self.new }
    {
        let is_text = self.buffer.take_line(len);
        self.row = self.row.saturating_add(1);
        if !is_text {
            self.not_utf8 = counted(self.not_utf8);
            return Err(stream::Error::IoError(IoFault::NotUtf8));
        }
        Ok(())
    }
}
