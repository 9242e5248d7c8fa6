// Readers over standard input and over a file, and the values of a whole input.
ghost use Rattle.std.specs.Prelude.{IfOk, IfErr};
ghost use Rattle.whiteread.specs.ReaderState.Opened.{IsNew, IsNotOpened, FinishesNew, OpensAndFinishes, ReadsNewLine};

use crate::reader::one_line::parse_line_from;
use crate::reader::{Error, Reader, Result};
use crate::stream;
use crate::stream::{FromStream, IoFault};
use edge_io::{FileSource, OpenFault, Source, StdinSource};
use std::alloc::Global;

impl Reader<StdinSource> {
    /// A reader over standard input, that takes at most `limit` bytes. Nothing is read yet. Bytes that it has taken
    /// are lost for other readers of standard input.
    pub fn from_stdin_naive(rt: &HostRuntime, alloc: Global, limit: u64) -> Reader<StdinSource>
        ensures { IsNew ⟦<StdinSource as Source>⟧.supply limit result }
    {
        Reader::new(alloc, StdinSource::new(rt), limit)
    }
}

impl Reader<FileSource> {
    /// A reader over a file, that takes at most `limit` bytes. Nothing is read yet.
    pub fn open(
        rt: &HostRuntime,
        alloc: Global,
        path: &str,
        limit: u64,
    ) -> Result<Reader<FileSource>>
        ensures ok { IfOk result (λ reader. IsNew ⟦<FileSource as Source>⟧.supply limit reader) }
        ensures err { IfErr result IsNotOpened }
    {
        match FileSource::open(rt, alloc, path) {
            Ok(file) => Ok(Reader::new(alloc, file, limit)),
            Err(fault) => Err(Error::without_place(match fault {
                OpenFault::CannotOpen => stream::Error::IoError(IoFault::CannotOpen),
                OpenFault::NoMemory => stream::Error::NoMemory,
            })),
        }
    }
}

/// Reads a value from one line of standard input; the row is for its errors.
pub fn parse_line<T: FromStream>(rt: &HostRuntime, alloc: Global, row: u64) -> Result<T>
    ensures { ReadsNewLine ⟦<StdinSource as Source>⟧.supply T.reading row T.REQUEST_CHEAP_ERROR result }
{
    let mut source = StdinSource::new(rt);
    parse_line_from(alloc, &mut source, row)
}

/// Reads a value from the whole standard input, of which it takes at most `limit` bytes.
pub fn parse_stdin<T: FromStream>(rt: &HostRuntime, alloc: Global, limit: u64) -> Result<T>
    ensures { FinishesNew ⟦<StdinSource as Source>⟧.supply T.reading limit T.REQUEST_CHEAP_ERROR result }
{
    let mut reader = Reader::from_stdin_naive(rt, alloc, limit);
    reader.finish()
}

/// Reads a value from a whole file, of which it takes at most `limit` bytes.
pub fn parse_file<T: FromStream>(
    rt: &HostRuntime,
    alloc: Global,
    path: &str,
    limit: u64,
) -> Result<T>
    ensures { OpensAndFinishes ⟦<FileSource as Source>⟧.supply T.reading limit T.REQUEST_CHEAP_ERROR result }
{
    let mut reader = Reader::open(rt, alloc, path, limit)?;
    reader.finish()
}
