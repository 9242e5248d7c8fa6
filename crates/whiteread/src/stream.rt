// Streams of words, and the values that are read from them.
ghost use Rattle.std.specs.Prelude.{◌≡◌, ◌<◌, ◌↔◌, ℕ, List, IsTrue, Bool};
ghost use Rattle.std.specs.Borrow.{sem};
ghost use Rattle.std.specs.Io.BufRead.{Rests};
ghost use Rattle.whiteread.specs.Stream.{Stream, IsStream, NextCall, answer_of};
ghost use Rattle.whiteread.specs.Reading.{Reading, ReadCall, IsReading};

mod containers;
mod error;
mod scalars;
mod split;
mod tuples;
mod white;
mod whole;

pub use error::{Error, IoFault, Progress, Result};
pub use split::SplitAsciiWhitespace;
pub(crate) use split::find_word;
use std::alloc::Global;
pub(crate) use tuples::read_later;
pub(crate) use whole::read_whole;

/// A stream of words. `next` lends the next word, or answers None at the end.
pub trait StrStream {
    /// The words left, the bound on them, the end, the step of one call, and the counts of faults.
    ghost stream: { Stream Self };

    /// Lends the next word. It refuses by `IoError` or `NoMemory` alone.
    fn next(&mut self) -> Result<Option<&str>>
        ensures* call { sem 𝓛 (Rests Self.row self.entry (λ new. NextCall stream self.old (answer_of result) new)) };

    ghost is_stream: { IsStream stream };
}

/// Splits a text at bytes of at most 0x20.
pub trait StrExt {
    ghost use Rattle.whiteread.specs.Words.Split.{split_text, split_position};

    ghost text: { Self → List ℕ };

    fn split_ascii_whitespace(&self) -> SplitAsciiWhitespace<'_>
        ensures text { split_text result ≡ text self.now }
        ensures position { split_position result ≡ 0 };
}

impl StrExt for &str {
    ghost text = { λ s. s.now };

    fn split_ascii_whitespace(&self) -> SplitAsciiWhitespace<'_> {
        SplitAsciiWhitespace::new(self)
    }
}

/// A type whose values are read from the words of a stream.
pub trait FromStream: Sized + Drop {
    /// A reader's errors show the line unless the type asks for cheap ones.
    const REQUEST_CHEAP_ERROR: bool;

    ghost REQUEST_CHEAP_ERROR: { Bool };

    /// What it reads.
    ghost reading: { Reading Self };

    /// Reads a value. It refuses by `TooShort`, `ParseError`, `IoError` or `NoMemory` alone.
    fn read<I: StrStream>(alloc: Global, it: &mut I) -> Result<Self>
        ensures { ReadCall I.stream reading it.old result it.new };

    ghost is_reading: { IsReading reading };
}

/// A type of which each value takes at least one word, so that a list of them ends.
pub trait Eats: FromStream {
    ghost eats: { 0 < Self.reading.least };
}

/// A type with a value that ends a list.
pub trait IsZero {
    ghost zero: { Self → Type 0 };

    fn is_zero(&self) -> bool
        ensures { IsTrue result ↔ zero self.now };
}
