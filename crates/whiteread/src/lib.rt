//! Words of a text, and typed values that are read from them.
#![tactic(auto)]

ghost use Rattle.whiteread.specs.Words.{words};
ghost use Rattle.whiteread.specs.Reading.Whole.{ReadsWhole};

pub mod adapters;
pub mod laws;
pub mod reader;
pub mod stream;

pub use reader::Reader;
pub use reader::ends::{parse_file, parse_line, parse_stdin};
pub use reader::one_line::parse_line_from;
use std::alloc::Global;
pub use stream::FromStream;
use stream::{SplitAsciiWhitespace, read_whole};

/// Reads a value from the whole text. It answers `Leftovers` where a word is left.
pub fn parse_string<T: FromStream>(alloc: Global, s: &str) -> stream::Result<T>
    ensures { ReadsWhole T.reading (words s.now) result }
{
    let mut words = SplitAsciiWhitespace::new(s);
    read_whole(alloc, &mut words)
}
