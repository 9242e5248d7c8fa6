// A value and then the end of the words.
ghost use Rattle.whiteread.specs.Reading.Whole.{WholeCall};

use crate::stream::{Error, FromStream, Result, StrStream};
use std::alloc::Global;

/// Reads a value, and looks once for a word after it, which is taken.
pub(crate) fn read_whole<T: FromStream, I: StrStream>(alloc: Global, words: &mut I) -> Result<T>
    ensures { WholeCall I.stream T.reading words.old result words.new }
{
    let value = T::read(alloc, words)?;
    if words.next()?.is_some() {
        return Err(Error::Leftovers);
    }
    Ok(value)
}
