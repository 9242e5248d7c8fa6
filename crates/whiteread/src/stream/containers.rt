// Optional values, and lists that go on to the end.
ghost use Rattle.std.specs.Prelude.{false};
ghost use Rattle.whiteread.specs.Reading.Reads.{optional, all_values};
ghost use Rattle.whiteread.specs.Inner.ReadingProofs.{optional_front, all_front};

use crate::stream::{Eats, Error, FromStream, Progress, Result, StrStream};
use std::alloc::Global;

impl<T: FromStream> FromStream for Option<T> {
    const REQUEST_CHEAP_ERROR: bool = false;

    ghost REQUEST_CHEAP_ERROR = { false };

    ghost reading = { optional T.reading };

    ghost is_reading = { optional_front T.reading T.is_reading };

    fn read<I: StrStream>(alloc: Global, it: &mut I) -> Result<Self> {
        match T::read(alloc, it) {
            Ok(value) => Ok(Some(value)),
            Err(Error::TooShort(Progress::Nothing)) => Ok(None),
            Err(why) => Err(why),
        }
    }
}

impl<T: Eats> FromStream for Vec<T> {
    const REQUEST_CHEAP_ERROR: bool = false;

    ghost REQUEST_CHEAP_ERROR = { false };

    ghost reading = { all_values T.reading };

    ghost is_reading = { all_front T.reading T.is_reading };

    fn read<I: StrStream>(alloc: Global, it: &mut I) -> Result<Self> {
        let mut values = Vec::new(alloc);
        'values: loop {
            match T::read(alloc, it) {
                Ok(value) => values.push(value)?,
                Err(Error::TooShort(Progress::Nothing)) => return Ok(values),
                Err(why) => return Err(why),
            }
        }
    }
}
