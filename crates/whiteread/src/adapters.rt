// Adapters, which read in another way than their contents.
ghost use Rattle.std.specs.Prelude.{◌≡◌, [], true, false};
ghost use Rattle.whiteread.specs.Reading.{ReadCall};
ghost use Rattle.whiteread.specs.Reading.Tuples.{around};
ghost use Rattle.whiteread.specs.Reading.Adapted.{one_skipped, all_skipped, counted, to_zero};
ghost use Rattle.whiteread.specs.Inner.ReadingProofs.{around_front, one_skipped_front, all_skipped_front, counted_front, to_zero_front, eats_word};

use crate::stream::{Eats, FromStream, IsZero, Result, StrStream, read_later};
use std::alloc::Global;

/// Passes one word, if there is one.
#[derive(Default, Debug, PartialEq, Eq, Drop)]
pub struct Skip;

impl FromStream for Skip {
    const REQUEST_CHEAP_ERROR: bool = false;

    ghost REQUEST_CHEAP_ERROR = { false };

    ghost reading = { one_skipped };

    ghost is_reading = { one_skipped_front };

    fn read<I: StrStream>(_alloc: Global, it: &mut I) -> Result<Self> {
        let _word = it.next()?;
        Ok(Skip)
    }
}

/// Passes all words.
#[derive(Default, Debug, PartialEq, Eq, Drop)]
pub struct SkipAll;

impl FromStream for SkipAll {
    const REQUEST_CHEAP_ERROR: bool = false;

    ghost REQUEST_CHEAP_ERROR = { false };

    ghost reading = { all_skipped };

    ghost is_reading = { all_skipped_front };

    fn read<I: StrStream>(_alloc: Global, it: &mut I) -> Result<Self> {
        'words: while it.next()?.is_some() {}
        Ok(SkipAll)
    }
}

/// A count, and then so many values. It grows value by value, whatever the count says.
#[derive(Debug, PartialEq, Eq, Drop)]
pub struct Lengthed<T>(pub Vec<T>);

impl<T: Eats> FromStream for Lengthed<T> {
    const REQUEST_CHEAP_ERROR: bool = false;

    ghost REQUEST_CHEAP_ERROR = { false };

    ghost reading = { counted (λ values. values.0.items) T.reading };

    ghost is_reading = { counted_front (λ values. values.0.items) T.reading T.is_reading };

    fn read<I: StrStream>(alloc: Global, it: &mut I) -> Result<Self> {
        let count = usize::read(alloc, it)?;
        let mut values = Vec::new(alloc);
        'values: while values.len() < count {
            let value = read_later::<T, I>(alloc, it)?;
            values.push(value)?;
        }
        Ok(Lengthed(values))
    }
}

impl<T: Eats> Eats for Lengthed<T> {
    ghost eats = { eats_word };
}

impl<T: Eats> IsZero for Lengthed<T> {
    ghost zero = { λ values. values.0.items ≡ [] };

    fn is_zero(&self) -> bool {
        self.0.is_empty()
    }
}

/// Values up to the first zero, which is dropped.
#[derive(Debug, Drop)]
pub struct Zeroed<T>(pub Vec<T>);

impl<T: Eats + IsZero> FromStream for Zeroed<T> {
    const REQUEST_CHEAP_ERROR: bool = false;

    ghost REQUEST_CHEAP_ERROR = { false };

    ghost reading = { to_zero (λ values. values.0.items) T.zero T.reading };

    ghost is_reading = { to_zero_front (λ values. values.0.items) T.zero T.reading T.is_reading };

    fn read<I: StrStream>(alloc: Global, it: &mut I) -> Result<Self> {
        let mut values = Vec::new(alloc);
        let mut value = T::read(alloc, it)?;
        'values: while !value.is_zero() {
            values.push(value)?;
            value = read_later::<T, I>(alloc, it)?;
        }
        Ok(Zeroed(values))
    }
}

impl<T: Eats + IsZero> Eats for Zeroed<T> {
    ghost eats = { T.eats };
}

/// The same value, whose errors show no line.
#[derive(Default, Debug, Drop)]
pub struct WithCheapError<T>(pub T);

impl<T: FromStream> FromStream for WithCheapError<T> {
    const REQUEST_CHEAP_ERROR: bool = true;

    ghost REQUEST_CHEAP_ERROR = { true };

    ghost reading = { around (λ value. value.0) T.reading };

    ghost is_reading = { around_front (λ value. value.0) T.reading T.is_reading };

    fn read<I: StrStream>(alloc: Global, it: &mut I) -> Result<Self> {
        Ok(WithCheapError(T::read(alloc, it)?))
    }
}

impl<T: Eats> Eats for WithCheapError<T> {
    ghost eats = { T.eats };
}
