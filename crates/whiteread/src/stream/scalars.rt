// Values of one word.
ghost use Rattle.std.specs.Prelude.{◌≡◌, string_bytes, pos, false, []};
ghost use Rattle.std.specs.Int.{w8, w16, w32, w64};
ghost use Rattle.whiteread.specs.Reading.{ReadCall};
ghost use Rattle.whiteread.specs.Reading.Reads.{unsigned, signed, boolean, any_word, character, nothing, one_word, parsed};
ghost use Rattle.whiteread.specs.Inner.ReadingProofs.{word_front, nothing_front, eats_word};

use crate::stream::{Eats, Error, FromStream, IsZero, Progress, Result, StrStream};
use std::alloc::Global;
use std::str::FromStr;

/// Reads one word by the type's own `parse`.
fn parse_word<T: FromStr, I: StrStream>(it: &mut I) -> Result<T>
where
    T::Err: Drop,
    ensures { ReadCall I.stream (one_word (parsed T.from_str_gives)) it.old result it.new }
{
    let Some(word) = it.next()? else {
        return Err(Error::TooShort(Progress::Nothing));
    };
    match word.parse::<T>() {
        Ok(value) => Ok(value),
        Err(_) => Err(Error::ParseError),
    }
}

impl FromStream for u8 {
    const REQUEST_CHEAP_ERROR: bool = false;

    ghost REQUEST_CHEAP_ERROR = { false };

    ghost reading = { unsigned 8 };

    ghost is_reading = { word_front _ };

    fn read<I: StrStream>(_alloc: Global, it: &mut I) -> Result<Self> {
        parse_word(it)
    }
}

impl Eats for u8 {
    ghost eats = { eats_word };
}

impl IsZero for u8 {
    ghost zero = { λ value. value ≡ 0 };

    fn is_zero(&self) -> bool {
        *self == 0
    }
}

impl FromStream for u16 {
    const REQUEST_CHEAP_ERROR: bool = false;

    ghost REQUEST_CHEAP_ERROR = { false };

    ghost reading = { unsigned 16 };

    ghost is_reading = { word_front _ };

    fn read<I: StrStream>(_alloc: Global, it: &mut I) -> Result<Self> {
        parse_word(it)
    }
}

impl Eats for u16 {
    ghost eats = { eats_word };
}

impl IsZero for u16 {
    ghost zero = { λ value. value ≡ 0 };

    fn is_zero(&self) -> bool {
        *self == 0
    }
}

impl FromStream for u32 {
    const REQUEST_CHEAP_ERROR: bool = false;

    ghost REQUEST_CHEAP_ERROR = { false };

    ghost reading = { unsigned 32 };

    ghost is_reading = { word_front _ };

    fn read<I: StrStream>(_alloc: Global, it: &mut I) -> Result<Self> {
        parse_word(it)
    }
}

impl Eats for u32 {
    ghost eats = { eats_word };
}

impl IsZero for u32 {
    ghost zero = { λ value. value ≡ 0 };

    fn is_zero(&self) -> bool {
        *self == 0
    }
}

impl FromStream for u64 {
    const REQUEST_CHEAP_ERROR: bool = false;

    ghost REQUEST_CHEAP_ERROR = { false };

    ghost reading = { unsigned 64 };

    ghost is_reading = { word_front _ };

    fn read<I: StrStream>(_alloc: Global, it: &mut I) -> Result<Self> {
        parse_word(it)
    }
}

impl Eats for u64 {
    ghost eats = { eats_word };
}

impl IsZero for u64 {
    ghost zero = { λ value. value ≡ 0 };

    fn is_zero(&self) -> bool {
        *self == 0
    }
}

impl FromStream for usize {
    const REQUEST_CHEAP_ERROR: bool = false;

    ghost REQUEST_CHEAP_ERROR = { false };

    ghost reading = { unsigned 64 };

    ghost is_reading = { word_front _ };

    fn read<I: StrStream>(_alloc: Global, it: &mut I) -> Result<Self> {
        parse_word(it)
    }
}

impl Eats for usize {
    ghost eats = { eats_word };
}

impl IsZero for usize {
    ghost zero = { λ value. value ≡ 0 };

    fn is_zero(&self) -> bool {
        *self == 0
    }
}

impl FromStream for i8 {
    const REQUEST_CHEAP_ERROR: bool = false;

    ghost REQUEST_CHEAP_ERROR = { false };

    ghost reading = { signed w8 };

    ghost is_reading = { word_front _ };

    fn read<I: StrStream>(_alloc: Global, it: &mut I) -> Result<Self> {
        parse_word(it)
    }
}

impl Eats for i8 {
    ghost eats = { eats_word };
}

impl IsZero for i8 {
    ghost zero = { λ value. value ≡ pos 0 };

    fn is_zero(&self) -> bool {
        *self == 0
    }
}

impl FromStream for i16 {
    const REQUEST_CHEAP_ERROR: bool = false;

    ghost REQUEST_CHEAP_ERROR = { false };

    ghost reading = { signed w16 };

    ghost is_reading = { word_front _ };

    fn read<I: StrStream>(_alloc: Global, it: &mut I) -> Result<Self> {
        parse_word(it)
    }
}

impl Eats for i16 {
    ghost eats = { eats_word };
}

impl IsZero for i16 {
    ghost zero = { λ value. value ≡ pos 0 };

    fn is_zero(&self) -> bool {
        *self == 0
    }
}

impl FromStream for i32 {
    const REQUEST_CHEAP_ERROR: bool = false;

    ghost REQUEST_CHEAP_ERROR = { false };

    ghost reading = { signed w32 };

    ghost is_reading = { word_front _ };

    fn read<I: StrStream>(_alloc: Global, it: &mut I) -> Result<Self> {
        parse_word(it)
    }
}

impl Eats for i32 {
    ghost eats = { eats_word };
}

impl IsZero for i32 {
    ghost zero = { λ value. value ≡ pos 0 };

    fn is_zero(&self) -> bool {
        *self == 0
    }
}

impl FromStream for i64 {
    const REQUEST_CHEAP_ERROR: bool = false;

    ghost REQUEST_CHEAP_ERROR = { false };

    ghost reading = { signed w64 };

    ghost is_reading = { word_front _ };

    fn read<I: StrStream>(_alloc: Global, it: &mut I) -> Result<Self> {
        parse_word(it)
    }
}

impl Eats for i64 {
    ghost eats = { eats_word };
}

impl IsZero for i64 {
    ghost zero = { λ value. value ≡ pos 0 };

    fn is_zero(&self) -> bool {
        *self == 0
    }
}

impl FromStream for isize {
    const REQUEST_CHEAP_ERROR: bool = false;

    ghost REQUEST_CHEAP_ERROR = { false };

    ghost reading = { signed w64 };

    ghost is_reading = { word_front _ };

    fn read<I: StrStream>(_alloc: Global, it: &mut I) -> Result<Self> {
        parse_word(it)
    }
}

impl Eats for isize {
    ghost eats = { eats_word };
}

impl IsZero for isize {
    ghost zero = { λ value. value ≡ pos 0 };

    fn is_zero(&self) -> bool {
        *self == 0
    }
}

impl FromStream for bool {
    const REQUEST_CHEAP_ERROR: bool = false;

    ghost REQUEST_CHEAP_ERROR = { false };

    ghost reading = { boolean };

    ghost is_reading = { word_front _ };

    fn read<I: StrStream>(_alloc: Global, it: &mut I) -> Result<Self> {
        parse_word(it)
    }
}

impl Eats for bool {
    ghost eats = { eats_word };
}

impl IsZero for bool {
    ghost zero = { λ value. value ≡ false };

    fn is_zero(&self) -> bool {
        !*self
    }
}

/// Reads any word.
impl FromStream for String {
    const REQUEST_CHEAP_ERROR: bool = false;

    ghost REQUEST_CHEAP_ERROR = { false };

    ghost reading = { any_word };

    ghost is_reading = { word_front _ };

    fn read<I: StrStream>(alloc: Global, it: &mut I) -> Result<Self> {
        let Some(word) = it.next()? else {
            return Err(Error::TooShort(Progress::Nothing));
        };
        Ok(String::from_str(alloc, word)?)
    }
}

impl Eats for String {
    ghost eats = { eats_word };
}

impl IsZero for String {
    ghost zero = { λ text. string_bytes text ≡ [] };

    fn is_zero(&self) -> bool {
        self.is_empty()
    }
}

/// Reads a word, and gives its first character.
impl FromStream for char {
    const REQUEST_CHEAP_ERROR: bool = false;

    ghost REQUEST_CHEAP_ERROR = { false };

    ghost reading = { character };

    ghost is_reading = { word_front _ };

    fn read<I: StrStream>(_alloc: Global, it: &mut I) -> Result<Self> {
        let Some(word) = it.next()? else {
            return Err(Error::TooShort(Progress::Nothing));
        };
        match word.chars().next() {
            Some(c) => Ok(c),
            None => Err(Error::ParseError),
        }
    }
}

impl Eats for char {
    ghost eats = { eats_word };
}

impl IsZero for char {
    ghost zero = { λ c. c ≡ 0 };

    fn is_zero(&self) -> bool {
        *self == '\0'
    }
}

/// Reads nothing.
impl FromStream for () {
    const REQUEST_CHEAP_ERROR: bool = false;

    ghost REQUEST_CHEAP_ERROR = { false };

    ghost reading = { nothing };

    ghost is_reading = { nothing_front };

    fn read<I: StrStream>(_alloc: Global, _it: &mut I) -> Result<Self> {
        Ok(())
    }
}
