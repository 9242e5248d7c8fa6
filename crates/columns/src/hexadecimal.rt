// Numbers in front of a text that are written by their bits, in hexadecimal or octal.
ghost use Rattle.std.specs.Prelude.{◌≡◌, ◌++◌, ◌≤◌, length, take, IfSome, false, true};
ghost use Rattle.columns.specs.Inner.Shapes.{base_of, is_upper, prefix_in, safe_digits, AreDigits, IsDigit, IsFilledInFront, IsTaken, IsWidened};
ghost use Rattle.columns.specs.Inner.Serves.{AreBounds};
ghost use Rattle.columns.specs.declared.take.Take.TheVariants.{Bits};

use crate::digit_tables::{LOWER, UPPER};
use crate::eight::{EIGHT, eight_hexadecimal};
use crate::number::has_zero_in_front;
use crate::step::behind;
use values::Kind;

/// A notation whose digits tell the bits of numbers: octal, or hexadecimal with small or capital letters.
#[derive(Clone, Copy)]
pub(crate) enum Notation {
    Octal,
    Lower,
    Upper,
}

/// How a field writes numbers by their bits.
#[derive(Clone, Copy)]
pub(crate) struct Form {
    pub(crate) notation: Notation,
    /// Whether the notation's prefix stands in front.
    pub(crate) prefix: bool,
    /// How many digits there are at least.
    pub(crate) width: usize,
    /// How many are looked at, at most, since another field's may follow.
    pub(crate) most: usize,
    /// The greatest number that the digits may stand for.
    pub(crate) greatest: u64,
    /// The greatest of these whose bits are not those of a negative number.
    pub(crate) middle: u64,
}

/// The greatest number whose bits a kind's numbers have, and the greatest of these that is not negative.
pub(crate) fn bounds_of(kind: Kind) -> Option<(u64, u64)>
    ensures { IfSome result (λ bounds. AreBounds kind bounds.0 bounds.1) }
{
    match kind {
        Kind::U8 => Some((255, 255)),
        Kind::U16 => Some((65_535, 65_535)),
        Kind::U32 => Some((4_294_967_295, 4_294_967_295)),
        Kind::U64 | Kind::Usize => Some((u64::MAX, u64::MAX)),
        Kind::I8 => Some((255, 127)),
        Kind::I16 => Some((65_535, 32_767)),
        Kind::I32 => Some((4_294_967_295, 2_147_483_647)),
        Kind::I64 | Kind::Isize => Some((u64::MAX, 9_223_372_036_854_775_807)),
        Kind::Word | Kind::Char => None,
    }
}

/// How many bytes the prefix has, where one is printed.
pub(crate) fn prefix_len(notation: Notation, prefix: bool) -> usize
    ensures { result ≡ length (prefix_in notation prefix) }
{
    if !prefix {
        return 0;
    }
    match notation {
        Notation::Octal => 1,
        Notation::Lower | Notation::Upper => 2,
    }
}

// What stands behind the prefix, where one is printed.
#[inline(always)]
fn behind_prefix(text: &[u8], notation: Notation, prefix: bool) -> Option<&[u8]>
    ensures { IfSome result (λ rest. text.now ≡ prefix_in notation prefix ++ rest.now) }
{
    if !prefix {
        return Some(text);
    }
    match notation {
        Notation::Octal => behind(text, b"0"),
        Notation::Lower => behind(text, b"0x"),
        Notation::Upper => behind(text, b"0X"),
    }
}

// What a byte stands for as a digit in octal.
#[inline(always)]
fn octal_digit(byte: u8) -> Option<u8>
    ensures { IfSome result (IsDigit 8 false byte) }
{
    match byte {
        b'0'..=b'7' => Some(byte - b'0'),
        _ => None,
    }
}

// What a byte stands for as a digit in hexadecimal with small letters.
#[inline(always)]
fn lower_digit(byte: u8) -> Option<u8>
    ensures { IfSome result (IsDigit 16 false byte) }
{
    match LOWER[usize::from(byte)] {
        digit @ 0..=15 => Some(digit),
        _ => None,
    }
}

// What a byte stands for as a digit in hexadecimal with capitals.
#[inline(always)]
fn upper_digit(byte: u8) -> Option<u8>
    ensures { IfSome result (IsDigit 16 true byte) }
{
    match UPPER[usize::from(byte)] {
        digit @ 0..=15 => Some(digit),
        _ => None,
    }
}

impl Notation {
    /// The base of the notation.
    #[inline(always)]
    pub(crate) fn base(self) -> u64
        ensures { result ≡ base_of self }
    {
        match self {
            Notation::Octal => 8,
            Notation::Lower | Notation::Upper => 16,
        }
    }

    // As many digits as 64 bits hold, whatever they are.
    #[inline(always)]
    fn safe(self) -> usize
        ensures { result ≡ safe_digits self }
    {
        match self {
            Notation::Octal => 21,
            Notation::Lower | Notation::Upper => 16,
        }
    }

    // What a byte stands for as a digit.
    #[inline(always)]
    fn digit(self, byte: u8) -> Option<u8>
        ensures { IfSome result (IsDigit (base_of self) (is_upper self) byte) }
    {
        match self {
            Notation::Octal => octal_digit(byte),
            Notation::Lower => lower_digit(byte),
            Notation::Upper => upper_digit(byte),
        }
    }
}

// The number that the first eight digits are, if as many stand in front; in octal none is read so.
#[inline(always)]
fn eight_digits(text: &[u8], notation: Notation) -> Option<u64>
    ensures digits { IfSome result (AreDigits (base_of notation) (is_upper notation) (take 8 text.now)) }
    ensures within { IfSome result (λ number. 8 ≤ length text.now) }
{
    match notation {
        Notation::Octal => None,
        Notation::Lower => eight_hexadecimal(text, false),
        Notation::Upper => eight_hexadecimal(text, true),
    }
}

// The number that the first eight digits are, and how many they are; none is read where fewer stand in front.
#[inline(always)]
fn first_digits(text: &[u8], notation: Notation) -> (u64, usize)
    ensures digits { AreDigits (base_of notation) (is_upper notation) (take result.1 text.now) result.0 }
    ensures within { result.1 ≤ length text.now }
{
    match eight_digits(text, notation) {
        Some(number) => (number, EIGHT),
        None => (0, 0),
    }
}

// The number that all the digits in front are, and how many they are, where so many are known.
#[inline(always)]
fn more_digits(text: &[u8], notation: Notation, before: u64, known: usize) -> (u64, usize)
    requires digits { AreDigits (base_of notation) (is_upper notation) (take known text.now) before }
    requires within { known ≤ length text.now }
    requires few { length text.now ≤ safe_digits notation }
    ensures digits { AreDigits (base_of notation) (is_upper notation) (take result.1 text.now) result.0 }
    ensures within { result.1 ≤ length text.now }
{
    let mut number = before;
    let mut count = known;
    'digits: for byte in &text[known..] {
        let Some(digit) = notation.digit(*byte) else {
            break;
        };
        number = number * notation.base() + u64::from(digit);
        count += 1;
    }
    (number, count)
}

// The number that the digits in front are, at most as many as 64 bits hold, and how many they are.
#[inline(always)]
fn digits_of(text: &[u8], notation: Notation) -> (u64, usize)
    ensures digits { AreDigits (base_of notation) (is_upper notation) (take result.1 text.now) result.0 }
    ensures within { result.1 ≤ length text.now }
{
    let front = &text[..text.len().min(notation.safe())];
    let (number, count) = first_digits(front, notation);
    more_digits(front, notation, number, count)
}

// The same, by a loop for each notation.
#[inline(always)]
fn digits_in_front(text: &[u8], notation: Notation) -> (u64, usize)
    ensures digits { AreDigits (base_of notation) (is_upper notation) (take result.1 text.now) result.0 }
    ensures within { result.1 ≤ length text.now }
{
    match notation {
        Notation::Octal => digits_of(text, Notation::Octal),
        Notation::Lower => digits_of(text, Notation::Lower),
        Notation::Upper => digits_of(text, Notation::Upper),
    }
}

// The same, where at most so many digits are looked at.
#[inline(always)]
fn few_digits_in_front(text: &[u8], notation: Notation, most: usize) -> (u64, usize)
    ensures digits { AreDigits (base_of notation) (is_upper notation) (take result.1 text.now) result.0 }
    ensures within { result.1 ≤ length text.now }
{
    let front = &text[..text.len().min(most)];
    let (number, count) = digits_in_front(front, notation);
    (number, count)
}

// The number in front, filled with zeros to the width, in at most so many digits, and what stands behind it.
#[inline(always)]
fn filled_in_front(
    text: &[u8],
    notation: Notation,
    width: usize,
    most: usize,
) -> Option<(u64, &[u8])>
    ensures { IfSome result (λ found. IsFilledInFront notation width text.now found.0 found.1.now) }
{
    let (number, count) = few_digits_in_front(text, notation, most);
    if count == 0 || count < width {
        return None;
    }
    if count > width && has_zero_in_front(text, count) {
        return None;
    }
    Some((number, &text[count..]))
}

// The number whose bits these are, in two's complement of 64 bits, if a number of the kind has them.
#[inline(always)]
fn widened(bits: u64, greatest: u64, middle: u64) -> Option<u64>
    ensures { IfSome result (IsWidened greatest middle bits) }
{
    if bits > greatest {
        None
    } else if bits > middle {
        Some(bits + (u64::MAX - greatest))
    } else {
        Some(bits)
    }
}

/// The number in front, as its bits are written, in two's complement, and what stands behind it.
#[inline(always)]
pub(crate) fn take_bits(text: &[u8], form: Form) -> Option<(u64, &[u8])>
    ensures { IfSome result (λ found. IsTaken (Bits form) text.now found.0 found.1.now) }
{
    let digits = behind_prefix(text, form.notation, form.prefix)?;
    let (bits, rest) = filled_in_front(digits, form.notation, form.width, form.most)?;
    Some((widened(bits, form.greatest, form.middle)?, rest))
}
