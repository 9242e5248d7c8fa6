// Numbers in front of a text.
ghost use Rattle.std.specs.Prelude.{◌≡◌, ◌≢◌, ◌<◌, ◌≤◌, false, length, slice_index, IfSome, take};
ghost use Rattle.columns.specs.Inner.Shapes.{AreDigits, IsNaturalInFront, IsTaken};
ghost use Rattle.columns.specs.declared.take.Take.TheVariants.{Natural, Filled};

use crate::eight::{EIGHT, eight_decimal};

/// As many digits as any number has that 64 bits hold, but for one.
const SAFE: usize = 19;

// The number that the first eight digits are, and how many they are; none is read where fewer stand in front.
#[inline(always)]
fn first_digits(text: &[u8]) -> (u64, usize)
    ensures digits { AreDigits 10 false (take result.1 text.now) result.0 }
    ensures within { result.1 ≤ length text.now }
{
    match eight_decimal(text) {
        Some(number) => (number, EIGHT),
        None => (0, 0),
    }
}

// The number that all the digits in front are, and how many they are, where so many are known.
#[inline(always)]
fn more_digits(text: &[u8], before: u64, known: usize) -> (u64, usize)
    requires digits { AreDigits 10 false (take known text.now) before }
    requires within { known ≤ length text.now }
    requires few { length text.now ≤ 19 }
    ensures digits { AreDigits 10 false (take result.1 text.now) result.0 }
    ensures within { result.1 ≤ length text.now }
{
    let mut number = before;
    let mut count = known;
    'digits: for byte in &text[known..] {
        if !byte.is_ascii_digit() {
            break;
        }
        number = number * 10 + u64::from(*byte - b'0');
        count += 1;
    }
    (number, count)
}

// The number that the digits in front are, at most nineteen of them, and how many they are.
#[inline(always)]
fn digits_in_front(text: &[u8]) -> (u64, usize)
    ensures digits { AreDigits 10 false (take result.1 text.now) result.0 }
    ensures within { result.1 ≤ length text.now }
    ensures few { result.1 ≤ 19 }
{
    let front = &text[..text.len().min(SAFE)];
    let (number, count) = first_digits(front);
    more_digits(front, number, count)
}

// The number with the twentieth digit behind it, if that is one; None where the number is too great.
#[cold]
fn with_last_digit(text: &[u8], number: u64) -> Option<(u64, usize)>
    requires digits { AreDigits 10 false (take 19 text.now) number }
    requires many { 19 ≤ length text.now }
    ensures digits { IfSome result (λ found. AreDigits 10 false (take found.1 text.now) found.0) }
    ensures within { IfSome result (λ found. found.1 ≤ length text.now) }
{
    match text.get(SAFE) {
        Some(byte @ b'0'..=b'9') => {
            let longer = number
                .checked_mul(10)?
                .checked_add(u64::from(*byte - b'0'))?;
            Some((longer, SAFE + 1))
        }
        _ => Some((number, SAFE)),
    }
}

// The number that all the digits in front are, and how many they are; at most twenty are looked at.
#[inline(always)]
fn long_digits_in_front(text: &[u8]) -> Option<(u64, usize)>
    ensures digits { IfSome result (λ found. AreDigits 10 false (take found.1 text.now) found.0) }
    ensures within { IfSome result (λ found. found.1 ≤ length text.now) }
{
    let (number, count) = digits_in_front(text);
    if count < SAFE {
        Some((number, count))
    } else {
        with_last_digit(text, number)
    }
}

/// The number in front, written as numbers are printed in decimal, and what stands behind it.
#[inline(always)]
pub(crate) fn natural_in_front(text: &[u8]) -> Option<(u64, &[u8])>
    ensures { IfSome result (λ found. IsNaturalInFront text.now found.0 found.1.now) }
{
    let (number, count) = long_digits_in_front(text)?;
    if count == 0 || (count > 1 && text[0] == b'0') {
        return None;
    }
    Some((number, &text[count..]))
}

/// The same for a number of at most this.
#[inline(always)]
pub(crate) fn take_natural(text: &[u8], greatest: u64) -> Option<(u64, &[u8])>
    ensures { IfSome result (λ found. IsTaken (Natural greatest) text.now found.0 found.1.now) }
{
    let (number, rest) = natural_in_front(text)?;
    (number <= greatest).then_some((number, rest))
}

// The number that the digits in front are, of which at most so many are looked at, and how many they are.
#[inline(always)]
fn few_digits_in_front(text: &[u8], most: usize) -> Option<(u64, usize)>
    ensures digits { IfSome result (λ found. AreDigits 10 false (take found.1 text.now) found.0) }
    ensures within { IfSome result (λ found. found.1 ≤ length text.now) }
{
    let front = &text[..text.len().min(most)];
    let (number, count) = long_digits_in_front(front)?;
    Some((number, count))
}

/// Whether digits begin with a zero in front of others.
#[inline(always)]
pub(crate) fn has_zero_in_front(text: &[u8], count: usize) -> bool
    requires { count ≤ length text.now }
    ensures { result ≡ false → 1 < count → slice_index text.now 0 ≢ 48 }
{
    count > 1 && text[0] == b'0'
}

/// The number in front, filled with zeros to the width, and what stands behind it; of at most this, and in at most so many
/// digits.
#[inline(always)]
pub(crate) fn take_filled(
    text: &[u8],
    greatest: u64,
    width: usize,
    most: usize,
) -> Option<(u64, &[u8])>
    ensures { IfSome result (λ found. IsTaken (Filled greatest width most) text.now found.0 found.1.now) }
{
    let (number, count) = few_digits_in_front(text, most)?;
    if count == 0 || count < width || number > greatest {
        return None;
    }
    if count > width && has_zero_in_front(text, count) {
        return None;
    }
    Some((number, &text[count..]))
}
