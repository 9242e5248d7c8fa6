// Eight digits that are read at once.
ghost use Rattle.std.specs.Prelude.{◌≡◌, ◌<◌, ◌≤◌, ◌^◌, false, length, take, IfSome};
ghost use lib.Lanes.{sum_l, products};
ghost use Rattle.columns.specs.Inner.Shapes.{AreDigits, first_letter};

use std::simd::prelude::*;

/// How many digits are read at once.
pub(crate) const EIGHT: usize = 8;

// The number that eight digits are, by the values of their places.
#[inline(always)]
fn sum_of(digits: u8x8, places: [u32; 8]) -> u64
    requires lanes { length digits ≡ 8 }
    requires small { sum_l (products digits places) < 2 ^ 32 }
    ensures { result ≡ sum_l (products digits places) }
{
    let parts = digits.cast::<u32>().strict_mul(u32x8::from_array(places));
    u64::from(parts.strict_reduce_sum())
}

/// The number that the first eight bytes are in decimal, if they all are digits.
#[inline(always)]
pub(crate) fn eight_decimal(text: &[u8]) -> Option<u64>
    ensures digits { IfSome result (AreDigits 10 false (take 8 text.now)) }
    ensures within { IfSome result (λ number. 8 ≤ length text.now) }
{
    if text.len() < EIGHT {
        return None;
    }
    let digits = u8x8::from_slice(text) - u8x8::splat(b'0');
    let others = digits.simd_ge(u8x8::splat(10)).to_bitmask();
    if others == 0 {
        Some(sum_of(
            digits,
            [10_000_000, 1_000_000, 100_000, 10_000, 1_000, 100, 10, 1],
        ))
    } else {
        None
    }
}

// The first of the letters that are digits in hexadecimal.
#[inline(always)]
fn first_letter(upper: bool) -> u8
    ensures { result ≡ first_letter upper }
{
    if upper { b'A' } else { b'a' }
}

/// The number that the first eight bytes are in hexadecimal, with letters of this case, if they all are digits.
#[inline(always)]
pub(crate) fn eight_hexadecimal(text: &[u8], upper: bool) -> Option<u64>
    ensures digits { IfSome result (AreDigits 16 upper (take 8 text.now)) }
    ensures within { IfSome result (λ number. 8 ≤ length text.now) }
{
    if text.len() < EIGHT {
        return None;
    }
    let bytes = u8x8::from_slice(text);
    let figures = bytes - u8x8::splat(b'0');
    let letters = bytes - u8x8::splat(first_letter(upper));
    let ten = u8x8::splat(10);
    let others = (figures.simd_ge(ten) & letters.simd_ge(u8x8::splat(6))).to_bitmask();
    if others == 0 {
        let digits = figures.simd_lt(ten).select(figures, letters + ten);
        Some(sum_of(
            digits,
            [
                0x1000_0000,
                0x0100_0000,
                0x0010_0000,
                0x0001_0000,
                0x1000,
                0x0100,
                0x0010,
                1,
            ],
        ))
    } else {
        None
    }
}
