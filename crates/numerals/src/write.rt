//! Numbers written as digits, and how many digits that takes.
ghost use Rattle.std.specs.Prelude.{false, ◌≡◌, ◌++◌, ◌*◌, ◌^◌, ◌<◌, ◌≤◌, ◌↔◌, length, drop, string_bytes, IsSome, IfSome, OnErr, OnOk};
ghost use Rattle.std.specs.Fmt.{digit_glyph, digits_onto};
ghost use Rattle.numerals.specs.Numeral.{base_of, numeral};

use crate::{NoMemory, Radix};
use std::str::from_utf8_unchecked;

/// Appends the digits of `n` in the radix: no leading zero, and `0` for 0; `upper` chooses `A` to `F` over `a` to `f`.
/// At most 128 bytes are appended, all at once. On `NoMemory` the text is as before.
pub fn push_digits(out: &mut String, n: u128, radix: Radix, upper: bool) -> Result<(), NoMemory>
    ensures ok { OnOk result (string_bytes out.new ≡ string_bytes out.old ++ numeral (base_of radix) upper n) }
    ensures err { OnErr result (string_bytes out.new ≡ string_bytes out.old) }
{
    let mut buffer = [0; 128];
    out.push_str(digits_of(n, radix, upper, &mut buffer))?;
    Ok(())
}

/// The digits that `push_digits` appends, written at the end of the buffer. Takes no memory.
#[inline]
pub fn digits_of(n: u128, radix: Radix, upper: bool, buffer: &mut [u8; 128]) -> &str
    ensures digits { result.now ≡ numeral (base_of radix) upper n }
    ensures short { length result.now ≤ 128 }
{
    let start = write_digits(n, radix, upper, buffer);
    let bytes = &buffer[..];
    // Digits are ASCII.
    unsafe { from_utf8_unchecked(&bytes[start..]) }
}

/// How many digits `push_digits` writes: at least one, at most 128. Takes no memory.
pub fn count_digits(n: u128, radix: Radix) -> usize
    ensures { result ≡ length (numeral (base_of radix) false n) }
{
    match logarithm(n, radix.base()) {
        Some(power) => power as usize + 1,
        None => 1,
    }
}

// The greatest exponent by which a power of the base is within `n`. Most numbers fit 64 bits, which are quicker.
fn logarithm(n: u128, base: u32) -> Option<u32>
    requires { 2 ≤ base }
    ensures variant { IsSome result ↔ (0 < n) }
    ensures power_le { IfSome result (λ k. base ^ k ≤ n) }
    ensures next_power_gt { IfSome result (λ k. n < base * base ^ k) }
    ensures bound { IfSome result (λ k. k < 128) }
{
    match u64::try_from(n) {
        Ok(narrow) => narrow.checked_ilog(u64::from(base)),
        Err(_) => n.checked_ilog(u128::from(base)),
    }
}

// Writes the digits of `n` at the end of `out`, and answers where they start.
fn write_digits(n: u128, radix: Radix, upper: bool, out: &mut [u8; 128]) -> usize
    ensures start { result ≤ 128 }
    ensures digits { drop result out.new ≡ numeral (base_of radix) upper n }
{
    // A literal base lets the compiler turn divisions into multiplications and shifts.
    match radix {
        Radix::Two => write_wide(n, 2, upper, out),
        Radix::Eight => write_wide(n, 8, upper, out),
        Radix::Ten => write_wide(n, 10, upper, out),
        Radix::Sixteen => write_wide(n, 16, upper, out),
    }
}

// The same in any base, by 128-bit arithmetic as long as it takes.
#[inline(always)]
fn write_wide(n: u128, base: u64, upper: bool, out: &mut [u8; 128]) -> usize
    requires low { 2 ≤ base }
    requires high { base ≤ 16 }
    ensures start { result ≤ 128 }
    ensures digits { drop result out.new ≡ numeral base upper n }
{
    let wide = u128::from(base);
    let mut end = 128;
    let mut rest = n;
    'digits: while rest > u128::from(u64::MAX) {
        end -= 1;
        out[end] = glyph((rest % wide) as u8, upper);
        rest /= wide;
    }
    write_narrow(rest as u64, base, upper, out, end)
}

// The same of what fits 64 bits, before what stands from `end` on.
#[inline(always)]
fn write_narrow(n: u64, base: u64, upper: bool, out: &mut [u8; 128], end: usize) -> usize
    requires low { 2 ≤ base }
    requires high { base ≤ 16 }
    requires end { end ≤ 128 }
    ensures start { result ≤ 128 }
    ensures digits { drop result out.new ≡ digits_onto end base upper n (drop end out.old) }
{
    let mut start = end;
    let mut rest = n;
    'digits: while start > 0 {
        start -= 1;
        out[start] = glyph((rest % base) as u8, upper);
        rest /= base;
        if rest == 0 {
            break;
        }
    }
    start
}

// The character of a digit.
#[inline(always)]
fn glyph(digit: u8, upper: bool) -> u8
    requires { digit < 16 }
    ensures { result ≡ digit_glyph upper digit }
{
    if digit < 10 {
        b'0' + digit
    } else if upper {
        b'A' + (digit - 10)
    } else {
        b'a' + (digit - 10)
    }
}
