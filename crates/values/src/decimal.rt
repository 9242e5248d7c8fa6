// Numbers that are written in decimal.
ghost use Rattle.std.specs.Prelude.{◌≡◌, ◌<◌, ◌↔◌, IsTrue, length, slice_index};
ghost use Rattle.std.specs.Str.{byte};
ghost use Rattle.values.specs.Decimal.{IsDecimal};

use numerals::{Radix, read_digits};

/// Whether a zero stands in front of another byte.
fn has_leading_zero(digits: &[u8]) -> bool
    ensures { IsTrue result ↔ ((1 < length digits.now) × (slice_index digits.now 0 ≡ byte "0")) }
{
    digits.len() > 1 && digits[0] == b'0'
}

/// The number that the text is in decimal, without a sign and without a zero in front. It takes no memory.
pub fn read_decimal(text: &str) -> Option<usize>
    ensures { IsDecimal text.now result }
{
    if has_leading_zero(text.as_bytes()) {
        return None;
    }
    let number = read_digits(text, Radix::Ten)?;
    usize::try_from(number).ok()
}
