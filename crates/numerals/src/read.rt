//! Numbers read from digits.
ghost use Rattle.std.specs.Prelude.{◌≡◌, ◌<◌, ◌^◌, SomeIff};
ghost use Rattle.numerals.specs.Numeral.{base_of, IsDigitText, text_value};

use crate::Radix;

/// Reads the whole of `text` as digits of the radix: no sign, no space, no prefix, leading zeros welcome.
/// Both cases of letters are digits of sixteen. `None` where the text is no such digits, or their number is above
/// `u128::MAX`. Takes no memory.
pub fn read_digits(text: &str, radix: Radix) -> Option<u128>
    ensures { let b = base_of radix in SomeIff result (IsDigitText b text.now × (text_value b text.now < 2 ^ 128)) (text_value b text.now) }
{
    // The standard library reads a plus in front.
    if text.starts_with('+') {
        return None;
    }
    u128::from_str_radix(text, radix.base()).ok()
}
