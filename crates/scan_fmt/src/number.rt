// How far a number reaches, in the bytes that a field may take.
ghost use Rattle.std.specs.Prelude.{◌≡◌, ◌<◌, ◌≤◌, ◌+◌, length, take, drop, IsTrue, ◌↔◌, Some};
ghost use Rattle.std.specs.Char.{digit_value};
ghost use Rattle.std.specs.Str.{byte};
ghost use Rattle.std.specs.Str.Parse.{AllDigits};
ghost use Rattle.scan_fmt.specs.Grammar.{first};
ghost use Rattle.scan_fmt.specs.Scanned.{IsLongest, Optionally, IsSigned};
ghost use Rattle.scan_fmt.specs.Inner.Found.{IsPrefixed, IsFloat, begins_0x};

fn is_digit(byte: u8, radix: u32) -> bool
    requires lower_bound { 2 ≤ radix }
    requires upper_bound { radix ≤ 36 }
    ensures { IsTrue result ↔ (digit_value byte < radix) }
{
    char::from(byte).is_digit(radix)
}

/// How many digits stand in front.
pub(crate) fn digits_len(bytes: &[u8], radix: u32) -> usize
    requires lower_bound { 2 ≤ radix }
    requires upper_bound { radix ≤ 36 }
    ensures within { result ≤ length bytes.now }
    ensures longest { IsLongest (AllDigits radix) bytes.now (take result bytes.now) (drop result bytes.now) }
{
    'digits: for (at, byte) in bytes.iter().enumerate() {
        if !is_digit(*byte, radix) {
            return at;
        }
    }
    bytes.len()
}

/// Whether this byte stands in front.
fn begins(bytes: &[u8], byte: u8) -> bool
    ensures { IsTrue result ↔ (first bytes.now ≡ Some byte) }
{
    !bytes.is_empty() && bytes[0] == byte
}

/// How long the sign in front is, if there is one, and the digits after it.
pub(crate) fn signed_len(bytes: &[u8]) -> usize
    ensures within { result ≤ length bytes.now }
    ensures longest { IsLongest IsSigned bytes.now (take result bytes.now) (drop result bytes.now) }
{
    if begins(bytes, b'+') || begins(bytes, b'-') {
        1 + digits_len(&bytes[1..], 10)
    } else {
        digits_len(bytes, 10)
    }
}

/// Whether `0x` stands in front.
pub(crate) fn begins_0x(bytes: &[u8]) -> bool
    ensures { result ≡ begins_0x bytes.now }
{
    bytes.len() > 1 && bytes[0] == b'0' && bytes[1] == b'x'
}

/// How long a `0`, an `x`, each if it stands there, and the hexadecimal digits after them are.
pub(crate) fn prefixed_len(bytes: &[u8]) -> usize
    ensures within { result ≤ length bytes.now }
    ensures longest { IsLongest IsPrefixed bytes.now (take result bytes.now) (drop result bytes.now) }
{
    if begins_0x(bytes) {
        2 + digits_len(&bytes[2..], 16)
    } else if begins(bytes, b'x') {
        1 + digits_len(&bytes[1..], 16)
    } else {
        digits_len(bytes, 16)
    }
}

fn fraction_len(bytes: &[u8]) -> usize
    ensures within { result ≤ length bytes.now }
    ensures longest { IsLongest (Optionally (byte ".") (AllDigits 10)) bytes.now (take result bytes.now) (drop result bytes.now) }
{
    if begins(bytes, b'.') {
        1 + digits_len(&bytes[1..], 10)
    } else {
        0
    }
}

fn exponent_len(bytes: &[u8]) -> usize
    ensures within { result ≤ length bytes.now }
    ensures longest { IsLongest (Optionally (byte "e") IsSigned) bytes.now (take result bytes.now) (drop result bytes.now) }
{
    if begins(bytes, b'e') {
        1 + signed_len(&bytes[1..])
    } else {
        0
    }
}

/// How long a decimal number with a fraction and an exponent is.
pub(crate) fn float_len(bytes: &[u8]) -> usize
    ensures within { result ≤ length bytes.now }
    ensures longest { IsLongest IsFloat bytes.now (take result bytes.now) (drop result bytes.now) }
{
    let whole = signed_len(bytes);
    let fraction = whole + fraction_len(&bytes[whole..]);
    fraction + exponent_len(&bytes[fraction..])
}
