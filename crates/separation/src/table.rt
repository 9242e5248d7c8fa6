// The table of the separation rule: which fields are exact, which may touch what follows them, and what can come first in a field's text.
ghost use Rattle.std.specs.Prelude.{◌≡◌, ◌≤◌, ℕ, length, [], if◌then◌else◌};
ghost use Rattle.sprintf.specs.Field.{prefix_of};
ghost use Rattle.row_format.specs.Columns.{width_of};
ghost use Rattle.row_format.specs.Plannable.{by_bits, greatest_digits, greatest_length, is_exact};
ghost use Rattle.separation.specs.Inner.Table.{may_fill, is_signed_decimal, bare_opening, number_opening, field_opening, is_taken, is_opening_taken};

use crate::pairs::{is_number, is_signed};
use sprintf::parser::{ConversionSpecifier, ConversionType, NumericParam};
use values::Kind;

/// What can come first in the text of a field.
#[derive(Clone, Copy, Debug, PartialEq, Eq)]
pub enum Opening {
    /// A space alone.
    Space,
    /// A sign, or a space.
    Sign,
    /// A character of several bytes, or a space.
    Wide,
    /// A digit, if no sign or space.
    Digit,
    /// Any character that fits.
    Any,
}

/// The width in bytes; a negative one counts as 0.
fn width_of(field: &ConversionSpecifier) -> u32
    ensures width { result ≡ width_of field.now }
    ensures small { result ≤ 2147483647 }
{
    match field.width {
        NumericParam::Literal(width) => u32::try_from(width).unwrap_or(0),
        NumericParam::FromArgument => 0,
    }
}

/// The one of four numbers that goes with the bits of a number's kind.
fn by_bits(of_8: u32, of_16: u32, of_32: u32, of_64: u32, kind: Kind) -> u32
    ensures { result ≡ by_bits of_8 of_16 of_32 of_64 kind }
{
    match kind {
        Kind::U16 | Kind::I16 => of_16,
        Kind::U32 | Kind::I32 => of_32,
        Kind::U64 | Kind::I64 | Kind::Usize | Kind::Isize => of_64,
        _ => of_8,
    }
}

/// The greatest length of the digits of a kind's numbers, with their signs in decimal.
fn greatest_digits(conversion: ConversionType, kind: Kind) -> u32
    ensures length { result ≡ greatest_digits conversion kind }
    ensures small { result ≤ 22 }
{
    match conversion {
        ConversionType::DecInt if is_signed(kind) => by_bits(4, 6, 11, 20, kind),
        ConversionType::DecInt => by_bits(3, 5, 10, 20, kind),
        ConversionType::OctInt => by_bits(3, 6, 11, 22, kind),
        _ => by_bits(2, 4, 8, 16, kind),
    }
}

/// The length of the prefix that the flag `#` puts before the digits.
fn prefix_length(field: &ConversionSpecifier) -> u32
    ensures length { result ≡ length (if field.now.alt_form then prefix_of field.now.conversion_type else []) }
    ensures small { result ≤ 2 }
{
    match field.conversion_type {
        ConversionType::OctInt if field.alt_form => 1,
        ConversionType::HexIntLower | ConversionType::HexIntUpper if field.alt_form => 2,
        _ => 0,
    }
}

/// The greatest length of sign, prefix and digits of a field over a kind's numbers.
fn greatest_length(field: &ConversionSpecifier, kind: Kind) -> u32
    ensures { result ≡ greatest_length field.now kind }
{
    prefix_length(field) + greatest_digits(field.conversion_type, kind)
}

/// Whether zeros fill the field to its width, whatever the number.
pub fn is_exact(field: &ConversionSpecifier, kind: Kind) -> bool
    ensures { result ≡ is_exact field.now kind }
{
    is_number(kind)
        && field.zero_pad
        && !field.left_adj
        && !field.space_sign
        && greatest_length(field, kind) <= width_of(field)
}

/// Whether the width leaves no room beside some value: a word is as long as it needs to be, a character has at most four
/// bytes, and a number at most its kind's greatest length.
pub fn may_fill(field: &ConversionSpecifier, kind: Kind) -> bool
    ensures fill { result ≡ may_fill field.now kind }
    ensures narrow { width_of field.now ≤ 2147483647 }
{
    let width = width_of(field);
    match kind {
        Kind::Word => true,
        Kind::Char => width <= 4,
        _ => width <= greatest_length(field, kind),
    }
}

fn is_signed_decimal(field: &ConversionSpecifier, kind: Kind) -> bool
    ensures { result ≡ is_signed_decimal field.now.conversion_type kind }
{
    field.conversion_type == ConversionType::DecInt && is_signed(kind)
}

/// What can come first in a number's text without its padding.
fn bare_opening(field: &ConversionSpecifier, kind: Kind) -> Opening
    ensures { result ≡ bare_opening field.now kind }
{
    if is_signed_decimal(field, kind) && (field.force_sign || field.space_sign) {
        Opening::Sign
    } else {
        Opening::Digit
    }
}

/// What can come first in a number's text. At just its greatest length a decimal has a minus, and is padded else.
fn number_opening(field: &ConversionSpecifier, kind: Kind) -> Opening
    ensures opening { result ≡ number_opening field.now kind }
{
    let width = width_of(field);
    let greatest = greatest_length(field, kind);
    if field.left_adj || field.zero_pad {
        bare_opening(field, kind)
    } else if width > greatest {
        Opening::Space
    } else if width == greatest && is_signed_decimal(field, kind) {
        Opening::Sign
    } else {
        bare_opening(field, kind)
    }
}

/// What can come first in the text of a field.
pub fn field_opening(field: &ConversionSpecifier, kind: Kind) -> Opening
    ensures opening { result ≡ field_opening field.now kind }
    ensures narrow { width_of field.now ≤ 2147483647 }
{
    let width = width_of(field);
    match kind {
        Kind::Word => Opening::Any,
        Kind::Char if field.left_adj || width <= 1 => Opening::Any,
        Kind::Char if width <= 4 => Opening::Wide,
        Kind::Char => Opening::Space,
        _ => number_opening(field, kind),
    }
}

/// Whether a field takes the first character of the literal text behind it. That character stops a word.
pub fn is_taken(conversion: ConversionType, character: char) -> bool
    ensures { result ≡ is_taken conversion character }
{
    match conversion {
        ConversionType::DecInt | ConversionType::OctInt => character.is_ascii_digit(),
        ConversionType::HexIntLower | ConversionType::HexIntUpper => {
            character.is_ascii_hexdigit() || character == 'x'
        }
        _ => false,
    }
}

/// Whether a field that a text touches takes its first character, for some values.
pub fn is_opening_taken(conversion: ConversionType, opening: Opening) -> bool
    ensures { result ≡ is_opening_taken conversion opening }
{
    match opening {
        Opening::Space => false,
        Opening::Sign | Opening::Wide => {
            matches!(conversion, ConversionType::String | ConversionType::Char)
        }
        Opening::Digit | Opening::Any => true,
    }
}
