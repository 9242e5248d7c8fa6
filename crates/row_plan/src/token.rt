// One token, read to a value of its field's kind.
ghost use Rattle.std.specs.Prelude.{◌≡◌, ◌≢◌, ◌∷◌, [], ℕ, ◌↔◌, IsTrue, MatchOption};
ghost use Rattle.std.specs.List.{AllByRecursion};
ghost use Rattle.std.specs.Str.{chars};
ghost use Rattle.numerals.specs.Numeral.{base_of};
ghost use Rattle.scan_fmt.specs.Grammar.{is_blank, Until};
ghost use Rattle.scan_fmt.specs.Scanned.{Suits};
ghost use Rattle.values.specs.Datum.{word};
ghost use Rattle.row_format.specs.Fit.{MayStandBefore};
ghost use Rattle.row_format.specs.Row.{ReadsDecimal, StandsFor, IsTextOf};
ghost use Rattle.row_plan.specs.Inner.Reading.{Finds, FindsInRow, AreBits, ReadsNumber, ReadsFit};

use crate::characters::{first, split_first};
use crate::row_value::RowValue;
use numerals::{Radix, read_digits};
use row_format::RowField;
use scan_fmt::parse::ReadSlice;
use sprintf::parser::ConversionType;
use values::{Kind, Value};

/// The longest word that fits: the default precision of printing cuts no shorter one.
const LONGEST_WORD: usize = 2147483647;

/// The number that the token stands for in decimal.
fn decimal(kind: Kind, token: &str) -> Option<Value>
    ensures { Finds (ReadsDecimal kind token.now) kind result }
{
    let value = match kind {
        Kind::U8 => Value::U8(u8::read_slice(token)?),
        Kind::U16 => Value::U16(u16::read_slice(token)?),
        Kind::U32 => Value::U32(u32::read_slice(token)?),
        Kind::U64 => Value::U64(u64::read_slice(token)?),
        Kind::Usize => Value::Usize(usize::read_slice(token)?),
        Kind::I8 => Value::I8(i8::read_slice(token)?),
        Kind::I16 => Value::I16(i16::read_slice(token)?),
        Kind::I32 => Value::I32(i32::read_slice(token)?),
        Kind::I64 => Value::I64(i64::read_slice(token)?),
        Kind::Isize => Value::Isize(isize::read_slice(token)?),
        Kind::Word | Kind::Char => return None,
    };
    Some(value)
}

/// The number of the kind that has these bits.
fn of_bits(kind: Kind, bits: u128) -> Option<Value>
    ensures { Finds (AreBits kind bits) kind result }
{
    let value = match kind {
        Kind::U8 => Value::U8(u8::try_from(bits).ok()?),
        Kind::U16 => Value::U16(u16::try_from(bits).ok()?),
        Kind::U32 => Value::U32(u32::try_from(bits).ok()?),
        Kind::U64 => Value::U64(u64::try_from(bits).ok()?),
        Kind::Usize => Value::Usize(usize::try_from(bits).ok()?),
        Kind::I8 => Value::I8(u8::try_from(bits).ok()?.cast_signed()),
        Kind::I16 => Value::I16(u16::try_from(bits).ok()?.cast_signed()),
        Kind::I32 => Value::I32(u32::try_from(bits).ok()?.cast_signed()),
        Kind::I64 => Value::I64(u64::try_from(bits).ok()?.cast_signed()),
        Kind::Isize => Value::Isize(usize::try_from(bits).ok()?.cast_signed()),
        Kind::Word | Kind::Char => return None,
    };
    Some(value)
}

/// The number that the token stands for in the radix, or whose two's complement it is.
fn based(kind: Kind, token: &str, radix: Radix) -> Option<Value>
    ensures { Finds (StandsFor (base_of radix) kind token.now) kind result }
{
    let bits = read_digits(token, radix)?;
    of_bits(kind, bits)
}

/// The number that the token reads to by the conversion.
fn number(conversion: ConversionType, kind: Kind, token: &str) -> Option<Value>
    ensures { Finds (ReadsNumber conversion kind (chars token.now)) kind result }
{
    match conversion {
        ConversionType::DecInt => decimal(kind, token),
        ConversionType::OctInt => based(kind, token, Radix::Eight),
        ConversionType::HexIntLower => based(kind, token, Radix::Sixteen),
        ConversionType::HexIntUpper => based(kind, token, Radix::Sixteen),
        _ => None,
    }
}

/// Whether the character may stand in a word before the stop character.
fn suits(stop: Option<char>, character: char) -> bool
    ensures { IsTrue result ↔ Suits (Until stop) character }
{
    let blank = character == ' ' || character == '\t' || character == '\n' || character == '\r';
    !blank && Some(character) != stop
}

/// Whether all characters may.
fn all_suit(stop: Option<char>, text: &str) -> bool
    ensures { IsTrue result ↔ AllByRecursion (Suits (Until stop)) (chars text.now) }
{
    let mut rest = text;
    'characters: while let Some((character, after)) = split_first(rest) {
        if !suits(stop, character) {
            return false;
        }
        rest = after;
    }
    true
}

/// Whether the text is a word that may stand before the stop character.
fn is_word(stop: Option<char>, text: &str) -> bool
    ensures { IsTrue result ↔ MayStandBefore stop (word text.now) }
{
    !text.is_empty() && text.len() <= LONGEST_WORD && all_suit(stop, text)
}

/// The token as a word, where it fits.
fn word(stop: Option<char>, token: &str) -> Option<RowValue<'_>>
    ensures { FindsInRow (λ value. IsTextOf (chars token.now) value × MayStandBefore stop value) Kind.Word result }
{
    if !is_word(stop, token) {
        return None;
    }
    Some(RowValue::Word(token))
}

/// The one character of the token.
fn one_character(token: &str) -> Option<char>
    ensures { MatchOption result ((c : ℕ) → chars token.now ≢ c ∷ []) (λ c. chars token.now ≡ c ∷ []) }
{
    char::read_slice(token)
}

/// The token as one character, where it fits.
fn character(stop: Option<char>, token: &str) -> Option<Value>
    ensures { Finds (λ value. IsTextOf (chars token.now) value × MayStandBefore stop value) Kind.Char result }
{
    let character = one_character(token)?;
    if !suits(stop, character) {
        return None;
    }
    Some(Value::Char(character))
}

/// The token as a word or a character, by the kind.
fn text(kind: Kind, stop: Option<char>, token: &str) -> Option<RowValue<'_>>
    ensures { FindsInRow (λ value. IsTextOf (chars token.now) value × MayStandBefore stop value) kind result }
{
    match kind {
        Kind::Word => word(stop, token),
        Kind::Char => Some(RowValue::Other(character(stop, token)?)),
        _ => None,
    }
}

/// The value of the kind that the token of a field reads to, if it fits.
pub fn read_token<'r>(field: &RowField, kind: Kind, token: &'r str) -> Option<RowValue<'r>>
    ensures { FindsInRow (ReadsFit field.now kind (chars token.now)) kind result }
{
    match field.field().conversion_type {
        ConversionType::String => text(kind, first(field.after()), token),
        ConversionType::Char => text(kind, first(field.after()), token),
        conversion => Some(RowValue::Other(number(conversion, kind, token)?)),
    }
}
