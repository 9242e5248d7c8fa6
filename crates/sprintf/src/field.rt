// The text of one field, appended to a text. After a refusal that text is as before.
ghost use Rattle.std.specs.Prelude.{◌≡◌, ◌+◌, ◌-◌, ℕ, false, [], length, string_bytes, if◌then◌else◌, Ok, Err};
ghost use Rattle.numerals.specs.Answer.{AppendsAnswer};
ghost use Rattle.numerals.specs.Numeral.{base_of, numeral};
ghost use Rattle.padding.specs.Field.{field_text};
ghost use Rattle.sprintf.specs.Field.{filled_number, filled_word, sign_of, prefix_of, digits_of, number_of, cut_to, number_text, signed_text, character_text};
ghost use Rattle.sprintf.specs.Meaning.{by_conversion};
ghost use Rattle.sprintf.specs.Values.{u8_meaning, unsigned_meaning, code_meaning, i8_meaning, char_meaning, word_meaning};

use crate::{ConversionSpecifier, ConversionType, NumericParam, PrintfError, Result};
use itoa::Buffer;
use numerals::{Radix, digits_of, numeral_is_std};
use padding::Field;

/// A number's field: `-` fills behind, else `0` fills with zeros, else spaces fill in front.
#[inline]
fn number_field<'a>(
    spec: &ConversionSpecifier,
    room: usize,
    lead: &'a str,
    digits: &'a str,
) -> Field<'a>
    ensures { field_text result ≡ filled_number spec.now room lead.now digits.now }
{
    let (left, zeros, right) = if spec.left_adj {
        (0, 0, room)
    } else if spec.zero_pad {
        (0, room, 0)
    } else {
        (room, 0, 0)
    };
    Field {
        head: "",
        left,
        lead,
        zeros,
        text: digits,
        right,
        fill: ' ',
    }
}

/// The field of a character or a word: `-` fills behind, else spaces fill in front.
fn word_field<'a>(spec: &ConversionSpecifier, room: usize, word: &'a str) -> Field<'a>
    ensures { field_text result ≡ filled_word spec.now room word.now }
{
    let (left, right) = if spec.left_adj { (0, room) } else { (room, 0) };
    Field {
        head: "",
        left,
        lead: "",
        zeros: 0,
        text: word,
        right,
        fill: ' ',
    }
}

/// A width or a precision in bytes: a negative one counts as 0.
#[inline]
fn number_of(param: NumericParam) -> Option<usize>
    ensures { result ≡ number_of param }
{
    match param {
        NumericParam::Literal(number) => Some(usize::try_from(number).unwrap_or(0)),
        NumericParam::FromArgument => None,
    }
}

/// The base and the letters of a conversion to digits.
#[inline]
fn radix_of(conversion_type: ConversionType) -> (Radix, bool)
    ensures { (n : ℕ) → digits_of conversion_type n ≡ numeral (base_of result.0) result.1 n }
{
    match conversion_type {
        ConversionType::OctInt => (Radix::Eight, false),
        ConversionType::HexIntLower => (Radix::Sixteen, false),
        ConversionType::HexIntUpper => (Radix::Sixteen, true),
        _ => (Radix::Ten, false),
    }
}

/// What `#` puts before the digits.
#[inline]
fn prefix_of(spec: &ConversionSpecifier) -> &'static str
    ensures { result.now ≡ (if spec.now.alt_form then prefix_of spec.now.conversion_type else []) }
{
    if !spec.alt_form {
        return "";
    }
    match spec.conversion_type {
        ConversionType::OctInt => "0",
        ConversionType::HexIntLower => "0x",
        ConversionType::HexIntUpper => "0X",
        _ => "",
    }
}

/// The sign of a number that is written in decimal.
#[inline]
fn sign_of(spec: &ConversionSpecifier, value: i64) -> &'static str
    ensures { result.now ≡ sign_of spec.now value }
{
    if value < 0 {
        "-"
    } else if spec.force_sign {
        "+"
    } else if spec.space_sign {
        " "
    } else {
        ""
    }
}

/// The longest front of whole characters that has at most so many bytes.
fn cut_to(word: &str, precision: usize) -> &str
    ensures { result.now ≡ cut_to precision word.now }
{
    word.split_at(word.floor_char_boundary(precision)).0
}

/// A number's digits behind its sign or its prefix, filled to the width.
fn append_number(spec: &ConversionSpecifier, lead: &str, value: u64, out: &mut String) -> Result<()>
    ensures { AppendsAnswer PrintfError.NoMemory (number_text spec.now lead.now value) (string_bytes out.old) (string_bytes out.new) result }
{
    let width = number_of(spec.width).ok_or(PrintfError::Unknown)?;
    match spec.conversion_type {
        ConversionType::OctInt | ConversionType::HexIntLower | ConversionType::HexIntUpper => {
            let (radix, upper) = radix_of(spec.conversion_type);
            let mut buffer = [0; 128];
            let digits = digits_of(u128::from(value), radix, upper, &mut buffer);
            append_filled(spec, width, lead, digits, out)
        }
        _ => append_decimal(spec, width, lead, value, out),
    }
}

/// The same in decimal.
#[inline]
fn append_decimal(
    spec: &ConversionSpecifier,
    width: usize,
    lead: &str,
    value: u64,
    out: &mut String,
) -> Result<()>
    ensures { let digits = numeral 10 false value in let text = filled_number spec.now (width - (length lead.now + length digits)) lead.now digits in AppendsAnswer PrintfError.NoMemory (Ok text) (string_bytes out.old) (string_bytes out.new) result }
{
    // The numeral in base ten is what std writes, and so does `itoa`.
    numeral_is_std();
    let mut buffer = Buffer::new();
    append_filled(spec, width, lead, buffer.format(value), out)
}

/// A number's parts, filled to the width.
#[inline]
fn append_filled(
    spec: &ConversionSpecifier,
    width: usize,
    lead: &str,
    digits: &str,
    out: &mut String,
) -> Result<()>
    ensures { let text = filled_number spec.now (width - (length lead.now + length digits.now)) lead.now digits.now in AppendsAnswer PrintfError.NoMemory (Ok text) (string_bytes out.old) (string_bytes out.new) result }
{
    let room = width.saturating_sub(lead.len() + digits.len());
    if room == 0 && lead.is_empty() {
        out.push_str(digits)?;
        return Ok(());
    }
    number_field(spec, room, lead, digits).push(out)?;
    Ok(())
}

/// A word, filled to the width.
fn append_padded(
    spec: &ConversionSpecifier,
    width: usize,
    word: &str,
    out: &mut String,
) -> Result<()>
    ensures { let text = filled_word spec.now (width - length word.now) word.now in AppendsAnswer PrintfError.NoMemory (Ok text) (string_bytes out.old) (string_bytes out.new) result }
{
    word_field(spec, width.saturating_sub(word.len()), word).push(out)?;
    Ok(())
}

/// A character.
fn append_character(spec: &ConversionSpecifier, character: char, out: &mut String) -> Result<()>
    ensures { AppendsAnswer PrintfError.NoMemory (character_text spec.now character) (string_bytes out.old) (string_bytes out.new) result }
{
    let width = number_of(spec.width).ok_or(PrintfError::Unknown)?;
    let mut bytes = [0u8; 4];
    append_padded(spec, width, character.encode_utf8(&mut bytes), out)
}

/// An unsigned number, which takes the conversions to digits alone.
#[inline]
pub(crate) fn append_unsigned(
    spec: &ConversionSpecifier,
    value: u64,
    out: &mut String,
) -> Result<()>
    ensures { AppendsAnswer PrintfError.NoMemory ((unsigned_meaning value).text spec.now) (string_bytes out.old) (string_bytes out.new) result }
{
    match spec.conversion_type {
        ConversionType::DecInt
        | ConversionType::OctInt
        | ConversionType::HexIntLower
        | ConversionType::HexIntUpper => append_number(spec, prefix_of(spec), value, out),
        _ => Err(PrintfError::WrongType),
    }
}

/// A signed number, which takes the conversions to digits alone, and its two's complement.
#[inline]
pub(crate) fn append_signed(
    spec: &ConversionSpecifier,
    value: i64,
    complement: u64,
    out: &mut String,
) -> Result<()>
    ensures { let answer = by_conversion spec.now.conversion_type (signed_text spec.now.conversion_type spec.now value complement) (Err PrintfError.WrongType) (Err PrintfError.WrongType) in AppendsAnswer PrintfError.NoMemory answer (string_bytes out.old) (string_bytes out.new) result }
{
    match spec.conversion_type {
        ConversionType::DecInt => {
            append_number(spec, sign_of(spec, value), value.unsigned_abs(), out)
        }
        _ => append_unsigned(spec, complement, out),
    }
}

/// An u8, whose characters are ASCII.
pub(crate) fn append_u8(spec: &ConversionSpecifier, value: u8, out: &mut String) -> Result<()>
    ensures { AppendsAnswer PrintfError.NoMemory ((u8_meaning value).text spec.now) (string_bytes out.old) (string_bytes out.new) result }
{
    let ConversionType::Char = spec.conversion_type else {
        return append_unsigned(spec, u64::from(value), out);
    };
    if !value.is_ascii() {
        return Err(PrintfError::WrongType);
    }
    append_character(spec, char::from(value), out)
}

/// An i8, which is a character from 0 on.
pub(crate) fn append_i8(spec: &ConversionSpecifier, value: i8, out: &mut String) -> Result<()>
    ensures { AppendsAnswer PrintfError.NoMemory ((i8_meaning value).text spec.now) (string_bytes out.old) (string_bytes out.new) result }
{
    let ConversionType::Char = spec.conversion_type else {
        let complement = u64::from(value.cast_unsigned());
        return append_signed(spec, i64::from(value), complement, out);
    };
    let Ok(code) = u8::try_from(value) else {
        return Err(PrintfError::WrongType);
    };
    append_character(spec, char::from(code), out)
}

/// The code of a character, or a number under a conversion to digits.
pub(crate) fn append_code(spec: &ConversionSpecifier, code: u32, out: &mut String) -> Result<()>
    ensures { AppendsAnswer PrintfError.NoMemory ((code_meaning code).text spec.now) (string_bytes out.old) (string_bytes out.new) result }
{
    let ConversionType::Char = spec.conversion_type else {
        return append_unsigned(spec, u64::from(code), out);
    };
    let Some(character) = char::from_u32(code) else {
        return Err(PrintfError::WrongType);
    };
    append_character(spec, character, out)
}

/// A character, which takes `%c` alone.
pub(crate) fn append_char(
    spec: &ConversionSpecifier,
    character: char,
    out: &mut String,
) -> Result<()>
    ensures { AppendsAnswer PrintfError.NoMemory ((char_meaning character).text spec.now) (string_bytes out.old) (string_bytes out.new) result }
{
    let ConversionType::Char = spec.conversion_type else {
        return Err(PrintfError::WrongType);
    };
    append_character(spec, character, out)
}

/// A word, which takes `%s` alone.
pub(crate) fn append_word(spec: &ConversionSpecifier, word: &str, out: &mut String) -> Result<()>
    ensures { AppendsAnswer PrintfError.NoMemory ((word_meaning word.now).text spec.now) (string_bytes out.old) (string_bytes out.new) result }
{
    let ConversionType::String = spec.conversion_type else {
        return Err(PrintfError::WrongType);
    };
    let width = number_of(spec.width).ok_or(PrintfError::Unknown)?;
    let precision = number_of(spec.precision).ok_or(PrintfError::Unknown)?;
    append_padded(spec, width, cut_to(word, precision), out)
}
