// Formats: their elements, and the reading of a text as elements.
ghost use Rattle.std.specs.Prelude.{◌≡◌, ◌⊎◌, ◌||◌, ◌==◌, ◌++◌, ◌∷◌, [], ◌≤◌, ℕ, pos, length, map, take, drop, encode_utf8, IfOk, IfErr, OnOk, IfSome, IsNone, SomeIff, Some, None};
ghost use Rattle.std.specs.Char.{is_ascii_digit};
ghost use Rattle.std.specs.List.{prefix_len};
ghost use Rattle.std.specs.Str.{byte};
ghost use Rattle.numerals.specs.Numeral.{text_value};
ghost use Rattle.sprintf.specs.Grammar.{IsFormat, IsNoFormat, has, is_flag, length_modifiers, default_precision};
ghost use Rattle.sprintf.specs.Inner.Reading.{field_with, read_field, read_param, read_precision, skip_one, conversion_of, verbatim};

use crate::{PrintfError, Result};
use numerals::{Radix, read_digits};
use std::alloc::Global;

/// A piece of a format: text that is printed as it stands, or a field.
///
/// `parse_format_string` never gives an empty text, nor one with a `%`. Printing takes any.
#[derive(Debug, Clone, PartialEq, Eq, Drop)]
pub enum FormatElement<'a> {
    /// Text that is printed as it stands.
    Verbatim(&'a str),
    /// A field, which a value fills.
    Format(ConversionSpecifier),
}

/// How a field is printed.
#[derive(Debug, Clone, Copy, PartialEq, Eq)]
pub struct ConversionSpecifier {
    /// The flag `#`: a prefix before the digits in base 8 and 16.
    pub alt_form: bool,
    /// The flag `0`: zeros fill the width of a number.
    pub zero_pad: bool,
    /// The flag `-`: spaces behind fill the width.
    pub left_adj: bool,
    /// The space flag: a space before a decimal that isn't negative.
    pub space_sign: bool,
    /// The flag `+`: a `+` before a decimal that isn't negative.
    pub force_sign: bool,
    /// The least length of the field, in bytes. A negative one counts as 0.
    pub width: NumericParam,
    /// The greatest length of a text, in bytes. A negative one counts as 0.
    pub precision: NumericParam,
    /// What the field prints.
    pub conversion_type: ConversionType,
}

/// A width or a precision.
#[derive(Debug, Clone, Copy, PartialEq, Eq)]
pub enum NumericParam {
    /// The number itself.
    Literal(i32),
    /// `*`: the number that the next argument gives.
    FromArgument,
}

/// What a field prints.
#[derive(Debug, Clone, Copy, PartialEq, Eq)]
pub enum ConversionType {
    /// `d`, `i` or `u`: a number in decimal, with its sign.
    DecInt,
    /// `o`: a number in base 8.
    OctInt,
    /// `x` or `p`: a number in base 16 with small letters.
    HexIntLower,
    /// `X`: a number in base 16 with capital letters.
    HexIntUpper,
    /// `e`, which no carried value takes.
    SciFloatLower,
    /// `E`, which no carried value takes.
    SciFloatUpper,
    /// `f`, which no carried value takes.
    DecFloatLower,
    /// `F`, which no carried value takes.
    DecFloatUpper,
    /// `g`, which no carried value takes.
    CompactFloatLower,
    /// `G`, which no carried value takes.
    CompactFloatUpper,
    /// `c` or `C`: a character.
    Char,
    /// `s` or `S`: a text.
    String,
    /// `%`: a percent sign, without an argument.
    PercentSign,
}

/// The elements of a format, in order; the texts among them are parts of `fmt`.
///
/// A text is refused where it isn't in the grammar: a `%` that begins no field, an unknown conversion, or a
/// width or precision above 2147483647.
pub fn parse_format_string(alloc: Global, fmt: &str) -> Result<Vec<FormatElement<'_>>>
    ensures ok { IfOk result (λ v. IsFormat fmt.now v.items) }
    ensures err { IfErr result (λ e. (IsNoFormat fmt.now × (e ≡ PrintfError.ParseError)) ⊎ (e ≡ PrintfError.NoMemory)) }
{
    let mut elements = Vec::new(alloc);
    let mut rest = fmt;
    while let Some((text, field)) = rest.split_once('%') {
        push_text(&mut elements, text)?;
        let Some((spec, after)) = take_conversion_specifier(field) else {
            return Err(PrintfError::ParseError);
        };
        push_element(&mut elements, FormatElement::Format(spec))?;
        rest = after;
    }
    push_text(&mut elements, rest)?;
    Ok(elements)
}

fn push_element<'a>(elements: &mut Vec<FormatElement<'a>>, element: FormatElement<'a>) -> Result<()>
    ensures ok { OnOk result (elements.new.items ≡ elements.old.items ++ element.entry ∷ []) }
    ensures err { IfErr result (λ e. e ≡ PrintfError.NoMemory) }
{
    elements.push(element).map_err(|_| PrintfError::NoMemory)
}

/// Appends a literal run, unless it is empty.
fn push_text<'a>(elements: &mut Vec<FormatElement<'a>>, text: &'a str) -> Result<()>
    ensures ok { OnOk result (elements.new.items ≡ elements.old.items ++ verbatim text.entry) }
    ensures err { IfErr result (λ e. e ≡ PrintfError.NoMemory) }
{
    if text.is_empty() {
        return Ok(());
    }
    push_element(elements, FormatElement::Verbatim(text))
}

/// Reads a field behind its `%`, and gives what follows it.
fn take_conversion_specifier(text: &str) -> Option<(ConversionSpecifier, &str)>
    ensures some { IfSome result (λ r. read_field text.now ≡ Some (r.0, r.1.now)) }
    ensures none { IsNone result → read_field text.now ≡ None }
{
    let (flags, text) = cut_flags(text);
    let (width, text) = take_numeric_param(text)?;
    let (precision, text) = take_precision(text)?;
    let (letter, rest) = take_char(skip_length_modifier(text))?;
    let conversion_type = conversion_of(letter)?;
    let spec = specifier(flags.as_bytes(), width, precision, letter, conversion_type);
    Some((spec, rest))
}

/// The field of these parts.
fn specifier(
    flags: &[u8],
    width: NumericParam,
    precision: Option<NumericParam>,
    letter: char,
    conversion_type: ConversionType,
) -> ConversionSpecifier
    ensures { result ≡ field_with flags.now width precision letter conversion_type }
{
    ConversionSpecifier {
        alt_form: wants_prefix(flags, letter),
        zero_pad: flags.contains(&b'0'),
        left_adj: flags.contains(&b'-'),
        space_sign: flags.contains(&b' '),
        force_sign: flags.contains(&b'+'),
        width,
        precision: precision.unwrap_or(default_precision(conversion_type)),
        conversion_type,
    }
}

/// `p` sets the flag `#`.
fn wants_prefix(flags: &[u8], letter: char) -> bool
    ensures { result ≡ (has flags.now (byte "#") || (letter == byte "p")) }
{
    flags.contains(&b'#') || letter == 'p'
}

/// The flags in front, and what follows them.
fn cut_flags(text: &str) -> (&str, &str)
    ensures flags { result.0.now ≡ take (prefix_len is_flag text.now) text.now }
    ensures rest { result.1.now ≡ drop (prefix_len is_flag text.now) text.now }
{
    text.split_at(flags_len(text.as_bytes()))
}

fn flags_len(bytes: &[u8]) -> usize
    ensures { result ≡ prefix_len is_flag bytes.now }
{
    for (i, byte) in bytes.iter().enumerate() {
        if !is_flag(*byte) {
            return i;
        }
    }
    bytes.len()
}

fn is_flag(byte: u8) -> bool
    ensures { result ≡ is_flag byte }
{
    b"#0- +".contains(&byte)
}

/// The digits in front, and what follows them.
fn cut_digits(text: &str) -> (&str, &str)
    ensures digits { result.0.now ≡ take (prefix_len is_ascii_digit text.now) text.now }
    ensures rest { result.1.now ≡ drop (prefix_len is_ascii_digit text.now) text.now }
{
    text.split_at(digits_len(text.as_bytes()))
}

fn digits_len(bytes: &[u8]) -> usize
    ensures { result ≡ prefix_len is_ascii_digit bytes.now }
{
    for (i, byte) in bytes.iter().enumerate() {
        if !byte.is_ascii_digit() {
            return i;
        }
    }
    bytes.len()
}

/// Reads a width, or a precision behind its `.`, and gives what follows it.
fn take_numeric_param(text: &str) -> Option<(NumericParam, &str)>
    ensures some { IfSome result (λ r. read_param text.now ≡ Some (r.0, r.1.now)) }
    ensures none { IsNone result → read_param text.now ≡ None }
{
    if let Some(rest) = text.strip_prefix('*') {
        return Some((NumericParam::FromArgument, rest));
    }
    let (digits, rest) = cut_digits(text);
    Some((NumericParam::Literal(count_of(digits)?), rest))
}

/// The number that digits state, or 0 where there is none.
fn count_of(digits: &str) -> Option<i32>
    requires { prefix_len is_ascii_digit digits.now ≡ length digits.now }
    ensures { let n = text_value 10 digits.now in SomeIff result (n ≤ 2147483647) (pos n) }
{
    if digits.is_empty() {
        return Some(0);
    }
    let number = read_digits(digits, Radix::Ten)?;
    i32::try_from(number).ok()
}

/// Reads a precision with its `.`, where there is one, and gives what follows it.
fn take_precision(text: &str) -> Option<(Option<NumericParam>, &str)>
    ensures some { IfSome result (λ r. read_precision text.now ≡ Some (r.0, r.1.now)) }
    ensures none { IsNone result → read_precision text.now ≡ None }
{
    let Some(text) = text.strip_prefix('.') else {
        return Some((None, text));
    };
    let (precision, rest) = take_numeric_param(text)?;
    Some((Some(precision), rest))
}

/// The text behind its length modifier, where it begins with one.
fn skip_length_modifier(text: &str) -> &str
    ensures { result.now ≡ skip_one length_modifiers text.now }
{
    let modifiers = ["hh", "h", "ll", "l", "q", "L", "j", "z", "Z", "t"];
    strip_one(text, &modifiers)
}

/// The text behind the first of the words that it begins with, or all of it.
fn strip_one<'t>(text: &'t str, words: &[&str]) -> &'t str
    ensures { result.now ≡ skip_one (map (λ w. w.now) words.now) text.now }
{
    for word in words {
        if let Some(rest) = text.strip_prefix(*word) {
            return rest;
        }
    }
    text
}

/// The first character, and what follows it.
fn take_char(text: &str) -> Option<(char, &str)>
    ensures some { IfSome result (λ r. text.now ≡ encode_utf8 r.0 ++ r.1.now) }
    ensures none { IsNone result → text.now ≡ [] }
{
    let mut chars = text.chars();
    let first = chars.next()?;
    Some((first, chars.as_str()))
}

/// The conversion that a character stands for.
fn conversion_of(letter: char) -> Option<ConversionType>
    ensures { result ≡ conversion_of letter }
{
    match letter {
        'd' | 'i' | 'u' => Some(ConversionType::DecInt),
        'o' => Some(ConversionType::OctInt),
        'x' | 'p' => Some(ConversionType::HexIntLower),
        'X' => Some(ConversionType::HexIntUpper),
        'e' => Some(ConversionType::SciFloatLower),
        'E' => Some(ConversionType::SciFloatUpper),
        'f' => Some(ConversionType::DecFloatLower),
        'F' => Some(ConversionType::DecFloatUpper),
        'g' => Some(ConversionType::CompactFloatLower),
        'G' => Some(ConversionType::CompactFloatUpper),
        'c' | 'C' => Some(ConversionType::Char),
        's' | 'S' => Some(ConversionType::String),
        '%' => Some(ConversionType::PercentSign),
        _ => None,
    }
}

/// The precision of a field that writes none: no limit for a text, and 6 for all else.
fn default_precision(conversion_type: ConversionType) -> NumericParam
    ensures { result ≡ NumericParam.Literal (pos (default_precision conversion_type)) }
{
    match conversion_type {
        ConversionType::String => NumericParam::Literal(i32::MAX),
        _ => NumericParam::Literal(6),
    }
}
