// Why a text, a pattern or a value is refused, with the messages.

ghost use Rattle.std.specs.Prelude.{◌≡◌, ◌++◌, false, IfOk, codes, encode_utf8, string_bytes};
ghost use Rattle.numerals.specs.Numeral.{numeral};
ghost use Rattle.strfmt.specs.Fault.{escaped, fault_of, no_value, invalid, type_error, key_error};
ghost use Rattle.strfmt.specs.Inner.Reading.{IsFaultOrMemory, escaped_by_cases};

use crate::FmtError;
use numerals::{Radix, push_digits};
use std::alloc::{AllocError, Global};

/// The cause of a refusal. A type is told by its character.
#[derive(Clone, Copy)]
pub(crate) enum Cause {
    /// A closing brace stands alone in the text.
    LoneBrace,
    /// A second opening brace stands in a pattern.
    NestedBrace,
    /// A pattern has no end.
    NoClosingBrace,
    NoKey,
    GreatWidth,
    GreatPrecision,
    /// No digits stand after the dot.
    NoPrecision,
    /// More than one byte is left where a type may stand.
    LongType,
    BadType(char),
    /// A comma stands beside a type that it doesn't go with.
    BadComma(char),
    NotOfIntegers(char),
    PrecisionOfInteger,
    CommaOfInteger,
    ZeroFillOfInteger,
    AlternateWithoutType,
    NotOfTexts(char),
    AlternateOfText,
    CommaOfText,
    SignOfText,
    /// Padding has no place at the alignment `Equal`.
    PaddingAtEqual,
}

impl Cause {
    /// The error of this cause, with its message.
    pub(crate) fn told(self, alloc: Global) -> FmtError
        ensures { IsFaultOrMemory (fault_of self) result }
    {
        match self {
            Cause::LoneBrace => invalid(alloc, "Single '}' encountered in format string"),
            Cause::NestedBrace => invalid(alloc, "extra { found"),
            Cause::NoClosingBrace => invalid(alloc, "Expected '}' before end of string"),
            Cause::NoKey => invalid(alloc, "must specify identifier"),
            Cause::GreatWidth => invalid(alloc, "overflow error when parsing width"),
            Cause::GreatPrecision => invalid(alloc, "overflow error when parsing precision"),
            Cause::NoPrecision => invalid(alloc, "Format specifier missing precision"),
            Cause::LongType => invalid(alloc, "Invalid format specifier"),
            Cause::BadType(ty) => bad_type(alloc, ty),
            Cause::BadComma(ty) => bad_comma(alloc, ty),
            Cause::NotOfIntegers(ty) => not_of_integers(alloc, ty),
            Cause::PrecisionOfInteger => type_error(alloc, "precision not allowed for integers"),
            Cause::CommaOfInteger => invalid(alloc, "thousands specifier not yet supported"),
            Cause::ZeroFillOfInteger => invalid(alloc, "sign aware 0 padding not yet supported"),
            Cause::AlternateWithoutType => {
                invalid(alloc, "alternate ('#') cannot be used with type ' '")
            }
            Cause::NotOfTexts(ty) => not_of_texts(alloc, ty),
            Cause::AlternateOfText => type_error(
                alloc,
                "Alternate form (#) not allowed in string format specifier",
            ),
            Cause::CommaOfText => type_error(alloc, "Cannot specify ',' with 's'"),
            Cause::SignOfText => {
                type_error(alloc, "Sign not allowed in string format specifier")
            }
            Cause::PaddingAtEqual => invalid(
                alloc,
                "sign aware zero padding and Align '=' not yet supported",
            ),
        }
    }
}

/// `Invalid` with a copy of the message.
fn invalid(alloc: Global, message: &str) -> FmtError
    ensures { IsFaultOrMemory (invalid message.now) result }
{
    String::from_str(alloc, message).map_or(FmtError::NoMemory, FmtError::Invalid)
}

/// `TypeError` with a copy of the message.
fn type_error(alloc: Global, message: &str) -> FmtError
    ensures { IsFaultOrMemory (type_error message.now) result }
{
    String::from_str(alloc, message).map_or(FmtError::NoMemory, FmtError::TypeError)
}

/// The message with the number of a control character.
fn control_message(alloc: Global, ty: char) -> Result<String, AllocError>
    ensures { IfOk result (λ message. string_bytes message ≡ codes "Invalid type specifier: '" ++ (codes "\\u{" ++ numeral 16 false ty ++ codes "}") ++ codes "'") }
{
    let mut message = String::from_str(alloc, "Invalid type specifier: '\\u{")?;
    let code = u128::from(u32::from(ty));
    push_digits(&mut message, code, Radix::Sixteen, false).map_err(|_| AllocError)?;
    message.push_str("}'")?;
    Ok(message)
}

fn bad_type_message(alloc: Global, ty: char) -> Result<String, AllocError>
    ensures { IfOk result (λ message. string_bytes message ≡ codes "Invalid type specifier: '" ++ escaped_by_cases ty ++ codes "'") }
{
    match ty {
        '\'' | '\\' => format!(in alloc; "Invalid type specifier: '\\{ty}'"),
        '\0' => format!(in alloc; "Invalid type specifier: '\\0'"),
        '\t' => format!(in alloc; "Invalid type specifier: '\\t'"),
        '\r' => format!(in alloc; "Invalid type specifier: '\\r'"),
        '\n' => format!(in alloc; "Invalid type specifier: '\\n'"),
        _ if ty.is_ascii_control() => control_message(alloc, ty),
        _ => format!(in alloc; "Invalid type specifier: '{ty}'"),
    }
}

/// The refusal of a character that is no type.
fn bad_type(alloc: Global, ty: char) -> FmtError
    ensures { IsFaultOrMemory (type_error (codes "Invalid type specifier: '" ++ escaped ty ++ codes "'")) result }
{
    bad_type_message(alloc, ty).map_or(FmtError::NoMemory, FmtError::TypeError)
}

/// The refusal of a comma beside a type.
fn bad_comma(alloc: Global, ty: char) -> FmtError
    ensures { IsFaultOrMemory (invalid (codes "Invalid comma type: " ++ encode_utf8 ty)) result }
{
    format!(in alloc; "Invalid comma type: {ty}").map_or(FmtError::NoMemory, FmtError::Invalid)
}

/// The refusal of a type that isn't one of a text.
fn not_of_texts(alloc: Global, ty: char) -> FmtError
    ensures { IsFaultOrMemory (type_error (codes "Unknown format code Some('" ++ encode_utf8 ty ++ codes "') for object of type 'str'")) result }
{
    format!(in alloc; "Unknown format code Some('{ty}') for object of type 'str'").map_or(
        FmtError::NoMemory,
        FmtError::TypeError,
    )
}

/// The refusal of a type that isn't one of an integer.
fn not_of_integers(alloc: Global, ty: char) -> FmtError
    ensures { IsFaultOrMemory (type_error (codes "Unknown format code '" ++ encode_utf8 ty ++ codes "' for type")) result }
{
    format!(in alloc; "Unknown format code '{ty}' for type").map_or(
        FmtError::NoMemory,
        FmtError::TypeError,
    )
}

/// The refusal of a key without a value.
pub(crate) fn no_value(alloc: Global, key: &str) -> FmtError
    ensures { IsFaultOrMemory (no_value key.now) result }
{
    format!(in alloc; "Invalid key: {key}").map_or(FmtError::NoMemory, FmtError::KeyError)
}
