// The planned text, piece by piece.
ghost use Rattle.std.specs.Prelude.{◌≡◌, ◌++◌, codes, encode_utf8, string_bytes, IfOk, OnOk};
ghost use Rattle.row_format.specs.Planned.{escaped, number_field, text_field, upper_field, planned_field, planned_columns, planned_text};

use crate::characters::{first, split_first};
use numerals::{NoMemory, Radix, push_digits};
use row_format::{RowField, RowFormat};
use separation::is_exact;
use sprintf::parser::ConversionType;
use std::alloc::Global;
use values::Kind;

pub fn push(out: &mut String, text: &str) -> Result<(), NoMemory>
    ensures { OnOk result (string_bytes out.new ≡ string_bytes out.old ++ text.now) }
{
    out.push_str(text)?;
    Ok(())
}

/// One character of literal text; a brace is doubled.
fn push_character(out: &mut String, character: char) -> Result<(), NoMemory>
    ensures { OnOk result (string_bytes out.new ≡ string_bytes out.old ++ escaped (encode_utf8 character)) }
{
    if character == '{' {
        return push(out, "{{");
    }
    if character == '}' {
        return push(out, "}}");
    }
    out.push(character)?;
    Ok(())
}

/// Literal text, with its braces doubled.
fn push_escaped(out: &mut String, text: &str) -> Result<(), NoMemory>
    ensures { OnOk result (string_bytes out.new ≡ string_bytes out.old ++ escaped text.now) }
{
    let mut rest = text;
    'characters: while let Some((character, after)) = split_first(rest) {
        push_character(out, character)?;
        rest = after;
    }
    Ok(())
}

/// A number's field, with its width where it is exact.
fn push_number(out: &mut String, exact: bool, width: usize, letter: &str) -> Result<(), NoMemory>
    ensures { OnOk result (string_bytes out.new ≡ string_bytes out.old ++ number_field exact width letter.now) }
{
    push(out, "{")?;
    if exact {
        push_digits(out, width as u128, Radix::Ten, false)?;
    }
    push(out, letter)?;
    push(out, "}")
}

/// A hexadecimal field with uppercase digits; a scan passes no `0X`, so that is literal text.
fn push_upper(out: &mut String, alternate: bool, exact: bool, width: usize) -> Result<(), NoMemory>
    ensures { OnOk result (string_bytes out.new ≡ string_bytes out.old ++ upper_field alternate exact width) }
{
    if !alternate {
        return push_number(out, exact, width, "x");
    }
    push(out, "0X")?;
    push_number(out, exact, width.saturating_sub(2), "x")
}

/// The field of a word or a character, up to the stop character, if there is one.
fn push_text(out: &mut String, stop: Option<char>) -> Result<(), NoMemory>
    ensures { OnOk result (string_bytes out.new ≡ string_bytes out.old ++ text_field stop) }
{
    match stop {
        Some(_) => push(out, "{}"),
        None => push(out, "{s}"),
    }
}

/// The scanning field of a column.
fn push_field(out: &mut String, field: &RowField, kind: Kind) -> Result<(), NoMemory>
    ensures { OnOk result (string_bytes out.new ≡ string_bytes out.old ++ planned_field field.now kind) }
{
    let specifier = field.field();
    let width = field.width();
    let exact = is_exact(specifier, kind);
    match specifier.conversion_type {
        ConversionType::DecInt | ConversionType::OctInt => push_number(out, exact, width, "d"),
        ConversionType::HexIntLower => push_number(out, exact, width, "x"),
        ConversionType::HexIntUpper => push_upper(out, specifier.alt_form, exact, width),
        ConversionType::String | ConversionType::Char => push_text(out, first(field.after())),
        _ => Ok(()),
    }
}

/// The scanning fields of columns, each with the literal text behind it.
fn push_columns(out: &mut String, fields: &[RowField], kinds: &[Kind]) -> Result<(), NoMemory>
    ensures { OnOk result (string_bytes out.new ≡ string_bytes out.old ++ planned_columns fields.now kinds.now) }
{
    let mut fields = fields;
    let mut kinds = kinds;
    'fields: while let [field, later_fields @ ..] = fields {
        let [kind, later_kinds @ ..] = kinds else {
            return Ok(());
        };
        push_field(out, field, *kind)?;
        push_escaped(out, field.after())?;
        fields = later_fields;
        kinds = later_kinds;
    }
    Ok(())
}

/// The scanning format of a format.
pub fn planned_text(alloc: Global, format: &RowFormat, kinds: &[Kind]) -> Result<String, NoMemory>
    ensures { IfOk result (λ text. string_bytes text ≡ planned_text format.now kinds.now) }
{
    let mut out = String::new(alloc);
    push_escaped(&mut out, format.head())?;
    push_columns(&mut out, format.fields(), kinds)?;
    Ok(out)
}
