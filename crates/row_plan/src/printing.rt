// Whether a line is the row of values: it is compared with what each field prints.
ghost use Rattle.std.specs.Prelude.{◌≡◌, ◌≢◌, ◌↔◌, ◌++◌, ℕ, List, map, string_bytes, IfOk, IsTrue, MatchOption, OnOk};
ghost use Rattle.row_format.specs.Columns.{field_text, columns_text, row_text};
ghost use Rattle.row_plan.specs.Inner.Reading.{kind_in, datum_in, Continues};

use crate::row_value::RowValue;
use crate::text::push;
use numerals::NoMemory;
use row_format::{RowField, RowFormat};
use std::alloc::Global;

/// What stands behind the text in a line, where that is the line's front.
fn behind<'l>(line: &'l [u8], text: &[u8]) -> Option<&'l [u8]>
    ensures { MatchOption result ((rest : List ℕ) → line.now ≢ text.now ++ rest) (λ rest. line.now ≡ text.now ++ rest.now) }
{
    line.strip_prefix(text)
}

/// A field's text over its value, and the literal text behind it, in the place of what `out` held.
fn print_field(
    alloc: Global,
    out: &mut String,
    field: &RowField,
    value: &RowValue<'_>,
) -> Result<(), NoMemory>
    ensures { OnOk result (string_bytes out.new ≡ field_text field.now.field (kind_in value.now) (datum_in value.now) ++ field.now.after) }
{
    out.clear();
    value.print_into(alloc, field.field(), out)?;
    push(out, field.after())
}

/// What stands in the line behind the text of a field over its value and the literal text behind it, where these are its
/// front; `text` is room for them.
fn behind_field<'l>(
    alloc: Global,
    line: &'l [u8],
    field: &RowField,
    value: &RowValue<'_>,
    text: &mut String,
) -> Result<Option<&'l [u8]>, NoMemory>
    ensures { IfOk result (Continues line.now (field_text field.now.field (kind_in value.now) (datum_in value.now)) field.now.after) }
{
    print_field(alloc, text, field, value)?;
    Ok(behind(line, text.as_bytes()))
}

/// Whether the line is the text of the fields over the values; `text` is room for that of one field.
fn is_text_of(
    alloc: Global,
    line: &[u8],
    fields: &[RowField],
    values: &[RowValue<'_>],
    text: &mut String,
) -> Result<bool, NoMemory>
    ensures { IfOk result (λ yes. IsTrue yes ↔ (line.now ≡ columns_text fields.now (map kind_in values.now) (map datum_in values.now))) }
{
    let mut line = line;
    let mut fields = fields;
    let mut values = values;
    'fields: while let [field, later_fields @ ..] = fields {
        let [value, later_values @ ..] = values else {
            return Ok(line.is_empty());
        };
        let Some(rest) = behind_field(alloc, line, field, value, text)? else {
            return Ok(false);
        };
        line = rest;
        fields = later_fields;
        values = later_values;
    }
    Ok(line.is_empty())
}

/// Whether the line is the row of the values; `text` is room for the text of one field.
pub fn is_row_of(
    alloc: Global,
    line: &str,
    format: &RowFormat,
    values: &[RowValue<'_>],
    text: &mut String,
) -> Result<bool, NoMemory>
    ensures { IfOk result (λ yes. IsTrue yes ↔ (line.now ≡ row_text format.now (map kind_in values.now) (map datum_in values.now))) }
{
    let Some(rest) = behind(line.as_bytes(), format.head().as_bytes()) else {
        return Ok(false);
    };
    is_text_of(alloc, rest, format.fields(), values, text)
}
