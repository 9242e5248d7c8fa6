// All tokens of a line, read to values.
ghost use Rattle.std.specs.Prelude.{◌≡◌, ◌++◌, ◌∷◌, [], map, IfOk, IfErr, OnOk};
ghost use Rattle.std.specs.Str.{chars};
ghost use Rattle.scan_fmt.specs.Slices.{slices_left};
ghost use Rattle.row_plan.specs.Inner.Reading.{kind_in, datum_in, EachFits, ReadsNoList};

use crate::RowError;
use crate::row_value::RowValue;
use crate::token::read_token;
use numerals::NoMemory;
use row_format::RowField;
use scan_fmt::parse::Slices;
use std::alloc::Global;
use values::Kind;

/// One value more.
fn push<'r>(values: &mut Vec<RowValue<'r>>, value: RowValue<'r>) -> Result<(), NoMemory>
    ensures { OnOk result (values.new.items ≡ values.old.items ++ value.entry ∷ []) }
{
    if values.push(value).is_err() {
        return Err(NoMemory);
    }
    Ok(())
}

/// The values that the tokens read to, one for each field. The tokens that are left are as many as the fields, or it is
/// refused.
pub fn read_tokens<'r>(
    alloc: Global,
    tokens: &mut Slices<'r>,
    fields: &[RowField],
    kinds: &[Kind],
) -> Result<Vec<RowValue<'r>>, RowError>
    ensures kinds { IfOk result (λ values. map kind_in values.items ≡ kinds.now) }
    ensures values { IfOk result (λ values. EachFits fields.now kinds.now (map chars (slices_left tokens.old)) (map datum_in values.items)) }
    ensures refused { IfErr result (ReadsNoList fields.now kinds.now (map chars (slices_left tokens.old))) }
{
    let mut values = Vec::new(alloc);
    let mut fields = fields;
    let mut kinds = kinds;
    'fields: while let [field, later_fields @ ..] = fields {
        let [kind, later_kinds @ ..] = kinds else {
            return Err(RowError::NotARow);
        };
        let Some(token) = Iterator::next(tokens) else {
            return Err(RowError::NotARow);
        };
        let Some(value) = read_token(field, *kind, token) else {
            return Err(RowError::NotARow);
        };
        push(&mut values, value)?;
        fields = later_fields;
        kinds = later_kinds;
    }
    let [] = kinds else {
        return Err(RowError::NotARow);
    };
    if Iterator::next(tokens).is_some() {
        return Err(RowError::NotARow);
    }
    Ok(values)
}
