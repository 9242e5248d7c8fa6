// The values of a row, as they stand in it.
ghost use Rattle.std.specs.Prelude.{◌≡◌, ◌++◌, ◌∷◌, [], string_bytes, IfOk, OnOk};
ghost use Rattle.values.specs.Datum.{kind_of, datum_of};
ghost use Rattle.row_format.specs.Columns.{field_text};
ghost use Rattle.row_plan.specs.Inner.Reading.{kind_in, datum_in, AreOwned};

use numerals::NoMemory;
use sprintf::Printf;
use sprintf::parser::ConversionSpecifier;
use std::alloc::Global;
use values::{Value, Word};

/// A value of a row, which takes no memory: its word is a slice of the row.
#[derive(Drop)]
pub enum RowValue<'r> {
    Word(&'r str),
    Other(Value),
}

impl RowValue<'_> {
    /// Appends what the field prints over the value.
    pub fn print_into(
        &self,
        alloc: Global,
        field: &ConversionSpecifier,
        out: &mut String,
    ) -> Result<(), NoMemory>
        ensures { OnOk result (string_bytes out.new ≡ string_bytes out.old ++ field_text field.now (kind_in self.now) (datum_in self.now)) }
    {
        let printed = match self {
            RowValue::Word(text) => text.format_into(alloc, field, out),
            RowValue::Other(value) => value.format_into(alloc, field, out),
        };
        if printed.is_err() {
            return Err(NoMemory);
        }
        Ok(())
    }

    /// The value, with a copy of its word.
    fn into_value(self, alloc: Global) -> Result<Value, NoMemory>
        ensures kind { IfOk result (λ value. kind_of value ≡ kind_in self.entry) }
        ensures datum { IfOk result (λ value. datum_of value ≡ datum_in self.entry) }
    {
        match self {
            RowValue::Word(text) => Ok(Value::Word(Word::new(alloc, text)?)),
            RowValue::Other(value) => Ok(value),
        }
    }
}

/// One value more.
fn push(values: &mut Vec<Value>, value: Value) -> Result<(), NoMemory>
    ensures { OnOk result (values.new.items ≡ values.old.items ++ value ∷ []) }
{
    if values.push(value).is_err() {
        return Err(NoMemory);
    }
    Ok(())
}

/// The values, with copies of their words.
pub fn into_values(alloc: Global, values: Vec<RowValue<'_>>) -> Result<Vec<Value>, NoMemory>
    ensures { IfOk result (λ owned. AreOwned values.entry.items owned.items) }
{
    let mut owned = Vec::new(alloc);
    'values: for value in values {
        push(&mut owned, value.into_value(alloc)?)?;
    }
    Ok(owned)
}
