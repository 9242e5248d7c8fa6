// A plan, and the rows that it reads.
ghost use Rattle.std.specs.Prelude.{◌≡◌, ◌≢◌, length, IsTrue, IfOk, IfErr, OnOk};
ghost use Rattle.std.specs.Str.{chars};
ghost use Rattle.row_format.specs.Columns.{columns_of};
ghost use Rattle.row_format.specs.Plannable.{IsPlannable};
ghost use Rattle.row_format.specs.Planned.{planned_text};
ghost use Rattle.row_plan.specs.Plan.{RefusesPlan, IsRead, RefusesRow};
ghost use Rattle.row_plan.specs.Inner.Reading.{AreOwned, NoneWider, text_in};

use crate::printing::is_row_of;
use crate::reading::read_tokens;
use crate::row_value::{RowValue, into_values};
use crate::text::planned_text;
use crate::{PlanError, RowError};
use numerals::NoMemory;
use row_format::{RowField, RowFormat};
use row_laws::{has_one_list, reads_back, reads_to_one_list};
use scan_fmt::parse::Format;
use separation::judge;
use sprintf::parser::FormatElement;
use std::alloc::Global;
use std::marker::Model;
use values::{Kind, Value};

/// How much room for the text of a field is kept from row to row, in bytes.
const KEPT_ROOM: usize = 4096;

/// How the rows of a printf format are read back. It owns copies of the format's texts, fields and kinds.
#[derive(Drop)]
pub struct RowPlan {
    format: RowFormat,
    kinds: Vec<Kind>,
    text: String,
}

impl Model for RowPlan {
    ghost use Rattle.std.specs.Prelude.{◌≡◌, string_bytes};
    ghost use Rattle.row_format.specs.Laws.{IsText};
    ghost use Rattle.row_format.specs.Plannable.{IsPlannable};
    ghost use Rattle.row_format.specs.Planned.{planned_text};
    ghost use Rattle.row_plan.specs.Plan.{Planned};

    ghost Value = { Planned };

    ghost view = { λ it. record { format = it.format; kinds = it.kinds.items } };

    ghost invariant = { λ it. IsText it.format × IsPlannable it.format.columns it.kinds.items × (string_bytes it.text ≡ planned_text it.format it.kinds.items) };
}

/// A copy of the kinds.
fn copy(alloc: Global, kinds: &[Kind]) -> Result<Vec<Kind>, NoMemory>
    ensures { IfOk result (λ copies. copies.items ≡ kinds.now) }
{
    Ok(kinds.to_vec(alloc)?)
}

/// Whether a field is wider than the line is long.
fn is_too_short(fields: &[RowField], line: &str) -> bool
    ensures { IsTrue result → ¬ NoneWider (length line.now) fields.now }
{
    'fields: for field in fields {
        if field.width() > line.len() {
            return true;
        }
    }
    false
}

/// Gives back what one long field left of room.
fn release(text: &mut String) {
    text.clear();
    text.shrink_to(KEPT_ROOM);
}

/// The values with words of their own, where the line is the row of them; `text` is room for the text of one field.
fn own_values(
    alloc: Global,
    line: &str,
    format: &RowFormat,
    values: Vec<RowValue<'_>>,
    text: &mut String,
) -> Result<Vec<Value>, RowError>
    ensures owned { IfOk result (λ owned. AreOwned values.entry.items owned.items) }
    ensures row { OnOk result (line.now ≡ text_in format.now values.entry.items) }
    ensures refused { IfErr result (λ why. why ≡ RowError.NotARow → line.now ≢ text_in format.now values.entry.items) }
{
    let is_row = is_row_of(alloc, line, format, &values, text)?;
    release(text);
    if !is_row {
        return Err(RowError::NotARow);
    }
    Ok(into_values(alloc, values)?)
}

/// Plans the rows of a format, with one kind for each of its fields. It is refused exactly where the format can't be read back.
pub fn plan(
    alloc: Global,
    elements: &[FormatElement<'_>],
    kinds: &[Kind],
) -> Result<RowPlan, PlanError>
    ensures ok { IfOk result (λ plan. plan ≡ record { format = columns_of elements.now; kinds = kinds.now }) }
    ensures plannable { OnOk result (IsPlannable (columns_of elements.now).columns kinds.now) }
    ensures refused { IfErr result (RefusesPlan (columns_of elements.now).columns kinds.now) }
{
    let format = RowFormat::new(alloc, elements)?;
    if let Some(why) = judge(&format, kinds) {
        return Err(PlanError::Refused(why));
    }
    let text = planned_text(alloc, &format, kinds)?;
    let kinds = copy(alloc, kinds)?;
    Ok(RowPlan {
        format,
        kinds,
        text,
    })
}

impl RowPlan {
    /// The scanning format that reads the rows. It takes no memory.
    pub fn format_text(&self) -> &str
        ensures { result.now ≡ planned_text self.now.format self.now.kinds }
    {
        self.text.as_str()
    }

    /// Reads a line: the one list of values of which it is the row. A line that is shorter than the width of a field is
    /// refused before anything is printed.
    pub fn read_row(&self, alloc: Global, line: &str) -> Result<Vec<Value>, RowError>
        ensures ok { IfOk result (λ values. IsRead self.now line.now values.items) }
        ensures refused { IfErr result (RefusesRow self.now line.now) }
    {
        let mut text = String::new(alloc);
        self.read_row_with(alloc, line, &mut text)
    }

    /// The same, with a text in which the fields are printed again, one by one, and of whose room some is kept. What it holds
    /// afterwards isn't fixed.
    pub fn read_row_with(
        &self,
        alloc: Global,
        line: &str,
        text: &mut String,
    ) -> Result<Vec<Value>, RowError>
        ensures ok { IfOk result (λ values. IsRead self.now line.now values.items) }
        ensures refused { IfErr result (RefusesRow self.now line.now) }
    {
        let format = Format::new(alloc, self.format_text())?;
        self.read_row_by(alloc, &format, line, text)
    }

    /// The same, with the scanning format, which was cut before.
    pub fn read_row_by(
        &self,
        alloc: Global,
        format: &Format<'_>,
        line: &str,
        text: &mut String,
    ) -> Result<Vec<Value>, RowError>
        requires format { format.now ≡ chars (planned_text self.now.format self.now.kinds) }
        ensures ok { IfOk result (λ values. IsRead self.now line.now values.items) }
        ensures refused { IfErr result (RefusesRow self.now line.now) }
    {
        reads_back();
        reads_to_one_list();
        has_one_list();
        let fields = self.format.fields();
        if is_too_short(fields, line) {
            return Err(RowError::NotARow);
        }
        let mut tokens = format.scan_slices(alloc, line)?;
        let values = read_tokens(alloc, &mut tokens, fields, &self.kinds)?;
        own_values(alloc, line, &self.format, values, text)
    }
}
