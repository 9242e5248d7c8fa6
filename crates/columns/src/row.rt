// Rows read step by step.
ghost use Rattle.std.specs.Prelude.{◌≡◌, IfSome, IfOk, IsTrue};
ghost use Rattle.row_format.specs.Row.{IsRow};
ghost use Rattle.columns.specs.Inner.Steps.{columns_of, kinds_of, AreServed, AreStepsRead, IsEnd};
ghost use Rattle.columns.specs.Fields.{AreFieldsAt};
ghost use Rattle.tokens.specs.Tokens.{data_of, AreTokens};

use crate::step::{Step, behind};
use numerals::NoMemory;
use row_format::{RowField, RowFormat};
use std::alloc::Global;
use std::marker::Model;
use tokens::Token;
use values::Kind;

/// The steps by which the rows of a format are read. It owns copies of the format's texts, fields and kinds.
#[derive(Drop)]
pub struct Columns {
    head: String,
    steps: Vec<Step>,
}

impl Model for Columns {
    ghost use Rattle.std.specs.Prelude.{string_bytes};
    ghost use Rattle.columns.specs.Rows.{RowColumns};
    ghost use Rattle.columns.specs.Inner.Steps.{columns_of, kinds_of, AreServed};

    ghost Value = { RowColumns };

    ghost view = { λ it. record { format = record { head = string_bytes it.head; columns = columns_of it.steps.items }; kinds = kinds_of it.steps.items } };

    ghost invariant = { λ it. AreServed it.steps.items };
}

// The steps of fields over kinds, or None where this way doesn't serve.
fn steps_of(
    alloc: Global,
    fields: &[RowField],
    kinds: &[Kind],
) -> Result<Option<Vec<Step>>, NoMemory>
    ensures columns { IfOk result (λ found. IfSome found (λ steps. columns_of steps.items ≡ fields.now)) }
    ensures kinds { IfOk result (λ found. IfSome found (λ steps. kinds_of steps.items ≡ kinds.now)) }
    ensures served { IfOk result (λ found. IfSome found (λ steps. AreServed steps.items)) }
{
    let mut steps = Vec::new(alloc);
    let mut left = kinds;
    'fields: for field in fields {
        let [kind, later @ ..] = left else {
            return Ok(None);
        };
        let Some(step) = Step::new(alloc, field, *kind)? else {
            return Ok(None);
        };
        if steps.push(step).is_err() {
            return Err(NoMemory);
        }
        left = later;
    }
    Ok(left.is_empty().then_some(steps))
}

// Reads the end of a row into tokens, and answers what is left of it behind the last step.
fn read_steps<'t>(
    steps: &[Step],
    row: &[u8],
    text: &'t [u8],
    tokens: &mut Vec<Token>,
) -> Result<Option<&'t [u8]>, NoMemory>
    requires served { AreServed steps.now }
    requires end { IsEnd row.now text.now }
    ensures { IfOk result (λ found. IfSome found (λ rest. AreStepsRead (columns_of steps.now) (kinds_of steps.now) row.now text.now tokens.new.items rest.now)) }
{
    tokens.clear();
    let mut rest = text;
    'steps: for step in steps {
        let Some((token, later)) = step.read(row, rest) else {
            return Ok(None);
        };
        if tokens.push(token).is_err() {
            return Err(NoMemory);
        }
        rest = later;
    }
    Ok(Some(rest))
}

impl Columns {
    /// The steps of a format over kinds, or None where this way doesn't serve.
    pub fn new(
        alloc: Global,
        format: &RowFormat,
        kinds: &[Kind],
    ) -> Result<Option<Columns>, NoMemory>
        ensures { IfOk result (λ found. IfSome found (λ columns. columns ≡ record { format = format.now; kinds = kinds.now })) }
    {
        let Ok(head) = format.head().to_string(alloc) else {
            return Err(NoMemory);
        };
        let Some(steps) = steps_of(alloc, format.fields(), kinds)? else {
            return Ok(None);
        };
        Ok(Some(Columns { head, steps }))
    }

    /// Reads a row into tokens, one for each field. False says nothing, and then what the tokens are isn't fixed.
    pub fn read(&self, row: &str, tokens: &mut Vec<Token>) -> Result<bool, NoMemory>
        ensures sound { IfOk result (λ found. IsTrue found → IsRow self.now.format self.now.kinds row.now (data_of self.now.kinds row.now tokens.new.items)) }
        ensures tokens { IfOk result (λ found. IsTrue found → AreTokens self.now.kinds row.now tokens.new.items) }
        ensures fields { IfOk result (λ found. IsTrue found → AreFieldsAt self.now.format.columns self.now.kinds row.now tokens.new.items) }
    {
        let row = row.as_bytes();
        let Some(text) = behind(row, self.head.as_bytes()) else {
            return Ok(false);
        };
        match read_steps(self.steps.as_slice(), row, text, tokens)? {
            Some(rest) => Ok(rest.is_empty()),
            None => Ok(false),
        }
    }
}
