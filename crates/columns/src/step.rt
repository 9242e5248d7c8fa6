// One field of a row, with the literal text behind it.
ghost use Rattle.std.specs.Prelude.{◌≡◌, ◌++◌, IfSome, IfOk, string_bytes};
ghost use Rattle.columns.specs.Inner.Steps.{column_of, IsEnd, IsServedStep, IsStepRead};

use crate::take::Take;
use numerals::NoMemory;
use row_format::RowField;
use sprintf::ConversionSpecifier;
use std::alloc::Global;
use tokens::Token;
use values::Kind;

/// A field, how it is taken, and the literal text behind it.
#[derive(Drop)]
pub(crate) struct Step {
    field: ConversionSpecifier,
    kind: Kind,
    take: Take,
    after: String,
}

/// What stands behind the text, where that stands in front.
#[inline(always)]
pub(crate) fn behind<'t>(text: &'t [u8], front: &[u8]) -> Option<&'t [u8]>
    ensures { IfSome result (λ rest. text.now ≡ front.now ++ rest.now) }
{
    match (front, text) {
        ([], _) => Some(text),
        ([byte], [first, rest @ ..]) => (byte == first).then_some(rest),
        ([byte, next], [first, second, rest @ ..]) => {
            (byte == first && next == second).then_some(rest)
        }
        _ => text.strip_prefix(front),
    }
}

impl Step {
    /// The step of a field, or None where this way doesn't serve.
    pub(crate) fn new(alloc: Global, field: &RowField, kind: Kind) -> Result<Option<Step>, NoMemory>
        ensures column { IfOk result (λ found. IfSome found (λ step. column_of step ≡ field.now)) }
        ensures kind { IfOk result (λ found. IfSome found (λ step. step.kind ≡ kind)) }
        ensures served { IfOk result (λ found. IfSome found IsServedStep) }
    {
        let Some(take) = Take::of(field, kind) else {
            return Ok(None);
        };
        let Ok(after) = field.after().to_string(alloc) else {
            return Err(NoMemory);
        };
        Ok(Some(Step {
            field: *field.field(),
            kind,
            take,
            after,
        }))
    }

    /// The token in front of the end of a row, and what stands behind it and its literal text.
    #[inline(always)]
    pub(crate) fn read<'t>(&self, row: &[u8], text: &'t [u8]) -> Option<(Token, &'t [u8])>
        requires served { IsServedStep self.now }
        requires end { IsEnd row.now text.now }
        ensures { IfSome result (λ found. IsStepRead (column_of self.now) self.now.kind row.now text.now found.0 found.1.now) }
    {
        let (number, rest) = self.take.take(text)?;
        let token = Token {
            number,
            start: row.len() - text.len(),
            end: row.len() - rest.len(),
        };
        Some((token, behind(rest, self.after.as_bytes())?))
    }
}
