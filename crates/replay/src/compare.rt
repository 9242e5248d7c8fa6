// What came of a line.

use crate::error::Fault;
use crate::escape::{push_escaped, undo};
use crate::line::Case;
use std::alloc::Global;

/// What makes the calls that lines name.
pub trait Calls {
    /// The fields of the answer, without escapes.
    fn answer(&self, alloc: Global, case: &Case<'_>) -> Result<Vec<String>, Fault>;
}

/// What came of a line.
#[derive(Debug, Drop)]
pub enum Outcome {
    Passed,
    /// What was wanted and what came, or why the line gives no answer.
    Failed(String),
    /// The call is not built yet.
    Waits,
}

/// Makes the call of a line, and compares its answer with the one that is wanted. It refuses for want of memory alone.
pub fn judge<C: Calls>(alloc: Global, calls: &C, line: &str) -> Result<Outcome, Fault> {
    match Case::read(alloc, line) {
        Ok(case) => judge_case(alloc, calls, &case),
        Err(fault) => outcome_of(alloc, fault),
    }
}

fn judge_case<C: Calls>(alloc: Global, calls: &C, case: &Case<'_>) -> Result<Outcome, Fault> {
    match calls.answer(alloc, case) {
        Ok(fields) => compared(alloc, case.wanted.as_slice(), fields.as_slice()),
        Err(fault) => outcome_of(alloc, fault),
    }
}

/// What comes of a line that gives no answer.
fn outcome_of(alloc: Global, fault: Fault) -> Result<Outcome, Fault> {
    match fault {
        Fault::NoMemory => Err(fault),
        Fault::Waits => Ok(Outcome::Waits),
        _ => Ok(Outcome::Failed(fault.to_string(alloc)?)),
    }
}

/// Compares the fields one by one.
fn compared(alloc: Global, wanted: &[&str], came: &[String]) -> Result<Outcome, Fault> {
    match is_answer(alloc, wanted, came) {
        Ok(true) => Ok(Outcome::Passed),
        Ok(false) => Ok(Outcome::Failed(difference(alloc, wanted, came)?)),
        Err(fault) => outcome_of(alloc, fault),
    }
}

/// Whether the fields that came are those that are wanted.
fn is_answer(alloc: Global, wanted: &[&str], came: &[String]) -> Result<bool, Fault> {
    if wanted.len() != came.len() {
        return Ok(false);
    }
    'fields: for (field, text) in wanted.iter().zip(came) {
        if undo(alloc, field)?.as_slice() != text.as_bytes() {
            return Ok(false);
        }
    }
    Ok(true)
}

/// `wanted` and the fields that are wanted, `came` and those that came.
fn difference(alloc: Global, wanted: &[&str], came: &[String]) -> Result<String, Fault> {
    let mut text = String::from_str(alloc, "wanted")?;
    'wanted: for field in wanted {
        write!(text, "\t{field}")?;
    }
    text.push_str("\tcame")?;
    'came: for field in came {
        text.push('\t')?;
        push_escaped(&mut text, field.as_str())?;
    }
    Ok(text)
}
