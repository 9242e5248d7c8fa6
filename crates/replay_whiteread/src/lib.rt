//! The calls of whiteread that lines name.
#![tactic(auto)]

mod readers;
mod texts;
mod types;

use replay::Fault;
use std::alloc::Global;

/// The answer of a call over a text, whose inputs still have their escapes.
pub fn answer(alloc: Global, call: &str, inputs: &[&str]) -> Result<Vec<String>, Fault> {
    texts::answer(alloc, call, inputs)
}

/// The answer of a call on a reader over a source in memory, whose inputs still have their escapes.
pub fn reader_answer(alloc: Global, call: &str, inputs: &[&str]) -> Result<Vec<String>, Fault> {
    readers::answer(alloc, call, inputs)
}
