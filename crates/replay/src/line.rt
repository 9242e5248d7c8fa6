// One line: a call with its inputs, and the answer that is wanted.

use crate::error::Fault;
use std::alloc::Global;

/// A line, split at tabs. The escapes still stand in its fields.
#[derive(Drop)]
pub struct Case<'l> {
    /// The crate of the call.
    pub target: &'l str,
    pub call: &'l str,
    pub inputs: Vec<&'l str>,
    pub wanted: Vec<&'l str>,
}

impl Case<'_> {
    /// Splits a line at tabs and at its first `=>`. A last field `mended` is no part of the answer.
    pub fn read(alloc: Global, line: &str) -> Result<Case<'_>, Fault> {
        let (target, rest) = line.split_once('\t').ok_or(Fault::NoAnswer)?;
        let (call, rest) = rest.split_once('\t').ok_or(Fault::NoAnswer)?;
        let mut inputs = Vec::new(alloc);
        let mut wanted = Vec::new(alloc);
        let mut is_answer = false;
        'fields: for field in rest.split('\t') {
            if is_answer {
                wanted.push(field)?;
            } else if field == "=>" {
                is_answer = true;
            } else {
                inputs.push(field)?;
            }
        }
        if wanted.last() == Some(&"mended") {
            wanted.pop();
        }
        if wanted.is_empty() {
            return Err(Fault::NoAnswer);
        }
        Ok(Case {
            target,
            call,
            inputs,
            wanted,
        })
    }
}
