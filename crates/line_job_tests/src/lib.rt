//! Two jobs over `line_job`, as a stranger writes them, and worked inputs of both.
#![tactic(auto)]

pub mod head;
pub mod quote;
#[cfg(test)]
mod tests;
