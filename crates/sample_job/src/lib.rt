//! The job over sample input: its rows are rewritten in memory, and one line says how much came of them.
#![tactic(auto)]

mod run;
mod summary;

pub use run::run_sample;
