//! Replays the lines of an input, and tells each answer that differs and the counts.
#![tactic(auto)]

mod run;
mod tally;

pub use run::replay;
