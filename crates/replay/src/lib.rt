//! Fixed cases: lines that name a call, its inputs and the answer that is wanted, and what came of them.
#![tactic(auto)]

mod compare;
mod error;
mod escape;
mod line;
mod names;
mod typed;

pub use compare::{Calls, Outcome, judge};
pub use error::Fault;
pub use escape::{undo, undo_texts};
pub use line::Case;
pub use names::place_of;
pub use typed::{Value, read_value, read_values};
