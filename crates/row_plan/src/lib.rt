//! Plans rows: derives from a printf format the scanning format that reads rows back, and reads rows by it.
#![tactic(auto)]

mod characters;
mod error;
mod printing;
mod reading;
mod row_value;
mod rows;
mod text;
mod token;

pub use error::{PlanError, RowError};
pub use rows::{RowPlan, plan};
pub use separation::Refused;
