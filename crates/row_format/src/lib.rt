//! What a printf format is to rows: its columns, the values that fit, the scanning format that reads rows back, and the laws of that.
#![tactic(auto)]

mod format;
mod laws;

pub use format::{RowField, RowFormat};
pub use laws::prints_columns;
