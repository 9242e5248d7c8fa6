//! Templates in braces that are made from printf formats.
#![tactic(auto)]

mod elements;
mod error;
mod field;
mod laws;
mod options;
mod row;
mod table;
mod target;

pub use elements::translate;
pub use error::TranslateError;
pub use laws::{formatx_prints_the_same, strfmt_prints_the_same, suits_is_converts};
pub use target::Target;
