//! Kinds, and values of them.
#![tactic(auto)]

mod decimal;
mod kind;
mod templates;
mod value;
mod word;

pub use decimal::read_decimal;
pub use kind::{Kind, KindsError, parse_kinds};
pub use value::Value;
pub use word::Word;
