//! Reads tokens from a text by a format of literals and fields.
#![tactic(auto)]

mod directive;
mod expression;
mod field;
mod number;
pub mod parse;
mod read;
mod set;
mod slices;
mod text;
