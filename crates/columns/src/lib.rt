//! Rows read by the columns of their format into tokens, without printing them again: a way that may say no, and whose yes is proved.
#![tactic(auto)]

mod digit_tables;
mod eight;
mod hexadecimal;
mod integer;
mod number;
mod row;
mod step;
mod take;
mod word;

pub use row::Columns;
pub use tokens::Token;
