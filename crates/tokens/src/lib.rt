//! The values of a row as tokens, which take no memory.
#![tactic(auto)]

/// A value of a row: its number, and where its text stands in the row. What it is depends on its kind: a number without
/// a sign is `number`, a number with a sign has `number` as its two's complement of 64 bits, and a word is its text.
#[derive(Clone, Copy, Debug, PartialEq, Eq)]
pub struct Token {
    pub number: u64,
    pub start: usize,
    pub end: usize,
}
