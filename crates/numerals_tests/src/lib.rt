//! `numerals` as a stranger uses it, on rows that were written out by hand or by another program.
#![tactic(auto)]

#[cfg(test)]
mod tests;
