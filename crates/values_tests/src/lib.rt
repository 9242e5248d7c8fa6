//! Kinds and values, as a user of `values` sees them.
#![tactic(auto)]

#[cfg(test)]
mod tests;
