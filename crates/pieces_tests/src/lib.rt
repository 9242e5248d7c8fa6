//! Rows printed by pieces, as a user of `pieces` sees them.
#![tactic(auto)]

#[cfg(test)]
mod tests;
