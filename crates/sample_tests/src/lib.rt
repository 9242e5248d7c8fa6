//! The sample, as a user of it sees it.
#![tactic(auto)]

#[cfg(test)]
mod tests;
