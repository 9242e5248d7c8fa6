//! The separation rule, as a user of `separation` sees it.
#![tactic(auto)]

#[cfg(test)]
mod tests;
