//! Runs over a few lines, each with what it must print.
#![tactic(auto)]

#[cfg(test)]
mod runs;
