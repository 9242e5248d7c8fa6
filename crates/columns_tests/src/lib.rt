//! Rows read by columns, as a user of `columns` sees them.
#![tactic(auto)]

#[cfg(test)]
mod tests;
