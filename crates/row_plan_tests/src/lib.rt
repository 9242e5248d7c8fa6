//! Plans and rows, as a user of `row_plan` sees them.
#![tactic(auto)]

#[cfg(test)]
mod plans;
#[cfg(test)]
mod rows;
