//! `sprintf` as a stranger uses it: tables of known answers, and values of a caller's own type.
#![tactic(auto)]

#[cfg(test)]
mod calls;
#[cfg(test)]
mod rows;
#[cfg(test)]
mod tables;
