//! Laws of reading values over good input.
#![tactic(auto)]

pub mod alike;
pub mod laws;
