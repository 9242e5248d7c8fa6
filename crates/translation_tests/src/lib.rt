//! Translated templates, as a user of `translation` makes and prints them.
#![tactic(auto)]

#[cfg(test)]
mod rows;
#[cfg(test)]
mod tables;
