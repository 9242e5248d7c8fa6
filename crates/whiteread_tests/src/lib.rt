//! `whiteread` as a stranger uses it: words, values, lines, errors with their places, and the laws of readers.
#![tactic(auto)]

pub mod agreement;
#[cfg(test)]
mod errors;
#[cfg(test)]
mod laws;
#[cfg(test)]
mod lines;
#[cfg(test)]
mod reads;
#[cfg(test)]
mod texts;
#[cfg(test)]
mod values;
