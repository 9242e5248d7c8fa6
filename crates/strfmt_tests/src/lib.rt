//! `strfmt` as a stranger calls it: tables of known answers, and values and keys of a caller's own types.
#![tactic(auto)]

mod channel;
mod light;

pub use channel::Channel;
pub use light::Light;

#[cfg(test)]
mod closures;
#[cfg(test)]
mod formatters;
#[cfg(test)]
mod tables;
