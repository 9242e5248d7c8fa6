//! `edge_io` as a stranger uses it: pieces, ends and failures, in memory and of the system.
#![tactic(auto)]

#[cfg(test)]
mod memory;
#[cfg(test)]
mod system;
