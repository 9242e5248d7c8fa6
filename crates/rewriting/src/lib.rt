//! The job that rewrites rows from one format into another, run from a source to a sink.
#![tactic(auto)]

mod error;
mod fast;
mod rewrite;
mod rows;
mod run;

pub use error::ReformatError;
pub use run::{reformat, run_rewrite};
