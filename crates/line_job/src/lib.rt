//! Runs a job that goes line by line, from a source to a sink: which line is judged when, what is written before what,
//! and what is told at the end.
#![tactic(auto)]

mod batch;
mod engine;
mod job;
mod laws;
mod message;
mod reading;
mod stop;

pub use engine::{run_job, run_told};
pub use job::{LineJob, Refusal, end_line};
pub use laws::{one_answer, splits};
pub use message::{Cause, Message, line_message, message_of, numbered_message, text_message};
pub use stop::{Stop, status_of, tell};
