//! The header lines of the jobs over rows, each judged by the number of its line, and every cause for which a command refuses a
//! line.
#![tactic(auto)]

mod cause;
mod headers;
mod heading;
mod laws;
mod names;

pub use cause::LineCause;
pub use headers::{read_dialect, read_format, read_kinds, read_template};
pub use heading::{Fields, Headed, Heading, Version, read_heading};
pub use laws::{header_lines_are_clear, messages_differ};
