//! Brace formats, filled from a map or by a closure.
#![tactic(auto)]

mod cause;
mod cutting;
mod display;
mod fmtnum;
mod fmtstr;
mod formatter;
mod key;
mod laws;
mod map;
mod parts;
mod template;
mod types;

pub use display::DisplayStr;
pub use fmtstr::strfmt_map;
pub use formatter::Formatter;
pub use key::FromKey;
pub use laws::{field_fills_width, pattern_reads_once, text_prints_once};
pub use map::{Format, strfmt};
pub use template::Template;
pub use types::{Alignment, FmtError, Result, Sign};
