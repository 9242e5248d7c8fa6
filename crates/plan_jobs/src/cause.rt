// Why a line of the job that translates is refused, and what is told of it.
ghost use Rattle.plan_jobs.specs.TranslateMessage.{translate_message};

use line_job::{Cause, Message, line_message, numbered_message};

/// Why a line is refused by the job that translates. Lines and elements count from 1.
#[derive(Clone, Copy, Debug, PartialEq, Eq)]
pub enum TranslateCause {
    /// This header line is missing, or it doesn't keep its rule: `#2`, kinds or names.
    Header { line: u64 },
    /// The format line is no printf format.
    SourceFormat { line: u64 },
    /// The element at this place is the first that has no translation.
    Element { line: u64, place: usize },
}

impl Cause for TranslateCause {
    ghost message = { translate_message };

    fn message(self) -> Message {
        match self {
            TranslateCause::Header { line } => line_message(line, b"bad header"),
            TranslateCause::SourceFormat { line } => line_message(line, b"not a printf format"),
            TranslateCause::Element { line, place } => {
                numbered_message(line, b"element ", place as u64, b": no translation")
            }
        }
    }
}
