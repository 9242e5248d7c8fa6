//! Prints values by templates of three dialects.
#![tactic(auto)]

mod append;
mod dialect;
mod error;
mod keys;
mod laws;
mod printer;
mod told;

pub use dialect::Dialect;
pub use error::{PrinterError, RenderFault, TemplateFault, TextError};
pub use keys::PositionNames;
pub use laws::{dialect_words_differ, prints_once};
pub use printer::Printer;
