//! Rewrites lines from one format into another, from bytes to bytes, and runs the commands of the program.
#![tactic(auto)]

mod command;

pub use command::run;
pub use header_lines::{LineCause, messages_differ};
pub use plan_jobs::{TranslateCause, translate_messages_differ};
pub use printer::{Dialect, Printer, PrinterError, RenderFault, TemplateFault, TextError};
pub use rewriting::{ReformatError, reformat};
pub use row_plan::{PlanError, Refused, RowError, RowPlan, plan};
pub use sample::sample_input;
pub use translation::{Target, TranslateError, translate};
pub use values::{Kind, KindsError, Value, Word, parse_kinds};
