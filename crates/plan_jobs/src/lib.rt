//! The jobs that plan a format, that translate it, and that scan lines, each run from a source to a sink.
#![tactic(auto)]

mod cause;
mod laws;
mod plan;
mod push;
mod scan;
mod translate;

pub use cause::TranslateCause;
pub use laws::translate_messages_differ;
pub use plan::run_plan;
pub use scan::run_scan;
pub use translate::run_translate;
pub use translation::Target;
