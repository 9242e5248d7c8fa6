//! The separation rule: which printf formats can be read back, judged from their fields and kinds alone.
#![tactic(auto)]

mod conditions;
mod front;
pub mod laws;
mod pairs;
mod table;
mod touching;

pub use conditions::judge;
pub use table::is_exact;

/// Why a format can't be read back. Fields count from 1; `%%` is no field.
#[derive(Clone, Copy, Debug, PartialEq, Eq)]
pub enum Refused {
    /// The field's conversion isn't one of its kind's, or its width or precision is `*`, or the field or the kind has no
    /// partner.
    Kind { field: usize },
    /// A word's precision may cut it.
    Lossy { field: usize },
    /// Over some values that fit, the text behind the field's token begins with a character that the field takes.
    RunsOn { field: usize },
}
