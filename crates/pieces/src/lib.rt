//! Rows printed by templates in a fast way: a template is cut into pieces once, and a row's tokens are put between them.
#![tactic(auto)]

mod copied;
mod formatx_layout;
mod layout;
mod pieces;
mod printf_layout;
mod source;
mod strfmt_layout;

pub use pieces::Pieces;
