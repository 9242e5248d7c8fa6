//! Rust-like templates: a template is parsed once and rendered over values of the caller's.
#![tactic(auto)]

mod ast;
mod error;
mod format;
mod laws;
mod names;
mod parser;
mod renderer;
mod template;
mod value;

pub use ast::{
    Align, Argument, Count, CountParam, FormatSpec, FormatString, FormatType, Placeholder,
    Precision, Segment, Sign, Span,
};
pub use error::Error;
pub use format::render;
pub use laws::{fields_are_wide, finishes_agree, missing_is_empty, one_reading};
pub use names::Names;
pub use parser::parse;
pub use renderer::Renderer;
pub use template::Template;
pub use value::{DebugStyle, FormatValue, Shape};
