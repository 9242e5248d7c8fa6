// How the parts of a template stand in a line.

use formatx::{
    Align, Argument, Count, CountParam, FormatSpec, Placeholder, Precision, Segment, Sign, Span,
};
use replay::Fault;
use std::alloc::Global;

pub(crate) fn segment_text(alloc: Global, segment: &Segment) -> Result<String, Fault> {
    match segment {
        Segment::Literal(span) => {
            let mut text = String::from_str(alloc, "L:")?;
            push_span(&mut text, *span)?;
            Ok(text)
        }
        Segment::EscapedOpen => Ok(String::from_str(alloc, "{{")?),
        Segment::EscapedClose => Ok(String::from_str(alloc, "}}")?),
        Segment::Placeholder(placeholder) => placeholder_text(alloc, placeholder),
    }
}

/// `P:S..E` and the parts.
fn placeholder_text(alloc: Global, placeholder: &Placeholder) -> Result<String, Fault> {
    let mut text = String::from_str(alloc, "P:")?;
    push_span(&mut text, placeholder.span)?;
    push_argument(&mut text, &placeholder.argument)?;
    let spec = &placeholder.spec;
    push_options(&mut text, spec)?;
    push_width(&mut text, &spec.width)?;
    push_precision(&mut text, &spec.precision)?;
    let format_type = spec.format_type;
    let is_default = spec.is_default();
    write!(text, " type={format_type:?} default={is_default}")?;
    Ok(text)
}

fn push_argument(text: &mut String, argument: &Argument) -> Result<(), Fault> {
    match argument {
        Argument::Implicit => Ok(text.push_str(" arg=next")?),
        Argument::Positional(position) => Ok(write!(text, " arg={position}")?),
        Argument::Named(span) => {
            text.push_str(" arg=")?;
            push_span(text, *span)
        }
    }
}

fn push_width(text: &mut String, width: &Option<Count>) -> Result<(), Fault> {
    text.push_str(" width=")?;
    match width {
        Some(count) => push_count(text, count),
        None => Ok(text.push('-')?),
    }
}

fn push_precision(text: &mut String, precision: &Option<Precision>) -> Result<(), Fault> {
    text.push_str(" precision=")?;
    match precision {
        Some(Precision::Count(count)) => push_count(text, count),
        Some(Precision::Star) => Ok(text.push('*')?),
        None => Ok(text.push('-')?),
    }
}

/// Appends fill, alignment, sign and the two flags.
fn push_options(text: &mut String, spec: &FormatSpec) -> Result<(), Fault> {
    match spec.fill {
        Some(fill) => write!(text, " fill='{fill}'")?,
        None => text.push_str(" fill=-")?,
    }
    text.push_str(match spec.align {
        Some(Align::Left) => " align=<",
        Some(Align::Center) => " align=^",
        Some(Align::Right) => " align=>",
        None => " align=-",
    })?;
    text.push_str(match spec.sign {
        Some(Sign::Plus) => " sign=+",
        Some(Sign::Minus) => " sign=-",
        None => " sign=none",
    })?;
    let alternate = spec.alternate;
    let zero_pad = spec.zero_pad;
    write!(text, " alt={alternate} zero={zero_pad}")?;
    Ok(())
}

/// Appends `S..E`.
fn push_span(text: &mut String, span: Span) -> Result<(), Fault> {
    let start = span.start;
    let end = span.end;
    write!(text, "{start}..{end}")?;
    Ok(())
}

/// Appends `N`, `N$` or `S..E$`.
fn push_count(text: &mut String, count: &Count) -> Result<(), Fault> {
    match count {
        Count::Literal(number) => write!(text, "{number}")?,
        Count::Param(CountParam::Positional(position)) => write!(text, "{position}$")?,
        Count::Param(CountParam::Named(span)) => {
            push_span(text, *span)?;
            text.push('$')?;
        }
    }
    Ok(())
}
