// Templates of formatx as layouts.
ghost use Rattle.std.specs.Prelude.{◌≡◌, ◌∷◌, List, IfOk, IfSome, IsTrue};
ghost use Rattle.formatx.specs.Spans.{ArgumentFits, Fits, SegmentFits};
ghost use Rattle.formatx.specs.declared.ast.Segment.{Segment as SegmentOf};
ghost use Rattle.formatx.specs.declared.ast.Segment.TheVariants.{Placeholder as Placed};
ghost use Rattle.printer.specs.declared.dialect.Dialect.TheVariants as Of;
ghost use Rattle.pieces.specs.Inner.Formatx.{IsPlain, IsWhole, Moves, place_of, place_after};
ghost use Rattle.pieces.specs.Inner.Sound.{StandsFor};

use crate::layout::{Layout, form_at};
use formatx::{Argument, Error, FormatSpec, FormatType, Placeholder, Segment, parse};
use numerals::NoMemory;
use printer::PositionNames;
use std::alloc::Global;
use values::Kind;

/// Whether the specification has no options, and prints a value as it is.
fn is_plain(spec: &FormatSpec) -> bool
    ensures { IsTrue result → IsPlain spec.now }
{
    let FormatType::Display = spec.format_type else {
        return false;
    };
    spec.is_default()
}

/// The position of an argument; one whose name is unknown has none.
fn place_of(
    names: &PositionNames,
    template: &str,
    argument: &Argument,
    next: usize,
) -> Option<usize>
    requires { ArgumentFits template.now argument.now }
    ensures { result ≡ place_of template.now names.now argument.now next }
{
    match argument {
        Argument::Implicit => Some(next),
        Argument::Positional(place) => Some(*place),
        Argument::Named(span) => names.place_of(&template[span.start..span.end]),
    }
}

/// The implicit position behind a placeholder's; None past the greatest number.
fn place_after(argument: &Argument, next: usize) -> Option<usize>
    ensures { IfSome result (λ after. after ≡ place_after argument.now next) }
{
    match argument {
        Argument::Implicit => next.checked_add(1),
        Argument::Positional(_) | Argument::Named(_) => Some(next),
    }
}

/// Takes a placeholder's value in, and gives the next implicit position; None where the placeholder isn't plain.
fn push_placeholder(
    alloc: Global,
    layout: &mut Layout,
    template: &str,
    placeholder: &Placeholder,
    names: &PositionNames,
    kinds: &[Kind],
    next: usize,
) -> Result<Option<usize>, NoMemory>
    requires { SegmentFits template.now (Placed placeholder.now) }
    ensures { IfOk result (λ found. IfSome found (λ after. (rest : List SegmentOf) → Moves template.now names.now kinds.now layout.old (Placed placeholder.now ∷ rest) next layout.new rest after)) }
{
    if !is_plain(&placeholder.spec) {
        return Ok(None);
    }
    let Some(place) = place_of(names, template, &placeholder.argument, next) else {
        return Ok(None);
    };
    let Some(form) = form_at(kinds, place) else {
        return Ok(None);
    };
    let Some(after) = place_after(&placeholder.argument, next) else {
        return Ok(None);
    };
    layout.push_value(alloc, form, place)?;
    Ok(Some(after))
}

/// Takes a segment in, and gives the next implicit position; None where it is a placeholder that isn't plain.
fn push_segment(
    alloc: Global,
    layout: &mut Layout,
    template: &str,
    segment: &Segment,
    names: &PositionNames,
    kinds: &[Kind],
    next: usize,
) -> Result<Option<usize>, NoMemory>
    requires { SegmentFits template.now segment.now }
    ensures { IfOk result (λ found. IfSome found (λ after. (rest : List SegmentOf) → Moves template.now names.now kinds.now layout.old (segment.now ∷ rest) next layout.new rest after)) }
{
    match segment {
        Segment::Literal(span) => {
            layout.push_text(&template[span.start..span.end])?;
            Ok(Some(next))
        }
        Segment::EscapedOpen => {
            layout.push_text("{")?;
            Ok(Some(next))
        }
        Segment::EscapedClose => {
            layout.push_text("}")?;
            Ok(Some(next))
        }
        Segment::Placeholder(placeholder) => {
            push_placeholder(alloc, layout, template, placeholder, names, kinds, next)
        }
    }
}

/// The layout of segments, where each placeholder is plain and has its value.
fn lay_out_segments(
    alloc: Global,
    template: &str,
    segments: &[Segment],
    names: &PositionNames,
    kinds: &[Kind],
) -> Result<Option<Layout>, NoMemory>
    requires { Fits template.now segments.now }
    ensures { IfOk result (λ found. IfSome found (IsWhole template.now names.now kinds.now segments.now)) }
{
    let mut layout = Layout::new(alloc);
    let mut next = 0;
    let mut rest = segments;
    'segments: while let [segment, after @ ..] = rest {
        let Some(place) = push_segment(alloc, &mut layout, template, segment, names, kinds, next)?
        else {
            return Ok(None);
        };
        next = place;
        rest = after;
    }
    Ok(Some(layout))
}

/// The layout of a template of formatx, where each placeholder is plain and has its value.
pub(crate) fn lay_out(
    alloc: Global,
    template: &str,
    names: &PositionNames,
    kinds: &[Kind],
) -> Result<Option<Layout>, NoMemory>
    ensures { IfOk result (λ found. IfSome found (StandsFor Of.Formatx template.now names.now kinds.now)) }
{
    match parse(alloc, template) {
        Ok(parsed) => lay_out_segments(alloc, template, &parsed.segments, names, kinds),
        Err(Error::NoMemory) => Err(NoMemory),
        Err(_) => Ok(None),
    }
}
