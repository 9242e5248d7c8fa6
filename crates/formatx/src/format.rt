// Prints a parsed template over values.
ghost use Rattle.std.specs.Prelude.{◌≡◌, ◌++◌, ◌+◌, ◌<◌, ◌≤◌, IfErr, IfOk, MatchOption, OnErr, OnOk, ⊤, IsFalse, ◌^◌, false, Some, None, Err, codes, length, map, slice_get, string_bytes, option_map, option_copied};
ghost use Rattle.numerals.specs.Numeral.{numeral};
ghost use Rattle.formatx.specs.Fault.{Tells};
ghost use Rattle.formatx.specs.Inner.Answers.{Answers};
ghost use Rattle.formatx.specs.Spans.{ArgumentFits, Fits, SegmentFits, SpanFits};
ghost use Rattle.formatx.specs.Field.{aligned, body_of, by_shape, cut, field_text, gap_of, number_body, padding_of, shaped, shown_by, sign_text};
ghost use Rattle.formatx.specs.Scene.{covered, scene_over};
ghost use Rattle.formatx.specs.Inner.Scenes.{scene_of};
ghost use Rattle.formatx.specs.Counts.{count_at_position, count_of, number_at, precision_of, width_of};
ghost use Rattle.formatx.specs.Inner.Parts.{CountFits, PrecisionFits, number_of};
ghost use Rattle.formatx.specs.Arguments.{argument_name, argument_takes, position_at, precision_takes, value_at};
ghost use Rattle.formatx.specs.Text.{Appends, Holds, placeholder_text, present_text, rendered, segment_takes, segment_text, argument_text, supported, whole};

use crate::ast::{
    Align, Argument, Count, CountParam, FormatSpec, FormatString, FormatType, Placeholder,
    Precision, Segment, Sign, Span,
};
use crate::error::Error;
use crate::names::Names;
use crate::parser::{quote, strip, usize_of};
use crate::value::{DebugStyle, FormatValue, Shape};
use numerals::{Radix, push_digits};
use padding::{Field, count_chars, front};
use std::alloc::Global;

// What a template is printed over.
#[derive(Drop)]
struct Input<'a, V> {
    source: &'a str,
    args: &'a [V],
    names: &'a Names,
    strict: bool,
}

// The span of a fault that stands at no place of the source.
const NOWHERE: Span = Span { start: 0, end: 0 };

// The number that a value's text writes.
fn number_of<V: FormatValue>(alloc: Global, words: &str, value: &V) -> Result<usize, Error>
    ensures { Answers (λ a. a) (number_of words.now (V.meaning value.now).display) result }
{
    let mut text = String::new(alloc);
    value.display(&mut text)?;
    if let Some(number) = usize_of(text.as_str()) {
        return Ok(number);
    }
    let mut message = quote(alloc, words, text.as_str())?;
    message.push_str(" is not a valid usize")?;
    Err(Error::Parse {
        span: NOWHERE,
        message,
    })
}

// A number between words.
fn numbered(alloc: Global, words: &str, number: usize, end: &str) -> Result<String, Error>
    ensures ok { IfOk result (λ message. string_bytes message ≡ words.now ++ numeral 10 false number ++ end.now) }
    ensures memory { IfErr result (λ e. e ≡ Error.NoMemory) }
{
    let mut message = String::from_str(alloc, words)?;
    push_digits(&mut message, number as u128, Radix::Ten, false)?;
    message.push_str(end)?;
    Ok(message)
}

// The value at a position, if it is there.
fn value_in<'a, V: FormatValue>(input: &Input<'a, V>, position: usize) -> Option<&'a V>
    ensures { option_map V.meaning (option_copied result) ≡ slice_get (scene_of V.meaning input.now).values position }
{
    input.args.get(position)
}

// The value at a position, as a number.
fn count_at_position<V: FormatValue>(
    alloc: Global,
    input: &Input<'_, V>,
    position: usize,
) -> Result<usize, Error>
    ensures { Answers (λ a. a) (count_at_position (scene_of V.meaning input.now) position) result }
{
    match value_in(input, position) {
        Some(value) => number_of(alloc, "count argument ", value),
        None => {
            let message = numbered(alloc, "count argument index ", position, " out of range")?;
            Err(Error::Parse {
                span: NOWHERE,
                message,
            })
        }
    }
}

// The part of the source that a span covers.
fn covered<'a>(source: &'a str, span: &Span) -> &'a str
    requires { SpanFits source.now span.now }
    ensures { result.now ≡ covered source.now span.now }
{
    &source[span.start..span.end]
}

fn count_of<V: FormatValue>(
    alloc: Global,
    input: &Input<'_, V>,
    count: &Count,
) -> Result<usize, Error>
    requires { CountFits input.now.source.now count.now }
    ensures { Answers (λ a. a) (count_of (scene_of V.meaning input.now) count.now) result }
{
    match count {
        Count::Literal(number) => Ok(*number),
        Count::Param(CountParam::Positional(position)) => count_at_position(
            alloc, input, *position,
        ),
        Count::Param(CountParam::Named(span)) => {
            let name = covered(input.source, span);
            match input.names.position(name) {
                Some(position) => count_at_position(alloc, input, position),
                None => {
                    let message = quote(alloc, "missing count argument: ", name)?;
                    Err(Error::Parse {
                        span: *span,
                        message,
                    })
                }
            }
        }
    }
}

fn width_of<V: FormatValue>(
    alloc: Global,
    input: &Input<'_, V>,
    width: &Option<Count>,
) -> Result<Option<usize>, Error>
    requires { MatchOption width.now ⊤ (CountFits input.now.source.now) }
    ensures { Answers (λ a. a) (width_of (scene_of V.meaning input.now) width.now) result }
{
    match width {
        Some(count) => Ok(Some(count_of(alloc, input, count)?)),
        None => Ok(None),
    }
}

// The precision that the next implicit position holds.
fn star_precision<V: FormatValue>(
    alloc: Global,
    input: &Input<'_, V>,
    next: usize,
) -> Result<usize, Error>
    ensures { Answers (λ a. a) (number_at (scene_of V.meaning input.now) next (codes "not enough arguments for `.*` precision") (codes "`.*` precision argument ")) result }
{
    match value_in(input, next) {
        Some(value) => number_of(alloc, "`.*` precision argument ", value),
        None => {
            let message = String::from_str(alloc, "not enough arguments for `.*` precision")?;
            Err(Error::Parse {
                span: NOWHERE,
                message,
            })
        }
    }
}

fn precision_of<V: FormatValue>(
    alloc: Global,
    input: &Input<'_, V>,
    next: usize,
    precision: &Option<Precision>,
) -> Result<Option<usize>, Error>
    requires { MatchOption precision.now ⊤ (PrecisionFits input.now.source.now) }
    ensures { Answers (λ a. a) (precision_of (scene_of V.meaning input.now) next precision.now) result }
{
    match precision {
        Some(Precision::Count(count)) => Ok(Some(count_of(alloc, input, count)?)),
        Some(Precision::Star) => Ok(Some(star_precision(alloc, input, next)?)),
        None => Ok(None),
    }
}

// The position that an argument stands for.
fn position_at<V: FormatValue>(
    input: &Input<'_, V>,
    next: usize,
    argument: &Argument,
) -> Option<usize>
    requires { ArgumentFits input.now.source.now argument.now }
    ensures { result ≡ position_at (scene_of V.meaning input.now) next argument.now }
{
    match argument {
        Argument::Implicit => Some(next),
        Argument::Positional(position) => Some(*position),
        Argument::Named(span) => input.names.position(covered(input.source, span)),
    }
}

// The argument's value, if it is there.
fn value_at<'a, V: FormatValue>(
    input: &Input<'a, V>,
    next: usize,
    argument: &Argument,
) -> Option<&'a V>
    requires { ArgumentFits input.now.source.now argument.now }
    ensures { option_map V.meaning (option_copied result) ≡ value_at (scene_of V.meaning input.now) next argument.now }
{
    match position_at(input, next, argument) {
        Some(position) => value_in(input, position),
        None => None,
    }
}

// How a missing argument is named.
fn argument_name(
    alloc: Global,
    source: &str,
    next: usize,
    argument: &Argument,
) -> Result<String, Error>
    requires { ArgumentFits source.now argument.now }
    ensures ok { IfOk result (λ name. string_bytes name ≡ argument_name source.now next argument.now) }
    ensures memory { IfErr result (λ e. e ≡ Error.NoMemory) }
{
    match argument {
        Argument::Implicit => numbered(alloc, "", next, ""),
        Argument::Positional(position) => numbered(alloc, "", *position, ""),
        Argument::Named(span) => Ok(String::from_str(alloc, covered(source, span))?),
    }
}

// Only the four types of texts are carried.
fn supported(format_type: FormatType, span: Span) -> Result<FormatType, Error>
    ensures { Answers (λ a. a) (supported format_type span) result }
{
    match format_type {
        FormatType::Display
        | FormatType::Debug
        | FormatType::DebugLowerHex
        | FormatType::DebugUpperHex => Ok(format_type),
        _ => Err(Error::UnsupportedTrait { format_type, span }),
    }
}

// A field's sign, and what follows it.
#[derive(Clone, Copy)]
struct Body<'a> {
    sign: &'a str,
    rest: &'a str,
}

fn sign_text(sign: Option<Sign>) -> &'static str
    ensures { result.now ≡ sign_text sign }
{
    match sign {
        Some(Sign::Plus) => "+",
        Some(Sign::Minus) | None => "",
    }
}

fn number_body(sign: Option<Sign>, text: &str) -> Body<'_>
    ensures sign { result.sign.now ≡ (number_body sign text.now).sign }
    ensures rest { result.rest.now ≡ (number_body sign text.now).rest }
{
    match strip(text, b'-') {
        Some(rest) => Body { sign: "-", rest },
        None => Body {
            sign: sign_text(sign),
            rest: text,
        },
    }
}

fn cut(precision: Option<usize>, text: &str) -> &str
    ensures { result.now ≡ cut precision text.now }
{
    match precision {
        Some(count) => front(text, count),
        None => text,
    }
}

fn body_of<'a>(
    shape: &Shape,
    sign: Option<Sign>,
    precision: Option<usize>,
    text: &'a str,
) -> Body<'a>
    ensures sign { result.sign.now ≡ (body_of shape.now sign precision text.now).sign }
    ensures rest { result.rest.now ≡ (body_of shape.now sign precision text.now).rest }
{
    match shape {
        Shape::Integer => number_body(sign, text),
        Shape::Text => Body {
            sign: "",
            rest: cut(precision, text),
        },
        Shape::Raw => Body {
            sign: "",
            rest: text,
        },
    }
}

// How many fills stand on the left, how many zeros after the sign, and how many fills on the right.
#[derive(Clone, Copy)]
struct Padding {
    left: usize,
    zeros: usize,
    right: usize,
}

fn aligned(align: Option<Align>, gap: usize) -> Padding
    ensures { result ≡ aligned align gap }
{
    match align {
        Some(Align::Right) => Padding {
            left: gap,
            zeros: 0,
            right: 0,
        },
        Some(Align::Center) => Padding {
            left: gap / 2,
            zeros: 0,
            right: gap - gap / 2,
        },
        Some(Align::Left) | None => Padding {
            left: 0,
            zeros: 0,
            right: gap,
        },
    }
}

fn by_shape(shape: &Shape, zero_pad: bool, gap: usize) -> Padding
    ensures { result ≡ by_shape shape.now zero_pad gap }
{
    match shape {
        Shape::Integer => {
            if zero_pad {
                Padding {
                    left: 0,
                    zeros: gap,
                    right: 0,
                }
            } else {
                Padding {
                    left: gap,
                    zeros: 0,
                    right: 0,
                }
            }
        }
        Shape::Text => Padding {
            left: 0,
            zeros: 0,
            right: gap,
        },
        Shape::Raw => Padding {
            left: 0,
            zeros: 0,
            right: 0,
        },
    }
}

fn padding_of(spec: &FormatSpec, shape: &Shape, gap: usize) -> Padding
    ensures { result ≡ padding_of spec.now shape.now gap }
{
    if spec.fill.is_some() || spec.align.is_some() {
        aligned(spec.align, gap)
    } else {
        by_shape(shape, spec.zero_pad, gap)
    }
}

// How many characters a body lacks to the width.
fn gap_of(width: Option<usize>, body: &Body<'_>) -> usize
    ensures { result ≡ gap_of width (record { sign = body.now.sign.now; rest = body.now.rest.now }) }
{
    let count = body.sign.len() + count_chars(body.rest);
    width.unwrap_or(0).saturating_sub(count)
}

// Appends a text with its sign and its padding, cut to the precision.
fn push_shaped(
    output: &mut String,
    spec: &FormatSpec,
    shape: &Shape,
    width: Option<usize>,
    precision: Option<usize>,
    text: &str,
) -> Result<(), Error>
    ensures ok { OnOk result (string_bytes output.new ≡ string_bytes output.old ++ shaped spec.now shape.now width precision text.now) }
    ensures err { OnErr result (string_bytes output.new ≡ string_bytes output.old) }
    ensures memory { IfErr result (λ e. e ≡ Error.NoMemory) }
{
    let body = body_of(shape, spec.sign, precision, text);
    let gap = gap_of(width, &body);
    let padding = padding_of(spec, shape, gap);
    let field = Field {
        head: "",
        left: padding.left,
        lead: body.sign,
        zeros: padding.zeros,
        text: body.rest,
        right: padding.right,
        fill: spec.fill.unwrap_or(' '),
    };
    field.push(output)?;
    Ok(())
}

// Appends the text of a value under a type.
fn push_text<V: FormatValue>(
    out: &mut String,
    value: &V,
    format_type: FormatType,
) -> Result<(), Error>
    ensures ok { OnOk result (string_bytes out.new ≡ string_bytes out.old ++ (shown_by format_type (V.meaning value.now)).0) }
    ensures err { OnErr result (string_bytes out.new ≡ string_bytes out.old) }
    ensures memory { IfErr result (λ e. e ≡ Error.NoMemory) }
{
    match format_type {
        FormatType::Debug => value.debug(DebugStyle::Plain, out),
        FormatType::DebugLowerHex => value.debug(DebugStyle::LowerHex, out),
        FormatType::DebugUpperHex => value.debug(DebugStyle::UpperHex, out),
        _ => value.display(out),
    }
}

// The shape of that text.
fn shape_by<V: FormatValue>(value: &V, format_type: FormatType) -> Shape
    ensures { result ≡ (shown_by format_type (V.meaning value.now)).1 }
{
    match format_type {
        FormatType::Debug => value.debug_shape(),
        FormatType::DebugLowerHex | FormatType::DebugUpperHex => Shape::Raw,
        _ => value.display_shape(),
    }
}

// Appends a field; `scratch` is room for the value's own text. Without a sign, a width and a precision the text goes straight
// into the output.
fn push_field<V: FormatValue>(
    output: &mut String,
    scratch: &mut String,
    spec: &FormatSpec,
    value: &V,
    width: Option<usize>,
    precision: Option<usize>,
) -> Result<(), Error>
    ensures ok { OnOk result (string_bytes output.new ≡ string_bytes output.old ++ field_text spec.now (V.meaning value.now) width precision) }
    ensures err { OnErr result (string_bytes output.new ≡ string_bytes output.old) }
    ensures memory { IfErr result (λ e. e ≡ Error.NoMemory) }
{
    if spec.sign.is_none() && width.is_none() && precision.is_none() {
        return push_text(output, value, spec.format_type);
    }
    scratch.clear();
    push_text(scratch, value, spec.format_type)?;
    let shape = shape_by(value, spec.format_type);
    push_shaped(output, spec, &shape, width, precision, scratch.as_str())
}

// Appends a placeholder whose value is there.
fn push_present<V: FormatValue>(
    alloc: Global,
    output: &mut String,
    scratch: &mut String,
    input: &Input<'_, V>,
    placeholder: &Placeholder,
    precision: Option<usize>,
    value: &V,
) -> Result<(), Error>
    requires { SegmentFits input.now.source.now (Segment.Placeholder placeholder.now) }
    ensures ok { OnOk result (Appends (present_text (scene_of V.meaning input.now) placeholder.now precision (V.meaning value.now)) (string_bytes output.old) (string_bytes output.new)) }
    ensures err { IfErr result (λ e. Tells e (λ fault. present_text (scene_of V.meaning input.now) placeholder.now precision (V.meaning value.now) ≡ Err fault)) }
    ensures unchanged { OnErr result (string_bytes output.new ≡ string_bytes output.old) }
{
    let width = width_of(alloc, input, &placeholder.spec.width)?;
    let _format_type = supported(placeholder.spec.format_type, placeholder.span)?;
    push_field(output, scratch, &placeholder.spec, value, width, precision)
}

fn precision_takes(precision: &Option<Precision>) -> usize
    ensures takes { result ≡ precision_takes precision.now }
    ensures small { result ≤ 1 }
{
    match precision {
        Some(Precision::Star) => 1,
        Some(Precision::Count(_)) | None => 0,
    }
}

fn argument_takes(argument: &Argument) -> usize
    ensures takes { result ≡ argument_takes argument.now }
    ensures small { result ≤ 1 }
{
    match argument {
        Argument::Implicit => 1,
        Argument::Positional(_) | Argument::Named(_) => 0,
    }
}

fn segment_takes(segment: &Segment) -> usize
    ensures takes { result ≡ segment_takes segment.now }
    ensures small { result ≤ 2 }
{
    match segment {
        Segment::Placeholder(placeholder) => {
            precision_takes(&placeholder.spec.precision) + argument_takes(&placeholder.argument)
        }
        Segment::Literal(_) | Segment::EscapedOpen | Segment::EscapedClose => 0,
    }
}

// Answers for a placeholder whose value is missing: a fault where the call is strict, and else nothing.
fn refuse_missing<V: FormatValue>(
    alloc: Global,
    input: &Input<'_, V>,
    next: usize,
    placeholder: &Placeholder,
) -> Result<(), Error>
    requires { SegmentFits input.now.source.now (Segment.Placeholder placeholder.now) }
    ensures ok { OnOk result (IsFalse input.now.strict) }
    ensures err { IfErr result (λ e. Tells e (λ fault. argument_text (scene_of V.meaning input.now) next placeholder.now None None ≡ Err fault)) }
{
    if !input.strict {
        return Ok(());
    }
    let name = argument_name(alloc, input.source, next, &placeholder.argument)?;
    Err(Error::MissingArgument {
        name,
        span: placeholder.span,
    })
}

// Appends a placeholder: precision, argument, width, type, text, in this order.
fn push_placeholder<V: FormatValue>(
    alloc: Global,
    output: &mut String,
    scratch: &mut String,
    input: &Input<'_, V>,
    next: usize,
    placeholder: &Placeholder,
) -> Result<(), Error>
    requires fits { SegmentFits input.now.source.now (Segment.Placeholder placeholder.now) }
    requires room { next + 1 < 2 ^ 64 }
    ensures ok { OnOk result (Appends (placeholder_text (scene_of V.meaning input.now) next placeholder.now) (string_bytes output.old) (string_bytes output.new)) }
    ensures err { IfErr result (λ e. Tells e (λ fault. placeholder_text (scene_of V.meaning input.now) next placeholder.now ≡ Err fault)) }
    ensures unchanged { OnErr result (string_bytes output.new ≡ string_bytes output.old) }
{
    let precision = precision_of(alloc, input, next, &placeholder.spec.precision)?;
    let own = next + precision_takes(&placeholder.spec.precision);
    match value_at(input, own, &placeholder.argument) {
        Some(value) => push_present(alloc, output, scratch, input, placeholder, precision, value),
        None => refuse_missing(alloc, input, own, placeholder),
    }
}

// Appends one segment, or leaves the output as it was.
fn push_segment<V: FormatValue>(
    alloc: Global,
    output: &mut String,
    scratch: &mut String,
    input: &Input<'_, V>,
    next: usize,
    segment: &Segment,
) -> Result<(), Error>
    requires fits { SegmentFits input.now.source.now segment.now }
    requires room { next + 1 < 2 ^ 64 }
    ensures ok { OnOk result (Appends (segment_text (scene_of V.meaning input.now) next segment.now) (string_bytes output.old) (string_bytes output.new)) }
    ensures err { IfErr result (λ e. Tells e (λ fault. segment_text (scene_of V.meaning input.now) next segment.now ≡ Err fault)) }
    ensures unchanged { OnErr result (string_bytes output.new ≡ string_bytes output.old) }
{
    match segment {
        Segment::Literal(span) => Ok(output.push_str(covered(input.source, span))?),
        Segment::EscapedOpen => Ok(output.push('{')?),
        Segment::EscapedClose => Ok(output.push('}')?),
        Segment::Placeholder(placeholder) => {
            push_placeholder(alloc, output, scratch, input, next, placeholder)
        }
    }
}

/// Appends what a parsed template prints over values: `args` by position, and `names` for the names of some positions.
/// Where `strict` isn't set, a placeholder whose value is missing prints nothing.
pub fn render<V: FormatValue>(
    alloc: Global,
    output: &mut String,
    source: &str,
    parsed: &FormatString,
    args: &[V],
    names: &Names,
    strict: bool,
) -> Result<(), Error>
    requires { Fits source.now parsed.now.segments.items }
    ensures ok { let all = rendered (scene_over V.meaning source.now args.now names.now strict) 0 parsed.now.segments.items in
        OnOk result (Appends (whole all) (string_bytes output.old) (string_bytes output.new)) }
    ensures err { let all = rendered (scene_over V.meaning source.now args.now names.now strict) 0 parsed.now.segments.items in
        IfErr result (λ e. Tells e (λ fault. all.fault ≡ Some fault)) }

    // After a refusal stands the text before the fault, or without memory a front of the text.
    ensures stands { let all = rendered (scene_over V.meaning source.now args.now names.now strict) 0 parsed.now.segments.items in
        IfErr result (λ e. Holds e (string_bytes output.old) (string_bytes output.new) all.text) }
{
    let input = Input {
        source,
        args,
        names,
        strict,
    };
    let mut scratch = String::new(alloc);
    let mut next = 0;
    'segments: for segment in &parsed.segments {
        push_segment(alloc, output, &mut scratch, &input, next, segment)?;
        next += segment_takes(segment);
    }
    Ok(())
}
