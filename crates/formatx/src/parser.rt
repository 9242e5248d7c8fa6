// Reads a template: one function for each part of the grammar, which answers the part in front of a text and what follows it.
ghost use Rattle.std.specs.Prelude.{◌≡◌, ◌<◌, ◌≤◌, false, true, drop, if◌then◌else◌, IfErr, IfNone, IfOk, IfSome, IsTrue, Ok, Some, is_some, length, slice_index, string_bytes, codes, encode_utf8, MatchOption, ⊤};
ghost use Rattle.std.specs.Char.{is_ascii_digit, len_utf8};
ghost use Rattle.std.specs.List.{prefix_len, take_while};
ghost use Rattle.std.specs.Str.{IsCharBoundary, byte};
ghost use Rattle.formatx.specs.Fault.{Tells, between, quoting, unreadable};
ghost use Rattle.formatx.specs.Words.{after, begins, is_plain, is_word, is_word_start, usize_of};
ghost use Rattle.formatx.specs.Options.{align_by, count_of, fill_align_of, first_char, follows_zero, number_in, precision_of, sign_of, type_by, type_of, zero_of};
ghost use Rattle.formatx.specs.Placeholders.{argument_of, follows_argument, options_of, placeholder_of, spec_of};
ghost use Rattle.formatx.specs.Grammar.{BeginsWithFault, HasFault, IsSegment, IsTemplate, Spells};
ghost use Rattle.formatx.specs.Spans.{ArgumentFits, Fits, SegmentFits, SpanFits, Tiles};
ghost use Rattle.formatx.specs.Inner.Answers.{Answers};
ghost use Rattle.formatx.specs.Inner.Ends.{IsEnd};
ghost use Rattle.formatx.specs.Inner.Parts.{CountFits, PrecisionFits, SpecFits, hex_of, number_count_of};

use crate::ast::{
    Align, Argument, Count, CountParam, FormatSpec, FormatString, FormatType, Placeholder,
    Precision, Segment, Sign, Span,
};
use crate::error::Error;
use std::alloc::Global;

// The first byte, or 0 at the end: no part of the grammar holds a 0.
fn first_byte(text: &str) -> u8
    ensures value { result ≡ slice_index text.now 0 }
    ensures inside { 0 < result → 0 < length text.now }
{
    match text.as_bytes().first() {
        Some(byte) => *byte,
        None => 0,
    }
}

/// Whether a text begins with this byte, which isn't 0.
fn begins(text: &str, byte: u8) -> bool
    ensures { result ≡ begins text.now byte }
{
    first_byte(text) == byte
}

// What follows the first byte, which is ASCII and isn't 0.
fn skip_byte(text: &str) -> &str
    requires visible { 0 < slice_index text.now 0 }
    requires ascii { slice_index text.now 0 < 128 }
    ensures rest { result.now ≡ drop 1 text.now }
    ensures leaves { IsEnd text.now result.now }
{
    &text[1..]
}

/// What follows this byte, which is ASCII and isn't 0, where a text begins with it.
pub(crate) fn strip(text: &str, byte: u8) -> Option<&str>
    requires visible { 0 < byte }
    requires ascii { byte < 128 }
    ensures none { IfNone result (begins text.now byte ≡ false) }
    ensures some { IfSome result (λ rest. begins text.now byte ≡ true) }
    ensures rest { IfSome result (λ rest. rest.now ≡ drop 1 text.now) }
    ensures leaves { IfSome result (λ rest. IsEnd text.now rest.now) }
{
    if first_byte(text) == byte {
        Some(skip_byte(text))
    } else {
        None
    }
}

// How many digits stand in front.
fn digits_len(text: &str) -> usize
    ensures len { result ≡ prefix_len is_ascii_digit text.now }
    ensures boundary { IsCharBoundary text.now result }
{
    let bytes = text.as_bytes();
    bytes
        .iter()
        .position(|byte| !byte.is_ascii_digit())
        .unwrap_or(bytes.len())
}

// The digits in front, and what follows them.
fn split_digits(text: &str) -> (&str, &str)
    ensures digits { result.0.now ≡ take_while is_ascii_digit text.now }
    ensures rest { result.1.now ≡ after is_ascii_digit text.now }
    ensures leaves { IsEnd text.now result.1.now }
{
    text.split_at(digits_len(text))
}

fn is_word(byte: u8) -> bool
    ensures { result ≡ is_word byte }
{
    byte.is_ascii_alphanumeric() || byte == b'_'
}

fn is_word_start(byte: u8) -> bool
    ensures { result ≡ is_word_start byte }
{
    byte.is_ascii_alphabetic() || byte == b'_'
}

// How many letters, digits and `_` stand in front.
fn word_len(text: &str) -> usize
    ensures len { result ≡ prefix_len is_word text.now }
    ensures boundary { IsCharBoundary text.now result }
{
    let bytes = text.as_bytes();
    bytes
        .iter()
        .position(|byte| !is_word(*byte))
        .unwrap_or(bytes.len())
}

// What follows the letters, digits and `_` in front.
fn skip_word(text: &str) -> &str
    ensures rest { result.now ≡ after is_word text.now }
    ensures leaves { IsEnd text.now result.now }
{
    &text[word_len(text)..]
}

fn is_plain(byte: u8) -> bool
    ensures { result ≡ is_plain byte }
{
    !(byte == b'{' || byte == b'}')
}

// How many bytes without braces stand in front.
fn plain_len(text: &str) -> usize
    ensures len { result ≡ prefix_len is_plain text.now }
    ensures boundary { IsCharBoundary text.now result }
{
    let bytes = text.as_bytes();
    bytes
        .iter()
        .position(|byte| !is_plain(*byte))
        .unwrap_or(bytes.len())
}

// What follows the run without braces in front.
fn skip_plain(text: &str) -> &str
    ensures rest { result.now ≡ after is_plain text.now }
    ensures leaves { IsEnd text.now result.now }
    ensures shorter { 0 < length text.now → IsTrue (is_plain (slice_index text.now 0)) → length result.now < length text.now }
{
    &text[plain_len(text)..]
}

// The first character, and what follows it.
fn split_char(text: &str) -> Option<(char, &str)>
    ensures none { IfNone result (length text.now ≡ 0) }
    ensures some { IfSome result (λ p. 0 < length text.now) }
    ensures first { IfSome result (λ p. p.0 ≡ first_char text.now) }
    ensures rest { IfSome result (λ p. p.1.now ≡ drop (len_utf8 p.0) text.now) }
    ensures leaves { IfSome result (λ p. IsEnd text.now p.1.now) }
{
    let mut rest = text.chars();
    let first = rest.next()?;
    Some((first, rest.as_str()))
}

/// The number that a text writes: an optional `+` and digits, below 2^64.
pub(crate) fn usize_of(text: &str) -> Option<usize>
    ensures { result ≡ usize_of text.now }
{
    text.parse::<usize>().ok()
}

// The bytes of a source from where one text that it ends with begins, up to where another does.
fn span_between(source: &str, from: &str, to: &str) -> Span
    requires from { IsEnd source.now from.now }
    requires to { IsEnd from.now to.now }
    ensures span { result ≡ between (length source.now) from.now to.now }
    ensures fits { SpanFits source.now result }
{
    Span {
        start: source.len() - from.len(),
        end: source.len() - to.len(),
    }
}

// The first byte of a text that the source ends with.
fn first_byte_span(source: &str, text: &str) -> Span
    requires end { IsEnd source.now text.now }
    requires some { 0 < length text.now }
    ensures { result ≡ between (length source.now) text.now (drop 1 text.now) }
{
    let start = source.len() - text.len();
    Span {
        start,
        end: start + 1,
    }
}

// The error about a span with these words as its message.
fn refusal(alloc: Global, span: Span, words: &str) -> Error
    ensures { Tells result (λ fault. fault ≡ unreadable span words.now) }
{
    match String::from_str(alloc, words) {
        Ok(message) => Error::Parse { span, message },
        Err(_) => Error::NoMemory,
    }
}

/// Words, and a text between backquotes.
pub(crate) fn quote(alloc: Global, words: &str, text: &str) -> Result<String, Error>
    ensures ok { IfOk result (λ message. string_bytes message ≡ quoting words.now text.now) }
    ensures memory { IfErr result (λ e. e ≡ Error.NoMemory) }
{
    let mut message = String::from_str(alloc, words)?;
    message.push_str("`")?;
    message.push_str(text)?;
    message.push_str("`")?;
    Ok(message)
}

// The error about a span with words and a text as its message.
fn refusal_of(alloc: Global, span: Span, words: &str, text: &str) -> Error
    ensures { Tells result (λ fault. fault ≡ unreadable span (quoting words.now text.now)) }
{
    match quote(alloc, words, text) {
        Ok(message) => Error::Parse { span, message },
        Err(_) => Error::NoMemory,
    }
}

// An alignment, and what follows it.
fn split_align(text: &str) -> Option<(Align, &str)>
    ensures none { IfNone result (align_by (slice_index text.now 0) ≡ None) }
    ensures some { IfSome result (λ p. align_by (slice_index text.now 0) ≡ Some p.0) }
    ensures rest { IfSome result (λ p. p.1.now ≡ drop 1 text.now) }
    ensures leaves { IfSome result (λ p. IsEnd text.now p.1.now) }
{
    match first_byte(text) {
        b'<' => Some((Align::Left, skip_byte(text))),
        b'^' => Some((Align::Center, skip_byte(text))),
        b'>' => Some((Align::Right, skip_byte(text))),
        _ => None,
    }
}

fn fill_align(text: &str) -> (Option<char>, Option<Align>, &str)
    ensures value { fill_align_of text.now ≡ (result.0, result.1, result.2.now) }
    ensures leaves { IsEnd text.now result.2.now }
{
    if begins(text, b'}') {
        return (None, None, text);
    }
    let Some((fill, rest)) = split_char(text) else {
        return (None, None, text);
    };
    if let Some((align, rest)) = split_align(rest) {
        return (Some(fill), Some(align), rest);
    }
    match split_align(text) {
        Some((align, rest)) => (None, Some(align), rest),
        None => (None, None, text),
    }
}

fn sign(text: &str) -> (Option<Sign>, &str)
    ensures value { sign_of text.now ≡ (result.0, result.1.now) }
    ensures leaves { IsEnd text.now result.1.now }
{
    match first_byte(text) {
        b'+' => (Some(Sign::Plus), skip_byte(text)),
        b'-' => (Some(Sign::Minus), skip_byte(text)),
        _ => (None, text),
    }
}

fn alternate(text: &str) -> (bool, &str)
    ensures hash { result.0 ≡ begins text.now (byte "#") }
    ensures rest { result.1.now ≡ (if begins text.now (byte "#") then drop 1 text.now else text.now) }
    ensures leaves { IsEnd text.now result.1.now }
{
    match strip(text, b'#') {
        Some(rest) => (true, rest),
        None => (false, text),
    }
}

fn is_type_start(byte: u8) -> bool
    ensures { result ≡ is_some (type_by byte) }
{
    matches!(byte, b'?' | b'o' | b'x' | b'X' | b'b' | b'e' | b'E' | b'p')
}

// Whether what follows a `0` makes it the zero flag.
fn follows_zero(text: &str) -> bool
    ensures { result ≡ follows_zero text.now }
{
    let byte = first_byte(text);
    text.is_empty() || byte.is_ascii_digit() || byte == b'}' || byte == b'.' || is_type_start(byte)
}

fn zero(text: &str) -> (bool, &str)
    ensures value { zero_of text.now ≡ (result.0, result.1.now) }
    ensures leaves { IsEnd text.now result.1.now }
{
    if let Some(rest) = strip(text, b'0') {
        if follows_zero(rest) {
            return (true, rest);
        }
    }
    (false, text)
}

// The number that the digits in front write.
fn number(alloc: Global, source: &str, text: &str, words: &str) -> Result<usize, Error>
    requires { IsEnd source.now text.now }
    ensures { Answers (λ n. n) (number_in (length source.now) text.now words.now) result }
{
    let (digits, rest) = split_digits(text);
    match usize_of(digits) {
        Some(number) => Ok(number),
        None => Err(refusal_of(alloc, span_between(source, text, rest), words, digits)),
    }
}

// Digits as a count, or as the position of one.
fn number_count<'t>(
    alloc: Global,
    source: &str,
    text: &'t str,
) -> Result<(Option<Count>, &'t str), Error>
    requires { IsEnd source.now text.now }
    ensures value { Answers (λ r. (r.0, r.1.now)) (number_count_of (length source.now) text.now) result }
    ensures leaves { IfOk result (λ r. IsEnd text.now r.1.now) }
    ensures fits { IfOk result (λ r. MatchOption r.0 ⊤ (CountFits source.now)) }
{
    let (_, rest) = split_digits(text);
    match strip(rest, b'$') {
        Some(rest) => {
            let position = number(alloc, source, text, "invalid count parameter: ")?;
            Ok((Some(Count::Param(CountParam::Positional(position))), rest))
        }
        None => {
            let number = number(alloc, source, text, "invalid count: ")?;
            Ok((Some(Count::Literal(number)), rest))
        }
    }
}

#[tactic(auto, unfolding(crate::specs::Options::count_of))]
fn count<'t>(alloc: Global, source: &str, text: &'t str) -> Result<(Option<Count>, &'t str), Error>
    requires { IsEnd source.now text.now }
    ensures value { Answers (λ r. (r.0, r.1.now)) (count_of (length source.now) text.now) result }
    ensures leaves { IfOk result (λ r. IsEnd text.now r.1.now) }
    ensures fits { IfOk result (λ r. MatchOption r.0 ⊤ (CountFits source.now)) }
{
    let first = first_byte(text);
    if first.is_ascii_digit() {
        return number_count(alloc, source, text);
    }
    if !is_word_start(first) {
        return Ok((None, text));
    }
    let word_end = skip_word(text);
    match strip(word_end, b'$') {
        Some(rest) => {
            let name = span_between(source, text, word_end);
            Ok((Some(Count::Param(CountParam::Named(name))), rest))
        }
        None => Ok((None, text)),
    }
}

#[tactic(auto, unfolding(crate::specs::Options::precision_of))]
fn precision<'t>(
    alloc: Global,
    source: &str,
    text: &'t str,
) -> Result<(Option<Precision>, &'t str), Error>
    requires { IsEnd source.now text.now }
    ensures value { Answers (λ r. (r.0, r.1.now)) (precision_of (length source.now) text.now) result }
    ensures leaves { IfOk result (λ r. IsEnd text.now r.1.now) }
    ensures fits { IfOk result (λ r. MatchOption r.0 ⊤ (PrecisionFits source.now)) }
{
    let Some(rest) = strip(text, b'.') else {
        return Ok((None, text));
    };
    let dot = span_between(source, text, rest);
    if rest.is_empty() {
        return Err(refusal(alloc, dot, "expected precision after `.`"));
    }
    if let Some(rest) = strip(rest, b'*') {
        return Ok((Some(Precision::Star), rest));
    }
    let (count, rest) = count(alloc, source, rest)?;
    match count {
        Some(count) => Ok((Some(Precision::Count(count)), rest)),
        None => Err(refusal(alloc, dot, "expected precision value after `.`")),
    }
}

// The hexadecimal type that the first byte begins, or with `?` after it a debug type.
fn hex(text: &str, hex: FormatType, debug: FormatType) -> (FormatType, &str)
    requires visible { 0 < slice_index text.now 0 }
    requires ascii { slice_index text.now 0 < 128 }
    ensures value { hex_of (drop 1 text.now) hex debug ≡ (result.0, result.1.now) }
    ensures leaves { IsEnd text.now result.1.now }
{
    let rest = skip_byte(text);
    match strip(rest, b'?') {
        Some(rest) => (debug, rest),
        None => (hex, rest),
    }
}

// The error about a byte that begins no type.
fn unknown_type(alloc: Global, span: Span, byte: u8) -> Error
    ensures { Tells result (λ fault. fault ≡ unreadable span (quoting (codes "unknown format type: ") (encode_utf8 byte))) }
{
    let mut bytes = [0u8; 4];
    let character = char::from(byte).encode_utf8(&mut bytes);
    refusal_of(alloc, span, "unknown format type: ", character)
}

#[tactic(auto, unfolding(crate::specs::Options::type_of))]
fn format_type<'t>(
    alloc: Global,
    source: &str,
    text: &'t str,
) -> Result<(FormatType, &'t str), Error>
    requires { IsEnd source.now text.now }
    ensures value { Answers (λ r. (r.0, r.1.now)) (type_of (length source.now) text.now) result }
    ensures leaves { IfOk result (λ r. IsEnd text.now r.1.now) }
{
    if text.is_empty() {
        return Ok((FormatType::Display, text));
    }
    match first_byte(text) {
        b'}' => Ok((FormatType::Display, text)),
        b'?' => Ok((FormatType::Debug, skip_byte(text))),
        b'x' => Ok(hex(text, FormatType::LowerHex, FormatType::DebugLowerHex)),
        b'X' => Ok(hex(text, FormatType::UpperHex, FormatType::DebugUpperHex)),
        b'o' => Ok((FormatType::Octal, skip_byte(text))),
        b'b' => Ok((FormatType::Binary, skip_byte(text))),
        b'e' => Ok((FormatType::LowerExp, skip_byte(text))),
        b'E' => Ok((FormatType::UpperExp, skip_byte(text))),
        b'p' => Ok((FormatType::Pointer, skip_byte(text))),
        byte => Err(unknown_type(alloc, first_byte_span(source, text), byte)),
    }
}

// Whether `}` or `:` stands in front.
fn follows_argument(text: &str) -> bool
    ensures value { result ≡ follows_argument text.now }
{
    begins(text, b'}') || begins(text, b':')
}

#[tactic(auto, unfolding(crate::specs::Placeholders::argument_of))]
fn argument<'t>(alloc: Global, source: &str, text: &'t str) -> Result<(Argument, &'t str), Error>
    requires { IsEnd source.now text.now }
    ensures value { Answers (λ r. (r.0, r.1.now)) (argument_of (length source.now) text.now) result }
    ensures leaves { IfOk result (λ r. IsEnd text.now r.1.now) }
    ensures fits { IfOk result (λ r. ArgumentFits source.now r.0) }
{
    if text.is_empty() {
        let span = span_between(source, text, text);
        return Err(refusal(alloc, span, "unexpected end of format string"));
    }
    if follows_argument(text) {
        return Ok((Argument::Implicit, text));
    }
    let first = first_byte(text);
    let (_, digits_end) = split_digits(text);
    if first.is_ascii_digit() && follows_argument(digits_end) {
        let position = number(alloc, source, text, "invalid positional argument: ")?;
        return Ok((Argument::Positional(position), digits_end));
    }
    let word_end = skip_word(text);
    if is_word_start(first) && follows_argument(word_end) {
        let name = span_between(source, text, word_end);
        return Ok((Argument::Named(name), word_end));
    }
    let span = first_byte_span(source, text);
    Err(refusal(alloc, span, "invalid placeholder argument"))
}

#[tactic(auto, unfolding(crate::specs::Placeholders::options_of))]
fn options<'t>(alloc: Global, source: &str, text: &'t str) -> Result<(FormatSpec, &'t str), Error>
    requires { IsEnd source.now text.now }
    ensures value { Answers (λ r. (r.0, r.1.now)) (options_of (length source.now) text.now) result }
    ensures leaves { IfOk result (λ r. IsEnd text.now r.1.now) }
    ensures fits { IfOk result (λ r. SpecFits source.now r.0) }
{
    let (fill, align, text) = fill_align(text);
    let (sign, text) = sign(text);
    let (alternate, text) = alternate(text);
    let (zero_pad, text) = zero(text);
    let (width, text) = count(alloc, source, text)?;
    let (precision, text) = precision(alloc, source, text)?;
    let (format_type, text) = format_type(alloc, source, text)?;
    let spec = FormatSpec {
        fill,
        align,
        sign,
        alternate,
        zero_pad,
        width,
        precision,
        format_type,
    };
    Ok((spec, text))
}

#[tactic(auto, unfolding(crate::specs::Placeholders::spec_of))]
fn spec<'t>(alloc: Global, source: &str, text: &'t str) -> Result<(FormatSpec, &'t str), Error>
    requires { IsEnd source.now text.now }
    ensures value { Answers (λ r. (r.0, r.1.now)) (spec_of (length source.now) text.now) result }
    ensures leaves { IfOk result (λ r. IsEnd text.now r.1.now) }
    ensures fits { IfOk result (λ r. SpecFits source.now r.0) }
{
    match strip(text, b':') {
        Some(rest) => {
            let (spec, rest) = options(alloc, source, rest)?;
            Ok((spec, rest))
        }
        None => Ok((FormatSpec::default(), text)),
    }
}

// The placeholder whose `{` stands in front.
#[tactic(auto, unfolding(crate::specs::Placeholders::placeholder_of))]
fn placeholder<'t>(
    alloc: Global,
    source: &str,
    text: &'t str,
) -> Result<(Placeholder, &'t str), Error>
    requires end { IsEnd source.now text.now }
    requires open { slice_index text.now 0 ≡ 123 }
    ensures value { Answers (λ r. (r.0, r.1.now)) (placeholder_of (length source.now) text.now) result }
    ensures leaves { IfOk result (λ r. IsEnd text.now r.1.now) }
    ensures shorter { IfOk result (λ r. length r.1.now < length text.now) }
    ensures fits { IfOk result (λ r. SegmentFits source.now (Segment.Placeholder r.0)) }
{
    let (argument, rest) = argument(alloc, source, skip_byte(text))?;
    let (spec, rest) = spec(alloc, source, rest)?;
    match strip(rest, b'}') {
        Some(rest) => {
            let span = span_between(source, text, rest);
            let placeholder = Placeholder {
                argument,
                spec,
                span,
            };
            Ok((placeholder, rest))
        }
        None => {
            let span = span_between(source, text, rest);
            Err(refusal(alloc, span, "unmatched `{`"))
        }
    }
}

// The segment whose `{` stands in front.
fn open<'t>(alloc: Global, source: &str, text: &'t str) -> Result<(Segment, &'t str), Error>
    requires end { IsEnd source.now text.now }
    requires open { slice_index text.now 0 ≡ 123 }
    ensures ok { IfOk result (λ r. IsSegment (length source.now) r.0 text.now r.1.now) }
    ensures err { IfErr result (λ e. Tells e (BeginsWithFault (length source.now) text.now)) }
    ensures leaves { IfOk result (λ r. IsEnd text.now r.1.now) }
    ensures shorter { IfOk result (λ r. length r.1.now < length text.now) }
    ensures fits { IfOk result (λ r. SegmentFits source.now r.0) }
{
    match strip(skip_byte(text), b'{') {
        Some(rest) => Ok((Segment::EscapedOpen, rest)),
        None => {
            let (placeholder, rest) = placeholder(alloc, source, text)?;
            Ok((Segment::Placeholder(placeholder), rest))
        }
    }
}

// The segment whose `}` stands in front.
fn close<'t>(alloc: Global, source: &str, text: &'t str) -> Result<(Segment, &'t str), Error>
    requires end { IsEnd source.now text.now }
    requires close { slice_index text.now 0 ≡ 125 }
    ensures ok { IfOk result (λ r. IsSegment (length source.now) r.0 text.now r.1.now) }
    ensures err { IfErr result (λ e. Tells e (BeginsWithFault (length source.now) text.now)) }
    ensures leaves { IfOk result (λ r. IsEnd text.now r.1.now) }
    ensures shorter { IfOk result (λ r. length r.1.now < length text.now) }
    ensures fits { IfOk result (λ r. SegmentFits source.now r.0) }
{
    let rest = skip_byte(text);
    match strip(rest, b'}') {
        Some(rest) => Ok((Segment::EscapedClose, rest)),
        None => {
            let span = span_between(source, text, rest);
            Err(refusal(alloc, span, "unmatched `}`"))
        }
    }
}

// The segment in front, and what follows it.
fn segment<'t>(alloc: Global, source: &str, text: &'t str) -> Result<(Segment, &'t str), Error>
    requires end { IsEnd source.now text.now }
    requires some { 0 < length text.now }
    ensures ok { IfOk result (λ r. IsSegment (length source.now) r.0 text.now r.1.now) }
    ensures err { IfErr result (λ e. Tells e (BeginsWithFault (length source.now) text.now)) }
    ensures leaves { IfOk result (λ r. IsEnd text.now r.1.now) }
    ensures shorter { IfOk result (λ r. length r.1.now < length text.now) }
    ensures fits { IfOk result (λ r. SegmentFits source.now r.0) }
{
    match first_byte(text) {
        b'{' => open(alloc, source, text),
        b'}' => close(alloc, source, text),
        _ => {
            let rest = skip_plain(text);
            Ok((Segment::Literal(span_between(source, text, rest)), rest))
        }
    }
}

/// Reads a template into its segments. Outside the grammar it answers `Error::Parse`, with the first place that can't be
/// read and a message about it.
pub fn parse(alloc: Global, source: &str) -> Result<FormatString, Error>
    ensures ok { IfOk result (λ p. Spells source.now p.segments.items) }
    ensures err { IfErr result (λ e. Tells e (HasFault source.now)) }
    ensures outside { IfErr result (λ e. Tells e (λ _. IsTemplate source.now → ⊥)) }

    // Each span lies between characters, and the segments stand end to end.
    ensures fits { IfOk result (λ p. Fits source.now p.segments.items) }
    ensures tiles { IfOk result (λ p. Tiles (length source.now) 0 p.segments.items) }
{
    let mut segments = Vec::new(alloc);
    let mut rest = source;
    'segments: while !rest.is_empty() {
        let (segment, after) = segment(alloc, source, rest)?;
        if segments.push(segment).is_err() {
            return Err(Error::NoMemory);
        }
        rest = after;
    }
    Ok(FormatString { segments })
}
