// Templates of strfmt as layouts.
ghost use Rattle.std.specs.Prelude.{◌≡◌, ◌<◌, ◌≤◌, ◌∷◌, false, IfOk, IfSome, IsTrue, drop, length, take};
ghost use Rattle.std.specs.Str.{byte};
ghost use Rattle.strfmt.specs.Inner.Cutting.{IsPlainFront};
ghost use Rattle.printer.specs.declared.dialect.Dialect.TheVariants as Of;
ghost use Rattle.pieces.specs.Inner.Strfmt.{BeginsWithKey, HasNoMark, Moves};
ghost use Rattle.pieces.specs.Inner.Sound.{StandsFor};

use crate::layout::{Layout, form_at};
use numerals::NoMemory;
use printer::PositionNames;
use std::alloc::Global;
use values::Kind;

/// Whether a brace or a colon is in the text.
fn has_mark(text: &[u8]) -> bool
    ensures { (result ≡ false) → HasNoMark text.now }
{
    'bytes: for byte in text {
        if matches!(*byte, b'{' | b'}' | b':') {
            return true;
        }
    }
    false
}

/// Where the first brace stands, or the length.
fn find_brace(text: &[u8]) -> usize
    ensures front { IsPlainFront text.now (take result text.now) (drop result text.now) }
    ensures within { result ≤ length text.now }
{
    let mut rest = text;
    let mut found = 0;
    'bytes: while let Some((first, tail)) = rest.split_first() {
        if *first == b'{' || *first == b'}' {
            break;
        }
        found += 1;
        rest = tail;
    }
    found
}

/// The longest front without braces, and the rest.
fn split_plain(text: &str) -> (&str, &str)
    ensures { IsPlainFront text.now result.0.now result.1.now }
{
    text.split_at(find_brace(text.as_bytes()))
}

/// Takes a front without braces in, and gives the text behind it; None where there is none.
fn push_plain<'t>(
    layout: &mut Layout,
    text: &'t str,
    names: &PositionNames,
    kinds: &[Kind],
) -> Result<Option<&'t str>, NoMemory>
    ensures moves { IfOk result (λ found. IfSome found (λ rest. Moves names.now kinds.now layout.old text.entry.now layout.new rest.now)) }
    ensures shorter { IfOk result (λ found. IfSome found (λ rest. length rest.now < length text.entry.now)) }
{
    let (plain, rest) = split_plain(text);
    if plain.is_empty() {
        return Ok(None);
    }
    layout.push_text(plain)?;
    Ok(Some(rest))
}

/// The position of the key in a pattern, of which `text` stands behind its opening brace, and what stands behind the pattern; None
/// where the pattern isn't a key alone.
fn split_key<'t>(names: &PositionNames, text: &'t str) -> Option<(usize, &'t str)>
    ensures { IfSome result (λ found. BeginsWithKey names.now found.0 text.entry.now found.1.now) }
{
    let (key, rest) = text.split_once('}')?;
    if key.is_empty() || has_mark(key.as_bytes()) {
        return None;
    }
    let place = names.place_at_key(key)?;
    Some((place, rest))
}

/// Takes a pattern in, of which `text` stands behind its opening brace, and gives the text behind it; None where the
/// pattern isn't a key alone.
fn push_pattern<'t>(
    alloc: Global,
    layout: &mut Layout,
    text: &'t str,
    names: &PositionNames,
    kinds: &[Kind],
) -> Result<Option<&'t str>, NoMemory>
    ensures moves { IfOk result (λ found. IfSome found (λ rest. Moves names.now kinds.now layout.old (byte "{" ∷ text.entry.now) layout.new rest.now)) }
    ensures shorter { IfOk result (λ found. IfSome found (λ rest. length rest.now < length text.entry.now)) }
{
    let Some((place, rest)) = split_key(names, text) else {
        return Ok(None);
    };
    let Some(form) = form_at(kinds, place) else {
        return Ok(None);
    };
    layout.push_value(alloc, form, place)?;
    Ok(Some(rest))
}

/// Takes what stands in front of a text in, and gives the text behind it; None where it isn't plain.
fn push_front<'t>(
    alloc: Global,
    layout: &mut Layout,
    text: &'t str,
    names: &PositionNames,
    kinds: &[Kind],
) -> Result<Option<&'t str>, NoMemory>
    ensures moves { IfOk result (λ found. IfSome found (λ rest. Moves names.now kinds.now layout.old text.entry.now layout.new rest.now)) }
    ensures shorter { IfOk result (λ found. IfSome found (λ rest. length rest.now < length text.entry.now)) }
{
    if let Some(rest) = text.strip_prefix("{{") {
        layout.push_text("{")?;
        return Ok(Some(rest));
    }
    if let Some(rest) = text.strip_prefix("}}") {
        layout.push_text("}")?;
        return Ok(Some(rest));
    }
    match text.strip_prefix('{') {
        Some(pattern) => push_pattern(alloc, layout, pattern, names, kinds),
        None => push_plain(layout, text, names, kinds),
    }
}

/// The layout of a strfmt text, where each pattern is the key of a value alone.
pub(crate) fn lay_out(
    alloc: Global,
    template: &str,
    names: &PositionNames,
    kinds: &[Kind],
) -> Result<Option<Layout>, NoMemory>
    ensures { IfOk result (λ found. IfSome found (StandsFor Of.Strfmt template.now names.now kinds.now)) }
{
    let mut layout = Layout::new(alloc);
    let mut rest = template;
    'fronts: while !rest.is_empty() {
        let found = push_front(alloc, &mut layout, rest, names, kinds)?;
        let Some(after) = found else {
            return Ok(None);
        };
        rest = after;
    }
    Ok(Some(layout))
}
