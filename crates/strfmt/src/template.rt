// A text that is cut once and filled many times.

ghost use Rattle.std.specs.Prelude.{◌≡◌, ◌++◌, ◌⊎◌, List, ℕ, Ok, Err, OnErr, OnOk, IfErr, IfOk, IsUtf8, string_bytes, length, take};
ghost use Rattle.strfmt.specs.Inner.Cutting.{BeginsWithBrace};
ghost use Rattle.strfmt.specs.Inner.Segments.{FillsAll, FillsOne, FillsPattern, Grows, IsFound, IsFoundPattern, IsMade};
ghost use Rattle.strfmt.specs.Walk.{IsWalk};

use crate::cause::Cause;
use crate::cutting::{Brace, Next, look, split_plain};
use crate::{FmtError, Formatter, Result};
use numerals::NoMemory;
use std::alloc::Global;
use std::marker::Model;

/// A segment of a text up to its first fault.
#[derive(Drop)]
pub(crate) enum Segment<'t> {
    /// Characters that stand for themselves.
    Plain(&'t str),
    /// A brace that is doubled.
    Escape(Brace),
    Pattern(Formatter<'t>),
}

/// What stands in front of a text.
#[derive(Drop)]
pub(crate) enum Found<'t> {
    /// A segment, and the text after it.
    Segment(Segment<'t>, &'t str),
    End,
    Wrong(Cause),
}

/// A text that is cut at its braces, with its patterns read, to be filled many times.
///
/// A malformed text is a template too: each filling answers its first fault, after the calls at the patterns before it.
/// In contracts a template is its text.
#[derive(Drop)]
pub struct Template<'t> {
    text: &'t str,
    segments: Vec<Segment<'t>>,
    fault: Option<Cause>,
}

impl<'t> Model for Template<'t> {
    ghost use Rattle.std.specs.Prelude.{List, ℕ};
    ghost use Rattle.strfmt.specs.Inner.Segments.{IsMade};

    ghost Value = { List ℕ };

    ghost view = { λ it. it.text.now };

    ghost invariant = { λ it. IsMade it.segments.items it.fault it.text.now };
}

/// The pattern in front of a text, read.
fn find_pattern<'t>(alloc: Global, inner: &'t str, after: &'t str) -> Found<'t>
    ensures { IsFoundPattern inner.now after.now result }
{
    match Formatter::read(alloc, inner) {
        Ok(formatter) => Found::Segment(Segment::Pattern(formatter), after),
        Err(cause) => Found::Wrong(cause),
    }
}

/// What stands in front of a text that is empty or begins with a brace.
fn find_at_brace<'t>(alloc: Global, text: &'t str) -> Found<'t>
    requires { BeginsWithBrace text.now }
    ensures { IsFound text.now result }
{
    match look(text) {
        Next::End => Found::End,
        Next::Escape(brace, after) => Found::Segment(Segment::Escape(brace), after),
        Next::Pattern(inner, after) => find_pattern(alloc, inner, after),
        Next::Wrong(cause) => Found::Wrong(cause),
    }
}

/// What stands in front of a text.
fn find<'t>(alloc: Global, text: &'t str) -> Found<'t>
    ensures { IsFound text.now result }
{
    let (plain, tail) = split_plain(text);
    if plain.is_empty() {
        return find_at_brace(alloc, tail);
    }
    Found::Segment(Segment::Plain(plain), tail)
}

/// The segments of a text up to its first fault.
fn cut<'t>(
    alloc: Global,
    text: &'t str,
) -> std::result::Result<(Vec<Segment<'t>>, Option<Cause>), NoMemory>
    ensures { IfOk result (λ made. IsMade made.0.items made.1 text.now) }
{
    let mut segments: Vec<Segment<'t>> = Vec::new(alloc);
    let mut rest = text;
    'segments: loop {
        match find(alloc, rest) {
            Found::Segment(segment, after) => {
                if segments.push(segment).is_err() {
                    return Err(NoMemory);
                }
                rest = after;
            }
            Found::End => return Ok((segments, None)),
            Found::Wrong(cause) => return Ok((segments, Some(cause))),
        }
    }
}

/// Appends what `f` answers at a pattern.
fn fill_pattern<F>(
    alloc: Global,
    pattern: &Formatter<'_>,
    out: &mut String,
    f: &mut F,
) -> Result<()>
where
    F: FnMut(&mut Formatter<'_>) -> Result<()>,
    requires { F.IsAlwaysCallable f.old }
    ensures callable { F.IsAlwaysCallable f.new }
    ensures fills { FillsPattern F.FnMut f.old pattern.now (string_bytes out.old) result (string_bytes out.new) f.new }
{
    let mut formatter = pattern.fresh(alloc);
    match f(&mut formatter) {
        Ok(()) => {
            out.push_str(formatter.text())?;
            Ok(())
        }
        Err(error) => Err(error),
    }
}

/// Appends what a segment prints.
fn fill_one<F>(alloc: Global, segment: &Segment<'_>, out: &mut String, f: &mut F) -> Result<()>
where
    F: FnMut(&mut Formatter<'_>) -> Result<()>,
    requires { F.IsAlwaysCallable f.old }
    ensures callable { F.IsAlwaysCallable f.new }
    ensures fills { FillsOne F.FnMut f.old segment.now (string_bytes out.old) result (string_bytes out.new) f.new }
{
    match segment {
        Segment::Plain(plain) => out.push_str(plain)?,
        Segment::Escape(brace) => out.push_str(brace.as_str())?,
        Segment::Pattern(pattern) => fill_pattern(alloc, pattern, out, f)?,
    }
    Ok(())
}

/// Appends what the segments print one after the other, and then tells the fault.
fn fill_all<F>(
    alloc: Global,
    segments: &[Segment<'_>],
    fault: Option<Cause>,
    out: &mut String,
    f: &mut F,
) -> Result<()>
where
    F: FnMut(&mut Formatter<'_>) -> Result<()>,
    requires { F.IsAlwaysCallable f.old }
    ensures { FillsAll F.FnMut f.old segments.now fault (string_bytes out.old) result (string_bytes out.new) f.new }
{
    'segments: for segment in segments {
        match fill_one(alloc, segment, out, f) {
            Ok(()) => {}
            Err(error) => return Err(error),
        }
    }
    match fault {
        None => Ok(()),
        Some(cause) => Err(cause.told(alloc)),
    }
}

/// Takes back what was added to a text since it had this length.
fn take_back(out: &mut String, len: usize)
    requires { (before : List ℕ) × (length before ≡ len) × IsUtf8 before × Grows before (string_bytes out.old) }
    ensures { string_bytes out.new ≡ take len (string_bytes out.old) }
{
    out.truncate(len);
}

impl<'t> Template<'t> {
    /// Cuts a text at its braces and reads its patterns; only memory may be refused.
    pub fn new(alloc: Global, text: &'t str) -> std::result::Result<Template<'t>, NoMemory>
        ensures { IfOk result (λ template. template ≡ text.now) }
    {
        let (segments, fault) = cut(alloc, text)?;
        Ok(Template {
            text,
            segments,
            fault,
        })
    }

    /// The text that was cut.
    pub fn text(&self) -> &'t str
        ensures { result.now ≡ self.now }
    {
        self.text
    }

    /// Fills the patterns by calls of a closure, from left to right, and appends the text.
    ///
    /// `f` gets each pattern as a formatter without text; where it answers Ok, the text that the formatter then holds
    /// stands in the place of the pattern. The first fault from the left is the answer; after it `f` isn't called, and
    /// `out` is as before.
    pub fn fill<F>(&self, alloc: Global, out: &mut String, f: &mut F) -> Result<()>
    where
        F: FnMut(&mut Formatter<'_>) -> Result<()>,
        requires { F.IsAlwaysCallable f.old }
        ensures ok { OnOk result ((text : List ℕ) × IsWalk F.FnMut f.old self.now (Ok text) f.new × (string_bytes out.new ≡ string_bytes out.old ++ text)) }
        ensures err { IfErr result (λ e. (e ≡ FmtError.NoMemory) ⊎ IsWalk F.FnMut f.old self.now (Err e) f.new) }
        ensures same { OnErr result (string_bytes out.new ≡ string_bytes out.old) }
    {
        let len = out.len();
        match fill_all(alloc, &self.segments, self.fault, out, f) {
            Ok(()) => Ok(()),
            Err(error) => {
                take_back(out, len);
                Err(error)
            }
        }
    }
}
