// The characters of a set: a table of those in ASCII, and spans in order for the others.
ghost use Rattle.std.specs.Prelude.{◌≡◌, ◌∷◌, ◌||◌, ℕ, ◌<◌, List, length, IfNone, IfSome, IfOk, OnOk};
ghost use Rattle.std.specs.List.Sorted.{IsNonDecreasingBy};
ghost use Rattle.std.specs.Str.{byte, chars};
ghost use Rattle.percent_encoding.specs.AsciiSet.{contains};
ghost use Rattle.scan_fmt.specs.Sets.{is_in_ranges, is_listed};
ghost use Rattle.scan_fmt.specs.Inner.Spans.{is_between, is_covered, Rises, low_of};

use crate::text::{split_first, strip};
use numerals::NoMemory;
use percent_encoding::AsciiSet;
use std::alloc::Global;

/// The characters from one to another, both included.
#[derive(Clone, Copy)]
pub(crate) struct Span {
    low: char,
    reach: char,
}

/// What stands between the brackets of a set, with a table of its ASCII characters and spans of all.
#[derive(Drop)]
pub(crate) struct Set<'f> {
    listing: &'f str,
    ascii: AsciiSet,
    spans: Vec<Span>,
    ghost table: { (b : ℕ) → b < 128 → contains ascii b ≡ is_listed (chars listing.now) b },
    ghost rises: { Rises spans.items },
    ghost covered: { (b : ℕ) → is_covered spans.items b ≡ is_listed (chars listing.now) b },
}

/// The other end of a range, where a dash stands in front, and what follows it.
fn range_end(text: &str) -> Option<(char, &str)>
    ensures none { IfNone result ((z : ℕ) (rest : List ℕ) → chars text.now ≡ byte "-" ∷ z ∷ rest → ⊥) }
    ensures some { IfSome result (λ p. chars text.now ≡ byte "-" ∷ p.0 ∷ chars p.1.now) }
    ensures shorter { IfSome result (λ p. length p.1.now < length text.now) }
{
    split_first(strip(text, '-')?)
}

/// Adds the characters from one to another.
fn add_range(spans: &mut Vec<Span>, low: char, high: char) -> Result<(), NoMemory>
    ensures { OnOk result ((b : ℕ) → is_covered spans.new.items b ≡ (is_covered spans.old.items b || is_between low high b)) }
{
    let reach = high;
    if spans.push(Span { low, reach }).is_err() {
        return Err(NoMemory);
    }
    Ok(())
}

/// Adds what the ranges list.
fn add_ranges(spans: &mut Vec<Span>, ranges: &str) -> Result<(), NoMemory>
    ensures { OnOk result ((b : ℕ) → is_covered spans.new.items b ≡ (is_covered spans.old.items b || is_in_ranges (chars ranges.now) b)) }
{
    let mut ranges = ranges;
    'listed: while let Some((low, rest)) = split_first(ranges) {
        if let Some((high, rest)) = range_end(rest) {
            add_range(spans, low, high)?;
            ranges = rest;
        } else {
            add_range(spans, low, low)?;
            ranges = rest;
        }
    }
    Ok(())
}

/// What is listed, range by range.
fn ranges_of(alloc: Global, listing: &str) -> Result<Vec<Span>, NoMemory>
    ensures { IfOk result (λ v. (b : ℕ) → is_covered v.items b ≡ is_listed (chars listing.now) b) }
{
    let mut spans = Vec::new(alloc);
    match split_first(listing) {
        Some((first, rest)) => {
            if first == '-' || first == ']' {
                add_range(&mut spans, first, first)?;
                add_ranges(&mut spans, rest)?;
            } else {
                add_ranges(&mut spans, listing)?;
            }
            Ok(spans)
        }
        None => Ok(spans),
    }
}

/// Lets each span reach at least as far as those before it.
fn raise(spans: &mut [Span])
    requires { IsNonDecreasingBy low_of spans.old }
    ensures rises { Rises spans.new }
    ensures covered { (b : ℕ) → is_covered spans.new b ≡ is_covered spans.old b }
{
    'spans: for i in 1..spans.len() {
        let reach = spans[i - 1].reach;
        if spans[i].reach < reach {
            spans[i].reach = reach;
        }
    }
}

/// Sorts the spans, and lets each reach at least as far as those before it.
fn order(spans: &mut [Span])
    ensures rises { Rises spans.new }
    ensures covered { (b : ℕ) → is_covered spans.new b ≡ is_covered spans.old b }
{
    spans.sort_unstable_by_key(|span| span.low);
    raise(spans);
}

/// Whether one of the spans has the character: of those that begin at or before it, the last reaches farthest.
fn is_covered(spans: &[Span], c: char) -> bool
    requires { Rises spans.now }
    ensures { result ≡ is_covered spans.now c }
{
    let count = spans.partition_point(|span| span.low <= c);
    count > 0 && c <= spans[count - 1].reach
}

/// The table of the ASCII characters that the spans have.
fn table_of(spans: &[Span]) -> AsciiSet
    requires { Rises spans.now }
    ensures { (b : ℕ) → b < 128 → contains result b ≡ is_covered spans.now b }
{
    let mut table = AsciiSet { mask: 0 };
    'codes: for code in 0..128u8 {
        if is_covered(spans, char::from(code)) {
            table = table.add(code);
        }
    }
    table
}

impl<'f> Set<'f> {
    /// The set of a listing. Its table and its spans are made here.
    pub(crate) fn new(alloc: Global, listing: &'f str) -> Result<Set<'f>, NoMemory>
        ensures { IfOk result (λ s. s.listing.now ≡ listing.now) }
    {
        let mut spans = ranges_of(alloc, listing)?;
        order(&mut spans);
        let ascii = table_of(&spans);
        Ok(Set {
            listing,
            ascii,
            spans,
        })
    }

    /// Whether the character is listed.
    pub(crate) fn has(&self, c: char) -> bool
        ensures { result ≡ is_listed (chars self.now.listing.now) c }
    {
        if c.is_ascii() {
            self.ascii.contains(c as u8)
        } else {
            is_covered(&self.spans, c)
        }
    }
}
