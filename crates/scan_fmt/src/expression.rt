// Expressions: a pattern that is built once, and what it finds in an input.
ghost use Rattle.std.specs.Prelude.{◌≡◌, ◌≤◌, drop, slice_range, IfOk, IfNone, IfSome, IsSome, string_bytes};
ghost use Rattle.std.specs.Str.{chars};
ghost use Rattle.regex.specs.Strings.{match_span, match_haystack};
ghost use Rattle.scan_fmt.specs.Expressions.{expression, found_in};
ghost use Rattle.scan_fmt.specs.Scanned.{matched};
ghost use Rattle.scan_fmt.specs.Inner.Built.{anchored};
ghost use Rattle.scan_fmt.specs.Inner.Found.{AreParts, token_of};

use numerals::NoMemory;
use regex::{Error, Match, Regex};
use std::alloc::Global;
use std::marker::Model;

/// The pattern of an expression, built.
#[derive(Drop)]
pub(crate) struct Expression<'f> {
    pattern: &'f str,
    regex: Box<Regex>,
}

impl<'f> Model for Expression<'f> {
    ghost use Rattle.std.specs.Prelude.{ℕ, List};
    ghost use Rattle.std.specs.Str.{chars};
    ghost use Rattle.scan_fmt.specs.Inner.Built.{IsBuilt};

    ghost Value = { List ℕ };

    ghost view = { λ e. chars e.pattern.now };

    ghost invariant = { λ e. IsBuilt (chars e.pattern.now) e.regex.value };
}

/// What an expression takes from an input.
#[derive(Clone, Copy)]
pub(crate) struct Found<'i> {
    /// The token.
    pub token: &'i str,
    /// What stands behind the token.
    pub behind: &'i str,
    /// What is left of the input.
    pub rest: &'i str,
}

/// The pattern as a group that begins where the text begins.
fn anchored(alloc: Global, pattern: &str) -> Result<String, NoMemory>
    ensures { IfOk result (λ source. chars (string_bytes source) ≡ anchored (chars pattern.now)) }
{
    let Ok(source) = format!(in alloc; "^(?:{pattern})") else {
        return Err(NoMemory);
    };
    Ok(source)
}

/// The parts of an input, by a match in it and the group that is the token, if there is one.
fn parts<'i>(input: &'i str, whole: Match<'i>, group: Option<Match<'i>>) -> Found<'i>
    requires whole { match_haystack whole ≡ input.now }
    requires group { IfSome group (λ g. match_haystack g ≡ input.now) }
    requires within { IfSome group (λ g. (match_span g).1 ≤ (match_span whole).1) }
    ensures token { result.token.now ≡ slice_range input.now (token_of whole.entry group.entry).0 (token_of whole.entry group.entry).1 }
    ensures behind { result.behind.now ≡ drop (token_of whole.entry group.entry).1 input.now }
    ensures rest { result.rest.now ≡ drop (match_span whole.entry).1 input.now }
    ensures parts { AreParts input.now result.token.now result.behind.now result.rest.now }
{
    let token = group.unwrap_or(whole);
    Found {
        token: token.as_str(),
        behind: &input[token.end()..],
        rest: &input[whole.end()..],
    }
}

impl<'f> Expression<'f> {
    /// Builds the pattern. There is none where `regex` doesn't read it; a pattern past its limit on size counts as want
    /// of memory.
    pub(crate) fn new(alloc: Global, pattern: &'f str) -> Result<Option<Expression<'f>>, NoMemory>
        ensures none { IfOk result (λ o. IfNone o (IsSome (expression (chars pattern.now)) → ⊥)) }
        ensures read { IfOk result (λ o. IfSome o (λ e. IsSome (expression (chars pattern.now)))) }
        ensures pattern { IfOk result (λ o. IfSome o (λ e. e ≡ chars pattern.now)) }
    {
        let source = anchored(alloc, pattern)?;
        match Regex::new(alloc, source.as_str()) {
            Ok(regex) => match Box::new(alloc, regex) {
                Ok(regex) => Ok(Some(Expression { pattern, regex })),
                Err(_) => Err(NoMemory),
            },
            Err(Error::Syntax(_)) => Ok(None),
            Err(_) => Err(NoMemory),
        }
    }

    /// What the pattern finds, where the input begins with a match; else an empty token in front of all of it.
    pub(crate) fn find<'i>(&self, alloc: Global, input: &'i str) -> Result<Found<'i>, NoMemory>
        ensures token { IfOk result (λ f. record { text = chars f.token.now; behind = chars f.behind.now } ≡ (matched (chars input.now) (found_in (chars input.now) self.now)).0) }
        ensures rest { IfOk result (λ f. chars f.rest.now ≡ (matched (chars input.now) (found_in (chars input.now) self.now)).1) }
        ensures parts { IfOk result (λ f. AreParts input.now f.token.now f.behind.now f.rest.now) }
    {
        let Ok(mut matcher) = self.regex.matcher(alloc) else {
            return Err(NoMemory);
        };
        match matcher.captures(input) {
            Some(captures) => Ok(parts(input, captures.get_match(), captures.get(1))),
            None => Ok(Found {
                token: "",
                behind: input,
                rest: input,
            }),
        }
    }
}
