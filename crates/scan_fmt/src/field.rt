// What a directive takes from the front of an input.
ghost use Rattle.std.specs.Prelude.{◌≡◌, ◌∷◌, ℕ, ◌<◌, ◌≤◌, List, Option, length, take, drop, MatchOption, IfNone, IfSome, IfOk, IsTrue, ◌↔◌};
ghost use Rattle.std.specs.List.{AllByRecursion};
ghost use Rattle.std.specs.Str.{byte, chars};
ghost use Rattle.std.specs.Str.Parse.{without_leading_plus};
ghost use Rattle.scan_fmt.specs.Scanned.{IsLongest, IsNumber, Suits, MayTake, token_text};
ghost use Rattle.scan_fmt.specs.Grammar.{Number, Exactly, Field, Expression as Finds};
ghost use Rattle.scan_fmt.specs.Inner.Found.{without_0x};
ghost use Rattle.scan_fmt.specs.Inner.Parts.{run_of, notation_of, shape_of, directive_of, IsPass, LiesIn};

use crate::directive::{Directive, Notation, Run, Shape};
use crate::expression::{Expression, Found};
use crate::number::{float_len, prefixed_len, signed_len};
use crate::text::{before, is_blank, split_first, strip};
use numerals::NoMemory;
use std::alloc::Global;

/// What a number with this limit may reach over.
fn within(input: &str, limit: Option<usize>) -> &[u8]
    ensures { MatchOption limit (result.now ≡ input.now) (λ n. result.now ≡ take n input.now) }
{
    let bytes = input.as_bytes();
    match limit {
        Some(n) if n < bytes.len() => &bytes[..n],
        Some(_) => bytes,
        None => bytes,
    }
}

/// What a directive does to the input in front of it.
pub(crate) enum Pass<'i> {
    /// The input doesn't fit.
    Mismatch,
    /// A front is passed; this is the rest.
    Passed(&'i str),
    /// A front is passed, and a token of it is stored; the rest lies in what stands behind the token.
    Taken {
        token: &'i str,
        behind: &'i str,
        rest: &'i str,
    },
}

impl Run<'_> {
    /// Whether the character may stand in such a run.
    fn suits(&self, c: char) -> bool
        ensures { IsTrue result ↔ Suits (run_of self.now) c }
    {
        match self {
            Run::Until(stop) => !is_blank(c) && *stop != Some(c),
            Run::Solid => !is_blank(c),
            Run::Among { inverted, set } => set.has(c) != *inverted,
        }
    }

    /// The longest run in front, and the rest.
    fn split<'i>(&self, input: &'i str) -> (&'i str, &'i str)
        ensures { IsLongest (AllByRecursion (Suits (run_of self.now))) (chars input.now) (chars result.0.now) (chars result.1.now) }
    {
        let mut rest = input;
        'run: while let Some((c, more)) = split_first(rest) {
            if !self.suits(c) {
                return (before(input, rest), rest);
            }
            rest = more;
        }
        (before(input, rest), rest)
    }
}

impl Notation {
    /// How long the longest such number in front is.
    fn reach(self, bytes: &[u8]) -> usize
        ensures within { result ≤ length bytes.now }
        ensures longest { IsLongest (IsNumber (notation_of self)) bytes.now (take result bytes.now) (drop result bytes.now) }
    {
        match self {
            Notation::Decimal => signed_len(bytes),
            Notation::Hexadecimal => prefixed_len(bytes),
            Notation::Float => float_len(bytes),
        }
    }

    /// The longest such number in front within the limit, and the rest.
    fn split(self, limit: Option<usize>, input: &str) -> (&str, &str)
        ensures { IsLongest (MayTake (Number (notation_of self) limit)) (chars input.now) (chars result.0.now) (chars result.1.now) }
    {
        input.split_at(self.reach(within(input, limit)))
    }

    /// The token's text, of what was taken.
    fn token(self, taken: &str) -> &str
        ensures { (limit : Option ℕ) → chars result.now ≡ token_text (Number (notation_of self) limit) (chars taken.now) }
    {
        match self {
            Notation::Decimal => without_plus(taken),
            Notation::Hexadecimal => without_0x(taken),
            Notation::Float => without_plus(taken),
        }
    }
}

fn without_plus(taken: &str) -> &str
    ensures { chars result.now ≡ without_leading_plus (chars taken.now) }
{
    match strip(taken, '+') {
        Some(rest) => rest,
        None => taken,
    }
}

fn without_0x(taken: &str) -> &str
    ensures { chars result.now ≡ without_0x (chars taken.now) }
{
    let Some(rest) = strip(taken, '0') else {
        return taken;
    };
    match strip(rest, 'x') {
        Some(rest) => rest,
        None => taken,
    }
}

impl Shape<'_> {
    /// What a field of this shape takes from the front of the input, and the rest.
    fn split<'i>(&self, input: &'i str) -> (&'i str, &'i str)
        ensures { IsLongest (MayTake (shape_of self.now)) (chars input.now) (chars result.0.now) (chars result.1.now) }
    {
        match self {
            Shape::Characters(run) => run.split(input),
            Shape::Number { notation, limit } => notation.split(*limit, input),
        }
    }

    /// The token's text, of what was taken.
    fn token<'i>(&self, taken: &'i str) -> &'i str
        ensures { chars result.now ≡ token_text (shape_of self.now) (chars taken.now) }
    {
        match self {
            Shape::Characters(_) => taken,
            Shape::Number { notation, .. } => notation.token(taken),
        }
    }

    /// A field of this shape over the input.
    fn pass<'i>(&self, stored: bool, input: &'i str) -> Pass<'i>
        ensures passes { IsPass (Field stored (shape_of self.now)) (chars input.now) result }
        ensures lies { LiesIn input.now result }
    {
        let (taken, rest) = self.split(input);
        if stored {
            let token = self.token(taken);
            let behind = rest;
            Pass::Taken {
                token,
                behind,
                rest,
            }
        } else {
            Pass::Passed(rest)
        }
    }
}

impl Expression<'_> {
    /// A field of this expression over the input.
    fn pass<'i>(&self, alloc: Global, stored: bool, input: &'i str) -> Result<Pass<'i>, NoMemory>
        ensures passes { IfOk result (IsPass (Finds stored self.now) (chars input.now)) }
        ensures lies { IfOk result (LiesIn input.now) }
    {
        let Found {
            token,
            behind,
            rest,
        } = self.find(alloc, input)?;
        if stored {
            Ok(Pass::Taken {
                token,
                behind,
                rest,
            })
        } else {
            Ok(Pass::Passed(rest))
        }
    }
}

/// What a character that the input must have does to it.
fn literal(c: char, input: &str) -> Pass<'_>
    ensures passes { IsPass (Exactly c) (chars input.now) result }
    ensures lies { LiesIn input.now result }
{
    match strip(input, c) {
        Some(rest) => Pass::Passed(rest),
        None => Pass::Mismatch,
    }
}

impl Directive<'_> {
    /// What the directive does to the input, whose white space in front is passed.
    pub(crate) fn pass<'i>(&self, alloc: Global, input: &'i str) -> Result<Pass<'i>, NoMemory>
        ensures passes { IfOk result (IsPass (directive_of self.now) (chars input.now)) }
        ensures lies { IfOk result (LiesIn input.now) }
    {
        match self {
            Directive::Literal(c) => Ok(literal(*c, input)),
            Directive::Field { stored, shape } => Ok(shape.pass(*stored, input)),
            Directive::Expression { stored, expression } => {
                expression.pass(alloc, *stored, input)
            }
            Directive::End => Ok(Pass::Mismatch),
        }
    }
}
