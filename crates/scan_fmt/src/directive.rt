// The directives of a format: literal characters, fields, and the end of the input.
ghost use Rattle.std.specs.Prelude.{◌≡◌, ◌≢◌, ◌<◌, ◌∷◌, ◌++◌, ℕ, List, Option, Bool, true, false, IfOk, IfNone, IfSome, codes};
ghost use Rattle.std.specs.Str.{byte, chars};
ghost use Rattle.std.specs.Str.Parse.{AllDigits};
ghost use Rattle.scan_fmt.specs.Grammar.{after_blanks, limit_of, Spells};
ghost use Rattle.scan_fmt.specs.Grammar.{Characters, Among, Field};
ghost use Rattle.scan_fmt.specs.Expressions.{IsDelimited};
ghost use Rattle.scan_fmt.specs.Scanned.{IsLongest};
ghost use Rattle.scan_fmt.specs.Inner.Fields.{Content, Shaped, Names, SpellsBody, SpellsField, IsReadable, NoDirective, field_of};
ghost use Rattle.scan_fmt.specs.Inner.Parts.{run_of, body_of, directive_of};
ghost use Rattle.scan_fmt.specs.Sets.{IsListing};

use crate::expression::Expression;
use crate::number::digits_len;
use crate::set::Set;
use crate::text::{before, first, skip_blanks, split_first, strip};
use numerals::NoMemory;
use std::alloc::Global;

/// The characters that a run may have.
#[derive(Drop)]
pub(crate) enum Run<'f> {
    /// All but white space and this character.
    Until(Option<char>),
    /// All but white space.
    Solid,
    /// Those that are listed, or, inverted, those that aren't.
    Among { inverted: bool, set: Set<'f> },
}

/// How a number is written.
#[derive(Clone, Copy)]
pub(crate) enum Notation {
    Decimal,
    Hexadecimal,
    Float,
}

/// What a field takes.
#[derive(Drop)]
pub(crate) enum Shape<'f> {
    Characters(Run<'f>),
    /// A number of at most so many characters.
    Number {
        notation: Notation,
        limit: Option<usize>,
    },
}

/// What stands between a field's braces.
#[derive(Clone, Copy)]
enum Body<'f> {
    /// All but white space, up to this character.
    Until(Option<char>),
    /// The letter of a run.
    Solid,
    /// The listing of a set.
    Lists {
        inverted: bool,
        listing: &'f str,
    },
    /// The letter of a number.
    Number {
        notation: Notation,
        limit: Option<usize>,
    },
    /// The pattern of an expression.
    Finds(&'f str),
    /// The letter of the end.
    Ends,
}

#[derive(Drop)]
pub(crate) enum Directive<'f> {
    /// A character that the input must have.
    Literal(char),
    Field {
        stored: bool,
        shape: Shape<'f>,
    },
    Expression {
        stored: bool,
        expression: Expression<'f>,
    },
    /// The input must be at its end.
    End,
}

/// The directive of a field that takes such a run.
fn characters(stored: bool, run: Run<'_>) -> Directive<'_>
    ensures { directive_of result ≡ Field stored (Characters (run_of run.entry)) }
{
    let shape = Shape::Characters(run);
    Directive::Field { stored, shape }
}

impl<'f> Body<'f> {
    /// The directive, where `regex` reads its pattern.
    fn directive(self, alloc: Global, stored: bool) -> Result<Option<Directive<'f>>, NoMemory>
        ensures none { IfOk result (λ o. IfNone o (IsReadable (body_of self.entry) → ⊥)) }
        ensures read { IfOk result (λ o. IfSome o (λ d. IsReadable (body_of self.entry))) }
        ensures directive { IfOk result (λ o. IfSome o (λ d. directive_of d ≡ field_of stored (body_of self.entry))) }
    {
        match self {
            Body::Until(stop) => Ok(Some(characters(stored, Run::Until(stop)))),
            Body::Solid => Ok(Some(characters(stored, Run::Solid))),
            Body::Lists { inverted, listing } => {
                let set = Set::new(alloc, listing)?;
                Ok(Some(characters(stored, Run::Among { inverted, set })))
            }
            Body::Number { notation, limit } => {
                let shape = Shape::Number { notation, limit };
                Ok(Some(Directive::Field { stored, shape }))
            }
            Body::Finds(pattern) => match Expression::new(alloc, pattern)? {
                Some(expression) => Ok(Some(Directive::Expression { stored, expression })),
                None => Ok(None),
            },
            Body::Ends => Ok(Some(Directive::End)),
        }
    }
}

/// The limit that these digits give.
fn limit_of(digits: &str) -> Option<usize>
    requires { AllDigits 10 digits.now }
    ensures { result ≡ limit_of digits.now }
{
    match digits.parse::<usize>() {
        Ok(0) => None,
        Ok(n) => Some(n),
        Err(_) => None,
    }
}

/// The limit in front, and what follows its digits.
fn limit(text: &str) -> (Option<usize>, &str)
    ensures { (ds : List ℕ) × IsLongest (AllDigits 10) (chars text.now) ds (chars result.1.now) × (result.0 ≡ limit_of ds) }
{
    let (digits, rest) = text.split_at(digits_len(text.as_bytes(), 10));
    (limit_of(digits), rest)
}

/// The listing of a set, and what follows the bracket that closes it.
fn listing(text: &str) -> Option<(&str, &str)>
    ensures none { IfNone result ((listing rest : List ℕ) → chars text.now ≡ listing ++ byte "]" ∷ rest → IsListing true listing → ⊥) }
    ensures some { IfSome result (λ p. (chars text.now ≡ chars p.0.now ++ byte "]" ∷ chars p.1.now) × IsListing true (chars p.0.now)) }
{
    let (_, mut rest) = split_first(text)?;
    'listed: while let Some((c, more)) = split_first(rest) {
        if c == ']' {
            return Some((before(text, rest), more));
        }
        rest = more;
    }
    None
}

/// The same, where a closing brace follows the bracket too.
fn closed_listing(text: &str) -> Option<(&str, &str)>
    ensures none { IfNone result ((listing rest : List ℕ) → chars text.now ≡ listing ++ (codes "]}" ++ rest) → IsListing true listing → ⊥) }
    ensures some { IfSome result (λ p. (chars text.now ≡ chars p.0.now ++ (codes "]}" ++ chars p.1.now)) × IsListing true (chars p.0.now)) }
{
    let (listing, rest) = listing(text)?;
    let rest = strip(rest, '}')?;
    Some((listing, rest))
}

/// The set that stands after an opening bracket, and what follows its closing brace.
fn set(text: &str) -> Option<(Body<'_>, &str)>
    ensures none { IfNone result ((s : Content) (n : Option ℕ) (rest : List ℕ) → Names s n (byte "[" ∷ chars text.now) rest → ⊥) }
    ensures some { IfSome result (λ p. (n : Option ℕ) → Names (body_of p.0) n (byte "[" ∷ chars text.now) (chars p.1.now)) }
{
    match strip(text, '^') {
        Some(text) => {
            let (listing, rest) = closed_listing(text)?;
            let inverted = true;
            Some((among(inverted, listing), rest))
        }
        None => {
            let (listing, rest) = closed_listing(text)?;
            let inverted = false;
            Some((among(inverted, listing), rest))
        }
    }
}

fn among(inverted: bool, listing: &str) -> Body<'_>
    ensures { body_of result ≡ Shaped (Characters (Among inverted (chars listing.now))) }
{
    Body::Lists { inverted, listing }
}

/// The pattern of an expression, and what follows the slash that ends it.
fn pattern(text: &str) -> Option<(&str, &str)>
    ensures none { IfNone result ((pattern rest : List ℕ) → chars text.now ≡ pattern ++ byte "/" ∷ rest → IsDelimited pattern → ⊥) }
    ensures some { IfSome result (λ p. (chars text.now ≡ chars p.0.now ++ byte "/" ∷ chars p.1.now) × IsDelimited (chars p.0.now)) }
{
    let (_, mut rest) = split_first(text)?;
    let mut escaped = false;
    'pattern: while let Some((c, more)) = split_first(rest) {
        if c == '/' && !escaped {
            return Some((before(text, rest), more));
        }
        escaped = c == '\\';
        rest = more;
    }
    None
}

/// The expression that stands after a slash, and what follows its closing brace.
fn expression(text: &str) -> Option<(Body<'_>, &str)>
    ensures none { IfNone result ((s : Content) (n : Option ℕ) (rest : List ℕ) → Names s n (byte "/" ∷ chars text.now) rest → ⊥) }
    ensures some { IfSome result (λ p. (n : Option ℕ) → Names (body_of p.0) n (byte "/" ∷ chars text.now) (chars p.1.now)) }
{
    let (pattern, rest) = pattern(text)?;
    let rest = strip(rest, '}')?;
    Some((Body::Finds(pattern), rest))
}

/// What a letter names.
fn lettered(letter: char, limit: Option<usize>) -> Option<Body<'static>>
    requires no_set { letter ≢ byte "[" }
    requires no_expression { letter ≢ byte "/" }
    ensures none { IfNone result ((s : Content) (n : Option ℕ) (more rest : List ℕ) → Names s n (letter ∷ more) rest → ⊥) }
    ensures some { IfSome result (λ s. (rest : List ℕ) → Names (body_of s) limit (letter ∷ byte "}" ∷ rest) rest) }
{
    let notation = match letter {
        'd' => Notation::Decimal,
        'x' => Notation::Hexadecimal,
        'f' => Notation::Float,
        's' => return Some(Body::Solid),
        'e' => return Some(Body::Ends),
        _ => return None,
    };
    Some(Body::Number { notation, limit })
}

/// What the letter, the set or the expression in front names, and what follows its closing brace.
fn named_body(limit: Option<usize>, text: &str) -> Option<(Body<'_>, &str)>
    ensures none { IfNone result ((s : Content) (rest : List ℕ) → Names s limit (chars text.now) rest → ⊥) }
    ensures some { IfSome result (λ p. Names (body_of p.0) limit (chars text.now) (chars p.1.now)) }
{
    let (letter, rest) = split_first(text)?;
    if letter == '[' {
        return set(rest);
    }
    if letter == '/' {
        return expression(rest);
    }
    let body = lettered(letter, limit)?;
    let rest = strip(rest, '}')?;
    Some((body, rest))
}

/// What stands after a field's star, and what follows its closing brace.
fn field_body(text: &str) -> Option<(Body<'_>, &str)>
    ensures none { IfNone result ((s : Content) (rest : List ℕ) → SpellsBody s (chars text.now) rest → ⊥) }
    ensures some { IfSome result (λ p. SpellsBody (body_of p.0) (chars text.now) (chars p.1.now)) }
{
    if let Some(rest) = strip(text, '}') {
        return Some((Body::Until(first(rest)), rest));
    }
    let (limit, name) = limit(text);
    named_body(limit, name)
}

/// Whether the field after an opening brace is stored, what it is, and what follows it.
fn field_parts(text: &str) -> Option<(bool, Body<'_>, &str)>
    ensures none { IfNone result ((stored : Bool) (s : Content) (rest : List ℕ) → SpellsField stored s (chars text.now) rest → ⊥) }
    ensures some { IfSome result (λ p. SpellsField p.0 (body_of p.1) (chars text.now) (chars p.2.now)) }
{
    match strip(text, '*') {
        Some(text) => {
            let (body, rest) = field_body(text)?;
            Some((false, body, rest))
        }
        None => {
            let (body, rest) = field_body(text)?;
            Some((true, body, rest))
        }
    }
}

/// The field that stands after an opening brace, and what follows it.
fn field(alloc: Global, text: &str) -> Result<Option<(Directive<'_>, &str)>, NoMemory>
    ensures none { IfOk result (λ o. IfNone o ((stored : Bool) (s : Content) (rest : List ℕ) → SpellsField stored s (chars text.now) rest → IsReadable s → ⊥)) }
    ensures some { IfOk result (λ o. IfSome o (λ p. Spells (directive_of p.0) (byte "{" ∷ chars text.now) (chars p.1.now))) }
{
    let Some((stored, body, rest)) = field_parts(text) else {
        return Ok(None);
    };
    match body.directive(alloc, stored)? {
        Some(directive) => Ok(Some((directive, rest))),
        None => Ok(None),
    }
}

/// The directive that stands in front, and what follows it.
fn front_directive(alloc: Global, format: &str) -> Result<Option<(Directive<'_>, &str)>, NoMemory>
    ensures none { IfOk result (λ o. IfNone o (NoDirective (chars format.now))) }
    ensures some { IfOk result (λ o. IfSome o (λ p. Spells (directive_of p.0) (chars format.now) (chars p.1.now))) }
{
    let Some((c, rest)) = split_first(format) else {
        return Ok(None);
    };
    if c == '}' {
        return match split_first(rest) {
            Some((c, rest)) => Ok(Some((Directive::Literal(c), rest))),
            None => Ok(None),
        };
    }
    if c != '{' {
        return Ok(Some((Directive::Literal(c), rest)));
    }
    match strip(rest, '{') {
        Some(rest) => Ok(Some((Directive::Literal('{'), rest))),
        None => field(alloc, rest),
    }
}

/// The directive that stands in front, after white space, and what follows it.
pub(crate) fn next_directive(
    alloc: Global,
    format: &str,
) -> Result<Option<(Directive<'_>, &str)>, NoMemory>
    ensures none { IfOk result (λ o. IfNone o (NoDirective (after_blanks (chars format.now)))) }
    ensures some { IfOk result (λ o. IfSome o (λ p. Spells (directive_of p.0) (after_blanks (chars format.now)) (chars p.1.now))) }
{
    front_directive(alloc, skip_blanks(format))
}
