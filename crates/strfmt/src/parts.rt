// A specification as it is written, cut into its parts.

ghost use Rattle.std.specs.Prelude.{◌≡◌, ◌++◌, ◌<◌, ℕ, Option, Some, MatchOption, encode_utf8, length};
ghost use Rattle.strfmt.specs.Inner.Reading.{capped, capped_number};
ghost use Rattle.strfmt.specs.Grammar.Parts.{HasNoFill, IsFilled, IsFlag, IsMark, IsNumber, IsPrecision, IsWritten, IsZero, Parts as WrittenParts, alignment_of, sign_of};

use crate::{Alignment, Sign};
use std::marker::Model;

/// The parts of a specification; a number that is too large stands at its type's last value.
#[derive(Drop)]
pub(crate) struct Parts<'a> {
    pub(crate) fill: Option<char>,
    pub(crate) align: Option<Alignment>,
    pub(crate) sign: Option<Sign>,
    pub(crate) alternate: bool,
    pub(crate) zero: bool,
    pub(crate) width: Option<usize>,
    pub(crate) thousands: bool,
    pub(crate) dot: bool,
    pub(crate) precision: Option<usize>,
    pub(crate) left: &'a [u8],
}

impl<'a> Model for Parts<'a> {
    ghost use Rattle.strfmt.specs.Grammar.Parts.{Parts as WrittenParts};

    ghost Value = { WrittenParts };

    ghost view = { λ it. record {
      fill = it.fill;
      align = it.align;
      sign = it.sign;
      alternate = it.alternate;
      zero = it.zero;
      width = it.width;
      thousands = it.thousands;
      dot = it.dot;
      precision = it.precision;
      left = it.left.now;
    } };
}

/// An optional byte, and the bytes after it.
fn flag(text: &[u8], byte: u8) -> (bool, &[u8])
    requires { 0 < byte }
    ensures { IsFlag byte text.now result.0 result.1.now }
{
    match text.split_first() {
        Some((first, rest)) if *first == byte => (true, rest),
        Some(_) => (false, text),
        None => (false, text),
    }
}

fn alignment_of(byte: u8) -> Option<Alignment>
    ensures { result ≡ alignment_of byte }
{
    match byte {
        b'<' => Some(Alignment::Left),
        b'^' => Some(Alignment::Center),
        b'>' => Some(Alignment::Right),
        b'=' => Some(Alignment::Equal),
        _ => None,
    }
}

/// An optional alignment, and the bytes after it.
fn alignment(text: &[u8]) -> (Option<Alignment>, &[u8])
    ensures { IsMark alignment_of text.now result.0 result.1.now }
{
    match text.split_first() {
        Some((first, rest)) => match alignment_of(*first) {
            Some(align) => (Some(align), rest),
            None => (None, text),
        },
        None => (None, text),
    }
}

fn sign_of(byte: u8) -> Option<Sign>
    ensures { result ≡ sign_of byte }
{
    match byte {
        b' ' => Some(Sign::Space),
        b'-' => Some(Sign::Minus),
        b'+' => Some(Sign::Plus),
        _ => None,
    }
}

/// An optional sign, and the bytes after it.
fn sign(text: &[u8]) -> (Option<Sign>, &[u8])
    ensures { IsMark sign_of text.now result.0 result.1.now }
{
    match text.split_first() {
        Some((first, rest)) => match sign_of(*first) {
            Some(sign) => (Some(sign), rest),
            None => (None, text),
        },
        None => (None, text),
    }
}

/// The first character, and the text after it.
fn first_char(text: &str) -> Option<(char, &str)>
    ensures { MatchOption result (length text.now ≡ 0) (λ x. text.now ≡ encode_utf8 x.0 ++ x.1.now) }
{
    let mut chars = text.chars();
    let first = chars.next()?;
    Some((first, chars.as_str()))
}

/// A fill with an alignment after it, and the bytes after them.
fn fill_then_alignment(text: &str) -> Option<(char, Alignment, &[u8])>
    ensures { MatchOption result (HasNoFill text.now) (λ x. IsFilled text.now (Some x.0) (Some x.1) x.2.now) }
{
    let (fill, after) = first_char(text)?;
    match alignment(after.as_bytes()) {
        (Some(align), rest) => Some((fill, align, rest)),
        (None, _) => None,
    }
}

/// A fill with an alignment after it, or an alignment alone, and the bytes after them.
fn fill_and_alignment(text: &str) -> (Option<char>, Option<Alignment>, &[u8])
    ensures { IsFilled text.now result.0 result.1 result.2.now }
{
    if let Some((fill, align, rest)) = fill_then_alignment(text) {
        return (Some(fill), Some(align), rest);
    }
    let (align, rest) = alignment(text.as_bytes());
    (None, align, rest)
}

/// A zero flag, which there is only where no fill stands.
fn zero_flag(fill: Option<char>, text: &[u8]) -> (bool, &[u8])
    ensures { IsZero fill text.now result.0 result.1.now }
{
    match fill {
        Some(_) => (false, text),
        None => flag(text, b'0'),
    }
}

/// An optional number in decimal digits, and the bytes after it.
fn number(text: &[u8]) -> (Option<usize>, &[u8])
    ensures { (n : Option ℕ) × IsNumber text.now n result.1.now × (result.0 ≡ capped_number n) }
{
    let mut value: Option<usize> = None;
    let mut rest = text;
    'digits: while let Some((first, tail)) = rest.split_first() {
        if !first.is_ascii_digit() {
            break;
        }
        let digit = usize::from(*first - b'0');
        value = Some(value.unwrap_or(0).saturating_mul(10).saturating_add(digit));
        rest = tail;
    }
    (value, rest)
}

/// The number after a dot.
fn number_after(dot: bool, text: &[u8]) -> (Option<usize>, &[u8])
    ensures { (n : Option ℕ) × IsPrecision dot text.now n result.1.now × (result.0 ≡ capped_number n) }
{
    if dot { number(text) } else { (None, text) }
}

/// Cuts a specification into its parts.
pub(crate) fn parse(text: &str) -> Parts<'_>
    ensures { (written : WrittenParts) × IsWritten text.now written × (result ≡ capped written) }
{
    let (fill, align, rest) = fill_and_alignment(text);
    let (sign, rest) = sign(rest);
    let (alternate, rest) = flag(rest, b'#');
    let (zero, rest) = zero_flag(fill, rest);
    let (width, rest) = number(rest);
    let (thousands, rest) = flag(rest, b',');
    let (dot, rest) = flag(rest, b'.');
    let (precision, left) = number_after(dot, rest);
    Parts {
        fill,
        align,
        sign,
        alternate,
        zero,
        width,
        thousands,
        dot,
        precision,
        left,
    }
}
