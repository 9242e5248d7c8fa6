// A formatter: one pattern with its key and its specification, and the text that fills it.

ghost use Rattle.std.specs.Prelude.{◌≡◌, ◌++◌, ◌∷◌, [], codes};
ghost use Rattle.strfmt.specs.Fault.{first_failure};
ghost use Rattle.strfmt.specs.Grammar.Pattern.{IsRead, Reads, checks_of, first_cause, is_too_large, key_of, spec_of, specification_of, type_checks};
ghost use Rattle.strfmt.specs.Spec.{Appends, is_minus, is_none_or_in, is_plus, view_aligned};

use crate::cause::Cause;
use crate::parts::{self, Parts};
use crate::{Alignment, Result, Sign};
use std::alloc::Global;
use std::marker::Model;

/// The greatest width and precision.
const LIMIT: usize = 9223372036854775807;

/// One pattern of a text: its key, its specification, and the text that fills it.
///
/// A call that refuses leaves the text as it was. Widths and precisions count characters.
#[derive(Drop)]
pub struct Formatter<'a> {
    /// What stands before the first `:` of the pattern.
    pub key: &'a str,
    pub(crate) pattern: &'a str,
    pub(crate) fill: char,
    pub(crate) align: Alignment,
    pub(crate) sign: Sign,
    pub(crate) alternate: bool,
    pub(crate) width: Option<usize>,
    pub(crate) thousands: bool,
    pub(crate) precision: Option<usize>,
    pub(crate) ty: Option<char>,
    pub(crate) text: String,
}

impl<'a> Model for Formatter<'a> {
    ghost use Rattle.std.specs.Prelude.{string_bytes};
    ghost use Rattle.strfmt.specs.Spec.{View};

    ghost Value = { View };

    ghost view = { λ it. record {
      key = it.key.now;
      pattern = it.pattern.now;
      spec = record {
        fill = it.fill;
        align = it.align;
        sign = it.sign;
        alternate = it.alternate;
        width = it.width;
        thousands = it.thousands;
        precision = it.precision;
        ty = it.ty;
      };
      text = string_bytes it.text;
    } };
}

fn is_too_large(number: Option<usize>) -> bool
    ensures { result ≡ is_too_large number }
{
    match number {
        Some(n) => n > LIMIT,
        None => false,
    }
}

/// Why a byte that is left is no type, or why a comma doesn't go with it.
fn type_cause(ty: u8, thousands: bool) -> Option<Cause>
    ensures { result ≡ first_failure (type_checks thousands (ty ∷ [])) }
{
    if !b"boxXeEfF%s?".contains(&ty) {
        return Some(Cause::BadType(char::from(ty)));
    }
    if thousands && b"boxXs?".contains(&ty) {
        return Some(Cause::BadComma(char::from(ty)));
    }
    None
}

/// Why the bytes that are left are no type.
fn left_cause(left: &[u8], thousands: bool) -> Option<Cause>
    ensures { result ≡ first_failure (type_checks thousands left.now) }
{
    match left.split_first() {
        None => None,
        Some((ty, more)) if more.is_empty() => type_cause(*ty, thousands),
        Some(_) => Some(Cause::LongType),
    }
}

/// Why a specification is refused, from left to right.
fn parts_cause(parts: &Parts<'_>) -> Option<Cause>
    ensures { result ≡ first_failure (checks_of parts.now) }
{
    if is_too_large(parts.width) {
        return Some(Cause::GreatWidth);
    }
    if parts.dot && parts.precision.is_none() {
        return Some(Cause::NoPrecision);
    }
    if is_too_large(parts.precision) {
        return Some(Cause::GreatPrecision);
    }
    left_cause(parts.left, parts.thousands)
}

/// Why a key with the parts of a specification is refused.
fn first_cause(key: &str, parts: &Parts<'_>) -> Option<Cause>
    ensures { result ≡ first_cause key.now parts.now }
{
    if key.is_empty() {
        return Some(Cause::NoKey);
    }
    parts_cause(parts)
}

/// The key of a pattern, and its specification, which may be empty.
fn split(pattern: &str) -> (&str, &str)
    ensures key { result.0.now ≡ key_of pattern.now }
    ensures specification { result.1.now ≡ specification_of pattern.now }
{
    pattern.split_once(':').unwrap_or((pattern, ""))
}

impl<'a> Formatter<'a> {
    /// A formatter without text for the parts of a specification.
    fn from_parts(alloc: Global, key: &'a str, pattern: &'a str, parts: Parts<'_>) -> Formatter<'a>
        ensures { result ≡ record { key = key.now; pattern = pattern.now; spec = spec_of parts.entry; text = [] } }
    {
        let (fill, align) = if parts.zero {
            ('0', Alignment::Equal)
        } else {
            (
                parts.fill.unwrap_or(' '),
                parts.align.unwrap_or(Alignment::Unspecified),
            )
        };
        Formatter {
            key,
            pattern,
            fill,
            align,
            sign: parts.sign.unwrap_or(Sign::Unspecified),
            alternate: parts.alternate,
            width: parts.width,
            thousands: parts.thousands,
            precision: parts.precision,
            ty: parts.left.first().map(|ty| char::from(*ty)),
            text: String::new(alloc),
        }
    }

    /// Reads a pattern, or tells why it is refused.
    pub(crate) fn read(alloc: Global, pattern: &'a str) -> std::result::Result<Formatter<'a>, Cause>
        ensures { IsRead pattern.now result }
    {
        let (key, specification) = split(pattern);
        let parts = parts::parse(specification);
        match first_cause(key, &parts) {
            None => Ok(Formatter::from_parts(alloc, key, pattern, parts)),
            Some(cause) => Err(cause),
        }
    }

    /// Reads a pattern, which stands between two braces of a text: a key, and after a `:` a specification.
    ///
    /// `Invalid` and `TypeError` tell the first fault.
    pub fn from_str(alloc: Global, s: &'a str) -> Result<Formatter<'a>>
        ensures { Reads s.now result }
    {
        match Formatter::read(alloc, s) {
            Ok(formatter) => Ok(formatter),
            Err(cause) => Err(cause.told(alloc)),
        }
    }

    /// The same pattern without text.
    pub(crate) fn fresh(&self, alloc: Global) -> Formatter<'a>
        ensures { result ≡ record self.now { text = [] } }
    {
        Formatter {
            key: self.key,
            pattern: self.pattern,
            fill: self.fill,
            align: self.align(),
            sign: self.sign(),
            alternate: self.alternate,
            width: self.width,
            thousands: self.thousands,
            precision: self.precision,
            ty: self.ty,
            text: String::new(alloc),
        }
    }

    /// The character that pads.
    pub fn fill(&self) -> char
        ensures { result ≡ self.now.spec.fill }
    {
        self.fill
    }

    /// Where the text stands within the width.
    pub fn align(&self) -> Alignment
        ensures { result ≡ self.now.spec.align }
    {
        match self.align {
            Alignment::Unspecified => Alignment::Unspecified,
            Alignment::Left => Alignment::Left,
            Alignment::Center => Alignment::Center,
            Alignment::Right => Alignment::Right,
            Alignment::Equal => Alignment::Equal,
        }
    }

    /// The least number of characters.
    pub fn width(&self) -> Option<usize>
        ensures { result ≡ self.now.spec.width }
    {
        self.width
    }

    /// Whether a `,` was given.
    pub fn thousands(&self) -> bool
        ensures { result ≡ self.now.spec.thousands }
    {
        self.thousands
    }

    /// The greatest number of characters of a text.
    pub fn precision(&self) -> Option<usize>
        ensures { result ≡ self.now.spec.precision }
    {
        self.precision
    }

    /// The sign that is asked for.
    pub fn sign(&self) -> Sign
        ensures { result ≡ self.now.spec.sign }
    {
        match self.sign {
            Sign::Unspecified => Sign::Unspecified,
            Sign::Plus => Sign::Plus,
            Sign::Minus => Sign::Minus,
            Sign::Space => Sign::Space,
        }
    }

    /// Whether a `+` was given.
    pub fn sign_plus(&self) -> bool
        ensures { result ≡ is_plus self.now.spec.sign }
    {
        matches!(self.sign, Sign::Plus)
    }

    /// Whether a `-` was given.
    pub fn sign_minus(&self) -> bool
        ensures { result ≡ is_minus self.now.spec.sign }
    {
        matches!(self.sign, Sign::Minus)
    }

    /// Whether a `#` was given.
    pub fn alternate(&self) -> bool
        ensures { result ≡ self.now.spec.alternate }
    {
        self.alternate
    }

    /// The type, one character of `boxXeEfF%s?`.
    pub fn ty(&self) -> Option<char>
        ensures { result ≡ self.now.spec.ty }
    {
        self.ty
    }

    /// Whether there is no type, or one of an integer.
    pub fn is_int_type(&self) -> bool
        ensures { result ≡ is_none_or_in (codes "boxX") self.now.spec.ty }
    {
        matches!(self.ty, None | Some('b' | 'o' | 'x' | 'X'))
    }

    /// Whether there is no type, or one of a floating-point number.
    pub fn is_float_type(&self) -> bool
        ensures { result ≡ is_none_or_in (codes "feE") self.now.spec.ty }
    {
        matches!(self.ty, None | Some('f' | 'e' | 'E'))
    }

    /// Sets the alignment where it is unspecified.
    pub fn set_default_align(&mut self, align: Alignment)
        ensures { self.new ≡ view_aligned align self.old }
    {
        if matches!(self.align, Alignment::Unspecified) {
            self.align = align;
        }
    }

    /// Sets the precision, in characters; None cuts nothing.
    pub fn set_precision(&mut self, precision: Option<usize>)
        ensures { self.new ≡ record self.old { spec = record self.old.spec { precision = precision } } }
    {
        self.precision = precision;
    }

    /// Appends to the text, without padding.
    pub fn write_str(&mut self, s: &str) -> Result<()>
        ensures { Appends (Ok s.now) self.old result self.new }
    {
        self.text.push_str(s)?;
        Ok(())
    }

    /// What was written so far.
    pub fn text(&self) -> &str
        ensures { result.now ≡ self.now.text }
    {
        self.text.as_str()
    }

    /// Writes the pattern as it stands in the text, in its braces.
    pub fn skip(&mut self) -> Result<()>
        ensures { Appends (Ok (codes "{" ++ self.old.pattern ++ codes "}")) self.old result self.new }
    {
        let size = self.pattern.len().saturating_add(2);
        self.text.reserve(size)?;
        self.text.push('{').unwrap();
        self.text.push_str(self.pattern).unwrap();
        self.text.push('}').unwrap();
        Ok(())
    }
}
