// What a field's text may be, and how it is taken.
ghost use Rattle.std.specs.Prelude.{◌≡◌, IfSome, IsUtf8, Some, true, false};
ghost use Rattle.sprintf.specs.Field.{number_of};
ghost use Rattle.columns.specs.Inner.Serves.{conversion_of, Serves, IsFilledByZeros, IsGreatest, IsGreatestSigned, IsStop};
ghost use Rattle.columns.specs.Inner.Shapes.{IsTaken};

use crate::hexadecimal::{Form, Notation, bounds_of, prefix_len, take_bits};
use crate::integer::take_integer;
use crate::number::{take_filled, take_natural};
use crate::word::{LONGEST, take_word};
use numerals::numeral_of_value;
use row_format::RowField;
use sprintf::{ConversionSpecifier, ConversionType, NumericParam};
use values::Kind;

/// What a field's text may be.
#[derive(Clone, Copy)]
pub(crate) enum Take {
    /// A number of at most this, as numbers are printed in decimal.
    Natural {
        greatest: u64,
    },
    /// Such a number, filled with zeros to the width; at most so many digits are looked at, since another field's may follow.
    Filled {
        greatest: u64,
        width: usize,
        most: usize,
    },
    /// A number of at most this, or a negative one of at least its complement, with `+` in front where that is printed.
    Integer {
        greatest: u64,
        plus: bool,
    },
    /// A number by its bits.
    Bits(Form),
    /// A word without this byte, which is ASCII: the stop character, else a line feed.
    Word {
        stop: u8,
    },
}

// The greatest number of a kind without signs.
fn greatest_of(kind: Kind) -> Option<u64>
    ensures { IfSome result (IsGreatest kind) }
{
    match kind {
        Kind::U8 => Some(255),
        Kind::U16 => Some(65_535),
        Kind::U32 => Some(4_294_967_295),
        Kind::U64 | Kind::Usize => Some(u64::MAX),
        _ => None,
    }
}

// The greatest number of a kind with signs.
fn greatest_signed(kind: Kind) -> Option<u64>
    ensures { IfSome result (IsGreatestSigned kind) }
{
    match kind {
        Kind::I8 => Some(127),
        Kind::I16 => Some(32_767),
        Kind::I32 => Some(2_147_483_647),
        Kind::I64 | Kind::Isize => Some(9_223_372_036_854_775_807),
        _ => None,
    }
}

// A width or a precision, where it is a number.
fn number_in(param: NumericParam) -> Option<usize>
    ensures { IfSome result (λ number. number_of param ≡ Some number) }
{
    match param {
        NumericParam::Literal(number) => Some(usize::try_from(number).unwrap_or(0)),
        NumericParam::FromArgument => None,
    }
}

// Whether zeros fill the field to its width.
fn is_filled(field: &ConversionSpecifier) -> bool
    ensures { result ≡ true → (field.now.zero_pad ≡ true) × (field.now.left_adj ≡ false) }
{
    field.zero_pad && !field.left_adj
}

// How many digits a field has at most that zeros fill to the width.
fn most_digits(greatest: u64, base: u64, width: usize) -> usize {
    match greatest.checked_ilog(base) {
        Some(log) => width.max(usize::try_from(log).unwrap_or(0).saturating_add(1)),
        None => width.max(1),
    }
}

// How the fields of a decimal conversion are taken that zeros fill to their widths.
fn filled_take(field: &RowField, kind: Kind) -> Option<Take>
    requires { field.now.field.conversion_type ≡ ConversionType.DecInt }
    ensures { IfSome result (λ take. Serves field.now.field kind field.now.after take) }
{
    numeral_of_value();
    if !is_filled(field.field()) {
        return None;
    }
    let greatest = greatest_of(kind)?;
    let width = number_in(field.field().width)?;
    Some(Take::Filled {
        greatest,
        width,
        most: most_digits(greatest, 10, width),
    })
}

// How the fields of a decimal conversion are taken over kinds with signs.
fn signed_take(field: &RowField, kind: Kind) -> Option<Take>
    requires { field.now.field.conversion_type ≡ ConversionType.DecInt }
    ensures { IfSome result (λ take. Serves field.now.field kind field.now.after take) }
{
    numeral_of_value();
    let spec = *field.field();
    if number_in(spec.width)? != 0 {
        return None;
    }
    if spec.space_sign {
        return None;
    }
    Some(Take::Integer {
        greatest: greatest_signed(kind)?,
        plus: spec.force_sign,
    })
}

// Whether numbers of the kind have signs.
fn is_signed(kind: Kind) -> bool {
    match kind {
        Kind::I8 | Kind::I16 | Kind::I32 | Kind::I64 | Kind::Isize => true,
        _ => false,
    }
}

// How the fields of a decimal conversion are taken.
fn decimal_take(field: &RowField, kind: Kind) -> Option<Take>
    requires { field.now.field.conversion_type ≡ ConversionType.DecInt }
    ensures { IfSome result (λ take. Serves field.now.field kind field.now.after take) }
{
    numeral_of_value();
    if number_in(field.field().width)? != 0 {
        return filled_take(field, kind);
    }
    Some(Take::Natural {
        greatest: greatest_of(kind)?,
    })
}

// Whether the field has no room to fill, or zeros fill it.
fn is_filled_by_zeros(field: &ConversionSpecifier, width: usize) -> bool
    ensures { result ≡ true → IsFilledByZeros field.now width }
{
    if width == 0 {
        return true;
    }
    is_filled(field)
}

// How the fields of a conversion are taken that tells the bits of numbers.
fn bits_take(field: &RowField, kind: Kind, notation: Notation) -> Option<Take>
    requires { field.now.field.conversion_type ≡ conversion_of notation }
    ensures { IfSome result (λ take. Serves field.now.field kind field.now.after take) }
{
    numeral_of_value();
    let spec = field.field();
    let width = number_in(spec.width)?;
    if !is_filled_by_zeros(spec, width) {
        return None;
    }
    let (greatest, middle) = bounds_of(kind)?;
    let width = width.saturating_sub(prefix_len(notation, spec.alt_form));
    Some(Take::Bits(Form {
        notation,
        prefix: spec.alt_form,
        width,
        most: most_digits(greatest, notation.base(), width),
        greatest,
        middle,
    }))
}

// The byte in front of which a word ends, if that is ASCII.
fn stop_of(after: &str) -> Option<u8>
    ensures { IfSome result (IsStop after.now) }
{
    match after.as_bytes() {
        [] => Some(b'\n'),
        [first @ 0..=127, ..] => Some(*first),
        _ => None,
    }
}

// How the fields of words are taken.
fn word_take(field: &RowField, kind: Kind) -> Option<Take>
    requires { field.now.field.conversion_type ≡ ConversionType.String }
    ensures { IfSome result (λ take. Serves field.now.field kind field.now.after take) }
{
    let Kind::Word = kind else {
        return None;
    };
    if number_in(field.field().width)? != 0 {
        return None;
    }
    if number_in(field.field().precision)? != LONGEST {
        return None;
    }
    Some(Take::Word {
        stop: stop_of(field.after())?,
    })
}

impl Take {
    /// The way of taking that serves the field, if there is one.
    pub(crate) fn of(field: &RowField, kind: Kind) -> Option<Take>
        ensures { IfSome result (λ take. Serves field.now.field kind field.now.after take) }
    {
        match field.field().conversion_type {
            ConversionType::DecInt => {
                if is_signed(kind) {
                    signed_take(field, kind)
                } else {
                    decimal_take(field, kind)
                }
            }
            ConversionType::OctInt => bits_take(field, kind, Notation::Octal),
            ConversionType::HexIntLower => bits_take(field, kind, Notation::Lower),
            ConversionType::HexIntUpper => bits_take(field, kind, Notation::Upper),
            ConversionType::String => word_take(field, kind),
            _ => None,
        }
    }

    /// The number in front, and what stands behind its text.
    #[inline(always)]
    pub(crate) fn take(self, text: &[u8]) -> Option<(u64, &[u8])>
        requires { IsUtf8 text.now }
        ensures { IfSome result (λ found. IsTaken self text.now found.0 found.1.now) }
    {
        match self {
            Take::Natural { greatest } => take_natural(text, greatest),
            Take::Filled {
                greatest,
                width,
                most,
            } => take_filled(text, greatest, width, most),
            Take::Integer { greatest, plus } => take_integer(text, greatest, plus),
            Take::Bits(form) => take_bits(text, form),
            Take::Word { stop } => take_word(text, stop),
        }
    }
}
