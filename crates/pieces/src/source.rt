// What a field of a printf format prints of a token.
ghost use Rattle.std.specs.Prelude.{◌≡◌, ◌++◌, [], IsTrue, OnErr, OnOk, string_bytes};
ghost use Rattle.sprintf.specs.Values.{arg_meaning};
ghost use Rattle.std.specs.Result.{result_unwrap_or};
ghost use Rattle.pieces.specs.Inner.Layout.{IsTokenOfSome};
ghost use Rattle.pieces.specs.Inner.Source.{IsComplement, source_meaning, source_of, decimal_source, bits_source, word_source};

use sprintf::{Arg, ConversionSpecifier, ConversionType, NumericParam, Printf, PrintfError};
use std::alloc::AllocError;
use tokens::Token;
use values::Kind;

/// What a field takes from a token.
#[derive(Clone, Copy, PartialEq, Eq)]
pub(crate) enum Source {
    /// The number, without a sign.
    Natural,
    /// The number with its sign.
    Integer,
    /// The two's complement of that number in 8 bits.
    Complement8,
    /// The same in 16 bits.
    Complement16,
    /// The same in 32 bits.
    Complement32,
    /// The same in 64 bits.
    Complement64,
    /// The text.
    Text,
}

/// What a field in decimal takes from a token of the kind.
fn decimal_source(kind: Kind) -> Option<Source>
    ensures { result ≡ decimal_source kind }
{
    match kind {
        Kind::U8 | Kind::U16 | Kind::U32 | Kind::U64 | Kind::Usize => Some(Source::Natural),
        Kind::I8 | Kind::I16 | Kind::I32 | Kind::I64 | Kind::Isize => Some(Source::Integer),
        Kind::Word | Kind::Char => None,
    }
}

/// What a field in base 8 or 16 takes from a token of the kind.
fn bits_source(kind: Kind) -> Option<Source>
    ensures { result ≡ bits_source kind }
{
    match kind {
        Kind::U8 | Kind::U16 | Kind::U32 | Kind::U64 | Kind::Usize => Some(Source::Natural),
        Kind::I8 => Some(Source::Complement8),
        Kind::I16 => Some(Source::Complement16),
        Kind::I32 => Some(Source::Complement32),
        Kind::I64 | Kind::Isize => Some(Source::Complement64),
        Kind::Word | Kind::Char => None,
    }
}

/// What a field of text takes from a token of the kind.
fn word_source(kind: Kind) -> Option<Source>
    ensures { result ≡ word_source kind }
{
    match kind {
        Kind::Word => Some(Source::Text),
        Kind::U8 | Kind::U16 | Kind::U32 | Kind::U64 | Kind::Usize => None,
        Kind::I8 | Kind::I16 | Kind::I32 | Kind::I64 | Kind::Isize => None,
        Kind::Char => None,
    }
}

/// The two's complement of a number in so many bits as `bound` is the power of two of.
fn complement(number: i64, bound: u64) -> u64
    ensures { IsComplement number bound result }
{
    if number < 0 {
        bound.saturating_sub(number.unsigned_abs())
    } else {
        number.unsigned_abs()
    }
}

impl Source {
    /// What a field of the conversion takes from a token of the kind; None where it may refuse the values of the kind.
    pub(crate) fn of(conversion: ConversionType, kind: Kind) -> Option<Source>
        ensures { result ≡ source_of conversion kind }
    {
        match conversion {
            ConversionType::DecInt => decimal_source(kind),
            ConversionType::OctInt | ConversionType::HexIntLower | ConversionType::HexIntUpper => {
                bits_source(kind)
            }
            ConversionType::String => word_source(kind),
            ConversionType::SciFloatLower | ConversionType::SciFloatUpper => None,
            ConversionType::DecFloatLower | ConversionType::DecFloatUpper => None,
            ConversionType::CompactFloatLower | ConversionType::CompactFloatUpper => None,
            ConversionType::Char | ConversionType::PercentSign => None,
        }
    }

    /// The value that the field prints.
    pub(crate) fn value<'r>(&self, row: &'r str, token: &Token) -> Arg<'r>
        requires token { IsTokenOfSome row.now token.now }
        ensures { arg_meaning result ≡ source_meaning self.now row.entry.now token.now }
    {
        let signed = token.number.cast_signed();
        match self {
            Source::Natural => Arg::U64(token.number),
            Source::Integer => Arg::I64(signed),
            Source::Complement8 => Arg::U64(complement(signed, 1 << 8)),
            Source::Complement16 => Arg::U64(complement(signed, 1 << 16)),
            Source::Complement32 => Arg::U64(complement(signed, 1 << 32)),
            Source::Complement64 => Arg::U64(signed.cast_unsigned()),
            Source::Text => Arg::Str(&row[token.start..token.end]),
        }
    }
}

/// Appends what the field prints of a value; nothing where it refuses the value.
pub(crate) fn append_printed(
    value: &Arg<'_>,
    field: &ConversionSpecifier,
    out: &mut String,
) -> Result<(), AllocError>
    ensures ok { OnOk result (string_bytes out.new ≡ string_bytes out.old ++ result_unwrap_or ((arg_meaning value.now).text field.now) []) }
    ensures unchanged { OnErr result (string_bytes out.new ≡ string_bytes out.old) }
{
    let alloc = *out.allocator();
    match value.format_into(alloc, field, out) {
        Ok(()) => Ok(()),
        Err(PrintfError::NoMemory) => Err(AllocError),
        Err(_) => Ok(()),
    }
}

/// Whether both are the same number.
fn is_same_number(one: NumericParam, other: NumericParam) -> bool
    ensures { IsTrue result → one ≡ other }
{
    let NumericParam::Literal(number) = one else {
        return false;
    };
    let NumericParam::Literal(other) = other else {
        return false;
    };
    number == other
}

/// Whether both fields are the same, and take one value.
pub(crate) fn is_same_field(one: &ConversionSpecifier, other: &ConversionSpecifier) -> bool
    ensures { IsTrue result → one.now ≡ other.now }
{
    if one.conversion_type != other.conversion_type {
        return false;
    }
    if one.alt_form != other.alt_form || one.zero_pad != other.zero_pad {
        return false;
    }
    if one.left_adj != other.left_adj || one.space_sign != other.space_sign {
        return false;
    }
    if one.force_sign != other.force_sign {
        return false;
    }
    is_same_number(one.width, other.width) && is_same_number(one.precision, other.precision)
}
