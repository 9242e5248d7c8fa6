// The table: which field in braces stands for a printf field.
ghost use Rattle.std.specs.Prelude.{false, ◌≡◌, ◌≤◌, ℕ, length, option_map, Some};
ghost use Rattle.numerals.specs.Numeral.{numeral};
ghost use Rattle.sprintf.specs.Field.{number_of};
ghost use Rattle.row_format.specs.Plannable.{is_signed};
ghost use Rattle.translation.specs.Table.{decimal_field, has_space, in_braces, least_length, lettered_field, precision_text as table_precision, prefix_in, sign_in, suits, text_options, translated_field};
ghost use Rattle.translation.specs.Inner.Options.{field_text, letters_text, plus_text, precision_text};
ghost use Rattle.translation.specs.Inner.Plans.{based_plan, decimal_plan, text_plan};

use crate::Target;
use crate::field::Field;
use crate::options::{Letters, Options, Side};
use crate::row::{Row, width};
use sprintf::parser::{ConversionSpecifier, ConversionType, NumericParam};
use values::Kind;

/// Whether the numbers of the kind have signs.
fn is_signed(kind: Kind) -> bool
    ensures { result ≡ is_signed kind }
{
    match kind {
        Kind::I8 | Kind::I16 | Kind::I32 | Kind::I64 | Kind::Isize => true,
        Kind::U8 | Kind::U16 | Kind::U32 | Kind::U64 | Kind::Usize | Kind::Word | Kind::Char =>
            false,
    }
}

/// Whether the conversion is one of the kind's.
fn suits(conversion: ConversionType, kind: Kind) -> bool
    ensures { result ≡ suits conversion kind }
{
    match conversion {
        ConversionType::DecInt
        | ConversionType::OctInt
        | ConversionType::HexIntLower
        | ConversionType::HexIntUpper => !matches!(kind, Kind::Word | Kind::Char),
        ConversionType::String => matches!(kind, Kind::Word),
        ConversionType::Char => matches!(kind, Kind::Char),
        _ => false,
    }
}

/// The prefix of the field's digits.
fn prefix(field: &ConversionSpecifier) -> &'static str
    ensures text { result.now ≡ prefix_in field.now }
    ensures short { length result.now ≤ 2 }
{
    match field.conversion_type {
        ConversionType::OctInt if field.alt_form => "0",
        ConversionType::HexIntLower if field.alt_form => "0x",
        ConversionType::HexIntUpper if field.alt_form => "0X",
        _ => "",
    }
}

/// The options of a decimal field.
fn decimal(target: Target, row: Row, plus: bool, width: u32) -> Option<Options>
    ensures { result ≡ decimal_plan target row plus width }
{
    match target {
        Target::Formatx => Some(formatx_decimal(row, plus, width)),
        Target::Strfmt => strfmt_decimal(row, plus, width),
    }
}

/// The options of a decimal field in formatx.
fn formatx_decimal(row: Row, plus: bool, width: u32) -> Options
    ensures { Some result ≡ decimal_plan Target.Formatx row plus width }
{
    let padded = Options {
        plus,
        width: Some(width),
        ..Options::NONE
    };
    match row {
        Row::Unpadded => Options {
            plus,
            ..Options::NONE
        },
        Row::ToLeft => Options {
            side: Side::Left,
            ..padded
        },
        Row::ByZeros => Options {
            zero: true,
            ..padded
        },
        Row::ToRight => Options {
            side: Side::Right,
            ..padded
        },
    }
}

/// The options of a decimal field in strfmt, whose width doesn't count a plus.
fn strfmt_decimal(row: Row, plus: bool, width: u32) -> Option<Options>
    ensures { result ≡ decimal_plan Target.Strfmt row plus width }
{
    let side = match row {
        Row::Unpadded => {
            return Some(Options {
                plus,
                ..Options::NONE
            });
        }
        Row::ByZeros => return None,
        Row::ToLeft => Side::Left,
        Row::ToRight => Side::Right,
    };
    if plus {
        return None;
    }
    Some(Options {
        side,
        width: Some(width),
        ..Options::NONE
    })
}

/// The options of a field in base 16 or 8: its padding stands between its prefix and its digits, or there is no prefix.
fn based(target: Target, row: Row, letters: Letters, prefix: u32, width: u32) -> Option<Options>
    ensures { result ≡ based_plan target row letters prefix width }
{
    let padded = Options {
        width: Some(width.saturating_sub(prefix)),
        letters,
        ..Options::NONE
    };
    match (row, target) {
        (Row::Unpadded, _) => Some(Options {
            letters,
            ..Options::NONE
        }),
        (Row::ToLeft, _) => Some(Options {
            side: Side::Left,
            ..padded
        }),
        (Row::ByZeros, Target::Formatx) => Some(Options {
            side: Side::RightOfZeros,
            ..padded
        }),
        (Row::ByZeros, Target::Strfmt) => None,
        (Row::ToRight, _) if prefix == 0 => Some(Options {
            side: Side::Right,
            ..padded
        }),
        (Row::ToRight, _) => None,
    }
}

/// The options of a word or a character.
fn text(row: Row, width: u32, precision: Option<u32>) -> Options
    ensures { result ≡ text_plan row width precision }
{
    let cut = Options {
        precision,
        ..Options::NONE
    };
    match row {
        Row::Unpadded => cut,
        Row::ToLeft => Options {
            side: Side::Left,
            width: Some(width),
            ..cut
        },
        Row::ByZeros | Row::ToRight => Options {
            side: Side::Right,
            width: Some(width),
            ..cut
        },
    }
}

/// Whether the field writes a plus.
fn plus(field: &ConversionSpecifier, kind: Kind) -> bool
    ensures { plus_text result ≡ sign_in field.now kind }
{
    matches!(field.conversion_type, ConversionType::DecInt) && is_signed(kind) && field.force_sign
}

/// The least length of a number's text: one digit, the prefix, and the sign.
fn least_length(field: &ConversionSpecifier, kind: Kind) -> u32
    ensures { result ≡ least_length field.now kind }
{
    let plus = if plus(field, kind) { 1 } else { 0 };
    1 + prefix(field).len() as u32 + plus
}

/// Whether a space would be the sign of the field.
fn has_space(field: &ConversionSpecifier, kind: Kind) -> bool
    ensures { result ≡ has_space field.now kind }
{
    is_signed(kind) && field.space_sign && !field.force_sign
}

/// The options of a decimal field; a sign can't be a space.
fn decimal_field(target: Target, field: &ConversionSpecifier, kind: Kind) -> Option<Field>
    ensures { (i : ℕ) → option_map (field_text target i) result ≡ decimal_field target i field.now kind }
{
    if has_space(field, kind) {
        return None;
    }
    let row = Row::of(field, least_length(field, kind));
    let options = decimal(target, row, plus(field, kind), width(field))?;
    Some(Field {
        prefix: "",
        options,
    })
}

/// A field in base 16 or 8, behind its prefix.
fn lettered_field(
    target: Target,
    field: &ConversionSpecifier,
    kind: Kind,
    letters: Letters,
) -> Option<Field>
    ensures { (i : ℕ) → option_map (field_text target i) result ≡ lettered_field target i field.now kind (letters_text target letters) }
{
    let row = Row::of(field, least_length(field, kind));
    let prefix = prefix(field);
    let options = based(target, row, letters, prefix.len() as u32, width(field))?;
    Some(Field { prefix, options })
}

/// A field of a word or a character, which has no prefix.
#[tactic(auto, using(crate::proofs::Written::text_written))]
fn text_field(row: Row, width: u32, precision: Option<u32>) -> Field
    ensures { (i : ℕ) (target : Target) → field_text target i result ≡ in_braces i (text_options row (numeral 10 false width) (precision_text precision)) }
{
    Field {
        prefix: "",
        options: text(row, width, precision),
    }
}

/// The precision of a word, unless it cuts nothing; a negative one is 0.
fn precision(field: &ConversionSpecifier) -> Option<u32>
    ensures { precision_text result ≡ table_precision (number_of field.now.precision) }
{
    match field.precision {
        NumericParam::Literal(i32::MAX) | NumericParam::FromArgument => None,
        NumericParam::Literal(precision) => Some(u32::try_from(precision).unwrap_or(0)),
    }
}

/// The field in braces for a printf field over a value of the kind.
pub(crate) fn translate_field(
    target: Target,
    field: &ConversionSpecifier,
    kind: Kind,
) -> Option<Field>
    ensures { (i : ℕ) → option_map (field_text target i) result ≡ translated_field target i field.now kind }
{
    let goes_with = suits(field.conversion_type, kind)
        && !matches!(field.width, NumericParam::FromArgument)
        && !matches!(field.precision, NumericParam::FromArgument);
    if !goes_with {
        return None;
    }
    match field.conversion_type {
        ConversionType::DecInt => decimal_field(target, field, kind),
        ConversionType::HexIntLower => lettered_field(target, field, kind, Letters::LowerHex),
        ConversionType::HexIntUpper => lettered_field(target, field, kind, Letters::UpperHex),
        ConversionType::OctInt => match target {
            Target::Strfmt => lettered_field(target, field, kind, Letters::Octal),
            Target::Formatx => None,
        },
        ConversionType::String => {
            Some(text_field(Row::of(field, 0), width(field), precision(field)))
        }
        ConversionType::Char => Some(text_field(Row::of(field, 1), width(field), None)),
        _ => None,
    }
}
