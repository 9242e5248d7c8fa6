// Which conversions go with which kinds.
ghost use Rattle.std.specs.Prelude.{◌≡◌, ◌↔◌, IsTrue, pos};
ghost use Rattle.row_format.specs.Plannable.{is_number, is_signed, Converts, IsPaired, IsUnpaired, IsLossy};

use row_format::RowField;
use sprintf::parser::{ConversionType, NumericParam};
use values::Kind;

pub fn is_number(kind: Kind) -> bool
    ensures { result ≡ is_number kind }
{
    !matches!(kind, Kind::Word | Kind::Char)
}

pub fn is_signed(kind: Kind) -> bool
    ensures { result ≡ is_signed kind }
{
    matches!(
        kind,
        Kind::I8 | Kind::I16 | Kind::I32 | Kind::I64 | Kind::Isize
    )
}

fn converts(conversion: ConversionType, kind: Kind) -> bool
    ensures { IsTrue result ↔ Converts conversion kind }
{
    match conversion {
        ConversionType::DecInt
        | ConversionType::OctInt
        | ConversionType::HexIntLower
        | ConversionType::HexIntUpper => is_number(kind),
        ConversionType::String => kind == Kind::Word,
        ConversionType::Char => kind == Kind::Char,
        _ => false,
    }
}

fn is_paired(column: &RowField, kind: Kind) -> bool
    ensures { IsTrue result ↔ IsPaired column.now kind }
{
    let field = column.field();
    converts(field.conversion_type, kind)
        && field.width != NumericParam::FromArgument
        && field.precision != NumericParam::FromArgument
}

/// Whether the column in front doesn't go with its kind, or has none, or a kind is left without a column.
pub fn is_unpaired(columns: &[RowField], kinds: &[Kind]) -> bool
    ensures { IsTrue result ↔ IsUnpaired columns.now kinds.now }
{
    match (columns, kinds) {
        ([column, ..], [kind, ..]) => !is_paired(column, *kind),
        ([], []) => false,
        _ => true,
    }
}

/// Whether a word stands in front that its precision may cut.
pub fn is_lossy(columns: &[RowField], kinds: &[Kind]) -> bool
    ensures { IsTrue result ↔ IsLossy columns.now kinds.now }
{
    match (columns, kinds) {
        ([column, ..], [Kind::Word, ..]) => {
            column.field().precision != NumericParam::Literal(i32::MAX)
        }
        _ => false,
    }
}
