// The rows of the table.
ghost use Rattle.std.specs.Prelude.{◌≡◌};
ghost use Rattle.translation.specs.Table.{row_of};
ghost use Rattle.row_format.specs.Columns.{width_of};

use sprintf::parser::{ConversionSpecifier, NumericParam};

/// How a field is laid out: the row of its conversion in the table.
#[derive(Clone, Copy, Debug, PartialEq, Eq)]
pub(crate) enum Row {
    /// The width never pads.
    Unpadded,
    /// The field has `-`.
    ToLeft,
    /// The field has `0`, and no `-`.
    ByZeros,
    /// The field has neither.
    ToRight,
}

impl Row {
    /// The row of a field whose text has at least `least` bytes without padding.
    pub(crate) fn of(field: &ConversionSpecifier, least: u32) -> Row
        ensures { result ≡ row_of least field.now }
    {
        if width(field) <= least {
            Row::Unpadded
        } else if field.left_adj {
            Row::ToLeft
        } else if field.zero_pad {
            Row::ByZeros
        } else {
            Row::ToRight
        }
    }
}

/// The width of a field; a negative one is 0.
pub(crate) fn width(field: &ConversionSpecifier) -> u32
    ensures { result ≡ width_of field.now }
{
    match field.width {
        NumericParam::Literal(width) => u32::try_from(width).unwrap_or(0),
        NumericParam::FromArgument => 0,
    }
}
