// Values in the templates of strfmt and formatx.
ghost use Rattle.values.specs.Templates.{value_display, value_format};

use crate::Value;
use formatx::{DebugStyle, FormatValue, Shape};
use std::result::Result;
use strfmt::{DisplayStr, Formatter};

impl DisplayStr for Value {
    ghost meaning = { value_display };

    fn display_str(&self, f: &mut Formatter<'_>) -> strfmt::Result<()> {
        match self {
            Value::U8(number) => number.display_str(f),
            Value::U16(number) => number.display_str(f),
            Value::U32(number) => number.display_str(f),
            Value::U64(number) => number.display_str(f),
            Value::Usize(number) => number.display_str(f),
            Value::I8(number) => number.display_str(f),
            Value::I16(number) => number.display_str(f),
            Value::I32(number) => number.display_str(f),
            Value::I64(number) => number.display_str(f),
            Value::Isize(number) => number.display_str(f),
            Value::Word(word) => word.as_str().display_str(f),
            Value::Char(character) => character.display_str(f),
        }
    }
}

impl FormatValue for Value {
    ghost meaning = { value_format };

    fn display(&self, out: &mut String) -> Result<(), formatx::Error> {
        match self {
            Value::U8(number) => number.display(out),
            Value::U16(number) => number.display(out),
            Value::U32(number) => number.display(out),
            Value::U64(number) => number.display(out),
            Value::Usize(number) => number.display(out),
            Value::I8(number) => number.display(out),
            Value::I16(number) => number.display(out),
            Value::I32(number) => number.display(out),
            Value::I64(number) => number.display(out),
            Value::Isize(number) => number.display(out),
            Value::Word(word) => word.as_str().display(out),
            Value::Char(character) => character.display(out),
        }
    }

    fn debug(&self, style: DebugStyle, out: &mut String) -> Result<(), formatx::Error> {
        match self {
            Value::U8(number) => number.debug(style, out),
            Value::U16(number) => number.debug(style, out),
            Value::U32(number) => number.debug(style, out),
            Value::U64(number) => number.debug(style, out),
            Value::Usize(number) => number.debug(style, out),
            Value::I8(number) => number.debug(style, out),
            Value::I16(number) => number.debug(style, out),
            Value::I32(number) => number.debug(style, out),
            Value::I64(number) => number.debug(style, out),
            Value::Isize(number) => number.debug(style, out),
            Value::Word(word) => word.as_str().debug(style, out),
            Value::Char(character) => character.debug(style, out),
        }
    }

    fn display_shape(&self) -> Shape {
        match self {
            Value::U8(_) => Shape::Integer,
            Value::U16(_) => Shape::Integer,
            Value::U32(_) => Shape::Integer,
            Value::U64(_) => Shape::Integer,
            Value::Usize(_) => Shape::Integer,
            Value::I8(_) => Shape::Integer,
            Value::I16(_) => Shape::Integer,
            Value::I32(_) => Shape::Integer,
            Value::I64(_) => Shape::Integer,
            Value::Isize(_) => Shape::Integer,
            Value::Word(_) => Shape::Text,
            Value::Char(_) => Shape::Text,
        }
    }

    fn debug_shape(&self) -> Shape {
        match self {
            Value::U8(_) => Shape::Integer,
            Value::U16(_) => Shape::Integer,
            Value::U32(_) => Shape::Integer,
            Value::U64(_) => Shape::Integer,
            Value::Usize(_) => Shape::Integer,
            Value::I8(_) => Shape::Integer,
            Value::I16(_) => Shape::Integer,
            Value::I32(_) => Shape::Integer,
            Value::I64(_) => Shape::Integer,
            Value::Isize(_) => Shape::Integer,
            Value::Word(_) => Shape::Raw,
            Value::Char(_) => Shape::Raw,
        }
    }
}
