// Values, and how they print.
ghost use Rattle.std.specs.Prelude.{◌≡◌};
ghost use Rattle.values.specs.Datum.{kind_of, datum_of, value_meaning};

use crate::{Kind, Word};
use sprintf::parser::ConversionSpecifier;
use sprintf::{Printf, Result};
use std::alloc::Global;

/// A value of one of the kinds. It prints as what it holds; a word is a text.
#[derive(Debug, PartialEq, Eq, Drop)]
pub enum Value {
    U8(u8),
    U16(u16),
    U32(u32),
    U64(u64),
    Usize(usize),
    I8(i8),
    I16(i16),
    I32(i32),
    I64(i64),
    Isize(isize),
    Word(Word),
    Char(char),
}

impl Value {
    pub fn kind(&self) -> Kind
        ensures { result ≡ kind_of self.now }
    {
        match self {
            Value::U8(_) => Kind::U8,
            Value::U16(_) => Kind::U16,
            Value::U32(_) => Kind::U32,
            Value::U64(_) => Kind::U64,
            Value::Usize(_) => Kind::Usize,
            Value::I8(_) => Kind::I8,
            Value::I16(_) => Kind::I16,
            Value::I32(_) => Kind::I32,
            Value::I64(_) => Kind::I64,
            Value::Isize(_) => Kind::Isize,
            Value::Word(_) => Kind::Word,
            Value::Char(_) => Kind::Char,
        }
    }
}

impl Printf for Value {
    ghost meaning = { value_meaning };

    fn format(&self, alloc: Global, spec: &ConversionSpecifier) -> Result<String> {
        match self {
            Value::U8(number) => number.format(alloc, spec),
            Value::U16(number) => number.format(alloc, spec),
            Value::U32(number) => number.format(alloc, spec),
            Value::U64(number) => number.format(alloc, spec),
            Value::Usize(number) => number.format(alloc, spec),
            Value::I8(number) => number.format(alloc, spec),
            Value::I16(number) => number.format(alloc, spec),
            Value::I32(number) => number.format(alloc, spec),
            Value::I64(number) => number.format(alloc, spec),
            Value::Isize(number) => number.format(alloc, spec),
            Value::Word(word) => word.as_str().format(alloc, spec),
            Value::Char(character) => character.format(alloc, spec),
        }
    }

    fn format_into(
        &self,
        alloc: Global,
        spec: &ConversionSpecifier,
        out: &mut String,
    ) -> Result<()> {
        match self {
            Value::U8(number) => number.format_into(alloc, spec, out),
            Value::U16(number) => number.format_into(alloc, spec, out),
            Value::U32(number) => number.format_into(alloc, spec, out),
            Value::U64(number) => number.format_into(alloc, spec, out),
            Value::Usize(number) => number.format_into(alloc, spec, out),
            Value::I8(number) => number.format_into(alloc, spec, out),
            Value::I16(number) => number.format_into(alloc, spec, out),
            Value::I32(number) => number.format_into(alloc, spec, out),
            Value::I64(number) => number.format_into(alloc, spec, out),
            Value::Isize(number) => number.format_into(alloc, spec, out),
            Value::Word(word) => word.as_str().format_into(alloc, spec, out),
            Value::Char(character) => character.format_into(alloc, spec, out),
        }
    }

    fn as_int(&self) -> Option<i32> {
        match self {
            Value::U8(number) => number.as_int(),
            Value::U16(number) => number.as_int(),
            Value::U32(number) => number.as_int(),
            Value::U64(number) => number.as_int(),
            Value::Usize(number) => number.as_int(),
            Value::I8(number) => number.as_int(),
            Value::I16(number) => number.as_int(),
            Value::I32(number) => number.as_int(),
            Value::I64(number) => number.as_int(),
            Value::Isize(number) => number.as_int(),
            Value::Word(_) | Value::Char(_) => None,
        }
    }
}
