// A value to print, of any carried kind.
use crate::field::{
    append_char, append_code, append_i8, append_signed, append_u8, append_unsigned, append_word,
};
use crate::{ConversionSpecifier, Printf, Result};
use std::alloc::Global;

/// A value to print: what `sprintf!` makes of each of its arguments.
#[derive(Debug, Clone, PartialEq, Drop)]
pub enum Arg<'a> {
    U8(u8),
    U16(u16),
    U32(u32),
    U64(u64),
    Usize(usize),
    I8(i8),
    I16(i16),
    I32(i32),
    I64(i64),
    Isize(isize),
    Char(char),
    Str(&'a str),
}

impl<'a> From<u8> for Arg<'a> {
    ghost use Rattle.std.specs.Prelude.{◌≡◌};
    ghost use Rattle.sprintf.specs.declared.arg.Arg.TheVariants.{U8};

    ghost from_gives = { λ value arg. arg ≡ U8 value };

    fn from(value: u8) -> Arg<'a> {
        Arg::U8(value)
    }
}

impl<'a> From<u16> for Arg<'a> {
    ghost use Rattle.std.specs.Prelude.{◌≡◌};
    ghost use Rattle.sprintf.specs.declared.arg.Arg.TheVariants.{U16};

    ghost from_gives = { λ value arg. arg ≡ U16 value };

    fn from(value: u16) -> Arg<'a> {
        Arg::U16(value)
    }
}

impl<'a> From<u32> for Arg<'a> {
    ghost use Rattle.std.specs.Prelude.{◌≡◌};
    ghost use Rattle.sprintf.specs.declared.arg.Arg.TheVariants.{U32};

    ghost from_gives = { λ value arg. arg ≡ U32 value };

    fn from(value: u32) -> Arg<'a> {
        Arg::U32(value)
    }
}

impl<'a> From<u64> for Arg<'a> {
    ghost use Rattle.std.specs.Prelude.{◌≡◌};
    ghost use Rattle.sprintf.specs.declared.arg.Arg.TheVariants.{U64};

    ghost from_gives = { λ value arg. arg ≡ U64 value };

    fn from(value: u64) -> Arg<'a> {
        Arg::U64(value)
    }
}

impl<'a> From<usize> for Arg<'a> {
    ghost use Rattle.std.specs.Prelude.{◌≡◌};
    ghost use Rattle.sprintf.specs.declared.arg.Arg.TheVariants.{Usize};

    ghost from_gives = { λ value arg. arg ≡ Usize value };

    fn from(value: usize) -> Arg<'a> {
        Arg::Usize(value)
    }
}

impl<'a> From<i8> for Arg<'a> {
    ghost use Rattle.std.specs.Prelude.{◌≡◌};
    ghost use Rattle.sprintf.specs.declared.arg.Arg.TheVariants.{I8};

    ghost from_gives = { λ value arg. arg ≡ I8 value };

    fn from(value: i8) -> Arg<'a> {
        Arg::I8(value)
    }
}

impl<'a> From<i16> for Arg<'a> {
    ghost use Rattle.std.specs.Prelude.{◌≡◌};
    ghost use Rattle.sprintf.specs.declared.arg.Arg.TheVariants.{I16};

    ghost from_gives = { λ value arg. arg ≡ I16 value };

    fn from(value: i16) -> Arg<'a> {
        Arg::I16(value)
    }
}

impl<'a> From<i32> for Arg<'a> {
    ghost use Rattle.std.specs.Prelude.{◌≡◌};
    ghost use Rattle.sprintf.specs.declared.arg.Arg.TheVariants.{I32};

    ghost from_gives = { λ value arg. arg ≡ I32 value };

    fn from(value: i32) -> Arg<'a> {
        Arg::I32(value)
    }
}

impl<'a> From<i64> for Arg<'a> {
    ghost use Rattle.std.specs.Prelude.{◌≡◌};
    ghost use Rattle.sprintf.specs.declared.arg.Arg.TheVariants.{I64};

    ghost from_gives = { λ value arg. arg ≡ I64 value };

    fn from(value: i64) -> Arg<'a> {
        Arg::I64(value)
    }
}

impl<'a> From<isize> for Arg<'a> {
    ghost use Rattle.std.specs.Prelude.{◌≡◌};
    ghost use Rattle.sprintf.specs.declared.arg.Arg.TheVariants.{Isize};

    ghost from_gives = { λ value arg. arg ≡ Isize value };

    fn from(value: isize) -> Arg<'a> {
        Arg::Isize(value)
    }
}

impl<'a> From<char> for Arg<'a> {
    ghost use Rattle.std.specs.Prelude.{◌≡◌};
    ghost use Rattle.sprintf.specs.declared.arg.Arg.TheVariants.{Char};

    ghost from_gives = { λ value arg. arg ≡ Char value };

    fn from(value: char) -> Arg<'a> {
        Arg::Char(value)
    }
}

impl<'a> From<&'a str> for Arg<'a> {
    ghost use Rattle.sprintf.specs.Values.{IsText};

    ghost from_gives = { λ text arg. IsText arg text.now };

    fn from(text: &'a str) -> Arg<'a> {
        Arg::Str(text)
    }
}

impl<'a> From<&'a String> for Arg<'a> {
    ghost use Rattle.std.specs.Prelude.{string_bytes};
    ghost use Rattle.sprintf.specs.Values.{IsText};

    ghost from_gives = { λ text arg. IsText arg (string_bytes text.now) };

    fn from(text: &'a String) -> Arg<'a> {
        Arg::Str(text.as_str())
    }
}

impl<'a> Printf for Arg<'a> {
    ghost use Rattle.sprintf.specs.Values.{arg_meaning};

    ghost meaning = { arg_meaning };

    fn format(&self, alloc: Global, spec: &ConversionSpecifier) -> Result<String> {
        let mut text = String::new(alloc);
        self.format_into(alloc, spec, &mut text)?;
        Ok(text)
    }

    #[inline]
    fn format_into(
        &self,
        alloc: Global,
        spec: &ConversionSpecifier,
        out: &mut String,
    ) -> Result<()> {
        let _ = alloc;
        match self {
            Arg::U8(n) => append_u8(spec, *n, out),
            Arg::U16(n) => append_code(spec, u32::from(*n), out),
            Arg::U32(n) => append_code(spec, *n, out),
            Arg::U64(n) => append_unsigned(spec, *n, out),
            Arg::Usize(n) => append_unsigned(spec, *n as u64, out),
            Arg::I8(n) => append_i8(spec, *n, out),
            Arg::I16(n) => append_signed(spec, i64::from(*n), u64::from(n.cast_unsigned()), out),
            Arg::I32(n) => append_signed(spec, i64::from(*n), u64::from(n.cast_unsigned()), out),
            Arg::I64(n) => append_signed(spec, *n, n.cast_unsigned(), out),
            Arg::Isize(n) => append_signed(spec, *n as i64, n.cast_unsigned() as u64, out),
            Arg::Char(c) => append_char(spec, *c, out),
            Arg::Str(word) => append_word(spec, word, out),
        }
    }

    fn as_int(&self) -> Option<i32> {
        match self {
            Arg::U8(value) => value.as_int(),
            Arg::U16(value) => value.as_int(),
            Arg::U32(value) => value.as_int(),
            Arg::U64(value) => value.as_int(),
            Arg::Usize(value) => value.as_int(),
            Arg::I8(value) => value.as_int(),
            Arg::I16(value) => value.as_int(),
            Arg::I32(value) => value.as_int(),
            Arg::I64(value) => value.as_int(),
            Arg::Isize(value) => value.as_int(),
            Arg::Char(_) | Arg::Str(_) => None,
        }
    }
}
