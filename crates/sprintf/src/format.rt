// Printing of values: the trait, and its carried types.
ghost use Rattle.std.specs.Prelude.{◌≡◌, string_bytes};
ghost use Rattle.numerals.specs.Answer.{IsAnswer, AppendsAnswer};

use crate::{Arg, ConversionSpecifier, PrintfError, Result};
use std::alloc::Global;

/// A value that a format can print.
///
/// Implemented for the integers of up to 64 bits, `char`, `&str`, `String`, [`crate::Arg`] and boxed
/// objects; a caller's own type may implement it too.
pub trait Printf: Drop {
    ghost use Rattle.sprintf.specs.Meaning.{Meaning};

    ghost meaning: { Self → Meaning };

    /// The value's text under the specification, whose width and precision are numbers.
    fn format(&self, alloc: Global, spec: &ConversionSpecifier) -> Result<String>
        ensures { IsAnswer string_bytes PrintfError.NoMemory ((meaning self.now).text spec.now) result };

    /// Appends the text that [`Printf::format`] answers. After a refusal `out` is as before.
    ///
    /// The body here makes that text first; a type of your own may write it straight into `out`.
    fn format_into(&self, alloc: Global, spec: &ConversionSpecifier, out: &mut String) -> Result<()>
        ensures { AppendsAnswer PrintfError.NoMemory ((meaning self.now).text spec.now) (string_bytes out.old) (string_bytes out.new) result }
    {
        let text = self.format(alloc, spec)?;
        out.push_str(text.as_str())?;
        Ok(())
    }

    /// The number that the value gives to a `*`, if it has one that an `i32` holds. It takes no memory.
    fn as_int(&self) -> Option<i32>
        ensures { result ≡ (meaning self.now).int };
}

impl Printf for u8 {
    ghost use Rattle.sprintf.specs.Values.{u8_meaning};

    ghost meaning = { u8_meaning };

    fn format(&self, alloc: Global, spec: &ConversionSpecifier) -> Result<String> {
        Arg::U8(*self).format(alloc, spec)
    }

    #[inline]
    fn format_into(
        &self,
        alloc: Global,
        spec: &ConversionSpecifier,
        out: &mut String,
    ) -> Result<()> {
        Arg::U8(*self).format_into(alloc, spec, out)
    }

    fn as_int(&self) -> Option<i32> {
        Some(i32::from(*self))
    }
}

impl Printf for u16 {
    ghost use Rattle.sprintf.specs.Values.{code_meaning};

    ghost meaning = { code_meaning };

    fn format(&self, alloc: Global, spec: &ConversionSpecifier) -> Result<String> {
        Arg::U16(*self).format(alloc, spec)
    }

    #[inline]
    fn format_into(
        &self,
        alloc: Global,
        spec: &ConversionSpecifier,
        out: &mut String,
    ) -> Result<()> {
        Arg::U16(*self).format_into(alloc, spec, out)
    }

    fn as_int(&self) -> Option<i32> {
        Some(i32::from(*self))
    }
}

impl Printf for u32 {
    ghost use Rattle.sprintf.specs.Values.{code_meaning};

    ghost meaning = { code_meaning };

    fn format(&self, alloc: Global, spec: &ConversionSpecifier) -> Result<String> {
        Arg::U32(*self).format(alloc, spec)
    }

    #[inline]
    fn format_into(
        &self,
        alloc: Global,
        spec: &ConversionSpecifier,
        out: &mut String,
    ) -> Result<()> {
        Arg::U32(*self).format_into(alloc, spec, out)
    }

    fn as_int(&self) -> Option<i32> {
        i32::try_from(*self).ok()
    }
}

impl Printf for u64 {
    ghost use Rattle.sprintf.specs.Values.{unsigned_meaning};

    ghost meaning = { unsigned_meaning };

    fn format(&self, alloc: Global, spec: &ConversionSpecifier) -> Result<String> {
        Arg::U64(*self).format(alloc, spec)
    }

    #[inline]
    fn format_into(
        &self,
        alloc: Global,
        spec: &ConversionSpecifier,
        out: &mut String,
    ) -> Result<()> {
        Arg::U64(*self).format_into(alloc, spec, out)
    }

    fn as_int(&self) -> Option<i32> {
        i32::try_from(*self).ok()
    }
}

impl Printf for usize {
    ghost use Rattle.sprintf.specs.Values.{unsigned_meaning};

    ghost meaning = { unsigned_meaning };

    fn format(&self, alloc: Global, spec: &ConversionSpecifier) -> Result<String> {
        Arg::Usize(*self).format(alloc, spec)
    }

    #[inline]
    fn format_into(
        &self,
        alloc: Global,
        spec: &ConversionSpecifier,
        out: &mut String,
    ) -> Result<()> {
        Arg::Usize(*self).format_into(alloc, spec, out)
    }

    fn as_int(&self) -> Option<i32> {
        i32::try_from(*self).ok()
    }
}

impl Printf for i8 {
    ghost use Rattle.sprintf.specs.Values.{i8_meaning};

    ghost meaning = { i8_meaning };

    fn format(&self, alloc: Global, spec: &ConversionSpecifier) -> Result<String> {
        Arg::I8(*self).format(alloc, spec)
    }

    #[inline]
    fn format_into(
        &self,
        alloc: Global,
        spec: &ConversionSpecifier,
        out: &mut String,
    ) -> Result<()> {
        Arg::I8(*self).format_into(alloc, spec, out)
    }

    fn as_int(&self) -> Option<i32> {
        Some(i32::from(*self))
    }
}

impl Printf for i16 {
    ghost use Rattle.std.specs.Int.{w16};
    ghost use Rattle.sprintf.specs.Values.{signed_meaning};

    ghost meaning = { signed_meaning w16 };

    fn format(&self, alloc: Global, spec: &ConversionSpecifier) -> Result<String> {
        Arg::I16(*self).format(alloc, spec)
    }

    #[inline]
    fn format_into(
        &self,
        alloc: Global,
        spec: &ConversionSpecifier,
        out: &mut String,
    ) -> Result<()> {
        Arg::I16(*self).format_into(alloc, spec, out)
    }

    fn as_int(&self) -> Option<i32> {
        Some(i32::from(*self))
    }
}

impl Printf for i32 {
    ghost use Rattle.std.specs.Int.{w32};
    ghost use Rattle.sprintf.specs.Values.{signed_meaning};

    ghost meaning = { signed_meaning w32 };

    fn format(&self, alloc: Global, spec: &ConversionSpecifier) -> Result<String> {
        Arg::I32(*self).format(alloc, spec)
    }

    #[inline]
    fn format_into(
        &self,
        alloc: Global,
        spec: &ConversionSpecifier,
        out: &mut String,
    ) -> Result<()> {
        Arg::I32(*self).format_into(alloc, spec, out)
    }

    fn as_int(&self) -> Option<i32> {
        Some(*self)
    }
}

impl Printf for i64 {
    ghost use Rattle.std.specs.Int.{w64};
    ghost use Rattle.sprintf.specs.Values.{signed_meaning};

    ghost meaning = { signed_meaning w64 };

    fn format(&self, alloc: Global, spec: &ConversionSpecifier) -> Result<String> {
        Arg::I64(*self).format(alloc, spec)
    }

    #[inline]
    fn format_into(
        &self,
        alloc: Global,
        spec: &ConversionSpecifier,
        out: &mut String,
    ) -> Result<()> {
        Arg::I64(*self).format_into(alloc, spec, out)
    }

    fn as_int(&self) -> Option<i32> {
        i32::try_from(*self).ok()
    }
}

impl Printf for isize {
    ghost use Rattle.std.specs.Int.{w64};
    ghost use Rattle.sprintf.specs.Values.{signed_meaning};

    ghost meaning = { signed_meaning w64 };

    fn format(&self, alloc: Global, spec: &ConversionSpecifier) -> Result<String> {
        Arg::Isize(*self).format(alloc, spec)
    }

    #[inline]
    fn format_into(
        &self,
        alloc: Global,
        spec: &ConversionSpecifier,
        out: &mut String,
    ) -> Result<()> {
        Arg::Isize(*self).format_into(alloc, spec, out)
    }

    fn as_int(&self) -> Option<i32> {
        i32::try_from(*self).ok()
    }
}

impl Printf for char {
    ghost use Rattle.sprintf.specs.Values.{char_meaning};

    ghost meaning = { char_meaning };

    fn format(&self, alloc: Global, spec: &ConversionSpecifier) -> Result<String> {
        Arg::Char(*self).format(alloc, spec)
    }

    #[inline]
    fn format_into(
        &self,
        alloc: Global,
        spec: &ConversionSpecifier,
        out: &mut String,
    ) -> Result<()> {
        Arg::Char(*self).format_into(alloc, spec, out)
    }

    fn as_int(&self) -> Option<i32> {
        None
    }
}

impl Printf for &str {
    ghost use Rattle.sprintf.specs.Values.{word_meaning};

    ghost meaning = { λ s. word_meaning s.now };

    fn format(&self, alloc: Global, spec: &ConversionSpecifier) -> Result<String> {
        Arg::Str(self).format(alloc, spec)
    }

    #[inline]
    fn format_into(
        &self,
        alloc: Global,
        spec: &ConversionSpecifier,
        out: &mut String,
    ) -> Result<()> {
        Arg::Str(self).format_into(alloc, spec, out)
    }

    fn as_int(&self) -> Option<i32> {
        None
    }
}

impl Printf for String {
    ghost use Rattle.sprintf.specs.Values.{word_meaning};

    ghost meaning = { λ s. word_meaning (string_bytes s) };

    fn format(&self, alloc: Global, spec: &ConversionSpecifier) -> Result<String> {
        Arg::Str(self.as_str()).format(alloc, spec)
    }

    #[inline]
    fn format_into(
        &self,
        alloc: Global,
        spec: &ConversionSpecifier,
        out: &mut String,
    ) -> Result<()> {
        Arg::Str(self.as_str()).format_into(alloc, spec, out)
    }

    fn as_int(&self) -> Option<i32> {
        None
    }
}

impl Printf for Box<dyn Printf> {
    ghost meaning = { λ b. (Printf-box b).meaning b.value };

    fn format(&self, alloc: Global, spec: &ConversionSpecifier) -> Result<String> {
        (**self).format(alloc, spec)
    }

    fn format_into(
        &self,
        alloc: Global,
        spec: &ConversionSpecifier,
        out: &mut String,
    ) -> Result<()> {
        (**self).format_into(alloc, spec, out)
    }

    fn as_int(&self) -> Option<i32> {
        (**self).as_int()
    }
}
