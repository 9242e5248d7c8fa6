// Values that display themselves into a formatter.

ghost use Rattle.std.specs.Prelude.{encode_utf8, string_bytes};
ghost use Rattle.std.specs.Int.{w8, w16, w32, w64};
ghost use Rattle.strfmt.specs.Field.{integer_field, signed, text_field, unsigned};
ghost use Rattle.strfmt.specs.Spec.{Appends, view_aligned};
ghost use Rattle.strfmt.specs.Values.{Displays};

use crate::{Alignment, Formatter, Result};

/// A value that displays itself into a formatter.
///
/// The trait promises little of the formatter after a refusal, so that a caller's own type may write as it goes; each
/// type here leaves the formatter as it was, but for the default alignment.
pub trait DisplayStr: Drop {
    ghost use Rattle.strfmt.specs.Text.{Meaning};

    /// What the value prints under each specification, or refuses.
    ghost meaning: { Self → Meaning };

    fn display_str(&self, f: &mut Formatter<'_>) -> Result<()>
        ensures { Displays (meaning self.now f.old.spec) f.old result f.new };
}

impl DisplayStr for &str {
    ghost meaning = { λ text spec. text_field spec text.now };

    fn display_str(&self, f: &mut Formatter<'_>) -> Result<()>
        ensures appends { Appends (text_field f.old.spec self.now.now) (view_aligned Alignment.Left f.old) result f.new }
        ensures displays { Displays (text_field f.old.spec self.now.now) f.old result f.new }
    {
        f.str(self)
    }
}

impl DisplayStr for String {
    ghost meaning = { λ text spec. text_field spec (string_bytes text) };

    fn display_str(&self, f: &mut Formatter<'_>) -> Result<()>
        ensures { Appends (text_field f.old.spec (string_bytes self.now)) (view_aligned Alignment.Left f.old) result f.new }
    {
        f.str(self.as_str())
    }
}

/// A character displays as the text of it alone.
impl DisplayStr for char {
    ghost meaning = { λ character spec. text_field spec (encode_utf8 character) };

    fn display_str(&self, f: &mut Formatter<'_>) -> Result<()>
        ensures { Appends (text_field f.old.spec (encode_utf8 self.now)) (view_aligned Alignment.Left f.old) result f.new }
    {
        f.str(self.encode_utf8(&mut [0; 4]))
    }
}

/// A boxed value displays as the value that it holds.
impl DisplayStr for Box<dyn DisplayStr> {
    ghost meaning = { λ it. (DisplayStr-box it).meaning it.value };

    fn display_str(&self, f: &mut Formatter<'_>) -> Result<()> {
        (**self).display_str(f)
    }
}

impl DisplayStr for u8 {
    ghost meaning = { λ n spec. integer_field spec (unsigned n) };

    fn display_str(&self, f: &mut Formatter<'_>) -> Result<()>
        ensures { Appends (integer_field f.old.spec (unsigned self.now)) (view_aligned Alignment.Right f.old) result f.new }
    {
        f.u8(*self)
    }
}

impl DisplayStr for i8 {
    ghost meaning = { λ n spec. integer_field spec (signed w8 n) };

    fn display_str(&self, f: &mut Formatter<'_>) -> Result<()>
        ensures { Appends (integer_field f.old.spec (signed w8 self.now)) (view_aligned Alignment.Right f.old) result f.new }
    {
        f.i8(*self)
    }
}

impl DisplayStr for u16 {
    ghost meaning = { λ n spec. integer_field spec (unsigned n) };

    fn display_str(&self, f: &mut Formatter<'_>) -> Result<()>
        ensures { Appends (integer_field f.old.spec (unsigned self.now)) (view_aligned Alignment.Right f.old) result f.new }
    {
        f.u16(*self)
    }
}

impl DisplayStr for i16 {
    ghost meaning = { λ n spec. integer_field spec (signed w16 n) };

    fn display_str(&self, f: &mut Formatter<'_>) -> Result<()>
        ensures { Appends (integer_field f.old.spec (signed w16 self.now)) (view_aligned Alignment.Right f.old) result f.new }
    {
        f.i16(*self)
    }
}

impl DisplayStr for u32 {
    ghost meaning = { λ n spec. integer_field spec (unsigned n) };

    fn display_str(&self, f: &mut Formatter<'_>) -> Result<()>
        ensures { Appends (integer_field f.old.spec (unsigned self.now)) (view_aligned Alignment.Right f.old) result f.new }
    {
        f.u32(*self)
    }
}

impl DisplayStr for i32 {
    ghost meaning = { λ n spec. integer_field spec (signed w32 n) };

    fn display_str(&self, f: &mut Formatter<'_>) -> Result<()>
        ensures { Appends (integer_field f.old.spec (signed w32 self.now)) (view_aligned Alignment.Right f.old) result f.new }
    {
        f.i32(*self)
    }
}

impl DisplayStr for u64 {
    ghost meaning = { λ n spec. integer_field spec (unsigned n) };

    fn display_str(&self, f: &mut Formatter<'_>) -> Result<()>
        ensures { Appends (integer_field f.old.spec (unsigned self.now)) (view_aligned Alignment.Right f.old) result f.new }
    {
        f.u64(*self)
    }
}

impl DisplayStr for i64 {
    ghost meaning = { λ n spec. integer_field spec (signed w64 n) };

    fn display_str(&self, f: &mut Formatter<'_>) -> Result<()>
        ensures { Appends (integer_field f.old.spec (signed w64 self.now)) (view_aligned Alignment.Right f.old) result f.new }
    {
        f.i64(*self)
    }
}

impl DisplayStr for usize {
    ghost meaning = { λ n spec. integer_field spec (unsigned n) };

    fn display_str(&self, f: &mut Formatter<'_>) -> Result<()>
        ensures { Appends (integer_field f.old.spec (unsigned self.now)) (view_aligned Alignment.Right f.old) result f.new }
    {
        f.usize(*self)
    }
}

impl DisplayStr for isize {
    ghost meaning = { λ n spec. integer_field spec (signed w64 n) };

    fn display_str(&self, f: &mut Formatter<'_>) -> Result<()>
        ensures { Appends (integer_field f.old.spec (signed w64 self.now)) (view_aligned Alignment.Right f.old) result f.new }
    {
        f.isize(*self)
    }
}
