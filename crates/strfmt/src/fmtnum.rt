// Integers: their field, and the twelve calls.

ghost use Rattle.std.specs.Prelude.{◌≡◌, ◌++◌, [], IfOk, false, if◌then◌else◌, codes, string_bytes};
ghost use Rattle.std.specs.Int.{w8, w16, w32, w64, w128};
ghost use Rattle.numerals.specs.Numeral.{base_of, numeral};
ghost use Rattle.strfmt.specs.Fault.{first_failure};
ghost use Rattle.strfmt.specs.Field.{digits_of, integer_checks, integer_field, prefix_of, signed, unchecked_integer_field, unsigned};
ghost use Rattle.strfmt.specs.Spec.{Appends, view_aligned};

use crate::cause::Cause;
use crate::{Alignment, Formatter, Result};
use numerals::{NoMemory, Radix, push_digits};
use std::alloc::Global;

fn in_radix(
    alloc: Global,
    n: u128,
    radix: Radix,
    upper: bool,
) -> std::result::Result<String, NoMemory>
    ensures { IfOk result (λ text. string_bytes text ≡ numeral (base_of radix) upper n) }
{
    let mut text = String::new(alloc);
    push_digits(&mut text, n, radix, upper)?;
    Ok(text)
}

fn decimal(alloc: Global, negative: bool, magnitude: u128) -> std::result::Result<String, NoMemory>
    ensures { IfOk result (λ text. string_bytes text ≡ (if negative then codes "-" else []) ++ numeral 10 false magnitude) }
{
    let sign = if negative { "-" } else { "" };
    let mut text = String::from_str(alloc, sign)?;
    push_digits(&mut text, magnitude, Radix::Ten, false)?;
    Ok(text)
}

/// The digits of an integer: in decimal with a minus, or its two's complement in the base of the type.
fn digits(
    alloc: Global,
    ty: Option<char>,
    negative: bool,
    magnitude: u128,
    bits: u128,
) -> std::result::Result<String, NoMemory>
    ensures { IfOk result (λ text. string_bytes text ≡ digits_of ty (record { negative = negative; magnitude = magnitude; bits = bits })) }
{
    match ty {
        None => decimal(alloc, negative, magnitude),
        Some('b') => in_radix(alloc, bits, Radix::Two, false),
        Some('o') => in_radix(alloc, bits, Radix::Eight, false),
        Some('X') => in_radix(alloc, bits, Radix::Sixteen, true),
        Some(_) => in_radix(alloc, bits, Radix::Sixteen, false),
    }
}

/// The plus and the prefix that stand before the padded digits.
fn front(plus: bool, alternate: bool, ty: Option<char>) -> &'static str
    ensures { result.now ≡ (if plus then codes "+" else []) ++ prefix_of alternate ty }
{
    match (plus, alternate) {
        (false, false) => "",
        (true, false) => "+",
        (false, true) => match ty {
            Some('b') => "0b",
            Some('o') => "0o",
            _ => "0x",
        },
        (true, true) => match ty {
            Some('b') => "+0b",
            Some('o') => "+0o",
            _ => "+0x",
        },
    }
}

impl Formatter<'_> {
    /// Why the specification isn't one of an integer.
    fn integer_cause(&self) -> Option<Cause>
        ensures { result ≡ first_failure (integer_checks self.now.spec) }
    {
        match self.ty {
            None | Some('b' | 'o' | 'x' | 'X') => {}
            Some(ty) => return Some(Cause::NotOfIntegers(ty)),
        }
        if self.precision.is_some() {
            return Some(Cause::PrecisionOfInteger);
        }
        if self.thousands {
            return Some(Cause::CommaOfInteger);
        }
        if self.fill == '0' && matches!(self.align, Alignment::Right) {
            return Some(Cause::ZeroFillOfInteger);
        }
        if self.alternate && self.ty.is_none() {
            return Some(Cause::AlternateWithoutType);
        }
        None
    }

    /// Appends an integer as its field, without checks.
    fn write_integer(&mut self, negative: bool, magnitude: u128, bits: u128) -> Result<()>
        ensures { Appends (unchecked_integer_field self.old.spec (record { negative = negative; magnitude = magnitude; bits = bits })) self.old result self.new }
    {
        let plus = self.sign_plus() && !negative;
        let digits = digits(*self.text.allocator(), self.ty, negative, magnitude, bits)?;
        self.write_padded(front(plus, self.alternate, self.ty), digits.as_str())
    }

    /// Appends an integer as its field, with `Right` as the default alignment.
    fn integer(&mut self, negative: bool, magnitude: u128, bits: u128) -> Result<()>
        ensures { Appends (integer_field self.old.spec (record { negative = negative; magnitude = magnitude; bits = bits })) (view_aligned Alignment.Right self.old) result self.new }
    {
        self.set_default_align(Alignment::Right);
        match self.integer_cause() {
            None => self.write_integer(negative, magnitude, bits),
            Some(cause) => Err(cause.told(*self.text.allocator())),
        }
    }

    /// Appends the number as its field; an unspecified alignment becomes `Right`.
    pub fn u8(&mut self, x: u8) -> Result<()>
        ensures { Appends (integer_field self.old.spec (unsigned x)) (view_aligned Alignment.Right self.old) result self.new }
    {
        self.integer(false, u128::from(x), u128::from(x))
    }

    /// Appends the number as its field; an unspecified alignment becomes `Right`.
    pub fn u16(&mut self, x: u16) -> Result<()>
        ensures { Appends (integer_field self.old.spec (unsigned x)) (view_aligned Alignment.Right self.old) result self.new }
    {
        self.integer(false, u128::from(x), u128::from(x))
    }

    /// Appends the number as its field; an unspecified alignment becomes `Right`.
    pub fn u32(&mut self, x: u32) -> Result<()>
        ensures { Appends (integer_field self.old.spec (unsigned x)) (view_aligned Alignment.Right self.old) result self.new }
    {
        self.integer(false, u128::from(x), u128::from(x))
    }

    /// Appends the number as its field; an unspecified alignment becomes `Right`.
    pub fn u64(&mut self, x: u64) -> Result<()>
        ensures { Appends (integer_field self.old.spec (unsigned x)) (view_aligned Alignment.Right self.old) result self.new }
    {
        self.integer(false, u128::from(x), u128::from(x))
    }

    /// Appends the number as its field; an unspecified alignment becomes `Right`.
    pub fn u128(&mut self, x: u128) -> Result<()>
        ensures { Appends (integer_field self.old.spec (unsigned x)) (view_aligned Alignment.Right self.old) result self.new }
    {
        self.integer(false, x, x)
    }

    /// Appends the number as its field; an unspecified alignment becomes `Right`.
    pub fn usize(&mut self, x: usize) -> Result<()>
        ensures { Appends (integer_field self.old.spec (unsigned x)) (view_aligned Alignment.Right self.old) result self.new }
    {
        self.integer(false, x as u128, x as u128)
    }

    /// Appends the number as its field; an unspecified alignment becomes `Right`.
    pub fn i8(&mut self, x: i8) -> Result<()>
        ensures { Appends (integer_field self.old.spec (signed w8 x)) (view_aligned Alignment.Right self.old) result self.new }
    {
        self.integer(
            x < 0,
            u128::from(x.unsigned_abs()),
            u128::from(x.cast_unsigned()),
        )
    }

    /// Appends the number as its field; an unspecified alignment becomes `Right`.
    pub fn i16(&mut self, x: i16) -> Result<()>
        ensures { Appends (integer_field self.old.spec (signed w16 x)) (view_aligned Alignment.Right self.old) result self.new }
    {
        self.integer(
            x < 0,
            u128::from(x.unsigned_abs()),
            u128::from(x.cast_unsigned()),
        )
    }

    /// Appends the number as its field; an unspecified alignment becomes `Right`.
    pub fn i32(&mut self, x: i32) -> Result<()>
        ensures { Appends (integer_field self.old.spec (signed w32 x)) (view_aligned Alignment.Right self.old) result self.new }
    {
        self.integer(
            x < 0,
            u128::from(x.unsigned_abs()),
            u128::from(x.cast_unsigned()),
        )
    }

    /// Appends the number as its field; an unspecified alignment becomes `Right`.
    pub fn i64(&mut self, x: i64) -> Result<()>
        ensures { Appends (integer_field self.old.spec (signed w64 x)) (view_aligned Alignment.Right self.old) result self.new }
    {
        self.integer(
            x < 0,
            u128::from(x.unsigned_abs()),
            u128::from(x.cast_unsigned()),
        )
    }

    /// Appends the number as its field; an unspecified alignment becomes `Right`.
    pub fn i128(&mut self, x: i128) -> Result<()>
        ensures { Appends (integer_field self.old.spec (signed w128 x)) (view_aligned Alignment.Right self.old) result self.new }
    {
        self.integer(x < 0, x.unsigned_abs(), x.cast_unsigned())
    }

    /// Appends the number as its field; an unspecified alignment becomes `Right`.
    pub fn isize(&mut self, x: isize) -> Result<()>
        ensures { Appends (integer_field self.old.spec (signed w64 x)) (view_aligned Alignment.Right self.old) result self.new }
    {
        self.integer(x < 0, x.unsigned_abs() as u128, x.cast_unsigned() as u128)
    }
}
