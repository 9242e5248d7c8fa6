// The values that a template prints: two texts and two shapes.
ghost use Rattle.std.specs.Prelude.{false, ◌≡◌, ◌++◌, ◌<◌, ℤ, pos, IfErr, OnErr, OnOk, length, string_bytes, string_len, take, codes, chars, IsUtf8, ◌∷◌, [], List, ℕ};
ghost use Rattle.formatx.specs.Values.{decimal_of, escaped, integer_debug, Extends};
ghost use Rattle.formatx.specs.Inner.Parts.{quoted};
ghost use Rattle.numerals.specs.Numeral.{numeral};

use crate::error::Error;
use numerals::{Radix, push_digits};

/// How a text is padded: a number behind its sign, a text at its end, a raw text only under a fill or an alignment.
#[derive(Debug, PartialEq, Drop)]
pub enum Shape {
    Integer,
    Text,
    Raw,
}

/// Which digits the numbers in a debug text have.
#[derive(Debug, PartialEq, Drop)]
pub enum DebugStyle {
    Plain,
    LowerHex,
    UpperHex,
}

/// A value that a template prints.
pub trait FormatValue: Drop {
    ghost use Rattle.formatx.specs.Values.{Meaning};

    ghost meaning: { Self → Meaning };

    /// Appends the text for `{}`.
    fn display(&self, out: &mut String) -> Result<(), Error>
        ensures ok { OnOk result (string_bytes out.new ≡ string_bytes out.old ++ (meaning self.now).display) }
        ensures err { OnErr result (string_bytes out.new ≡ string_bytes out.old) }
        ensures memory { IfErr result (λ e. e ≡ Error.NoMemory) };

    /// Appends the text for `{:?}`, `{:x?}` or `{:X?}`.
    fn debug(&self, style: DebugStyle, out: &mut String) -> Result<(), Error>
        ensures ok { OnOk result (string_bytes out.new ≡ string_bytes out.old ++ (meaning self.now).debug style) }
        ensures err { OnErr result (string_bytes out.new ≡ string_bytes out.old) }
        ensures memory { IfErr result (λ e. e ≡ Error.NoMemory) };

    /// The shape of the text for `{}`.
    fn display_shape(&self) -> Shape
        ensures { result ≡ (meaning self.now).display_shape };

    /// The shape of the text for `{:?}`.
    fn debug_shape(&self) -> Shape
        ensures { result ≡ (meaning self.now).debug_shape };
}

/// Takes back what was added to a text since it had this length.
pub(crate) fn take_back(out: &mut String, len: usize)
    requires { (before : List ℕ) × (length before ≡ len) × IsUtf8 before × Extends before (string_bytes out.old) }
    ensures { string_bytes out.new ≡ take len (string_bytes out.old) }
{
    out.truncate(len);
}

// Appends a number in decimal.
fn push_unsigned(n: u128, out: &mut String) -> Result<(), Error>
    ensures ok { OnOk result (string_bytes out.new ≡ string_bytes out.old ++ numeral 10 false n) }
    ensures err { OnErr result (string_bytes out.new ≡ string_bytes out.old) }
    ensures memory { IfErr result (λ e. e ≡ Error.NoMemory) }
{
    push_digits(out, n, Radix::Ten, false)?;
    Ok(())
}

// Appends a number in decimal, with `-` where it is negative.
fn push_signed(n: i128, out: &mut String) -> Result<(), Error>
    ensures ok { OnOk result (string_bytes out.new ≡ string_bytes out.old ++ decimal_of n) }
    ensures err { OnErr result (string_bytes out.new ≡ string_bytes out.old) }
    ensures memory { IfErr result (λ e. e ≡ Error.NoMemory) }
{
    if n >= 0 {
        return push_unsigned(n.unsigned_abs(), out);
    }
    let len = out.len();
    out.push('-')?;
    match push_unsigned(n.unsigned_abs(), out) {
        Ok(()) => Ok(()),
        Err(error) => {
            take_back(out, len);
            Err(error)
        }
    }
}

// Appends the debug text of a number that isn't signed.
fn debug_unsigned(n: u128, style: DebugStyle, out: &mut String) -> Result<(), Error>
    ensures ok { OnOk result (string_bytes out.new ≡ string_bytes out.old ++ integer_debug (pos n) n style) }
    ensures err { OnErr result (string_bytes out.new ≡ string_bytes out.old) }
    ensures memory { IfErr result (λ e. e ≡ Error.NoMemory) }
{
    match style {
        DebugStyle::Plain => push_unsigned(n, out),
        DebugStyle::LowerHex => Ok(push_digits(out, n, Radix::Sixteen, false)?),
        DebugStyle::UpperHex => Ok(push_digits(out, n, Radix::Sixteen, true)?),
    }
}

// Appends the debug text of a signed number, given with its two's complement.
fn debug_signed(n: i128, bits: u128, style: DebugStyle, out: &mut String) -> Result<(), Error>
    ensures ok { OnOk result (string_bytes out.new ≡ string_bytes out.old ++ integer_debug n bits style) }
    ensures err { OnErr result (string_bytes out.new ≡ string_bytes out.old) }
    ensures memory { IfErr result (λ e. e ≡ Error.NoMemory) }
{
    match style {
        DebugStyle::Plain => push_signed(n, out),
        DebugStyle::LowerHex => Ok(push_digits(out, bits, Radix::Sixteen, false)?),
        DebugStyle::UpperHex => Ok(push_digits(out, bits, Radix::Sixteen, true)?),
    }
}

// Appends a backslash and a character.
fn push_after_backslash(c: char, out: &mut String) -> Result<(), Error>
    requires { c < 128 }
    ensures ok { OnOk result (string_bytes out.new ≡ string_bytes out.old ++ 92 ∷ c ∷ []) }
    ensures err { OnErr result (Extends (string_bytes out.old) (string_bytes out.new)) }
    ensures memory { IfErr result (λ e. e ≡ Error.NoMemory) }
{
    out.push('\\')?;
    out.push(c)?;
    Ok(())
}

// Appends a control character by its hexadecimal digits.
fn push_code(c: char, out: &mut String) -> Result<(), Error>
    ensures ok { OnOk result (string_bytes out.new ≡ string_bytes out.old ++ (codes "\\u{" ++ numeral 16 false c ++ codes "}")) }
    ensures err { OnErr result (Extends (string_bytes out.old) (string_bytes out.new)) }
    ensures memory { IfErr result (λ e. e ≡ Error.NoMemory) }
{
    out.push_str("\\u{")?;
    push_digits(out, u128::from(u32::from(c)), Radix::Sixteen, false)?;
    out.push('}')?;
    Ok(())
}

// Appends a character as it stands between quotes.
fn push_escaped(c: char, quote: char, out: &mut String) -> Result<(), Error>
    requires { quote < 128 }
    ensures ok { OnOk result (string_bytes out.new ≡ string_bytes out.old ++ escaped quote c) }
    ensures err { OnErr result (Extends (string_bytes out.old) (string_bytes out.new)) }
    ensures memory { IfErr result (λ e. e ≡ Error.NoMemory) }
{
    if c == quote || c == '\\' {
        return push_after_backslash(c, out);
    }
    match c {
        '\0' => push_after_backslash('0', out),
        '\t' => push_after_backslash('t', out),
        '\r' => push_after_backslash('r', out),
        '\n' => push_after_backslash('n', out),
        '\u{1}'..='\u{1f}' | '\u{7f}' => push_code(c, out),
        _ => Ok(out.push(c)?),
    }
}

// Appends a text between quotes; without memory a part of it may stand.
fn push_characters(text: &str, quote: char, out: &mut String) -> Result<(), Error>
    requires { quote < 128 }
    ensures ok { OnOk result (string_bytes out.new ≡ string_bytes out.old ++ quoted quote (chars text.now)) }
    ensures err { OnErr result (Extends (string_bytes out.old) (string_bytes out.new)) }
    ensures memory { IfErr result (λ e. e ≡ Error.NoMemory) }
{
    out.push(quote)?;
    'characters: for c in text.chars() {
        push_escaped(c, quote, out)?;
    }
    out.push(quote)?;
    Ok(())
}

// Appends a text between quotes, or leaves all as before.
fn push_quoted(text: &str, quote: char, out: &mut String) -> Result<(), Error>
    requires { quote < 128 }
    ensures ok { OnOk result (string_bytes out.new ≡ string_bytes out.old ++ quoted quote (chars text.now)) }
    ensures err { OnErr result (string_bytes out.new ≡ string_bytes out.old) }
    ensures memory { IfErr result (λ e. e ≡ Error.NoMemory) }
{
    let len = out.len();
    match push_characters(text, quote, out) {
        Ok(()) => Ok(()),
        Err(error) => {
            take_back(out, len);
            Err(error)
        }
    }
}

impl FormatValue for u8 {
    ghost use Rattle.std.specs.Prelude.{pos};
    ghost use Rattle.formatx.specs.Values.{integer_meaning};

    ghost meaning = { λ n. integer_meaning (pos n) n };

    fn display(&self, out: &mut String) -> Result<(), Error> {
        push_unsigned(u128::from(*self), out)
    }

    fn debug(&self, style: DebugStyle, out: &mut String) -> Result<(), Error> {
        debug_unsigned(u128::from(*self), style, out)
    }

    fn display_shape(&self) -> Shape {
        Shape::Integer
    }

    fn debug_shape(&self) -> Shape {
        Shape::Integer
    }
}

impl FormatValue for u16 {
    ghost use Rattle.std.specs.Prelude.{pos};
    ghost use Rattle.formatx.specs.Values.{integer_meaning};

    ghost meaning = { λ n. integer_meaning (pos n) n };

    fn display(&self, out: &mut String) -> Result<(), Error> {
        push_unsigned(u128::from(*self), out)
    }

    fn debug(&self, style: DebugStyle, out: &mut String) -> Result<(), Error> {
        debug_unsigned(u128::from(*self), style, out)
    }

    fn display_shape(&self) -> Shape {
        Shape::Integer
    }

    fn debug_shape(&self) -> Shape {
        Shape::Integer
    }
}

impl FormatValue for u32 {
    ghost use Rattle.std.specs.Prelude.{pos};
    ghost use Rattle.formatx.specs.Values.{integer_meaning};

    ghost meaning = { λ n. integer_meaning (pos n) n };

    fn display(&self, out: &mut String) -> Result<(), Error> {
        push_unsigned(u128::from(*self), out)
    }

    fn debug(&self, style: DebugStyle, out: &mut String) -> Result<(), Error> {
        debug_unsigned(u128::from(*self), style, out)
    }

    fn display_shape(&self) -> Shape {
        Shape::Integer
    }

    fn debug_shape(&self) -> Shape {
        Shape::Integer
    }
}

impl FormatValue for u64 {
    ghost use Rattle.std.specs.Prelude.{pos};
    ghost use Rattle.formatx.specs.Values.{integer_meaning};

    ghost meaning = { λ n. integer_meaning (pos n) n };

    fn display(&self, out: &mut String) -> Result<(), Error> {
        push_unsigned(u128::from(*self), out)
    }

    fn debug(&self, style: DebugStyle, out: &mut String) -> Result<(), Error> {
        debug_unsigned(u128::from(*self), style, out)
    }

    fn display_shape(&self) -> Shape {
        Shape::Integer
    }

    fn debug_shape(&self) -> Shape {
        Shape::Integer
    }
}

impl FormatValue for u128 {
    ghost use Rattle.std.specs.Prelude.{pos};
    ghost use Rattle.formatx.specs.Values.{integer_meaning};

    ghost meaning = { λ n. integer_meaning (pos n) n };

    fn display(&self, out: &mut String) -> Result<(), Error> {
        push_unsigned(*self, out)
    }

    fn debug(&self, style: DebugStyle, out: &mut String) -> Result<(), Error> {
        debug_unsigned(*self, style, out)
    }

    fn display_shape(&self) -> Shape {
        Shape::Integer
    }

    fn debug_shape(&self) -> Shape {
        Shape::Integer
    }
}

impl FormatValue for usize {
    ghost use Rattle.std.specs.Prelude.{pos};
    ghost use Rattle.formatx.specs.Values.{integer_meaning};

    ghost meaning = { λ n. integer_meaning (pos n) n };

    fn display(&self, out: &mut String) -> Result<(), Error> {
        push_unsigned(*self as u128, out)
    }

    fn debug(&self, style: DebugStyle, out: &mut String) -> Result<(), Error> {
        debug_unsigned(*self as u128, style, out)
    }

    fn display_shape(&self) -> Shape {
        Shape::Integer
    }

    fn debug_shape(&self) -> Shape {
        Shape::Integer
    }
}

impl FormatValue for i8 {
    ghost use Rattle.std.specs.Int.{cast_unsigned, w8};
    ghost use Rattle.formatx.specs.Values.{integer_meaning};

    ghost meaning = { λ n. integer_meaning n (cast_unsigned w8 n) };

    fn display(&self, out: &mut String) -> Result<(), Error> {
        push_signed(i128::from(*self), out)
    }

    fn debug(&self, style: DebugStyle, out: &mut String) -> Result<(), Error> {
        debug_signed(
            i128::from(*self),
            u128::from(self.cast_unsigned()),
            style,
            out,
        )
    }

    fn display_shape(&self) -> Shape {
        Shape::Integer
    }

    fn debug_shape(&self) -> Shape {
        Shape::Integer
    }
}

impl FormatValue for i16 {
    ghost use Rattle.std.specs.Int.{cast_unsigned, w16};
    ghost use Rattle.formatx.specs.Values.{integer_meaning};

    ghost meaning = { λ n. integer_meaning n (cast_unsigned w16 n) };

    fn display(&self, out: &mut String) -> Result<(), Error> {
        push_signed(i128::from(*self), out)
    }

    fn debug(&self, style: DebugStyle, out: &mut String) -> Result<(), Error> {
        debug_signed(
            i128::from(*self),
            u128::from(self.cast_unsigned()),
            style,
            out,
        )
    }

    fn display_shape(&self) -> Shape {
        Shape::Integer
    }

    fn debug_shape(&self) -> Shape {
        Shape::Integer
    }
}

impl FormatValue for i32 {
    ghost use Rattle.std.specs.Int.{cast_unsigned, w32};
    ghost use Rattle.formatx.specs.Values.{integer_meaning};

    ghost meaning = { λ n. integer_meaning n (cast_unsigned w32 n) };

    fn display(&self, out: &mut String) -> Result<(), Error> {
        push_signed(i128::from(*self), out)
    }

    fn debug(&self, style: DebugStyle, out: &mut String) -> Result<(), Error> {
        debug_signed(
            i128::from(*self),
            u128::from(self.cast_unsigned()),
            style,
            out,
        )
    }

    fn display_shape(&self) -> Shape {
        Shape::Integer
    }

    fn debug_shape(&self) -> Shape {
        Shape::Integer
    }
}

impl FormatValue for i64 {
    ghost use Rattle.std.specs.Int.{cast_unsigned, w64};
    ghost use Rattle.formatx.specs.Values.{integer_meaning};

    ghost meaning = { λ n. integer_meaning n (cast_unsigned w64 n) };

    fn display(&self, out: &mut String) -> Result<(), Error> {
        push_signed(i128::from(*self), out)
    }

    fn debug(&self, style: DebugStyle, out: &mut String) -> Result<(), Error> {
        debug_signed(
            i128::from(*self),
            u128::from(self.cast_unsigned()),
            style,
            out,
        )
    }

    fn display_shape(&self) -> Shape {
        Shape::Integer
    }

    fn debug_shape(&self) -> Shape {
        Shape::Integer
    }
}

impl FormatValue for i128 {
    ghost use Rattle.std.specs.Int.{cast_unsigned, w128};
    ghost use Rattle.formatx.specs.Values.{integer_meaning};

    ghost meaning = { λ n. integer_meaning n (cast_unsigned w128 n) };

    fn display(&self, out: &mut String) -> Result<(), Error> {
        push_signed(*self, out)
    }

    fn debug(&self, style: DebugStyle, out: &mut String) -> Result<(), Error> {
        debug_signed(*self, self.cast_unsigned(), style, out)
    }

    fn display_shape(&self) -> Shape {
        Shape::Integer
    }

    fn debug_shape(&self) -> Shape {
        Shape::Integer
    }
}

impl FormatValue for isize {
    ghost use Rattle.std.specs.Int.{cast_unsigned, w64};
    ghost use Rattle.formatx.specs.Values.{integer_meaning};

    ghost meaning = { λ n. integer_meaning n (cast_unsigned w64 n) };

    fn display(&self, out: &mut String) -> Result<(), Error> {
        push_signed(*self as i128, out)
    }

    fn debug(&self, style: DebugStyle, out: &mut String) -> Result<(), Error> {
        debug_signed(*self as i128, self.cast_unsigned() as u128, style, out)
    }

    fn display_shape(&self) -> Shape {
        Shape::Integer
    }

    fn debug_shape(&self) -> Shape {
        Shape::Integer
    }
}

impl FormatValue for bool {
    ghost use Rattle.formatx.specs.Values.{bool_meaning};

    ghost meaning = { bool_meaning };

    fn display(&self, out: &mut String) -> Result<(), Error> {
        Ok(out.push_str(if *self { "true" } else { "false" })?)
    }

    fn debug(&self, style: DebugStyle, out: &mut String) -> Result<(), Error> {
        let _ = style;
        self.display(out)
    }

    fn display_shape(&self) -> Shape {
        Shape::Text
    }

    fn debug_shape(&self) -> Shape {
        Shape::Text
    }
}

impl FormatValue for char {
    ghost use Rattle.formatx.specs.Values.{char_meaning};

    ghost meaning = { char_meaning };

    fn display(&self, out: &mut String) -> Result<(), Error> {
        Ok(out.push(*self)?)
    }

    fn debug(&self, style: DebugStyle, out: &mut String) -> Result<(), Error> {
        let _ = style;
        let mut bytes = [0u8; 4];
        push_quoted(self.encode_utf8(&mut bytes), '\'', out)
    }

    fn display_shape(&self) -> Shape {
        Shape::Text
    }

    fn debug_shape(&self) -> Shape {
        Shape::Raw
    }
}

impl FormatValue for &str {
    ghost use Rattle.formatx.specs.Values.{str_meaning};

    ghost meaning = { λ s. str_meaning s.now };

    fn display(&self, out: &mut String) -> Result<(), Error> {
        Ok(out.push_str(*self)?)
    }

    fn debug(&self, style: DebugStyle, out: &mut String) -> Result<(), Error> {
        let _ = style;
        push_quoted(*self, '"', out)
    }

    fn display_shape(&self) -> Shape {
        Shape::Text
    }

    fn debug_shape(&self) -> Shape {
        Shape::Raw
    }
}

impl FormatValue for String {
    ghost use Rattle.std.specs.Prelude.{string_bytes};
    ghost use Rattle.formatx.specs.Values.{str_meaning};

    ghost meaning = { λ s. str_meaning (string_bytes s) };

    fn display(&self, out: &mut String) -> Result<(), Error> {
        Ok(out.push_str(self.as_str())?)
    }

    fn debug(&self, style: DebugStyle, out: &mut String) -> Result<(), Error> {
        let _ = style;
        push_quoted(self.as_str(), '"', out)
    }

    fn display_shape(&self) -> Shape {
        Shape::Text
    }

    fn debug_shape(&self) -> Shape {
        Shape::Raw
    }
}

/// A boxed value, which the caller makes, prints as what it holds.
impl FormatValue for Box<dyn FormatValue> {
    ghost meaning = { λ b. (FormatValue-box b).meaning b.value };

    fn display(&self, out: &mut String) -> Result<(), Error> {
        (**self).display(out)
    }

    fn debug(&self, style: DebugStyle, out: &mut String) -> Result<(), Error> {
        (**self).debug(style, out)
    }

    fn display_shape(&self) -> Shape {
        (**self).display_shape()
    }

    fn debug_shape(&self) -> Shape {
        (**self).debug_shape()
    }
}
