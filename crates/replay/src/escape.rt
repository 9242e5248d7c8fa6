// The escapes of a field: `\\`, `\t`, `\n`, `\r`, and `\xNN` for any other byte.
ghost use Rattle.std.specs.Prelude.{◌<◌, length, IfOk, IfSome};

use crate::error::Fault;
use std::alloc::Global;

/// The byte that the text spells first, and the text after it.
fn next_byte(text: &[u8]) -> Result<Option<(u8, &[u8])>, Fault>
    ensures { IfOk result (λ step. IfSome step (λ found. length found.1.now < length text.now)) }
{
    match text {
        [] => Ok(None),
        [b'\\', b'\\', rest @ ..] => Ok(Some((b'\\', rest))),
        [b'\\', b't', rest @ ..] => Ok(Some((b'\t', rest))),
        [b'\\', b'n', rest @ ..] => Ok(Some((b'\n', rest))),
        [b'\\', b'r', rest @ ..] => Ok(Some((b'\r', rest))),
        [b'\\', b'x', high, low, rest @ ..] => match (digit(*high), digit(*low)) {
            (Some(high), Some(low)) => Ok(Some((high * 16 + low, rest))),
            _ => Err(Fault::BadEscape),
        },
        [b'\\', ..] => Err(Fault::BadEscape),
        [byte, rest @ ..] => Ok(Some((*byte, rest))),
    }
}

/// The number of a hexadecimal digit, below 16.
fn digit(byte: u8) -> Option<u8>
    ensures { IfSome result (λ number. number < 16) }
{
    match byte {
        b'0'..=b'9' => Some(byte - b'0'),
        b'a'..=b'f' => Some(byte - b'a' + 10),
        _ => None,
    }
}

/// The bytes of a field, its escapes undone.
pub fn undo(alloc: Global, field: &str) -> Result<Vec<u8>, Fault> {
    let mut bytes = Vec::new(alloc);
    let mut rest = field.as_bytes();
    'bytes: while let Some((byte, after)) = next_byte(rest)? {
        bytes.push(byte)?;
        rest = after;
    }
    Ok(bytes)
}

/// The texts of fields, their escapes undone.
pub fn undo_texts(alloc: Global, fields: &[&str]) -> Result<Vec<String>, Fault> {
    let mut texts = Vec::new(alloc);
    'fields: for field in fields {
        let text = String::from_utf8(undo(alloc, field)?).map_err(|_| Fault::NotUtf8)?;
        texts.push(text)?;
    }
    Ok(texts)
}

/// Appends a text with its escapes, as it stands in a line.
pub(crate) fn push_escaped(out: &mut String, text: &str) -> Result<(), Fault> {
    'characters: for c in text.chars() {
        match c {
            '\\' => out.push_str("\\\\")?,
            '\t' => out.push_str("\\t")?,
            '\n' => out.push_str("\\n")?,
            '\r' => out.push_str("\\r")?,
            '\0'..='\x1f' | '\x7f' => push_code(out, u32::from(c))?,
            _ => out.push(c)?,
        }
    }
    Ok(())
}

/// Appends `\xNN`.
fn push_code(out: &mut String, code: u32) -> Result<(), Fault> {
    write!(out, "\\x{code:02x}")?;
    Ok(())
}
