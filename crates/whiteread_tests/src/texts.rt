// Texts as rows of a table write them: `$` for a line feed, `%` for a carriage return, `#` for a byte that no text has.
use std::alloc::{AllocError, Global};

/// The bytes that a row writes.
pub fn bytes_of(alloc: Global, marked: &str) -> Result<Vec<u8>, AllocError> {
    let mut bytes = Vec::new(alloc);
    for byte in marked.as_bytes() {
        bytes.push(match *byte {
            b'$' => b'\n',
            b'%' => b'\r',
            b'#' => 0xff,
            other => other,
        })?;
    }
    Ok(bytes)
}

/// A text as a row writes it.
pub fn marked(alloc: Global, text: &str) -> Result<String, AllocError> {
    let mut all = String::new(alloc);
    for c in text.chars() {
        all.push(match c {
            '\n' => '$',
            '\r' => '%',
            other => other,
        })?;
    }
    Ok(all)
}
