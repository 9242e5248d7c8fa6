// The calls over texts.

use crate::readers::ReadReader;
use crate::types::{TypedCall, call_at};
use replay::{Fault, undo_texts};
use std::alloc::Global;
use std::fmt::Debug;
use whiteread::stream::{Error, SplitAsciiWhitespace, StrStream};
use whiteread::{FromStream, parse_string};

/// The answer of a call over a text.
pub(crate) fn answer(alloc: Global, call: &str, inputs: &[&str]) -> Result<Vec<String>, Fault> {
    let inputs = undo_texts(alloc, inputs)?;
    match (call.as_bytes(), inputs.as_slice()) {
        (b"parse", [name, text]) => {
            let text = text.as_str();
            call_at(alloc, name.as_str(), &mut Parse { text })
        }
        (b"read", [stream, name, text]) => {
            let text = text.as_str();
            match stream.as_bytes() {
                b"ascii" => call_at(alloc, name.as_str(), &mut ReadAscii { text }),
                b"std" => call_at(alloc, name.as_str(), &mut ReadWhite { text }),
                b"reader" => call_at(alloc, name.as_str(), &mut ReadReader { text }),
                _ => Err(Fault::BadInput),
            }
        }
        (b"split", [position, text]) => split(alloc, position.as_str(), text.as_str()),
        _ => Err(Fault::NoSuchCall),
    }
}

/// `parse_string`.
#[derive(Drop)]
struct Parse<'t> {
    text: &'t str,
}

impl TypedCall for Parse<'_> {
    fn at<T: FromStream + Debug>(&mut self, alloc: Global) -> Result<Vec<String>, Fault> {
        match parse_string::<T>(alloc, self.text) {
            Ok(value) => Ok(vec![in alloc; shown(alloc, &value)?]?),
            Err(error) => {
                let name = name_of(alloc, &error)?;
                Ok(vec![in alloc; name, format!(in alloc; "{error}")?]?)
            }
        }
    }
}

/// `read` of a `SplitAsciiWhitespace`.
#[derive(Drop)]
struct ReadAscii<'t> {
    text: &'t str,
}

impl TypedCall for ReadAscii<'_> {
    fn at<T: FromStream + Debug>(&mut self, alloc: Global) -> Result<Vec<String>, Fault> {
        read::<T, _>(alloc, &mut SplitAsciiWhitespace::new(self.text))
    }
}

/// `read` of std's `SplitWhitespace`.
#[derive(Drop)]
struct ReadWhite<'t> {
    text: &'t str,
}

impl TypedCall for ReadWhite<'_> {
    fn at<T: FromStream + Debug>(&mut self, alloc: Global) -> Result<Vec<String>, Fault> {
        read::<T, _>(alloc, &mut self.text.split_whitespace())
    }
}

/// `ok:VALUE`.
pub(crate) fn shown<T: Debug>(alloc: Global, value: &T) -> Result<String, Fault> {
    Ok(format!(in alloc; "ok:{value:?}")?)
}

/// `err:NAME`.
fn name_of(alloc: Global, error: &Error) -> Result<String, Fault> {
    if let Error::NoMemory = error {
        return Err(Fault::NoMemory);
    }
    Ok(format!(in alloc; "err:{error:?}")?)
}

/// The value or the error's name, and the words that are left.
pub(crate) fn read<T: FromStream + Debug, I: StrStream>(
    alloc: Global,
    words: &mut I,
) -> Result<Vec<String>, Fault> {
    let first = match T::read(alloc, words) {
        Ok(value) => shown(alloc, &value)?,
        Err(error) => name_of(alloc, &error)?,
    };
    let mut fields = vec![in alloc; first]?;
    push_words(alloc, &mut fields, words)?;
    Ok(fields)
}

/// Adds the words that are left.
fn push_words<I: StrStream>(
    alloc: Global,
    fields: &mut Vec<String>,
    words: &mut I,
) -> Result<(), Fault> {
    'words: loop {
        match words.next() {
            Ok(Some(word)) => fields.push(format!(in alloc; "={word}")?)?,
            Ok(None) => return Ok(()),
            Err(Error::NoMemory) => return Err(Fault::NoMemory),
            Err(_) => return Err(Fault::BadInput),
        }
    }
}

/// The words from a position on, each with the position after it.
fn split(alloc: Global, position: &str, text: &str) -> Result<Vec<String>, Fault> {
    let position = position.parse().map_err(|_| Fault::BadInput)?;
    let mut words = SplitAsciiWhitespace::from_parts(text, position);
    let mut fields = vec![in alloc; String::from_str(alloc, "ok")?]?;
    fields.push(words.position().to_string(alloc)?)?;
    'words: while let Some(word) = Iterator::next(&mut words) {
        fields.push(format!(in alloc; "={word}")?)?;
        fields.push(words.position().to_string(alloc)?)?;
    }
    fields.push(String::from_str(alloc, "-")?)?;
    fields.push(words.position().to_string(alloc)?)?;
    Ok(fields)
}
