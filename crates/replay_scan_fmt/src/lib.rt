//! The calls of scan_fmt that lines name.
#![tactic(auto)]

use numerals::NoMemory;
use replay::{Fault, place_of, undo_texts};
use scan_fmt::parse::{ReadAs, ReadHex, ReadToken, Tokens, scan};
use std::alloc::Global;
use std::fmt::Display;

/// The answer of a call, whose inputs still have their escapes. A pattern past the limit of `regex` on size is an answer
/// too.
pub fn answer(alloc: Global, call: &str, inputs: &[&str]) -> Result<Vec<String>, Fault> {
    let inputs = undo_texts(alloc, inputs)?;
    match (call.as_bytes(), inputs.as_slice()) {
        (b"scan", [format, input]) => match scan(alloc, input.as_str(), format.as_str()) {
            Ok(tokens) => scanned(alloc, tokens),
            Err(NoMemory) => Ok(vec![in alloc; String::from_str(alloc, "err:NoMemory")?]?),
        },
        (b"read", [format, input, types @ ..]) => {
            let mut tokens = scan(alloc, input.as_str(), format.as_str())?;
            let mut fields = vec![in alloc; String::from_str(alloc, "ok")?]?;
            'types: for name in types {
                fields.push(read_at(alloc, &mut tokens, name.as_str())?)?;
            }
            Ok(fields)
        }
        _ => Err(Fault::NoSuchCall),
    }
}

/// `ok` and the tokens.
fn scanned(alloc: Global, tokens: Tokens) -> Result<Vec<String>, Fault> {
    let mut fields = vec![in alloc; String::from_str(alloc, "ok")?]?;
    'tokens: for token in tokens {
        fields.push(format!(in alloc; "={token}")?)?;
    }
    Ok(fields)
}

/// Reads the next token at the named type.
fn read_at(alloc: Global, tokens: &mut Tokens, name: &str) -> Result<String, Fault> {
    if let Some(name) = name.strip_prefix("hex ") {
        return read_hex_at(alloc, tokens, name);
    }
    match place_of(
        name,
        &[
            "u8", "u16", "u32", "u64", "u128", "usize", "i8", "i16", "i32", "i64", "i128", "isize",
            "bool", "char", "String",
        ],
    ) {
        Some(0) => read::<u8>(alloc, tokens),
        Some(1) => read::<u16>(alloc, tokens),
        Some(2) => read::<u32>(alloc, tokens),
        Some(3) => read::<u64>(alloc, tokens),
        Some(4) => read::<u128>(alloc, tokens),
        Some(5) => read::<usize>(alloc, tokens),
        Some(6) => read::<i8>(alloc, tokens),
        Some(7) => read::<i16>(alloc, tokens),
        Some(8) => read::<i32>(alloc, tokens),
        Some(9) => read::<i64>(alloc, tokens),
        Some(10) => read::<i128>(alloc, tokens),
        Some(11) => read::<isize>(alloc, tokens),
        Some(12) => read::<bool>(alloc, tokens),
        Some(13) => read::<char>(alloc, tokens),
        Some(14) => read::<String>(alloc, tokens),
        _ => Err(Fault::NoSuchType),
    }
}

/// Reads the next token in base 16 at the named type.
fn read_hex_at(alloc: Global, tokens: &mut Tokens, name: &str) -> Result<String, Fault> {
    match place_of(
        name,
        &[
            "u8", "u16", "u32", "u64", "u128", "usize", "i8", "i16", "i32", "i64", "i128", "isize",
        ],
    ) {
        Some(0) => read_hex::<u8>(alloc, tokens),
        Some(1) => read_hex::<u16>(alloc, tokens),
        Some(2) => read_hex::<u32>(alloc, tokens),
        Some(3) => read_hex::<u64>(alloc, tokens),
        Some(4) => read_hex::<u128>(alloc, tokens),
        Some(5) => read_hex::<usize>(alloc, tokens),
        Some(6) => read_hex::<i8>(alloc, tokens),
        Some(7) => read_hex::<i16>(alloc, tokens),
        Some(8) => read_hex::<i32>(alloc, tokens),
        Some(9) => read_hex::<i64>(alloc, tokens),
        Some(10) => read_hex::<i128>(alloc, tokens),
        Some(11) => read_hex::<isize>(alloc, tokens),
        _ => Err(Fault::NoSuchType),
    }
}

/// `next_as`.
fn read<T: ReadToken + Display + Drop>(
    alloc: Global,
    tokens: &mut Tokens,
) -> Result<String, Fault> {
    match tokens.next_as::<T>() {
        Ok(value) => Ok(format!(in alloc; "v:{value}")?),
        Err(why) => refused(alloc, why),
    }
}

/// `next_hex`.
fn read_hex<T: ReadHex + Display + Drop>(
    alloc: Global,
    tokens: &mut Tokens,
) -> Result<String, Fault> {
    match tokens.next_hex::<T>() {
        Ok(value) => Ok(format!(in alloc; "v:{value}")?),
        Err(why) => refused(alloc, why),
    }
}

fn refused(alloc: Global, why: ReadAs) -> Result<String, Fault> {
    Ok(format!(in alloc; "{why:?}")?)
}
