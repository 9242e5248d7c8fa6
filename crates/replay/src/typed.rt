// The typed values of the lines, `KIND:TEXT`.
use crate::error::Fault;
use std::alloc::Global;

/// A value of one of the kinds that lines have.
#[derive(Drop)]
pub enum Value {
    U8(u8),
    U16(u16),
    U32(u32),
    U64(u64),
    U128(u128),
    Usize(usize),
    I8(i8),
    I16(i16),
    I32(i32),
    I64(i64),
    I128(i128),
    Isize(isize),
    Bool(bool),
    Char(char),
    Str(String),
    String(String),
}

/// Reads `KIND:TEXT`, cut at the first `:`.
pub fn read_value(alloc: Global, field: &str) -> Result<Value, Fault> {
    let (kind, text) = field.split_once(':').ok_or(Fault::BadInput)?;
    match kind.as_bytes() {
        b"str" => Ok(Value::Str(String::from_str(alloc, text)?)),
        b"String" => Ok(Value::String(String::from_str(alloc, text)?)),
        kind => read_plain(kind, text).ok_or(Fault::BadInput),
    }
}

/// Reads the text at a kind that holds none.
fn read_plain(kind: &[u8], text: &str) -> Option<Value> {
    match kind {
        b"u8" => text.parse().ok().map(Value::U8),
        b"u16" => text.parse().ok().map(Value::U16),
        b"u32" => text.parse().ok().map(Value::U32),
        b"u64" => text.parse().ok().map(Value::U64),
        b"u128" => text.parse().ok().map(Value::U128),
        b"usize" => text.parse().ok().map(Value::Usize),
        b"i8" => text.parse().ok().map(Value::I8),
        b"i16" => text.parse().ok().map(Value::I16),
        b"i32" => text.parse().ok().map(Value::I32),
        b"i64" => text.parse().ok().map(Value::I64),
        b"i128" => text.parse().ok().map(Value::I128),
        b"isize" => text.parse().ok().map(Value::Isize),
        b"bool" => text.parse().ok().map(Value::Bool),
        b"char" => text.parse().ok().map(Value::Char),
        _ => None,
    }
}

/// Reads each field as a value.
pub fn read_values(alloc: Global, fields: &[String]) -> Result<Vec<Value>, Fault> {
    let mut values = Vec::new(alloc);
    'fields: for field in fields {
        values.push(read_value(alloc, field.as_str())?)?;
    }
    Ok(values)
}
