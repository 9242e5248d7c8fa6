// Words, values, and what a template prints over them, as the columns of a table write them.
use printer::{Dialect, Printer};
use std::alloc::Global;
use std::test::Fail;
use values::{Kind, Value, Word};

/// The words of a column.
pub(crate) fn words_of(alloc: Global, column: &str) -> Result<Vec<Word>, Fail> {
    let mut words = Vec::new(alloc);
    for text in column.split_ascii_whitespace() {
        words.push(Word::new(alloc, text).ok().ok_or("no memory")?)?;
    }
    Ok(words)
}

/// The number of the kind.
fn number_of(kind: Kind, text: &str) -> Result<Value, Fail> {
    Ok(match kind {
        Kind::U8 => Value::U8(text.parse()?),
        Kind::U16 => Value::U16(text.parse()?),
        Kind::U32 => Value::U32(text.parse()?),
        Kind::U64 => Value::U64(text.parse()?),
        Kind::Usize => Value::Usize(text.parse()?),
        Kind::I8 => Value::I8(text.parse()?),
        Kind::I16 => Value::I16(text.parse()?),
        Kind::I32 => Value::I32(text.parse()?),
        Kind::I64 => Value::I64(text.parse()?),
        Kind::Isize => Value::Isize(text.parse()?),
        Kind::Word | Kind::Char => return Err("no number".into()),
    })
}

/// A value, as `u8:7`, `word:ab` or `char:é`.
fn value_of(alloc: Global, column: &str) -> Result<Value, Fail> {
    let (word, text) = column.split_once(':').ok_or("no kind")?;
    match Kind::named(word).ok_or("no such kind")? {
        Kind::Word => Ok(Value::Word(Word::new(alloc, text).ok().ok_or("no memory")?)),
        Kind::Char => Ok(Value::Char(text.chars().next().ok_or("no character")?)),
        kind => number_of(kind, text),
    }
}

/// The values of a column.
pub(crate) fn values_of(alloc: Global, column: &str) -> Result<Vec<Value>, Fail> {
    let mut values = Vec::new(alloc);
    for text in column.split_ascii_whitespace() {
        values.push(value_of(alloc, text)?)?;
    }
    Ok(values)
}

/// What the template prints over the values behind `=`, or the refusal's debug text behind `!`.
pub(crate) fn printed(
    alloc: Global,
    dialect: Dialect,
    template: &str,
    names: &str,
    values: &str,
) -> Result<String, Fail> {
    let names = words_of(alloc, names)?;
    let values = values_of(alloc, values)?;
    let mut shown = String::new(alloc);
    match Printer::new_named(alloc, dialect, template, &names) {
        Ok(printer) => match printer.text(alloc, &values) {
            Ok(text) => write!(shown, "={text}")?,
            Err(why) => write!(shown, "!{why:?}")?,
        },
        Err(why) => write!(shown, "!{why:?}")?,
    }
    Ok(shown)
}
