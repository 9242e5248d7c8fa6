// Values, translations and printed texts, as the columns of a table write them.
use printer::{Dialect, Printer};
use sprintf::parser::parse_format_string;
use sprintf::vsprintf;
use std::alloc::Global;
use std::test::Fail;
use translation::{Target, translate};
use values::{Kind, Value, Word};

/// The number of the kind.
fn number_of(kind: Kind, text: &str) -> Result<Value, Fail> {
    Ok(match kind {
        Kind::U8 => Value::U8(text.parse()?),
        Kind::U16 => Value::U16(text.parse()?),
        Kind::U32 => Value::U32(text.parse()?),
        Kind::U64 => Value::U64(text.parse()?),
        Kind::Usize => Value::Usize(text.parse()?),
        Kind::I8 => Value::I8(text.parse()?),
        Kind::I16 => Value::I16(text.parse()?),
        Kind::I32 => Value::I32(text.parse()?),
        Kind::I64 => Value::I64(text.parse()?),
        Kind::Isize => Value::Isize(text.parse()?),
        Kind::Word | Kind::Char => return Err("no number".into()),
    })
}

/// A value, as `u8:7`, `word:ab` or `char:c`.
fn value_of(alloc: Global, column: &str) -> Result<Value, Fail> {
    let (word, text) = column.split_once(':').ok_or("no kind")?;
    match Kind::named(word).ok_or("no such kind")? {
        Kind::Word => Ok(Value::Word(Word::new(alloc, text).ok().ok_or("no memory")?)),
        Kind::Char => Ok(Value::Char(text.chars().next().ok_or("no character")?)),
        kind => number_of(kind, text),
    }
}

/// The values of a column.
pub(crate) fn values_of(alloc: Global, column: &str) -> Result<Vec<Value>, Fail> {
    let mut values = Vec::new(alloc);
    for text in column.split_ascii_whitespace() {
        values.push(value_of(alloc, text)?)?;
    }
    Ok(values)
}

/// The translation of the format over the values' kinds, or the refusal's debug text behind `!`.
pub(crate) fn translated(
    alloc: Global,
    format: &str,
    values: &[Value],
    target: Target,
) -> Result<String, Fail> {
    let elements = parse_format_string(alloc, format).map_err(|_| "no format")?;
    let mut kinds = Vec::new(alloc);
    for value in values {
        kinds.push(value.kind())?;
    }
    match translate(alloc, &elements, &kinds, target) {
        Ok(template) => Ok(template),
        Err(why) => Ok(format!(in alloc; "!{why:?}")?),
    }
}

/// What the format prints over the values.
pub(crate) fn printed(alloc: Global, format: &str, values: &[Value]) -> Result<String, Fail> {
    Ok(vsprintf(alloc, format, values).map_err(|_| "no printf text")?)
}

/// What the template prints over the values.
pub(crate) fn shown(
    alloc: Global,
    dialect: Dialect,
    template: &str,
    values: &[Value],
) -> Result<String, Fail> {
    let printer = Printer::new(alloc, dialect, template).map_err(|_| "no template")?;
    Ok(printer.text(alloc, values).map_err(|_| "no text")?)
}
