//! The calls of strfmt that lines name.
#![tactic(auto)]

mod shown;

use replay::{Fault, place_of, read_value, undo_texts};
use shown::Shown;
use std::alloc::Global;
use std::collections::HashMap;
use std::hash::Hash;
use strfmt::{Alignment, DisplayStr, FmtError, Formatter, FromKey, strfmt, strfmt_map};

/// The answer of a call, whose inputs still have their escapes.
pub fn answer(alloc: Global, call: &str, inputs: &[&str]) -> Result<Vec<String>, Fault> {
    let inputs = undo_texts(alloc, inputs)?;
    match (call.as_bytes(), inputs.as_slice()) {
        (b"strfmt", [key_type, template, pairs @ ..]) => {
            fill(alloc, key_type.as_str(), template.as_str(), pairs)
        }
        (b"skip", [template]) => {
            let outcome = strfmt_map(
                alloc,
                template.as_str(),
                |f: &mut Formatter<'_>| -> strfmt::Result<()> { f.skip() },
            );
            filled(alloc, outcome)
        }
        (b"formatter", [pattern, operations @ ..]) => {
            format(alloc, pattern.as_str(), operations)
        }
        (b"is_unspecified", [pattern]) => is_unspecified(alloc, pattern.as_str()),
        _ => Err(Fault::NoSuchCall),
    }
}

/// The error's name and its message.
fn name_of(error: FmtError) -> Result<(&'static str, String), Fault> {
    match error {
        FmtError::Invalid(message) => Ok(("Invalid", message)),
        FmtError::KeyError(message) => Ok(("KeyError", message)),
        FmtError::TypeError(message) => Ok(("TypeError", message)),
        FmtError::NoMemory => Err(Fault::NoMemory),
    }
}

/// `err:NAME` and the message.
fn refused(alloc: Global, error: FmtError) -> Result<Vec<String>, Fault> {
    let (name, message) = name_of(error)?;
    Ok(vec![in alloc; format!(in alloc; "err:{name}")?, message]?)
}

/// `ok:TEXT`, or the error.
fn filled(alloc: Global, outcome: strfmt::Result<String>) -> Result<Vec<String>, Fault> {
    match outcome {
        Ok(text) => Ok(vec![in alloc; format!(in alloc; "ok:{text}")?]?),
        Err(error) => refused(alloc, error),
    }
}

/// `strfmt` over a map with keys of the named type.
fn fill(
    alloc: Global,
    key_type: &str,
    template: &str,
    pairs: &[String],
) -> Result<Vec<String>, Fault> {
    match place_of(
        key_type,
        &[
            "String", "u8", "u16", "u32", "u64", "u128", "usize", "i8", "i16", "i32", "i64",
            "i128", "isize",
        ],
    ) {
        Some(0) => fill_by::<String>(alloc, template, pairs),
        Some(1) => fill_by::<u8>(alloc, template, pairs),
        Some(2) => fill_by::<u16>(alloc, template, pairs),
        Some(3) => fill_by::<u32>(alloc, template, pairs),
        Some(4) => fill_by::<u64>(alloc, template, pairs),
        Some(5) => fill_by::<u128>(alloc, template, pairs),
        Some(6) => fill_by::<usize>(alloc, template, pairs),
        Some(7) => fill_by::<i8>(alloc, template, pairs),
        Some(8) => fill_by::<i16>(alloc, template, pairs),
        Some(9) => fill_by::<i32>(alloc, template, pairs),
        Some(10) => fill_by::<i64>(alloc, template, pairs),
        Some(11) => fill_by::<i128>(alloc, template, pairs),
        Some(12) => fill_by::<isize>(alloc, template, pairs),
        _ => Err(Fault::NoSuchType),
    }
}

/// `strfmt` over the map of these keys and values, which stand by turns.
fn fill_by<K: Hash + Eq + FromKey>(
    alloc: Global,
    template: &str,
    pairs: &[String],
) -> Result<Vec<String>, Fault> {
    let mut vars: HashMap<K, Shown> = HashMap::new(alloc);
    let mut rest = pairs;
    'pairs: while let [key, value, after @ ..] = rest {
        let key = K::from_key(alloc, key.as_str())?.ok_or(Fault::BadInput)?;
        vars.insert(key, Shown(read_value(alloc, value.as_str())?))?;
        rest = after;
    }
    if !rest.is_empty() {
        return Err(Fault::BadInput);
    }
    filled(alloc, strfmt(alloc, template, &vars))
}

/// Whether the pattern's sign is unspecified.
fn is_unspecified(alloc: Global, pattern: &str) -> Result<Vec<String>, Fault> {
    match Formatter::from_str(alloc, pattern) {
        Ok(formatter) => {
            let answer = formatter.sign().is_unspecified();
            Ok(vec![in alloc; format!(in alloc; "ok:{answer}")?]?)
        }
        Err(error) => refused(alloc, error),
    }
}

/// A pattern's parts, what each operation on it answers, and the text that then stands.
fn format(alloc: Global, pattern: &str, operations: &[String]) -> Result<Vec<String>, Fault> {
    let mut formatter = match Formatter::from_str(alloc, pattern) {
        Ok(formatter) => formatter,
        Err(error) => return refused(alloc, error),
    };
    let mut fields = parts(alloc, &formatter)?;
    'operations: for operation in operations {
        let field = match operate(alloc, &mut formatter, operation.as_str())? {
            Ok(()) => String::from_str(alloc, "ok")?,
            Err(error) => {
                let (name, message) = name_of(error)?;
                format!(in alloc; "err:{name}:{message}")?
            }
        };
        fields.push(field)?;
    }
    let text = formatter.text();
    fields.push(format!(in alloc; "text={text}")?)?;
    Ok(fields)
}

/// The operations on a formatter; any other field is a value that is displayed.
const OPERATIONS: [&str; 6] = [
    "write_str",
    "str",
    "str_unchecked",
    "skip",
    "set_default_align",
    "set_precision",
];

/// Does one operation.
fn operate(
    alloc: Global,
    formatter: &mut Formatter<'_>,
    operation: &str,
) -> Result<strfmt::Result<()>, Fault> {
    let (name, text) = operation.split_once(':').unwrap_or((operation, ""));
    match place_of(name, &OPERATIONS) {
        Some(0) => Ok(formatter.write_str(text)),
        Some(1) => Ok(formatter.str(text)),
        Some(2) => Ok(formatter.str_unchecked(text)),
        Some(3) => Ok(formatter.skip()),
        Some(4) => {
            formatter.set_default_align(read_alignment(text)?);
            Ok(Ok(()))
        }
        Some(5) => {
            formatter.set_precision(read_precision(text)?);
            Ok(Ok(()))
        }
        _ => Ok(Shown(read_value(alloc, operation)?).display_str(formatter)),
    }
}

fn read_alignment(name: &str) -> Result<Alignment, Fault> {
    match place_of(name, &["Unspecified", "Left", "Center", "Right", "Equal"]) {
        Some(0) => Ok(Alignment::Unspecified),
        Some(1) => Ok(Alignment::Left),
        Some(2) => Ok(Alignment::Center),
        Some(3) => Ok(Alignment::Right),
        Some(4) => Ok(Alignment::Equal),
        _ => Err(Fault::BadInput),
    }
}

fn read_precision(text: &str) -> Result<Option<usize>, Fault> {
    if text == "-" {
        return Ok(None);
    }
    let number = text.parse().map_err(|_| Fault::BadInput)?;
    Ok(Some(number))
}

/// `ok`, and the parts of the pattern.
fn parts(alloc: Global, f: &Formatter<'_>) -> Result<Vec<String>, Fault> {
    let mut fields = Vec::new(alloc);
    fields.push(String::from_str(alloc, "ok")?)?;
    let key = f.key;
    fields.push(format!(in alloc; "key={key}")?)?;
    let fill = f.fill();
    fields.push(format!(in alloc; "fill={fill}")?)?;
    let align = f.align();
    fields.push(format!(in alloc; "align={align:?}")?)?;
    let sign = f.sign();
    fields.push(format!(in alloc; "sign={sign:?}")?)?;
    push_flag(alloc, &mut fields, "plus", f.sign_plus())?;
    push_flag(alloc, &mut fields, "minus", f.sign_minus())?;
    push_flag(alloc, &mut fields, "alternate", f.alternate())?;
    fields.push(number_text(alloc, "width", f.width())?)?;
    push_flag(alloc, &mut fields, "thousands", f.thousands())?;
    fields.push(number_text(alloc, "precision", f.precision())?)?;
    fields.push(match f.ty() {
        Some(ty) => format!(in alloc; "ty='{ty}'")?,
        None => String::from_str(alloc, "ty=-")?,
    })?;
    push_flag(alloc, &mut fields, "int", f.is_int_type())?;
    push_flag(alloc, &mut fields, "float", f.is_float_type())?;
    Ok(fields)
}

/// Adds `NAME=true` or `NAME=false`.
fn push_flag(alloc: Global, fields: &mut Vec<String>, name: &str, flag: bool) -> Result<(), Fault> {
    fields.push(format!(in alloc; "{name}={flag}")?)?;
    Ok(())
}

/// `NAME=N`, or `NAME=-`.
fn number_text(alloc: Global, name: &str, number: Option<usize>) -> Result<String, Fault> {
    match number {
        Some(number) => Ok(format!(in alloc; "{name}={number}")?),
        None => Ok(format!(in alloc; "{name}=-")?),
    }
}
