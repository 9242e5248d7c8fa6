//! The calls of sprintf that lines name.
#![tactic(auto)]

use replay::{Fault, Value, place_of, read_value, read_values, undo_texts};
use sprintf::parser::{FormatElement, parse_format_string};
use sprintf::{Arg, ConversionSpecifier, ConversionType, NumericParam, PrintfError, vsprintf};
use std::alloc::Global;

/// The answer of a call, whose inputs still have their escapes.
pub fn answer(alloc: Global, call: &str, inputs: &[&str]) -> Result<Vec<String>, Fault> {
    let inputs = undo_texts(alloc, inputs)?;
    match (call.as_bytes(), inputs.as_slice()) {
        (b"vsprintf", [format, values @ ..]) => print(alloc, format.as_str(), values),
        (b"parse", [format]) => parse(alloc, format.as_str()),
        (b"format", [flags, width, precision, conversion, value]) => {
            let spec = ConversionSpecifier {
                width: read_param(width.as_str())?,
                precision: read_param(precision.as_str())?,
                ..read_spec(flags.as_str(), conversion.as_str())?
            };
            let value = read_value(alloc, value.as_str())?;
            printed(
                alloc,
                sprintf::Printf::format(&arg_of(&value)?, alloc, &spec),
            )
        }
        (b"as_int", [value]) => as_int(alloc, value.as_str()),
        _ => Err(Fault::NoSuchCall),
    }
}

/// The argument that holds a value.
fn arg_of(value: &Value) -> Result<Arg<'_>, Fault> {
    match value {
        Value::U8(n) => Ok(Arg::U8(*n)),
        Value::U16(n) => Ok(Arg::U16(*n)),
        Value::U32(n) => Ok(Arg::U32(*n)),
        Value::U64(n) => Ok(Arg::U64(*n)),
        Value::Usize(n) => Ok(Arg::Usize(*n)),
        Value::I8(n) => Ok(Arg::I8(*n)),
        Value::I16(n) => Ok(Arg::I16(*n)),
        Value::I32(n) => Ok(Arg::I32(*n)),
        Value::I64(n) => Ok(Arg::I64(*n)),
        Value::Isize(n) => Ok(Arg::Isize(*n)),
        Value::Char(c) => Ok(Arg::Char(*c)),
        Value::Str(text) => Ok(Arg::from(text.as_str())),
        Value::String(text) => Ok(Arg::from(text)),
        Value::U128(_) | Value::I128(_) | Value::Bool(_) => Err(Fault::BadInput),
    }
}

/// `ok:TEXT`, or the error's name and its text.
fn printed(alloc: Global, outcome: sprintf::Result<String>) -> Result<Vec<String>, Fault> {
    match outcome {
        Ok(text) => Ok(vec![in alloc; format!(in alloc; "ok:{text}")?]?),
        Err(error) => refused(alloc, &error),
    }
}

/// The error's name and its text.
fn refused(alloc: Global, error: &PrintfError) -> Result<Vec<String>, Fault> {
    if *error == PrintfError::NoMemory {
        return Err(Fault::NoMemory);
    }
    let name = format!(in alloc; "err:{error:?}")?;
    let text = format!(in alloc; "{error}")?;
    Ok(vec![in alloc; name, text]?)
}

/// `vsprintf`.
fn print(alloc: Global, format: &str, values: &[String]) -> Result<Vec<String>, Fault> {
    let values = read_values(alloc, values)?;
    let mut args = Vec::new(alloc);
    'values: for value in &values {
        args.push(arg_of(value)?)?;
    }
    printed(alloc, vsprintf(alloc, format, &args))
}

/// `as_int`.
fn as_int(alloc: Global, value: &str) -> Result<Vec<String>, Fault> {
    let value = read_value(alloc, value)?;
    let text = match sprintf::Printf::as_int(&arg_of(&value)?) {
        Some(number) => format!(in alloc; "ok:{number}")?,
        None => String::from_str(alloc, "none")?,
    };
    Ok(vec![in alloc; text]?)
}

/// `parse_format_string`.
fn parse(alloc: Global, format: &str) -> Result<Vec<String>, Fault> {
    let elements = match parse_format_string(alloc, format) {
        Ok(elements) => elements,
        Err(error) => return refused(alloc, &error),
    };
    let mut fields = vec![in alloc; String::from_str(alloc, "ok")?]?;
    'elements: for element in &elements {
        fields.push(element_text(alloc, element)?)?;
    }
    Ok(fields)
}

/// `V:TEXT`, or `F:FLAGS:WIDTH:PRECISION:CONVERSION`.
fn element_text(alloc: Global, element: &FormatElement<'_>) -> Result<String, Fault> {
    let spec = match element {
        FormatElement::Verbatim(text) => return Ok(format!(in alloc; "V:{text}")?),
        FormatElement::Format(spec) => spec,
    };
    let mut text = String::from_str(alloc, "F:")?;
    'flags: for (is_given, flag) in [
        (spec.alt_form, '#'),
        (spec.zero_pad, '0'),
        (spec.left_adj, '-'),
        (spec.space_sign, ' '),
        (spec.force_sign, '+'),
    ] {
        if is_given {
            text.push(flag)?;
        }
    }
    push_param(&mut text, spec.width)?;
    push_param(&mut text, spec.precision)?;
    let conversion = spec.conversion_type;
    write!(text, ":{conversion:?}")?;
    Ok(text)
}

/// Appends a width or a precision after a `:`.
fn push_param(text: &mut String, param: NumericParam) -> Result<(), Fault> {
    match param {
        NumericParam::Literal(number) => write!(text, ":{number}")?,
        NumericParam::FromArgument => text.push_str(":*")?,
    }
    Ok(())
}

fn read_param(text: &str) -> Result<NumericParam, Fault> {
    if text == "*" {
        return Ok(NumericParam::FromArgument);
    }
    let number = text.parse().map_err(|_| Fault::BadInput)?;
    Ok(NumericParam::Literal(number))
}

/// A specification of these flags and this conversion, its width and precision 0.
fn read_spec(flags: &str, conversion: &str) -> Result<ConversionSpecifier, Fault> {
    Ok(ConversionSpecifier {
        alt_form: flags.contains('#'),
        zero_pad: flags.contains('0'),
        left_adj: flags.contains('-'),
        space_sign: flags.contains(' '),
        force_sign: flags.contains('+'),
        width: NumericParam::Literal(0),
        precision: NumericParam::Literal(0),
        conversion_type: read_conversion(conversion)?,
    })
}

const CONVERSIONS: [&str; 13] = [
    "DecInt",
    "OctInt",
    "HexIntLower",
    "HexIntUpper",
    "SciFloatLower",
    "SciFloatUpper",
    "DecFloatLower",
    "DecFloatUpper",
    "CompactFloatLower",
    "CompactFloatUpper",
    "Char",
    "String",
    "PercentSign",
];

fn read_conversion(name: &str) -> Result<ConversionType, Fault> {
    match place_of(name, &CONVERSIONS) {
        Some(0) => Ok(ConversionType::DecInt),
        Some(1) => Ok(ConversionType::OctInt),
        Some(2) => Ok(ConversionType::HexIntLower),
        Some(3) => Ok(ConversionType::HexIntUpper),
        Some(4) => Ok(ConversionType::SciFloatLower),
        Some(5) => Ok(ConversionType::SciFloatUpper),
        Some(6) => Ok(ConversionType::DecFloatLower),
        Some(7) => Ok(ConversionType::DecFloatUpper),
        Some(8) => Ok(ConversionType::CompactFloatLower),
        Some(9) => Ok(ConversionType::CompactFloatUpper),
        Some(10) => Ok(ConversionType::Char),
        Some(11) => Ok(ConversionType::String),
        Some(12) => Ok(ConversionType::PercentSign),
        _ => Err(Fault::BadInput),
    }
}
