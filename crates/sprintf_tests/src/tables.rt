// The tables, row by row.
use crate::rows::{GIVEN, NO_FORMATS, PARSED, PRINTED, REFUSED};
use sprintf::parser::{FormatElement, parse_format_string};
use sprintf::{Arg, ConversionSpecifier, NumericParam, PrintfError, vsprintf, vsprintfp};
use std::alloc::Global;
use std::process::Abort;
use std::test::Fail;

/// A value, written `KIND:TEXT`.
fn arg_of(word: &str) -> Result<Arg<'_>, Fail> {
    let (kind, text) = word.split_once(':').ok_or("no kind")?;
    match kind {
        "str" => Ok(Arg::from(text)),
        "char" => Ok(Arg::from(text.chars().next().ok_or("no character")?)),
        "u8" | "u16" | "u32" | "u64" | "usize" => unsigned_arg(kind, text),
        _ => signed_arg(kind, text),
    }
}

fn unsigned_arg<'t>(kind: &str, text: &str) -> Result<Arg<'t>, Fail> {
    match kind {
        "u8" => Ok(Arg::from(text.parse::<u8>()?)),
        "u16" => Ok(Arg::from(text.parse::<u16>()?)),
        "u32" => Ok(Arg::from(text.parse::<u32>()?)),
        "u64" => Ok(Arg::from(text.parse::<u64>()?)),
        _ => Ok(Arg::from(text.parse::<usize>()?)),
    }
}

fn signed_arg<'t>(kind: &str, text: &str) -> Result<Arg<'t>, Fail> {
    match kind {
        "i8" => Ok(Arg::from(text.parse::<i8>()?)),
        "i16" => Ok(Arg::from(text.parse::<i16>()?)),
        "i32" => Ok(Arg::from(text.parse::<i32>()?)),
        "i64" => Ok(Arg::from(text.parse::<i64>()?)),
        "isize" => Ok(Arg::from(text.parse::<isize>()?)),
        _ => Err("no such kind")?,
    }
}

/// The values between the format and the answer of a row.
fn args_of<'t>(alloc: Global, words: &'t str) -> Result<Vec<Arg<'t>>, Fail> {
    let mut args = Vec::new(alloc);
    'words: for word in words.split(';') {
        if !word.is_empty() {
            args.push(arg_of(word)?)?;
        }
    }
    Ok(args)
}

/// The format of a row, its values, and the answer.
fn parts_of(row: &str) -> Result<(&str, &str, &str), Fail> {
    let (front, answer) = row.rsplit_once(';').ok_or("no answer")?;
    match front.split_once(';') {
        Some((format, values)) => Ok((format, values, answer)),
        None => Ok((front, "", answer)),
    }
}

fn printed_row(rt: &impl Abort, alloc: Global, row: &str) -> Result<(), Fail> {
    let (format, values, want) = parts_of(row)?;
    let args = args_of(alloc, values)?;
    let text = vsprintf(alloc, format, &args)?;
    assert_eq!(rt; text.as_str(), want, "{row}");
    let elements = parse_format_string(alloc, format)?;
    let again = vsprintfp(alloc, &elements, &args)?;
    assert_eq!(rt; again.as_str(), want, "{row}");
    Ok(())
}

#[test]
fn values_are_printed(rt: HostRuntime) -> Result<(), Fail> {
    'rows: for row in PRINTED.lines() {
        printed_row(&rt, rt.alloc(), row)?;
    }
    Ok(())
}

fn refused_row(rt: &impl Abort, alloc: Global, row: &str) -> Result<(), Fail> {
    let (format, values, want) = parts_of(row)?;
    let args = args_of(alloc, values)?;
    match vsprintf(alloc, format, &args) {
        Ok(text) => assert!(rt; false, "{row}: {text}"),
        Err(fault) => {
            let name = format!(in alloc; "{fault:?}")?;
            assert_eq!(rt; name.as_str(), want, "{row}");
        }
    }
    Ok(())
}

#[test]
fn faults_are_found(rt: HostRuntime) -> Result<(), Fail> {
    'rows: for row in REFUSED.lines() {
        refused_row(&rt, rt.alloc(), row)?;
    }
    Ok(())
}

fn push_param(text: &mut String, param: NumericParam) -> Result<(), Fail> {
    match param {
        NumericParam::Literal(number) => write!(text, "{number}/")?,
        NumericParam::FromArgument => text.push_str("*/")?,
    }
    Ok(())
}

/// A field as a row shows it.
fn push_field(text: &mut String, spec: &ConversionSpecifier) -> Result<(), Fail> {
    'flags: for (is_given, flag) in [
        (spec.alt_form, "#"),
        (spec.zero_pad, "0"),
        (spec.left_adj, "-"),
        (spec.space_sign, " "),
        (spec.force_sign, "+"),
    ] {
        if is_given {
            text.push_str(flag)?;
        }
    }
    text.push('/')?;
    push_param(text, spec.width)?;
    push_param(text, spec.precision)?;
    let conversion = spec.conversion_type;
    write!(text, "{conversion:?}")?;
    Ok(())
}

fn parsed_row(rt: &impl Abort, alloc: Global, row: &str) -> Result<(), Fail> {
    let (format, want) = row.split_once(';').ok_or("no answer")?;
    let elements = parse_format_string(alloc, format)?;
    let mut text = String::new(alloc);
    'elements: for element in &elements {
        if !text.is_empty() {
            text.push(',')?;
        }
        match element {
            FormatElement::Verbatim(run) => write!(text, "'{run}'")?,
            FormatElement::Format(spec) => push_field(&mut text, spec)?,
        }
    }
    assert_eq!(rt; text.as_str(), want, "{row}");
    Ok(())
}

#[test]
fn formats_are_read(rt: HostRuntime) -> Result<(), Fail> {
    'rows: for row in PARSED.lines() {
        parsed_row(&rt, rt.alloc(), row)?;
    }
    'formats: for format in NO_FORMATS.lines() {
        let answer = parse_format_string(rt.alloc(), format);
        assert_eq!(rt; answer, Err(PrintfError::ParseError), "{format}");
    }
    Ok(())
}

fn given_row(rt: &impl Abort, row: &str) -> Result<(), Fail> {
    let (value, number) = row.split_once(';').ok_or("no number")?;
    let want = match number {
        "none" => None,
        _ => Some(number.parse::<i32>()?),
    };
    assert_eq!(rt; sprintf::Printf::as_int(&arg_of(value)?), want, "{row}");
    Ok(())
}

#[test]
fn numbers_are_given(rt: HostRuntime) -> Result<(), Fail> {
    'rows: for row in GIVEN.lines() {
        given_row(&rt, row)?;
    }
    Ok(())
}
