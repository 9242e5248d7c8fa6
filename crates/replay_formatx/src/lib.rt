//! The calls of formatx that lines name.
#![tactic(auto)]

mod parts;
mod shown;

use formatx::{Error, Names, Template, parse, render};
use parts::segment_text;
use replay::{Fault, read_value, undo_texts};
use shown::Shown;
use std::alloc::Global;

/// The answer of a call, whose inputs still have their escapes.
pub fn answer(alloc: Global, call: &str, inputs: &[&str]) -> Result<Vec<String>, Fault> {
    let inputs = undo_texts(alloc, inputs)?;
    match (call.as_bytes(), inputs.as_slice()) {
        (b"finish", [template, values @ ..]) => finish(alloc, template.as_str(), values, true),
        (b"finish_lenient", [template, values @ ..]) => {
            finish(alloc, template.as_str(), values, false)
        }
        (b"render", [prefix, template, values @ ..]) => {
            append(alloc, prefix.as_str(), template.as_str(), values, true)
        }
        (b"render_lenient", [prefix, template, values @ ..]) => {
            append(alloc, prefix.as_str(), template.as_str(), values, false)
        }
        (b"parse", [template]) => segments(alloc, template.as_str()),
        (b"placeholders", [template]) => placeholders(alloc, template.as_str()),
        (b"contains", [template, name]) => contains(alloc, template.as_str(), name.as_str()),
        _ => Err(Fault::NoSuchCall),
    }
}

/// The error's name, its span, its detail and its text.
fn refused(alloc: Global, error: Error) -> Result<Vec<String>, Fault> {
    let text = format!(in alloc; "{error}")?;
    let (name, span, detail) = match error {
        Error::Parse { span, message } => ("err:Parse", span, message),
        Error::MissingArgument { name, span } => ("err:MissingArgument", span, name),
        Error::UnsupportedTrait { format_type, span } => (
            "err:UnsupportedTrait",
            span,
            format!(in alloc; "{format_type:?}")?,
        ),
        Error::NoMemory => return Err(Fault::NoMemory),
    };
    let name = String::from_str(alloc, name)?;
    let start = span.start.to_string(alloc)?;
    let end = span.end.to_string(alloc)?;
    Ok(vec![in alloc; name, start, end, detail, text]?)
}

/// The values by position, and the names for some of these positions.
#[derive(Drop)]
struct Arguments {
    values: Vec<Shown>,
    names: Names,
}

/// Reads names and values, which stand by turns; an empty name is none.
fn read_arguments(alloc: Global, pairs: &[String]) -> Result<Arguments, Fault> {
    let mut values = Vec::new(alloc);
    let mut names = Names::new(alloc);
    let mut rest = pairs;
    'pairs: while let [name, value, after @ ..] = rest {
        if !name.is_empty() {
            let index = values.len();
            if names.add(name.as_str(), index).is_err() {
                return Err(Fault::NoMemory);
            }
        }
        values.push(Shown(read_value(alloc, value.as_str())?))?;
        rest = after;
    }
    if !rest.is_empty() {
        return Err(Fault::BadInput);
    }
    Ok(Arguments { values, names })
}

/// `finish`, or `finish_lenient` where `strict` isn't set.
fn finish(
    alloc: Global,
    template: &str,
    pairs: &[String],
    strict: bool,
) -> Result<Vec<String>, Fault> {
    let template = match Template::new(alloc, template) {
        Ok(template) => template,
        Err(error) => return refused(alloc, error),
    };
    let mut renderer = template.render(alloc);
    let mut rest = pairs;
    'pairs: while let [name, value, after @ ..] = rest {
        let value = Shown(read_value(alloc, value.as_str())?);
        let added = if name.is_empty() {
            renderer.arg(value).is_ok()
        } else {
            renderer.named(name.as_str(), value).is_ok()
        };
        if !added {
            return Err(Fault::NoMemory);
        }
        rest = after;
    }
    if !rest.is_empty() {
        return Err(Fault::BadInput);
    }
    let result = if strict {
        renderer.finish()
    } else {
        renderer.finish_lenient()
    };
    match result {
        Ok(text) => Ok(vec![in alloc; format!(in alloc; "ok:{text}")?]?),
        Err(error) => refused(alloc, error),
    }
}

/// `render` into a text that holds a prefix.
fn append(
    alloc: Global,
    prefix: &str,
    template: &str,
    pairs: &[String],
    strict: bool,
) -> Result<Vec<String>, Fault> {
    let parsed = match parse(alloc, template) {
        Ok(parsed) => parsed,
        Err(error) => return refused(alloc, error),
    };
    let Arguments { values, names } = read_arguments(alloc, pairs)?;
    let mut output = String::from_str(alloc, prefix)?;
    match render(
        alloc,
        &mut output,
        template,
        &parsed,
        &values,
        &names,
        strict,
    ) {
        Ok(()) => Ok(vec![in alloc; format!(in alloc; "ok:{output}")?]?),
        Err(error) => {
            let mut fields = refused(alloc, error)?;
            fields.push(format!(in alloc; "={output}")?)?;
            Ok(fields)
        }
    }
}

/// `Template::placeholders`.
fn placeholders(alloc: Global, template: &str) -> Result<Vec<String>, Fault> {
    let template = match Template::new(alloc, template) {
        Ok(template) => template,
        Err(error) => return refused(alloc, error),
    };
    let names = match template.placeholders(alloc) {
        Ok(names) => names,
        Err(error) => return refused(alloc, error),
    };
    let mut fields = vec![in alloc; String::from_str(alloc, "ok")?]?;
    'names: for name in &names {
        fields.push(format!(in alloc; "={name}")?)?;
    }
    Ok(fields)
}

/// `Template::contains`.
fn contains(alloc: Global, template: &str, name: &str) -> Result<Vec<String>, Fault> {
    match Template::new(alloc, template) {
        Ok(template) => {
            let answer = template.contains(name);
            Ok(vec![in alloc; format!(in alloc; "ok:{answer}")?]?)
        }
        Err(error) => refused(alloc, error),
    }
}

/// `parse`: `ok` and each segment.
fn segments(alloc: Global, template: &str) -> Result<Vec<String>, Fault> {
    let parsed = match parse(alloc, template) {
        Ok(parsed) => parsed,
        Err(error) => return refused(alloc, error),
    };
    let mut fields = vec![in alloc; String::from_str(alloc, "ok")?]?;
    'segments: for segment in &parsed.segments {
        fields.push(segment_text(alloc, segment)?)?;
    }
    Ok(fields)
}
