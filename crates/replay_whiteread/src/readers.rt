// The calls of a reader, over sources in memory.

use crate::texts::{read, shown};
use crate::types::{TypedCall, call_at};
use edge_io::MemSource;
use replay::{Fault, place_of, undo};
use std::alloc::Global;
use std::fmt::Debug;
use whiteread::reader::{Error, Reader};
use whiteread::{FromStream, stream};

/// The limit where a line gives none.
const LIMIT: u64 = 268435456;

/// How many bytes a read gives at most where a line says nothing else.
const PIECE: usize = 4096;

/// How an error stands in the answer.
#[derive(Clone, Copy)]
enum Style {
    /// `err:NAME:PLACE:TEXT`
    Parts,
    /// `debug:` and the debug text.
    Debug,
}

/// A call that reads a value.
#[derive(Clone, Copy)]
enum Operation {
    Continue,
    Parse,
    Finish,
    ContinueLine,
    FinishLine,
    StartLine,
    Line,
}

const OPERATIONS: [&str; 7] = [
    "continue_",
    "parse",
    "finish",
    "continue_line",
    "finish_line",
    "start_line",
    "line",
];

fn operation_named(name: &str) -> Result<Operation, Fault> {
    match place_of(name, &OPERATIONS) {
        Some(0) => Ok(Operation::Continue),
        Some(1) => Ok(Operation::Parse),
        Some(2) => Ok(Operation::Finish),
        Some(3) => Ok(Operation::ContinueLine),
        Some(4) => Ok(Operation::FinishLine),
        Some(5) => Ok(Operation::StartLine),
        Some(6) => Ok(Operation::Line),
        _ => Err(Fault::NoSuchCall),
    }
}

/// The answer of a call on a reader. The inputs still have their escapes, since the text need not be UTF-8.
pub(crate) fn answer(alloc: Global, call: &str, inputs: &[&str]) -> Result<Vec<String>, Fault> {
    let style = match call.as_bytes() {
        b"reader" => Style::Parts,
        b"reader_debug" => Style::Debug,
        _ => return Err(Fault::NoSuchCall),
    };
    let [text, rest @ ..] = inputs else {
        return Err(Fault::NoSuchCall);
    };
    let mut piece = PIECE;
    let mut failing = Vec::new(alloc);
    let mut limit = LIMIT;
    let mut rest = rest;
    'options: while let [option, after @ ..] = rest {
        let (name, value) = option.split_once(':').unwrap_or((option, ""));
        match name.as_bytes() {
            b"piece" => piece = value.parse().map_err(|_| Fault::BadInput)?,
            b"failing" => failing = read_numbers(alloc, value)?,
            b"limit" => limit = value.parse().map_err(|_| Fault::BadInput)?,
            _ => break 'options,
        }
        rest = after;
    }
    let source = MemSource::new(undo(alloc, text)?, piece, failing);
    operate(alloc, Reader::new(alloc, source, limit), style, rest)
}

/// Numbers between commas.
fn read_numbers(alloc: Global, text: &str) -> Result<Vec<u64>, Fault> {
    let mut numbers = Vec::new(alloc);
    'numbers: for number in text.split(',') {
        numbers.push(number.parse().map_err(|_| Fault::BadInput)?)?;
    }
    Ok(numbers)
}

/// Does the operations in order, each with one field.
fn operate(
    alloc: Global,
    reader: Reader<MemSource>,
    style: Style,
    operations: &[&str],
) -> Result<Vec<String>, Fault> {
    let mut reader = reader;
    let mut fields = Vec::new(alloc);
    'operations: for operation in operations {
        let field = match operation.split_once(':') {
            Some((name, type_name)) => {
                let mut step = Step {
                    reader: &mut reader,
                    operation: operation_named(name)?,
                    style,
                };
                call_at(alloc, type_name, &mut step)?
                    .pop()
                    .ok_or(Fault::NoSuchCall)?
            }
            None if *operation == "next_line" => next_line(alloc, &mut reader, style)?,
            None => return Err(Fault::NoSuchCall),
        };
        fields.push(field)?;
    }
    Ok(fields)
}

/// `next_line`.
fn next_line(alloc: Global, reader: &mut Reader<MemSource>, style: Style) -> Result<String, Fault> {
    match reader.next_line() {
        Ok(line) => Ok(format!(in alloc; "ok:{line}")?),
        Err(error) => refused(alloc, &error, style),
    }
}

/// One operation at a type.
#[derive(Drop)]
struct Step<'r> {
    reader: &'r mut Reader<MemSource>,
    operation: Operation,
    style: Style,
}

impl TypedCall for Step<'_> {
    fn at<T: FromStream + Debug>(&mut self, alloc: Global) -> Result<Vec<String>, Fault> {
        let outcome = match self.operation {
            Operation::Continue => self.reader.continue_::<T>(),
            Operation::Parse => self.reader.parse::<T>(),
            Operation::Finish => self.reader.finish::<T>(),
            Operation::ContinueLine => self.reader.continue_line::<T>(),
            Operation::FinishLine => self.reader.finish_line::<T>(),
            Operation::StartLine => self.reader.start_line::<T>(),
            Operation::Line => self.reader.line::<T>(),
        };
        let field = match outcome {
            Ok(value) => shown(alloc, &value)?,
            Err(error) => refused(alloc, &error, self.style)?,
        };
        Ok(vec![in alloc; field]?)
    }
}

/// The error, with its name, its place and its text, or by its debug text.
fn refused(alloc: Global, error: &Error, style: Style) -> Result<String, Fault> {
    if let stream::Error::NoMemory = error.inner() {
        return Err(Fault::NoMemory);
    }
    let name = error.inner();
    match (style, error.location()) {
        (Style::Debug, _) => Ok(format!(in alloc; "debug:{error:?}")?),
        (Style::Parts, Some((row, column))) => {
            Ok(format!(in alloc; "err:{name:?}:{row},{column}:{error}")?)
        }
        (Style::Parts, None) => Ok(format!(in alloc; "err:{name:?}:-:{error}")?),
    }
}

/// `read` of a reader over a text.
#[derive(Drop)]
pub(crate) struct ReadReader<'t> {
    pub text: &'t str,
}

impl TypedCall for ReadReader<'_> {
    fn at<T: FromStream + Debug>(&mut self, alloc: Global) -> Result<Vec<String>, Fault> {
        let bytes = self.text.as_bytes().to_vec(alloc)?;
        let source = MemSource::new(bytes, PIECE, Vec::new(alloc));
        read::<T, _>(alloc, &mut Reader::new(alloc, source, LIMIT))
    }
}
