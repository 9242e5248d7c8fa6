//! Prints what calls of the libraries give, and ends with status 6 where memory is wanting. `make faults` runs it while each
//! allocation in turn is refused.
#![tactic(auto)]

use edge_io::{MemSource, Sink, StderrSink, StdoutSink, write_all};
use formatx::Template;
use sprintf::{Arg, PrintfError, vsprintf};
use std::alloc::{AllocError, AllocFailed, Global};
use std::collections::HashMap;
use std::process::ExitCode;
use strfmt::{FmtError, strfmt};
use whiteread::adapters::Zeroed;
use whiteread::reader::Reader;
use whiteread::{parse_string, stream};

/// Why there is no text.
enum Stop {
    NoMemory,
    /// An answer that the call doesn't have.
    Other,
}

impl From<AllocError> for Stop {
    fn from(_error: AllocError) -> Stop {
        Stop::NoMemory
    }
}

impl<T: Drop> From<AllocFailed<T>> for Stop {
    fn from(_failed: AllocFailed<T>) -> Stop {
        Stop::NoMemory
    }
}

/// The values of two keys.
fn vars_of(alloc: Global) -> Result<HashMap<String, &'static str>, Stop> {
    let mut vars: HashMap<String, &str> = HashMap::new(alloc);
    vars.insert(String::from_str(alloc, "name")?, "bob")?;
    vars.insert(String::from_str(alloc, "job")?, "python developer")?;
    Ok(vars)
}

/// A strfmt text of two keys.
fn filled_keys(alloc: Global) -> Result<String, Stop> {
    let vars = vars_of(alloc)?;
    match strfmt(alloc, "hi, my name is {name} and I am a {job}!\n", &vars) {
        Ok(text) => Ok(text),
        Err(FmtError::NoMemory) => Err(Stop::NoMemory),
        Err(_) => Err(Stop::Other),
    }
}

/// A formatx text of three places, or the refusal.
fn sum_of(alloc: Global) -> Result<String, formatx::Error> {
    let template = Template::new(alloc, "{} + {} = {}\n")?;
    let mut renderer = template.render::<u8>(alloc);
    renderer.arg(1)?.arg(2)?.arg(3)?.finish()
}

/// A formatx text of three places.
fn filled_places(alloc: Global) -> Result<String, Stop> {
    match sum_of(alloc) {
        Ok(text) => Ok(text),
        Err(formatx::Error::NoMemory) => Err(Stop::NoMemory),
        Err(_) => Err(Stop::Other),
    }
}

/// A printf text of a word, a width and a number.
fn printed_arguments(alloc: Global) -> Result<String, Stop> {
    let args = [Arg::Str("forty-two"), Arg::I32(4), Arg::I32(42)];
    match vsprintf(alloc, "%s = %*d\n", &args) {
        Ok(text) => Ok(text),
        Err(PrintfError::NoMemory) => Err(Stop::NoMemory),
        Err(_) => Err(Stop::Other),
    }
}

/// Numbers up to a zero, and a word.
fn numbers_and_a_word(alloc: Global) -> Result<String, Stop> {
    match parse_string::<(Zeroed<u8>, String)>(alloc, "20 21 22 0 foo") {
        Ok((numbers, word)) => Ok(format!(in alloc; "{numbers:?} {word}\n")?),
        Err(stream::Error::NoMemory) => Err(Stop::NoMemory),
        Err(_) => Err(Stop::Other),
    }
}

/// The error of reading a number from a line of one character, of two bytes.
fn shown_place(alloc: Global) -> Result<String, Stop> {
    let line = "é\n".as_bytes().to_vec(alloc)?;
    let mut reader = Reader::new(alloc, MemSource::new(line, 9, Vec::new(alloc)), 999);
    match reader.line::<i32>() {
        Ok(_) => Err(Stop::Other),
        Err(why) => match why.inner() {
            stream::Error::NoMemory => Err(Stop::NoMemory),
            _ => Ok(format!(in alloc; "{why}")?),
        },
    }
}

/// Makes each text.
fn texts(alloc: Global) -> Result<String, Stop> {
    let mut all = filled_keys(alloc)?;
    all.push_str(filled_places(alloc)?.as_str())?;
    all.push_str(printed_arguments(alloc)?.as_str())?;
    all.push_str(numbers_and_a_word(alloc)?.as_str())?;
    all.push_str(shown_place(alloc)?.as_str())?;
    Ok(all)
}

/// Writes a message, and gives the status.
fn told<E: Sink>(errors: &mut E, message: &str, status: u8) -> u8 {
    let _ = write_all(errors, message.as_bytes());
    status
}

fn main(rt: HostRuntime) -> ExitCode {
    let mut output = StdoutSink::new(&rt);
    let mut errors = StderrSink::new(&rt);
    let status = match texts(rt.alloc()) {
        Ok(all) => match write_all(&mut output, all.as_bytes()) {
            Ok(()) => 0,
            Err(_) => told(&mut errors, "write fault\n", 5),
        },
        Err(Stop::NoMemory) => told(&mut errors, "no memory\n", 6),
        Err(Stop::Other) => told(&mut errors, "another answer\n", 1),
    };
    ExitCode::from(status)
}
