// Why a line gives no answer.
use numerals::NoMemory;
use std::alloc::{AllocError, AllocFailed};
use std::fmt;

/// Why a line gives no answer. All but `NoMemory` and `Waits` are faults of the line itself.
#[derive(Clone, Copy, Debug, PartialEq, Eq)]
pub enum Fault {
    /// The line isn't UTF-8, or a field that is to be a text isn't once its escapes are undone.
    NotUtf8,
    /// A backslash that begins no escape.
    BadEscape,
    /// A line without a crate, a call or a `=>`.
    NoAnswer,
    NoSuchCrate,
    /// The crate has no such call, or it takes other inputs.
    NoSuchCall,
    NoSuchType,
    /// An input that doesn't read as what the call takes.
    BadInput,
    /// The call is not built yet.
    Waits,
    NoMemory,
}

impl fmt::Display for Fault {
    fn fmt<W: fmt::Write>(&self, f: &mut fmt::Formatter<W>) -> fmt::Result {
        f.write_str(match self {
            Fault::NotUtf8 => "not UTF-8",
            Fault::BadEscape => "a bad escape",
            Fault::NoAnswer => "no call or no answer in the line",
            Fault::NoSuchCrate => "no such crate",
            Fault::NoSuchCall => "no such call",
            Fault::NoSuchType => "no such type",
            Fault::BadInput => "an input that doesn't read",
            Fault::Waits => "not built",
            Fault::NoMemory => "no memory",
        })
    }
}

impl From<AllocError> for Fault {
    fn from(_error: AllocError) -> Fault {
        Fault::NoMemory
    }
}

impl<T: Drop> From<AllocFailed<T>> for Fault {
    fn from(_failed: AllocFailed<T>) -> Fault {
        Fault::NoMemory
    }
}

impl From<NoMemory> for Fault {
    fn from(_error: NoMemory) -> Fault {
        Fault::NoMemory
    }
}
