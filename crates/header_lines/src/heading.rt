// The lines in front of the format line, in both versions.
ghost use Rattle.std.specs.Prelude.{◌≡◌, ◌≤◌, ◌↔◌, IfOk, IsTrue};
ghost use Rattle.line_job.specs.Refusal.{IfRefused};
ghost use Rattle.header_lines.specs.Heading.{IsSecondVersion, first_next, KeepsHeading, RefusesHeading, heading_number, number_in};
ghost use Rattle.header_lines.specs.Read.{heading_of, headed_of};

use crate::LineCause;
use crate::headers::{one_word, read_kinds};
use crate::names::read_names;
use line_job::Refusal;
use std::alloc::Global;
use values::{Kind, Word};

/// How the input is laid out: in the first version kinds stand in the first line; the second begins with the line `#2`, and names
/// its fields.
#[derive(Clone, Copy, Debug, PartialEq, Eq)]
pub enum Version {
    First,
    Second,
}

impl Version {
    /// The number of a line behind the heading, by its number in the first version, which is at most 5.
    pub fn number_in(self, number: u64) -> u64
        requires { number ≤ 5 }
        ensures { result ≡ number_in self number }
    {
        match self {
            Version::First => number,
            Version::Second => number + 2,
        }
    }
}

/// What the lines in front of the format line said: the kinds of the fields, and their names, of which the first version has none.
#[derive(Drop)]
pub struct Fields {
    pub version: Version,
    pub kinds: Vec<Kind>,
    pub names: Vec<Word>,
}

/// Which line in front of the format line comes next: the first of all; the kinds of the second version; the names of fields of
/// these kinds.
#[derive(Drop)]
pub enum Heading {
    First,
    Kinds,
    Names(Vec<Kind>),
}

/// What comes after a line in front of the format line: another such line, or the format line.
#[derive(Drop)]
pub enum Headed {
    More(Heading),
    Format(Fields),
}

impl Heading {
    /// The number of the line that comes next.
    pub fn number(&self) -> u64
        ensures { result ≡ heading_number (heading_of self.now) }
    {
        match self {
            Heading::First => 1,
            Heading::Kinds => 2,
            Heading::Names(_) => 3,
        }
    }
}

/// Whether the line begins the second version. It takes no memory.
fn is_second_version(line: &str) -> bool
    ensures { IsTrue result ↔ IsSecondVersion line.now }
{
    one_word(line) == Some("#2")
}

/// Reads the first line of all.
fn read_first(alloc: Global, number: u64, line: &str) -> Result<Headed, Refusal<LineCause>>
    ensures kept { IfOk result (λ headed. KeepsHeading first_next line.now (headed_of headed)) }
    ensures refused { IfRefused result (RefusesHeading first_next number line.now) }
{
    if is_second_version(line) {
        return Ok(Headed::More(Heading::Kinds));
    }
    let kinds = read_kinds(alloc, number, line)?;
    Ok(Headed::Format(Fields {
        version: Version::First,
        kinds,
        names: Vec::new(alloc),
    }))
}

/// Reads a line in front of the format line.
pub fn read_heading(
    alloc: Global,
    heading: Heading,
    number: u64,
    line: &str,
) -> Result<Headed, Refusal<LineCause>>
    ensures kept { IfOk result (λ headed. KeepsHeading (heading_of heading) line.now (headed_of headed)) }
    ensures refused { IfRefused result (RefusesHeading (heading_of heading) number line.now) }
{
    match heading {
        Heading::First => read_first(alloc, number, line),
        Heading::Kinds => {
            let kinds = read_kinds(alloc, number, line)?;
            Ok(Headed::More(Heading::Names(kinds)))
        }
        Heading::Names(kinds) => {
            let names = read_names(alloc, number, &kinds, line)?;
            Ok(Headed::Format(Fields {
                version: Version::Second,
                kinds,
                names,
            }))
        }
    }
}
