// The job that rewrites rows.
ghost use Rattle.std.specs.Prelude.{◌≡◌, [], IfOk, OnOk};
ghost use Rattle.line_job.specs.Refusal.{IfRefused};
ghost use Rattle.header_lines.specs.Heading.{first_next, number_in};
ghost use Rattle.header_lines.specs.Read.{headed_of};
ghost use Rattle.rewriting.specs.Rules.{Stage, rewrite_rules, heading_next, after, Keeps, Refuses};
ghost use Rattle.rewriting.specs.Inner.State.{stage_of, version_of, IsHeaderNext, IsSoundState};
ghost use Rattle.rewriting.specs.Inner.Clear.{rewrite_clear};

use crate::fast::Fast;
use crate::rows::{Room, Rows, Source, read_source};
use bumpalo::Bump;
use header_lines::{
    Fields, Headed, Heading, LineCause, Version, read_dialect, read_heading, read_template,
};
use line_job::{LineJob, Refusal};
use numerals::NoMemory;
use printer::Dialect;
use std::alloc::Global;
use std::mem;

/// Which line comes next, and what those before it said.
#[derive(Drop)]
pub(crate) enum State<'a> {
    Heading(Heading),
    Format(Fields),
    Dialect(Fields, Source<'a>),
    Template(Fields, Source<'a>, Dialect),
    Rows(Version, Rows<'a>),
}

impl State<'_> {
    /// The version of the input; the first, where no line was read.
    fn version(&self) -> Version
        ensures { result ≡ version_of (stage_of self.now) }
    {
        match self {
            State::Heading(Heading::First) => Version::First,
            State::Heading(_) => Version::Second,
            State::Format(fields) => fields.version,
            State::Dialect(fields, _) => fields.version,
            State::Template(fields, _, _) => fields.version,
            State::Rows(version, _) => *version,
        }
    }
}

// Where the job stands after a line in front of the format line.
fn state_after<'a>(headed: Headed) -> State<'a>
    ensures stage { stage_of result ≡ after (headed_of headed) }
    ensures sound { IsSoundState result }
{
    match headed {
        Headed::More(heading) => State::Heading(heading),
        Headed::Format(fields) => State::Format(fields),
    }
}

/// Reads the header line that comes next.
fn read_header<'a>(
    alloc: Global,
    texts: &'a Bump,
    state: State<'a>,
    number: u64,
    line: &str,
) -> Result<State<'a>, Refusal<LineCause>>
    requires header { IsHeaderNext state }
    requires sound { IsSoundState state }
    ensures kept { IfOk result (λ next. Keeps (stage_of state.entry) number line.now [] (stage_of next)) }
    ensures sound { IfOk result IsSoundState }
    ensures refused { IfRefused result (Refuses (stage_of state.entry) number line.now) }
{
    match state {
        State::Heading(heading) => Ok(state_after(read_heading(alloc, heading, number, line)?)),
        State::Format(fields) => {
            let source = read_source(alloc, texts, number, &fields.kinds, line)?;
            Ok(State::Dialect(fields, source))
        }
        State::Dialect(fields, source) => {
            let dialect = read_dialect(number, line)?;
            Ok(State::Template(fields, source, dialect))
        }
        State::Template(fields, source, dialect) => {
            let printer = read_template(alloc, texts, number, dialect, &fields.names, line)?;
            match Fast::new(alloc, &fields, source.text, dialect, line) {
                Ok(fast) => {
                    let rows = Rows {
                        source,
                        printer,
                        fast,
                    };
                    Ok(State::Rows(fields.version, rows))
                }
                Err(NoMemory) => Err(Refusal::NoMemory),
            }
        }
        State::Rows(version, rows) => Ok(State::Rows(version, rows)),
    }
}

/// The job that rewrites rows. The texts of its headers are kept in an arena, since their parts lend from them, and room for
/// all rows.
#[derive(Drop)]
pub(crate) struct Rewrite<'a> {
    texts: &'a Bump,
    state: State<'a>,
    room: Room,
}

impl<'a> Rewrite<'a> {
    /// No line was read. It takes no memory.
    pub(crate) fn new(alloc: Global, texts: &'a Bump) -> Rewrite<'a>
        ensures stage { stage_of result.state ≡ heading_next first_next }
        ensures sound { IsSoundState result.state }
    {
        Rewrite {
            texts,
            state: State::Heading(Heading::First),
            room: Room::new(alloc),
        }
    }

    /// How many header lines stand in front of the rows, by the version of the input.
    pub(crate) fn headers(&self) -> u64
        ensures { result ≡ number_in (version_of (stage_of self.now.state)) 4 }
    {
        self.state.version().number_in(4)
    }

    /// Takes the header line that comes next. It stands apart from the rows, since what it needs would be made ready for each of them.
    #[inline(never)]
    fn take_header(
        &mut self,
        alloc: Global,
        number: u64,
        line: &str,
    ) -> Result<(), Refusal<LineCause>>
        requires header { IsHeaderNext self.old.state }
        requires sound { IsSoundState self.old.state }
        ensures kept { OnOk result (Keeps (stage_of self.old.state) number line.now [] (stage_of self.new.state)) }
        ensures sound { OnOk result (IsSoundState self.new.state) }
        ensures refused { IfRefused result (Refuses (stage_of self.old.state) number line.now) }
    {
        let state = mem::replace(&mut self.state, State::Heading(Heading::First));
        self.state = read_header(alloc, self.texts, state, number, line)?;
        Ok(())
    }
}

impl LineJob for Rewrite<'_> {
    type Why = LineCause;

    ghost Stage = { Stage };

    ghost stage = { λ job. stage_of job.state };

    ghost rules = { rewrite_rules };

    ghost IsSound = { λ job. IsSoundState job.state };

    fn judges(&self) -> bool {
        true
    }

    fn line(
        &mut self,
        alloc: Global,
        number: u64,
        line: &str,
        out: &mut String,
    ) -> Result<(), Refusal<LineCause>> {
        if let State::Rows(_, rows) = &self.state {
            return rows.rewrite(alloc, number, line, &mut self.room, out);
        }
        self.take_header(alloc, number, line)
    }

    fn end(
        &self,
        _alloc: Global,
        _before: u64,
        _out: &mut String,
    ) -> Result<(), Refusal<LineCause>> {
        let missing = match &self.state {
            State::Heading(heading) => heading.number(),
            State::Format(fields) => fields.version.number_in(2),
            State::Dialect(fields, _) => fields.version.number_in(3),
            State::Template(fields, _, _) => fields.version.number_in(4),
            State::Rows(_, _) => return Ok(()),
        };
        Err(Refusal::Line(LineCause::Header { line: missing }))
    }

    ghost clear = { rewrite_clear };
}
