// The job that translates: it judges the lines up to the format, reads the rest, and owes the template at the end.
ghost use Rattle.std.specs.Prelude.{◌≡◌, [], List, true, IfOk, Ok, string_bytes};
ghost use Rattle.sprintf.specs.Grammar.{IsFormat};
ghost use Rattle.sprintf.specs.declared.parser.FormatElement.{FormatElement};
ghost use Rattle.line_job.specs.Ends.{source_seen, sink_seen};
ghost use Rattle.line_job.specs.Refusal.{IfRefused};
ghost use Rattle.line_job.specs.Told.{RunsTold};
ghost use Rattle.header_lines.specs.Heading.{Headed as AnyHeaded, first_next, KeepsHeading};
ghost use Rattle.header_lines.specs.Read.{heading_of, headed_of};
ghost use Rattle.translation.specs.Translated.{translated};
ghost use Rattle.plan_jobs.specs.TranslateMessage.{translate_message};
ghost use Rattle.plan_jobs.specs.declared.cause.TranslateCause.TheVariants.{Header};
ghost use Rattle.plan_jobs.specs.Translate.{TranslateStage, heading_next, after, translate_rules, judges, Keeps, Refuses, RefusesFormat};
ghost use Rattle.plan_jobs.specs.Written.{TranslatesAll};
ghost use Rattle.plan_jobs.specs.Inner.TranslateState.{stage_of};
ghost use Rattle.plan_jobs.specs.Inner.TranslateClear.{translate_clear};

use crate::TranslateCause;
use crate::push::push_line;
use edge_io::{Sink, Source};
use header_lines::{Fields, Headed, Heading, read_heading};
use line_job::{LineJob, Refusal, run_told};
use sprintf::PrintfError;
use sprintf::parser::parse_format_string;
use std::alloc::Global;
use std::mem;
use translation::{Target, TranslateError, translate};
use values::Kind;

/// Which line comes next, and what those before it said.
#[derive(Drop)]
enum State {
    Heading(Target, Heading),
    Format(Target, Fields),
    Translated(String),
}

/// Where the job stands after a line in front of the format line.
fn after(target: Target, headed: Headed) -> State
    ensures { stage_of result ≡ after target (headed_of headed) }
{
    match headed {
        Headed::More(heading) => State::Heading(target, heading),
        Headed::Format(fields) => State::Format(target, fields),
    }
}

/// Reads a line in front of the format line.
fn read_front(
    alloc: Global,
    heading: Heading,
    number: u64,
    line: &str,
) -> Result<Headed, Refusal<TranslateCause>>
    ensures kept { IfOk result (λ headed. KeepsHeading (heading_of heading) line.now (headed_of headed)) }
    ensures refused { IfRefused result (λ why. ((headed : AnyHeaded) → ¬ KeepsHeading (heading_of heading) line.now headed) × (why ≡ Header number)) }
{
    match read_heading(alloc, heading, number, line) {
        Ok(headed) => Ok(headed),
        Err(Refusal::Line(_)) => Err(Refusal::Line(TranslateCause::Header { line: number })),
        Err(Refusal::NoMemory) => Err(Refusal::NoMemory),
    }
}

/// Translates a format line for these kinds.
fn template_of(
    alloc: Global,
    target: Target,
    number: u64,
    kinds: &[Kind],
    line: &str,
) -> Result<String, Refusal<TranslateCause>>
    ensures ok { IfOk result (λ template. (elements : List FormatElement) × IsFormat line.now elements × (translated elements kinds.now target ≡ Ok (string_bytes template))) }
    ensures refused { IfRefused result (RefusesFormat target number kinds.now line.now) }
{
    let elements = match parse_format_string(alloc, line) {
        Ok(elements) => elements,
        Err(PrintfError::ParseError) => {
            return Err(Refusal::Line(TranslateCause::SourceFormat { line: number }));
        }
        Err(_) => return Err(Refusal::NoMemory),
    };
    match translate(alloc, &elements, kinds, target) {
        Ok(template) => Ok(template),
        Err(TranslateError::Element { place }) => Err(Refusal::Line(TranslateCause::Element {
            line: number,
            place,
        })),
        Err(TranslateError::NoMemory) => Err(Refusal::NoMemory),
    }
}

/// Reads the header line that comes next.
fn read_header(
    alloc: Global,
    state: State,
    number: u64,
    line: &str,
) -> Result<State, Refusal<TranslateCause>>
    requires { judges (stage_of state) ≡ true }
    ensures kept { IfOk result (λ next. Keeps (stage_of state) number line.now [] (stage_of next)) }
    ensures refused { IfRefused result (Refuses (stage_of state) number line.now) }
{
    match state {
        State::Heading(target, heading) => {
            let headed = read_front(alloc, heading, number, line)?;
            Ok(after(target, headed))
        }
        State::Format(target, fields) => {
            let template = template_of(alloc, target, number, &fields.kinds, line)?;
            Ok(State::Translated(template))
        }
        State::Translated(template) => Ok(State::Translated(template)),
    }
}

/// The job that translates.
#[derive(Drop)]
struct Translate {
    state: State,
}

impl LineJob for Translate {
    type Why = TranslateCause;

    ghost Stage = { TranslateStage };

    ghost stage = { λ job. stage_of job.state };

    ghost rules = { translate_rules };

    ghost IsSound = { λ job. Unit {0} };

    fn judges(&self) -> bool {
        match &self.state {
            State::Heading(_, _) => true,
            State::Format(_, _) => true,
            State::Translated(_) => false,
        }
    }

    fn line(
        &mut self,
        alloc: Global,
        number: u64,
        line: &str,
        _out: &mut String,
    ) -> Result<(), Refusal<TranslateCause>> {
        let state = mem::replace(
            &mut self.state,
            State::Heading(Target::Strfmt, Heading::First),
        );
        self.state = read_header(alloc, state, number, line)?;
        Ok(())
    }

    fn end(
        &self,
        _alloc: Global,
        _before: u64,
        out: &mut String,
    ) -> Result<(), Refusal<TranslateCause>> {
        match &self.state {
            State::Heading(_, heading) => Err(Refusal::Line(TranslateCause::Header {
                line: heading.number(),
            })),
            State::Format(_, fields) => Err(Refusal::Line(TranslateCause::Header {
                line: fields.version.number_in(2),
            })),
            State::Translated(template) => push_line(out, template.as_str()),
        }
    }

    ghost clear = { translate_clear };
}

/// Translates the format over the kinds in front of it, and writes the template at the end of the input, which is read and not
/// judged behind the format. Answers the exit status, and tells a refusal on the error output.
pub fn run_translate<S: Source, K: Sink, E: Sink>(
    alloc: Global,
    target: Target,
    input: &mut S,
    output: &mut K,
    errors: &mut E,
    limit: u64,
) -> u8
    // Status 0: all was read, and the template to which the format is translated was written.
    ensures translated { result ≡ 0 → TranslatesAll target (source_seen S.supply input.old input.new) (sink_seen K.held K.faults output.old output.new) }

    // Every status is that of a result of the job, and its message is told.
    ensures told { RunsTold translate_rules (heading_next target first_next) translate_message limit (source_seen S.supply input.old input.new) (sink_seen K.held K.faults output.old output.new) (sink_seen E.held E.faults errors.old errors.new) result }

    // Success tells nothing.
    ensures quiet { result ≡ 0 → errors.new ≡ errors.old }
{
    let mut job = Translate {
        state: State::Heading(target, Heading::First),
    };
    run_told(alloc, &mut job, input, output, errors, limit)
}
