ghost use Rattle.line_job.specs.Ends.{sink_seen, source_seen};
ghost use Rattle.line_job.specs.Told.{RunsTold};
ghost use Rattle.job_pages.specs.Marked.{any_line, empty_message, mark_clear, mark_rules, Stage};
ghost use Rattle.std.specs.Prelude.{◌≡◌, ◌++◌, ◌∷◌, [], codes, IfErr, OnErr, OnOk, string_bytes};

use edge_io::{MemSink, MemSource, Sink, Source};
use line_job::{Cause, LineJob, Message, Refusal, line_message, run_told};
use std::alloc::Global;
use std::test::Fail;

/// The line of this number is empty.
#[derive(Clone, Copy)]
pub struct Empty {
    pub line: u64,
}

impl Cause for Empty {
    ghost message = { empty_message };

    fn message(self) -> Message {
        line_message(self.line, b"empty")
    }
}

/// The job: each line goes out behind a mark, and an empty line is refused.
#[derive(Drop)]
struct Mark;

/// Appends a line behind a mark, all at once, so that nothing is left of it where there is no memory.
fn push_marked(alloc: Global, line: &str, out: &mut String) -> Result<(), Refusal<Empty>>
    ensures ok { OnOk result (string_bytes out.new ≡ string_bytes out.old ++ (codes "> " ++ (line.now ++ 10 ∷ []))) }
    ensures as_before { OnErr result (string_bytes out.new ≡ string_bytes out.old) }
    ensures memory { IfErr result (λ why. why ≡ Refusal.NoMemory) }
{
    let mut text = String::from_str(alloc, "> ")?;
    text.push_str(line)?;
    text.push_str("\n")?;
    out.push_str(text.as_str())?;
    Ok(())
}

impl LineJob for Mark {
    type Why = Empty;

    ghost Stage = { Stage };

    ghost stage = { λ job. any_line };

    ghost rules = { mark_rules };

    ghost IsSound = { λ _. Unit {0} };

    fn judges(&self) -> bool {
        true
    }

    fn line(
        &mut self,
        alloc: Global,
        number: u64,
        line: &str,
        out: &mut String,
    ) -> Result<(), Refusal<Empty>> {
        if line.is_empty() {
            return Err(Refusal::Line(Empty { line: number }));
        }
        push_marked(alloc, line, out)
    }

    fn end(&self, _alloc: Global, _before: u64, _out: &mut String) -> Result<(), Refusal<Empty>> {
        Ok(())
    }

    ghost clear = { mark_clear };
}

/// Marks all lines of an input of at most 1000 bytes, and answers the exit status.
fn mark_lines<S: Source, K: Sink, E: Sink>(
    alloc: Global,
    input: &mut S,
    output: &mut K,
    errors: &mut E,
) -> u8
    ensures { RunsTold mark_rules any_line empty_message 1000 (source_seen S.supply input.old input.new) (sink_seen K.held K.faults output.old output.new) (sink_seen E.held E.faults errors.old errors.new) result }
{
    run_told(alloc, &mut Mark, input, output, errors, 1000)
}

/// Shows what a run over these bytes writes and tells.
fn show_run(rt: &HostRuntime, bytes: &[u8]) -> Result<(), Fail> {
    let alloc = rt.alloc();
    let mut input = MemSource::new(bytes.to_vec(alloc)?, 4, Vec::new(alloc));
    let mut output = MemSink::new(vec![in alloc; 0; 100]?, 100, Vec::new(alloc));
    let mut errors = MemSink::new(vec![in alloc; 0; 100]?, 100, Vec::new(alloc));
    let status = mark_lines(alloc, &mut input, &mut output, &mut errors);
    print!(rt; "{}", std::str::from_utf8(output.bytes())?)?;
    print!(rt; "{}", std::str::from_utf8(errors.bytes())?)?;
    println!(rt; "status {status}")?;
    Ok(())
}

pub fn show(rt: &HostRuntime) -> Result<(), Fail> {
    show_run(rt, b"one\ntwo\n")?;
    show_run(rt, b"one\n\nthree\n")
}
