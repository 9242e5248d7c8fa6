// The job that scans: for each line it owes the tokens, with tabs between them.
ghost use Rattle.std.specs.Prelude.{◌≡◌, OnOk, IfOk, string_bytes, codes};
ghost use Rattle.std.specs.Str.{chars};
ghost use Rattle.scan_fmt.specs.Slices.{slices_left};
ghost use Rattle.line_job.specs.Ends.{Tells, source_seen, sink_seen};
ghost use Rattle.line_job.specs.Told.{RunsTold};
ghost use Rattle.header_lines.specs.Message.{cause_message};
ghost use Rattle.plan_jobs.specs.Scan.{ScanStage, scan_rules, tab_joined};
ghost use Rattle.plan_jobs.specs.Written.{ScansAll};
ghost use Rattle.plan_jobs.specs.Inner.ScanClear.{scan_clear};

use crate::push::push_line;
use edge_io::{Sink, Source};
use header_lines::LineCause;
use line_job::{LineJob, Refusal, Stop, message_of, run_told, status_of, tell};
use numerals::NoMemory;
use scan_fmt::parse::{Format, Slices};
use std::alloc::{AllocError, Global};

/// Puts the tokens that are left into the text, with tabs between them.
fn join(mut tokens: Slices<'_>, joined: &mut String) -> Result<(), AllocError>
    ensures { OnOk result (string_bytes joined.new ≡ tab_joined (slices_left tokens.entry)) }
{
    joined.clear();
    let Some(first) = Iterator::next(&mut tokens) else {
        return Ok(());
    };
    joined.push_str(first)?;
    'others: for token in tokens {
        joined.push_str("\t")?;
        joined.push_str(token)?;
    }
    Ok(())
}

/// The job that scans. The room of the joined tokens is kept for the next line.
#[derive(Drop)]
struct Scan<'f> {
    text: &'f str,
    format: Format<'f>,
    joined: String,
}

impl<'f> Scan<'f> {
    /// Cuts the format, once for all lines.
    fn new(alloc: Global, text: &'f str) -> Result<Scan<'f>, NoMemory>
        ensures text { IfOk result (λ job. job.text.now ≡ text.now) }
        ensures cut { IfOk result (λ job. job.format ≡ chars text.now) }
    {
        let format = Format::new(alloc, text)?;
        let joined = String::new(alloc);
        Ok(Scan {
            text,
            format,
            joined,
        })
    }
}

impl LineJob for Scan<'_> {
    type Why = LineCause;

    ghost Stage = { ScanStage };

    ghost stage = { λ job. record { format = job.text.now } };

    ghost rules = { scan_rules };

    ghost IsSound = { λ job. job.format ≡ chars job.text.now };

    fn judges(&self) -> bool {
        true
    }

    fn line(
        &mut self,
        alloc: Global,
        _number: u64,
        line: &str,
        out: &mut String,
    ) -> Result<(), Refusal<LineCause>> {
        let Ok(tokens) = self.format.scan_slices(alloc, line) else {
            return Err(Refusal::NoMemory);
        };
        join(tokens, &mut self.joined)?;
        push_line(out, self.joined.as_str())
    }

    fn end(
        &self,
        _alloc: Global,
        _before: u64,
        _out: &mut String,
    ) -> Result<(), Refusal<LineCause>> {
        Ok(())
    }

    ghost clear = { scan_clear };
}

/// Tells that there is no memory, and answers the status. Nothing is read or written.
fn tell_no_memory<E: Sink>(errors: &mut E) -> u8
    ensures status { result ≡ 6 }
    ensures told { Tells (sink_seen E.held E.faults errors.old errors.new) (codes "no memory\n") }
{
    let stop: Stop<LineCause> = Stop::NoMemory;
    tell(errors, &message_of(stop));
    status_of(stop)
}

/// Scans each line by the format, and writes its tokens with tabs between them and a line feed. Answers the exit status, and tells a
/// refusal on the error output.
pub fn run_scan<S: Source, K: Sink, E: Sink>(
    alloc: Global,
    format: &str,
    input: &mut S,
    output: &mut K,
    errors: &mut E,
    limit: u64,
) -> u8
    // Status 0: all was read, and the tokens of each line were written.
    ensures scanned { result ≡ 0 → ScansAll format.now (source_seen S.supply input.old input.new) (sink_seen K.held K.faults output.old output.new) }

    // Every status is that of a result of the job, and its message is told.
    ensures told { RunsTold scan_rules (record { format = format.now }) cause_message limit (source_seen S.supply input.old input.new) (sink_seen K.held K.faults output.old output.new) (sink_seen E.held E.faults errors.old errors.new) result }

    // Success tells nothing.
    ensures quiet { result ≡ 0 → errors.new ≡ errors.old }
{
    match Scan::new(alloc, format) {
        Ok(mut job) => run_told(alloc, &mut job, input, output, errors, limit),
        Err(_) => tell_no_memory(errors),
    }
}
