// The run of a job, from a source to a sink.
ghost use Rattle.std.specs.Prelude.{◌≡◌, ℕ, List, true, OnOk, IfSome, string_bytes};
ghost use Rattle.whiteread.specs.Lines.{lines_of};
ghost use Rattle.whiteread.specs.ReaderState.{reader_source};
ghost use Rattle.line_job.specs.Ends.{source_seen, sink_seen};
ghost use Rattle.line_job.specs.Rules.{AreKept};
ghost use Rattle.line_job.specs.Runs.{Runs};
ghost use Rattle.line_job.specs.Told.{RunsTold};
ghost use Rattle.line_job.specs.Inner.NextLine.{IsReady};
ghost use Rattle.line_job.specs.Inner.Goes.{Goes, LeadsTo, ends_of, view_of, first_place};
ghost use Rattle.line_job.specs.Inner.Step.{Judged, LineStep, EndStep, SentBefore};

use crate::batch::{send, send_if_due};
use crate::job::LineJob;
use crate::message::{Cause, message_of};
use crate::reading::{LineFault, next_line, text_of};
use crate::stop::{Stop, status_of, tell};
use edge_io::{Sink, Source};
use std::alloc::Global;
use whiteread::Reader;

/// Lets the job judge a line, and answers true.
fn judge_line<J: LineJob>(
    alloc: Global,
    job: &mut J,
    number: u64,
    line: &str,
    batch: &mut String,
) -> Result<bool, Stop<J::Why>>
    requires judged { J.rules.judges (J.stage job.old) ≡ true }
    requires sound { J.IsSound job.old }
    ensures judged { Judged J.rules (J.stage job.old) number line.now (J.stage job.new) (string_bytes batch.old) (string_bytes batch.new) result }
    ensures sound { OnOk result (J.IsSound job.new) }
{
    job.line(alloc, number, line, batch)?;
    Ok(true)
}

/// Takes the next line, and lets the job judge it where it judges lines, and answers true; or answers false where no
/// line is left.
fn take_line<J: LineJob, B: Source>(
    alloc: Global,
    job: &mut J,
    reader: &mut Reader<B>,
    before: u64,
    batch: &mut String,
) -> Result<bool, Stop<J::Why>>
    requires ready { IsReady B.supply before reader.old }
    requires sound { J.IsSound job.old }
    ensures step { LineStep B.supply J.rules before reader.old reader.new (J.stage job.old) (J.stage job.new) (string_bytes batch.old) (string_bytes batch.new) result }
    ensures sound { OnOk result (J.IsSound job.new) }
    ensures same_reference { B.supply.reference (reader_source reader.new) ≡ B.supply.reference (reader_source reader.old) }
{
    match next_line(reader, before) {
        Ok(true) => {
            if !job.judges() {
                return Ok(true);
            }
            judge_line(
                alloc,
                job,
                before + 1,
                text_of(reader.current_line()),
                batch,
            )
        }
        Ok(false) => Ok(false),
        Err(LineFault::NotUtf8(line)) => {
            if !job.judges() {
                return Ok(true);
            }
            Err(Stop::NotUtf8 { line })
        }
        Err(LineFault::ReadFault) => Err(Stop::ReadFault),
        Err(LineFault::TooLong) => Err(Stop::TooLong),
        Err(LineFault::NoMemory) => Err(Stop::NoMemory),
    }
}

/// Lets the job judge the end after so many lines, and answers their number.
fn judge_end<J: LineJob>(
    alloc: Global,
    job: &J,
    lines: u64,
    batch: &mut String,
) -> Result<u64, Stop<J::Why>>
    requires { J.IsSound job.now }
    ensures { EndStep J.rules lines (J.stage job.now) (string_bytes batch.old) (string_bytes batch.new) result }
{
    job.end(alloc, lines, batch)?;
    Ok(lines)
}

/// Writes the batch, and then gives the answer.
fn send_before<K: Sink, W: Copy>(
    output: &mut K,
    batch: &mut String,
    answer: Result<u64, Stop<W>>,
) -> Result<u64, Stop<W>>
    ensures { SentBefore K.held K.faults output.old output.new (string_bytes batch.old) answer result }
{
    send(output, batch)?;
    answer
}

/// Takes line after line, and writes what is owed for them before another read and before every refusal.
fn run_lines<J: LineJob, B: Source, K: Sink>(
    alloc: Global,
    job: &mut J,
    reader: &mut Reader<B>,
    output: &mut K,
) -> Result<u64, Stop<J::Why>>
    requires ready { IsReady B.supply 0 reader.old }
    requires sound { J.IsSound job.old }
    ensures goes { Goes (ends_of B.supply K.held K.faults) J.rules (first_place (J.stage job.old)) (view_of reader.old) (reader_source reader.new) output.old output.new result }
    ensures stands { OnOk result (LeadsTo (ends_of B.supply K.held K.faults) J.rules 0 (J.stage job.old) (view_of reader.old) (J.stage job.new)) }
    ensures same_reference { B.supply.reference (reader_source reader.new) ≡ B.supply.reference (reader_source reader.old) }
{
    let mut batch = String::new(alloc);
    let mut lines: u64 = 0;
    'lines: loop {
        send_if_due(reader, output, &mut batch)?;
        match take_line(alloc, job, reader, lines, &mut batch) {
            Ok(true) => lines += 1,
            Ok(false) => {
                let answer = judge_end(alloc, job, lines, &mut batch);
                return send_before(output, &mut batch, answer);
            }
            Err(stop) => return send_before(output, &mut batch, Err(stop)),
        }
    }
}

/// Runs the job over the input, of which it takes at most `limit` bytes, and one more to see whether there is one; and
/// answers how many lines there were. What is owed for a line is written before another read.
pub fn run_job<J: LineJob, S: Source, K: Sink>(
    alloc: Global,
    job: &mut J,
    input: &mut S,
    output: &mut K,
    limit: u64,
) -> Result<u64, Stop<J::Why>>
    requires { J.IsSound job.old }
    ensures runs { Runs J.rules (J.stage job.old) limit (source_seen S.supply input.old input.new) (sink_seen K.held K.faults output.old output.new) result }

    // Success: the job stands at the stage to which the lines of the input lead.
    ensures stands { OnOk result (IfSome (S.supply.rest input.old) (λ bytes. (text : List ℕ) × AreKept J.rules 0 (J.stage job.old) (lines_of bytes) text (J.stage job.new))) }
{
    let mut reader = Reader::new(alloc, input, limit);
    let answer = run_lines(alloc, job, &mut reader, output);
    let _ = reader.into_inner();
    answer
}

/// Runs the job, tells its refusal on the error output, and answers the exit status.
pub fn run_told<J: LineJob, S: Source, K: Sink, E: Sink>(
    alloc: Global,
    job: &mut J,
    input: &mut S,
    output: &mut K,
    errors: &mut E,
    limit: u64,
) -> u8
    requires { J.IsSound job.old }
    ensures told { RunsTold J.rules (J.stage job.old) J.Why.message limit (source_seen S.supply input.old input.new) (sink_seen K.held K.faults output.old output.new) (sink_seen E.held E.faults errors.old errors.new) result }
    ensures quiet { result ≡ 0 → errors.new ≡ errors.old }
{
    match run_job(alloc, job, input, output, limit) {
        Ok(_) => 0,
        Err(stop) => {
            tell(errors, &message_of(stop));
            status_of(stop)
        }
    }
}
