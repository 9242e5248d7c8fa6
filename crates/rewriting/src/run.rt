// The job that rewrites rows, run over its ends.
ghost use Rattle.std.specs.Prelude.{◌≡◌};
ghost use Rattle.line_job.specs.Ends.{source_seen, sink_seen};
ghost use Rattle.line_job.specs.Told.{RunsTold};
ghost use Rattle.header_lines.specs.Message.{cause_message};
ghost use Rattle.header_lines.specs.Heading.{first_next};
ghost use Rattle.rewriting.specs.Rules.{rewrite_rules, heading_next};
ghost use Rattle.rewriting.specs.Reformats.{Reformats, WritesAll, Completes};

use crate::ReformatError;
use crate::rewrite::Rewrite;
use bumpalo::Bump;
use edge_io::{Sink, Source};
use line_job::{run_job, run_told};
use std::alloc::Global;

/// Rewrites the rows of the input, and answers how many there are. The header lines say how: kinds, the format of
/// the rows, a dialect, a template; or, behind a first line `#2`, kinds, names, and then the same. At most `limit` bytes are taken, and one more to see whether there is one. The
/// text of a row is written before another read.
pub fn reformat<S: Source, K: Sink>(
    alloc: Global,
    input: &mut S,
    output: &mut K,
    limit: u64,
) -> Result<u64, ReformatError>
    ensures { Reformats limit (source_seen S.supply input.old input.new) (sink_seen K.held K.faults output.old output.new) result }
{
    let texts = Bump::new(alloc);
    let mut job = Rewrite::new(alloc, &texts);
    match run_job(alloc, &mut job, input, output, limit) {
        Ok(lines) => Ok(lines.saturating_sub(job.headers())),
        Err(stop) => Err(ReformatError::from(stop)),
    }
}

/// Rewrites the rows of the input, as `reformat` does. Answers the exit status, and tells a refusal on the error output.
pub fn run_rewrite<S: Source, K: Sink, E: Sink>(
    alloc: Global,
    input: &mut S,
    output: &mut K,
    errors: &mut E,
    limit: u64,
) -> u8
    // Status 0: all was read, and the rows were written over again.
    ensures rewritten { result ≡ 0 → WritesAll (source_seen S.supply input.old input.new) (sink_seen K.held K.faults output.old output.new) }

    // Every status is that of a result of the job, and its message is told.
    ensures told { RunsTold rewrite_rules (heading_next first_next) cause_message limit (source_seen S.supply input.old input.new) (sink_seen K.held K.faults output.old output.new) (sink_seen E.held E.faults errors.old errors.new) result }

    // Input that keeps the rules and the limit is rewritten, where no fault was counted and memory was there.
    ensures complete { Completes limit (source_seen S.supply input.old input.new) (sink_seen K.held K.faults output.old output.new) result }

    // Success tells nothing.
    ensures quiet { result ≡ 0 → errors.new ≡ errors.old }
{
    let texts = Bump::new(alloc);
    let mut job = Rewrite::new(alloc, &texts);
    run_told(alloc, &mut job, input, output, errors, limit)
}
