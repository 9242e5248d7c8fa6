// The job over a sample, and its ends.
ghost use Rattle.std.specs.Prelude.{◌≡◌, ◌≤◌};
ghost use Rattle.line_job.specs.Ends.{sink_seen};
ghost use Rattle.sample_job.specs.Samples.{Samples};

use crate::summary::summary_of;
use edge_io::{Sink, write_all};
use line_job::tell;
use std::alloc::Global;

/// Rewrites a sample of `n` rows in memory, and writes the summary line. Nothing is read. Answers the exit status, and tells a
/// refusal on the error output: 5 for a write fault, 6 for want of memory.
pub fn run_sample<K: Sink, E: Sink>(alloc: Global, n: u64, output: &mut K, errors: &mut E) -> u8
    requires { n ≤ 1000000 }
    ensures sampled { Samples n (sink_seen K.held K.faults output.old output.new) (sink_seen E.held E.faults errors.old errors.new) result }

    // Success tells nothing.
    ensures quiet { result ≡ 0 → errors.new ≡ errors.old }
{
    let Ok(line) = summary_of(alloc, n) else {
        tell(errors, b"no memory\n");
        return 6;
    };
    match write_all(output, line.as_bytes()) {
        Ok(()) => 0,
        Err(_) => {
            tell(errors, b"write fault\n");
            5
        }
    }
}
