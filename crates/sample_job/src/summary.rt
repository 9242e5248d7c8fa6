// The summary of a sample that was rewritten in memory.
ghost use Rattle.std.specs.Prelude.{◌≡◌, ◌≤◌, [], IfOk, length, sum, string_bytes};
ghost use Rattle.edge_io.specs.Memory.{sink_held};
ghost use Rattle.rewriting.specs.Rewritten.{IsRewritten};
ghost use Rattle.sample.specs.Sample.{sample_bytes};
ghost use Rattle.sample_job.specs.Summary.{IsSummary, summary};

use edge_io::{MemSink, MemSource};
use numerals::NoMemory;
use rewriting::reformat;
use sample::sample_input;
use std::alloc::{AllocError, Global};

/// How many bytes of input a run takes at most.
const LIMIT: u64 = 268435456;

/// How many bytes are written for a row at most.
const ROW_ROOM: usize = 64;

/// An empty sink with room for this many bytes.
fn sink_with_room(alloc: Global, room: usize) -> Result<MemSink, NoMemory>
    ensures { IfOk result (λ sink. sink_held sink ≡ []) }
{
    match vec![in alloc; 0; room] {
        Ok(room) => Ok(MemSink::new(room, usize::MAX, Vec::new(alloc))),
        Err(_) => Err(NoMemory),
    }
}

/// The sink that holds what is written for the input. There is room for this many bytes.
fn rewritten_of(alloc: Global, bytes: Vec<u8>, room: usize) -> Result<MemSink, NoMemory>
    ensures { IfOk result (λ sink. IsRewritten bytes.items (sink_held sink)) }
{
    let mut input = MemSource::new(bytes, usize::MAX, Vec::new(alloc));
    let mut output = sink_with_room(alloc, room)?;
    match reformat(alloc, &mut input, &mut output, LIMIT) {
        Ok(_) => Ok(output),
        Err(_) => Err(NoMemory),
    }
}

/// The sum of the bytes.
fn sum_of(bytes: &[u8]) -> u128
    ensures { result ≡ sum bytes.now }
{
    let mut sum: u128 = 0;
    for byte in bytes {
        sum += u128::from(*byte);
    }
    sum
}

/// The summary of this text, which is written for a sample of so many rows and bytes.
fn line_of(alloc: Global, rows: u64, taken: usize, text: &[u8]) -> Result<String, AllocError>
    requires { taken ≡ length (sample_bytes rows) }
    ensures { IfOk result (λ line. string_bytes line ≡ summary rows text.now) }
{
    let written = text.len();
    let sum = sum_of(text);
    format!(in alloc; "rows {rows} in {taken} out {written} sum {sum}\n")
}

/// The summary of what is written for a sample of `n` rows.
pub(crate) fn summary_of(alloc: Global, n: u64) -> Result<String, NoMemory>
    requires { n ≤ 1000000 }
    ensures { IfOk result (λ line. IsSummary n (string_bytes line)) }
{
    let bytes = sample_input(alloc, n)?;
    let taken = bytes.len();
    let sink = rewritten_of(alloc, bytes, n as usize * ROW_ROOM)?;
    match line_of(alloc, n, taken, sink.bytes()) {
        Ok(line) => Ok(line),
        Err(_) => Err(NoMemory),
    }
}
