//! Replays answers of the original Rust crates from standard input, and reports each answer that differs.
#![tactic(auto)]

use edge_io::{StdinSource, StdoutSink};
use replay::{Calls, Case, Fault};
use replay_lines::replay;
use std::alloc::Global;
use std::process::ExitCode;

/// The five crates.
struct Crates;

impl Calls for Crates {
    fn answer(&self, alloc: Global, case: &Case<'_>) -> Result<Vec<String>, Fault> {
        let inputs = case.inputs.as_slice();
        match case.target.as_bytes() {
            b"sprintf" => replay_sprintf::answer(alloc, case.call, inputs),
            b"strfmt" => replay_strfmt::answer(alloc, case.call, inputs),
            b"formatx" => replay_formatx::answer(alloc, case.call, inputs),
            b"scan_fmt" => replay_scan_fmt::answer(alloc, case.call, inputs),
            b"whiteread" => replay_whiteread::answer(alloc, case.call, inputs),
            b"reader" => replay_whiteread::reader_answer(alloc, case.call, inputs),
            _ => Err(Fault::NoSuchCrate),
        }
    }
}

fn main(rt: HostRuntime) -> ExitCode {
    let mut input = StdinSource::new(&rt);
    let mut output = StdoutSink::new(&rt);
    ExitCode::from(replay(rt.alloc(), &Crates, &mut input, &mut output))
}
