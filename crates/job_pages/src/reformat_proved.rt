ghost use Rattle.line_job.specs.Ends.{sink_seen, source_seen};
ghost use Rattle.rewriting.specs.Reformats.{WritesAll};
ghost use Rattle.std.specs.Prelude.{IsTrue};

use edge_io::{MemSink, MemSource, Sink, Source};
use reformat::reformat;
use std::alloc::Global;
use std::test::Fail;

/// Rewrites the rows, and says whether all was read and written.
fn rewrites<S: Source, K: Sink>(alloc: Global, input: &mut S, output: &mut K) -> bool
    ensures { IsTrue result → WritesAll (source_seen S.supply input.old input.new) (sink_seen K.held K.faults output.old output.new) }
{
    match reformat(alloc, input, output, 1000) {
        Ok(_) => true,
        Err(_) => false,
    }
}

pub fn show(rt: &HostRuntime) -> Result<(), Fail> {
    let alloc = rt.alloc();
    let text = b"u8\n%d\nprintf\n%03d\n7\n".to_vec(alloc)?;
    let mut input = MemSource::new(text, 4096, Vec::new(alloc));
    let mut output = MemSink::new(vec![in alloc; 0; 100]?, 4096, Vec::new(alloc));
    println!(rt; "{}", rewrites(alloc, &mut input, &mut output))?;
    print!(rt; "{}", std::str::from_utf8(output.bytes())?)?;
    Ok(())
}
