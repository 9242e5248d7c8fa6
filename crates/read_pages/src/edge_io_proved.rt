ghost use Rattle.std.specs.Io.KnownBytes.{Appends};
ghost use Rattle.std.specs.Prelude.{◌++◌, OnOk, codes};

use edge_io::{Failed, MemSink, Sink, write_all};
use std::test::Fail;

/// Writes a line. Where the sink tells what it holds, that grew by the line and its line feed.
fn write_line<K: Sink>(sink: &mut K, line: &str) -> Result<(), Failed>
    ensures { OnOk result (Appends (K.held sink.old) (K.held sink.new) (line.now ++ codes "\n")) }
{
    write_all(sink, line.as_bytes())?;
    write_all(sink, b"\n")
}

pub fn show(rt: &HostRuntime) -> Result<(), Fail> {
    let alloc = rt.alloc();
    let mut sink = MemSink::new(vec![in alloc; 0; 100]?, 2, Vec::new(alloc));
    write_line(&mut sink, "a line")?;
    print!(rt; "{}", std::str::from_utf8(sink.bytes())?)?;
    Ok(())
}
