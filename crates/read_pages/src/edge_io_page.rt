use edge_io::{MemSink, MemSource, Sink, Source, write_all};
use std::test::Fail;

/// Copies a source to a sink, up to the source's end, a piece at a time. It answers how many bytes there were.
fn copy<S: Source, K: Sink>(input: &mut S, output: &mut K) -> Result<u64, edge_io::Failed> {
    let mut buffer = [0; 8];
    let mut count = 0u64;
    for _piece in 0..u64::MAX {
        let len = input.read(&mut buffer)?;
        if len == 0 {
            break;
        }
        write_all(output, &buffer[..len])?;
        count = count.saturating_add(len as u64);
    }
    Ok(count)
}

pub fn show(rt: &HostRuntime) -> Result<(), Fail> {
    let alloc = rt.alloc();
    // Ends in memory: each read gives three bytes at most, each write takes five at most, and no call fails.
    let mut input = MemSource::new(b"a line\nand another\n".to_vec(alloc)?, 3, Vec::new(alloc));
    let mut output = MemSink::new(vec![in alloc; 0; 100]?, 5, Vec::new(alloc));
    let count = copy(&mut input, &mut output)?;
    println!(rt; "{count} bytes, {} held", output.bytes().len())?;
    // The second read fails, which the source counts.
    let mut failing = MemSource::new(b"a line\n".to_vec(alloc)?, 3, vec![in alloc; 2]?);
    let mut partial = MemSink::new(vec![in alloc; 0; 100]?, 5, Vec::new(alloc));
    let failed = copy(&mut failing, &mut partial).is_err();
    println!(rt;
        "{failed}: {} given, {} faults",
        failing.given(),
        failing.faults()
    )?;
    Ok(())
}
