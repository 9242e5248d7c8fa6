use edge_io::{MemSink, MemSource};
use reformat::{ReformatError, reformat, run};
use std::alloc::Global;
use std::test::Fail;

/// Kinds, the format of the rows, a dialect, a template; and then rows.
const INPUT: &str = "word u32\n%s [%08u]\nstrfmt\n{0} took {1} ms\nweb01 [00000412]\ndb [412]\n";

fn source(alloc: Global, text: &str) -> Result<MemSource, Fail> {
    Ok(MemSource::new(text.as_bytes().to_vec(alloc)?, 4096, Vec::new(alloc)))
}

fn sink(alloc: Global) -> Result<MemSink, Fail> {
    Ok(MemSink::new(vec![in alloc; 0; 200]?, 4096, Vec::new(alloc)))
}

/// Rewrites the rows of a text of at most 1000 bytes: how many there are, or why not all were.
fn rewrite(
    alloc: Global,
    text: &str,
    output: &mut MemSink,
) -> Result<Result<u64, ReformatError>, Fail> {
    let mut input = source(alloc, text)?;
    Ok(reformat(alloc, &mut input, output, 1000))
}

/// Runs a command of the program, and answers its status; the messages go to `errors`.
fn command(
    alloc: Global,
    word: &str,
    output: &mut MemSink,
    errors: &mut MemSink,
) -> Result<u8, Fail> {
    let mut words = Vec::new(alloc);
    words.push(String::from_str(alloc, word)?)?;
    let mut input = source(alloc, INPUT)?;
    Ok(run(alloc, &words, &mut input, output, errors))
}

pub fn show(rt: &HostRuntime) -> Result<(), Fail> {
    let alloc = rt.alloc();
    let mut output = sink(alloc)?;
    println!(rt; "{:?}", rewrite(alloc, INPUT, &mut output)?)?;
    print!(rt; "{}", std::str::from_utf8(output.bytes())?)?;
    let mut output = sink(alloc)?;
    let mut errors = sink(alloc)?;
    println!(rt;
        "status {}",
        command(alloc, "rewrite", &mut output, &mut errors)?
    )?;
    print!(rt; "{}", std::str::from_utf8(errors.bytes())?)?;
    Ok(())
}
