//! The program: its words, the three real ends, and the exit status.
#![tactic(auto)]

use edge_io::{Sink, StderrSink, StdinSource, StdoutSink, write_all};
use reformat::run;
use std::alloc::Global;
use std::io::ErrorKind;
use std::process::ExitCode;
use std::{env, io};

/// Says that there is no memory for the words, as far as the error output takes it, and answers the status.
fn tell_no_memory<E: Sink>(errors: &mut E) -> u8 {
    let _ = write_all(errors, b"no memory\n");
    6
}

/// The words after the program's name.
fn collect_words(rt: &HostRuntime, alloc: Global) -> io::Result<Vec<String>> {
    let mut words = Vec::new(alloc);
    for word in env::args(rt)?.skip(1) {
        words.push(word)?;
    }
    Ok(words)
}

fn main(rt: HostRuntime) -> ExitCode {
    let alloc = rt.alloc();
    let mut input = StdinSource::new(&rt);
    let mut output = StdoutSink::new(&rt);
    let mut errors = StderrSink::new(&rt);
    let status = match collect_words(&rt, alloc) {
        Ok(words) => run(alloc, &words, &mut input, &mut output, &mut errors),
        Err(why) if why.kind() == ErrorKind::OutOfMemory => tell_no_memory(&mut errors),
        // Words that can't be had, as one that isn't UTF-8, are no command: neither is no word.
        Err(_) => run(alloc, &[], &mut input, &mut output, &mut errors),
    };
    ExitCode::from(status)
}
