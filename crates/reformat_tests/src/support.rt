// Ends in memory, and the lines of tables.
use edge_io::{MemSink, MemSource};
use reformat::run;
use std::alloc::{AllocError, Global};
use std::process::Abort;
use std::test::Fail;

/// Headers under which each row is one number; 17 bytes.
pub(crate) const HEADERS: &[u8] = b"u64\n%d\nprintf\n%d\n";

/// The bytes in front and then the others.
pub(crate) fn joined(alloc: Global, front: &[u8], rest: &[u8]) -> Result<Vec<u8>, AllocError> {
    let mut bytes = front.to_vec(alloc)?;
    bytes.extend_from_slice(rest)?;
    Ok(bytes)
}

/// The bytes of a text in which `^` stands for a line feed.
pub(crate) fn bytes_of(alloc: Global, text: &str) -> Result<Vec<u8>, AllocError> {
    let mut bytes = Vec::new(alloc);
    for byte in text.as_bytes() {
        bytes.push(if *byte == b'^' { b'\n' } else { *byte })?;
    }
    Ok(bytes)
}

pub(crate) fn source(alloc: Global, bytes: &[u8], piece: usize) -> Result<MemSource, AllocError> {
    Ok(MemSource::new(bytes.to_vec(alloc)?, piece, Vec::new(alloc)))
}

pub(crate) fn sink(alloc: Global, piece: usize) -> Result<MemSink, AllocError> {
    Ok(MemSink::new(vec![in alloc; 0; 400]?, piece, Vec::new(alloc)))
}

fn words(alloc: Global, text: &str) -> Result<Vec<String>, AllocError> {
    let mut words = Vec::new(alloc);
    for word in text.split_ascii_whitespace() {
        words.push(String::from_str(alloc, word)?)?;
    }
    Ok(words)
}

/// Runs each line of the table: words, input, status, output and message, with `~` between them; the input comes in pieces of
/// these many bytes.
pub(crate) fn run_table(
    rt: &impl Abort,
    alloc: Global,
    table: &str,
    piece: usize,
) -> Result<(), Fail> {
    for line in table.lines() {
        let mut parts = line.split('~');
        let words = words(alloc, parts.next().ok_or("no words")?)?;
        let bytes = bytes_of(alloc, parts.next().ok_or("no input")?)?;
        let status = parts.next().ok_or("no status")?;
        let written = bytes_of(alloc, parts.next().ok_or("no output")?)?;
        let told = bytes_of(alloc, parts.next().ok_or("no message")?)?;
        let mut input = source(alloc, &bytes, piece)?;
        let mut output = sink(alloc, 1)?;
        let mut errors = sink(alloc, 3)?;
        let got = run(alloc, &words, &mut input, &mut output, &mut errors);
        assert_eq!(rt; status.parse::<u8>(), Ok(got), "{line}");
        assert_eq!(rt; output.bytes(), written.as_slice(), "{line}");
        assert_eq!(rt; errors.bytes(), told.as_slice(), "{line}");
        assert!(rt; got != 2 || input.given() == 0);
    }
    Ok(())
}
