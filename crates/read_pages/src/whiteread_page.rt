use edge_io::{MemSource, Source};
use std::alloc::Global;
use std::test::Fail;
use whiteread::adapters::Zeroed;
use whiteread::reader::{Reader, Result};
use whiteread::{parse_string, stream};

/// The scores up to the first zero, and the name behind it.
fn scores(alloc: Global, text: &str) -> stream::Result<(Zeroed<u8>, String)> {
    parse_string(alloc, text)
}

/// A line with a name and an age, and then the numbers on all lines after it.
fn person<S: Source + Drop>(alloc: Global, input: S) -> Result<((String, u8), Vec<i32>)> {
    let mut reader = Reader::new(alloc, input, 1 << 20);
    let who = reader.line()?;
    let numbers = reader.finish()?;
    Ok((who, numbers))
}

/// The greatest sum of a line: the loop that goes line by line. It ends where `advance_line` says that no line is left.
fn greatest<S: Source + Drop>(alloc: Global, input: S) -> Result<u64> {
    let mut reader = Reader::new(alloc, input, 1 << 20);
    let mut greatest = 0;
    for _line in 0..u64::MAX {
        if !reader.advance_line()? {
            break;
        }
        let (a, b): (u32, u32) = reader.finish_line()?;
        greatest = greatest.max(u64::from(a).saturating_add(u64::from(b)));
    }
    Ok(greatest)
}

/// The numbers of an input, whatever its lines: the loop that goes word by word.
fn total<S: Source + Drop>(alloc: Global, input: S) -> Result<u64> {
    let mut reader = Reader::new(alloc, input, 1 << 20);
    let mut total = 0u64;
    for _word in 0..u64::MAX {
        match reader.parse::<Option<u32>>()? {
            Some(number) => total = total.saturating_add(u64::from(number)),
            None => break,
        }
    }
    Ok(total)
}

/// A source of these bytes, which gives them seven at a time.
fn source(alloc: Global, text: &str) -> std::result::Result<MemSource, Fail> {
    Ok(MemSource::new(text.as_bytes().to_vec(alloc)?, 7, Vec::new(alloc)))
}

pub fn show(rt: &HostRuntime) -> std::result::Result<(), Fail> {
    let alloc = rt.alloc();
    let (numbers, name) = scores(alloc, "20 21 22 0 foo")?;
    println!(rt; "{name}: {:?}", numbers.0)?;
    let ((who, age), rest) = person(alloc, source(alloc, "ann 41\n1 2\n3\n")?)?;
    println!(rt; "{who}, {age}: {rest:?}")?;
    println!(rt; "{}", greatest(alloc, source(alloc, "1 2\n30 40\n5 6\n")?)?)?;
    println!(rt; "{}", total(alloc, source(alloc, "1 2\n\n3\n")?)?)?;
    if let Err(fault) = greatest(alloc, source(alloc, "1 2\n30 forty\n")?) {
        print!(rt; "{fault}")?;
    }
    Ok(())
}
