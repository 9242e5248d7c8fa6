use numerals::NoMemory;
use scan_fmt::parse::{Format, ReadAs, scan, scan_slices};
use std::alloc::Global;
use std::test::Fail;

/// The two numbers of a line like `data 42-12`; a token says why it isn't one.
fn pair(alloc: Global, line: &str) -> Result<(u32, u32), Fail> {
    let mut tokens = scan(alloc, line, "data {d}-{d}")?;
    let first = tokens.next_as::<u32>()?;
    let second = tokens.next_as::<u32>()?;
    Ok((first, second))
}

/// How many lines hold two numbers. The format is cut once.
fn pairs(alloc: Global, text: &str) -> Result<usize, NoMemory> {
    let format = Format::new(alloc, "{d} {d}")?;
    let mut count = 0usize;
    for line in text.lines() {
        let mut tokens = format.scan(alloc, line)?;
        if tokens.next_as::<i64>().is_ok() && tokens.next_as::<i64>().is_ok() {
            count = count.saturating_add(1);
        }
    }
    Ok(count)
}

/// The word in front of `=`, and the number behind it in base 16, without a copy: each token is a slice of the line.
fn setting(alloc: Global, line: &str) -> Result<(&str, u8), Fail> {
    let mut slices = scan_slices(alloc, line, "{}={x}{e}")?;
    let name = slices.next_as::<&str>()?;
    let value = slices.next_hex::<u8>()?;
    Ok((name, value))
}

pub fn show(rt: &HostRuntime) -> Result<(), Fail> {
    let alloc = rt.alloc();
    let (first, second) = pair(alloc, "data 42-12")?;
    println!(rt; "{first} and {second}")?;
    println!(rt; "{} pairs", pairs(alloc, "1 2\n3\n-4 5\n")?)?;
    let (name, value) = setting(alloc, "mask = 0xfe")?;
    println!(rt; "{name} is {value}")?;
    let mut tokens = scan(alloc, "data x-1", "data {d}-{d}")?;
    if let Err(ReadAs::Empty) = tokens.next_as::<u32>() {
        println!(rt; "no number")?;
    }
    Ok(())
}
