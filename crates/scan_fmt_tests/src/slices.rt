// Worked scans as slices: where tokens stand, and what they read as.
use crate::readings::{place_of, shown};
use scan_fmt::parse::{Format, Piece, ReadSlice, Slices, scan_slices};
use std::alloc::Global;
use std::fmt::Display;
use std::test::Fail;

// Each line is a format, an input, and where its tokens stand in bytes.
const PIECES: &str = "\
    a {d} {x}{s}\ta +7 0xfé\t3-4 7-8 8-10 \n\
    {d} hi{e}\t12 hi2\t5-5 \n\
    {*d}{d}\t1 1\t2-3 \n\
    {d}{d}\t1 1\t0-1 2-3 \n\
    é{}b{[a]}{s}\t éabab\t3-4 5-6 6-7 \n\
    {d}{d}{s}\tx\t0-0 0-0 0-1 \n\
    ab{d}\ta c\t2-2 \n\
    {d}{/é(b+)c/}{s}\t7 ébbcd\t0-1 4-6 7-8 \n\
    {d}{/x/}{/(y)?z/}\t7 zy\t0-1 2-2 2-3 \n\
    {d}{*/(b)c/}{/d/}{/$/}{s}\t7bcd \t0-1 3-4 \n\
";

// Each line is a type, a word, and the value that its one slice reads as, or why there is none.
const READINGS: &str = "\
    u8\t255\t255\n\
    u8\t256\tBad\n\
    u16\t65535\t65535\n\
    u16\t-1\tBad\n\
    u32\t4294967295\t4294967295\n\
    u32\t007\t7\n\
    u64\t18446744073709551615\t18446744073709551615\n\
    u64\t1.\tBad\n\
    u128\t12\t12\n\
    u128\t0x1\tBad\n\
    usize\t+5\t5\n\
    usize\t++5\tBad\n\
    i8\t-128\t-128\n\
    i8\t128\tBad\n\
    i16\t-32768\t-32768\n\
    i16\t-32769\tBad\n\
    i32\t-2147483648\t-2147483648\n\
    i32\t-\tBad\n\
    i64\t-9223372036854775808\t-9223372036854775808\n\
    i64\tx\tBad\n\
    i128\t-0\t0\n\
    i128\t+1\t1\n\
    isize\t-1\t-1\n\
    isize\ta\tBad\n\
    bool\ttrue\ttrue\n\
    bool\tTrue\tBad\n\
    char\té\té\n\
    char\téé\tBad\n\
    &str\téé\téé\n\
    &str\t\tMissing\n\
";

/// The pieces, each with a blank after it.
fn joined(alloc: Global, pieces: &[Piece]) -> Result<String, Fail> {
    let mut text = String::new(alloc);
    for piece in pieces {
        let shown = format!(in alloc; "{}-{} ", piece.start, piece.end)?;
        text.push_str(&shown)?;
    }
    Ok(text)
}

#[test]
fn tokens_stand_at_pieces(rt: HostRuntime) -> Result<(), Fail> {
    let alloc = rt.alloc();
    for row in PIECES.lines() {
        let (format, rest) = row.split_once('\t').ok_or("no format")?;
        let (input, pieces) = rest.split_once('\t').ok_or("no input")?;
        let slices = scan_slices(alloc, input, format).ok().ok_or("no memory")?;
        assert_eq!(rt;
            joined(alloc, slices.pieces())?.as_str(),
            pieces,
            "{format} of {input}"
        );
    }
    Ok(())
}

#[test]
fn slices_come_in_order(rt: HostRuntime) -> Result<(), Fail> {
    let alloc = rt.alloc();
    let format = Format::new(alloc, "{d}{d}{s}{s}").ok().ok_or("no memory")?;
    let mut slices = format
        .scan_slices(alloc, "257 x 7")
        .ok()
        .ok_or("no memory")?;
    let first = slices.next_as::<u8>();
    let second = slices.next_as::<u8>();
    let third = slices.next().ok_or("no token")?;
    let fourth = slices.next_hex::<u8>();
    let last = slices.next_as::<u8>();
    assert_eq!(rt; shown(alloc, first)?.as_str(), "Bad");
    assert_eq!(rt; shown(alloc, second)?.as_str(), "Empty");
    assert_eq!(rt; third, "x");
    assert_eq!(rt; shown(alloc, fourth)?.as_str(), "7");
    assert_eq!(rt; shown(alloc, last)?.as_str(), "Missing");
    assert_eq!(rt; slices.pieces().len(), 4);
    Ok(())
}

/// Reads the next slice.
fn read<'a, T: ReadSlice<'a> + Display + Drop>(
    alloc: Global,
    slices: &mut Slices<'a>,
) -> Result<String, Fail> {
    shown(alloc, slices.next_as::<T>())
}

/// Reads the next slice at the named type.
fn read_at(alloc: Global, slices: &mut Slices<'_>, name: &str) -> Result<String, Fail> {
    let names = [
        "u8", "u16", "u32", "u64", "u128", "usize", "i8", "i16", "i32", "i64", "i128", "isize",
        "bool", "char", "&str",
    ];
    match place_of(name, &names) {
        Some(0) => read::<u8>(alloc, slices),
        Some(1) => read::<u16>(alloc, slices),
        Some(2) => read::<u32>(alloc, slices),
        Some(3) => read::<u64>(alloc, slices),
        Some(4) => read::<u128>(alloc, slices),
        Some(5) => read::<usize>(alloc, slices),
        Some(6) => read::<i8>(alloc, slices),
        Some(7) => read::<i16>(alloc, slices),
        Some(8) => read::<i32>(alloc, slices),
        Some(9) => read::<i64>(alloc, slices),
        Some(10) => read::<i128>(alloc, slices),
        Some(11) => read::<isize>(alloc, slices),
        Some(12) => read::<bool>(alloc, slices),
        Some(13) => read::<char>(alloc, slices),
        Some(14) => read::<&str>(alloc, slices),
        _ => Err(Fail::from("no such type")),
    }
}

/// What the word's one slice reads as at the named type.
fn reading(alloc: Global, name: &str, word: &str) -> Result<String, Fail> {
    let slices = scan_slices(alloc, word, "{s}");
    let mut slices = slices.ok().ok_or("no memory")?;
    read_at(alloc, &mut slices, name)
}

#[test]
fn words_read(rt: HostRuntime) -> Result<(), Fail> {
    for row in READINGS.lines() {
        let (name, rest) = row.split_once('\t').ok_or("no word")?;
        let (word, want) = rest.split_once('\t').ok_or("no reading")?;
        let found = reading(rt.alloc(), name, word)?;
        assert_eq!(rt; found.as_str(), want, "{row}");
    }
    Ok(())
}
