// Worked readings: what tokens read as.
use scan_fmt::parse::{ReadAs, ReadHex, ReadToken, Tokens, scan};
use std::alloc::Global;
use std::fmt::Display;
use std::test::Fail;

// Each line is a type, a word, and the value that its one token reads as, or why there is none.
const READINGS: &str = "\
    u8\t255\t255\n\
    u8\t256\tBad\n\
    u16\t65535\t65535\n\
    u16\t-1\tBad\n\
    u32\t4294967295\t4294967295\n\
    u32\t007\t7\n\
    u64\t18446744073709551615\t18446744073709551615\n\
    u64\t0x1\tBad\n\
    u128\t340282366920938463463374607431768211455\t340282366920938463463374607431768211455\n\
    u128\t1.\tBad\n\
    usize\t+5\t5\n\
    usize\t++5\tBad\n\
    i8\t-128\t-128\n\
    i8\t128\tBad\n\
    i16\t-32768\t-32768\n\
    i16\t-32769\tBad\n\
    i32\t-2147483648\t-2147483648\n\
    i32\t-\tBad\n\
    i64\t9223372036854775807\t9223372036854775807\n\
    i64\t9223372036854775808\tBad\n\
    i128\t-0\t0\n\
    i128\t+1\t1\n\
    isize\t-1\t-1\n\
    isize\ta\tBad\n\
    hex u8\tff\t255\n\
    hex u8\t-1\tBad\n\
    hex u16\tFFFF\t65535\n\
    hex u16\t10000\tBad\n\
    hex u32\t+f\t15\n\
    hex u32\tg\tBad\n\
    hex u64\tffffffffffffffff\t18446744073709551615\n\
    hex u64\t0xf\tBad\n\
    hex u128\t10\t16\n\
    hex u128\t+\tBad\n\
    hex usize\t1F\t31\n\
    hex usize\t1f\t31\n\
    hex i8\t-80\t-128\n\
    hex i8\t80\tBad\n\
    hex i16\t-8000\t-32768\n\
    hex i16\t8000\tBad\n\
    hex i32\t7fffffff\t2147483647\n\
    hex i32\t80000000\tBad\n\
    hex i64\t-1\t-1\n\
    hex i64\t--1\tBad\n\
    hex i128\t-a\t-10\n\
    hex i128\t-\tBad\n\
    hex isize\t+F\t15\n\
    hex isize\t1_0\tBad\n\
    bool\ttrue\ttrue\n\
    bool\tTrue\tBad\n\
    char\té\té\n\
    char\téé\tBad\n\
    String\téé\téé\n\
    String\t\tMissing\n\
";

/// A reading as text: its value, or why there is none.
pub fn shown<T: Display + Drop>(alloc: Global, reading: Result<T, ReadAs>) -> Result<String, Fail> {
    match reading {
        Ok(value) => Ok(format!(in alloc; "{value}")?),
        Err(why) => Ok(format!(in alloc; "{why:?}")?),
    }
}

/// The place of a name in a list of names.
pub fn place_of(name: &str, names: &[&str]) -> Option<usize> {
    names.iter().position(|it| *it == name)
}

/// Reads the next token.
fn read<T: ReadToken + Display + Drop>(alloc: Global, tokens: &mut Tokens) -> Result<String, Fail> {
    shown(alloc, tokens.next_as::<T>())
}

/// Reads the next token in base 16.
fn read_hex<T: ReadHex + Display + Drop>(
    alloc: Global,
    tokens: &mut Tokens,
) -> Result<String, Fail> {
    shown(alloc, tokens.next_hex::<T>())
}

/// Reads the next token at the named type.
fn read_at(alloc: Global, tokens: &mut Tokens, name: &str) -> Result<String, Fail> {
    let names = [
        "u8", "u16", "u32", "u64", "u128", "usize", "i8", "i16", "i32", "i64", "i128", "isize",
        "bool", "char", "String",
    ];
    match place_of(name, &names) {
        Some(0) => read::<u8>(alloc, tokens),
        Some(1) => read::<u16>(alloc, tokens),
        Some(2) => read::<u32>(alloc, tokens),
        Some(3) => read::<u64>(alloc, tokens),
        Some(4) => read::<u128>(alloc, tokens),
        Some(5) => read::<usize>(alloc, tokens),
        Some(6) => read::<i8>(alloc, tokens),
        Some(7) => read::<i16>(alloc, tokens),
        Some(8) => read::<i32>(alloc, tokens),
        Some(9) => read::<i64>(alloc, tokens),
        Some(10) => read::<i128>(alloc, tokens),
        Some(11) => read::<isize>(alloc, tokens),
        Some(12) => read::<bool>(alloc, tokens),
        Some(13) => read::<char>(alloc, tokens),
        Some(14) => read::<String>(alloc, tokens),
        _ => Err(Fail::from("no such type")),
    }
}

/// Reads the next token in base 16 at the named type.
fn read_hex_at(alloc: Global, tokens: &mut Tokens, name: &str) -> Result<String, Fail> {
    let names = [
        "u8", "u16", "u32", "u64", "u128", "usize", "i8", "i16", "i32", "i64", "i128", "isize",
    ];
    match place_of(name, &names) {
        Some(0) => read_hex::<u8>(alloc, tokens),
        Some(1) => read_hex::<u16>(alloc, tokens),
        Some(2) => read_hex::<u32>(alloc, tokens),
        Some(3) => read_hex::<u64>(alloc, tokens),
        Some(4) => read_hex::<u128>(alloc, tokens),
        Some(5) => read_hex::<usize>(alloc, tokens),
        Some(6) => read_hex::<i8>(alloc, tokens),
        Some(7) => read_hex::<i16>(alloc, tokens),
        Some(8) => read_hex::<i32>(alloc, tokens),
        Some(9) => read_hex::<i64>(alloc, tokens),
        Some(10) => read_hex::<i128>(alloc, tokens),
        Some(11) => read_hex::<isize>(alloc, tokens),
        _ => Err(Fail::from("no such type")),
    }
}

/// What the word's one token reads as at the named type, in base 16 where `hex ` stands before the name.
fn reading(alloc: Global, name: &str, word: &str) -> Result<String, Fail> {
    let tokens = scan(alloc, word, "{s}");
    let mut tokens = tokens.ok().ok_or("no memory")?;
    match name.strip_prefix("hex ") {
        Some(name) => read_hex_at(alloc, &mut tokens, name),
        None => read_at(alloc, &mut tokens, name),
    }
}

#[test]
fn words_read(rt: HostRuntime) -> Result<(), Fail> {
    for row in READINGS.lines() {
        let (name, rest) = row.split_once('\t').ok_or("no word")?;
        let (word, want) = rest.split_once('\t').ok_or("no reading")?;
        let found = reading(rt.alloc(), name, word)?;
        assert_eq!(rt; found.as_str(), want, "{row}");
    }
    Ok(())
}

#[test]
fn tokens_come_in_order(rt: HostRuntime) -> Result<(), Fail> {
    let alloc = rt.alloc();
    let mut tokens = scan(alloc, "257 x 7", "{d}{d}{s}{s}")
        .ok()
        .ok_or("no memory")?;
    let first = tokens.next_as::<u8>();
    let second = tokens.next_as::<u8>();
    let third = tokens.next().ok_or("no token")?;
    let fourth = tokens.next_hex::<u8>();
    let last = tokens.next_as::<u8>();
    assert_eq!(rt; shown(alloc, first)?.as_str(), "Bad");
    assert_eq!(rt; shown(alloc, second)?.as_str(), "Empty");
    assert_eq!(rt; third.as_str(), "x");
    assert_eq!(rt; shown(alloc, fourth)?.as_str(), "7");
    assert_eq!(rt; shown(alloc, last)?.as_str(), "Missing");
    Ok(())
}
