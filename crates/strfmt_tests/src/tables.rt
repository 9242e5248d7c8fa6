// Tables of answers of `strfmt`. Each line is a value, a template, the kind of the answer, and its text or message,
// each with a bar after it.
use crate::{Channel, Light};
use numerals::NoMemory;
use std::alloc::{AllocError, Global};
use std::collections::HashMap;
use std::hash::Hash;
use std::process::Abort;
use std::test::Fail;
use strfmt::{DisplayStr, FmtError, Format, FromKey, Result, strfmt};

const TEXTS: &str = "\
ab|{x:^7}|Ok|  ab   |
ab|{x:.1}|Ok|a|
é|{x:.1}|Ok|é|
forge|{x:6.9s}|Ok|forge |
né|{x:é^3.1s}|Ok|éné|
日本語|{x:>5}|Ok|  日本語|
|{x:0>4.9s}|Ok|0000|
a|{x:=1}|Ok|a|
a b|{x:=2.1s}|Invalid|sign aware zero padding and Align '=' not yet supported|
ab|{x:X}|TypeError|Unknown format code Some('X') for object of type 'str'|
ab|{x:#s}|TypeError|Alternate form (#) not allowed in string format specifier|
ab|{x:,}|TypeError|Cannot specify ',' with 's'|
ab|{x:-s}|TypeError|Sign not allowed in string format specifier|
ab|{x:9223372036854775807}|NoMemory||
bob|hi, my name is {x} and I am a {x:>4}!|Ok|hi, my name is bob and I am a  bob!|
bob|{{{x}}}}}é{x:.1}|Ok|{bob}}éb|
bob|{|Invalid|Expected '}' before end of string|
bob|{a{|Invalid|extra { found|
bob|{x:k{|Invalid|extra { found|
bob|}{}}|Invalid|Single '}' encountered in format string|
bob|é}|Invalid|Single '}' encountered in format string|
bob|{}|Invalid|must specify identifier|
bob|{:s}|Invalid|must specify identifier|
bob|{b}|KeyError|Invalid key: b|
bob|{b}}|KeyError|Invalid key: b|
bob|{x:k}{|TypeError|Invalid type specifier: 'k'|
";

const INTEGERS: &str = "\
255|{x:+#x}|Ok|+0xff|
255|{x:#10X}|Ok|0x        FF|
-42|{x:*<+6}|Ok|-42***|
-1|{x:é^-#11b}|Ok|0b11111111111111111111111111111111|
42|{x:01}|Ok|42|
42|{x:05}|Invalid|sign aware zero padding and Align '=' not yet supported|
42|{x:<05}|Invalid|sign aware zero padding and Align '=' not yet supported|
1|{x:0>}|Invalid|sign aware 0 padding not yet supported|
1|{x:0>,}|Invalid|thousands specifier not yet supported|
7|{x:<#1}|Invalid|alternate ('#') cannot be used with type ' '|
1|{x:.2}|TypeError|precision not allowed for integers|
1|{x:,f}|TypeError|Unknown format code 'f' for type|
1|{x:k}|TypeError|Invalid type specifier: 'k'|
1|{x:\t}|TypeError|Invalid type specifier: '\\t'|
1|{x:\u{1}}|TypeError|Invalid type specifier: '\\u{1}'|
1|{x:'}|TypeError|Invalid type specifier: '\\''|
1|{x:5é}|Invalid|Invalid format specifier|
1|{x:,x}|Invalid|Invalid comma type: x|
1|{x:5.}|Invalid|Format specifier missing precision|
1|{x:.9223372036854775808}|Invalid|overflow error when parsing precision|
1|{x:99999999999999999999}|Invalid|overflow error when parsing width|
";

const CHARACTERS: &str = "\
é|{x:*^5}|Ok|**é**|
é|{x:.0}|Ok||
日|{x:s}|Ok|日|
x|{x:x}|TypeError|Unknown format code Some('x') for object of type 'str'|
x|{x:=3}|Invalid|sign aware zero padding and Align '=' not yet supported|
";

/// The number stands at the key 1.
const NUMBERED: &str = "\
9|<{1}>|Ok|<9>|
9|<{01}>|Ok|<9>|
9|<{+1}>|Ok|<9>|
9|<{-1}>|KeyError|Invalid key: -1|
9|<{1a}>|KeyError|Invalid key: 1a|
9|<{4294967297}>|KeyError|Invalid key: 4294967297|
";

/// The lights that are on, off and broken have the keys `n`, `f` and `b`.
const LIGHTS: &str = "\
|{n}, {f:>4}|Ok|on,  off|
|{n:x}|TypeError|Unknown format code Some('x') for object of type 'str'|
|{b}{b:q}|KeyError|blown|
|{nn}|KeyError|Invalid key: nn|
|{é}|KeyError|Invalid key: é|
";

/// A line of a table.
#[derive(Drop)]
struct Row<'a> {
    value: &'a str,
    template: &'a str,
    kind: &'a str,
    want: &'a str,
}

fn read_row(line: &str) -> Option<Row<'_>> {
    let (value, rest) = line.split_once('|')?;
    let (template, rest) = rest.split_once('|')?;
    let (kind, rest) = rest.split_once('|')?;
    let (want, _) = rest.split_once('|')?;
    Some(Row {
        value,
        template,
        kind,
        want,
    })
}

/// The answer's kind, and its text or message.
fn shown(answer: &Result<String>) -> (&'static str, &str) {
    match answer {
        Ok(printed) => ("Ok", printed.as_str()),
        Err(FmtError::Invalid(message)) => ("Invalid", message.as_str()),
        Err(FmtError::KeyError(message)) => ("KeyError", message.as_str()),
        Err(FmtError::TypeError(message)) => ("TypeError", message.as_str()),
        Err(FmtError::NoMemory) => ("NoMemory", ""),
    }
}

/// Asserts that the answer is the row's.
fn assert_row(rt: &impl Abort, answer: &Result<String>, row: &Row<'_>) {
    let (kind, text) = shown(answer);
    let template = row.template;
    assert!(rt; kind == row.kind, "{template}: {kind}");
    assert!(rt; text == row.want, "{template}: {text}");
}

/// A map with one value.
fn map_of<K: Hash + Eq + FromKey, D: DisplayStr>(
    alloc: Global,
    key: K,
    value: D,
) -> std::result::Result<HashMap<K, D>, AllocError> {
    let mut vars: HashMap<K, D> = HashMap::new(alloc);
    vars.insert(key, value)?;
    Ok(vars)
}

#[test]
fn texts_are_printed(rt: HostRuntime) -> std::result::Result<(), Fail> {
    let alloc = rt.alloc();
    'rows: for line in TEXTS.lines() {
        let row = read_row(line).expect(&rt, line);
        let vars = map_of(alloc, String::from_str(alloc, "x")?, row.value)?;
        assert_row(&rt, &strfmt(alloc, row.template, &vars), &row);
        assert_row(&rt, &row.template.format(alloc, &vars), &row);
    }
    Ok(())
}

#[test]
fn integers_are_printed(rt: HostRuntime) -> std::result::Result<(), Fail> {
    let alloc = rt.alloc();
    'rows: for line in INTEGERS.lines() {
        let row = read_row(line).expect(&rt, line);
        let value = row.value.parse::<i32>().expect(&rt, line);
        let vars = map_of(alloc, String::from_str(alloc, "x")?, value)?;
        assert_row(&rt, &strfmt(alloc, row.template, &vars), &row);
    }
    Ok(())
}

#[test]
fn characters_are_printed(rt: HostRuntime) -> std::result::Result<(), Fail> {
    let alloc = rt.alloc();
    'rows: for line in CHARACTERS.lines() {
        let row = read_row(line).expect(&rt, line);
        let value = row.value.chars().next().expect(&rt, line);
        let vars = map_of(alloc, String::from_str(alloc, "x")?, value)?;
        assert_row(&rt, &strfmt(alloc, row.template, &vars), &row);
    }
    Ok(())
}

#[test]
fn numbers_are_keys(rt: HostRuntime) -> std::result::Result<(), Fail> {
    let alloc = rt.alloc();
    'rows: for line in NUMBERED.lines() {
        let row = read_row(line).expect(&rt, line);
        let value = row.value.parse::<u8>().expect(&rt, line);
        let vars = map_of(alloc, 1u32, value)?;
        let template = String::from_str(alloc, row.template)?;
        assert_row(&rt, &template.format(alloc, &vars), &row);
    }
    Ok(())
}

#[test]
fn types_of_a_caller(rt: HostRuntime) -> std::result::Result<(), Fail> {
    let alloc = rt.alloc();
    let mut vars: HashMap<Channel, Light> = HashMap::new(alloc);
    vars.insert(Channel(b'n'), Light::On)?;
    vars.insert(Channel(b'f'), Light::Off)?;
    let message = String::from_str(alloc, "blown")?;
    vars.insert(Channel(b'b'), Light::Broken(message))?;
    'rows: for line in LIGHTS.lines() {
        let row = read_row(line).expect(&rt, line);
        assert_row(&rt, &strfmt(alloc, row.template, &vars), &row);
    }
    Ok(())
}

#[test]
fn two_values(rt: HostRuntime) -> std::result::Result<(), Fail> {
    let alloc = rt.alloc();
    let mut vars: HashMap<String, &str> = HashMap::new(alloc);
    vars.insert(String::from_str(alloc, "name")?, "bob")?;
    vars.insert(String::from_str(alloc, "job")?, "python developer")?;
    let template = "hi, my name is {name} and I am a {job}!";
    let want = "hi, my name is bob and I am a python developer!";
    assert!(rt; strfmt(alloc, template, &vars)?.as_str() == want);
    assert!(rt; template.format(alloc, &vars)?.as_str() == want);
    Ok(())
}

#[test]
fn boxed_values(rt: HostRuntime) -> std::result::Result<(), Fail> {
    let alloc = rt.alloc();
    let seven: Box<dyn DisplayStr> = Box::new(alloc, 7u8)?;
    let vars = map_of(alloc, String::from_str(alloc, "x")?, seven)?;
    assert!(rt; strfmt(alloc, "{x:>3}", &vars)?.as_str() == "  7");
    Ok(())
}

#[test]
fn integers_are_keys(rt: HostRuntime) {
    let alloc = rt.alloc();
    assert!(rt; u8::from_key(alloc, "256") == Ok(None));
    assert!(rt; i8::from_key(alloc, "-128") == Ok(Some(-128)));
    assert!(rt; u16::from_key(alloc, "65535") == Ok(Some(65535)));
    assert!(rt; i16::from_key(alloc, "") == Ok(None));
    assert!(rt; i32::from_key(alloc, "+7") == Ok(Some(7)));
    assert!(rt; u64::from_key(alloc, "18446744073709551616") == Ok(None));
    assert!(rt; i64::from_key(alloc, "9223372036854775807") == Ok(Some(9223372036854775807)));
    assert!(rt; u128::from_key(alloc, "340282366920938463463374607431768211456") == Ok(None));
    assert!(rt; i128::from_key(alloc, "-1") == Ok(Some(-1)));
    assert!(rt; usize::from_key(alloc, "0") == Ok(Some(0)));
    assert!(rt; isize::from_key(alloc, "-") == Ok(None));
}
