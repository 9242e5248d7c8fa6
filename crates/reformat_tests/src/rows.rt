// Rows that are rewritten, and why they are not.
use crate::support::{run_table, sink, source};
use edge_io::MemSink;
use reformat::{ReformatError, Refused, RenderFault, TemplateFault, reformat, run};
use std::test::Fail;

const ROWS: &str = "\
rewrite~u64 u64^%d-%u^printf^%u %d^1-2^~0~1 2^~
rewrite~u64 u64^%d-%u^printf^%u %d^1-2~0~1 2^~
rewrite~^x^printf^y^x^x^~0~y^y^~
rewrite~u64 u64^%d-%u^printf^%u %d^01-2^~1~~line 5: not a row^
rewrite~u64 u64^%d-%u^printf^%u %d^1-^~1~~line 5: not a row^
rewrite~u64 u64^%d-%u^printf^%u %d^1-2x^~1~~line 5: not a row^
rewrite~u64 u64^%d-%u^printf^%u %d^1 -2^~1~~line 5: not a row^
rewrite~u64 u64^%d-%u^printf^%u %d^+1-2^~1~~line 5: not a row^
rewrite~u64^%d^printf^%d^18446744073709551615^~0~18446744073709551615^~
rewrite~u64^%d^printf^%d^18446744073709551616^~1~~line 5: not a row^
rewrite~u64^%d^printf^%d^0^00^~1~0^~line 6: not a row^
rewrite~u64^%d^printf^%d^1^^~1~1^~line 6: not a row^
rewrite~u64^%d^printf^%d^1^2^x^3^~1~1^2^~line 7: not a row^
rewrite~u8^%d^printf^%d^7^007^~1~7^~line 6: not a row^
rewrite~u8^%d^printf^%d^300^~1~~line 5: not a row^
rewrite~u8^%2147483647d^printf^%d^7^~1~~line 5: not a row^";

const KINDS: &str = "\
rewrite~i64 u64^%d,%d^printf^%d %d^-9223372036854775808,18446744073709551615^~0~-9223372036854775808 18446744073709551615^~
rewrite~u8 u8^%#X;%o^printf^%d %d^0XFF;377^~0~255 255^~
rewrite~i8 word^%x:%s.^printf^%d%s^ff:a.^~0~-1a^~
rewrite~i32^%d^printf^%d^-0^~1~~line 5: not a row^
rewrite~i32^%d^printf^%d^-5^~0~-5^~
rewrite~word^%-6s|^printf^%s^ab    |^~0~ab^~
rewrite~word^%-6s|^printf^%s^a|b   |^~1~~line 5: not a row^
rewrite~usize isize i16 u16^%u %i %d %x^printf^%d,%d,%d,%d^7 -7 -32768 ffff^~0~7,-7,-32768,65535^~
rewrite~char word^%c=%s^formatx^{1}{0}^a=bc^~0~bca^~
rewrite~char word^%c=%s^formatx^{1}{0}^==b^~1~~line 5: not a row^
rewrite~char word^%c=%s^formatx^{1}{0}^ab=c^~1~~line 5: not a row^
rewrite~char^%-8c|^formatx^{0:?}^é      |^~0~'é'^~";

const TOUCHING: &str = "\
rewrite~i32 i32^%d%+d^printf^%d %d^1+2^~0~1 2^~
rewrite~i32 u32^%08x%08x^printf^%d %u^ffffffff00000010^~0~-1 16^~
rewrite~word i64^%s%25d^printf^%s=%d^x{y                        7^~0~x{y=7^~
rewrite~u8 i8^%d%4d^printf^%d %d^7-100^7   5^~0~7 -100^7 5^~
rewrite~char u8^%c%4d^formatx^{1}{0}^x   7^~0~7x^~
rewrite~u8 char^%d%2c^formatx^{1}{0}^7 x^7é^~0~x7^é7^~";

const DIALECTS: &str = "\
rewrite~i32 i32^%d-%d^formatx^{1} {0}^1--2^~0~-2 1^~
rewrite~i32 i32^%d-%d^formatx^{1} {0}^1--2~0~-2 1^~
rewrite~i32 i32\r^%d-%d\r^formatx\r^{1} {0}\r^1--2\r^~0~-2 1\r^~
rewrite~word u32 word u64^%s [%08u] %s: %llu bytes^strfmt^{2} {3} {0}^web01 [00000412] GET: 5120 bytes^~0~GET 5120 web01^~
rewrite~u8^%d^strfmt^{0:x} }^1^2^~1~~line 5: template fault: Invalid^
rewrite~u8^%d^strfmt^{1}^9^~1~~line 5: template fault: KeyError^
rewrite~u8^%d^strfmt^{0:.2}^9^~1~~line 5: template fault: TypeError^
rewrite~u8^%d^formatx^{1}^9^~1~~line 5: template fault: MissingArgument^
rewrite~u8^%d^formatx^{0:x}^9^~1~~line 5: template fault: UnsupportedTrait^
rewrite~u8^%d^formatx^{0:1$}^9^~1~~line 5: template fault: Parse^";

const HEADER_LINES: &str = "\
rewrite~~1~~line 1: bad header^
rewrite~u64 u128^%d^printf^%d^~1~~line 1: bad header^
rewrite~u8 u128^%d^printf^%d^~1~~line 1: bad header^
rewrite~u64^~1~~line 2: bad header^
rewrite~u64~1~~line 2: bad header^
rewrite~u64^%y^printf^%d^~1~~line 2: not a printf format^
rewrite~u64^%d^c^%d^~1~~line 3: bad header^
rewrite~u64^%d^printf printf^%d^~1~~line 3: bad header^
rewrite~u64^%d^printf^~1~~line 4: bad header^
rewrite~u64^%d^printf^%^~1~~line 4: not a printf template^
rewrite~u64^%d^formatx^{^~1~~line 4: not a formatx template^
rewrite~u64^%d^strfmt^{^~0~~
rewrite~u64^%d^printf^%d~0~~";

const REFUSED_FORMATS: &str = "\
rewrite~word^%.3s^~1~~line 2: field 1: lossy^
rewrite~word^%d^~1~~line 2: field 1: kind^
rewrite~word word^%.3s%d^~1~~line 2: field 2: kind^
rewrite~u8 u8^%d^~1~~line 2: field 2: kind^
rewrite~u8^%*d^~1~~line 2: field 1: kind^
rewrite~u8^%c^~1~~line 2: field 1: kind^
rewrite~u32 u32^%u%+u^~1~~line 2: field 1: runs on^
rewrite~u64 u64^%d%d^~1~~line 2: field 1: runs on^
rewrite~i64 i64^% 020d%d^~1~~line 2: field 1: runs on^
rewrite~u8^%xx^~1~~line 2: field 1: runs on^
rewrite~u64^%d0^~1~~line 2: field 1: runs on^
rewrite~u8 i8^%d%3d^~1~~line 2: field 1: runs on^
rewrite~char char^%c%c^~1~~line 2: field 1: runs on^
rewrite~u8 char^%d%c^~1~~line 2: field 1: runs on^
plan~u32 u32^%u %u%+u^~1~~line 2: field 3: kind^
plan~u32 u32 u8^%u %u%+u^~1~~line 2: field 2: runs on^";

const TEMPLATES: &str = "\
rewrite~u64^%d%%^printf^%5d|%s^7%^~1~~line 5: template fault: NotEnoughArgs^
rewrite~u64^%d%%^printf^%#06x^7%^~0~0x0007^~
rewrite~u8 u8^%d-%d^printf^%d^1-2^~1~~line 5: template fault: TooManyArgs^
rewrite~u8 u8^%d-%d^printf^%d %d %d^1-2^~1~~line 5: template fault: NotEnoughArgs^
rewrite~u8 u8^%d-%d^printf^%s %d^1-2^~1~~line 5: template fault: WrongType^
rewrite~u64^%.2i^printf^%%%d%%^9^~0~%9%^~
rewrite~u8 u64^%u%%%u^printf^%*d|^3%5^~0~  5|^~";

const NAMES: &str = "\
rewrite~#2^u8 word^id name^%d:%s^strfmt^{name}={id} {0}^7:ab^~0~ab=7 7^~
rewrite~ #2 ^u8 word^ id  name ^%d:%s^formatx^{name:>id$}^7:ab^~0~     ab^~
rewrite~#2^u8 word^_ a_1^%d:%s^printf^%d %s^7:ab~0~7 ab^~
rewrite~#2^^^x^printf^y^x^x^~0~y^y^~
rewrite~#2^u8 word^id name^%d:%s^strfmt^{name}^x^~1~~line 7: not a row^
rewrite~#2^u8 word^id name^%d:%s^strfmt^{name}^7:ab^8:c d^~1~ab^~line 8: not a row^
rewrite~#2^u8^id^%d^strfmt^{Id}^7^~1~~line 7: template fault: KeyError^
rewrite~u8^%d^strfmt^{id}^7^~1~~line 5: template fault: KeyError^
rewrite~#2^u8 word^id id^%d:%s^strfmt^x^~1~~line 3: bad header^
rewrite~#2^u8 word^id^%d:%s^strfmt^x^~1~~line 3: bad header^
rewrite~#2^u8 word^id name other^%d:%s^strfmt^x^~1~~line 3: bad header^
rewrite~#2^u8 word^1x y^%d:%s^strfmt^x^~1~~line 3: bad header^
rewrite~#2^u8 word^id na-me^%d:%s^strfmt^x^~1~~line 3: bad header^
rewrite~#2^u8 word^id é^%d:%s^strfmt^x^~1~~line 3: bad header^
rewrite~#2 x^~1~~line 1: bad header^
rewrite~#2^~1~~line 2: bad header^
rewrite~#2^u128^id^~1~~line 2: bad header^
rewrite~#2^u8^~1~~line 3: bad header^
rewrite~#2^u8^id^~1~~line 4: bad header^
rewrite~#2^u8 word^id name^%y^~1~~line 4: not a printf format^
rewrite~#2^word^id^%.3s^~1~~line 4: field 1: lossy^
rewrite~#2^u8^id^%d^~1~~line 5: bad header^
rewrite~#2^u8^id^%d^c^~1~~line 5: bad header^
rewrite~#2^u8^id^%d^printf^~1~~line 6: bad header^
rewrite~#2^u8^id^%d^printf^%^~1~~line 6: not a printf template^
plan~#2^u8 word^id name^%d:%s^~0~{d}:{s}^~
plan~#2^u8 word^id name^%d:%s^anything~0~{d}:{s}^~
plan~#2^u8 word^id id^%d:%s^~1~~line 3: bad header^
plan~#2^u8^id^~1~~line 4: bad header^
translate strfmt~#2^u8^id^%o^~0~{0:o}^~
translate formatx~#2^u8^id^%o^~1~~line 4: element 1: no translation^
translate formatx~#2^u8^id^%y^~1~~line 4: not a printf format^";

#[test]
fn names_fields(rt: HostRuntime) -> Result<(), Fail> {
    run_table(&rt, rt.alloc(), NAMES, 4096)?;
    run_table(&rt, rt.alloc(), NAMES, 1)
}

#[test]
fn rewrites_rows(rt: HostRuntime) -> Result<(), Fail> {
    run_table(&rt, rt.alloc(), ROWS, 4096)
}

#[test]
fn reads_every_kind(rt: HostRuntime) -> Result<(), Fail> {
    run_table(&rt, rt.alloc(), KINDS, 4096)?;
    run_table(&rt, rt.alloc(), KINDS, 1)
}

#[test]
fn reads_fields_that_touch(rt: HostRuntime) -> Result<(), Fail> {
    run_table(&rt, rt.alloc(), TOUCHING, 1)
}

#[test]
fn prints_in_three_dialects(rt: HostRuntime) -> Result<(), Fail> {
    run_table(&rt, rt.alloc(), DIALECTS, 4096)?;
    run_table(&rt, rt.alloc(), DIALECTS, 1)
}

#[test]
fn judges_headers(rt: HostRuntime) -> Result<(), Fail> {
    run_table(&rt, rt.alloc(), HEADER_LINES, 4096)
}

#[test]
fn refuses_what_can_not_be_read_back(rt: HostRuntime) -> Result<(), Fail> {
    run_table(&rt, rt.alloc(), REFUSED_FORMATS, 1)
}

#[test]
fn prints_by_any_template(rt: HostRuntime) -> Result<(), Fail> {
    run_table(&rt, rt.alloc(), TEMPLATES, 4096)
}

#[test]
fn carries_the_line_of_a_refusal(rt: HostRuntime) -> Result<(), Fail> {
    let alloc = rt.alloc();
    let mut output = sink(alloc, 1)?;
    let mut input = source(alloc, b"u64\n%y\n", 4096)?;
    let got = reformat(alloc, &mut input, &mut output, 100);
    assert_eq!(rt; got, Err(ReformatError::SourceFormat { line: 2 }));
    let mut input = source(alloc, b"u64\n%d\nprintf\n%\n", 4096)?;
    let got = reformat(alloc, &mut input, &mut output, 100);
    let why = TemplateFault::Printf;
    assert_eq!(rt; got, Err(ReformatError::Template { line: 4, why }));
    let mut input = source(alloc, b"u8 u8\n%d%d\n", 4096)?;
    let got = reformat(alloc, &mut input, &mut output, 100);
    let why = Refused::RunsOn { field: 1 };
    assert_eq!(rt; got, Err(ReformatError::Refused { line: 2, why }));
    let mut input = source(alloc, b"u8\n%d\nformatx\n{1}\n9\n", 4096)?;
    let got = reformat(alloc, &mut input, &mut output, 100);
    let fault = RenderFault::MissingArgument;
    assert_eq!(rt; got, Err(ReformatError::Render { line: 5, fault }));
    Ok(())
}

// A fault of the error output in the middle of a message leaves a front of it, and the status stays.
#[test]
fn tells_what_it_can(rt: HostRuntime) -> Result<(), Fail> {
    let alloc = rt.alloc();
    let mut input = source(alloc, b"", 4096)?;
    let mut output = sink(alloc, 1)?;
    let mut errors = MemSink::new(vec![in alloc; 0; 100]?, 3, vec![in alloc; 2]?);
    let words = vec![in alloc; String::from_str(alloc, "rewrite")?]?;
    let got = run(alloc, &words, &mut input, &mut output, &mut errors);
    assert_eq!(rt; got, 1);
    assert_eq!(rt; errors.bytes(), b"lin".as_slice());
    Ok(())
}
