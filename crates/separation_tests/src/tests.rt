// Each answer is written out by hand.
use row_format::RowFormat;
use separation::judge;
use sprintf::parser::parse_format_string;
use std::alloc::Global;
use std::process::Abort;
use std::test::Fail;
use values::parse_kinds;

// Kinds, a format, and the debug text of the refusal, or `none`.
const ROWS: &str = "\
    i32 i32\t%d-%d\tnone\n\
    i32 i32\t%d%+d\tnone\n\
    u32 u32\t%u%+u\tRunsOn { field: 1 }\n\
    u64 u64\t%d%d\tRunsOn { field: 1 }\n\
    i32 u32\t%08x%08x\tnone\n\
    i64 i64\t% 020d%d\tRunsOn { field: 1 }\n\
    u8 u8\t%#X;%o\tnone\n\
    i64 u64\t%d,%d\tnone\n\
    word i64\t%s%25d\tnone\n\
    word\t%.3s\tLossy { field: 1 }\n\
    word\t%d\tKind { field: 1 }\n\
    word word\t%.3s%d\tKind { field: 2 }\n\
    u8 u8\t%d\tKind { field: 2 }\n\
    u8\t%*d\tKind { field: 1 }\n\
    word u32 word u64\t%s [%08u] %s: %llu bytes\tnone\n\
    i8 word\t%x:%s.\tnone\n\
    u8\t%xx\tRunsOn { field: 1 }\n\
    u8 i8\t%d%4d\tnone\n\
    u8 i8\t%d%3d\tRunsOn { field: 1 }\n\
    char u8\t%c%4d\tnone\n\
    char char\t%c%c\tRunsOn { field: 1 }\n\
    u8\t%c\tKind { field: 1 }\n\
    char word\t%c=%s\tnone\n\
    char\t%-8c|\tnone\n\
    u8 char\t%d%2c\tnone\n\
    u8 char\t%d%c\tRunsOn { field: 1 }\n\
    u8\t%2147483647d\tnone\n\
    word\t%-6s|\tnone\n\
    u32\t%-5u|\tnone\n\
    u8 u8\t%02u%02u\tRunsOn { field: 1 }\n\
    u8 u8\t%03u%03u\tnone\n\
";

// More of the table, case by case.
const CASES: &str = "\
    \tplain\tnone\n\
    \t100%%\tnone\n\
    u8\tplain\tKind { field: 1 }\n\
    \t%d\tKind { field: 1 }\n\
    u8\t%f\tKind { field: 1 }\n\
    word u8\t%.3s%s\tKind { field: 2 }\n\
    u8 u8 word\t%d%d%.1s\tLossy { field: 3 }\n\
    u8 u8 u8\t%d,%d%d\tRunsOn { field: 2 }\n\
    u8\t%d7\tRunsOn { field: 1 }\n\
    u8\t%d%%\tnone\n\
    u8\t%da\tnone\n\
    u8\t%xa\tRunsOn { field: 1 }\n\
    u8\t%xg\tnone\n\
    u8\t%o8\tRunsOn { field: 1 }\n\
    word\t%sé\tnone\n\
    u8 u8\t%-3d%d\tRunsOn { field: 1 }\n\
    u8 u8\t%-4d%d\tnone\n\
    u8 u8\t%d%4d\tnone\n\
    u8 u8\t%d%-4d\tRunsOn { field: 1 }\n\
    u8 u8\t%d%04d\tRunsOn { field: 1 }\n\
    u8 u8\t%04d%d\tnone\n\
    i8 i8\t%-+4d%d\tRunsOn { field: 1 }\n\
    i8 i8\t%d% d\tnone\n\
    word i8\t%s% d\tRunsOn { field: 1 }\n\
    word i8\t%s%4d\tRunsOn { field: 1 }\n\
    word i8\t%s%5d\tnone\n\
    u8 i8\t%d%4x\tnone\n\
    u8 i8\t%d%2x\tRunsOn { field: 1 }\n\
    u8 i8\t%d%#4x\tRunsOn { field: 1 }\n\
    u8 i8\t%d%#5x\tnone\n\
    u8 word\t%d%9s\tRunsOn { field: 1 }\n\
    word word\t%-9s%s\tRunsOn { field: 1 }\n\
    char u8\t%-4c%d\tRunsOn { field: 1 }\n\
    char u8\t%-5c%d\tnone\n\
    char char\t%c%4c\tRunsOn { field: 1 }\n\
    char char\t%c%5c\tnone\n\
    u8 char\t%d%-5c\tRunsOn { field: 1 }\n\
    usize isize\t%020u%+d\tnone\n\
";

/// The debug text of the refusal, or `none`.
fn shown(alloc: Global, kinds: &str, format: &str) -> Result<String, Fail> {
    let kinds = parse_kinds(alloc, kinds).ok().ok_or("no kinds")?;
    let elements = parse_format_string(alloc, format)?;
    let format = RowFormat::new(alloc, &elements).ok().ok_or("no memory")?;
    let mut text = String::new(alloc);
    match judge(&format, &kinds) {
        Some(why) => write!(text, "{why:?}")?,
        None => text.push_str("none")?,
    }
    Ok(text)
}

fn holds_of(rt: &impl Abort, alloc: Global, rows: &str) -> Result<(), Fail> {
    for row in rows.lines() {
        let (kinds, judged) = row.split_once('\t').ok_or("no format")?;
        let (format, want) = judged.split_once('\t').ok_or("no answer")?;
        assert_eq!(rt; shown(alloc, kinds, format)?.as_str(), want, "{row}");
    }
    Ok(())
}

#[test]
fn formats_are_judged(rt: HostRuntime) -> Result<(), Fail> {
    holds_of(&rt, rt.alloc(), ROWS)
}

#[test]
fn the_table_is_read_case_by_case(rt: HostRuntime) -> Result<(), Fail> {
    holds_of(&rt, rt.alloc(), CASES)
}
