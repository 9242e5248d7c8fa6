// Each planned text is written out by hand.
use row_plan::{RowPlan, plan};
use sprintf::parser::parse_format_string;
use std::alloc::Global;
use std::process::Abort;
use std::test::Fail;
use values::parse_kinds;

// Kinds, a format, and its planned text, or the debug text of the refusal.
const PLANS: &str = "\
    i32 i32\t%d%+d\t{d}{d}\n\
    i32 u32\t%08x%08x\t{8x}{8x}\n\
    u8 u8\t%#X;%o\t0X{x};{d}\n\
    i64 u64\t%d,%d\t{d},{d}\n\
    word i64\t%s%25d\t{s}{d}\n\
    word u32 word u64\t%s [%08u] %s: %llu bytes\t{} [{d}] {}: {d} bytes\n\
    i8 word\t%x:%s.\t{x}:{}.\n\
    u8 i8\t%d%4d\t{d}{d}\n\
    u32\t%-5u|\t{d}|\n\
    word\t%-6s|\t{}|\n\
    u8\t%2147483647d\t{d}\n\
    u8 u8\t%04d%d\t{4d}{d}\n\
    u32\t%#010X\t0X{8x}\n\
    i16\t%#08x\t{8x}\n\
    char word\t%c=%s\t{}={s}\n\
    u8\t{%d}%%\t{{{d}}}%\n\
    \tplain {}\tplain {{}}\n\
    u8\té%d\té{d}\n\
    word\t%.3s\tRefused(Lossy { field: 1 })\n\
    word\t%d\tRefused(Kind { field: 1 })\n\
    u8 u8\t%d\tRefused(Kind { field: 2 })\n\
    u32 u32\t%u%+u\tRefused(RunsOn { field: 1 })\n\
    u8 i8\t%d%3d\tRefused(RunsOn { field: 1 })\n\
";

/// The plan of a format over the kinds that the words name.
pub fn planned(alloc: Global, kinds: &str, format: &str) -> Result<RowPlan, Fail> {
    let kinds = parse_kinds(alloc, kinds).ok().ok_or("no kinds")?;
    let elements = parse_format_string(alloc, format)?;
    Ok(plan(alloc, &elements, &kinds).ok().ok_or("no plan")?)
}

/// The planned text, or the debug text of the refusal.
fn shown(alloc: Global, kinds: &str, format: &str) -> Result<String, Fail> {
    let kinds = parse_kinds(alloc, kinds).ok().ok_or("no kinds")?;
    let elements = parse_format_string(alloc, format)?;
    let mut text = String::new(alloc);
    match plan(alloc, &elements, &kinds) {
        Ok(plan) => text.push_str(plan.format_text())?,
        Err(why) => write!(text, "{why:?}")?,
    }
    Ok(text)
}

fn hold(rt: &impl Abort, alloc: Global, rows: &str) -> Result<(), Fail> {
    for row in rows.lines() {
        let (kinds, judged) = row.split_once('\t').ok_or("no format")?;
        let (format, want) = judged.split_once('\t').ok_or("no answer")?;
        assert_eq!(rt; shown(alloc, kinds, format)?.as_str(), want, "{row}");
    }
    Ok(())
}

#[test]
fn formats_are_planned(rt: HostRuntime) -> Result<(), Fail> {
    hold(&rt, rt.alloc(), PLANS)
}
