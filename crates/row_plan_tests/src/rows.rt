// Each row is written out by hand.
use crate::plans::planned;
use row_plan::RowPlan;
use scan_fmt::parse::Format;
use std::alloc::Global;
use std::process::Abort;
use std::test::Fail;
use values::Value;

// Kinds, a format, a line, and the values that it is read to, or why it isn't.
const ROWS: &str = "\
    i32 i32\t%d-%d\t1--2\t1 -2\n\
    i32 i32\t%d%+d\t1+2\t1 2\n\
    i32 u32\t%08x%08x\tffffffff00000010\t-1 16\n\
    u8 u8\t%#X;%o\t0XFF;377\t255 255\n\
    i64 u64\t%d,%d\t-9223372036854775808,18446744073709551615\t-9223372036854775808 18446744073709551615\n\
    word i64\t%s%25d\tx{y                        7\tx{y 7\n\
    u8\t%d\t7\t7\n\
    u8\t%d\t007\tNotARow\n\
    u8\t%d\t300\tNotARow\n\
    u8\t%d\t\tNotARow\n\
    u8\t%d\t7 \tNotARow\n\
    word u32 word u64\t%s [%08u] %s: %llu bytes\tweb01 [00000412] GET: 5120 bytes\tweb01 412 GET 5120\n\
    u8 u8\t%d-%d\t1-2\t1 2\n\
    u8\t%2147483647d\t7\tNotARow\n\
    word\t%-6s|\tab    |\tab\n\
    word\t%-6s|\ta|b   |\tNotARow\n\
    word\t%s\t\tNotARow\n\
    i8 word\t%x:%s.\tff:a.\t-1 a\n\
    u8 i8\t%d%4d\t7-100\t7 -100\n\
    u8 i8\t%d%4d\t7   5\t7 5\n\
    i32\t%d\t-0\tNotARow\n\
    i32\t%d\t-5\t-5\n\
    i32\t%d\t+5\tNotARow\n\
    char word\t%c=%s\té=ab\té ab\n\
    char word\t%c=%s\tab=c\tNotARow\n\
    char word\t%c=%s\t==c\tNotARow\n\
    \tplain {}\tplain {}\t\n\
    \tplain {}\tplain {} \tNotARow\n\
";

// The ends of each kind, and what is past them.
const ENDS: &str = "\
    u8 u8\t%d %d\t0 255\t0 255\n\
    u8 u8\t%d %d\t0 256\tNotARow\n\
    u16 u16\t%x %x\t0 ffff\t0 65535\n\
    u16 u16\t%x %x\t0 10000\tNotARow\n\
    u32 u32\t%o %o\t0 37777777777\t0 4294967295\n\
    u32 u32\t%o %o\t0 40000000000\tNotARow\n\
    u64 u64\t%d %X\t0 FFFFFFFFFFFFFFFF\t0 18446744073709551615\n\
    u64 u64\t%d %X\t0 10000000000000000\tNotARow\n\
    usize usize\t%d %d\t0 18446744073709551615\t0 18446744073709551615\n\
    usize usize\t%d %d\t0 18446744073709551616\tNotARow\n\
    i8 i8\t%d %d\t-128 127\t-128 127\n\
    i8 i8\t%d %d\t-129 127\tNotARow\n\
    i8 i8\t%x %x\t80 7f\t-128 127\n\
    i16 i16\t%d %d\t-32768 32767\t-32768 32767\n\
    i16 i16\t%d %d\t-32768 32768\tNotARow\n\
    i32 i32\t%x %x\t80000000 7fffffff\t-2147483648 2147483647\n\
    i32 i32\t%x %x\t80000000 80000000f\tNotARow\n\
    i64 i64\t%d %d\t-9223372036854775808 9223372036854775807\t-9223372036854775808 9223372036854775807\n\
    i64 i64\t%o %x\t1000000000000000000000 7fffffffffffffff\t-9223372036854775808 9223372036854775807\n\
    i64\t%d\t9223372036854775808\tNotARow\n\
    isize isize\t%d %d\t-9223372036854775808 9223372036854775807\t-9223372036854775808 9223372036854775807\n\
    isize\t%d\t-9223372036854775809\tNotARow\n\
";

/// One value, as its type shows it.
fn push_value(text: &mut String, value: &Value) -> Result<(), Fail> {
    match value {
        Value::U8(number) => write!(text, "{number}")?,
        Value::U16(number) => write!(text, "{number}")?,
        Value::U32(number) => write!(text, "{number}")?,
        Value::U64(number) => write!(text, "{number}")?,
        Value::Usize(number) => write!(text, "{number}")?,
        Value::I8(number) => write!(text, "{number}")?,
        Value::I16(number) => write!(text, "{number}")?,
        Value::I32(number) => write!(text, "{number}")?,
        Value::I64(number) => write!(text, "{number}")?,
        Value::Isize(number) => write!(text, "{number}")?,
        Value::Word(word) => text.push_str(word.as_str())?,
        Value::Char(character) => write!(text, "{character}")?,
    }
    Ok(())
}

/// The values between spaces, or the debug text of the refusal.
fn shown(alloc: Global, plan: &RowPlan, line: &str) -> Result<String, Fail> {
    let mut text = String::new(alloc);
    match plan.read_row(alloc, line) {
        Ok(values) => {
            for value in &values {
                if !text.is_empty() {
                    text.push_str(" ")?;
                }
                push_value(&mut text, value)?;
            }
        }
        Err(why) => write!(text, "{why:?}")?,
    }
    Ok(text)
}

fn hold(rt: &impl Abort, alloc: Global, rows: &str) -> Result<(), Fail> {
    for row in rows.lines() {
        let (kinds, planned_row) = row.split_once('\t').ok_or("no format")?;
        let (format, read) = planned_row.split_once('\t').ok_or("no line")?;
        let (line, want) = read.split_once('\t').ok_or("no answer")?;
        let plan = planned(alloc, kinds, format)?;
        assert_eq!(rt; shown(alloc, &plan, line)?.as_str(), want, "{row}");
    }
    Ok(())
}

#[test]
fn rows_are_read(rt: HostRuntime) -> Result<(), Fail> {
    hold(&rt, rt.alloc(), ROWS)
}

#[test]
fn kinds_are_read_to_their_ends(rt: HostRuntime) -> Result<(), Fail> {
    hold(&rt, rt.alloc(), ENDS)
}

/// A text that held something is used again.
#[test]
fn a_text_is_used_again(rt: HostRuntime) -> Result<(), Fail> {
    let alloc = rt.alloc();
    let plan = planned(alloc, "i32", "%d")?;
    let mut again = String::from_str(alloc, "x")?;
    let values = plan
        .read_row_with(alloc, "-5", &mut again)
        .ok()
        .ok_or("not a row")?;
    assert_eq!(rt; values.as_slice(), [Value::I32(-5)].as_slice());
    Ok(())
}

/// A scanning format that was cut before is used for each row.
#[test]
fn a_format_is_used_again(rt: HostRuntime) -> Result<(), Fail> {
    let alloc = rt.alloc();
    let plan = planned(alloc, "u8", "%d")?;
    let format = Format::new(alloc, plan.format_text())
        .ok()
        .ok_or("no memory")?;
    let mut again = String::new(alloc);
    'rows: for (line, number) in [("9", 9), ("12", 12)] {
        let values = plan
            .read_row_by(alloc, &format, line, &mut again)
            .ok()
            .ok_or("not a row")?;
        assert_eq!(rt; values.as_slice(), [Value::U8(number)].as_slice());
    }
    Ok(())
}
