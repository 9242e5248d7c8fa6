// Each expected text is written out by hand.
use columns::{Columns, Token};
use row_format::RowFormat;
use sprintf::parser::parse_format_string;
use std::alloc::Global;
use std::test::Fail;
use values::parse_kinds;

// Kinds, a format, a row, and each token's text and number; `no` where the row isn't taken, `none` where the format isn't served.
const ROWS: &str = "\
    u64 u64\t%d-%u\t1-2\t1=1 2=2\n\
    u64 u64\t%d-%u\t1-02\tno\n\
    u64 u64\t%d-%u\t1-\tno\n\
    u64 u64\t%d-%u\t1-2x\tno\n\
    u64\t%d\t18446744073709551615\t18446744073709551615=18446744073709551615\n\
    u64\t%d\t18446744073709551616\tno\n\
    u8\t[%d]\t[255]\t255=255\n\
    u8\t[%d]\t[256]\tno\n\
    u32\t%08u.\t00000412.\t00000412=412\n\
    u32\t%08u.\t412.\tno\n\
    word u8\t%s [%d]\tweb [7]\tweb=0 7=7\n\
    word u8\t%s [%d]\t [7]\tno\n\
    word\t%s\té\té=0\n\
    i32\t%d\t-5\t-5=18446744073709551611\n\
    i32\t%d\t-0\tno\n\
    i32\t%+d\t+7\t+7=7\n\
    i64\t%d\t-9223372036854775808\t-9223372036854775808=9223372036854775808\n\
    i64\t%d\t9223372036854775808\tno\n\
    u32\t%08x.\t0000beef.\t0000beef=48879\n\
    u32\t%08x.\tbeef.\tno\n\
    u32\t%08x.\t0000BEEF.\tno\n\
    u32\t%X\tBEEF\tBEEF=48879\n\
    u32\t%x\t0beef\tno\n\
    u32\t%x\t100000000\tno\n\
    u64\t%016X\tFFFFFFFFFFFFFFFF\tFFFFFFFFFFFFFFFF=18446744073709551615\n\
    u64\t%x\t10000000000000000\tno\n\
    i8\t%x\tfe\tfe=18446744073709551614\n\
    i8\t%02x\t7f\t7f=127\n\
    i32\t%08x\t80000000\t80000000=18446744071562067968\n\
    u8\t%#04x\t0x0f\t0x0f=15\n\
    u16\t%o\t177777\t177777=65535\n\
    u16\t%o\t18\tno\n\
    u16 u16 u32\t%05u%05u%08x\t00007000120000beef\t00007=7 00012=12 0000beef=48879\n\
    u16 u16 u32\t%05u%05u%08x\t65535655364000beef\tno\n\
    u16 u16\t%05u%05u\t000070001\tno\n\
    u16 u16\t%05u%05u\t00007000123\tno\n\
    u8 u16\t%04u%06u\t0255065535\t0255=255 065535=65535\n\
    u8 i8 u8\t%02x%02X%03u\tffFE007\tff=255 FE=18446744073709551614 007=7\n\
    u8 u8\t%02x%02x\tff0g\tno\n\
    u8 u8\t%02x%02x\tff0:\tno\n\
    u8 u16\t%03o%06o\t377177777\t377=255 177777=65535\n\
    u8 u64\t%#04x%020u\t0xff18446744073709551615\t0xff=255 18446744073709551615=18446744073709551615\n\
    u64\t%d:\t12345678:\t12345678=12345678\n\
    u64\t%d:\t1234567:\t1234567=1234567\n\
    u64\t%d/\t1234567/\t1234567=1234567\n\
    u32\t%x\tfedcba98\tfedcba98=4275878552\n\
    u32\t%X\tFEDCBA98\tFEDCBA98=4275878552\n\
    u32\t%08x\tfedcbag8\tno\n\
    u32\t%08x\tfedcba`8\tno\n\
    u32\t%08X\tFEDCBA@8\tno\n\
    u32\t%08X\tFEDCBAG8\tno\n\
    word u8\t%s %d\tabcdefghijklmnop 7\tabcdefghijklmnop=0 7=7\n\
    word u8\t%s %d\tabcdefgh\u{1}jklmnopqr 7\tabcdefgh\u{1}jklmnopqr=0 7=7\n\
    word\t%s\tstraße-straße-straße\tstraße-straße-straße=0\n\
    word\t%s\tabcdefghijklmnopq r\tno\n\
    u8\t%4x\t  ff\tnone\n\
    char\t%c\ta\tnone\n\
    u8\t%-4d\t7   \tnone\n\
";

/// What the tokens of a row are.
fn shown(alloc: Global, row: &str, tokens: &[Token]) -> Result<String, Fail> {
    let mut text = String::new(alloc);
    for token in tokens {
        if !text.is_empty() {
            text.push(' ')?;
        }
        let slice = row.get(token.start..token.end).ok_or("no slice")?;
        write!(text, "{slice}={}", token.number)?;
    }
    Ok(text)
}

/// What is read of a row.
fn read(alloc: Global, kinds: &str, format: &str, row: &str) -> Result<String, Fail> {
    let kinds = parse_kinds(alloc, kinds).ok().ok_or("kinds")?;
    let elements = parse_format_string(alloc, format).ok().ok_or("format")?;
    let format = RowFormat::new(alloc, &elements).ok().ok_or("no memory")?;
    let found = Columns::new(alloc, &format, &kinds);
    let Some(columns) = found.ok().ok_or("no memory")? else {
        return Ok(String::from_str(alloc, "none")?);
    };
    let mut tokens = Vec::new(alloc);
    if columns.read(row, &mut tokens).ok().ok_or("no memory")? {
        shown(alloc, row, &tokens)
    } else {
        Ok(String::from_str(alloc, "no")?)
    }
}

#[test]
fn rows_are_read(rt: HostRuntime) -> Result<(), Fail> {
    for line in ROWS.lines() {
        let (kinds, rest) = line.split_once('\t').ok_or("no kinds")?;
        let (format, rest) = rest.split_once('\t').ok_or("no format")?;
        let (row, want) = rest.split_once('\t').ok_or("no row")?;
        assert_eq!(rt;
            read(rt.alloc(), kinds, format, row)?.as_str(),
            want,
            "{line}"
        );
    }
    Ok(())
}
