// Each row of the table in both targets, at both ends of the kinds.
use crate::rows::{printed, shown, translated, values_of};
use printer::Dialect;
use std::alloc::Global;
use std::process::Abort;
use std::test::Fail;
use translation::Target;

// A format, the templates of formatx and of strfmt (or their refusals), and lists of values.
const ROWS: &str = "\
%d ; {0} ; {0} ; u8:0 ; u8:255 ; i64:-9223372036854775808 ; usize:18446744073709551615
%+d ; {0:+} ; {0:+} ; i32:-2147483648 ; i32:2147483647 ; i8:0
%+d ; {0} ; {0} ; u32:4294967295
%2d ; {0:>2} ; {0:>2} ; u8:0 ; i8:-128
%+2d ; {0:+} ; {0:+} ; i8:-128 ; i8:127
%-6d| ; {0:<6}| ; {0:<6}| ; u16:0 ; i16:-32768
%-+6d| ; {0:<+6}| ; !Element { place: 1 } ; i16:-32768 ; i16:7
%06d ; {0:06} ; !Element { place: 1 } ; i16:-32768 ; u16:65535
%+06d ; {0:+06} ; !Element { place: 1 } ; i8:-128 ; i8:5
%+6d ; {0:>+6} ; !Element { place: 1 } ; isize:-9223372036854775808 ; isize:3
% d ; {0} ; {0} ; u8:7
% d ; !Element { place: 1 } ; !Element { place: 1 } ; i32:1
%x ; {0:x?} ; {0:x} ; i8:-1 ; u64:18446744073709551615
%#x ; 0x{0:x?} ; 0x{0:x} ; i8:-1 ; u8:0
%#3X ; 0X{0:X?} ; 0X{0:X} ; u8:171 ; i8:-128
%-6X| ; {0:<6X?}| ; {0:<6X}| ; u8:171
%#-6x| ; 0x{0:<4x?}| ; 0x{0:<4x}| ; u8:171 ; i16:-1
%#010x ; 0x{0:0>8x?} ; !Element { place: 1 } ; u32:0 ; u32:4294967295
%08x ; {0:0>8x?} ; !Element { place: 1 } ; i32:-1 ; u8:1
%6x ; {0:>6x?} ; {0:>6x} ; u8:0 ; i64:-1
%#6x ; !Element { place: 1 } ; !Element { place: 1 } ; u8:0
%o ; !Element { place: 1 } ; {0:o} ; u8:255 ; i16:-1
%#-6o| ; !Element { place: 1 } ; 0{0:<5o}| ; u8:8
%9o ; !Element { place: 1 } ; {0:>9o} ; i8:-128
%p ; 0x{0:x?} ; 0x{0:x} ; usize:18446744073709551615
%s ; {0} ; {0} ; word:ab
%.3s ; {0:.3} ; {0:.3} ; word:ab ; word:abcd
%.s| ; {0:.0}| ; {0:.0}| ; word:ab
%-8s| ; {0:<8}| ; {0:<8}| ; word:ab ; word:abcdefghi
%08.2s ; {0:>8.2} ; {0:>8.2} ; word:abc
%c ; {0} ; {0} ; char:x
%3c ; {0:>3} ; {0:>3} ; char:x
%-3c| ; {0:<3}| ; {0:<3}| ; char:x
{%%}%d{} ; {{%}}{0}{{}} ; {{%}}{0}{{}} ; u8:7
%-8s|%.3s ; {0:<8}|{1:.3} ; {0:<8}|{1:.3} ; word:a word:bcde
%#010x %5d ; 0x{0:0>8x?} {1:>5} ; !Element { place: 1 } ; u32:48879 i32:-7
a%db%s ; !Element { place: 4 } ; !Element { place: 4 } ; u8:1 u8:2
a%d%d ; !Element { place: 3 } ; !Element { place: 3 } ; u8:1
%d%%x ; !Element { place: 4 } ; !Element { place: 4 } ; u8:1 u8:2
%*d ; !Element { place: 1 } ; !Element { place: 1 } ; u8:1
%f ; !Element { place: 1 } ; !Element { place: 1 } ; u8:1
%c ; !Element { place: 1 } ; !Element { place: 1 } ; u8:1
";

// The template, and what it prints beside the printf format.
fn keeps(
    rt: &impl Abort,
    alloc: Global,
    format: &str,
    template: &str,
    target: Target,
    dialect: Dialect,
    column: &str,
) -> Result<(), Fail> {
    let values = values_of(alloc, column)?;
    let made = translated(alloc, format, &values, target)?;
    assert_eq!(rt; made.as_str(), template, "{format} over {column}");
    if template.starts_with('!') {
        return Ok(());
    }
    let wanted = printed(alloc, format, &values)?;
    let text = shown(alloc, dialect, template, &values)?;
    assert_eq!(rt; text.as_str(), wanted.as_str(), "{format} over {column}");
    Ok(())
}

#[test]
fn each_row_of_the_table(rt: HostRuntime) -> Result<(), Fail> {
    let alloc = rt.alloc();
    for row in ROWS.lines() {
        let mut columns = row.split(" ; ");
        let format = columns.next().ok_or("no format")?;
        let formatx = columns.next().ok_or("no template of formatx")?;
        let strfmt = columns.next().ok_or("no template of strfmt")?;
        for values in columns {
            keeps(
                &rt,
                alloc,
                format,
                formatx,
                Target::Formatx,
                Dialect::Formatx,
                values,
            )?;
            keeps(
                &rt,
                alloc,
                format,
                strfmt,
                Target::Strfmt,
                Dialect::Strfmt,
                values,
            )?;
        }
    }
    Ok(())
}
