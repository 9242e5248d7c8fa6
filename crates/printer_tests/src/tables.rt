// A line of a table is a template, the names, the values, and what is printed: `=` and the text, or `!` and the refusal.
use crate::rows::printed;
use printer::Dialect;
use std::alloc::Global;
use std::process::Abort;
use std::test::Fail;

const PRINTF: &str = "\
%d %u\t\ti32:-1 u32:16\t=-1 16\n\
%d %d\t\tu8:255 u8:255\t=255 255\n\
%d %d\t\ti64:-9223372036854775808 u64:18446744073709551615\t=-9223372036854775808 18446744073709551615\n\
%s=%d\t\tword:x{y i64:7\t=x{y=7\n\
%5d|%x|%+d\t\tusize:7 isize:-1 i16:3\t=    7|ffffffffffffffff|+3\n\
%*.*s|\t\tu8:4 u8:1 word:né\t=   n|\n\
%4c|\t\tchar:é\t=  é|\n\
%c\t\tu32:233\t=é\n\
%%\t\t\t=%\n\
\t\t\t=\n\
%d\tid\tu8:7\t=7\n\
%d\t\tu8:1 u8:2\t!Fault(TooManyArgs)\n\
\t\tu8:1\t!Fault(TooManyArgs)\n\
%d %d %d\t\tu8:1 u8:2\t!Fault(NotEnoughArgs)\n\
%5d|%s\t\tu64:7\t!Fault(NotEnoughArgs)\n\
%*d\t\tu8:7\t!Fault(NotEnoughArgs)\n\
%s %d\t\tu8:1 u8:2\t!Fault(WrongType)\n\
%*d\t\tu64:18446744073709551615 u8:1\t!Fault(WrongType)\n\
%*d\t\tword:a\t!Fault(WrongType)\n\
%c\t\tu8:200\t!Fault(WrongType)\n\
%e\t\ti8:1\t!Fault(WrongType)\n\
%s%d\t\tu8:1\t!Fault(WrongType)\n\
%\t\t\t!Template(Printf)\n\
%y\t\tu8:1\t!Template(Printf)\n\
%2147483648d\t\tu8:1\t!Template(Printf)\n\
";

const STRFMT: &str = "\
{1} {0}\t\ti32:1 i32:-2\t=-2 1\n\
{2} {3} {0}\t\tword:web01 u32:412 word:GET u64:5120\t=GET 5120 web01\n\
{0:é>3}{{{1:^5}}}\t\tu8:7 word:né\t=éé7{ né  }\n\
{0:#x}\t\ti8:-1\t=0xff\n\
\t\tu8:1\t=\n\
{name}={id} {0}\tid name\tu8:7 word:ab\t=ab=7 7\n\
{1}{id}\tid\tu8:7 u8:8\t=87\n\
{größe} {日}\tgröße 日\tu8:7 char:本\t=7 本\n\
{1}\t1 b\tu8:7 u8:8\t=7\n\
{1}\ta 1\tu8:7 u8:8\t=8\n\
{0}\ta 0\tu8:7 u8:8\t=7\n\
{a}\ta a\tu8:7 u8:8\t=7\n\
{10}\t\tu8:0 u8:1 u8:2 u8:3 u8:4 u8:5 u8:6 u8:7 u8:8 u8:9 u8:10\t=10\n\
{1}\t\tu8:9\t!Fault(KeyError)\n\
{2}\t\tu8:7 u8:8\t!Fault(KeyError)\n\
{01}\t\tu8:7 u8:8\t!Fault(KeyError)\n\
{00}\t\tu8:7\t!Fault(KeyError)\n\
{-0}\t\tu8:7\t!Fault(KeyError)\n\
{+1}\t\tu8:7 u8:8\t!Fault(KeyError)\n\
{ 0}\t\tu8:7\t!Fault(KeyError)\n\
{18446744073709551616}\t\tu8:7\t!Fault(KeyError)\n\
{340282366920938463463374607431768211456}\t\tu8:7\t!Fault(KeyError)\n\
{id}\t\tu8:7\t!Fault(KeyError)\n\
{b}\ta b\tu8:7\t!Fault(KeyError)\n\
{Id}\tid\tu8:7\t!Fault(KeyError)\n\
{0:x} }\t\tu8:1\t!Fault(Invalid)\n\
{}\t\tu8:1\t!Fault(Invalid)\n\
{0\t\tu8:1\t!Fault(Invalid)\n\
{0:05}\t\tu8:1\t!Fault(Invalid)\n\
{0:.2}\t\tu8:9\t!Fault(TypeError)\n\
{0:x}\t\tword:a\t!Fault(TypeError)\n\
{0:y}{9}\t\tu8:1\t!Fault(TypeError)\n\
{9}{0:y}\t\tu8:1\t!Fault(KeyError)\n\
";

const FORMATX: &str = "\
{1} {0}\t\ti32:1 i32:-2\t=-2 1\n\
{}-{}\t\tu8:1 word:é\t=1-é\n\
{0:?} {1:?} {2:x?}\t\tchar:é word:a u8:255\t='é' \"a\" ff\n\
{0:é>3}|{1:^5}|\t\tu8:7 word:né\t=éé7| né  |\n\
{0:.1$}\t\tword:née u8:2\t=né\n\
{{}}\t\t\t={}\n\
{name:>id$}\tid name\tu8:7 word:ab\t=     ab\n\
{name}={id} {0}\tid name\tu8:7 word:ab\t=ab=7 7\n\
{1}\r{0}\t\tu8:1 u8:2\t=2\r1\n\
{a}\ta a\tu8:7 u8:8\t=7\n\
{1}\t\tu8:9\t!Fault(MissingArgument)\n\
{}{}\t\tu8:9\t!Fault(MissingArgument)\n\
{id}\t\tu8:7\t!Fault(MissingArgument)\n\
{b}\ta b\tu8:7\t!Fault(MissingArgument)\n\
{0:x}\t\tu8:9\t!Fault(UnsupportedTrait)\n\
{0:e}{1}\t\tu8:9\t!Fault(UnsupportedTrait)\n\
{0:1$}\t\tu8:9\t!Fault(Parse)\n\
{0:w$}\t\tu8:9\t!Fault(Parse)\n\
{0:1$}\t\tu8:9 word:a\t!Fault(Parse)\n\
{\t\tu8:9\t!Template(Formatx)\n\
{größe}\tgröße\tu8:7\t!Template(Formatx)\n\
}\t\tu8:9\t!Template(Formatx)\n\
{0:é}\t\tu8:9\t!Template(Formatx)\n\
";

// Each line of the table prints what it says.
fn check(rt: &impl Abort, alloc: Global, dialect: Dialect, table: &str) -> Result<(), Fail> {
    for row in table.lines() {
        let mut columns = row.split('\t');
        let template = columns.next().ok_or("no template")?;
        let names = columns.next().ok_or("no names")?;
        let values = columns.next().ok_or("no values")?;
        let want = columns.next().ok_or("no answer")?;
        let shown = printed(alloc, dialect, template, names, values)?;
        assert_eq!(rt; shown.as_str(), want, "{row}");
    }
    Ok(())
}

#[test]
fn printf_templates(rt: HostRuntime) -> Result<(), Fail> {
    check(&rt, rt.alloc(), Dialect::Printf, PRINTF)
}

#[test]
fn strfmt_templates(rt: HostRuntime) -> Result<(), Fail> {
    check(&rt, rt.alloc(), Dialect::Strfmt, STRFMT)
}

#[test]
fn formatx_templates(rt: HostRuntime) -> Result<(), Fail> {
    check(&rt, rt.alloc(), Dialect::Formatx, FORMATX)
}
