// Worked rows, and answers of the Rust crate: a template, what it prints, and the values, with a tab between any two.
use formatx::{Error, FormatType, FormatValue, Renderer, Span, Template};
use std::alloc::{AllocError, Global};
use std::test::Fail;

// Over numbers, by position, strictly.
const NUMBERS: &str = "\
    {} + {} = {}\t1 + 2 = 3\t1\t2\t3\n\
    {1} {} {0} {}\t2 1 1 2\t1\t2\t3\n\
    {:+05}\t+0042\t42\n\
    {:<05}|\t42   |\t42\n\
    {:8x?}\tff\t255\n\
    {:#x?}\tff\t255\n\
    {:>8x?}\t      ff\t255\n\
    {:00$}\t0000007\t7\n\
    {:0$}\t      7\t7\n\
    {:é<3}\t1éé\t1\n\
    {:é^+07.0?}\té+200éé\t200\n\
    {:#03.2}\t-42\t-42\n\
    {:06}|{0:6}|{0:<+6}|{0:^6}|{0:>6}\t-00042|   -42|-42   | -42  |   -42\t-42\n\
    {:+#3?}\t-42\t-42\n\
    {:-7x?}{0:X?}\tffffffd6FFFFFFD6\t-42\n\
    {:*<010.0X?}\tFFFFFFD6**\t-42\n\
    {:?}{0:x?}{0:X?}\t777\t7\n\
    {{{}}}\t{5}\t5\n\
    {:.1$}{2}\t13\t1\t2\t3\n\
    {:x}\tunsupported 0..4 LowerHex\t1\n\
    {:x}\tmissing 0..4 0\n\
    {3}\tmissing 0..3 3\t1\n\
    {:?}{:x?}\tmissing 4..9 1\t7\n\
    {name:w$}\tmissing 0..9 name\t1\n\
    {:18446744073709551615}\tno memory\t1\n\
    {:.*}\tparse 0..0 not enough arguments for `.*` precision\n\
    {0:w$x}\tparse 3..4 missing count argument: `w`\t1\n\
    {0:9$}\tparse 0..0 count argument index 9 out of range\t1\n";

// The same, leniently.
const LENIENT: &str = "\
    a{:x}b\tab\n\
    {:.*}\tparse 0..0 not enough arguments for `.*` precision\n\
    {}{name}{}|\t5|\t5\n\
    {:x}\tunsupported 0..4 LowerHex\t1\n";

// Over texts, by position, strictly.
const TEXTS: &str = "\
    {:?}\t\"a\\\"é\"\ta\"é\n\
    {:-7}|{0:>7}|{0:.2}|{0:.0}|\tné\"!   |   né\"!|né||\tné\"!\n\
    {:.*}\tab\t2\tabc\n\
    {:1$}\tparse 0..0 count argument `abc` is not a valid usize\tx\tabc\n\
    {:#010.2?}|{0:*^10?}\t\"né\\\"!\"|*\"né\\\"!\"**\tné\"!\n\
    {:1$.2$}|\tab   |\tabc\t+5\t002\n\
    {0:>3.1}\t  é\té\n";

// Over the texts 5, 2 and abcdef, which have the names w, p and t.
const NAMED: &str = "\
    {t:w$.p$}|\tab   |\n\
    {t:0$.1$}|\tab   |\n\
    {2:>w$.p$}|\t   ab|\n\
    {:.*}{}{:.*}\tparse 0..0 not enough arguments for `.*` precision\n\
    {:.*}{:.*}\tparse 0..0 `.*` precision argument `abcdef` is not a valid usize\n\
    {t:.q$}\tparse 4..5 missing count argument: `q`\n\
    {t:q$}\tparse 3..4 missing count argument: `q`\n\
    {t:0x$}\tparse 4..5 missing count argument: `x`\n\
    {t:.9$}\tparse 0..0 count argument index 9 out of range\n\
    {t:.t$}\tparse 0..0 count argument `abcdef` is not a valid usize\n\
    {q:.q$}\tparse 4..5 missing count argument: `q`\n\
    {q:q$}\tmissing 0..6 q\n\
    {t:q$x}\tparse 3..4 missing count argument: `q`\n\
    {t:w$X}\tunsupported 0..7 UpperHex\n";

// Texts outside the grammar, and the fault of each.
const FAULTS: &str = "\
    }\tparse 0..1 unmatched `}`\n\
    }}}\tparse 2..3 unmatched `}`\n\
    {:5\tparse 0..3 unmatched `{`\n\
    {:??}\tparse 0..3 unmatched `{`\n\
    {\tparse 1..1 unexpected end of format string\n\
    {0\tparse 1..2 invalid placeholder argument\n\
    {-1}\tparse 1..2 invalid placeholder argument\n\
    {:0width$}\tparse 3..4 unknown format type: `w`\n\
    {:é}\tparse 2..3 unknown format type: `Ã`\n\
    {:.\tparse 2..3 expected precision after `.`\n\
    {:.}\tparse 2..3 expected precision value after `.`\n\
    {{é{99999999999999999999}\tparse 5..25 invalid positional argument: `99999999999999999999`\n\
    {:18446744073709551616}\tparse 2..22 invalid count: `18446744073709551616`\n\
    {:18446744073709551616$}\tparse 2..22 invalid count parameter: `18446744073709551616`\n";

// How the refusals show themselves, over the value 7.
const SHOWN: &str = "\
    a}\tparse error at byte 1: unmatched `}`\n\
    é{0\tparse error at byte 3: invalid placeholder argument\n\
    {}{}\tmissing argument: `1`\n\
    {name}\tmissing argument: `name`\n\
    {:o}\tunsupported format trait: `Octal`\n\
    {:x}\tunsupported format trait: `LowerHex`\n\
    {:X}\tunsupported format trait: `UpperHex`\n\
    {:b}\tunsupported format trait: `Binary`\n\
    {:e}\tunsupported format trait: `LowerExp`\n\
    {:E}\tunsupported format trait: `UpperExp`\n\
    {:p}\tunsupported format trait: `Pointer`\n\
    {:18446744073709551615}\tno memory\n";

// An answer as one text: what is printed, or the error with its span.
fn told(alloc: Global, answer: Result<String, Error>) -> Result<String, AllocError> {
    match answer {
        Ok(text) => Ok(text),
        Err(Error::Parse { span, message }) => spanned(alloc, "parse", span, message.as_str()),
        Err(Error::MissingArgument { name, span }) => spanned(
            alloc,
            "missing",
            span,
            name.as_str(),
        ),
        Err(Error::UnsupportedTrait { format_type, span }) => unsupported(alloc, format_type, span),
        Err(Error::NoMemory) => String::from_str(alloc, "no memory"),
    }
}

fn unsupported(alloc: Global, format_type: FormatType, span: Span) -> Result<String, AllocError> {
    let name: String = format!(in alloc; "{format_type:?}")?;
    spanned(alloc, "unsupported", span, name.as_str())
}

fn spanned(alloc: Global, what: &str, span: Span, detail: &str) -> Result<String, AllocError> {
    let Span { start, end } = span;
    format!(in alloc; "{what} {start}..{end} {detail}")
}

// An answer as one text: what is printed, or what the error prints.
fn shown(alloc: Global, answer: Result<String, Error>) -> Result<String, AllocError> {
    match answer {
        Ok(text) => Ok(text),
        Err(error) => format!(in alloc; "{error}"),
    }
}

fn finished<V: FormatValue>(renderer: &Renderer<'_, V>, strict: bool) -> Result<String, Error> {
    if strict {
        renderer.finish()
    } else {
        renderer.finish_lenient()
    }
}

// A row's template, the answer that it wants, and its values.
fn row_parts(row: &str) -> Option<(&str, &str, Option<&str>)> {
    let (source, rest) = row.split_once('\t')?;
    match rest.split_once('\t') {
        Some((want, values)) => Some((source, want, Some(values))),
        None => Some((source, rest, None)),
    }
}

// What a template prints over numbers.
fn printed_numbers(
    alloc: Global,
    source: &str,
    values: Option<&str>,
    strict: bool,
) -> Result<String, Fail> {
    let template = match Template::new(alloc, source) {
        Ok(template) => template,
        Err(error) => return Ok(told(alloc, Err(error))?),
    };
    let mut renderer = template.render::<i32>(alloc);
    if let Some(values) = values {
        for value in values.split('\t') {
            let _ = renderer.arg(value.parse::<i32>()?)?;
        }
    }
    Ok(told(alloc, finished(&renderer, strict))?)
}

// What a template prints over texts.
fn printed_texts(alloc: Global, source: &str, values: &str) -> Result<String, Fail> {
    let template = Template::new(alloc, source)?;
    let mut renderer = template.render::<&str>(alloc);
    for value in values.split('\t') {
        let _ = renderer.arg(value)?;
    }
    Ok(told(alloc, renderer.finish())?)
}

fn printed_named(alloc: Global, source: &str) -> Result<String, Fail> {
    let template = Template::new(alloc, source)?;
    let mut renderer = template.render::<&str>(alloc);
    let _ = renderer.named("w", "5")?.named("p", "2")?;
    let _ = renderer.named("t", "abcdef")?;
    Ok(told(alloc, renderer.finish())?)
}

fn shown_over_seven(alloc: Global, source: &str) -> Result<String, Fail> {
    let template = match Template::new(alloc, source) {
        Ok(template) => template,
        Err(error) => return Ok(shown(alloc, Err(error))?),
    };
    let mut renderer = template.render::<u8>(alloc);
    let _ = renderer.arg(7)?;
    Ok(shown(alloc, renderer.finish())?)
}

#[test]
fn numbers(rt: HostRuntime) -> Result<(), Fail> {
    for row in NUMBERS.lines() {
        let (source, want, values) = row_parts(row).ok_or("no row")?;
        let text = printed_numbers(rt.alloc(), source, values, true)?;
        assert_eq!(rt; text.as_str(), want, "{source}");
    }
    Ok(())
}

#[test]
fn numbers_leniently(rt: HostRuntime) -> Result<(), Fail> {
    for row in LENIENT.lines() {
        let (source, want, values) = row_parts(row).ok_or("no row")?;
        let text = printed_numbers(rt.alloc(), source, values, false)?;
        assert_eq!(rt; text.as_str(), want, "{source}");
    }
    Ok(())
}

#[test]
fn faults(rt: HostRuntime) -> Result<(), Fail> {
    for row in FAULTS.lines() {
        let (source, want, values) = row_parts(row).ok_or("no row")?;
        let text = printed_numbers(rt.alloc(), source, values, true)?;
        assert_eq!(rt; text.as_str(), want, "{source}");
    }
    Ok(())
}

#[test]
fn texts(rt: HostRuntime) -> Result<(), Fail> {
    for row in TEXTS.lines() {
        let (source, want, values) = row_parts(row).ok_or("no row")?;
        let text = printed_texts(rt.alloc(), source, values.ok_or("no values")?)?;
        assert_eq!(rt; text.as_str(), want, "{source}");
    }
    Ok(())
}

#[test]
fn counts_by_name(rt: HostRuntime) -> Result<(), Fail> {
    for row in NAMED.lines() {
        let (source, want) = row.split_once('\t').ok_or("no row")?;
        let text = printed_named(rt.alloc(), source)?;
        assert_eq!(rt; text.as_str(), want, "{source}");
    }
    Ok(())
}

#[test]
fn errors_shown(rt: HostRuntime) -> Result<(), Fail> {
    for row in SHOWN.lines() {
        let (source, want) = row.split_once('\t').ok_or("no row")?;
        let text = shown_over_seven(rt.alloc(), source)?;
        assert_eq!(rt; text.as_str(), want, "{source}");
    }
    Ok(())
}
