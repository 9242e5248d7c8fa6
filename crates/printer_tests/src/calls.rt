// Each public call once, templates of many fields, and what a refused call leaves.
use crate::rows::{values_of, words_of};
use printer::{Dialect, Printer, PrinterError, RenderFault, TemplateFault, TextError};
use std::alloc::Global;
use std::process::Abort;
use std::test::Fail;
use values::Value;

#[test]
fn words_name_dialects(rt: HostRuntime) -> Result<(), Fail> {
    assert_eq!(rt; Dialect::named("printf"), Some(Dialect::Printf));
    assert_eq!(rt; Dialect::named("strfmt"), Some(Dialect::Strfmt));
    assert_eq!(rt; Dialect::named("formatx"), Some(Dialect::Formatx));
    assert_eq!(rt; Dialect::named("Printf"), None);
    assert_eq!(rt; Dialect::named(""), None);
    Ok(())
}

fn no_printer(why: PrinterError) -> Fail {
    match why {
        PrinterError::Template(TemplateFault::Printf) => "no printf template".into(),
        PrinterError::Template(TemplateFault::Formatx) => "no formatx template".into(),
        PrinterError::NoMemory => "no memory".into(),
    }
}

// One printer prints each list by itself, at the end of the text.
fn prints_many(
    rt: &impl Abort,
    alloc: Global,
    dialect: Dialect,
    template: &str,
    columns: &[&str],
    want: &str,
) -> Result<(), Fail> {
    let printer = Printer::new(alloc, dialect, template).map_err(no_printer)?;
    let mut out = String::from_str(alloc, "a:")?;
    for column in columns {
        let values = values_of(alloc, column)?;
        assert_eq!(rt;
            printer.text_into(alloc, &values, &mut out),
            Ok(()),
            "{template}"
        );
    }
    assert_eq!(rt; out.as_str(), want, "{template}");
    Ok(())
}

#[test]
fn a_printer_prints_many_lists(rt: HostRuntime) -> Result<(), Fail> {
    let alloc = rt.alloc();
    let columns = ["u8:1 word:x", "char:é i64:-5", "word:b char:c"];
    let want = "a:1x.é-5.bc.";
    prints_many(&rt, alloc, Dialect::Strfmt, "{0}{1}.", &columns, want)?;
    prints_many(&rt, alloc, Dialect::Formatx, "{}{}.", &columns, want)
}

#[test]
fn a_printf_printer_prints_many_lists(rt: HostRuntime) -> Result<(), Fail> {
    let columns = ["word:a u8:1", "word:é i64:-5"];
    let want = "a:a=1;é=-5;";
    prints_many(&rt, rt.alloc(), Dialect::Printf, "%s=%d;", &columns, want)
}

// The template refuses the values after a text, and the output is as it was.
fn leaves_the_text(
    rt: &impl Abort,
    alloc: Global,
    dialect: Dialect,
    template: &str,
    fault: RenderFault,
) -> Result<(), Fail> {
    let names = words_of(alloc, "id")?;
    let printer = Printer::new_named(alloc, dialect, template, &names).map_err(no_printer)?;
    let values = values_of(alloc, "u8:7 word:ab")?;
    let mut out = String::from_str(alloc, "é ")?;
    assert_eq!(rt;
        printer.text_into(alloc, &values, &mut out),
        Err(TextError::Fault(fault)),
        "{template}"
    );
    assert_eq!(rt; out.as_str(), "é ", "{template}");
    Ok(())
}

#[test]
fn a_refusal_leaves_the_text(rt: HostRuntime) -> Result<(), Fail> {
    let alloc = rt.alloc();
    leaves_the_text(&rt, alloc, Dialect::Printf, "x%d", RenderFault::TooManyArgs)?;
    leaves_the_text(
        &rt,
        alloc,
        Dialect::Printf,
        "x%d%s%s",
        RenderFault::NotEnoughArgs,
    )?;
    leaves_the_text(&rt, alloc, Dialect::Printf, "x%d%d", RenderFault::WrongType)?;
    leaves_the_text(&rt, alloc, Dialect::Strfmt, "x{id}}", RenderFault::Invalid)?;
    leaves_the_text(
        &rt,
        alloc,
        Dialect::Strfmt,
        "x{id}{2}",
        RenderFault::KeyError,
    )?;
    leaves_the_text(
        &rt,
        alloc,
        Dialect::Strfmt,
        "x{id}{1:x}",
        RenderFault::TypeError,
    )?;
    leaves_the_text(
        &rt,
        alloc,
        Dialect::Formatx,
        "x{id}{0:1$}",
        RenderFault::Parse,
    )?;
    leaves_the_text(
        &rt,
        alloc,
        Dialect::Formatx,
        "x{id}{2}",
        RenderFault::MissingArgument,
    )?;
    leaves_the_text(
        &rt,
        alloc,
        Dialect::Formatx,
        "x{id}{0:b}",
        RenderFault::UnsupportedTrait,
    )
}

/// How many fields the long templates have.
const MANY: u16 = 1000;

// The numbers from 0 on, and their digits end to end.
fn numbers(alloc: Global) -> Result<(Vec<Value>, String), Fail> {
    let mut values = Vec::new(alloc);
    let mut digits = String::new(alloc);
    for number in 0..MANY {
        values.push(Value::U16(number))?;
        write!(digits, "{number}")?;
    }
    Ok((values, digits))
}

fn prints_numbers(
    rt: &impl Abort,
    alloc: Global,
    dialect: Dialect,
    template: &str,
) -> Result<(), Fail> {
    let (values, digits) = numbers(alloc)?;
    let printer = Printer::new(alloc, dialect, template).map_err(no_printer)?;
    match printer.text(alloc, &values) {
        Ok(text) => assert_eq!(rt; text.as_str(), digits.as_str()),
        Err(_) => return Err("no text".into()),
    }
    Ok(())
}

#[test]
fn a_thousand_fields(rt: HostRuntime) -> Result<(), Fail> {
    let alloc = rt.alloc();
    let mut fields = String::new(alloc);
    let mut keys = String::new(alloc);
    for number in 0..MANY {
        fields.push_str("%d")?;
        write!(keys, "{{{number}}}")?;
    }
    prints_numbers(&rt, alloc, Dialect::Printf, &fields)?;
    prints_numbers(&rt, alloc, Dialect::Strfmt, &keys)?;
    prints_numbers(&rt, alloc, Dialect::Formatx, &keys)
}
