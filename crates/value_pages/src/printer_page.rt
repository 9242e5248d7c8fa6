use printer::{Dialect, Printer};
use std::alloc::Global;
use std::test::Fail;
use values::{Value, Word};

/// A word and a number, in one list.
fn entry(alloc: Global, name: &str, count: u32) -> Result<Vec<Value>, Fail> {
    let mut values = Vec::new(alloc);
    values.push(Value::Word(Word::new(alloc, name)?))?;
    values.push(Value::U32(count))?;
    Ok(values)
}

/// What a template prints, whose dialect comes as a word.
fn printed(alloc: Global, dialect: &str, template: &str, values: &[Value]) -> Result<String, Fail> {
    let dialect = Dialect::named(dialect).ok_or("no such dialect")?;
    let printer = Printer::new(alloc, dialect, template)?;
    Ok(printer.text(alloc, values)?)
}

/// Many lists by one template, with names for the values.
fn listing(alloc: Global, entries: &[Vec<Value>]) -> Result<String, Fail> {
    let names = [Word::new(alloc, "item")?, Word::new(alloc, "count")?];
    let printer = Printer::new_named(alloc, Dialect::Strfmt, "{count:>4} {item};", &names)?;
    let mut out = String::new(alloc);
    for values in entries {
        printer.text_into(alloc, values, &mut out)?;
    }
    Ok(out)
}

pub fn show(rt: &HostRuntime) -> Result<(), Fail> {
    let alloc = rt.alloc();
    let apples = entry(alloc, "apples", 12)?;
    println!(rt; "{}", printed(alloc, "printf", "%s: %03u", &apples)?)?;
    println!(rt; "{}", printed(alloc, "formatx", "{1} of {0:?}", &apples)?)?;
    println!(rt; "{}", listing(alloc, &[apples, entry(alloc, "plums", 3)?])?)?;
    println!(rt; "{:?}", Printer::new(alloc, Dialect::Printf, "%").err())?;
    println!(rt;
        "{:?}",
        Printer::new(alloc, Dialect::Printf, "%d")?.text(alloc, &[])
    )?;
    Ok(())
}
