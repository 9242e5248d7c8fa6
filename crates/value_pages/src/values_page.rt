use formatx::{Names, Template};
use sprintf::vsprintf;
use std::alloc::Global;
use std::collections::HashMap;
use std::test::Fail;
use strfmt::strfmt;
use values::{Kind, Value, Word, parse_kinds};

/// A word and a number, in one list.
fn entry(alloc: Global, name: &str, count: u32) -> Result<Vec<Value>, Fail> {
    let mut values = Vec::new(alloc);
    values.push(Value::Word(Word::new(alloc, name)?))?;
    values.push(Value::U32(count))?;
    Ok(values)
}

/// The same value in a strfmt text.
fn in_braces(alloc: Global, value: Value) -> Result<String, Fail> {
    let mut vars: HashMap<String, Value> = HashMap::new(alloc);
    vars.insert(String::from_str(alloc, "0")?, value)?;
    Ok(strfmt(alloc, "{0:>6}", &vars)?)
}

/// The values in a formatx template.
fn by_position(alloc: Global, values: &[Value]) -> Result<String, formatx::Error> {
    let template = Template::new(alloc, "{1} {0:?}")?;
    let mut out = String::new(alloc);
    template.render_into(alloc, &mut out, values, &Names::new(alloc), true)?;
    Ok(out)
}

pub fn show(rt: &HostRuntime) -> Result<(), Fail> {
    let alloc = rt.alloc();
    let kinds = parse_kinds(alloc, "word u32 i8")?;
    println!(rt; "{kinds:?}")?;
    println!(rt; "{:?}", parse_kinds(alloc, "word f64"))?;
    println!(rt; "{:?} {:?}", Kind::named("usize"), Value::I8(-1).kind())?;
    let values = entry(alloc, "apples", 12)?;
    println!(rt; "{}", vsprintf(alloc, "%-8s|%04x", &values)?)?;
    println!(rt; "{}", in_braces(alloc, Value::I8(-1))?)?;
    println!(rt; "{}", by_position(alloc, &values)?)?;
    Ok(())
}
