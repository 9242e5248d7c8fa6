use sprintf::parser::parse_format_string;
use sprintf::{Arg, Printf, PrintfError, sprintf, vsprintf, vsprintfp_into};
use std::alloc::Global;
use std::test::Fail;

/// One row by the macro, which makes an `Arg` of each argument; a `String` goes in as `&String`.
fn row(alloc: Global, name: &String, count: u32) -> Result<String, PrintfError> {
    sprintf!(alloc, "%-10s|%5u|", name, count)
}

/// Many values by one format: it is read once, and each text is appended.
fn hexadecimal(alloc: Global, numbers: &[u64]) -> Result<String, PrintfError> {
    let elements = parse_format_string(alloc, "%#06x ")?;
    let mut text = String::new(alloc);
    for number in numbers {
        vsprintfp_into(alloc, &mut text, &elements, &[*number])?;
    }
    Ok(text)
}

/// Values of several types in one list: boxed, each as what it holds.
fn mixed(alloc: Global) -> Result<String, Fail> {
    let mut values: Vec<Box<dyn Printf>> = Vec::new(alloc);
    values.push(Box::new(alloc, 'x')?)?;
    values.push(Box::new(alloc, -1i8)?)?;
    Ok(vsprintf(alloc, "%c = %x", &values)?)
}

pub fn show(rt: &HostRuntime) -> Result<(), Fail> {
    let alloc = rt.alloc();
    let name = String::from_str(alloc, "apples")?;
    println!(rt; "{}", row(alloc, &name, 12)?)?;
    println!(rt; "{}", hexadecimal(alloc, &[7, 255, 65536])?)?;
    println!(rt; "{}", mixed(alloc)?)?;
    if let Err(fault) = vsprintf(alloc, "%d items", &[Arg::from("seven")]) {
        println!(rt; "{fault}")?;
    }
    Ok(())
}
