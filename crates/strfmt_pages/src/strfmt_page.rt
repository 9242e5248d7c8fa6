use std::alloc::Global;
use std::collections::HashMap;
use std::test::Fail;
use strfmt::{DisplayStr, FmtError, Formatter, Template, strfmt, strfmt_map};

/// A text filled from a map.
fn greet(alloc: Global, name: &str) -> Result<String, Fail> {
    let mut vars: HashMap<String, &str> = HashMap::new(alloc);
    vars.insert(String::from_str(alloc, "name")?, name)?;
    Ok(strfmt(alloc, "hi, {name:>8}!", &vars)?)
}

/// The closure gets each pattern, from left to right; here it leaves each as it stands.
fn echo(alloc: Global, text: &str) -> Result<String, FmtError> {
    strfmt_map(alloc, text, |f: &mut Formatter<'_>| f.skip())
}

/// A text that is cut once, and filled for each number.
fn column(alloc: Global, numbers: &[u32]) -> Result<String, FmtError> {
    let template = Template::new(alloc, "[{n:>4}]")?;
    let mut out = String::new(alloc);
    for number in numbers {
        template.fill(
            alloc,
            &mut out,
            &mut |f: &mut Formatter<'_>| number.display_str(f),
        )?;
    }
    Ok(out)
}

/// Values of several types in one map: boxed, each as what it holds.
fn mixed(alloc: Global) -> Result<String, Fail> {
    let mut vars: HashMap<String, Box<dyn DisplayStr>> = HashMap::new(alloc);
    vars.insert(String::from_str(alloc, "key")?, Box::new(alloc, 'x')?)?;
    vars.insert(String::from_str(alloc, "value")?, Box::new(alloc, 255u8)?)?;
    Ok(strfmt(alloc, "{key} = {value:#x}", &vars)?)
}

pub fn show(rt: &HostRuntime) -> Result<(), Fail> {
    let alloc = rt.alloc();
    println!(rt; "{}", greet(alloc, "bob")?)?;
    println!(rt; "{}", echo(alloc, "{a:<5} and {b}")?)?;
    println!(rt; "{}", column(alloc, &[7, 255, 65536])?)?;
    println!(rt; "{}", mixed(alloc)?)?;
    if let Err(fault) = echo(alloc, "{a") {
        println!(rt; "{fault}")?;
    }
    Ok(())
}
