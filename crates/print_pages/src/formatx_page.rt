use formatx::{Error, FormatValue, Names, Template};
use std::alloc::Global;
use std::test::Fail;

/// Values by name. `finish` refuses a placeholder whose value is missing.
fn greeting(alloc: Global, who: &str) -> Result<String, Error> {
    let template = Template::new(alloc, "{greeting:>8} {name}!")?;
    let mut renderer = template.render::<&str>(alloc);
    renderer.named("greeting", "Hello")?.named("name", who)?;
    renderer.finish()
}

/// Many rows by one template, each appended to the same text.
fn report(alloc: Global, rows: &[[u32; 2]]) -> Result<String, Error> {
    let template = Template::new(alloc, "{0:>5} {1:#x?}|")?;
    let names = Names::new(alloc);
    let mut out = String::new(alloc);
    for row in rows {
        template.render_into(alloc, &mut out, row, &names, true)?;
    }
    Ok(out)
}

/// Values of several types in one list: boxed, each as what it holds.
fn mixed(alloc: Global) -> Result<String, Fail> {
    let template = Template::new(alloc, "{:?} = {:+}")?;
    let mut values: Vec<Box<dyn FormatValue>> = Vec::new(alloc);
    values.push(Box::new(alloc, 'x')?)?;
    values.push(Box::new(alloc, 255u8)?)?;
    let mut out = String::new(alloc);
    template.render_into(alloc, &mut out, &values, &Names::new(alloc), true)?;
    Ok(out)
}

pub fn show(rt: &HostRuntime) -> Result<(), Fail> {
    let alloc = rt.alloc();
    println!(rt; "{}", greeting(alloc, "you")?)?;
    println!(rt; "{}", report(alloc, &[[7, 7], [400, 255]])?)?;
    println!(rt; "{}", mixed(alloc)?)?;
    if let Err(fault) = Template::new(alloc, "a {0") {
        println!(rt; "{fault}")?;
    }
    Ok(())
}
