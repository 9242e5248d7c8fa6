//! The examples of the pages on values and their templates, each as it stands there; what they print is stored, and quoted on the
//! pages.
#![tactic(auto)]

mod printer_page;
mod printer_proved;
mod translation_page;
mod translation_proved;
mod values_page;
mod values_proved;

use std::test::Fail;

/// The line in front of what a module prints.
fn heading(rt: &HostRuntime, module: &str) -> Result<(), Fail> {
    println!(rt; "# {module}")?;
    Ok(())
}

fn show_values(rt: &HostRuntime) -> Result<(), Fail> {
    heading(rt, "values_page")?;
    values_page::show(rt)?;
    heading(rt, "values_proved")?;
    values_proved::show(rt)
}

fn show_printer(rt: &HostRuntime) -> Result<(), Fail> {
    heading(rt, "printer_page")?;
    printer_page::show(rt)?;
    heading(rt, "printer_proved")?;
    printer_proved::show(rt)
}

fn show_translation(rt: &HostRuntime) -> Result<(), Fail> {
    heading(rt, "translation_page")?;
    translation_page::show(rt)?;
    heading(rt, "translation_proved")?;
    translation_proved::show(rt)
}

fn main(rt: HostRuntime) -> Result<(), Fail> {
    show_values(&rt)?;
    show_printer(&rt)?;
    show_translation(&rt)
}
