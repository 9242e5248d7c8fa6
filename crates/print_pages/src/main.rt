//! The examples of the pages on numerals, `sprintf` and `formatx`, each as it stands there; what they print is stored, and quoted on the pages.
#![tactic(auto)]

mod formatx_own;
mod formatx_page;
mod formatx_proved;
mod numerals_page;
mod numerals_proved;
mod sprintf_own;
mod sprintf_page;
mod sprintf_proved;

use std::test::Fail;

/// The line in front of what a module prints.
fn heading(rt: &HostRuntime, module: &str) -> Result<(), Fail> {
    println!(rt; "# {module}")?;
    Ok(())
}

fn show_numerals(rt: &HostRuntime) -> Result<(), Fail> {
    heading(rt, "numerals_page")?;
    numerals_page::show(rt)?;
    heading(rt, "numerals_proved")?;
    numerals_proved::show(rt)
}

fn show_sprintf(rt: &HostRuntime) -> Result<(), Fail> {
    heading(rt, "sprintf_page")?;
    sprintf_page::show(rt)?;
    heading(rt, "sprintf_own")?;
    sprintf_own::show(rt)?;
    heading(rt, "sprintf_proved")?;
    sprintf_proved::show(rt)
}

fn show_formatx(rt: &HostRuntime) -> Result<(), Fail> {
    heading(rt, "formatx_page")?;
    formatx_page::show(rt)?;
    heading(rt, "formatx_own")?;
    formatx_own::show(rt)?;
    heading(rt, "formatx_proved")?;
    formatx_proved::show(rt)
}

fn main(rt: HostRuntime) -> Result<(), Fail> {
    show_numerals(&rt)?;
    show_sprintf(&rt)?;
    show_formatx(&rt)
}
