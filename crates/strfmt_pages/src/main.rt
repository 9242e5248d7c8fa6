//! The examples of the page on `strfmt`, each as it stands there; what they print is stored, and quoted on the page.
#![tactic(auto)]

mod strfmt_own;
mod strfmt_page;
mod strfmt_proved;

use std::test::Fail;

/// The line in front of what a module prints.
fn heading(rt: &HostRuntime, module: &str) -> Result<(), Fail> {
    println!(rt; "# {module}")?;
    Ok(())
}

fn main(rt: HostRuntime) -> Result<(), Fail> {
    heading(&rt, "strfmt_page")?;
    strfmt_page::show(&rt)?;
    heading(&rt, "strfmt_own")?;
    strfmt_own::show(&rt)?;
    heading(&rt, "strfmt_proved")?;
    strfmt_proved::show(&rt)
}
