//! The examples of the page on `row_plan`, each as it stands there; what they print is stored, and quoted on the page.
#![tactic(auto)]

mod row_plan_page;
mod row_plan_proved;

use std::test::Fail;

/// The line in front of what a module prints.
fn heading(rt: &HostRuntime, module: &str) -> Result<(), Fail> {
    println!(rt; "# {module}")?;
    Ok(())
}

fn main(rt: HostRuntime) -> Result<(), Fail> {
    heading(&rt, "row_plan_page")?;
    row_plan_page::show(&rt)?;
    heading(&rt, "row_plan_proved")?;
    row_plan_proved::show(&rt)
}
