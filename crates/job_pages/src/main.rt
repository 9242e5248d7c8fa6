//! The examples of the pages on jobs, each as it stands there; what they print is stored, and quoted on the pages.
#![tactic(auto)]

mod line_job_page;
mod reformat_page;
mod reformat_proved;

use std::test::Fail;

/// The line in front of what a module prints.
fn heading(rt: &HostRuntime, module: &str) -> Result<(), Fail> {
    println!(rt; "# {module}")?;
    Ok(())
}

fn main(rt: HostRuntime) -> Result<(), Fail> {
    heading(&rt, "line_job_page")?;
    line_job_page::show(&rt)?;
    heading(&rt, "reformat_page")?;
    reformat_page::show(&rt)?;
    heading(&rt, "reformat_proved")?;
    reformat_proved::show(&rt)?;
    Ok(())
}
