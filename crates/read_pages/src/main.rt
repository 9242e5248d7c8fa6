//! The examples of the pages on ends, words and scans, each as it stands there; what they print is stored, and quoted on the pages.
#![tactic(auto)]

mod edge_io_own;
mod edge_io_page;
mod edge_io_proved;
mod scan_fmt_own;
mod scan_fmt_page;
mod scan_fmt_proved;
mod whiteread_own;
mod whiteread_page;
mod whiteread_proved;

use std::test::Fail;

/// The line in front of what a module prints.
fn heading(rt: &HostRuntime, module: &str) -> Result<(), Fail> {
    println!(rt; "# {module}")?;
    Ok(())
}

fn show_edge_io(rt: &HostRuntime) -> Result<(), Fail> {
    heading(rt, "edge_io_page")?;
    edge_io_page::show(rt)?;
    heading(rt, "edge_io_own")?;
    edge_io_own::show(rt)?;
    heading(rt, "edge_io_proved")?;
    edge_io_proved::show(rt)
}

fn show_whiteread(rt: &HostRuntime) -> Result<(), Fail> {
    heading(rt, "whiteread_page")?;
    whiteread_page::show(rt)?;
    heading(rt, "whiteread_own")?;
    whiteread_own::show(rt)?;
    heading(rt, "whiteread_proved")?;
    whiteread_proved::show(rt)
}

fn show_scan_fmt(rt: &HostRuntime) -> Result<(), Fail> {
    heading(rt, "scan_fmt_page")?;
    scan_fmt_page::show(rt)?;
    heading(rt, "scan_fmt_own")?;
    scan_fmt_own::show(rt)?;
    heading(rt, "scan_fmt_proved")?;
    scan_fmt_proved::show(rt)
}

fn main(rt: HostRuntime) -> Result<(), Fail> {
    show_edge_io(&rt)?;
    show_whiteread(&rt)?;
    show_scan_fmt(&rt)
}
