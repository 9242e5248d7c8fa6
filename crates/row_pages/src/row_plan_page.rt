use row_plan::{RowPlan, plan};
use scan_fmt::parse::Format;
use sprintf::parser::parse_format_string;
use std::alloc::Global;
use std::test::Fail;
use values::{Value, parse_kinds};

/// The plan of a printf format whose fields have these kinds.
fn plan_of(alloc: Global, kinds: &str, format: &str) -> Result<RowPlan, Fail> {
    let kinds = parse_kinds(alloc, kinds)?;
    let elements = parse_format_string(alloc, format)?;
    Ok(plan(alloc, &elements, &kinds)?)
}

/// The values of each line. The scanning format is cut once, and the text in which a row is printed again is kept.
fn read_lines(alloc: Global, plan: &RowPlan, lines: &str) -> Result<Vec<Vec<Value>>, Fail> {
    let format = Format::new(alloc, plan.format_text())?;
    let mut again = String::new(alloc);
    let mut rows = Vec::new(alloc);
    for line in lines.lines() {
        rows.push(plan.read_row_by(alloc, &format, line, &mut again)?)?;
    }
    Ok(rows)
}

pub fn show(rt: &HostRuntime) -> Result<(), Fail> {
    let alloc = rt.alloc();
    let plan = plan_of(alloc, "word u32", "%s [%08u]")?;
    println!(rt; "{}", plan.format_text())?;
    println!(rt;
        "{:?}",
        read_lines(alloc, &plan, "web01 [00000412]\ndb [12345678]")?
    )?;
    println!(rt; "{:?}", plan.read_row(alloc, "web01 [412]"))?;
    if let Err(refusal) = row_plan::plan(
        alloc,
        &parse_format_string(alloc, "%u%u")?,
        &parse_kinds(alloc, "u32 u32")?,
    ) {
        println!(rt; "{refusal:?}")?;
    }
    Ok(())
}
