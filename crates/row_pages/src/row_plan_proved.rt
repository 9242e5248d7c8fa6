ghost use Rattle.row_format.specs.Row.{IsRow};
ghost use Rattle.std.specs.Prelude.{◌≡◌, List, Some, true, false};
ghost use Rattle.values.specs.Datum.{Datum};

use row_plan::{RowError, RowPlan, plan};
use sprintf::parser::parse_format_string;
use std::alloc::Global;
use std::test::Fail;
use values::Kind;

/// Whether the line is a row of the plan; None where there is no memory.
fn is_row(alloc: Global, plan: &RowPlan, line: &str) -> Option<bool>
    ensures yes { result ≡ Some true → (values : List Datum) × IsRow plan.now.format plan.now.kinds line.now values }
    ensures no { result ≡ Some false → (values : List Datum) → ¬ IsRow plan.now.format plan.now.kinds line.now values }
{
    match plan.read_row(alloc, line) {
        Ok(_) => Some(true),
        Err(RowError::NotARow) => Some(false),
        Err(RowError::NoMemory) => None,
    }
}

pub fn show(rt: &HostRuntime) -> Result<(), Fail> {
    let alloc = rt.alloc();
    let plan = plan(alloc, &parse_format_string(alloc, "%d")?, &[Kind::I8])?;
    for line in ["-128", "128", "007"] {
        println!(rt; "{:?}", is_row(alloc, &plan, line))?;
    }
    Ok(())
}
