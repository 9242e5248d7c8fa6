ghost use Rattle.printer.specs.Text.{Prints};
ghost use Rattle.std.specs.Prelude.{IfSome, Ok, map, string_bytes};
ghost use Rattle.values.specs.Datum.{datum_of, kind_of};

use printer::{Dialect, Printer};
use std::alloc::Global;
use std::test::Fail;
use values::Value;

/// The text of the values, if there is one and memory for it.
fn text_of(alloc: Global, printer: &Printer<'_>, values: &[Value]) -> Option<String>
    ensures { IfSome result (λ text. Prints printer.now (map kind_of values.now) (map datum_of values.now) (Ok (string_bytes text))) }
{
    printer.text(alloc, values).ok()
}

pub fn show(rt: &HostRuntime) -> Result<(), Fail> {
    let alloc = rt.alloc();
    let printer = Printer::new(alloc, Dialect::Formatx, "{:+}")?;
    println!(rt; "{:?}", text_of(alloc, &printer, &[Value::U8(7)]))?;
    println!(rt; "{:?}", text_of(alloc, &printer, &[]))?;
    Ok(())
}
