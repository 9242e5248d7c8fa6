ghost use Rattle.std.specs.Prelude.{bytes_eq, string_bytes, codes};
ghost use Rattle.strfmt.specs.Field.{integer_field, unsigned};
ghost use Rattle.strfmt.specs.Text.{IsPrinted};
ghost use Rattle.strfmt.specs.Values.{values};

use std::alloc::Global;
use std::collections::HashMap;
use std::test::Fail;
use strfmt::{Result, strfmt};

/// The price and the amount of a map, in columns.
fn line(alloc: Global, vars: &HashMap<String, u64>) -> Result<String>
    ensures { IsPrinted string_bytes (values (λ text key. bytes_eq text (string_bytes key)) (λ n spec. integer_field spec (unsigned n)) vars.now) (codes "{price:>6} x {amount}") result }
{
    strfmt(alloc, "{price:>6} x {amount}", vars)
}

pub fn show(rt: &HostRuntime) -> std::result::Result<(), Fail> {
    let alloc = rt.alloc();
    let mut vars: HashMap<String, u64> = HashMap::new(alloc);
    vars.insert(String::from_str(alloc, "price")?, 120)?;
    vars.insert(String::from_str(alloc, "amount")?, 3)?;
    println!(rt; "{}", line(alloc, &vars)?)?;
    Ok(())
}
