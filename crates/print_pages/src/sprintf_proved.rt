ghost use Rattle.std.specs.Prelude.{[], ◌∷◌, IfOk, codes, string_bytes};
ghost use Rattle.sprintf.specs.Values.{unsigned_meaning};
ghost use Rattle.sprintf.specs.Text.{PrintsFormat};

use sprintf::{Result, vsprintf};
use std::alloc::Global;
use std::test::Fail;

/// An offset of a dump, in eight digits at least.
fn offset(alloc: Global, number: u64) -> Result<String>
    ensures { IfOk result (λ text. PrintsFormat (codes "%08x") (unsigned_meaning number ∷ []) (string_bytes text)) }
{
    vsprintf(alloc, "%08x", &[number])
}

pub fn show(rt: &HostRuntime) -> std::result::Result<(), Fail> {
    println!(rt; "{}", offset(rt.alloc(), 4096)?)?;
    Ok(())
}
