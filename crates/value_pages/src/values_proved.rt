ghost use Rattle.std.specs.Prelude.{◌≡◌, List, Some, true};
ghost use Rattle.values.specs.Kind.{AreKinds};
ghost use Rattle.values.specs.declared.kind.Kind.{Kind};
ghost use Rattle.whiteread.specs.Words.{words};

use std::alloc::Global;
use std::test::Fail;
use values::{KindsError, parse_kinds};

/// Whether each word of the line names a kind; None where there is no memory.
fn names_kinds(alloc: Global, line: &str) -> Option<bool>
    ensures { result ≡ Some true → (kinds : List Kind) × AreKinds (words line.now) kinds }
{
    match parse_kinds(alloc, line) {
        Ok(_) => Some(true),
        Err(KindsError::Unknown { .. }) => Some(false),
        Err(KindsError::NoMemory) => None,
    }
}

pub fn show(rt: &HostRuntime) -> Result<(), Fail> {
    println!(rt; "{:?}", names_kinds(rt.alloc(), "word u8"))?;
    println!(rt; "{:?}", names_kinds(rt.alloc(), "word f32"))?;
    Ok(())
}
