ghost use Rattle.std.specs.Int.{w32};
ghost use Rattle.whiteread.specs.Reading.Reads.{signed};
ghost use Rattle.whiteread.specs.Reading.Tuples.{pair};
ghost use Rattle.whiteread.specs.Reading.Whole.{ReadsWhole};
ghost use Rattle.whiteread.specs.Words.{words};

use std::alloc::Global;
use std::test::Fail;
use whiteread::parse_string;
use whiteread::stream::Result;

/// A range, written as its two ends and nothing else.
fn range(alloc: Global, text: &str) -> Result<(i32, i32)>
    ensures { ReadsWhole (pair (signed w32) (signed w32)) (words text.now) result }
{
    parse_string(alloc, text)
}

pub fn show(rt: &HostRuntime) -> std::result::Result<(), Fail> {
    println!(rt; "{:?}", range(rt.alloc(), "-5  5")?)?;
    println!(rt; "{:?}", range(rt.alloc(), "-5"))?;
    println!(rt; "{:?}", range(rt.alloc(), "-5 5 6"))?;
    Ok(())
}
