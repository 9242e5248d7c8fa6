ghost use Rattle.std.specs.Prelude.{IfOk, codes, map};
ghost use Rattle.std.specs.Str.{chars};
ghost use Rattle.scan_fmt.specs.Scanned.{ScannedTexts};
ghost use Rattle.scan_fmt.specs.Tokens.{texts_left};

use numerals::NoMemory;
use scan_fmt::parse::{Tokens, scan};
use std::alloc::Global;
use std::test::Fail;

/// The fields of a line `NAME: NUMBER`, as tokens.
fn fields(alloc: Global, line: &str) -> Result<Tokens, NoMemory>
    ensures { IfOk result (λ tokens. ScannedTexts (chars line.now) (chars (codes "{}: {d}{e}")) (map chars (texts_left tokens))) }
{
    scan(alloc, line, "{}: {d}{e}")
}

pub fn show(rt: &HostRuntime) -> Result<(), Fail> {
    for token in fields(rt.alloc(), "width: 12")? {
        println!(rt; "{token}")?;
    }
    Ok(())
}
