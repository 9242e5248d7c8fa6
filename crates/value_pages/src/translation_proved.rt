ghost use Rattle.std.specs.Prelude.{◌≡◌, IfSome, Ok, string_bytes};
ghost use Rattle.translation.specs.Translated.{translated};

use sprintf::parser::{FormatElement, parse_format_string};
use std::alloc::Global;
use std::test::Fail;
use translation::{Target, translate};
use values::Kind;

/// The strfmt template of a format, if it has one and there is memory.
fn strfmt_template(alloc: Global, elements: &[FormatElement<'_>], kinds: &[Kind]) -> Option<String>
    ensures { IfSome result (λ text. translated elements.now kinds.now Target.Strfmt ≡ Ok (string_bytes text)) }
{
    translate(alloc, elements, kinds, Target::Strfmt).ok()
}

pub fn show(rt: &HostRuntime) -> Result<(), Fail> {
    let alloc = rt.alloc();
    let elements = parse_format_string(alloc, "%x")?;
    println!(rt; "{:?}", strfmt_template(alloc, &elements, &[Kind::U8]))?;
    println!(rt; "{:?}", strfmt_template(alloc, &elements, &[Kind::Word]))?;
    Ok(())
}
