ghost use Rattle.std.specs.Prelude.{◌≡◌, ◌∷◌, [], true, pos, OnErr, OnOk, string_bytes};
ghost use Rattle.formatx.specs.Scene.{scene_over};
ghost use Rattle.formatx.specs.Text.{AppendsPrinted};
ghost use Rattle.formatx.specs.Values.{integer_meaning};

use formatx::{Error, Names, Template};
use std::alloc::Global;
use std::test::Fail;

/// Appends what the template prints of one number, or leaves the text as it was.
fn push_number(
    alloc: Global,
    template: &Template,
    number: u32,
    names: &Names,
    out: &mut String,
) -> Result<(), Error>
    ensures ok { OnOk result (AppendsPrinted (scene_over (λ n. integer_meaning (pos n) n) template.now (number ∷ []) names.now true) (string_bytes out.old) (string_bytes out.new)) }
    ensures unchanged { OnErr result (string_bytes out.new ≡ string_bytes out.old) }
{
    template.render_into(alloc, out, &[number], names, true)
}

pub fn show(rt: &HostRuntime) -> Result<(), Fail> {
    let alloc = rt.alloc();
    let template = Template::new(alloc, "page {:>3}")?;
    let mut text = String::new(alloc);
    push_number(alloc, &template, 12, &Names::new(alloc), &mut text)?;
    println!(rt; "{text}")?;
    Ok(())
}
