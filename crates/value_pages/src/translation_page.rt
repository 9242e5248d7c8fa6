use sprintf::parser::parse_format_string;
use std::alloc::Global;
use std::test::Fail;
use translation::{Target, TranslateError, translate};
use values::{Kind, parse_kinds};

/// The strfmt template that prints what the format prints over these kinds, or which element has none.
fn for_strfmt(
    alloc: Global,
    format: &str,
    kinds: &[Kind],
) -> Result<Result<String, TranslateError>, Fail> {
    let elements = parse_format_string(alloc, format)?;
    Ok(translate(alloc, &elements, kinds, Target::Strfmt))
}

pub fn show(rt: &HostRuntime) -> Result<(), Fail> {
    let alloc = rt.alloc();
    let kinds = parse_kinds(alloc, "word u64 i32")?;
    for format in ["%-8s|%6u|%+d %% {}", "%s %08u %d"] {
        println!(rt; "{:?}", for_strfmt(alloc, format, &kinds)?)?;
    }
    Ok(())
}
