// Each public call once, and each carried type.
use formatx::{
    DebugStyle, Error, FormatSpec, FormatValue, Names, Segment, Template, parse, render,
};
use std::alloc::Global;
use std::test::Fail;

#[test]
fn names_of_arguments(rt: HostRuntime) -> Result<(), Fail> {
    let alloc = rt.alloc();
    let template = Template::new(alloc, "{greeting} {name}!")?;
    let mut renderer = template.render::<&str>(alloc);
    let _ = renderer.named("greeting", "Hello")?;
    assert!(rt; renderer.finish().is_err());
    assert_eq!(rt; renderer.finish_lenient()?.as_str(), "Hello !");
    let _ = renderer.named("name", "you")?.named("name", "me")?;
    assert_eq!(rt; renderer.finish()?.as_str(), "Hello you!");
    Ok(())
}

#[test]
fn names_of_a_template(rt: HostRuntime) -> Result<(), Fail> {
    let alloc = rt.alloc();
    let template = Template::new(alloc, "{name} has {n:w$} items {name}")?;
    assert!(rt; template.contains("n"));
    assert!(rt; !template.contains("w"));
    let names = template.placeholders(alloc)?;
    assert_eq!(rt; names.len(), 3);
    assert_eq!(rt; names[0], "name");
    assert_eq!(rt; names[1], "n");
    Ok(())
}

#[test]
fn source_of_a_template(rt: HostRuntime) -> Result<(), Fail> {
    let alloc = rt.alloc();
    let template = Template::new(alloc, "a{n:w$}")?;
    assert_eq!(rt; template.source(), "a{n:w$}");
    assert_eq!(rt; format!(in alloc; "{template}")?.as_str(), "a{n:w$}");
    assert_eq!(rt;
        format!(in alloc; "{template:?}")?.as_str(),
        "Template { source: \"a{n:w$}\" }"
    );
    Ok(())
}

// What a value prints, and its debug text in each style.
fn texts_of<V: FormatValue>(alloc: Global, value: V) -> Result<String, Fail> {
    let mut out = String::new(alloc);
    value.display(&mut out)?;
    out.push(' ')?;
    value.debug(DebugStyle::Plain, &mut out)?;
    out.push(' ')?;
    value.debug(DebugStyle::UpperHex, &mut out)?;
    Ok(out)
}

#[test]
fn unsigned_kinds(rt: HostRuntime) -> Result<(), Fail> {
    let alloc = rt.alloc();
    assert_eq!(rt; texts_of(alloc, 200u8)?.as_str(), "200 200 C8");
    assert_eq!(rt; texts_of(alloc, 0u16)?.as_str(), "0 0 0");
    assert_eq!(rt; texts_of(alloc, 7u32)?.as_str(), "7 7 7");
    assert_eq!(rt; texts_of(alloc, 10u64)?.as_str(), "10 10 A");
    assert_eq!(rt; texts_of(alloc, 255u128)?.as_str(), "255 255 FF");
    assert_eq!(rt; texts_of(alloc, 9usize)?.as_str(), "9 9 9");
    Ok(())
}

#[test]
fn signed_kinds(rt: HostRuntime) -> Result<(), Fail> {
    let alloc = rt.alloc();
    assert_eq!(rt; texts_of(alloc, -128i8)?.as_str(), "-128 -128 80");
    assert_eq!(rt; texts_of(alloc, -1i16)?.as_str(), "-1 -1 FFFF");
    assert_eq!(rt;
        texts_of(alloc, i32::MIN)?.as_str(),
        "-2147483648 -2147483648 80000000"
    );
    assert_eq!(rt; texts_of(alloc, 5i64)?.as_str(), "5 5 5");
    assert_eq!(rt;
        texts_of(alloc, -1i128)?.as_str(),
        "-1 -1 FFFFFFFFFFFFFFFFFFFFFFFFFFFFFFFF"
    );
    assert_eq!(rt;
        texts_of(alloc, -7isize)?.as_str(),
        "-7 -7 FFFFFFFFFFFFFFF9"
    );
    Ok(())
}

#[test]
fn other_kinds(rt: HostRuntime) -> Result<(), Fail> {
    let alloc = rt.alloc();
    assert_eq!(rt; texts_of(alloc, true)?.as_str(), "true true true");
    assert_eq!(rt; texts_of(alloc, 'é')?.as_str(), "é 'é' 'é'");
    assert_eq!(rt; texts_of(alloc, '\'')?.as_str(), "' '\\'' '\\''");
    assert_eq!(rt;
        texts_of(alloc, String::from_str(alloc, "\"")?)?.as_str(),
        "\" \"\\\"\" \"\\\"\""
    );
    assert_eq!(rt;
        texts_of(alloc, "\0\t\r\n\u{1}\u{7f}\\'")?.as_str(),
        "\0\t\r\n\u{1}\u{7f}\\' \"\\0\\t\\r\\n\\u{1}\\u{7f}\\\\'\" \"\\0\\t\\r\\n\\u{1}\\u{7f}\\\\'\""
    );
    Ok(())
}

// What a template prints over one value.
fn printed<V: FormatValue>(alloc: Global, source: &str, value: V) -> Result<String, Error> {
    let template = Template::new(alloc, source)?;
    let mut renderer = template.render::<V>(alloc);
    renderer.add(value)?;
    renderer.finish()
}

#[test]
fn boxed_values(rt: HostRuntime) -> Result<(), Fail> {
    let alloc = rt.alloc();
    let boxed: Box<dyn FormatValue> = Box::new(alloc, 7u8)?;
    let text = printed(alloc, "{:>3}", boxed)?;
    assert_eq!(rt; text.as_str(), "  7");
    Ok(())
}

#[test]
fn output_after_a_fault(rt: HostRuntime) -> Result<(), Fail> {
    let alloc = rt.alloc();
    let source = "x{}{:w$}";
    let parsed = parse(alloc, source)?;
    assert!(rt; parsed.fits(source));
    assert!(rt; !parsed.fits("x"));
    let mut out = String::from_str(alloc, "pre ")?;
    let answer = render::<u8>(
        alloc,
        &mut out,
        source,
        &parsed,
        &[1, 2],
        &Names::new(alloc),
        false,
    );
    assert!(rt; answer.is_err());
    assert_eq!(rt; out.as_str(), "pre x1");
    Ok(())
}

#[test]
fn output_over_a_parsed_template(rt: HostRuntime) -> Result<(), Fail> {
    let alloc = rt.alloc();
    let source = "{} + {} = {}";
    let parsed = parse(alloc, source)?;
    assert!(rt; parsed.fits(source));
    let mut out = String::new(alloc);
    render::<u8>(
        alloc,
        &mut out,
        source,
        &parsed,
        &[1, 2, 3],
        &Names::new(alloc),
        true,
    )?;
    assert_eq!(rt; out.as_str(), "1 + 2 = 3");
    assert!(rt; FormatSpec::default().is_default());
    Ok(())
}

#[test]
fn wide_text(rt: HostRuntime) -> Result<(), Fail> {
    let alloc = rt.alloc();
    let template = Template::new(alloc, "{:65537}")?;
    let mut renderer = template.render::<u8>(alloc);
    let wide = renderer.arg(1)?.finish()?;
    assert_eq!(rt; wide.len(), 65537);
    assert!(rt; wide.as_str().ends_with("  1"));
    Ok(())
}

// One template over two rows, and a third that lacks a value.
#[test]
fn rows_into_a_text(rt: HostRuntime) -> Result<(), Fail> {
    let alloc = rt.alloc();
    let template = Template::new(alloc, "{0:>3}|{n:+} ")?;
    let mut names = Names::new(alloc);
    names.add("n", 1)?;
    names.add("n", 0)?;
    assert_eq!(rt; names.position("n"), Some(1));
    assert_eq!(rt; names.position("m"), None);
    let mut out = String::from_str(alloc, "rows ")?;
    template.render_into::<u8>(alloc, &mut out, &[1, 2], &names, true)?;
    template.render_into::<u8>(alloc, &mut out, &[30, 4], &names, true)?;
    assert!(rt;
        template
            .render_into::<u8>(alloc, &mut out, &[5], &names, true)
            .is_err()
    );
    template.render_into::<u8>(alloc, &mut out, &[6], &names, false)?;
    assert_eq!(rt; out.as_str(), "rows   1|+2  30|+4   6| ");
    Ok(())
}

#[test]
fn values_added(rt: HostRuntime) -> Result<(), Fail> {
    let alloc = rt.alloc();
    let template = Template::new(alloc, "{x}{}{}")?;
    let mut renderer = template.render::<u8>(alloc);
    renderer.add(1)?;
    renderer.add_named("x", 2)?;
    assert_eq!(rt; renderer.finish()?.as_str(), "212");
    Ok(())
}

#[test]
fn escapes_parsed(rt: HostRuntime) -> Result<(), Fail> {
    let alloc = rt.alloc();
    let parsed = parse(alloc, "{{}}")?;
    assert_eq!(rt; parsed.segments.len(), 2);
    assert!(rt; matches!(&parsed.segments[0], Segment::EscapedOpen));
    assert!(rt; matches!(&parsed.segments[1], Segment::EscapedClose));
    Ok(())
}

// Where the memory for a value is refused, the values before it are all there is.
#[test]
fn values_after_a_refusal(rt: HostRuntime) -> Result<(), Fail> {
    let alloc = rt.alloc();
    let template = Template::new(alloc, "{}|{x}|{}")?;
    let mut renderer = template.render::<u8>(alloc);
    let first = renderer.arg(1).is_ok();
    let second = renderer.named("x", 2).is_ok();
    let want = match (first, second) {
        (true, true) => "1|2|2",
        (true, false) => "1||",
        (false, true) => "2|2|",
        (false, false) => "||",
    };
    assert_eq!(rt; renderer.finish_lenient()?.as_str(), want);
    Ok(())
}
