// Calls of a formatter.
use std::test::Fail;
use strfmt::{Alignment, Formatter, Sign};

#[test]
fn patterns_are_read(rt: HostRuntime) -> std::result::Result<(), Fail> {
    let mut f = Formatter::from_str(rt.alloc(), "k:é^-#05,.2e")?;
    assert!(rt; f.key == "k" && f.fill() == 'é' && f.sign() == Sign::Minus);
    assert!(rt; f.width() == Some(5) && f.precision() == Some(2) && f.ty() == Some('e'));
    assert!(rt; f.alternate() && f.thousands() && !f.sign_plus() && f.sign_minus());
    assert!(rt; !f.is_int_type() && f.is_float_type() && !f.sign().is_unspecified());
    f.set_default_align(Alignment::Right);
    f.set_precision(None);
    assert!(rt; f.align() == Alignment::Center && f.precision() == None);
    Ok(())
}

#[test]
fn text_is_written(rt: HostRuntime) -> std::result::Result<(), Fail> {
    let mut f = Formatter::from_str(rt.alloc(), "x")?;
    f.write_str("ab")?;
    assert!(rt; f.text() == "ab");
    let mut f = Formatter::from_str(rt.alloc(), "x:4")?;
    f.str_unchecked("ab")?;
    assert!(rt; f.text() == "ab  ");
    Ok(())
}

#[test]
fn calls_append(rt: HostRuntime) -> std::result::Result<(), Fail> {
    let mut f = Formatter::from_str(rt.alloc(), "x:4")?;
    f.str_unchecked("ab")?;
    f.write_str("é")?;
    f.skip()?;
    assert!(rt; f.text() == "ab  é{x:4}");
    Ok(())
}

#[test]
fn refusals_leave_the_text(rt: HostRuntime) -> std::result::Result<(), Fail> {
    let mut f = Formatter::from_str(rt.alloc(), "x:=+#6x")?;
    f.write_str("before")?;
    assert!(rt; f.u8(5).is_err() && f.str("a").is_err());
    assert!(rt; f.text() == "before");
    f.set_default_align(Alignment::Right);
    assert!(rt; f.align() == Alignment::Equal);
    Ok(())
}

#[test]
fn small_integers(rt: HostRuntime) -> std::result::Result<(), Fail> {
    let mut f = Formatter::from_str(rt.alloc(), "x:4x")?;
    f.u8(255)?;
    f.i8(-1)?;
    f.u16(4095)?;
    f.i16(-1)?;
    f.u32(16)?;
    f.i32(-42)?;
    assert!(rt; f.text() == "  ff  ff fffffff  10ffffffd6");
    Ok(())
}

#[test]
fn large_integers(rt: HostRuntime) -> std::result::Result<(), Fail> {
    let mut f = Formatter::from_str(rt.alloc(), "x:>21")?;
    f.u64(18446744073709551615)?;
    f.i64(-9223372036854775808)?;
    f.usize(0)?;
    f.isize(-9223372036854775808)?;
    f.i128(-170141183460469231731687303715884105728)?;
    assert!(rt;
        f.text()
            == " 18446744073709551615 -9223372036854775808                    0 -9223372036854775808-170141183460469231731687303715884105728"
    );
    let mut f = Formatter::from_str(rt.alloc(), "x:b")?;
    f.u128(340282366920938463463374607431768211455)?;
    assert!(rt; f.text().len() == 128 && !f.text().contains('0'));
    Ok(())
}

#[test]
fn errors_display(rt: HostRuntime) -> std::result::Result<(), Fail> {
    let alloc = rt.alloc();
    for (pattern, want) in [
        ("x:k", "TypeError(Invalid type specifier: 'k')"),
        ("", "Invalid(must specify identifier)"),
    ] {
        let shown = match Formatter::from_str(alloc, pattern) {
            Ok(_) => String::from_str(alloc, "a formatter")?,
            Err(error) => format!(in alloc; "{error}")?,
        };
        assert!(rt; shown.as_str() == want, "{pattern}");
    }
    Ok(())
}
