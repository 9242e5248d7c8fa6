// Each expected text is written out by hand.
use padding::{Field, count_chars, front};
use std::alloc::Global;
use std::process::Abort;
use std::test::Fail;

// The field stands after what the text held.
fn is_laid_out(rt: &impl Abort, alloc: Global, field: Field<'_>, want: &str) -> Result<(), Fail> {
    let mut out = String::new(alloc);
    out.push('>')?;
    assert!(rt; field.push(&mut out).is_ok(), "no memory");
    assert_eq!(rt; out.as_str(), want);
    Ok(())
}

#[test]
fn parts_stand_in_order(rt: HostRuntime) -> Result<(), Fail> {
    let field = Field {
        head: "h",
        left: 2,
        lead: "-0x",
        zeros: 3,
        text: "f",
        right: 1,
        fill: 'ß',
    };
    is_laid_out(&rt, rt.alloc(), field, ">hßß-0x000fß")?;
    let bare = Field {
        head: "",
        left: 0,
        lead: "",
        zeros: 0,
        text: "ab",
        right: 0,
        fill: ' ',
    };
    is_laid_out(&rt, rt.alloc(), bare, ">ab")
}

#[test]
fn a_field_that_no_memory_holds_leaves_the_text(rt: HostRuntime) -> Result<(), Fail> {
    let field = Field {
        head: "",
        left: usize::MAX,
        lead: "",
        zeros: 0,
        text: "ab",
        right: 1,
        fill: '*',
    };
    let mut out = String::new(rt.alloc());
    out.push('>')?;
    assert!(rt; field.push(&mut out).is_err(), "a text of that length");
    assert_eq!(rt; out.as_str(), ">");
    Ok(())
}

#[test]
fn fronts_and_lengths_count_characters(rt: HostRuntime) -> Result<(), Fail> {
    assert_eq!(rt; count_chars(""), 0);
    assert_eq!(rt; count_chars("aß€"), 3);
    assert_eq!(rt; front("aß€", 0), "");
    assert_eq!(rt; front("aß€", 2), "aß");
    assert_eq!(rt; front("aß€", 4), "aß€");
    Ok(())
}
