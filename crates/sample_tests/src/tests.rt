// The sample of no row, of one and of four, with rows that were computed apart.
use sample::sample_input;
use std::alloc::Global;
use std::test::Fail;

const HEADERS: &str = "u32 i64 word\n%08x %+d %s\nformatx\n{2} {0} {1}\n";

const ROWS: &str = "\
    00000000 +0 w0\n\
    9e3779b1 -1000003 w1\n\
    3c6ef362 +2000006 w2\n\
    daa66d13 -3000009 w3\n\
";

/// Whether the sample of n rows is the headers and these rows.
fn is_sample(alloc: Global, n: u64, rows: &str) -> Result<bool, Fail> {
    if n > 1000000 {
        return Ok(false);
    }
    let bytes = sample_input(alloc, n).ok().ok_or("no memory")?;
    Ok(match bytes.strip_prefix(HEADERS.as_bytes()) {
        Some(rest) => rest == rows.as_bytes(),
        None => false,
    })
}

#[test]
fn samples(rt: HostRuntime) -> Result<(), Fail> {
    let alloc = rt.alloc();
    assert!(rt; is_sample(alloc, 0, "")?);
    assert!(rt; is_sample(alloc, 1, "00000000 +0 w0\n")?);
    assert!(rt; is_sample(alloc, 4, ROWS)?);
    Ok(())
}
