// The exact limit and one byte more.
use crate::support::{HEADERS, joined, sink, source};
use reformat::{ReformatError, reformat};
use std::test::Fail;

const TWELVE: &[u8] = b"7\n7\n7\n7\n7\n7\n7\n7\n7\n7\n7\n7\n";

#[test]
fn takes_the_limit_and_no_more(rt: HostRuntime) -> Result<(), Fail> {
    let alloc = rt.alloc();
    let exact = joined(alloc, HEADERS, TWELVE)?;
    let longer = joined(alloc, &exact, b"7")?;
    let ended = joined(alloc, &exact, b"\n")?;
    for piece in [1, 7, 4096] {
        for (bytes, want) in [
            (exact.as_slice(), Ok(12)),
            (longer.as_slice(), Err(ReformatError::TooLong)),
            (ended.as_slice(), Err(ReformatError::TooLong)),
        ] {
            let mut input = source(alloc, bytes, piece)?;
            let mut output = sink(alloc, piece)?;
            let got = reformat(alloc, &mut input, &mut output, 41);
            assert_eq!(rt; got, want, "in pieces of {piece}");
            assert_eq!(rt; output.bytes(), TWELVE);
        }
    }
    Ok(())
}

#[test]
fn stops_within_a_row_or_a_header(rt: HostRuntime) -> Result<(), Fail> {
    let alloc = rt.alloc();
    let bytes = joined(alloc, HEADERS, b"7\n8\n")?;
    for piece in 1..6 {
        for (limit, want, written) in [
            (21, Ok(2), b"7\n8\n".as_slice()),
            (20, Err(ReformatError::TooLong), b"7\n".as_slice()),
            (19, Err(ReformatError::TooLong), b"7\n".as_slice()),
            (18, Err(ReformatError::TooLong), b"".as_slice()),
            (0, Err(ReformatError::TooLong), b"".as_slice()),
        ] {
            let mut input = source(alloc, &bytes, piece)?;
            let mut output = sink(alloc, piece)?;
            let got = reformat(alloc, &mut input, &mut output, limit);
            assert_eq!(rt; got, want, "at {limit} in pieces of {piece}");
            assert_eq!(rt; output.bytes(), written);
        }
    }
    let mut input = source(alloc, b"", 1)?;
    let mut output = sink(alloc, 1)?;
    let got = reformat(alloc, &mut input, &mut output, 0);
    assert_eq!(rt; got, Err(ReformatError::Header { line: 1 }));
    Ok(())
}

// Headers of 16 bytes and twelve rows of two, at the limit of 40.
#[test]
fn takes_forty_bytes(rt: HostRuntime) -> Result<(), Fail> {
    let alloc = rt.alloc();
    let exact = joined(alloc, b"u8\n%d\nprintf\n%d\n", TWELVE)?;
    let longer = joined(alloc, &exact, b"7")?;
    for piece in [1, 4096] {
        for (bytes, want) in [
            (exact.as_slice(), Ok(12)),
            (longer.as_slice(), Err(ReformatError::TooLong)),
        ] {
            let mut input = source(alloc, bytes, piece)?;
            let mut output = sink(alloc, 1)?;
            let got = reformat(alloc, &mut input, &mut output, 40);
            assert_eq!(rt; got, want);
            assert_eq!(rt; output.bytes(), TWELVE);
        }
    }
    Ok(())
}
