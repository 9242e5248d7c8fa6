// Reads and writes that fail, and lines that aren't UTF-8.
use crate::support::{HEADERS, joined, sink, source};
use edge_io::{MemSink, MemSource};
use reformat::{ReformatError, reformat};
use std::test::Fail;

const ROWS: &[u8] = b"7\n8\n";

#[test]
fn writes_before_another_read(rt: HostRuntime) -> Result<(), Fail> {
    let alloc = rt.alloc();
    let bytes = joined(alloc, HEADERS, ROWS)?;
    let mut input = MemSource::new(bytes, 10, vec![in alloc; 3]?);
    let mut output = sink(alloc, 1)?;
    let got = reformat(alloc, &mut input, &mut output, 100);
    assert_eq!(rt; got, Err(ReformatError::ReadFault));
    assert_eq!(rt; output.bytes(), b"7\n".as_slice());

    let mut input = source(alloc, &joined(alloc, HEADERS, ROWS)?, 10)?;
    let mut output = MemSink::new(vec![in alloc; 0; 10]?, 1, vec![in alloc; 3]?);
    let got = reformat(alloc, &mut input, &mut output, 100);
    assert_eq!(rt; got, Err(ReformatError::WriteFault));
    assert_eq!(rt; output.bytes(), b"7\n".as_slice());
    Ok(())
}

#[test]
fn refuses_what_is_not_utf8(rt: HostRuntime) -> Result<(), Fail> {
    let alloc = rt.alloc();
    let bytes = joined(alloc, HEADERS, b"7\n\xff")?;
    for piece in 1..6 {
        let mut input = source(alloc, &bytes, piece)?;
        let mut output = sink(alloc, piece)?;
        let got = reformat(alloc, &mut input, &mut output, 100);
        assert_eq!(rt; got, Err(ReformatError::NotUtf8 { line: 6 }));
        assert_eq!(rt; output.bytes(), b"7\n".as_slice());
    }
    let mut input = source(alloc, b"u64\n\xff\n", 3)?;
    let mut output = sink(alloc, 1)?;
    let got = reformat(alloc, &mut input, &mut output, 100);
    assert_eq!(rt; got, Err(ReformatError::NotUtf8 { line: 2 }));
    Ok(())
}

// Each read failing in turn: what was written is the rows that had ended, and nothing else.
#[test]
fn outlives_each_read(rt: HostRuntime) -> Result<(), Fail> {
    let alloc = rt.alloc();
    let bytes = joined(alloc, HEADERS, ROWS)?;
    for piece in 1..6 {
        for call in 1..25 {
            let mut input = MemSource::new(
                bytes.as_slice().to_vec(alloc)?,
                piece,
                vec![in alloc; call]?,
            );
            let mut output = sink(alloc, piece)?;
            let got = reformat(alloc, &mut input, &mut output, 100);
            let failed = input.faults() == 1;
            let want = if failed {
                Err(ReformatError::ReadFault)
            } else {
                Ok(2)
            };
            assert_eq!(rt; got, want, "read {call} in pieces of {piece}");
            let rows = if input.given() >= 21 {
                ROWS
            } else if input.given() >= 19 {
                b"7\n".as_slice()
            } else {
                b"".as_slice()
            };
            assert_eq!(rt; output.bytes(), rows, "read {call} in pieces of {piece}");
        }
    }
    Ok(())
}

// Each write failing in turn: what was written is a front of the rows' text.
#[test]
fn outlives_each_write(rt: HostRuntime) -> Result<(), Fail> {
    let alloc = rt.alloc();
    let bytes = joined(alloc, HEADERS, ROWS)?;
    for piece in 1..6 {
        for call in 1..8 {
            let mut input = source(alloc, &bytes, piece)?;
            let mut output = MemSink::new(vec![in alloc; 0; 10]?, piece, vec![in alloc; call]?);
            let got = reformat(alloc, &mut input, &mut output, 100);
            let failed = output.faults() == 1;
            let want = if failed {
                Err(ReformatError::WriteFault)
            } else {
                Ok(2)
            };
            assert_eq!(rt; got, want, "write {call} in pieces of {piece}");
            assert!(rt; ROWS.starts_with(output.bytes()));
            assert!(rt; failed || output.bytes() == ROWS);
        }
    }
    Ok(())
}

/// Headers of sixteen bytes, under which each row is one number.
const SHORT_HEADERS: &[u8] = b"u8\n%d\nprintf\n%d\n";

// Twenty bytes that come by ten: which read fails, the answer, and what was written.
#[test]
fn ends_at_the_read_that_fails(rt: HostRuntime) -> Result<(), Fail> {
    let alloc = rt.alloc();
    let bytes = joined(alloc, SHORT_HEADERS, ROWS)?;
    for (call, want, written) in [
        (1, Err(ReformatError::ReadFault), b"".as_slice()),
        (2, Err(ReformatError::ReadFault), b"".as_slice()),
        (3, Err(ReformatError::ReadFault), ROWS),
        (4, Ok(2), ROWS),
    ] {
        let mut input = MemSource::new(bytes.as_slice().to_vec(alloc)?, 10, vec![in alloc; call]?);
        let mut output = sink(alloc, 1)?;
        let got = reformat(alloc, &mut input, &mut output, 100);
        assert_eq!(rt; got, want, "read {call}");
        assert_eq!(rt; output.bytes(), written, "read {call}");
    }
    Ok(())
}

// The same bytes, written one at a time: which write fails, the answer, and what was written.
#[test]
fn ends_at_the_write_that_fails(rt: HostRuntime) -> Result<(), Fail> {
    let alloc = rt.alloc();
    let bytes = joined(alloc, SHORT_HEADERS, ROWS)?;
    for (call, want, written) in [
        (1, Err(ReformatError::WriteFault), b"".as_slice()),
        (2, Err(ReformatError::WriteFault), b"7".as_slice()),
        (3, Err(ReformatError::WriteFault), b"7\n".as_slice()),
        (4, Err(ReformatError::WriteFault), b"7\n8".as_slice()),
        (5, Ok(2), ROWS),
    ] {
        let mut input = source(alloc, &bytes, 4096)?;
        let mut output = MemSink::new(vec![in alloc; 0; 10]?, 1, vec![in alloc; call]?);
        let got = reformat(alloc, &mut input, &mut output, 100);
        assert_eq!(rt; got, want, "write {call}");
        assert_eq!(rt; output.bytes(), written, "write {call}");
    }
    Ok(())
}

// A room too small is a write that fails.
#[test]
fn fills_a_room_that_is_too_small(rt: HostRuntime) -> Result<(), Fail> {
    let alloc = rt.alloc();
    let mut input = source(alloc, &joined(alloc, HEADERS, ROWS)?, 4096)?;
    let mut output = MemSink::new(vec![in alloc; 0; 1]?, 9, Vec::new(alloc));
    let got = reformat(alloc, &mut input, &mut output, 100);
    assert_eq!(rt; got, Err(ReformatError::WriteFault));
    assert_eq!(rt; output.bytes(), b"7".as_slice());
    Ok(())
}
