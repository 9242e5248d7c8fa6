// Sources and sinks in memory, call by call.
use edge_io::{MemSink, MemSource, Sink, Source, write_all};
use std::alloc::{AllocError, Global};
use std::test::Fail;

// The bytes, how many a call gives at most, the calls that fail, and then each call: the length of its buffer, what it
// gives, and how many bytes were given and how many calls failed up to then.
const READS: &str = "\
    abcde|2|2|3=ab@2:0 3=Failed@2:1 1=c@3:1 3=de@5:1 3=@5:1\n\
    abcde|9||0=@0:0 3=abc@3:0 9=de@5:0 1=@5:0\n\
    ab|0||9=a@1:0 9=b@2:0 9=@2:0\n\
    ab|9|14|9=Failed@0:1 9=ab@2:1 9=@2:1 9=Failed@2:2\n\
    |9|1|9=Failed@0:1 9=@0:1\n\
";

// The room, how many bytes a call takes at most, the calls that fail, and then each call: `w` for one write or `a` for
// the whole piece, the piece, how many bytes the write took or whether the piece was taken, and what the sink holds and
// how many calls failed up to then.
const WRITES: &str = "\
    4|0|3|w:ab=1@a:0 a:bc=Failed@ab:1 a:cd=whole@abcd:1 a:e=Failed@abcd:2 w:=0@abcd:2\n\
    9|2||w:abc=2@ab:0 a:cde=whole@abcde:0 a:=whole@abcde:0\n\
    9|9|2|a:abc=whole@abc:0 w:d=Failed@abc:1 a:de=whole@abcde:1\n\
    0|9||w:=0@:0 w:a=Failed@:1 a:b=Failed@:2\n\
    3|2||a:abcde=Failed@abc:1\n\
";

/// The numbers that digits stand for, one by one.
fn calls_of(alloc: Global, digits: &str) -> Result<Vec<u64>, AllocError> {
    let mut calls = Vec::new(alloc);
    for digit in digits.as_bytes() {
        calls.push(u64::from(digit.saturating_sub(b'0')))?;
    }
    Ok(calls)
}

/// What one call gives, and then the counts.
fn shown_read<S: Source>(alloc: Global, source: &mut S, len: usize) -> Result<String, AllocError> {
    let mut buf = [b'-'; 9];
    match source.read(&mut buf[..len.min(9)]) {
        Ok(count) => String::from_str(alloc, std::str::from_utf8(&buf[..count]).unwrap_or("?")),
        Err(why) => format!(in alloc; "{why:?}"),
    }
}

#[test]
fn sources_give_pieces_and_fail_as_told(rt: HostRuntime) -> Result<(), Fail> {
    let alloc = rt.alloc();
    for row in READS.lines() {
        let (bytes, rest) = row.split_once('|').ok_or("no bytes")?;
        let (piece, rest) = rest.split_once('|').ok_or("no piece")?;
        let (failing, calls) = rest.split_once('|').ok_or("no calls")?;
        let bytes = bytes.as_bytes().to_vec(alloc)?;
        let mut source = MemSource::new(bytes, piece.parse()?, calls_of(alloc, failing)?);
        for call in calls.split(' ') {
            let (len, want) = call.split_once('=').ok_or("no answer")?;
            let found = shown_read(alloc, &mut &mut source, len.parse()?)?;
            let found = format!(in alloc; "{found}@{}:{}", source.given(), source.faults())?;
            assert_eq!(rt; found.as_str(), want, "{row}");
        }
    }
    Ok(())
}

/// What one call takes.
fn shown_write<K: Sink>(alloc: Global, sink: &mut K, call: &str) -> Result<String, AllocError> {
    let (form, piece) = call.split_once(':').unwrap_or(("", call));
    if form == "w" {
        return match sink.write(piece.as_bytes()) {
            Ok(count) => format!(in alloc; "{count}"),
            Err(why) => format!(in alloc; "{why:?}"),
        };
    }
    match write_all(sink, piece.as_bytes()) {
        Ok(()) => String::from_str(alloc, "whole"),
        Err(why) => format!(in alloc; "{why:?}"),
    }
}

#[test]
fn sinks_take_pieces_and_fail_as_told(rt: HostRuntime) -> Result<(), Fail> {
    let alloc = rt.alloc();
    for row in WRITES.lines() {
        let (room, rest) = row.split_once('|').ok_or("no room")?;
        let (piece, rest) = rest.split_once('|').ok_or("no piece")?;
        let (failing, calls) = rest.split_once('|').ok_or("no calls")?;
        let room = vec![in alloc; b'-'; room.parse()?]?;
        let mut sink = MemSink::new(room, piece.parse()?, calls_of(alloc, failing)?);
        for call in calls.split(' ') {
            let (call, want) = call.split_once('=').ok_or("no answer")?;
            let found = shown_write(alloc, &mut &mut sink, call)?;
            let held = std::str::from_utf8(sink.bytes()).unwrap_or("?");
            let found = format!(in alloc; "{found}@{held}:{}", sink.faults())?;
            assert_eq!(rt; found.as_str(), want, "{row}");
        }
    }
    Ok(())
}
