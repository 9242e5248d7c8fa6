// Lines of sources that give pieces, that fail, and that are longer than the limit.
use crate::texts::{bytes_of, marked};
use edge_io::{MemSource, Source};
use std::alloc::{AllocError, Global};
use std::test::Fail;
use whiteread::{Reader, stream};

// Inputs, and the answers to the calls that follow.
const LINES: &str = "\
    |end end\n\
    $|$ end\n\
    $$a|$ $ a end end\n\
    ab$c|ab$ c end\n\
    ab%$%$c%|ab%$ %$ c% end\n\
    é$aé|é$ aé end\n\
    a中$é$中|a中$ é$ 中 end\n\
    a#$b$|NotUtf8 b$ end\n\
    a$#b$c|a$ NotUtf8 c end\n\
    a$#$#|a$ NotUtf8 NotUtf8 end\n\
    é#$é$|NotUtf8 é$ end\n\
";

// An input, how many bytes a read gives at most, the calls that fail, the limit, and each answer with the bytes given
// and the row after it.
const STEPS: &str = "\
    ab$c$|2||9|ab$@4:1 c$@5:2 end@5:3 end@5:4\n\
    a$b$c$|9||9|a$@6:1 b$@6:2 c$@6:3 end@6:4\n\
    ab$cd$|9||2|TooLong@3:0 TooLong@3:0\n\
    ab$cd$|9||3|ab$@3:1 TooLong@4:1 TooLong@4:1\n\
    ab$cd$|9||4|ab$@4:1 TooLong@5:1\n\
    ab$cd$|9||5|ab$@5:1 TooLong@6:1\n\
    ab$cd$|9||6|ab$@6:1 cd$@6:2 end@6:3\n\
    ab$cd$|9||7|ab$@6:1 cd$@6:2 end@6:3\n\
    ab$cd|9||4|ab$@4:1 TooLong@5:1\n\
    ab$cd|9||5|ab$@5:1 cd@5:2 end@5:3\n\
    |9||0|end@0:1\n\
    a|9||0|TooLong@1:0\n\
    ab$cd$|2|1|9|ReadFault@0:0 ab$@4:1 cd$@6:2 end@6:3\n\
    ab$cd$|2|2|9|ReadFault@2:0 ab$@4:1 cd$@6:2 end@6:3\n\
    ab$cd$|2|3|9|ab$@4:1 ReadFault@4:1 cd$@6:2 end@6:3\n\
    ab$cd$|2|4|9|ab$@4:1 cd$@6:2 ReadFault@6:2 end@6:3\n\
    ab$cd$|2|12|9|ReadFault@0:0 ReadFault@0:0 ab$@4:1\n\
    ab$cd$|9|2|6|ab$@6:1 cd$@6:2 ReadFault@6:2 end@6:3\n\
    ab$cd$|9|2|3|ab$@3:1 ReadFault@3:1 TooLong@4:1\n\
    a#$b$|2||9|NotUtf8@4:1 b$@5:2 end@5:3\n\
";

/// The line that a call reads, or what it answers in its place.
fn answer<S: Source>(alloc: Global, reader: &mut Reader<S>) -> Result<String, AllocError> {
    match reader.advance_line() {
        Ok(true) => marked(alloc, reader.current_line()),
        Ok(false) => String::from_str(alloc, "end"),
        Err(why) => match why.into_inner() {
            stream::Error::IoError(fault) => format!(in alloc; "{fault:?}"),
            other => format!(in alloc; "{other:?}"),
        },
    }
}

#[test]
fn pieces_of_each_size_give_the_same_lines(rt: HostRuntime) -> Result<(), Fail> {
    let alloc = rt.alloc();
    for row in LINES.lines() {
        let (input, want) = row.split_once('|').ok_or("no input")?;
        for piece in 1..8 {
            let source = MemSource::new(bytes_of(alloc, input)?, piece, Vec::new(alloc));
            let mut reader = Reader::new(alloc, source, 99);
            for word in want.split(' ') {
                let found = answer(alloc, &mut reader)?;
                assert_eq!(rt; found.as_str(), word, "{input} by {piece}");
            }
        }
    }
    Ok(())
}

/// The row of the reader, which an error about a place tells; 0 where there is none. No word of a row is `true`.
fn row_of<S: Source>(reader: &mut Reader<S>) -> u64 {
    match reader.continue_line::<bool>() {
        Ok(_) => 0,
        Err(why) => why.location().unwrap_or((0, 0)).0,
    }
}

/// What the last of so many calls answers, and the bytes given and the row after it.
fn last_of(
    alloc: Global,
    source: &mut MemSource,
    limit: u64,
    calls: usize,
) -> Result<String, AllocError> {
    let mut reader = Reader::new(alloc, &mut *source, limit);
    for _i in 1..calls {
        let _ = reader.advance_line();
    }
    let found = answer(alloc, &mut reader)?;
    let row = row_of(&mut reader);
    let _ = reader.into_inner();
    format!(in alloc; "{found}@{}:{row}", source.given())
}

#[test]
fn each_call_reads_and_counts_as_told(rt: HostRuntime) -> Result<(), Fail> {
    let alloc = rt.alloc();
    for row in STEPS.lines() {
        let (input, rest) = row.split_once('|').ok_or("no input")?;
        let (piece, rest) = rest.split_once('|').ok_or("no piece")?;
        let (calls, rest) = rest.split_once('|').ok_or("no calls")?;
        let (limit, want) = rest.split_once('|').ok_or("no limit")?;
        let mut calls_made = 0usize;
        for word in want.split(' ') {
            calls_made = calls_made.saturating_add(1);
            let mut failing = Vec::new(alloc);
            for digit in calls.as_bytes() {
                failing.push(u64::from(digit.saturating_sub(b'0')))?;
            }
            let mut source = MemSource::new(bytes_of(alloc, input)?, piece.parse()?, failing);
            let found = last_of(alloc, &mut source, limit.parse()?, calls_made)?;
            assert_eq!(rt; found.as_str(), word, "{row}");
        }
    }
    Ok(())
}

// How long the first line is, how many bytes the source gave after it and after the next, and whether that one waited.
const LONG: [(usize, u64, u64, bool); 3] = [
    (4095, 4096, 4097, false),
    (4096, 4096, 4098, false),
    (4097, 4099, 4099, true),
];

/// The lengths of so many lines, and what the source gave.
fn lengths(alloc: Global, source: &mut MemSource, calls: usize) -> Result<String, AllocError> {
    let mut all = String::new(alloc);
    let mut reader = Reader::new(alloc, &mut *source, 9999);
    for _i in 0..calls {
        let _ = reader.advance_line();
        let line = reader.current_line().len();
        let waits = reader.line_waits();
        all = format!(in alloc; "{all}{line} {waits} ")?;
    }
    let _ = reader.into_inner();
    format!(in alloc; "{all}{}", source.given())
}

// A line as long as a read is read at once, and one byte more takes a second read.
#[test]
fn lines_about_as_long_as_a_read(rt: HostRuntime) -> Result<(), Fail> {
    let alloc = rt.alloc();
    for (len, first, second, waits) in LONG {
        for (calls, given) in [(1, first), (2, second)] {
            let mut bytes = vec![in alloc; b'a'; len.saturating_sub(1)]?;
            bytes.extend_from_slice(b"\nb\n")?;
            let mut source = MemSource::new(bytes, 9999, Vec::new(alloc));
            let found = lengths(alloc, &mut source, calls)?;
            let want = if calls == 1 {
                format!(in alloc; "{len} {waits} {given}")?
            } else {
                format!(in alloc; "{len} {waits} 2 false {given}")?
            };
            assert_eq!(rt; found.as_str(), want.as_str());
        }
    }
    Ok(())
}
