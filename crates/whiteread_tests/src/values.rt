// Values that are read from the words of a source.
use crate::texts::bytes_of;
use edge_io::{FileSource, MemSource, Source};
use std::alloc::{AllocError, Global};
use std::fmt::Debug;
use std::fs;
use std::test::Fail;
use whiteread::reader::{Error, Reader};
use whiteread::{FromStream, parse_file, parse_line, parse_line_from, parse_stdin};

fn reader_of(alloc: Global, text: &str) -> Result<Reader<MemSource>, AllocError> {
    let source = MemSource::new(bytes_of(alloc, text)?, 3, Vec::new(alloc));
    Ok(Reader::new(alloc, source, 99))
}

/// A value or the error, as Debug shows them.
fn shown<T: Debug + Drop>(alloc: Global, answer: Result<T, Error>) -> Result<String, AllocError> {
    match answer {
        Ok(value) => format!(in alloc; "{value:?}"),
        Err(why) => match why.location() {
            Some((row, passed)) => format!(in alloc; "{:?}@{row}:{passed}", why.inner()),
            None => format!(in alloc; "{:?}", why.inner()),
        },
    }
}

/// What the call of this name answers.
fn call<S: Source>(
    alloc: Global,
    reader: &mut Reader<S>,
    name: &str,
) -> Result<String, AllocError> {
    match name {
        "continue" => shown(alloc, reader.continue_::<i32>()),
        "pair" => shown(alloc, reader.continue_::<(i32, i32)>()),
        "parse" => shown(alloc, reader.parse::<i32>()),
        "finish" => shown(alloc, reader.finish::<i32>()),
        "in" => shown(alloc, reader.continue_line::<i32>()),
        "rest" => shown(alloc, reader.finish_line::<i32>()),
        _ => call_for_a_line(alloc, reader, name),
    }
}

/// What the call of this name answers, which reads a new line.
fn call_for_a_line<S: Source>(
    alloc: Global,
    reader: &mut Reader<S>,
    name: &str,
) -> Result<String, AllocError> {
    match name {
        "start" => shown(alloc, reader.start_line::<i32>()),
        "line" => shown(alloc, reader.line::<i32>()),
        "option" => shown(alloc, reader.line::<Option<u8>>()),
        "lend" => shown(alloc, reader.next_line()),
        "advance" => shown(alloc, reader.advance_line()),
        _ => format!(in alloc; "{:?}", reader.current_line()),
    }
}

// An input, and then calls with what they answer.
const CALLS: &str = "\
    1 2$$3 4 5$6 7$8$|lend=\"1 2\\n\";continue=1;pair=(2, 3);in=4;start=6;line=8;parse=TooShort(Nothing)@6:0;\
    line=TooShort(Nothing)@7:0;option=TooShort(Nothing)@8:0;lend=TooShort(Nothing)@9:0\n\
    7$|lend=\"7\\n\";rest=7\n\
    7$|advance=true;current=\"7\\n\";advance=false;current=\"\"\n\
    7$8 x$9$|lend=\"7\\n\";lend=\"8 x\\n\";rest=Leftovers@2:3;lend=\"9\\n\";rest=9\n\
    7$8$9$|lend=\"7\\n\";lend=\"8\\n\";lend=\"9\\n\";lend=TooShort(Nothing)@4:0\n\
    x$|in=TooShort(Nothing);start=ParseError@1:1\n\
    1 2$|finish=Leftovers@1:3\n\
    1$#$|continue=1;finish=IoError(NotUtf8)\n\
";

#[test]
fn calls_take_turns(rt: HostRuntime) -> Result<(), Fail> {
    let alloc = rt.alloc();
    for row in CALLS.lines() {
        let (input, calls) = row.split_once('|').ok_or("no input")?;
        let mut reader = reader_of(alloc, input)?;
        for step in calls.split(';') {
            let (name, want) = step.split_once('=').ok_or("no answer")?;
            let found = call(alloc, &mut reader, name)?;
            assert_eq!(rt; found.as_str(), want, "{row}");
        }
    }
    Ok(())
}

#[test]
fn a_failed_read_is_told(rt: HostRuntime) -> Result<(), Fail> {
    let alloc = rt.alloc();
    let source = MemSource::new(vec![in alloc; b'1'; 1]?, 9, vec![in alloc; 2; 1]?);
    let mut reader = Reader::new(alloc, source, 9);
    let found = shown(alloc, reader.finish::<i32>())?;
    assert_eq!(rt; found.as_str(), "IoError(ReadFault)");
    Ok(())
}

#[test]
fn files_are_read(rt: HostRuntime) -> Result<(), Fail> {
    let alloc = rt.alloc();
    fs::write(&rt, "whiteread_test.txt", "5\n")?;
    let read = parse_file::<i32>(&rt, alloc, "whiteread_test.txt", 9);
    assert_eq!(rt; read.ok(), Some(5));
    let found = match Reader::<FileSource>::open(&rt, alloc, "whiteread_missing.txt", 9) {
        Ok(_) => String::from_str(alloc, "a file")?,
        Err(why) => format!(in alloc; "{}", why.inner())?,
    };
    assert_eq!(rt; found.as_str(), "cannot open");
    Ok(())
}

// Standard input is empty in a test.
#[test]
fn standard_input_is_read(rt: HostRuntime) -> Result<(), Fail> {
    let alloc = rt.alloc();
    let line = shown(alloc, parse_line::<i32>(&rt, alloc, 1))?;
    assert_eq!(rt; line.as_str(), "TooShort(Nothing)@1:0");
    let all = shown(alloc, parse_stdin::<i32>(&rt, alloc, 9))?;
    assert_eq!(rt; all.as_str(), "TooShort(Nothing)@1:0");
    let mut reader = Reader::from_stdin_naive(&rt, alloc, 9);
    assert_eq!(rt; reader.advance_line().ok(), Some(false));
    Ok(())
}

/// What a line that is taken by itself reads as.
fn taken<T: FromStream + Debug>(
    alloc: Global,
    source: &mut MemSource,
) -> Result<String, AllocError> {
    shown(alloc, parse_line_from::<T, MemSource>(alloc, source, 3))
}

#[test]
fn a_line_is_taken_by_itself(rt: HostRuntime) -> Result<(), Fail> {
    let alloc = rt.alloc();
    let mut source = MemSource::new(bytes_of(alloc, "7$x$")?, 9, Vec::new(alloc));
    assert_eq!(rt; taken::<i32>(alloc, &mut source)?.as_str(), "7");
    assert_eq!(rt; source.given(), 2);
    assert_eq!(rt;
        taken::<i32>(alloc, &mut source)?.as_str(),
        "ParseError@3:1"
    );
    Ok(())
}
