// Errors with their places, and what they print: worked rows, and answers of the original crate.
use crate::texts::{bytes_of, marked};
use edge_io::MemSource;
use std::alloc::Global;
use std::test::Fail;
use whiteread::adapters::{Skip, WithCheapError};
use whiteread::reader::{Error, Reader};
use whiteread::{FromStream, parse_line_from};

// What is read, the row, the line, the passed bytes, and the text. A number is read by a call of `line`, and `end`
// passes two words and then finds none.
const RENDERED: &str = "\
number;1;x1;2;parse error occured at$1 | x1$     ^$\n\
number;1;\tx1;3;parse error occured at$1 | \tx1$    \t ^$\n\
number;1;x1%$;2;parse error occured at$1 | x1$     ^$\n\
number;1;x1%%$;2;parse error occured at$1 | x1$     ^$\n\
pair;1;1\tx1;4;parse error occured at$1 | 1\tx1$     \t ^$\n\
number;1;\x01x1;3;parse error occured at$1 | \x01x1$    \x01 ^$\n\
pair;1;1 é;4;parse error occured at$1 | 1 é$      ^$\n\
number;1;1 中中;8;excessive input provided at$1 | 1 中中$       ^$\n\
end;1;1 中中$;9;not enough input to start parsing a value at$1 | 1 中中$        ^$\n\
number;1;1 2é;5;excessive input provided at$1 | 1 2é$       ^$\n\
number;1;1 é2;5;excessive input provided at$1 | 1 é2$       ^$\n\
end;1;1 é2%$;7;not enough input to start parsing a value at$1 | 1 é2$        ^$\n\
pair;1;2$;2;not enough input to finish parsing a value at$1 | 2$     ^$\n\
number;1;aaaaaaaaaaaaaaaaaaaaaaaaaaaaaaaaaaaaaaaaaaaaaaaaaaaaaaaaaaaaaaaaaaaaaaaaaaaaaaaaaaaaaaaaaaaaaaaaaaaaaaaaaaaaaaaaaaaaaaaa;120;parse error occured at$1 | aaaaaaaaaaaaaaaaaaaaaaaaaaaaaaaaaaaaaaaaaaaaaaaaaaaaaaaaaaaaaaaaaaaaaaaaaaaaaaaaaaaaaaaaaaaaaaaaaaaaaaaaaaaaaaaaaaaaaaaa$                                                                                                                           ^$\n\
pair;1;1 x                                                                                                                   end;3;parse error occured at line 1, column 4$\n\
number;1;ééééééééééééééééééééééééééééééééééééééééééééééééééééééééééééx$;121;parse error occured at line 1, column 122$\n\
pair;10;1 x;3;parse error occured at$10 | 1 x$       ^$\n\
number;100;;0;not enough input to start parsing a value at$100 | $      ^$\n\
number;1;42 aaa;6;excessive input provided at$1 | 42 aaa$         ^$";

/// The error of reading a value from a line that is taken by itself.
fn refused<T: FromStream>(alloc: Global, line: Vec<u8>, row: u64) -> Result<Error, Fail> {
    let mut source = MemSource::new(line, 9, Vec::new(alloc));
    match parse_line_from::<T, MemSource>(alloc, &mut source, row) {
        Ok(_) => Err(Fail::from("a value")),
        Err(why) => Ok(why),
    }
}

/// The error of reading a number where two words of a first line were passed.
fn at_the_end(alloc: Global, line: Vec<u8>) -> Result<Error, Fail> {
    let mut reader = Reader::new(alloc, MemSource::new(line, 9, Vec::new(alloc)), 999);
    let _ = reader.start_line::<(Skip, Skip)>();
    match reader.continue_line::<i32>() {
        Ok(_) => Err(Fail::from("a value")),
        Err(why) => Ok(why),
    }
}

#[test]
fn shows_the_place(rt: HostRuntime) -> Result<(), Fail> {
    let alloc = rt.alloc();
    for case in RENDERED.lines() {
        let mut fields = case.split(';');
        let what = fields.next().unwrap_or("");
        let row = fields.next().unwrap_or("").parse()?;
        let line = bytes_of(alloc, fields.next().unwrap_or(""))?;
        let passed = fields.next().unwrap_or("").parse()?;
        let error = match what {
            "number" => refused::<i32>(alloc, line, row)?,
            "pair" => refused::<(i32, i32)>(alloc, line, row)?,
            _ => at_the_end(alloc, line)?,
        };
        assert_eq!(rt; error.location(), Some((row, passed)), "{case}");
        let shown = marked(alloc, format!(in alloc; "{error}")?.as_str())?;
        assert_eq!(rt; Some(shown.as_str()), fields.next(), "{case}");
    }
    Ok(())
}

// Where there is no text, Display prints what Debug does; a cheap error has its place.
#[test]
fn shows_no_text(rt: HostRuntime) -> Result<(), Fail> {
    let alloc = rt.alloc();
    let cheap = refused::<WithCheapError<u8>>(alloc, bytes_of(alloc, "x y$")?, 1)?;
    assert_eq!(rt; cheap.location(), Some((1, 1)));
    assert_eq!(rt;
        format!(in alloc; "{cheap}")?.as_str(),
        "Error { error: ParseError, row: 1, col: 1}"
    );
    let unread = refused::<u8>(alloc, Vec::new(alloc), 0)?;
    assert_eq!(rt; unread.location(), None);
    assert_eq!(rt;
        format!(in alloc; "{unread}")?.as_str(),
        "Error { error: TooShort(Nothing), row: 0, col: 0}"
    );
    let faulty = refused::<u8>(alloc, bytes_of(alloc, "#$")?, 2)?;
    assert_eq!(rt; faulty.location(), None);
    assert_eq!(rt;
        format!(in alloc; "{faulty:?}")?.as_str(),
        "Error { error: IoError(NotUtf8), row: 0, col: 0}"
    );
    assert_eq!(rt;
        format!(in alloc; "{}", faulty.inner())?.as_str(),
        "not UTF-8"
    );
    Ok(())
}

const FRAMED: &str = "\
Error { error: TooShort(Nothing), row: 1, col: 0, rendered:
~~~~~~~~~~~~~~~~~~~~~~~~~~~~~~~~~~~~~~~~~~~~~~~~~~~~~~~~~~~~~~~~~~~~~~~~~~~~~~~
not enough input to start parsing a value at
1 | \n    ^
~~~~~~~~~~~~~~~~~~~~~~~~~~~~~~~~~~~~~~~~~~~~~~~~~~~~~~~~~~~~~~~~~~~~~~~~~~~~~~~
}";

#[test]
fn debug_frames_the_text(rt: HostRuntime) -> Result<(), Fail> {
    let alloc = rt.alloc();
    let error = refused::<u8>(alloc, Vec::new(alloc), 1)?;
    assert_eq!(rt; format!(in alloc; "{error:?}")?.as_str(), FRAMED);
    assert!(rt; error.is_nothing() && error.is_too_short() && !error.is_partial());
    assert!(rt; !error.is_leftovers() && !error.is_parse_error() && !error.is_io_error());
    assert!(rt; error.into_inner().is_nothing());
    Ok(())
}
