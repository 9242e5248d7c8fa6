// What each type reads of a text: worked rows, answers of the original crate, and each type at its ends.
use std::alloc::{AllocError, Global};
use std::fmt::Debug;
use std::process::Abort;
use std::test::Fail;
use whiteread::adapters::{Lengthed, Skip, SkipAll, WithCheapError, Zeroed};
use whiteread::stream::{Error, IoFault, Progress, SplitAsciiWhitespace, StrExt, StrStream};
use whiteread::{FromStream, parse_string};

/// The value that a text is read as, or the error, as Debug shows them.
fn shown<T: FromStream + Debug>(alloc: Global, text: &str) -> Result<String, AllocError> {
    match parse_string::<T>(alloc, text) {
        Ok(value) => format!(in alloc; "{value:?}"),
        Err(why) => format!(in alloc; "{why:?}"),
    }
}

/// Reads each row, apart by `;`: a text, `|`, and what is shown.
fn reads<T: FromStream + Debug>(rt: &impl Abort, alloc: Global, rows: &str) -> Result<(), Fail> {
    for row in rows.split(';') {
        let (text, want) = row.split_once('|').ok_or("no text")?;
        let found = shown::<T>(alloc, text)?;
        assert_eq!(rt; found.as_str(), want, "{row}");
    }
    Ok(())
}

const U8: &str = "0|0;255|255;256|ParseError;+255|255;-1|ParseError;+|ParseError";

const U16: &str = "0|0;65535|65535;65536|ParseError";

const U32: &str = "0|0;4294967295|4294967295;4294967296|ParseError";

const U64: &str = "0|0;18446744073709551615|18446744073709551615;18446744073709551616|ParseError";

#[test]
fn unsigned_numbers_end_where_their_types_do(rt: HostRuntime) -> Result<(), Fail> {
    let alloc = rt.alloc();
    reads::<u8>(&rt, alloc, U8)?;
    reads::<u16>(&rt, alloc, U16)?;
    reads::<u32>(&rt, alloc, U32)?;
    reads::<u64>(&rt, alloc, U64)?;
    reads::<usize>(&rt, alloc, U64)
}

const I8: &str =
    "-128|-128;127|127;-129|ParseError;128|ParseError;+127|127;-0|0;-|ParseError;seven|ParseError";

const I16: &str = "-32768|-32768;32767|32767;-32769|ParseError;32768|ParseError";

const I32: &str =
    "-2147483648|-2147483648;2147483647|2147483647;-2147483649|ParseError;2147483648|ParseError";

const I64: &str =
    "-9223372036854775808|-9223372036854775808;9223372036854775807|9223372036854775807;\
    -9223372036854775809|ParseError;9223372036854775808|ParseError";

#[test]
fn signed_numbers_end_where_their_types_do(rt: HostRuntime) -> Result<(), Fail> {
    let alloc = rt.alloc();
    reads::<i8>(&rt, alloc, I8)?;
    reads::<i16>(&rt, alloc, I16)?;
    reads::<i32>(&rt, alloc, I32)?;
    reads::<i64>(&rt, alloc, I64)?;
    reads::<isize>(&rt, alloc, I64)
}

const BOOL: &str = "|TooShort(Nothing);true|true;false|false;\n\t true \x0b|true;x|ParseError;\
    True|ParseError;true more|Leftovers";

const CHAR: &str = "|TooShort(Nothing);é|'é';xy|'x';é more|Leftovers;x y z|Leftovers";

const TEXT: &str = "|TooShort(Nothing);\n\t né \x0b|\"né\";né more|Leftovers";

const PAIR: &str = "|None;0255 255|Some((255, 255));0255|TooShort(Partial);0255 x|ParseError;\
    0255 255 more|Leftovers";

const PAIRS: &str = "|[];0255 255 +12 0255|[(255, 255), (12, 255)];0255 255 +12|TooShort(Partial);\
    0255 255 +12 0255 more|ParseError";

#[test]
fn words_options_and_lists(rt: HostRuntime) -> Result<(), Fail> {
    let alloc = rt.alloc();
    reads::<bool>(&rt, alloc, BOOL)?;
    reads::<char>(&rt, alloc, CHAR)?;
    reads::<String>(&rt, alloc, TEXT)?;
    reads::<()>(&rt, alloc, "|();more|Leftovers")?;
    reads::<Option<(u8, u8)>>(&rt, alloc, PAIR)?;
    reads::<Vec<(u8, u8)>>(&rt, alloc, PAIRS)?;
    reads::<Vec<i32>>(&rt, alloc, "2 1 3 4|[2, 1, 3, 4]")
}

const ONE: &str = "|TooShort(Nothing);+5|(5,);x|ParseError;+5 more|Leftovers";

const MIXED: &str =
    "|TooShort(Nothing);12 0255 all left 9|(\"12\", 255, SkipAll);12|TooShort(Partial);\
    12 x|ParseError";

const SIX: &str = "|TooShort(Nothing);+12 0255 255 7 +12 0255|(12, 255, 255, 7, 12, 255);\
    +12 0255 255 7 +12|TooShort(Partial);+12 0255 255 7 +12 0255 more|Leftovers";

#[test]
fn tuples(rt: HostRuntime) -> Result<(), Fail> {
    let alloc = rt.alloc();
    reads::<(i32,)>(&rt, alloc, ONE)?;
    reads::<((), i32)>(&rt, alloc, "|TooShort(Partial)")?;
    reads::<((i32, i32), Option<i32>)>(&rt, alloc, "2 1 3|((2, 1), Some(3))")?;
    reads::<(String, u8, SkipAll)>(&rt, alloc, MIXED)?;
    reads::<(u8, u8, u8, u8)>(&rt, alloc, "1 2 3 4|(1, 2, 3, 4)")?;
    reads::<(u8, u8, u8, u8, u8)>(&rt, alloc, "1 2 3 4|TooShort(Partial)")?;
    reads::<(u8, u8, u8, u8, u8, u8)>(&rt, alloc, SIX)
}

const LENGTHED: &str = "|TooShort(Nothing);0|Lengthed([]);2 +12 0255|Lengthed([12, 255]);\
    2 +12|TooShort(Partial);x +12|ParseError;2 +12 x|ParseError;2 +12 0255 more|Leftovers;\
    18446744073709551615 1|TooShort(Partial);3 5 6 7|Lengthed([5, 6, 7])";

const ZEROED: &str = "|TooShort(Nothing);0|Zeroed([]);+12 0255 0|Zeroed([12, 255]);\
    +12 0255|TooShort(Partial);+12 x|ParseError;+12 0255 0 more|Leftovers";

const NESTED: &str =
    "2 a né 2 b né 0|Zeroed([Lengthed([\"a\", \"né\"]), Lengthed([\"b\", \"né\"])]);\
    2 a né x|ParseError";

const BEFORE_A_TEXT: &str = "20 21 22 0 foo|(Zeroed([20, 21, 22]), \"foo\")";

const CHEAP: &str = "|TooShort(Nothing);+5|WithCheapError(5)";

#[test]
fn adapters(rt: HostRuntime) -> Result<(), Fail> {
    let alloc = rt.alloc();
    reads::<Skip>(&rt, alloc, "|Skip;skip|Skip;skip more|Leftovers")?;
    reads::<SkipAll>(&rt, alloc, "|SkipAll;all left 9 more|SkipAll")?;
    reads::<Lengthed<u8>>(&rt, alloc, LENGTHED)?;
    reads::<Zeroed<u8>>(&rt, alloc, ZEROED)?;
    reads::<Zeroed<Lengthed<String>>>(&rt, alloc, NESTED)?;
    reads::<(Zeroed<u8>, String)>(&rt, alloc, BEFORE_A_TEXT)?;
    reads::<WithCheapError<i32>>(&rt, alloc, CHEAP)
}

/// A text and a position, and then what `position` says at once, the word after it, and what `position` says after that.
const POSITIONS: &str =
    " é b|0|0 é 3; é b|1|1 é 3; é b|2|3 b 5; é b|4|4 b 5; é b|5|5 - 5; é b|6|6 - 6;\
    \u{9}a\n\tb\x01|1|1 a 2;a\n\tb\x01|1|1 b 4;a\n\tb\x01|4|4 - 5;a\n\tb\x01|6|6 - 6;|0|0 - 0;|2|2 - 2;\
    中|0|0 中 3;中|1|3 - 3;中|2|3 - 3;中|4|4 - 4;é x|1|2 x 4";

#[test]
fn positions(rt: HostRuntime) -> Result<(), Fail> {
    let alloc = rt.alloc();
    for row in POSITIONS.split(';') {
        let (text, rest) = row.split_once('|').ok_or("no text")?;
        let (from, want) = rest.split_once('|').ok_or("no position")?;
        let mut words = SplitAsciiWhitespace::from_parts(text, from.parse()?);
        let first = words.position();
        let word = Iterator::next(&mut words).unwrap_or("-");
        let found = format!(in alloc; "{first} {word} {}", words.position())?;
        assert_eq!(rt; found.as_str(), want, "{row}");
    }
    Ok(())
}

/// What a stream reads as an i32, and then the words left.
fn left<I: StrStream>(alloc: Global, it: &mut I) -> Result<String, AllocError> {
    let mut all = match i32::read(alloc, it) {
        Ok(value) => format!(in alloc; "{value:?}")?,
        Err(why) => format!(in alloc; "{why:?}")?,
    };
    for _i in 0..9 {
        let Ok(Some(word)) = it.next() else {
            return Ok(all);
        };
        all.push_str(" =")?;
        all.push_str(word)?;
    }
    Ok(all)
}

/// A text, and what is left of it after a number, of the words between bytes of at most 0x20 and between white space.
const LEFT: &str = "1 2 x 4|1 =2 =x =4|1 =2 =x =4;5\u{a0}6 7|ParseError =7|5 =6 =7;\
     a é b |ParseError =é =b|ParseError =é =b";

#[test]
fn words_left(rt: HostRuntime) -> Result<(), Fail> {
    let alloc = rt.alloc();
    for row in LEFT.split(';') {
        let (text, rest) = row.split_once('|').ok_or("no text")?;
        let (ascii, white) = rest.split_once('|').ok_or("no words")?;
        let found = left(alloc, &mut StrExt::split_ascii_whitespace(&text))?;
        assert_eq!(rt; found.as_str(), ascii, "{row}");
        let found = left(alloc, &mut text.split_whitespace())?;
        assert_eq!(rt; found.as_str(), white, "{row}");
    }
    Ok(())
}

/// What Display and Debug print of an error, and which of the tests hold of it.
fn print_and_tests(alloc: Global, error: &Error) -> Result<String, AllocError> {
    let mut all = format!(in alloc; "{error}|{error:?}")?;
    for (name, holds) in [
        (" short", error.is_too_short()),
        (" nothing", error.is_nothing()),
        (" partial", error.is_partial()),
        (" leftovers", error.is_leftovers()),
        (" parse", error.is_parse_error()),
        (" io", error.is_io_error()),
    ] {
        if holds {
            all.push_str(name)?;
        }
    }
    Ok(all)
}

/// What each error prints, and which tests hold of it.
const ERRORS: &str = "\
    not enough input to start parsing a value|TooShort(Nothing) short nothing\n\
    not enough input to finish parsing a value|TooShort(Partial) short partial\n\
    excessive input provided|Leftovers leftovers\n\
    parse error occured|ParseError parse\n\
    read fault|IoError(ReadFault) io\n\
    not UTF-8|IoError(NotUtf8) io\n\
    past the limit|IoError(TooLong) io\n\
    cannot open|IoError(CannotOpen) io\n\
    no memory|NoMemory";

#[test]
fn errors_print(rt: HostRuntime) -> Result<(), Fail> {
    let alloc = rt.alloc();
    let errors = [
        Error::TooShort(Progress::Nothing),
        Error::TooShort(Progress::Partial),
        Error::Leftovers,
        Error::ParseError,
        Error::IoError(IoFault::ReadFault),
        Error::IoError(IoFault::NotUtf8),
        Error::IoError(IoFault::TooLong),
        Error::IoError(IoFault::CannotOpen),
        Error::NoMemory,
    ];
    for (error, want) in errors.iter().zip(ERRORS.lines()) {
        let found = print_and_tests(alloc, error)?;
        assert_eq!(rt; found.as_str(), want);
    }
    Ok(())
}
