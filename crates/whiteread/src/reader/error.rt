// An error with its place in the input, and the text that shows it.
ghost use Rattle.std.specs.Prelude.{◌≡◌, ◌↔◌, ◌++◌, IsTrue, IfOk, OnOk, replicate, string_bytes};
ghost use Rattle.std.specs.Str.{IsCharBoundary};
ghost use Rattle.whiteread.specs.declared.stream.error.Error.TheVariants.{TooShort, Leftovers, ParseError, IoError};
ghost use Rattle.whiteread.specs.declared.stream.error.Progress.{Progress};
ghost use Rattle.whiteread.specs.declared.stream.error.IoFault.{IoFault};
ghost use Rattle.whiteread.specs.Located.{error_name, is_placed, IsLocated, rule, unplaced};
ghost use Rattle.whiteread.specs.Located.Rendered.{last_of, long_text, mark, rendered, shown, shown_text, under};

use crate::stream;
use crate::stream::{IoFault, Progress};
use std::alloc::{AllocError, Global};
use std::fmt;
use std::marker::Model;

// The longest line that is shown, in bytes.
const LONGEST_SHOWN: usize = 120;

/// Why a value can't be read, with the place in the input, and a text that shows the line.
#[derive(Drop)]
pub struct Error {
    error: stream::Error,
    place: Option<(u64, usize)>,
    rendered: Option<String>,
}

impl Model for Error {
    ghost use Rattle.std.specs.Prelude.{string_bytes};
    ghost use Rattle.std.specs.Option.{option_map};
    ghost use Rattle.whiteread.specs.Located.{Located};

    ghost Value = { Located };

    ghost view = { λ e. record { error = e.error; place = e.place; rendered = option_map string_bytes e.rendered } };
}

pub type Result<T> = std::result::Result<T, Error>;

impl Error {
    // The error at a row, counted from 1, in a line of which so many bytes were passed. Row 0 is before the first line.
    pub(crate) fn new(
        alloc: Global,
        error: stream::Error,
        row: u64,
        passed: usize,
        line: &str,
        cheap: bool,
    ) -> Error
        ensures { IsLocated error row passed line.now cheap result }
    {
        if row == 0 || !has_place(&error) {
            return Error {
                error,
                place: None,
                rendered: None,
            };
        }
        let place = Some((row, passed));
        if cheap {
            return Error {
                error,
                place,
                rendered: None,
            };
        }
        match render(alloc, &error, row, passed, line) {
            Ok(text) => Error {
                error,
                place,
                rendered: Some(text),
            },
            Err(why) => Error::from(why),
        }
    }

    // An error that is about no place in the input.
    pub(crate) fn without_place(error: stream::Error) -> Error
        ensures { result ≡ unplaced error }
    {
        Error {
            error,
            place: None,
            rendered: None,
        }
    }

    /// The error without its place.
    pub fn into_inner(self) -> stream::Error
        ensures { result ≡ self.error }
    {
        self.error
    }

    /// The error without its place.
    pub fn inner(&self) -> &stream::Error
        ensures { result.now ≡ self.now.error }
    {
        &self.error
    }

    /// The row, counted from 1, and how many bytes of the line were passed.
    pub fn location(&self) -> Option<(u64, usize)>
        ensures { result ≡ self.now.place }
    {
        self.place
    }

    pub fn is_too_short(&self) -> bool
        ensures { IsTrue result ↔ ((progress : Progress) × (self.now.error ≡ TooShort progress)) }
    {
        self.error.is_too_short()
    }

    pub fn is_nothing(&self) -> bool
        ensures { IsTrue result ↔ (self.now.error ≡ TooShort Progress.Nothing) }
    {
        self.error.is_nothing()
    }

    pub fn is_partial(&self) -> bool
        ensures { IsTrue result ↔ (self.now.error ≡ TooShort Progress.Partial) }
    {
        self.error.is_partial()
    }

    pub fn is_leftovers(&self) -> bool
        ensures { IsTrue result ↔ (self.now.error ≡ Leftovers) }
    {
        self.error.is_leftovers()
    }

    pub fn is_parse_error(&self) -> bool
        ensures { IsTrue result ↔ (self.now.error ≡ ParseError) }
    {
        self.error.is_parse_error()
    }

    pub fn is_io_error(&self) -> bool
        ensures { IsTrue result ↔ ((fault : IoFault) × (self.now.error ≡ IoError fault)) }
    {
        self.error.is_io_error()
    }
}

impl From<AllocError> for Error {
    ghost use Rattle.whiteread.specs.declared.stream.error.Error.TheVariants.{NoMemory};

    ghost from_gives = { λ _ error. error ≡ unplaced NoMemory };

    fn from(_: AllocError) -> Error {
        Error::without_place(stream::Error::NoMemory)
    }
}

/// It prints the text that shows the line, and as Debug where there is none.
impl fmt::Display for Error {
    ghost use Rattle.std.specs.Prelude.{Some};
    ghost use Rattle.whiteread.specs.Located.{display_text};

    ghost output = { λ e. Some (display_text e) };

    fn fmt<W: fmt::Write>(&self, f: &mut fmt::Formatter<W>) -> fmt::Result {
        match &self.rendered {
            Some(text) => f.write_str(text.as_str()),
            None => write!(f, "{self:?}"),
        }
    }
}

impl fmt::Debug for Error {
    ghost use Rattle.std.specs.Prelude.{Some};
    ghost use Rattle.whiteread.specs.Located.{debug_text};

    ghost debug_output = { λ e. Some (debug_text e) };

    fn fmt<W: fmt::Write>(&self, f: &mut fmt::Formatter<W>) -> fmt::Result {
        let name = name_of(&self.error);
        let (row, col) = self.place.unwrap_or((0, 0));
        let rule = rule_of_tildes();
        match &self.rendered {
            Some(text) => write!(
                f,
                "Error {{ error: {name}, row: {row}, col: {col}, rendered:\n{rule}\n{text}{rule}\n}}"
            ),
            None => write!(f, "Error {{ error: {name}, row: {row}, col: {col}}}"),
        }
    }
}

impl std::error::Error for Error {}

// Whether the error is about a place in the input.
fn has_place(error: &stream::Error) -> bool
    ensures { result ≡ is_placed error.now }
{
    match error {
        stream::Error::TooShort(_) | stream::Error::Leftovers | stream::Error::ParseError => true,
        stream::Error::IoError(_) | stream::Error::NoMemory => false,
    }
}

// The name of the error, as Debug writes it.
fn name_of(error: &stream::Error) -> &'static str
    ensures { result.now ≡ error_name error.now }
{
    match error {
        stream::Error::TooShort(Progress::Nothing) => "TooShort(Nothing)",
        stream::Error::TooShort(Progress::Partial) => "TooShort(Partial)",
        stream::Error::Leftovers => "Leftovers",
        stream::Error::ParseError => "ParseError",
        stream::Error::IoError(IoFault::ReadFault) => "IoError(ReadFault)",
        stream::Error::IoError(IoFault::NotUtf8) => "IoError(NotUtf8)",
        stream::Error::IoError(IoFault::TooLong) => "IoError(TooLong)",
        stream::Error::IoError(IoFault::CannotOpen) => "IoError(CannotOpen)",
        stream::Error::NoMemory => "NoMemory",
    }
}

// What stands above and below the rendered text in Debug.
fn rule_of_tildes() -> &'static str
    ensures { result.now ≡ rule }
{
    "~~~~~~~~~~~~~~~~~~~~~~~~~~~~~~~~~~~~~~~~~~~~~~~~~~~~~~~~~~~~~~~~~~~~~~~~~~~~~~~"
}

// The text that shows where in the line the error stands.
fn render(
    alloc: Global,
    error: &stream::Error,
    row: u64,
    passed: usize,
    line: &str,
) -> std::result::Result<String, AllocError>
    ensures { IfOk result (λ text. string_bytes text ≡ rendered error.now row passed line.now) }
{
    let text = without_line_end(line);
    if text.len() <= LONGEST_SHOWN {
        render_shown(alloc, error, row, passed, text)
    } else {
        render_long(alloc, error, row, passed)
    }
}

// The error, the row and the column, for a line that is too long to be shown.
fn render_long(
    alloc: Global,
    error: &stream::Error,
    row: u64,
    passed: usize,
) -> std::result::Result<String, AllocError>
    ensures { IfOk result (λ out. string_bytes out ≡ long_text error.now row passed) }
{
    let column = passed as u128 + 1;
    format!(in alloc; "{error} at line {row}, column {column}\n")
}

// The error, the row and the line, and below them the mark.
fn render_shown(
    alloc: Global,
    error: &stream::Error,
    row: u64,
    passed: usize,
    text: &str,
) -> std::result::Result<String, AllocError>
    ensures { IfOk result (λ out. string_bytes out ≡ shown_text error.now row passed text.now) }
{
    let number = format!(in alloc; "{row}")?;
    let mut out = format!(in alloc; "{error} at\n{number} | {text}\n")?;
    push_spaces(number.len(), &mut out)?;
    out.push_str("   ")?;
    push_under(&text[..mark_at(error, passed, text)], &mut out)?;
    out.push_str("^\n")?;
    Ok(out)
}

// The line without the line ends at its end.
fn without_line_end(line: &str) -> &str
    ensures { result.now ≡ shown line.now }
{
    let bytes = line.as_bytes();
    let mut end = bytes.len();
    'ends: while end > 0 && (bytes[end - 1] == b'\n' || bytes[end - 1] == b'\r') {
        end -= 1;
    }
    &line[..end]
}

// The place, or one less for an error about a word that was passed.
fn last_before(error: &stream::Error, place: usize) -> usize
    ensures { result ≡ last_of error.now place }
{
    match error {
        stream::Error::ParseError | stream::Error::Leftovers => place.saturating_sub(1),
        stream::Error::TooShort(_) | stream::Error::IoError(_) | stream::Error::NoMemory => place,
    }
}

// Where the mark stands, in bytes of the text.
fn mark_at(error: &stream::Error, passed: usize, text: &str) -> usize
    ensures place { result ≡ mark error.now passed text.now }
    ensures boundary { IsCharBoundary text.now result }
{
    text.floor_char_boundary(last_before(error, passed.min(text.len())))
}

fn push_spaces(count: usize, out: &mut String) -> std::result::Result<(), AllocError>
    ensures { OnOk result (string_bytes out.new ≡ string_bytes out.old ++ replicate count 32) }
{
    'spaces: for i in 0..count {
        let _ = i;
        out.push(' ')?;
    }
    Ok(())
}

// Pushes a space for each character, and the blank characters as they are.
fn push_under(text: &str, out: &mut String) -> std::result::Result<(), AllocError>
    ensures { OnOk result (string_bytes out.new ≡ string_bytes out.old ++ under text.now) }
{
    'characters: for c in text.chars() {
        out.push(if c <= ' ' { c } else { ' ' })?;
    }
    Ok(())
}
