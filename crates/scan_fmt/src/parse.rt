// The scan, its tokens, and typed readings of them.
ghost use Rattle.std.specs.Prelude.{◌≡◌, ◌++◌, ℕ, List, length, map, IfOk, string_bytes, Some, codes};
ghost use Rattle.std.specs.Iterator.{YieldsFirst, at_most};
ghost use Rattle.std.specs.Str.{chars};
ghost use Rattle.std.specs.Vec.Iter.{into_iter_items};
ghost use Rattle.scan_fmt.specs.Scanned.{Token, Scanned, ScannedTexts};
ghost use Rattle.scan_fmt.specs.Slices.{ScannedPieces};
ghost use Rattle.scan_fmt.specs.Tokens.{texts_left, ReadsNext};

use crate::directive::{Directive, next_directive};
pub use crate::read::{ReadHex, ReadSlice, ReadToken};
use crate::slices::take_slices;
pub use crate::slices::{Piece, Slices};
use numerals::NoMemory;
use std::alloc::Global;
use std::error::Error;
use std::fmt;
use std::marker::Model;
use std::vec::IntoIter;

/// The tokens of a scan, in order.
#[derive(Drop)]
pub struct Tokens {
    tokens: IntoIter<String>,
}

/// Why the next token wasn't read.
#[derive(Debug, PartialEq, Drop)]
pub enum ReadAs {
    /// No token is left.
    Missing,
    /// The token is empty.
    Empty,
    /// The token doesn't read as the type.
    Bad,
}

/// A fault of a scan, as a text.
#[derive(Debug, PartialEq, Drop)]
pub struct ScanError(pub String);

impl fmt::Display for ScanError {
    ghost output = { λ e. Some (codes "Scan error: " ++ string_bytes e.0) };

    fn fmt<W: fmt::Write>(&self, f: &mut fmt::Formatter<W>) -> fmt::Result {
        write!(f, "Scan error: {}", self.0)
    }
}

impl Error for ScanError {}

impl Iterator for Tokens {
    type Item = String;

    ghost next_gives = { YieldsFirst (λ t. into_iter_items t.tokens) };

    ghost remaining = { λ t. at_most (length (into_iter_items t.tokens)) };

    fn next(&mut self) -> Option<String> {
        self.tokens.next()
    }
}

impl Tokens {
    /// Reads the next token, and passes it. It takes no memory.
    pub fn next_as<T: ReadToken>(&mut self) -> Result<T, ReadAs>
        ensures { ReadsNext T.reads (texts_left self.old) (texts_left self.new) result }
    {
        let Some(token) = self.tokens.next() else {
            return Err(ReadAs::Missing);
        };
        if token.is_empty() {
            return Err(ReadAs::Empty);
        }
        match T::read_token(token) {
            Some(value) => Ok(value),
            None => Err(ReadAs::Bad),
        }
    }

    /// Reads the next token in base 16, and passes it. It takes no memory.
    pub fn next_hex<T: ReadHex>(&mut self) -> Result<T, ReadAs>
        ensures { ReadsNext T.reads_hex (texts_left self.old) (texts_left self.new) result }
    {
        let Some(token) = self.tokens.next() else {
            return Err(ReadAs::Missing);
        };
        if token.is_empty() {
            return Err(ReadAs::Empty);
        }
        match T::read_hex(token.as_str()) {
            Some(value) => Ok(value),
            None => Err(ReadAs::Bad),
        }
    }
}

/// A format that is cut once, for the scans of many inputs.
#[derive(Drop)]
pub struct Format<'f> {
    text: &'f str,
    directives: Vec<Directive<'f>>,
}

impl<'f> Model for Format<'f> {
    ghost use Rattle.std.specs.Prelude.{ℕ, List, map};
    ghost use Rattle.std.specs.Str.{chars};
    ghost use Rattle.scan_fmt.specs.Grammar.{Cuts};
    ghost use Rattle.scan_fmt.specs.Inner.Parts.{directive_of};

    ghost Value = { List ℕ };

    ghost view = { λ f. chars f.text.now };

    ghost invariant = { λ f. Cuts (chars f.text.now) (map directive_of f.directives.items) };
}

impl<'f> Format<'f> {
    /// Cuts the format into its directives, up to its end or to the first field that is malformed or whose pattern `regex`
    /// doesn't read. Each pattern is built here, and one past the limit of `regex` on size counts as want of memory.
    pub fn new(alloc: Global, format: &'f str) -> Result<Format<'f>, NoMemory>
        ensures { IfOk result (λ f. f ≡ chars format.now) }
    {
        let mut directives = Vec::new(alloc);
        let mut rest = format;
        'cut: while let Some((directive, more)) = next_directive(alloc, rest)? {
            if directives.push(directive).is_err() {
                return Err(NoMemory);
            }
            rest = more;
        }
        let text = format;
        Ok(Format { text, directives })
    }

    /// The tokens that the format takes from the input, as slices of it.
    pub fn scan_slices<'a>(&self, alloc: Global, input: &'a str) -> Result<Slices<'a>, NoMemory>
        ensures input { IfOk result (λ s. s.input ≡ input.now) }
        ensures pieces { IfOk result (λ s. ScannedPieces input.now self.now s.pieces) }
        ensures place { IfOk result (λ s. s.place ≡ 0) }
    {
        take_slices(alloc, self.directives.as_slice(), input)
    }

    /// The tokens that the format takes from the input.
    pub fn scan(&self, alloc: Global, input: &str) -> Result<Tokens, NoMemory>
        ensures { IfOk result (λ t. ScannedTexts (chars input.now) self.now (map chars (texts_left t))) }
    {
        let slices = self.scan_slices(alloc, input)?;
        let tokens = slices.owned(alloc)?;
        let tokens = tokens.into_iter();
        Ok(Tokens { tokens })
    }
}

/// The tokens that the format takes from the input.
pub fn scan(alloc: Global, input: &str, format: &str) -> Result<Tokens, NoMemory>
    ensures { IfOk result (λ t. ScannedTexts (chars input.now) (chars format.now) (map chars (texts_left t))) }
{
    let format = Format::new(alloc, format)?;
    format.scan(alloc, input)
}

/// The tokens that the format takes from the input, as slices of it.
pub fn scan_slices<'a>(alloc: Global, input: &'a str, format: &str) -> Result<Slices<'a>, NoMemory>
    ensures input { IfOk result (λ s. s.input ≡ input.now) }
    ensures pieces { IfOk result (λ s. ScannedPieces input.now (chars format.now) s.pieces) }
    ensures place { IfOk result (λ s. s.place ≡ 0) }
{
    let format = Format::new(alloc, format)?;
    format.scan_slices(alloc, input)
}

/// Over one input, one format gives one list of tokens.
pub fn one_answer()
    ensures { (input format : List ℕ) (a b : List Token) → Scanned input format a → Scanned input format b → a ≡ b }
{}

/// Each format gives a list of tokens over each input.
pub fn some_answer()
    ensures { (input format : List ℕ) → (tokens : List Token) × Scanned input format tokens }
{}
