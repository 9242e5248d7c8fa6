// Tokens as slices of the input.
ghost use Rattle.std.specs.Prelude.{◌≡◌, ◌+◌, ◌++◌, ◌∷◌, [], ℕ, List, length, map, IfOk, OnOk, string_bytes};
ghost use Rattle.std.specs.Iterator.{at_most};
ghost use Rattle.std.specs.List.{AllByRecursion};
ghost use Rattle.std.specs.Str.{chars};
ghost use Rattle.scan_fmt.specs.Inner.Parts.{directive_of, IsSlice, TakesPieces};
ghost use Rattle.scan_fmt.specs.Scanned.{Token};
ghost use Rattle.scan_fmt.specs.Slices.{piece_text, IsPiece, slices_left, NextSlice};
ghost use Rattle.scan_fmt.specs.Tokens.{ReadsNext};

use crate::directive::Directive;
use crate::field::Pass;
use crate::parse::ReadAs;
use crate::read::{ReadHex, ReadSlice};
use crate::text::skip_blanks;
use numerals::NoMemory;
use std::alloc::Global;
use std::marker::Model;

/// Where a token stands, in bytes of the input.
#[derive(Debug, Clone, Copy, PartialEq)]
pub struct Piece {
    pub start: usize,
    pub end: usize,
}

/// The tokens of a scan, in order, each a slice of the input.
#[derive(Drop)]
pub struct Slices<'a> {
    input: &'a str,
    pieces: Vec<Piece>,
    place: usize,
}

impl<'a> Model for Slices<'a> {
    ghost use Rattle.std.specs.List.{AllByRecursion};
    ghost use Rattle.scan_fmt.specs.Slices.{Sliced};
    ghost use Rattle.scan_fmt.specs.Inner.Parts.{IsSlice};

    ghost Value = { Sliced };

    ghost view = { λ s. record { input = s.input.now; pieces = s.pieces.items; place = s.place } };

    ghost invariant = { λ s. AllByRecursion (IsSlice s.input.now) s.pieces.items };
}

fn slice_at(input: &str, piece: Piece) -> &str
    requires { IsSlice input.now piece }
    ensures { result.now ≡ piece_text input.now piece }
{
    &input[piece.start..piece.end]
}

/// Where the token stands, with what stands behind it.
fn piece_of(input: &str, token: &str, behind: &str) -> Piece
    requires { (front : List ℕ) × (input.now ≡ front ++ (token.now ++ behind.now)) }
    ensures piece { IsPiece input.now result (record { text = chars token.now; behind = chars behind.now }) }
    ensures starts { result.start + (length token.now + length behind.now) ≡ length input.now }
    ensures ends { result.end + length behind.now ≡ length input.now }
{
    let end = input.len() - behind.len();
    let start = end - token.len();
    Piece { start, end }
}

/// One piece more.
fn push_piece(pieces: &mut Vec<Piece>, piece: Piece) -> Result<(), NoMemory>
    ensures { OnOk result (pieces.new.items ≡ pieces.old.items ++ piece ∷ []) }
{
    if pieces.push(piece).is_err() {
        return Err(NoMemory);
    }
    Ok(())
}

/// The answer where the input doesn't fit: one empty piece, where the rest begins.
fn mismatch(alloc: Global, input: &str, rest: &str) -> Result<Vec<Piece>, NoMemory>
    requires { (front : List ℕ) × (input.now ≡ front ++ rest.now) }
    ensures { IfOk result (λ pieces. (p : Piece) × (pieces.items ≡ p ∷ []) × IsPiece input.now p (record { text = []; behind = chars rest.now })) }
{
    let piece = piece_of(input, "", rest);
    let mut pieces = Vec::new(alloc);
    push_piece(&mut pieces, piece)?;
    Ok(pieces)
}

/// The pieces of the tokens that the directives take from the input.
fn take_pieces(
    alloc: Global,
    directives: &[Directive<'_>],
    input: &str,
) -> Result<Vec<Piece>, NoMemory>
    ensures { IfOk result (λ pieces. TakesPieces (map directive_of directives.now) input.now pieces.items) }
{
    let mut pieces = Vec::new(alloc);
    let mut rest = input;
    'directives: for directive in directives {
        let here = skip_blanks(rest);
        if here.is_empty() {
            return Ok(pieces);
        }
        match directive.pass(alloc, here)? {
            Pass::Mismatch => return mismatch(alloc, input, here),
            Pass::Passed(left) => rest = left,
            Pass::Taken {
                token,
                behind,
                rest: left,
            } => {
                let piece = piece_of(input, token, behind);
                push_piece(&mut pieces, piece)?;
                rest = left;
            }
        }
    }
    Ok(pieces)
}

/// The slices of the tokens that the directives take from the input.
pub(crate) fn take_slices<'a>(
    alloc: Global,
    directives: &[Directive<'_>],
    input: &'a str,
) -> Result<Slices<'a>, NoMemory>
    ensures input { IfOk result (λ s. s.input ≡ input.now) }
    ensures pieces { IfOk result (λ s. TakesPieces (map directive_of directives.now) input.now s.pieces) }
    ensures place { IfOk result (λ s. s.place ≡ 0) }
{
    let pieces = take_pieces(alloc, directives, input)?;
    let place = 0;
    Ok(Slices {
        input,
        pieces,
        place,
    })
}

/// One token more.
fn push_token(alloc: Global, tokens: &mut Vec<String>, token: &str) -> Result<(), NoMemory>
    ensures { OnOk result (map string_bytes tokens.new.items ≡ map string_bytes tokens.old.items ++ token.now ∷ []) }
{
    let Ok(text) = String::from_str(alloc, token) else {
        return Err(NoMemory);
    };
    if tokens.push(text).is_err() {
        return Err(NoMemory);
    }
    Ok(())
}

/// Owned copies of the slices.
fn copies(alloc: Global, input: &str, pieces: &[Piece]) -> Result<Vec<String>, NoMemory>
    requires { AllByRecursion (IsSlice input.now) pieces.now }
    ensures { IfOk result (λ tokens. map string_bytes tokens.items ≡ map (piece_text input.now) pieces.now) }
{
    let mut tokens = Vec::new(alloc);
    'pieces: for piece in pieces {
        push_token(alloc, &mut tokens, slice_at(input, *piece))?;
    }
    Ok(tokens)
}

impl<'a> Iterator for Slices<'a> {
    type Item = &'a str;

    ghost next_gives = { NextSlice };

    ghost remaining = { λ s. at_most (length (slices_left s)) };

    fn next(&mut self) -> Option<&'a str> {
        if self.place >= self.pieces.len() {
            return None;
        }
        let piece = self.pieces[self.place];
        self.place += 1;
        Some(slice_at(self.input, piece))
    }
}

impl<'a> Slices<'a> {
    /// The pieces of all tokens, whatever was taken.
    pub fn pieces(&self) -> &[Piece]
        ensures { result.now ≡ self.now.pieces }
    {
        self.pieces.as_slice()
    }

    /// Owned copies of all tokens, whatever was taken.
    pub(crate) fn owned(&self, alloc: Global) -> Result<Vec<String>, NoMemory>
        ensures { IfOk result (λ tokens. map string_bytes tokens.items ≡ map (piece_text self.now.input) self.now.pieces) }
    {
        copies(alloc, self.input, self.pieces.as_slice())
    }

    /// Reads the next token, and passes it. It takes no memory.
    pub fn next_as<T: ReadSlice<'a>>(&mut self) -> Result<T, ReadAs>
        ensures reads { ReadsNext T.reads_slice (slices_left self.old) (slices_left self.new) result }
        ensures input { self.new.input ≡ self.old.input }
        ensures pieces { self.new.pieces ≡ self.old.pieces }
    {
        let Some(token) = Iterator::next(self) else {
            return Err(ReadAs::Missing);
        };
        if token.is_empty() {
            return Err(ReadAs::Empty);
        }
        match T::read_slice(token) {
            Some(value) => Ok(value),
            None => Err(ReadAs::Bad),
        }
    }

    /// Reads the next token in base 16, and passes it. It takes no memory.
    pub fn next_hex<T: ReadHex>(&mut self) -> Result<T, ReadAs>
        ensures reads { ReadsNext T.reads_hex (slices_left self.old) (slices_left self.new) result }
        ensures input { self.new.input ≡ self.old.input }
        ensures pieces { self.new.pieces ≡ self.old.pieces }
    {
        let Some(token) = Iterator::next(self) else {
            return Err(ReadAs::Missing);
        };
        if token.is_empty() {
            return Err(ReadAs::Empty);
        }
        match T::read_hex(token) {
            Some(value) => Ok(value),
            None => Err(ReadAs::Bad),
        }
    }
}
