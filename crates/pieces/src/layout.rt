// Literal texts and values in turn, and the text that they make over a row.
ghost use Rattle.std.specs.Prelude.{◌≡◌, ◌++◌, ◌<◌, false, IfSome, IsSome, IsTrue, OnErr, OnOk, length, option_copied, slice_get, string_bytes};
ghost use Rattle.numerals.specs.Numeral.{numeral};
ghost use Rattle.formatx.specs.Values.{decimal_of};
ghost use Rattle.pieces.specs.Inner.Layout.{AreTokensOfSome, Grows, IsEmpty, IsTokenOfSome, Starts, form_of, layout_text, part_text, text_where, token_text, without_plus};
ghost use Rattle.pieces.specs.Inner.Sound.{HasForm};

use crate::source::{Source, append_printed, is_same_field};
use itoa::Buffer;
use numerals::{NoMemory, numeral_is_std};
use sprintf::ConversionSpecifier;
use std::alloc::{AllocError, Global};
use std::marker::Model;
use std::mem;
use tokens::Token;
use values::Kind;

/// Appends a number in decimal.
fn append_number(number: u64, out: &mut String) -> Result<(), AllocError>
    ensures ok { OnOk result (string_bytes out.new ≡ string_bytes out.old ++ numeral 10 false number) }
    ensures unchanged { OnErr result (string_bytes out.new ≡ string_bytes out.old) }
{
    // The numeral in base ten is what std writes, and so does `itoa`.
    numeral_is_std();
    let mut buffer = Buffer::new();
    out.push_str(buffer.format(number))
}

/// Appends a number in decimal, with its sign if it is negative.
fn append_signed(number: i64, out: &mut String) -> Result<(), AllocError>
    ensures ok { OnOk result (string_bytes out.new ≡ string_bytes out.old ++ decimal_of number) }
    ensures unchanged { OnErr result (string_bytes out.new ≡ string_bytes out.old) }
{
    numeral_is_std();
    let mut buffer = Buffer::new();
    out.push_str(buffer.format(number))
}

/// Appends literal text. Most literal texts are empty or one character, and then nothing is copied.
#[inline(always)]
fn append_literal(text: &str, out: &mut String) -> Result<(), AllocError>
    ensures ok { OnOk result (string_bytes out.new ≡ string_bytes out.old ++ text.now) }
    ensures unchanged { OnErr result (string_bytes out.new ≡ string_bytes out.old) }
{
    match text.as_bytes() {
        [] => Ok(()),
        [byte @ 0..=127] => out.push(char::from(*byte)),
        _ => out.push_str(text),
    }
}

/// The text without the plus sign in front, if it has one.
#[inline(always)]
fn without_plus(text: &str) -> &str
    ensures { result.now ≡ without_plus text.now }
{
    match text.as_bytes() {
        [b'+', ..] => &text[1..],
        _ => text,
    }
}

/// How a value of a row is printed.
#[derive(Clone, Copy)]
pub(crate) enum Form {
    /// A number without a sign, in decimal.
    Number,
    /// A number with a sign, in decimal.
    Signed,
    /// As it stands in the row.
    Copied,
    /// As it stands in the row, without the plus sign in front.
    WithoutPlus,
    /// As a field of printf prints what it takes from the token.
    Field {
        source: Source,
        field: ConversionSpecifier,
    },
}

impl Form {
    /// How the values of a kind are printed; a character has no form.
    pub(crate) fn of(kind: Kind) -> Option<Form>
        ensures { result ≡ form_of kind }
    {
        match kind {
            Kind::U8 | Kind::U16 | Kind::U32 | Kind::U64 | Kind::Usize => Some(Form::Number),
            Kind::I8 | Kind::I16 | Kind::I32 | Kind::I64 | Kind::Isize => Some(Form::Signed),
            Kind::Word => Some(Form::Copied),
            Kind::Char => None,
        }
    }

    /// Whether both forms are the same.
    pub(crate) fn is_same(&self, other: &Form) -> bool
        ensures { IsTrue result → self.now ≡ other.now }
    {
        match self {
            Form::Number => matches!(other, Form::Number),
            Form::Signed => matches!(other, Form::Signed),
            Form::Copied => matches!(other, Form::Copied),
            Form::WithoutPlus => matches!(other, Form::WithoutPlus),
            Form::Field { source, field } => match other {
                Form::Field {
                    source: other_source,
                    field: other_field,
                } => source == other_source && is_same_field(field, other_field),
                _ => false,
            },
        }
    }

    /// Appends the text of a token.
    fn append(&self, row: &str, token: &Token, out: &mut String) -> Result<(), AllocError>
        requires token { IsTokenOfSome row.now token.now }
        ensures ok { OnOk result (string_bytes out.new ≡ string_bytes out.old ++ token_text self.now row.now token.now) }
        ensures unchanged { OnErr result (string_bytes out.new ≡ string_bytes out.old) }
    {
        match self {
            Form::Number => append_number(token.number, out),
            Form::Signed => append_signed(token.number.cast_signed(), out),
            Form::Copied => out.push_str(&row[token.start..token.end]),
            Form::WithoutPlus => out.push_str(without_plus(&row[token.start..token.end])),
            Form::Field { source, field } => append_printed(&source.value(row, token), field, out),
        }
    }

    /// Appends the text of a token, if there is one.
    fn append_where(
        &self,
        row: &str,
        token: Option<&Token>,
        out: &mut String,
    ) -> Result<(), AllocError>
        requires token { IfSome (option_copied token) (IsTokenOfSome row.now) }
        ensures ok { OnOk result (string_bytes out.new ≡ string_bytes out.old ++ text_where self.now row.now (option_copied token.entry)) }
        ensures unchanged { OnErr result (string_bytes out.new ≡ string_bytes out.old) }
    {
        match token {
            Some(token) => self.append(row, token, out),
            None => Ok(()),
        }
    }
}

/// The token at a place.
fn token_at(tokens: &[Token], place: usize) -> Option<&Token>
    ensures { option_copied result ≡ slice_get tokens.now place }
{
    tokens.get(place)
}

/// Literal text, and behind it the value that has this place among the tokens.
#[derive(Drop)]
pub(crate) struct Piece {
    pub(crate) before: String,
    pub(crate) form: Form,
    pub(crate) place: usize,
}

impl Model for Piece {
    ghost use Rattle.std.specs.Prelude.{string_bytes};
    ghost use Rattle.pieces.specs.Inner.Layout.{Part};

    ghost Value = { Part };

    ghost view = { λ it. record { before = string_bytes it.before; form = it.form; place = it.place } };
}

impl Piece {
    /// Appends the text over a row; where there is no memory, a front of it.
    fn append(&self, row: &str, tokens: &[Token], out: &mut String) -> Result<(), AllocError>
        requires tokens { AreTokensOfSome row.now tokens.now }
        ensures ok { OnOk result (string_bytes out.new ≡ string_bytes out.old ++ part_text self.now row.now tokens.now) }
        ensures front { Starts (string_bytes out.old) (string_bytes out.new) }
    {
        append_literal(self.before.as_str(), out)?;
        let token = token_at(tokens, self.place);
        self.form.append_where(row, token, out)
    }
}

/// Pieces in order, and the literal text behind the last of them.
#[derive(Drop)]
pub(crate) struct Layout {
    pub(crate) pieces: Vec<Piece>,
    pub(crate) tail: String,
}

impl Model for Layout {
    ghost use Rattle.std.specs.Prelude.{string_bytes};
    ghost use Rattle.pieces.specs.Inner.Layout.{Parts};

    ghost Value = { Parts };

    ghost view = { λ it. record { parts = it.pieces.items; tail = string_bytes it.tail } };
}

impl Layout {
    /// A layout whose text is empty.
    pub(crate) fn new(alloc: Global) -> Layout
        ensures { IsEmpty result }
    {
        Layout {
            pieces: Vec::new(alloc),
            tail: String::new(alloc),
        }
    }

    /// Appends literal text.
    pub(crate) fn push_text(&mut self, text: &str) -> Result<(), NoMemory>
        ensures { OnOk result (Grows self.old self.new (λ row tokens. text.now)) }
    {
        match self.tail.push_str(text) {
            Ok(()) => Ok(()),
            Err(_) => Err(NoMemory),
        }
    }

    /// Appends the value at this place.
    pub(crate) fn push_value(
        &mut self,
        alloc: Global,
        form: Form,
        place: usize,
    ) -> Result<(), NoMemory>
        ensures { OnOk result (Grows self.old self.new (λ row tokens. text_where form row (slice_get tokens place))) }
    {
        let before = mem::replace(&mut self.tail, String::new(alloc));
        let piece = Piece {
            before,
            form,
            place,
        };
        if self.pieces.push(piece).is_err() {
            return Err(NoMemory);
        }
        Ok(())
    }

    /// Appends the text over a row; where there is no memory, a front of it.
    pub(crate) fn append(
        &self,
        row: &str,
        tokens: &[Token],
        out: &mut String,
    ) -> Result<(), AllocError>
        requires tokens { AreTokensOfSome row.now tokens.now }
        ensures ok { OnOk result (string_bytes out.new ≡ string_bytes out.old ++ layout_text self.now row.now tokens.now) }
        ensures front { Starts (string_bytes out.old) (string_bytes out.new) }
    {
        'pieces: for piece in &self.pieces {
            piece.append(row, tokens, out)?;
        }
        append_literal(self.tail.as_str(), out)
    }
}

/// How the value at a place is printed, by its kind.
pub(crate) fn form_at(kinds: &[Kind], place: usize) -> Option<Form>
    ensures form { IfSome result (HasForm kinds.now place) }
    ensures within { IsSome result → place < length kinds.now }
{
    if place < kinds.len() {
        Form::of(kinds[place])
    } else {
        None
    }
}
