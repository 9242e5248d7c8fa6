// Values that the rows of a format have as they are printed, and that are copied from there.
ghost use Rattle.std.specs.Prelude.{◌≡◌, IfOk, IsTrue};
ghost use Rattle.pieces.specs.declared.layout.Form.TheVariants.{Copied, Signed, WithoutPlus};
ghost use Rattle.pieces.specs.Inner.Copied.{IsSameLayout, IsSamePart, IsSameValue};

use crate::layout::{Form, Layout, Piece, form_at};
use crate::printf_layout::{form_under, is_plus_number};
use numerals::NoMemory;
use row_format::RowField;
use std::alloc::Global;
use values::Kind;

/// Whether the value at a place stands in the rows as it is printed in a form: the field there prints it so.
fn stands_in_rows(form: Form, place: usize, fields: &[RowField], kinds: &[Kind]) -> bool
    ensures { IsTrue result → IsSameValue fields.now kinds.now place form Copied }
{
    if place >= fields.len() {
        return false;
    }
    match form_under(fields[place].field(), kinds, place) {
        Some(own) => own.is_same(&form),
        None => false,
    }
}

/// Whether the rows have a plus or minus sign in front of the digits of the number at a place.
fn stands_behind_sign(place: usize, fields: &[RowField], kinds: &[Kind]) -> bool
    ensures { IsTrue result → IsSameValue fields.now kinds.now place Signed WithoutPlus }
{
    if place >= fields.len() {
        return false;
    }
    match form_at(kinds, place) {
        Some(Form::Signed) => is_plus_number(fields[place].field()),
        _ => false,
    }
}

/// The form of a number that is printed plainly, over the rows.
fn signed_over(place: usize, fields: &[RowField], kinds: &[Kind]) -> Form
    ensures { IsSameValue fields.now kinds.now place Signed result }
{
    if stands_behind_sign(place, fields, kinds) {
        Form::WithoutPlus
    } else {
        Form::Signed
    }
}

/// The form of a value over the rows.
fn form_over(form: Form, place: usize, fields: &[RowField], kinds: &[Kind]) -> Form
    ensures { IsSameValue fields.now kinds.now place form result }
{
    if stands_in_rows(form, place, fields, kinds) {
        return Form::Copied;
    }
    match form {
        Form::Signed => signed_over(place, fields, kinds),
        _ => form,
    }
}

/// The piece over the rows.
fn piece_over(
    alloc: Global,
    piece: &Piece,
    fields: &[RowField],
    kinds: &[Kind],
) -> Result<Piece, NoMemory>
    ensures { IfOk result (λ other. IsSamePart fields.now kinds.now piece.now other) }
{
    let Ok(before) = piece.before.clone() else {
        return Err(NoMemory);
    };
    Ok(Piece {
        before,
        form: form_over(piece.form, piece.place, fields, kinds),
        place: piece.place,
    })
}

/// The layout over the rows of a format whose values are of these kinds.
pub(crate) fn layout_over(
    alloc: Global,
    layout: Layout,
    fields: &[RowField],
    kinds: &[Kind],
) -> Result<Layout, NoMemory>
    ensures { IfOk result (λ other. IsSameLayout fields.now kinds.now layout other) }
{
    let mut pieces = Vec::new(alloc);
    'parts: for piece in &layout.pieces {
        if pieces
            .push(piece_over(alloc, piece, fields, kinds)?)
            .is_err()
        {
            return Err(NoMemory);
        }
    }
    Ok(Layout {
        pieces,
        tail: layout.tail,
    })
}
