// A printf format as columns.
ghost use Rattle.std.specs.Prelude.{◌≡◌, ◌≤◌, ◌++◌, ℕ, List, length, string_bytes, IfOk, OnOk, MatchOption, None, Some};
ghost use Rattle.row_format.specs.Columns.{columns_of, with_text, width_of};
ghost use Rattle.row_format.specs.Laws.{AreTexts, IsText};
ghost use Rattle.row_format.specs.Inner.Elements.{literal_of, BeginsWithField, column_of};

use numerals::NoMemory;
use sprintf::parser::{ConversionSpecifier, ConversionType, FormatElement, NumericParam};
use std::alloc::Global;
use std::marker::Model;

/// A field, and the literal text behind it, up to the next field; `%%` is the literal text `%`.
#[derive(Drop)]
pub struct RowField {
    field: ConversionSpecifier,
    after: String,
}

impl Model for RowField {
    ghost use Rattle.std.specs.Prelude.{string_bytes};
    ghost use Rattle.row_format.specs.Columns.{Column};

    ghost Value = { Column };

    ghost view = { λ it. record { field = it.field; after = string_bytes it.after } };
}

impl RowField {
    pub fn field(&self) -> &ConversionSpecifier
        ensures { result.now ≡ self.now.field }
    {
        &self.field
    }

    /// The least length of the field's text, in bytes; a width that is written as a negative number counts as 0.
    pub fn width(&self) -> usize
        ensures width { result ≡ width_of self.now.field }
        ensures narrow { result ≤ 2147483647 }
    {
        match self.field.width {
            NumericParam::Literal(width) => usize::try_from(width).unwrap_or(0),
            NumericParam::FromArgument => 0,
        }
    }

    /// The literal text behind the field.
    pub fn after(&self) -> &str
        ensures { result.now ≡ self.now.after }
    {
        self.after.as_str()
    }
}

/// A printf format as the literal text in front of its first field, and its fields. It owns its texts.
#[derive(Drop)]
pub struct RowFormat {
    head: String,
    fields: Vec<RowField>,
}

impl Model for RowFormat {
    ghost use Rattle.row_format.specs.Columns.{Columns};
    ghost use Rattle.std.specs.Prelude.{string_bytes, map};

    ghost Value = { Columns };

    ghost view = { λ it. record { head = string_bytes it.head; columns = it.fields.items } };
}

/// The literal text that an element is.
fn literal<'f>(element: &FormatElement<'f>) -> Option<&'f str>
    ensures { MatchOption result (literal_of element.now ≡ None) (λ text. literal_of element.now ≡ Some text.now) }
{
    match element {
        FormatElement::Verbatim(text) => Some(*text),
        FormatElement::Format(field) => match field.conversion_type {
            ConversionType::PercentSign => Some("%"),
            _ => None,
        },
    }
}

/// Appends the literal text in front of the first field, and gives the elements from that field on.
fn push_literals<'e, 'f>(
    text: &mut String,
    elements: &'e [FormatElement<'f>],
) -> Result<&'e [FormatElement<'f>], NoMemory>
    ensures text { IfOk result (λ rest. (more : List ℕ) × (string_bytes text.new ≡ string_bytes text.old ++ more) × (columns_of elements.entry.now ≡ with_text more (columns_of rest.now))) }
    ensures field { IfOk result (λ rest. BeginsWithField rest.now) }
    ensures shorter { IfOk result (λ rest. length rest.now ≤ length elements.entry.now) }
{
    let mut rest = elements;
    'literals: while let [element, after @ ..] = rest {
        let Some(piece) = literal(element) else {
            return Ok(rest);
        };
        if text.push_str(piece).is_err() {
            return Err(NoMemory);
        }
        rest = after;
    }
    Ok(rest)
}

/// One field more, if the element is one.
fn push_field(
    fields: &mut Vec<RowField>,
    element: &FormatElement<'_>,
    after: String,
) -> Result<(), NoMemory>
    ensures column { OnOk result (fields.new.items ≡ fields.old.items ++ column_of element.now (string_bytes after)) }
    ensures text { OnOk result (AreTexts (column_of element.now (string_bytes after))) }
{
    let FormatElement::Format(field) = element else {
        return Ok(());
    };
    let field = *field;
    let field = RowField { field, after };
    let _width = field.width();
    if fields.push(field).is_err() {
        return Err(NoMemory);
    }
    Ok(())
}

impl RowFormat {
    pub fn new(alloc: Global, elements: &[FormatElement<'_>]) -> Result<RowFormat, NoMemory>
        ensures columns { IfOk result (λ format. format ≡ columns_of elements.now) }
        ensures text { IfOk result IsText }
    {
        let mut head = String::new(alloc);
        let mut fields = Vec::new(alloc);
        let mut rest = push_literals(&mut head, elements)?;
        'fields: while let [element, after @ ..] = rest {
            let mut text = String::new(alloc);
            rest = push_literals(&mut text, after)?;
            push_field(&mut fields, element, text)?;
        }
        Ok(RowFormat { head, fields })
    }

    /// The literal text in front of the first field.
    pub fn head(&self) -> &str
        ensures { result.now ≡ self.now.head }
    {
        self.head.as_str()
    }

    pub fn fields(&self) -> &[RowField]
        ensures { result.now ≡ self.now.columns }
    {
        self.fields.as_slice()
    }
}
