// A template in pieces, and the rows that it prints.
ghost use Rattle.std.specs.Prelude.{◌≡◌, ◌++◌, ℕ, List, IfOk, IfSome, Ok, OnErr, OnOk, map, string_bytes};
ghost use Rattle.values.specs.Datum.{word_text};
ghost use Rattle.printer.specs.Text.{Prints};
ghost use Rattle.tokens.specs.Tokens.{AreTokens, data_of};
ghost use Rattle.columns.specs.Fields.{AreFieldsAt};
ghost use Rattle.pieces.specs.Inner.Sound.{StandsFor, StandsOver};

use crate::copied::layout_over;
use crate::layout::Layout;
use crate::{formatx_layout, printf_layout, strfmt_layout};
use numerals::NoMemory;
use printer::{Dialect, PositionNames};
use row_format::RowFormat;
use std::alloc::Global;
use std::marker::Model;
use tokens::Token;
use values::{Kind, Word};

/// A template, cut into pieces once, that prints the values of many rows. It owns its texts, and the format
/// of the rows.
#[derive(Drop)]
pub struct Pieces {
    dialect: Dialect,
    template: String,
    names: PositionNames,
    format: RowFormat,
    kinds: Vec<Kind>,
    layout: Layout,
}

impl Model for Pieces {
    ghost use Rattle.std.specs.Prelude.{string_bytes};
    ghost use Rattle.pieces.specs.Template.{Template};
    ghost use Rattle.pieces.specs.Inner.Sound.{StandsOver};

    ghost Value = { Template };

    ghost view = { λ it. record { printing = record { dialect = it.dialect; template = string_bytes it.template; names = it.names }; format = it.format; kinds = it.kinds.items } };

    ghost invariant = { λ it. StandsOver it.dialect (string_bytes it.template) it.names it.format.columns it.kinds.items it.layout };
}

/// The layout of a template over any rows of values of these kinds, or None where it has none.
fn lay_out(
    alloc: Global,
    dialect: Dialect,
    template: &str,
    names: &PositionNames,
    kinds: &[Kind],
) -> Result<Option<Layout>, NoMemory>
    ensures { IfOk result (λ found. IfSome found (StandsFor dialect template.now names.now kinds.now)) }
{
    match dialect {
        Dialect::Printf => printf_layout::lay_out(alloc, template, kinds),
        Dialect::Strfmt => strfmt_layout::lay_out(alloc, template, names, kinds),
        Dialect::Formatx => formatx_layout::lay_out(alloc, template, names, kinds),
    }
}

/// The layout of a template over rows of this format and values of these kinds, or None where it has none.
fn lay_out_over(
    alloc: Global,
    dialect: Dialect,
    template: &str,
    names: &PositionNames,
    format: &RowFormat,
    kinds: &[Kind],
) -> Result<Option<Layout>, NoMemory>
    ensures { IfOk result (λ found. IfSome found (StandsOver dialect template.now names.now format.now.columns kinds.now)) }
{
    match lay_out(alloc, dialect, template, names, kinds)? {
        Some(layout) => Ok(Some(layout_over(alloc, layout, format.fields(), kinds)?)),
        None => Ok(None),
    }
}

impl Pieces {
    /// The pieces of a template over rows of this format and values of these kinds, of which the first have these names; None where only a printer can judge and
    /// print it: a field takes its width or precision from a value, or may refuse its value, or has options in strfmt or formatx.
    /// None is no refusal of the template.
    pub fn new(
        alloc: Global,
        dialect: Dialect,
        template: &str,
        names: &[Word],
        format: RowFormat,
        kinds: &[Kind],
    ) -> Result<Option<Pieces>, NoMemory>
        ensures { IfOk result (λ found. IfSome found (λ p. p ≡ record { printing = record { dialect = dialect; template = template.now; names = map word_text names.now }; format = format; kinds = kinds.now })) }
    {
        let names = PositionNames::new(alloc, names)?;
        let Some(layout) = lay_out_over(alloc, dialect, template, &names, &format, kinds)? else {
            return Ok(None);
        };
        Ok(Some(Pieces {
            dialect,
            template: String::from_str(alloc, template)?,
            names,
            format,
            kinds: Vec::from_slice(alloc, kinds)?,
            layout,
        }))
    }

    /// Appends the template's text over the tokens of a row of the format.
    pub fn write(&self, row: &str, tokens: &[Token], out: &mut String) -> Result<(), NoMemory>
        requires tokens { AreTokens self.now.kinds row.now tokens.now }
        requires fields { AreFieldsAt self.now.format.columns self.now.kinds row.now tokens.now }
        ensures text { OnOk result ((text : List ℕ) × Prints self.now.printing self.now.kinds (data_of self.now.kinds row.now tokens.now) (Ok text) × (string_bytes out.new ≡ string_bytes out.old ++ text)) }
        ensures unchanged { OnErr result (string_bytes out.new ≡ string_bytes out.old) }
    {
        let before = out.len();
        match self.layout.append(row, tokens, out) {
            Ok(()) => Ok(()),
            Err(_) => {
                out.truncate(before);
                Err(NoMemory)
            }
        }
    }
}
