// The fast way: rows that are read by their columns and printed by the template's pieces.
ghost use Rattle.std.specs.Prelude.{◌≡◌, map, IfOk, IfSome, IsTrue, OnErr, false, string_bytes};
ghost use Rattle.values.specs.Datum.{word_text};
ghost use Rattle.rewriting.specs.Inner.Fast.{IsRowFormatOf, IsWayOf, IsWritten};

use columns::{Columns, Token};
use header_lines::{Fields, LineCause};
use line_job::end_line;
use numerals::NoMemory;
use pieces::Pieces;
use printer::Dialect;
use row_format::RowFormat;
use sprintf::PrintfError;
use sprintf::parser::parse_format_string;
use std::alloc::Global;
use std::marker::Model;

/// How the rows of a format are read by their columns, and how a template prints them by its pieces.
#[derive(Drop)]
pub(crate) struct Fast {
    columns: Columns,
    pieces: Pieces,
}

impl Model for Fast {
    ghost use Rattle.std.specs.Prelude.{◌≡◌};
    ghost use Rattle.row_format.specs.Laws.{IsText};
    ghost use Rattle.values.specs.Datum.{word_text};
    ghost use Rattle.rewriting.specs.Inner.Fast.{FastWay};

    ghost Value = { FastWay };

    ghost view = { λ it. record { format = it.columns.format; kinds = it.columns.kinds; printing = it.pieces.printing } };

    ghost invariant = { λ it. IsText it.columns.format × (it.pieces.format ≡ it.columns.format) × (it.pieces.kinds ≡ it.columns.kinds) };
}

/// A printf format as columns, or None where it is none.
fn row_format(alloc: Global, format: &str) -> Result<Option<RowFormat>, NoMemory>
    ensures { IfOk result (λ found. IfSome found (IsRowFormatOf format.now)) }
{
    match parse_format_string(alloc, format) {
        Ok(elements) => Ok(Some(RowFormat::new(alloc, &elements)?)),
        Err(PrintfError::NoMemory) => Err(NoMemory),
        Err(_) => Ok(None),
    }
}

impl Fast {
    /// The fast way from rows of a printf format, with these fields, to lines of a template, or None where there is none.
    pub(crate) fn new(
        alloc: Global,
        fields: &Fields,
        format: &str,
        dialect: Dialect,
        template: &str,
    ) -> Result<Option<Fast>, NoMemory>
        ensures { IfOk result (λ found. IfSome found (IsWayOf format.now fields.now.kinds.items (record { dialect = dialect; template = template.now; names = map word_text fields.now.names.items }))) }
    {
        let Some(format) = row_format(alloc, format)? else {
            return Ok(None);
        };
        let Some(columns) = Columns::new(alloc, &format, &fields.kinds)? else {
            return Ok(None);
        };
        let Some(pieces) = Pieces::new(
            alloc,
            dialect,
            template,
            &fields.names,
            format,
            &fields.kinds,
        )?
        else {
            return Ok(None);
        };
        Ok(Some(Fast { columns, pieces }))
    }

    /// Puts the line that the row is rewritten as, and a line feed, at the end of `out`; `tokens` is room for its values.
    /// False says nothing of the row.
    pub(crate) fn rewrite(
        &self,
        row: &str,
        tokens: &mut Vec<Token>,
        out: &mut String,
    ) -> Result<bool, NoMemory>
        ensures written { IfOk result (λ done. IsTrue done → IsWritten self.now row.now (string_bytes out.old) (string_bytes out.new)) }
        ensures unchanged { IfOk result (λ done. done ≡ false → string_bytes out.new ≡ string_bytes out.old) }
        ensures as_before { OnErr result (string_bytes out.new ≡ string_bytes out.old) }
    {
        if !self.columns.read(row, tokens)? {
            return Ok(false);
        }
        let before = out.len();
        self.pieces.write(row, tokens, out)?;
        match end_line::<LineCause>(out, before) {
            Ok(()) => Ok(true),
            Err(_) => Err(NoMemory),
        }
    }
}
