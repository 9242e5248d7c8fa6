// The rows' format, and rows that are read by it and printed.
ghost use Rattle.std.specs.Prelude.{◌≡◌, ◌++◌, ◌∷◌, [], ℕ, List, IfOk, IsTrue, OnOk, OnErr, false, string_bytes};
ghost use Rattle.whiteread.specs.Lines.{line_feed};
ghost use Rattle.row_plan.specs.Plan.{IsRead};
ghost use Rattle.line_job.specs.Refusal.{IfRefused};
ghost use Rattle.header_lines.specs.Headers.{RefusesFormatLine};
ghost use Rattle.header_lines.specs.declared.heading.Version.{Version};
ghost use Rattle.rewriting.specs.Rewrite.{IsRewrittenAs};
ghost use Rattle.rewriting.specs.Rules.{RefusesRow};
ghost use Rattle.rewriting.specs.Inner.State.{layout_of, IsSoundRows, IsSoundSource, IsNoRow};
ghost use Rattle.rewriting.specs.Inner.Fast.{HasWritten};

use crate::fast::Fast;
use bumpalo::Bump;
use columns::Token;
use header_lines::{LineCause, read_format};
use line_job::{Refusal, end_line};
use numerals::NoMemory;
use printer::{Printer, TextError};
use row_format::prints_columns;
use row_laws::has_one_list;
use row_plan::{RowError, RowPlan};
use scan_fmt::parse::Format;
use std::alloc::Global;
use values::{Kind, Value};

/// The rows' format: its text, how its rows are read, and the scanning format that reads them, cut once.
#[derive(Drop)]
pub(crate) struct Source<'a> {
    pub(crate) text: &'a str,
    pub(crate) plan: RowPlan,
    pub(crate) format: Format<'a>,
}

/// Reads a format line for these kinds. Its text, and that of its scanning format, are kept among the texts.
pub(crate) fn read_source<'a>(
    alloc: Global,
    texts: &'a Bump,
    number: u64,
    kinds: &[Kind],
    line: &str,
) -> Result<Source<'a>, Refusal<LineCause>>
    ensures text { IfOk result (λ source. source.text.now ≡ line.now) }
    ensures kinds { IfOk result (λ source. source.plan.kinds ≡ kinds.now) }
    ensures sound { IfOk result IsSoundSource }
    ensures refused { IfRefused result (RefusesFormatLine number kinds.now line.now) }
{
    let plan = read_format(alloc, number, kinds, line)?;
    let text = texts.try_alloc_str(line)?;
    let planned = texts.try_alloc_str(plan.format_text())?;
    match Format::new(alloc, planned) {
        Ok(format) => Ok(Source { text, plan, format }),
        Err(_) => Err(Refusal::NoMemory),
    }
}

/// Reads the values of the row on the line of this number.
fn read_values(
    alloc: Global,
    source: &Source<'_>,
    number: u64,
    row: &str,
    text: &mut String,
) -> Result<Vec<Value>, Refusal<LineCause>>
    requires { IsSoundSource source.now }
    ensures read { IfOk result (λ values. IsRead source.now.plan row.now values.items) }
    ensures refused { IfRefused result (IsNoRow source.now.plan number row.now) }
{
    match source.plan.read_row_by(alloc, &source.format, row, text) {
        Ok(values) => Ok(values),
        Err(RowError::NotARow) => Err(Refusal::Line(LineCause::NotARow { line: number })),
        Err(RowError::NoMemory) => Err(Refusal::NoMemory),
    }
}

/// Rewrites a row by the fast way, if there is one, and answers whether it did; `tokens` is room for the row's values.
fn rewrite_fast(
    fast: &Option<Fast>,
    row: &str,
    tokens: &mut Vec<Token>,
    out: &mut String,
) -> Result<bool, NoMemory>
    ensures written { IfOk result (λ done. IsTrue done → HasWritten fast.now row.now (string_bytes out.old) (string_bytes out.new)) }
    ensures unchanged { IfOk result (λ done. done ≡ false → string_bytes out.new ≡ string_bytes out.old) }
    ensures as_before { OnErr result (string_bytes out.new ≡ string_bytes out.old) }
{
    match fast {
        Some(fast) => fast.rewrite(row, tokens, out),
        None => Ok(false),
    }
}

/// Room that is kept for all rows: a text in which a row's fields are printed again, and the values of a row.
#[derive(Drop)]
pub(crate) struct Room {
    text: String,
    tokens: Vec<Token>,
}

impl Room {
    /// It takes no memory.
    pub(crate) fn new(alloc: Global) -> Room {
        Room {
            text: String::new(alloc),
            tokens: Vec::new(alloc),
        }
    }
}

/// How rows are rewritten: their format, the template that prints their values, and the fast way from one to the other, where
/// there is one.
#[derive(Drop)]
pub(crate) struct Rows<'a> {
    pub(crate) source: Source<'a>,
    pub(crate) printer: Printer<'a>,
    pub(crate) fast: Option<Fast>,
}

impl Rows<'_> {
    /// Rewrites a row by the plan of its format and the template's printer; `text` is room in which its fields are printed again.
    /// It stands apart, so that it doesn't slow the fast way.
    #[cold]
    fn rewrite_by_plan(
        &self,
        alloc: Global,
        number: u64,
        row: &str,
        text: &mut String,
        out: &mut String,
    ) -> Result<(), Refusal<LineCause>>
        requires { IsSoundSource self.now.source }
        ensures kept { (version : Version) → OnOk result ((line : List ℕ) × IsRewrittenAs (layout_of version self.now.source self.now.printer) row.now line × (string_bytes out.new ≡ string_bytes out.old ++ (line ++ line_feed ∷ []))) }
        ensures refused { (version : Version) → IfRefused result (RefusesRow (layout_of version self.now.source self.now.printer) number row.now) }
        ensures as_before { OnErr result (string_bytes out.new ≡ string_bytes out.old) }
    {
        prints_columns();
        let values = read_values(alloc, &self.source, number, row, text)?;
        let before = out.len();
        match self.printer.text_into(alloc, &values, out) {
            Ok(()) => end_line(out, before),
            Err(TextError::Fault(fault)) => Err(Refusal::Line(LineCause::Render {
                line: number,
                fault,
            })),
            Err(TextError::NoMemory) => Err(Refusal::NoMemory),
        }
    }

    /// Puts the line that the row is rewritten as, and a line feed, at the end of `out`. The row stands on the line of this
    /// number. Where the fast way doesn't rewrite it, the plan and the printer judge it.
    #[inline(never)]
    pub(crate) fn rewrite(
        &self,
        alloc: Global,
        number: u64,
        row: &str,
        room: &mut Room,
        out: &mut String,
    ) -> Result<(), Refusal<LineCause>>
        requires { IsSoundRows self.now }
        ensures kept { (version : Version) → OnOk result ((line : List ℕ) × IsRewrittenAs (layout_of version self.now.source self.now.printer) row.now line × (string_bytes out.new ≡ string_bytes out.old ++ (line ++ line_feed ∷ []))) }
        ensures refused { (version : Version) → IfRefused result (RefusesRow (layout_of version self.now.source self.now.printer) number row.now) }
        ensures as_before { OnErr result (string_bytes out.new ≡ string_bytes out.old) }
    {
        prints_columns();
        has_one_list();
        match rewrite_fast(&self.fast, row, &mut room.tokens, out) {
            Ok(true) => Ok(()),
            Ok(false) => self.rewrite_by_plan(alloc, number, row, &mut room.text, out),
            Err(NoMemory) => Err(Refusal::NoMemory),
        }
    }
}
