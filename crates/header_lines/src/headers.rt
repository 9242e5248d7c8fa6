// The header lines, each by the number of its line.
ghost use Rattle.std.specs.Prelude.{◌≡◌, ◌≢◌, ◌∷◌, [], ℕ, List, IfOk, OnOk, IfErr, MatchOption, map};
ghost use Rattle.sprintf.specs.Grammar.{IsFormat, IsNoFormat};
ghost use Rattle.sprintf.specs.declared.parser.FormatElement.{FormatElement};
ghost use Rattle.whiteread.specs.Words.{words};
ghost use Rattle.line_job.specs.Refusal.{IfRefused};
ghost use Rattle.line_job.specs.declared.job.Refusal.TheVariants.{NoMemory};
ghost use Rattle.header_lines.specs.Headers.{IsKindsLine, RefusesKinds, RefusesFormatLine, IsDialectLine, RefusesDialect, IsTemplateLine, RefusesTemplateLine};
ghost use Rattle.header_lines.specs.Read.{IsReadFormat};
ghost use Rattle.values.specs.Datum.{word_text};

use crate::LineCause;
use bumpalo::Bump;
use line_job::Refusal;
use printer::{Dialect, Printer, PrinterError};
use row_plan::{PlanError, RowPlan, plan};
use sprintf::PrintfError;
use sprintf::parser::{FormatElement, parse_format_string};
use std::alloc::Global;
use values::{Kind, KindsError, Word, parse_kinds};
use whiteread::stream::SplitAsciiWhitespace;

/// Reads a kinds line.
pub fn read_kinds(alloc: Global, number: u64, line: &str) -> Result<Vec<Kind>, Refusal<LineCause>>
    ensures ok { IfOk result (λ kinds. IsKindsLine line.now kinds.items) }
    ensures refused { IfRefused result (RefusesKinds number line.now) }
{
    match parse_kinds(alloc, line) {
        Ok(kinds) => Ok(kinds),
        Err(KindsError::Unknown { .. }) => Err(Refusal::Line(LineCause::Header { line: number })),
        Err(KindsError::NoMemory) => Err(Refusal::NoMemory),
    }
}

// The elements of a printf format.
fn read_elements(
    alloc: Global,
    number: u64,
    line: &str,
) -> Result<Vec<FormatElement<'_>>, Refusal<LineCause>>
    ensures ok { IfOk result (λ elements. IsFormat line.now elements.items) }
    ensures refused { IfRefused result (λ why. IsNoFormat line.now × (why ≡ LineCause.SourceFormat number)) }
{
    match parse_format_string(alloc, line) {
        Ok(elements) => Ok(elements),
        Err(PrintfError::ParseError) => {
            Err(Refusal::Line(LineCause::SourceFormat { line: number }))
        }
        Err(_) => Err(Refusal::NoMemory),
    }
}

/// Reads a format line for these kinds, and plans its rows.
pub fn read_format(
    alloc: Global,
    number: u64,
    kinds: &[Kind],
    line: &str,
) -> Result<RowPlan, Refusal<LineCause>>
    ensures ok { IfOk result (IsReadFormat line.now kinds.now) }
    ensures refused { IfRefused result (RefusesFormatLine number kinds.now line.now) }
{
    let elements = read_elements(alloc, number, line)?;
    match plan(alloc, &elements, kinds) {
        Ok(plan) => Ok(plan),
        Err(PlanError::Refused(why)) => {
            Err(Refusal::Line(LineCause::Refused { line: number, why }))
        }
        Err(PlanError::NoMemory) => Err(Refusal::NoMemory),
    }
}

// The one word of the line, where it has one word.
pub(crate) fn one_word(line: &str) -> Option<&str>
    ensures { MatchOption result ((word : List ℕ) → words line.now ≢ word ∷ []) (λ word. words line.now ≡ word.now ∷ []) }
{
    let mut rest = SplitAsciiWhitespace::new(line);
    let word = Iterator::next(&mut rest)?;
    match Iterator::next(&mut rest) {
        Some(_) => None,
        None => Some(word),
    }
}

// The dialect that the line names by its one word.
fn dialect_of(line: &str) -> Option<Dialect>
    ensures { MatchOption result ((dialect : Dialect) → ¬ IsDialectLine line.now dialect) (IsDialectLine line.now) }
{
    match one_word(line) {
        Some(word) => Dialect::named(word),
        None => None,
    }
}

/// Reads a dialect line. It takes no memory.
pub fn read_dialect(number: u64, line: &str) -> Result<Dialect, Refusal<LineCause>>
    ensures ok { IfOk result (IsDialectLine line.now) }
    ensures refused { IfRefused result (RefusesDialect number line.now) }
    ensures takes_none { result ≢ Err NoMemory }
{
    match dialect_of(line) {
        Some(dialect) => Ok(dialect),
        None => Err(Refusal::Line(LineCause::Header { line: number })),
    }
}

/// Reads a template line in a dialect, in which the first values have these names. The text of the line is kept among the texts, from which the printer lends.
pub fn read_template<'t>(
    alloc: Global,
    texts: &'t Bump,
    number: u64,
    dialect: Dialect,
    names: &[Word],
    line: &str,
) -> Result<Printer<'t>, Refusal<LineCause>>
    ensures ok { IfOk result (λ p. p ≡ record { dialect = dialect; template = line.now; names = map word_text names.now }) }
    ensures template { OnOk result (IsTemplateLine dialect line.now) }
    ensures refused { IfRefused result (RefusesTemplateLine number dialect line.now) }
{
    let text = texts.try_alloc_str(line)?;
    match Printer::new_named(alloc, dialect, text, names) {
        Ok(printer) => Ok(printer),
        Err(PrinterError::Template(why)) => {
            Err(Refusal::Line(LineCause::Template { line: number, why }))
        }
        Err(PrinterError::NoMemory) => Err(Refusal::NoMemory),
    }
}
