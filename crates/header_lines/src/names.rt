// The line of version 2 that names the fields.
ghost use Rattle.std.specs.Prelude.{◌≡◌, ◌↔◌, IfOk, OnOk, IsTrue, map, bytes_eq};
ghost use Rattle.std.specs.List.{AllByRecursion, IsDistinct};
ghost use Rattle.whiteread.specs.Words.{words};
ghost use Rattle.values.specs.Datum.{word_text};
ghost use Rattle.line_job.specs.Refusal.{IfRefused};
ghost use Rattle.header_lines.specs.Heading.{is_name_byte, IsName, IsNamesLine};

use crate::LineCause;
use line_job::Refusal;
use std::alloc::{AllocError, Global};
use std::collections::BTreeSet;
use values::{Kind, Word};
use whiteread::stream::SplitAsciiWhitespace;

/// Whether the byte may stand in a name.
fn is_name_byte(byte: u8) -> bool
    ensures { result ≡ is_name_byte byte }
{
    byte.is_ascii_alphanumeric() || byte == b'_'
}

/// Whether the word is a name.
fn is_name(word: &str) -> bool
    ensures { IsTrue result ↔ IsName word.now }
{
    match word.as_bytes() {
        [] => false,
        [first, more @ ..] => {
            (first.is_ascii_alphabetic() || *first == b'_')
                && more.iter().all(|byte| is_name_byte(*byte))
        }
    }
}

/// The words of the line, where each of them is a name.
fn names_of(alloc: Global, number: u64, line: &str) -> Result<Vec<Word>, Refusal<LineCause>>
    ensures names { IfOk result (λ names. map word_text names.items ≡ words line.now) }
    ensures named { OnOk result (AllByRecursion IsName (words line.now)) }
    ensures refused { IfRefused result (λ why. (¬ AllByRecursion IsName (words line.now)) × (why ≡ LineCause.Header number)) }
{
    let mut names = Vec::new(alloc);
    'words: for word in SplitAsciiWhitespace::new(line) {
        if !is_name(word) {
            return Err(Refusal::Line(LineCause::Header { line: number }));
        }
        let Ok(name) = Word::new(alloc, word) else {
            return Err(Refusal::NoMemory);
        };
        names.push(name)?;
    }
    Ok(names)
}

/// Whether no two of the names are the same.
fn are_distinct(alloc: Global, names: &[Word]) -> Result<bool, AllocError>
    ensures { IfOk result (λ distinct. IsTrue distinct ↔ IsDistinct bytes_eq (map word_text names.now)) }
{
    let texts: BTreeSet<&str> = names.iter().map(|name| name.as_str()).collect(alloc)?;
    Ok(texts.len() == names.len())
}

/// Reads a names line for fields of these kinds.
pub(crate) fn read_names(
    alloc: Global,
    number: u64,
    kinds: &[Kind],
    line: &str,
) -> Result<Vec<Word>, Refusal<LineCause>>
    ensures kept { OnOk result (IsNamesLine kinds.now line.now) }
    ensures names { IfOk result (λ names. map word_text names.items ≡ words line.now) }
    ensures refused { IfRefused result (λ why. (¬ IsNamesLine kinds.now line.now) × (why ≡ LineCause.Header number)) }
{
    let names = names_of(alloc, number, line)?;
    if names.len() != kinds.len() || !are_distinct(alloc, &names)? {
        return Err(Refusal::Line(LineCause::Header { line: number }));
    }
    Ok(names)
}
