// The kinds, and the words that name them.
ghost use Rattle.std.specs.Prelude.{◌≡◌, ◌⊎◌, MatchOption, IfOk, IfErr, map};
ghost use Rattle.whiteread.specs.Words.{words};
ghost use Rattle.values.specs.Kind.{kind_word, NamesNoKind, AreKinds, IsFirstUnknown};
ghost use Rattle.values.specs.declared.kind.KindsError.TheVariants.{NoMemory};

use std::alloc::{AllocError, AllocFailed, Global};
use whiteread::stream::SplitAsciiWhitespace;

/// What a field of a row holds: a number of a type of Rust's, a word, or one character.
#[derive(Clone, Copy, Debug, PartialEq, Eq)]
pub enum Kind {
    U8,
    U16,
    U32,
    U64,
    Usize,
    I8,
    I16,
    I32,
    I64,
    Isize,
    Word,
    Char,
}

impl Kind {
    /// The kind that the word names. It takes no memory.
    pub fn named(word: &str) -> Option<Kind>
        ensures { MatchOption result (NamesNoKind word.now) (λ kind. word.now ≡ kind_word kind) }
    {
        match word {
            "u8" => Some(Kind::U8),
            "u16" => Some(Kind::U16),
            "u32" => Some(Kind::U32),
            "u64" => Some(Kind::U64),
            "usize" => Some(Kind::Usize),
            "i8" => Some(Kind::I8),
            "i16" => Some(Kind::I16),
            "i32" => Some(Kind::I32),
            "i64" => Some(Kind::I64),
            "isize" => Some(Kind::Isize),
            "word" => Some(Kind::Word),
            "char" => Some(Kind::Char),
            _ => None,
        }
    }
}

/// Why a line names no kinds.
#[derive(Clone, Copy, Debug, PartialEq, Eq)]
pub enum KindsError {
    /// The word at this place, counted from 1, names no kind, and it is the first such.
    Unknown { place: usize },
    NoMemory,
}

impl From<AllocError> for KindsError {
    ghost from_gives = { λ _ e. e ≡ NoMemory };

    fn from(_: AllocError) -> KindsError {
        KindsError::NoMemory
    }
}

impl<T: Drop> From<AllocFailed<T>> for KindsError {
    ghost from_gives = { λ _ e. e ≡ NoMemory };

    fn from(_: AllocFailed<T>) -> Self {
        KindsError::NoMemory
    }
}

/// The kinds that the words of the line name, in order. Words are split at bytes of at most 0x20.
pub fn parse_kinds(alloc: Global, line: &str) -> Result<Vec<Kind>, KindsError>
    ensures kinds { IfOk result (λ kinds. AreKinds (words line.now) kinds.items) }
    ensures unknown { IfErr result (λ why. IsFirstUnknown (words line.now) why ⊎ (why ≡ NoMemory)) }
{
    let mut kinds = Vec::new(alloc);
    'words: for word in SplitAsciiWhitespace::new(line) {
        let Some(kind) = Kind::named(word) else {
            return Err(KindsError::Unknown {
                place: kinds.len() + 1,
            });
        };
        kinds.push(kind)?;
    }
    Ok(kinds)
}
