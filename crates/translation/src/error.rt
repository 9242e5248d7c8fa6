// Why a format has no translation.
ghost use Rattle.std.specs.Prelude.{◌≡◌};

use std::alloc::AllocError;

/// Why a format wasn't translated.
#[derive(Clone, Copy, Debug, PartialEq, Eq)]
pub enum TranslateError {
    /// The element at this place, counted from 1, is the first without a translation. Where a kind has no field, it is
    /// the place after the last element.
    Element { place: usize },
    NoMemory,
}

impl From<AllocError> for TranslateError {
    ghost use Rattle.translation.specs.declared.error.TranslateError.TheVariants.{NoMemory};

    ghost from_gives = { λ _ why. why ≡ NoMemory };

    fn from(_: AllocError) -> TranslateError {
        TranslateError::NoMemory
    }
}

impl From<numerals::NoMemory> for TranslateError {
    ghost use Rattle.translation.specs.declared.error.TranslateError.TheVariants.{NoMemory};

    ghost from_gives = { λ _ why. why ≡ NoMemory };

    fn from(_: numerals::NoMemory) -> TranslateError {
        TranslateError::NoMemory
    }
}
