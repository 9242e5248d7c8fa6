// Numbers with signs in front of a text.
ghost use Rattle.std.specs.Prelude.{◌≡◌, ◌++◌, Bool, IfSome};
ghost use Rattle.columns.specs.Inner.Shapes.{IsTaken, plus_sign};
ghost use Rattle.columns.specs.declared.take.Take.TheVariants.{Integer};

use crate::number::{natural_in_front, take_natural};
use crate::step::behind;

// The number behind a minus sign, in two's complement, and what stands behind it.
#[inline(always)]
fn take_negative(text: &[u8], greatest: u64) -> Option<(u64, &[u8])>
    ensures { (plus : Bool) → IfSome result (λ found. IsTaken (Integer greatest plus) text.now found.0 found.1.now) }
{
    let digits = behind(text, b"-")?;
    let (size, rest) = natural_in_front(digits)?;
    if size == 0 || size - 1 > greatest {
        return None;
    }
    Some((u64::MAX - (size - 1), rest))
}

// What stands behind the plus sign, where there is to be one.
#[inline(always)]
fn behind_plus(text: &[u8], plus: bool) -> Option<&[u8]>
    ensures { IfSome result (λ rest. text.now ≡ plus_sign plus ++ rest.now) }
{
    if plus { behind(text, b"+") } else { Some(text) }
}

// The number that is not negative, and what stands behind it.
#[inline(always)]
fn take_positive(text: &[u8], greatest: u64, plus: bool) -> Option<(u64, &[u8])>
    ensures { IfSome result (λ found. IsTaken (Integer greatest plus) text.now found.0 found.1.now) }
{
    let digits = behind_plus(text, plus)?;
    let (number, rest) = take_natural(digits, greatest)?;
    Some((number, rest))
}

/// The number in front, as numbers with signs are printed in decimal, in two's complement, and what stands behind it.
#[inline(always)]
pub(crate) fn take_integer(text: &[u8], greatest: u64, plus: bool) -> Option<(u64, &[u8])>
    ensures { IfSome result (λ found. IsTaken (Integer greatest plus) text.now found.0 found.1.now) }
{
    match take_negative(text, greatest) {
        Some(found) => Some(found),
        None => take_positive(text, greatest, plus),
    }
}
