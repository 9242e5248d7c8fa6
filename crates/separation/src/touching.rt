// Whether a field runs on.
ghost use Rattle.std.specs.Prelude.{◌≡◌, ◌++◌, ◌↔◌, ℕ, List, [], IsTrue, IfSome, IsNone, encode_utf8};
ghost use Rattle.row_format.specs.Plannable.{RunsOn, Never, IsPaired, IsUnpaired, IsLossy};
ghost use Rattle.separation.specs.Inner.Touching.{TakesSome, IsWhole, Touches, IsFollowed};

use crate::front::split;
use crate::table::{field_opening, is_exact, is_opening_taken, is_taken, may_fill};
use row_format::RowField;
use values::Kind;

/// Whether some value that fits leaves no space behind its token.
fn may_touch(column: &RowField, kind: Kind) -> bool
    requires paired { IsPaired column.now kind }
    requires whole { IsWhole column.now kind }
    ensures { IsTrue result ↔ Touches column.now kind }
{
    let field = column.field();
    may_fill(field, kind) || !field.left_adj
}

fn first_character(text: &str) -> Option<char>
    ensures some { IfSome result (λ c. (rest : List ℕ) × (text.now ≡ encode_utf8 c ++ rest)) }
    ensures none { IsNone result → text.now ≡ [] }
{
    text.chars().next()
}

/// Whether over some values that fit, what comes behind the column's field begins with a character that the field takes.
fn is_followed(column: &RowField, later: &[RowField], kinds: &[Kind]) -> bool
    requires takes { TakesSome column.now.field.conversion_type }
    requires paired { Never IsUnpaired later.now kinds.now }
    requires whole { Never IsLossy later.now kinds.now }
    ensures { IsTrue result ↔ IsFollowed column.now later.now kinds.now }
{
    let conversion = column.field().conversion_type;
    if let Some(character) = first_character(column.after()) {
        return is_taken(conversion, character);
    }
    let Some(next) = split(later, kinds) else {
        return false;
    };
    is_opening_taken(conversion, field_opening(next.column.field(), next.kind))
}

/// Whether the field in front runs on.
pub fn runs_on(columns: &[RowField], kinds: &[Kind]) -> bool
    requires paired { Never IsUnpaired columns.now kinds.now }
    requires whole { Never IsLossy columns.now kinds.now }
    ensures { IsTrue result ↔ RunsOn columns.now kinds.now }
{
    let Some(front) = split(columns, kinds) else {
        return false;
    };
    if is_exact(front.column.field(), front.kind) {
        return false;
    }
    may_touch(front.column, front.kind) && is_followed(front.column, front.columns, front.kinds)
}
