// Columns and kinds, one pair at a time.
ghost use Rattle.std.specs.Prelude.{◌≡◌, ◌∷◌, ◌⊎◌, [], IfSome, IsNone};

use row_format::RowField;
use values::Kind;

/// The column in front and its kind, and what follows them.
#[derive(Clone, Copy)]
pub struct Front<'a> {
    pub column: &'a RowField,
    pub kind: Kind,
    pub columns: &'a [RowField],
    pub kinds: &'a [Kind],
}

/// The first pair, and what follows it, unless either list is empty.
pub fn split<'a>(columns: &'a [RowField], kinds: &'a [Kind]) -> Option<Front<'a>>
    ensures columns { IfSome result (λ front. columns.now ≡ front.column.now ∷ front.columns.now) }
    ensures kinds { IfSome result (λ front. kinds.now ≡ front.kind ∷ front.kinds.now) }
    ensures none { IsNone result → (columns.now ≡ []) ⊎ (kinds.now ≡ []) }
{
    let (column, columns) = columns.split_first()?;
    let (kind, kinds) = kinds.split_first()?;
    Some(Front {
        column,
        kind: *kind,
        columns,
        kinds,
    })
}
