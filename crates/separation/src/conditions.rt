// The three conditions in order.
ghost use Rattle.std.specs.Prelude.{◌≡◌, ◌↔◌, IsTrue, MatchOption};
ghost use Rattle.row_format.specs.Plannable.{RunsOn, IsPlannable, Never, FirstAt, IsUnpaired, IsLossy};
ghost use Rattle.separation.specs.Refusal.{IsRefused};
ghost use Rattle.separation.specs.Inner.Conditions.{Breaks, MayJudge};

use crate::Refused;
use crate::front::split;
use crate::pairs::{is_lossy, is_unpaired};
use crate::touching::runs_on;
use row_format::{RowField, RowFormat};
use values::Kind;

/// What a format must keep to be read back.
#[derive(Clone, Copy)]
enum Condition {
    /// Each field has a kind that goes with it.
    Paired,
    /// No word is cut.
    Whole,
    /// No field runs on.
    Apart,
}

impl Condition {
    /// Whether the condition is broken at the front.
    fn is_broken(self, columns: &[RowField], kinds: &[Kind]) -> bool
        requires { MayJudge self columns.now kinds.now }
        ensures { IsTrue result ↔ Breaks self columns.now kinds.now }
    {
        match self {
            Condition::Paired => is_unpaired(columns, kinds),
            Condition::Whole => is_lossy(columns, kinds),
            Condition::Apart => runs_on(columns, kinds),
        }
    }

    /// The first place, counted from 1, at which the condition is broken.
    fn first_broken(self, columns: &[RowField], kinds: &[Kind]) -> Option<usize>
        requires { MayJudge self columns.now kinds.now }
        ensures { MatchOption result (Never (Breaks self) columns.now kinds.now) (FirstAt (Breaks self) columns.now kinds.now) }
    {
        let mut columns_left = columns;
        let mut kinds_left = kinds;
        let mut passed = 0;
        'columns: while !self.is_broken(columns_left, kinds_left) {
            let Some(front) = split(columns_left, kinds_left) else {
                return None;
            };
            columns_left = front.columns;
            kinds_left = front.kinds;
            passed += 1;
        }
        Some(passed + 1)
    }
}

/// Why the format can't be read back over these kinds, if it can't. It takes no memory.
pub fn judge(format: &RowFormat, kinds: &[Kind]) -> Option<Refused>
    ensures { MatchOption result (IsPlannable format.now.columns kinds.now) (IsRefused format.now.columns kinds.now) }
{
    let columns = format.fields();
    if let Some(field) = Condition::Paired.first_broken(columns, kinds) {
        return Some(Refused::Kind { field });
    }
    if let Some(field) = Condition::Whole.first_broken(columns, kinds) {
        return Some(Refused::Lossy { field });
    }
    let field = Condition::Apart.first_broken(columns, kinds)?;
    Some(Refused::RunsOn { field })
}
