// Two readers over the same bytes, which come in pieces of different sizes.
ghost use Rattle.std.specs.Prelude.{◌≡◌, IfSome, IsUtf8};
ghost use Rattle.std.specs.List.{All};
ghost use Rattle.whiteread.specs.Lines.{lines_of};
ghost use Rattle.edge_io.specs.Memory.{source_rest, source_faults};
ghost use Rattle.whiteread_tests.specs.Agreement.{Agrees};

use edge_io::MemSource;
use reader_laws::alike::Alike;
use reader_laws::laws::continue_decided_by_words;
use std::alloc::Global;
use whiteread::Reader;
use whiteread::reader::Result;

/// The values that two new readers answer, if neither source failed. By the law of readers they are alike.
pub fn read_twice<T: Alike>(
    alloc: Global,
    one: MemSource,
    other: MemSource,
) -> Option<(Result<T>, Result<T>)>
    requires same { source_rest one ≡ source_rest other }
    requires text { All IsUtf8 (lines_of (source_rest one)) }
    requires one_fresh { source_faults one ≡ 0 }
    requires other_fresh { source_faults other ≡ 0 }
    ensures { IfSome result (λ both. Agrees T.alike both.0 both.1) }
{
    let mut first = Reader::new(alloc, one, u64::MAX);
    let mut second = Reader::new(alloc, other, u64::MAX);
    let answer = first.continue_::<T>();
    let again = second.continue_::<T>();
    let one = first.into_inner();
    let other = second.into_inner();
    if one.faults() > 0 {
        return None;
    }
    if other.faults() > 0 {
        return None;
    }
    continue_decided_by_words::<T, MemSource, MemSource>();
    Some((answer, again))
}
