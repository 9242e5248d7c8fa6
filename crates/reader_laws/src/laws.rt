// Laws of a reader's values, which no call carries.
ghost use Rattle.reader_laws.specs.Good.{ContinuesGood, MeetsNoFault, AgreeAlike};

use crate::alike::Alike;
use edge_io::Source;
use whiteread::stream::FromStream;

/// Over UTF-8 input within the limit, from a source that doesn't fail, `continue_` never answers `IoError`.
pub fn no_fault_over_good_input<T: FromStream, S: Source>()
    ensures { MeetsNoFault (ContinuesGood S.supply T.reading T.REQUEST_CHEAP_ERROR) }
{}

/// Over such inputs, `continue_` of any two readers with the same words left gives values that are alike, or errors
/// that are the same but for their places, where neither wants memory.
pub fn continue_decided_by_words<T: Alike, A: Source, B: Source>()
    ensures { AgreeAlike T.alike (ContinuesGood A.supply T.reading T.REQUEST_CHEAP_ERROR) (ContinuesGood B.supply T.reading T.REQUEST_CHEAP_ERROR) }
{}
