// Laws of sources, which no call carries.
ghost use Rattle.edge_io.specs.Supply.{AddsUp};

use crate::Source;

/// Over any number of reads a source gives its pieces end to end, and one that tells its bytes loses just as many as
/// `given` counts.
pub fn reads_add_up<S: Source>()
    ensures { AddsUp S.supply }
{}
