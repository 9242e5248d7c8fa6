//! What the separation rule rests on.
ghost use Rattle.row_format.specs.Laws.{TableIsRight};

/// The table of greatest lengths is right: without a width no number of a kind is longer, and some number is as long.
pub fn greatest_lengths()
    ensures { TableIsRight }
{}
