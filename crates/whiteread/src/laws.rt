// Laws that no call carries.
ghost use Rattle.whiteread.specs.Words.{words, is_blank};
ghost use Rattle.whiteread.specs.Reading.Laws.{IsOnlyRuns, NoneAtNothing, TakesAWord};
ghost use Rattle.whiteread.specs.Lines.Laws.{HandsOutTheNext};

use crate::stream::{Eats, FromStream};

/// The words of a text are its longest runs of bytes above 0x20, and no other list is.
pub fn words_are_longest_runs(text: &str)
    ensures { IsOnlyRuns is_blank text.now (words text.now) }
{
    let _ = text;
}

/// `Option<T>` gives None exactly where `T` answers `TooShort(Nothing)`.
pub fn none_is_nothing<T: FromStream>()
    ensures { NoneAtNothing T.reading.reads ⟦<Option<T> as FromStream>⟧.reading.reads }
{}

/// An Ok of a type with `Eats` takes at least one word.
pub fn eats_a_word<T: Eats>()
    ensures { TakesAWord T.reading.reads }
{}

/// A line as it stands in front of other bytes, as `advance_line` hands it out, is the next of the input's lines.
pub fn a_line_is_the_next()
    ensures { HandsOutTheNext }
{}
