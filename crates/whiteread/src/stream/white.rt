// The words of std's `split_whitespace`.
ghost use Rattle.whiteread.specs.Words.White.{GivesWhite, white_stream};
ghost use Rattle.whiteread.specs.Inner.WordProofs.{white_is_stream};

use crate::stream::{Result, StrStream};
use std::mem;
use std::str::SplitWhitespace;

/// One step, by value.
fn step<'a>(words: SplitWhitespace<'a>) -> (Option<&'a str>, SplitWhitespace<'a>)
    ensures { GivesWhite words.entry result.0 result.1 }
{
    let mut words = words;
    let word = Iterator::next(&mut words);
    (word, words)
}

impl StrStream for SplitWhitespace<'_> {
    ghost stream = { white_stream };

    ghost is_stream = { white_is_stream };

    fn next(&mut self) -> Result<Option<&str>> {
        let words = mem::replace(self, "".split_whitespace());
        let (word, rest) = step(words);
        *self = rest;
        Ok(word)
    }
}
