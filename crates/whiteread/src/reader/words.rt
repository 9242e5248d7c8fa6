// The words of a reader, across its lines.
ghost use Rattle.whiteread.specs.Stream.{NextCall};
ghost use Rattle.whiteread.specs.ReaderState.ReaderWords.{reader_stream};
ghost use Rattle.whiteread.specs.Inner.ReaderSteps.{LooksInLine, BeginsIn, word_answer};

use crate::reader::Reader;
use crate::stream::{Result, StrStream, find_word};
use edge_io::Source;

impl<B: Source> Reader<B> {
    /// Passes the next word of the line, and answers where it begins.
    fn look(&mut self) -> Option<usize>
        ensures { LooksInLine self.old result self.new }
    {
        let (start, end) = find_word(self.current_line(), self.passed);
        if start >= end {
            return None;
        }
        self.passed = end;
        Some(start)
    }

    /// Passes the next word, and answers where it begins in its line.
    fn step(&mut self) -> Result<Option<usize>>
        ensures call { NextCall (reader_stream B.supply) self.old (word_answer result self.new) self.new }
        ensures begins { BeginsIn result self.new }
    {
        'lines: loop {
            if let Some(start) = self.look() {
                return Ok(Some(start));
            }
            if !self.read_line()? {
                return Ok(None);
            }
        }
    }
}

impl<B: Source> StrStream for Reader<B> {
    ghost use Rattle.whiteread.specs.Inner.ReaderProofs.{reader_is_stream};

    ghost stream = { reader_stream B.supply };

    ghost is_stream = { reader_is_stream B.supply };

    fn next(&mut self) -> Result<Option<&str>> {
        let Some(start) = self.step()? else {
            return Ok(None);
        };
        let end = self.passed;
        Ok(Some(&self.current_line()[start..end]))
    }
}
