// The words of a text, with their places.
ghost use Rattle.std.specs.Prelude.{◌≡◌, ◌≤◌, ◌<◌, not, length, take_while, slice_range, IsCharBoundary, Some, None, option_copied};
ghost use Rattle.whiteread.specs.Words.{is_blank};
ghost use Rattle.whiteread.specs.Words.Found.{FindsWord, NextWord};

use crate::stream::{Result, StrStream};

/// The words of a text: its longest runs of bytes above 0x20. It keeps the place up to which the text was passed.
#[derive(Drop)]
pub struct SplitAsciiWhitespace<'a> {
    text: &'a str,
    position: usize,
    ghost at_boundary: { position ≤ length text.now → IsCharBoundary text.now position },
}

impl<'a> SplitAsciiWhitespace<'a> {
    ghost use Rattle.whiteread.specs.Words.Split.{split_text, split_position};
    ghost use Rattle.whiteread.specs.Words.Found.{FirstBoundary};

    pub fn new(s: &'a str) -> Self
        ensures text { split_text result ≡ s.now }
        ensures position { split_position result ≡ 0 }
    {
        SplitAsciiWhitespace {
            text: s,
            position: 0,
        }
    }

    /// A position inside a character counts as the next boundary, and one past the end gives no word.
    pub fn from_parts(s: &'a str, position: usize) -> Self
        ensures text { split_text result ≡ s.now }
        ensures position { FirstBoundary s.now position (split_position result) }
    {
        let mut position = position;
        'steps: while position < s.len() && !s.is_char_boundary(position) {
            position += 1;
        }
        SplitAsciiWhitespace { text: s, position }
    }

    /// The number of bytes passed: after a word the word's end.
    pub fn position(&self) -> usize
        ensures place { result ≡ split_position self.now }
        ensures boundary { result ≤ length (split_text self.now) → IsCharBoundary (split_text self.now) result }
    {
        self.position
    }
}

/// How many blanks stand at the front.
fn blanks_len(bytes: &[u8]) -> usize
    ensures { result ≡ length (take_while is_blank bytes.now) }
{
    bytes.iter().take_while(|byte| **byte <= b' ').count()
}

/// How many bytes of a word stand at the front.
fn word_len(bytes: &[u8]) -> usize
    ensures { result ≡ length (take_while (λ byte. not (is_blank byte)) bytes.now) }
{
    bytes.iter().take_while(|byte| **byte > b' ').count()
}

/// Where the first word at or after a place begins and ends. Where there is none, both are the end.
pub(crate) fn find_word(text: &str, from: usize) -> (usize, usize)
    requires { from ≤ length text.now → IsCharBoundary text.now from }
    ensures word { result.0 < result.1 → FindsWord text.now from (slice_range text.now result.0 result.1) result.1 }
    ensures none { result.1 ≤ result.0 → NextWord text.now from None result.1 }
    ensures begins { result.0 < result.1 → IsCharBoundary text.now result.0 }
    ensures ends { result.1 ≤ length text.now → IsCharBoundary text.now result.1 }
    ensures within { result.0 < result.1 → result.1 ≤ length text.now }
{
    if from > text.len() {
        return (from, from);
    }
    let bytes = text.as_bytes();
    let start = from + blanks_len(&bytes[from..]);
    let end = start + word_len(&bytes[start..]);
    (start, end)
}

/// The first word from a place on, and its end. Where there is none, the end of the text, or the place if it is past that.
fn word_from(text: &str, from: usize) -> (Option<&str>, usize)
    requires { from ≤ length text.now → IsCharBoundary text.now from }
    ensures next { NextWord text.now from (option_copied result.0) result.1 }
    ensures ends { result.1 ≤ length text.now → IsCharBoundary text.now result.1 }
{
    let (start, end) = find_word(text, from);
    if start < end {
        (Some(&text[start..end]), end)
    } else {
        (None, end)
    }
}

impl<'a> Iterator for SplitAsciiWhitespace<'a> {
    ghost use Rattle.std.specs.Iterator.{at_most};
    ghost use Rattle.whiteread.specs.Words.Split.{words_left, GivesWord};

    type Item = &'a str;

    ghost next_gives = { GivesWord };

    ghost remaining = { λ s. at_most (length (words_left s)) };

    fn next(&mut self) -> Option<&'a str> {
        let (word, end) = word_from(self.text, self.position);
        self.position = end;
        word
    }
}

impl StrStream for SplitAsciiWhitespace<'_> {
    ghost use Rattle.whiteread.specs.Words.Split.{words_left, SplitStep, split_stream};
    ghost use Rattle.whiteread.specs.Inner.ReadingProofs.{told_is_stream};

    ghost stream = { split_stream };

    ghost is_stream = { told_is_stream words_left SplitStep };

    fn next(&mut self) -> Result<Option<&str>> {
        let (word, end) = word_from(self.text, self.position);
        self.position = end;
        Ok(word)
    }
}
