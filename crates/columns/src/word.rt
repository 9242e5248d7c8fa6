// Words in front of a text.
ghost use Rattle.std.specs.Prelude.{◌≡◌, ◌≤◌, length, take, false, IfSome, IsUtf8};
ghost use Rattle.std.specs.List.{AllByRecursion};
ghost use Rattle.columns.specs.Inner.Shapes.{IsTaken, IsWordByte};
ghost use Rattle.columns.specs.declared.take.Take.TheVariants.{Word};

use std::simd::prelude::*;

/// The longest word that a printf format prints whole.
pub(crate) const LONGEST: usize = 2_147_483_647;

/// How many bytes are tested at once.
const LANES: usize = 16;

// How many of the first sixteen bytes stand in front of the first that may end a word: the stop, or one that is not above a space.
#[inline(always)]
fn sure_run(text: &[u8], stop: u8) -> usize
    requires { 16 ≤ length text.now }
    ensures bytes { AllByRecursion (IsWordByte stop) (take result text.now) }
    ensures few { result ≤ 16 }
{
    let bytes = u8x16::from_slice(text);
    let ends = bytes.simd_le(u8x16::splat(b' ')) | bytes.simd_eq(u8x16::splat(stop));
    let ends = ends.to_bitmask();
    if ends == 0 {
        LANES
    } else {
        ends.trailing_zeros() as usize
    }
}

// How many bytes in front surely belong to the word, by tests of sixteen.
#[inline(always)]
fn sure_len(text: &[u8], stop: u8) -> usize
    ensures bytes { AllByRecursion (IsWordByte stop) (take result text.now) }
    ensures within { result ≤ length text.now }
{
    let mut len = 0;
    'runs: while text.len() - len >= LANES {
        let run = sure_run(&text[len..], stop);
        len += run;
        if run < LANES {
            break;
        }
    }
    len
}

// Whether a word ends in front of the byte: it is the stop character, or white space.
#[inline(always)]
fn ends_word(byte: u8, stop: u8) -> bool
    ensures { result ≡ false → IsWordByte stop byte }
{
    byte == stop || byte == b' ' || byte == b'\n' || byte == b'\t' || byte == b'\r'
}

// How many bytes stand in front of the first that ends a word.
#[inline(always)]
fn bytes_of_word(text: &[u8], stop: u8) -> usize
    ensures bytes { AllByRecursion (IsWordByte stop) (take result text.now) }
    ensures within { result ≤ length text.now }
{
    let mut len = 0;
    'bytes: for byte in text {
        if ends_word(*byte, stop) {
            break;
        }
        len += 1;
    }
    len
}

// The same, by a loop for each of the stops that are most frequent.
#[inline(always)]
fn rest_len(text: &[u8], stop: u8) -> usize
    ensures bytes { AllByRecursion (IsWordByte stop) (take result text.now) }
    ensures within { result ≤ length text.now }
{
    match stop {
        b' ' => bytes_of_word(text, b' '),
        b'\n' => bytes_of_word(text, b'\n'),
        _ => bytes_of_word(text, stop),
    }
}

// The same, by tests of sixteen bytes as long as there are so many.
#[inline(always)]
fn word_len(text: &[u8], stop: u8) -> usize
    ensures bytes { AllByRecursion (IsWordByte stop) (take result text.now) }
    ensures within { result ≤ length text.now }
{
    let sure = sure_len(text, stop);
    sure + rest_len(&text[sure..], stop)
}

/// The word in front, which is not empty, and what stands behind it.
#[inline(always)]
pub(crate) fn take_word(text: &[u8], stop: u8) -> Option<(u64, &[u8])>
    requires { IsUtf8 text.now }
    ensures { IfSome result (λ found. IsTaken (Word stop) text.now found.0 found.1.now) }
{
    let len = word_len(text, stop);
    if len == 0 || len > LONGEST {
        return None;
    }
    let rest = &text[len..];
    match rest {
        [] => Some((0, rest)),
        [0..=127, ..] => Some((0, rest)),
        _ => None,
    }
}
