// A text cut at its braces.

ghost use Rattle.std.specs.Prelude.{◌≡◌, ◌≢◌, ◌∷◌, [], ◌<◌, ◌≤◌, length, slice_index, take, drop};
ghost use Rattle.std.specs.Str.{byte};
ghost use Rattle.strfmt.specs.Inner.Cutting.{BeginsWithBrace, IsNext, IsPlainFront, brace_byte};
ghost use Rattle.strfmt.specs.Grammar.{IsBrace};

use crate::cause::Cause;

#[derive(Clone, Copy)]
pub(crate) enum Brace {
    Open,
    Close,
}

impl Brace {
    /// The brace of this byte.
    fn of(byte: u8) -> Brace
        requires { IsBrace byte }
        ensures { brace_byte result ≡ byte }
    {
        if byte == b'{' {
            Brace::Open
        } else {
            Brace::Close
        }
    }

    pub(crate) fn as_str(self) -> &'static str
        ensures { result.now ≡ brace_byte self ∷ [] }
    {
        match self {
            Brace::Open => "{",
            Brace::Close => "}",
        }
    }
}

/// What stands at the front of a text that is empty or begins with a brace, and the text after it.
#[derive(Drop)]
pub(crate) enum Next<'a> {
    End,
    /// A brace that is doubled.
    Escape(Brace, &'a str),
    /// A pattern without its braces.
    Pattern(&'a str, &'a str),
    /// A brace that is wrong.
    Wrong(Cause),
}

/// Where the first brace stands, or the length.
fn find_brace(text: &[u8]) -> usize
    ensures front { IsPlainFront text.now (take result text.now) (drop result text.now) }
    ensures within { result ≤ length text.now }
{
    let mut rest = text;
    let mut found = 0;
    'bytes: while let Some((first, tail)) = rest.split_first() {
        if *first == b'{' || *first == b'}' {
            break;
        }
        found += 1;
        rest = tail;
    }
    found
}

/// The longest front without braces, and the rest.
pub(crate) fn split_plain(text: &str) -> (&str, &str)
    ensures { IsPlainFront text.now result.0.now result.1.now }
{
    text.split_at(find_brace(text.as_bytes()))
}

/// The text after an ASCII character.
fn after_ascii(text: &str) -> &str
    requires some { 0 < length text.now }
    requires ascii { slice_index text.now 0 < 128 }
    ensures { text.now ≡ slice_index text.now 0 ∷ result.now }
{
    let (_, after) = text.split_at(1);
    after
}

/// What stands at the front.
pub(crate) fn look(text: &str) -> Next<'_>
    requires { BeginsWithBrace text.now }
    ensures { IsNext text.now result }
{
    let bytes = text.as_bytes();
    if bytes.is_empty() {
        return Next::End;
    }
    let brace = bytes[0];
    let after = after_ascii(text);
    let following = after.as_bytes();
    if !following.is_empty() && following[0] == brace {
        return Next::Escape(Brace::of(brace), after_ascii(after));
    }
    if brace == b'}' {
        return Next::Wrong(Cause::LoneBrace);
    }
    pattern(after)
}

/// A pattern, of which `text` stands after its opening brace.
fn pattern(text: &str) -> Next<'_>
    requires { slice_index text.now 0 ≢ byte "{" }
    ensures { IsNext (byte "{" ∷ text.now) result }
{
    let (inner, rest) = split_plain(text);
    let bytes = rest.as_bytes();
    if bytes.is_empty() {
        return Next::Wrong(Cause::NoClosingBrace);
    }
    if bytes[0] == b'}' {
        return Next::Pattern(inner, after_ascii(rest));
    }
    Next::Wrong(Cause::NestedBrace)
}
