// The current line of a reader, and the bytes that wait for the next one.
ghost use Rattle.std.specs.Prelude.{◌≡◌, ◌≤◌, ◌<◌, ◌+◌, ◌-◌, ◌⊎◌, ◌↔◌, ◌++◌, [], List, ℕ, true, length, take, drop, get_or, slice_range, MatchOption, MatchResult, MatchBool, IfOk, IfErr, OnOk, IsErrOf, IsTrue, IsUtf8};
ghost use Rattle.std.specs.Str.{is_utf8};
ghost use Rattle.whiteread.specs.Lines.{HasNoFeed, IsWhole, IsFirstLine, line_feed};
ghost use Rattle.std.specs.Io.KnownBytes.{IsAtEnd};
ghost use Rattle.edge_io.specs.Ends.{Rises};
ghost use Rattle.edge_io.specs.Supply.{Gave};

use crate::stream::{Error, IoFault, Result};
use edge_io::{Failed, Source};
use memchr::memchr;
use std::alloc::Global;

/// Whether the bytes are UTF-8.
fn is_text(bytes: &[u8]) -> bool
    ensures { IsTrue result ↔ IsUtf8 bytes.now }
{
    std::str::from_utf8(bytes).is_ok()
}

/// How many bytes at the front are UTF-8, up to the last whole character or the first fault.
fn text_len(bytes: &[u8]) -> usize
    ensures within { result ≤ length bytes.now }
    ensures text { IsUtf8 (take result bytes.now) }
{
    match std::str::from_utf8(bytes) {
        Ok(text) => text.len(),
        Err(why) => why.valid_up_to(),
    }
}

/// One read of the source into a part of a buffer.
fn read_between<S: Source>(
    source: &mut S,
    bytes: &mut [u8],
    from: usize,
    to: usize,
) -> std::result::Result<usize, Failed>
    requires order { from ≤ to }
    requires within { to ≤ length bytes.old }
    ensures front { take from bytes.new ≡ take from bytes.old }
    ensures got { IfOk result (λ n. Gave S.supply source.old source.new (slice_range bytes.new from (from + n)) × (from + n ≤ to)) }
    ensures end { IfOk result (λ n. n ≡ 0 → from < to → IsAtEnd (S.supply.rest source.new)) }
    ensures no_fault { OnOk result (S.supply.faults source.new ≡ S.supply.faults source.old) }
    ensures fault { IfErr result (λ _. Rises (S.supply.faults source.old) (S.supply.faults source.new)) }
    ensures none { IfErr result (λ _. Gave S.supply source.old source.new []) }
    ensures same_reference { S.supply.reference source.new ≡ S.supply.reference source.old }
{
    source.read(&mut bytes[from..to])
}

/// The current line, and after it the bytes that wait, in the order in which they came. Bytes are put in at the back
/// and taken out at the front. Each is looked at once in the search for line feeds, tested once for UTF-8, and moved
/// at most once a read. What has room once isn't cleared again.
#[derive(Drop)]
pub(crate) struct Buffer {
    bytes: Vec<u8>,
    /// How long the current line is, which ends where the waiting bytes begin.
    line: usize,
    /// Where the waiting bytes begin, and where they end.
    start: usize,
    end: usize,
    /// How many of them were searched and hold no line feed, and whether one is known to stand after those.
    searched: usize,
    has_feed: bool,
    /// How many of them are known to be UTF-8.
    text: usize,
    ghost line_within: { line ≤ start },
    ghost within: { start ≤ end },
    ghost end_within: { end ≤ length bytes.items },
    ghost searched_within: { start + searched ≤ end },
    ghost text_within: { start + text ≤ end },
    ghost no_feed: { HasNoFeed (take searched (slice_range bytes.items start end)) },
    ghost feed: { has_feed ≡ true → (start + searched < end) × (get_or (slice_range bytes.items start end) searched 0 ≡ line_feed) },
    ghost is_text: { is_utf8 (take text (slice_range bytes.items start end)) ≡ true },
    ghost line_is_text: { is_utf8 (slice_range bytes.items (start - line) start) ≡ true },
}

impl Buffer {
    ghost use Rattle.whiteread.specs.ReaderState.Buffer.{buffer_line, buffer_waiting};

    pub(crate) fn new(alloc: Global) -> Buffer
        ensures line { buffer_line result ≡ [] }
        ensures waiting { buffer_waiting result ≡ [] }
    {
        Buffer {
            bytes: Vec::new(alloc),
            line: 0,
            start: 0,
            end: 0,
            searched: 0,
            has_feed: false,
            text: 0,
        }
    }

    /// How many bytes wait.
    pub(crate) fn len(&self) -> usize
        ensures { result ≡ length (buffer_waiting self.now) }
    {
        self.end - self.start
    }

    /// The current line.
    pub(crate) fn line(&self) -> &str
        ensures { result.now ≡ buffer_line self.now }
    {
        unsafe { std::str::from_utf8_unchecked(&self.bytes[self.start - self.line..self.start]) }
    }

    /// Drops the current line.
    pub(crate) fn clear_line(&mut self)
        ensures line { buffer_line self.new ≡ [] }
        ensures waiting { buffer_waiting self.new ≡ buffer_waiting self.old }
    {
        self.line = 0;
    }

    /// How many bytes the first whole line has, its line feed included; None where no line feed waits.
    pub(crate) fn line_len(&mut self) -> Option<usize>
        ensures same_line { buffer_line self.new ≡ buffer_line self.old }
        ensures waiting { buffer_waiting self.new ≡ buffer_waiting self.old }
        ensures line { MatchOption result (HasNoFeed (buffer_waiting self.old)) (λ len. (len ≤ length (buffer_waiting self.old)) × IsWhole (take len (buffer_waiting self.old))) }
    {
        if self.has_feed {
            return Some(self.searched + 1);
        }
        match memchr(b'\n', &self.bytes[self.start + self.searched..self.end]) {
            Some(at) => {
                self.searched += at;
                self.has_feed = true;
                Some(self.searched + 1)
            }
            None => {
                self.searched = self.end - self.start;
                None
            }
        }
    }

    /// Makes the first bytes the current line, if they are text, and else passes them. It answers whether they are.
    pub(crate) fn take_line(&mut self, len: usize) -> bool
        requires within { len ≤ length (buffer_waiting self.old) }
        requires first { IsFirstLine (take len (buffer_waiting self.old)) (drop len (buffer_waiting self.old)) }
        ensures waiting { buffer_waiting self.new ≡ drop len (buffer_waiting self.old) }
        ensures text { IsTrue result ↔ IsUtf8 (take len (buffer_waiting self.old)) }
        ensures line { MatchBool result (buffer_line self.new ≡ take len (buffer_waiting self.old)) (buffer_line self.new ≡ []) }
    {
        if !self.begins_with_text(len) {
            self.pass(len);
            return false;
        }
        self.pass(len);
        self.line = len;
        true
    }

    /// Passes the first bytes, and drops the current line.
    fn pass(&mut self, len: usize)
        requires within { len ≤ length (buffer_waiting self.old) }
        requires first { IsFirstLine (take len (buffer_waiting self.old)) (drop len (buffer_waiting self.old)) }
        ensures line { buffer_line self.new ≡ [] }
        ensures waiting { buffer_waiting self.new ≡ drop len (buffer_waiting self.old) }
        ensures place { self.new.start ≡ self.old.start + len }
        ensures bytes { self.new.bytes ≡ self.old.bytes }
    {
        self.line = 0;
        self.start += len;
        self.searched = 0;
        self.has_feed = false;
        self.text = self.text.saturating_sub(len);
    }

    /// Whether the first bytes are text. A line within what was tested is, since it ends where a character does.
    fn begins_with_text(&self, len: usize) -> bool
        requires within { len ≤ length (buffer_waiting self.now) }
        requires first { IsFirstLine (take len (buffer_waiting self.now)) (drop len (buffer_waiting self.now)) }
        ensures { IsTrue result ↔ IsUtf8 (take len (buffer_waiting self.now)) }
    {
        len <= self.text || is_text(&self.bytes[self.start..self.start + len])
    }

    /// Makes one read of at most so many bytes, puts what it gives in at the back, and answers how many there were. The
    /// current line is dropped.
    pub(crate) fn read_from<S: Source>(&mut self, source: &mut S, ask: usize) -> Result<usize>
        ensures line { buffer_line self.new ≡ [] }
        ensures bytes { (got : List ℕ) × Gave S.supply source.old source.new got × (buffer_waiting self.new ≡ buffer_waiting self.old ++ got) × (length got ≤ ask) × MatchResult result (λ count. count ≡ length got) (λ _. got ≡ []) }
        ensures end { IfOk result (λ count. count ≡ 0 → 0 < ask → IsAtEnd (S.supply.rest source.new)) }
        ensures causes { IfErr result (λ why. (why ≡ Error.NoMemory) ⊎ (why ≡ Error.IoError IoFault.ReadFault)) }
        ensures no_fault { OnOk result (S.supply.faults source.new ≡ S.supply.faults source.old) }
        ensures fault { IsErrOf result (Error.IoError IoFault.ReadFault) → Rises (S.supply.faults source.old) (S.supply.faults source.new) }
        ensures memory { IsErrOf result Error.NoMemory → source.new ≡ source.old }
        ensures same_reference { S.supply.reference source.new ≡ S.supply.reference source.old }
    {
        let room = self.make_room(ask)?;
        match read_between(source, &mut self.bytes, self.end, room) {
            Ok(count) => {
                self.accept(count);
                Ok(count)
            }
            Err(_) => Err(Error::IoError(IoFault::ReadFault)),
        }
    }

    /// Moves the waiting bytes to the front, and sees that so many bytes more have room. It answers where that room
    /// ends. The current line is dropped.
    fn make_room(&mut self, ask: usize) -> Result<usize>
        ensures line { buffer_line self.new ≡ [] }
        ensures waiting { buffer_waiting self.new ≡ buffer_waiting self.old }
        ensures room { IfOk result (λ room. (room ≡ self.new.end + ask) × (room ≤ length self.new.bytes.items)) }
        ensures memory { IfErr result (λ why. why ≡ Error.NoMemory) }
    {
        self.shift();
        let room = self.end.checked_add(ask).ok_or(Error::NoMemory)?;
        if self.bytes.len() < room {
            self.bytes.resize(room, 0)?;
        }
        Ok(room)
    }

    /// Moves the waiting bytes to the front of the buffer, and drops the current line.
    fn shift(&mut self)
        ensures line { buffer_line self.new ≡ [] }
        ensures waiting { buffer_waiting self.new ≡ buffer_waiting self.old }
    {
        self.line = 0;
        if self.start > 0 {
            self.bytes.copy_within(self.start..self.end, 0);
            self.end -= self.start;
            self.start = 0;
        }
    }

    /// Puts the next bytes of the buffer in at the back.
    fn accept(&mut self, count: usize)
        requires { self.old.end + count ≤ length self.old.bytes.items }
        ensures line { buffer_line self.new ≡ buffer_line self.old }
        ensures waiting { buffer_waiting self.new ≡ buffer_waiting self.old ++ slice_range self.old.bytes.items self.old.end (self.old.end + count) }
    {
        let end = self.end + count;
        self.text += text_len(&self.bytes[self.start + self.text..end]);
        self.end = end;
    }
}
