//! Text that is laid out in a field: fronts and lengths in characters, and what is put around a text.
#![tactic(auto)]

ghost use Rattle.std.specs.Prelude.{◌≡◌, ◌++◌, ◌+◌, ◌*◌, ◌≤◌, OnOk, OnErr, IfSome, chars, take, replicate, length, encode_utf8_all, string_bytes, string_len, string_capacity};
ghost use Rattle.std.specs.Char.{len_utf8};
ghost use Rattle.padding.specs.Field.{fills, field_text};

use numerals::NoMemory;

/// How many characters a text has. It takes no memory.
pub fn count_chars(text: &str) -> usize
    ensures count { result ≡ length (chars text.now) }
    ensures bound { result ≤ length text.now }
{
    text.chars().count()
}

/// The first `count` characters of a text, or all of it where it has no more. It takes no memory.
pub fn front(text: &str, count: usize) -> &str
    ensures { result.now ≡ encode_utf8_all (take count (chars text.now)) }
{
    let mut rest = text.chars();
    'characters: for i in 0..count {
        let _ = i;
        let Some(_) = rest.next() else {
            return text;
        };
    }
    let (front, _) = text.split_at(text.len() - rest.as_str().len());
    front
}

/// A text and what is put around it, in the order of the parts. The numbers count characters.
#[derive(Clone, Copy)]
pub struct Field<'a> {
    /// What stands outside of the padding.
    pub head: &'a str,
    /// How many fills stand on the left.
    pub left: usize,
    /// What stands before the zeros: a sign, a prefix.
    pub lead: &'a str,
    /// How many zeros stand before the text.
    pub zeros: usize,
    pub text: &'a str,
    /// How many fills stand on the right.
    pub right: usize,
    /// The character that is filled with.
    pub fill: char,
}

impl Field<'_> {
    /// How many bytes the field has, where an `usize` holds that number.
    fn size(&self) -> Option<usize>
        ensures { IfSome result (λ n. n ≡ length self.now.head.now + self.now.left * len_utf8 self.now.fill + length self.now.lead.now + self.now.zeros + length self.now.text.now + self.now.right * len_utf8 self.now.fill) }
    {
        let left = self.left.checked_mul(self.fill.len_utf8())?;
        let right = self.right.checked_mul(self.fill.len_utf8())?;
        self.head
            .len()
            .checked_add(left)?
            .checked_add(self.lead.len())?
            .checked_add(self.zeros)?
            .checked_add(self.text.len())?
            .checked_add(right)
    }

    /// Appends the field. The room for all of it is taken first, so that after `NoMemory` the text is as before.
    pub fn push(&self, out: &mut String) -> Result<(), NoMemory>
        ensures ok { OnOk result (string_bytes out.new ≡ string_bytes out.old ++ field_text self.now) }
        ensures err { OnErr result (string_bytes out.new ≡ string_bytes out.old) }
    {
        let Some(size) = self.size() else {
            return Err(NoMemory);
        };
        if out.reserve(size).is_err() {
            return Err(NoMemory);
        }
        push_all(out, self.head);
        push_copies(out, self.fill, self.left);
        push_all(out, self.lead);
        push_copies(out, '0', self.zeros);
        push_all(out, self.text);
        push_copies(out, self.fill, self.right);
        Ok(())
    }
}

// Appends a character many times, for which there is room.
fn push_copies(out: &mut String, fill: char, count: usize)
    requires room { string_len out.old + count * len_utf8 fill ≤ string_capacity out.old }
    ensures bytes { string_bytes out.new ≡ string_bytes out.old ++ fills count fill }
    ensures len { string_len out.new ≡ string_len out.old + count * len_utf8 fill }
    ensures capacity { string_capacity out.old ≤ string_capacity out.new }
{
    'copies: for i in 0..count {
        let _ = i;
        out.push(fill).unwrap();
    }
}

// Appends a text, for which there is room.
fn push_all(out: &mut String, text: &str)
    requires room { string_len out.old + length text.now ≤ string_capacity out.old }
    ensures bytes { string_bytes out.new ≡ string_bytes out.old ++ text.now }
    ensures len { string_len out.new ≡ string_len out.old + length text.now }
    ensures capacity { string_capacity out.old ≤ string_capacity out.new }
{
    out.push_str(text).unwrap();
}
