// Messages. Nothing here takes memory.
ghost use Rattle.std.specs.Prelude.{◌≡◌, ◌≤◌, ◌+◌, ◌++◌, ℕ, List, length, codes, decimal};
ghost use Rattle.arrayvec.specs.ArrayVec.{array_vec_len};
ghost use Rattle.line_job.specs.Told.{line_message, stop_message};

use crate::stop::Stop;
use arrayvec::ArrayVec;
use itoa::Buffer;

/// How many bytes a message has at most.
const ROOM: usize = 128;

/// A message, which keeps its bytes in itself.
pub type Message = ArrayVec<u8, 128>;

/// Why a job refuses a line: each cause has a message of its own.
pub trait Cause: Copy {
    /// The message, its line feed with it.
    ghost message: { Self → List ℕ };

    /// The message.
    fn message(self) -> Message
        ensures { result.items ≡ message self };
}

fn add(message: &mut Message, bytes: &[u8])
    requires { array_vec_len message.old + length bytes.now ≤ ROOM }
    ensures text { message.new.items ≡ message.old.items ++ bytes.now }
    ensures len { array_vec_len message.new ≡ array_vec_len message.old + length bytes.now }
{
    message.try_extend_from_slice(bytes).unwrap();
}

/// A message of these bytes alone.
pub fn text_message(text: &[u8]) -> Message
    requires { length text.now ≤ 128 }
    ensures { result.items ≡ text.now }
{
    let mut message = ArrayVec::new();
    add(&mut message, text);
    message
}

/// The message that names a line, and says what is wrong with it.
pub fn line_message(line: u64, what: &[u8]) -> Message
    requires { length what.now ≤ 80 }
    ensures { result.items ≡ line_message line what.now }
{
    let mut digits = Buffer::new();
    let mut message = ArrayVec::new();
    add(&mut message, b"line ");
    add(&mut message, digits.format(line).as_bytes());
    add(&mut message, b": ");
    add(&mut message, what);
    add(&mut message, b"\n");
    message
}

/// The message that names a line, and says with a number in it what is wrong with it.
pub fn numbered_message(line: u64, before: &[u8], number: u64, after: &[u8]) -> Message
    requires { length before.now + length after.now ≤ 60 }
    ensures { result.items ≡ line_message line (before.now ++ (decimal number ++ after.now)) }
{
    let mut digits = Buffer::new();
    let mut number_digits = Buffer::new();
    let mut message = ArrayVec::new();
    add(&mut message, b"line ");
    add(&mut message, digits.format(line).as_bytes());
    add(&mut message, b": ");
    add(&mut message, before);
    add(&mut message, number_digits.format(number).as_bytes());
    add(&mut message, after);
    add(&mut message, b"\n");
    message
}

/// The message of a stop.
pub fn message_of<W: Cause>(stop: Stop<W>) -> Message
    ensures { result.items ≡ stop_message W.message stop }
{
    match stop {
        Stop::Line(why) => why.message(),
        Stop::NotUtf8 { line } => line_message(line, b"not UTF-8"),
        Stop::TooLong => text_message(b"input past the limit\n"),
        Stop::ReadFault => text_message(b"read fault\n"),
        Stop::WriteFault => text_message(b"write fault\n"),
        Stop::NoMemory => text_message(b"no memory\n"),
    }
}
