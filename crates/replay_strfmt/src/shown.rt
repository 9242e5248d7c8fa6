// How the values of lines stand in fields of strfmt.
ghost use Rattle.std.specs.Prelude.{◌≡◌};
ghost use Rattle.replay_strfmt.specs.Meaning.{flag_text};

use replay::Value;
use strfmt::{DisplayStr, Formatter};

/// A value of a line. It displays itself as strfmt's own implementation of its type does; `bool` and `char`, which have
/// none there, as their texts.
#[derive(Drop)]
pub(crate) struct Shown(pub Value);

impl DisplayStr for Shown {
    ghost use Rattle.replay_strfmt.specs.Meaning.{displayed};

    ghost meaning = { λ shown. displayed shown.0 };

    fn display_str(&self, f: &mut Formatter<'_>) -> strfmt::Result<()> {
        match &self.0 {
            Value::U8(n) => n.display_str(f),
            Value::U16(n) => n.display_str(f),
            Value::U32(n) => n.display_str(f),
            Value::U64(n) => n.display_str(f),
            Value::U128(n) => f.u128(*n),
            Value::Usize(n) => n.display_str(f),
            Value::I8(n) => n.display_str(f),
            Value::I16(n) => n.display_str(f),
            Value::I32(n) => n.display_str(f),
            Value::I64(n) => n.display_str(f),
            Value::I128(n) => f.i128(*n),
            Value::Isize(n) => n.display_str(f),
            Value::Bool(flag) => f.str(bool_text(*flag)),
            Value::Char(c) => f.str(c.encode_utf8(&mut [0; 4])),
            Value::Str(text) => text.as_str().display_str(f),
            Value::String(text) => text.display_str(f),
        }
    }
}

fn bool_text(flag: bool) -> &'static str
    ensures { result.now ≡ flag_text flag }
{
    if flag { "true" } else { "false" }
}
