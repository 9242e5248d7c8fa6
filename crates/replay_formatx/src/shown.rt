// How the values of lines stand in templates of formatx.

use formatx::{DebugStyle, Error, FormatValue, Shape};
use replay::Value;

/// Makes a call on the value that a `Value` holds.
macro_rules! with_held {
    ($value:expr, $held:ident => $call:expr) => {
        match $value {
            Value::U8($held) => $call,
            Value::U16($held) => $call,
            Value::U32($held) => $call,
            Value::U64($held) => $call,
            Value::U128($held) => $call,
            Value::Usize($held) => $call,
            Value::I8($held) => $call,
            Value::I16($held) => $call,
            Value::I32($held) => $call,
            Value::I64($held) => $call,
            Value::I128($held) => $call,
            Value::Isize($held) => $call,
            Value::Bool($held) => $call,
            Value::Char($held) => $call,
            Value::Str(text) => {
                let $held = &text.as_str();
                $call
            }
            Value::String($held) => $call,
        }
    };
}

/// A value of a line, shown as formatx's own implementation of its type shows it.
#[derive(Drop)]
pub(crate) struct Shown(pub Value);

impl FormatValue for Shown {
    ghost use Rattle.replay_formatx.specs.Meaning.{shown};

    ghost meaning = { λ value. shown value.0 };

    fn display(&self, out: &mut String) -> Result<(), Error> {
        with_held!(&self.0, held => held.display(out))
    }

    fn debug(&self, style: DebugStyle, out: &mut String) -> Result<(), Error> {
        with_held!(&self.0, held => held.debug(style, out))
    }

    fn display_shape(&self) -> Shape {
        with_held!(&self.0, held => held.display_shape())
    }

    fn debug_shape(&self) -> Shape {
        with_held!(&self.0, held => held.debug_shape())
    }
}
