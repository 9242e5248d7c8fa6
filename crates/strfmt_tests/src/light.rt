// A caller's own type of values.
use strfmt::{DisplayStr, FmtError, Formatter, Result};

/// A light, which displays as its word; a broken one refuses with a message of its own.
#[derive(Drop)]
pub enum Light {
    On,
    Off,
    Broken(String),
}

impl DisplayStr for Light {
    ghost use Rattle.strfmt_tests.specs.Light.{light_field};

    ghost meaning = { light_field };

    fn display_str(&self, f: &mut Formatter<'_>) -> Result<()> {
        match self {
            Light::On => f.str("on"),
            Light::Off => f.str("off"),
            Light::Broken(message) => {
                match String::from_str(*message.allocator(), message.as_str()) {
                    Ok(copy) => Err(FmtError::KeyError(copy)),
                    Err(_) => Err(FmtError::NoMemory),
                }
            }
        }
    }
}
