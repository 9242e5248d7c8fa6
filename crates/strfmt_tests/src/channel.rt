// A caller's own type of keys.
ghost use Rattle.std.specs.Prelude.{◌∷◌, [], bytes_eq};

use numerals::NoMemory;
use std::alloc::Global;
use strfmt::FromKey;

/// A channel, whose key is one ASCII character or none.
#[derive(Clone, Copy, PartialEq, Eq, Hash)]
pub struct Channel(pub u8);

impl FromKey for Channel {
    ghost spells = { λ text channel. bytes_eq text (channel.0 ∷ []) };

    fn from_key(alloc: Global, key: &str) -> Result<Option<Channel>, NoMemory> {
        let _ = alloc;
        match key.as_bytes() {
            [letter] => Ok(Some(Channel(*letter))),
            _ => Ok(None),
        }
    }
}
