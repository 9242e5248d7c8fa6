ghost use Rattle.std.specs.Prelude.{◌∷◌, [], bytes_eq, codes, if◌then◌else◌};
ghost use Rattle.strfmt.specs.Field.{text_field};

use numerals::NoMemory;
use std::alloc::Global;
use std::collections::HashMap;
use std::test::Fail;
use strfmt::{DisplayStr, Formatter, FromKey, strfmt};

/// A switch, which displays as the word `on` or `off`.
#[derive(Drop)]
struct Switch {
    on: bool,
}

impl DisplayStr for Switch {
    // What it displays under each specification: what a text with this word does.
    ghost meaning = { λ switch spec. text_field spec (if switch.on then codes "on" else codes "off") };

    fn display_str(&self, f: &mut Formatter<'_>) -> strfmt::Result<()> {
        if self.on { f.str("on") } else { f.str("off") }
    }
}

/// A key of one ASCII character.
#[derive(Clone, Copy, PartialEq, Eq, Hash)]
struct Letter(u8);

impl FromKey for Letter {
    // Which texts spell the key.
    ghost spells = { λ text letter. bytes_eq text (letter.0 ∷ []) };

    fn from_key(alloc: Global, key: &str) -> Result<Option<Letter>, NoMemory> {
        let _ = alloc;
        match key.as_bytes() {
            [letter] => Ok(Some(Letter(*letter))),
            _ => Ok(None),
        }
    }
}

pub fn show(rt: &HostRuntime) -> Result<(), Fail> {
    let alloc = rt.alloc();
    let mut vars: HashMap<Letter, Switch> = HashMap::new(alloc);
    vars.insert(Letter(b'a'), Switch { on: true })?;
    vars.insert(Letter(b'b'), Switch { on: false })?;
    println!(rt; "{}", strfmt(alloc, "{a:>5}|{b:*^5}|", &vars)?)?;
    Ok(())
}
