ghost use Rattle.std.specs.Prelude.{◌≡◌, codes, if◌then◌else◌};
ghost use Rattle.sprintf.specs.Values.{word_meaning};

use sprintf::{ConversionSpecifier, Printf, vsprintf};
use std::alloc::Global;
use std::test::Fail;

/// A switch, which prints under `%s` as the word `on` or `off`.
#[derive(Drop)]
struct Switch {
    on: bool,
}

impl Switch {
    fn word(&self) -> &'static str
        ensures { result.now ≡ (if self.now.on then codes "on" else codes "off") }
    {
        if self.on { "on" } else { "off" }
    }
}

impl Printf for Switch {
    // What it means to a format: what a text with this word means.
    ghost meaning = { λ switch. word_meaning (if switch.on then codes "on" else codes "off") };

    fn format(&self, alloc: Global, spec: &ConversionSpecifier) -> sprintf::Result<String> {
        self.word().format(alloc, spec)
    }

    fn as_int(&self) -> Option<i32> {
        None
    }
}

pub fn show(rt: &HostRuntime) -> Result<(), Fail> {
    let switches = [Switch { on: true }, Switch { on: false }];
    println!(rt; "{}", vsprintf(rt.alloc(), "%5s|%-5s|", &switches)?)?;
    Ok(())
}
