ghost use Rattle.std.specs.Prelude.{◌≡◌, ◌≢◌, MatchOption, codes, if◌then◌else◌};

use scan_fmt::parse::{ReadSlice, scan_slices};
use std::test::Fail;

/// A switch, written `on` or `off`.
#[derive(Clone, Copy, Debug)]
struct Switch {
    on: bool,
}

impl<'a> ReadSlice<'a> for Switch {
    // What a token reads as: a switch, or none where it is neither word.
    ghost reads_slice = { λ token answer. MatchOption answer ((token ≢ codes "on") × (token ≢ codes "off")) (λ switch. token ≡ (if switch.on then codes "on" else codes "off")) };

    fn read_slice(token: &'a str) -> Option<Switch> {
        match token {
            "on" => Some(Switch { on: true }),
            "off" => Some(Switch { on: false }),
            _ => None,
        }
    }
}

pub fn show(rt: &HostRuntime) -> Result<(), Fail> {
    let mut slices = scan_slices(rt.alloc(), "lamp: on", "{}: {s}")?;
    let name = slices.next_as::<&str>()?;
    println!(rt; "{name} {:?}", slices.next_as::<Switch>()?)?;
    Ok(())
}
