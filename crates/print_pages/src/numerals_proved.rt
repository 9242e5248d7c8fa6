ghost use Rattle.std.specs.Prelude.{◌≡◌, ◌++◌, OnErr, OnOk, false, string_bytes};
ghost use Rattle.numerals.specs.Numeral.{numeral};

use numerals::{NoMemory, Radix, push_digits};
use std::test::Fail;

/// Appends a number in base two.
fn push_bits(out: &mut String, number: u64) -> Result<(), NoMemory>
    ensures bits { OnOk result (string_bytes out.new ≡ string_bytes out.old ++ numeral 2 false number) }
    ensures unchanged { OnErr result (string_bytes out.new ≡ string_bytes out.old) }
{
    push_digits(out, number as u128, Radix::Two, false)
}

pub fn show(rt: &HostRuntime) -> Result<(), Fail> {
    let mut text = String::new(rt.alloc());
    push_bits(&mut text, 10)?;
    println!(rt; "{text}")?;
    Ok(())
}
