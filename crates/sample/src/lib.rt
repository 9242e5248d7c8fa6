//! Sample input of any size, the same at each call.
#![tactic(auto)]

ghost use Rattle.std.specs.Prelude.{false, ◌≡◌, ◌≤◌, ◌<◌, ◌++◌, ◌*◌, ◌%◌, ◌^◌, IfOk, OnOk, codes, string_bytes};
ghost use Rattle.numerals.specs.Numeral.{numeral};
ghost use Rattle.sample.specs.Sample.{eight_digits, sign, second_field, third_field, row, sample_bytes};

use numerals::{NoMemory, Radix, digits_of, push_digits};
use padding::Field;
use std::alloc::Global;

const HEADERS: &str = "u32 i64 word\n%08x %+d %s\nformatx\n{2} {0} {1}\n";

fn push_text(out: &mut String, text: &str) -> Result<(), NoMemory>
    ensures { OnOk result (string_bytes out.new ≡ string_bytes out.old ++ text.now) }
{
    match out.push_str(text) {
        Ok(()) => Ok(()),
        Err(_) => Err(NoMemory),
    }
}

/// Appends a number of 32 bits in eight hexadecimal digits.
fn push_eight_digits(out: &mut String, n: u32) -> Result<(), NoMemory>
    ensures { OnOk result (string_bytes out.new ≡ string_bytes out.old ++ eight_digits (numeral 16 false n)) }
{
    let mut buffer = [0; 128];
    let digits = digits_of(u128::from(n), Radix::Sixteen, false, &mut buffer);
    Field {
        head: "",
        left: 0,
        lead: "",
        zeros: 8usize.saturating_sub(digits.len()),
        text: digits,
        right: 0,
        fill: ' ',
    }
    .push(out)
}

fn sign_of(k: u64) -> &'static str
    ensures { result.now ≡ sign k }
{
    if k % 2 == 0 { "+" } else { "-" }
}

/// The number that the first field of a row holds.
fn first_number(k: u64) -> u32
    requires { k < 1000000 }
    ensures { result ≡ (k * 2654435761) % (2 ^ 32) }
{
    let number = k * 2654435761 % 4294967296;
    number as u32
}

/// Appends the second field of a row, and a space.
fn push_second_field(out: &mut String, k: u64) -> Result<(), NoMemory>
    requires { k < 1000000 }
    ensures { OnOk result (string_bytes out.new ≡ string_bytes out.old ++ (second_field k ++ codes " ")) }
{
    push_text(out, sign_of(k))?;
    push_digits(out, u128::from(k * 1000003), Radix::Ten, false)?;
    push_text(out, " ")
}

/// Appends the third field of a row, and the line feed.
fn push_third_field(out: &mut String, k: u64) -> Result<(), NoMemory>
    ensures { OnOk result (string_bytes out.new ≡ string_bytes out.old ++ (third_field k ++ codes "\n")) }
{
    push_text(out, "w")?;
    push_digits(out, u128::from(k), Radix::Ten, false)?;
    push_text(out, "\n")
}

/// Appends the row of the number.
fn push_row(out: &mut String, k: u64) -> Result<(), NoMemory>
    requires { k < 1000000 }
    ensures { OnOk result (string_bytes out.new ≡ string_bytes out.old ++ row k) }
{
    push_eight_digits(out, first_number(k))?;
    push_text(out, " ")?;
    push_second_field(out, k)?;
    push_third_field(out, k)
}

/// The bytes of a sample with so many rows, at most 1000000: four header lines and the rows.
pub fn sample_input(alloc: Global, n: u64) -> Result<Vec<u8>, NoMemory>
    requires { n ≤ 1000000 }
    ensures { IfOk result (λ bytes. bytes.items ≡ sample_bytes n) }
{
    let mut text = String::new(alloc);
    push_text(&mut text, HEADERS)?;
    'rows: for k in 0..n {
        push_row(&mut text, k)?;
    }
    Ok(text.into_bytes())
}
