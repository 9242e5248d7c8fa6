use numerals::{NoMemory, Radix, count_digits, push_digits, read_digits};
use std::alloc::Global;
use std::test::Fail;

/// An offset in eight hexadecimal digits at least.
fn offset(out: &mut String, number: u128) -> Result<(), NoMemory> {
    for _missing in count_digits(number, Radix::Sixteen)..8 {
        out.push('0')?;
    }
    push_digits(out, number, Radix::Sixteen, false)
}

fn offsets(alloc: Global, numbers: &[u128]) -> Result<String, Fail> {
    let mut text = String::new(alloc);
    for number in numbers {
        offset(&mut text, *number)?;
        text.push(' ')?;
    }
    Ok(text)
}

pub fn show(rt: &HostRuntime) -> Result<(), Fail> {
    println!(rt; "{}", offsets(rt.alloc(), &[0, 4096, 1 << 36])?)?;
    println!(rt; "{:?}", read_digits("00ff", Radix::Sixteen))?;
    println!(rt; "{:?}", read_digits("+7", Radix::Ten))?;
    Ok(())
}
