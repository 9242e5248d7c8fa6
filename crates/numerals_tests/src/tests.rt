// Rows, and what holds at each power of a base.
use numerals::{Radix, count_digits, digits_of, push_digits, read_digits};
use std::alloc::Global;
use std::process::Abort;
use std::test::Fail;

/// Base, case of letters, number, and its text.
const WRITTEN: &str = "2;small;0;0
8;small;0;0
10;small;0;0
16;small;0;0
16;capital;255;FF
16;small;255;ff
10;capital;255;255
8;small;255;377
2;small;255;11111111
16;small;3735928559;deadbeef
16;capital;2309737967;89ABCDEF
10;small;18446744073709551615;18446744073709551615
10;small;18446744073709551616;18446744073709551616
16;small;18446744073709551615;ffffffffffffffff
16;small;18446744073709551616;10000000000000000
8;small;18446744073709551615;1777777777777777777777
8;small;18446744073709551616;2000000000000000000000
16;small;170141183460469231750134047789593657354;8000000000000001000000000000000a
2;capital;340282366920938463463374607431768211455;11111111111111111111111111111111111111111111111111111111111111111111111111111111111111111111111111111111111111111111111111111111
8;capital;340282366920938463463374607431768211455;3777777777777777777777777777777777777777777
10;capital;340282366920938463463374607431768211455;340282366920938463463374607431768211455
16;capital;340282366920938463463374607431768211455;FFFFFFFFFFFFFFFFFFFFFFFFFFFFFFFF";

/// Base, text, and the number that is read from it; no number where the text is refused.
const READ: &str = "2;;
8;;
10;;
16;;
16;0ff;255
16;fF;255
10;0;0
2;000;0
8;007;7
10;19;19
10;00000000000000000000000000000000000000000000000042;42
10;+1;
10;-1;
10; 1;
10;1 ;
10;1_0;
10;1.;
10;0x1;
10;é;
10;1é;
10;/;
10;:;
2;2;
8;8;
10;a;
10;A;
16;g;
16;G;
16;@;
16;`;
16;+f;
16;-f;
16;0xf;
10;340282366920938463463374607431768211455;340282366920938463463374607431768211455
10;340282366920938463463374607431768211456;
10;999999999999999999999999999999999999999;
10;99999999999999999999999999999999999999;99999999999999999999999999999999999999
10;1000000000000000000000000000000000000000;
10;0340282366920938463463374607431768211455;340282366920938463463374607431768211455
16;FFFFFFFFFFFFFFFFFFFFFFFFFFFFFFFF;340282366920938463463374607431768211455
16;100000000000000000000000000000000;
2;11111111111111111111111111111111111111111111111111111111111111111111111111111111111111111111111111111111111111111111111111111111;340282366920938463463374607431768211455
2;100000000000000000000000000000000000000000000000000000000000000000000000000000000000000000000000000000000000000000000000000000000;
8;3777777777777777777777777777777777777777777;340282366920938463463374607431768211455
8;4000000000000000000000000000000000000000000;";

/// The radix of a base, as a row names it.
fn radix_of(base: &str) -> Option<Radix> {
    match base {
        "2" => Some(Radix::Two),
        "8" => Some(Radix::Eight),
        "10" => Some(Radix::Ten),
        "16" => Some(Radix::Sixteen),
        _ => None,
    }
}

/// The number is written as the text behind what stood before, has as many digits, and is read from it.
fn is_numeral(
    rt: &impl Abort,
    alloc: Global,
    n: u128,
    radix: Radix,
    upper: bool,
    text: &str,
) -> Result<(), Fail> {
    let mut out = String::from_str(alloc, ">")?;
    assert_eq!(rt; push_digits(&mut out, n, radix, upper), Ok(()));
    let digits = out.strip_prefix('>').ok_or("the front was lost")?;
    assert_eq!(rt; digits, text);
    assert_eq!(rt; digits_of(n, radix, upper, &mut [0; 128]), text);
    assert_eq!(rt; count_digits(n, radix), text.len(), "{text}");
    assert_eq!(rt; read_digits(text, radix), Some(n), "{text}");
    Ok(())
}

/// A row of numbers that are written.
fn written_row(rt: &impl Abort, alloc: Global, row: &str) -> Result<(), Fail> {
    let (base, row) = row.split_once(';').ok_or("no case")?;
    let (case, row) = row.split_once(';').ok_or("no number")?;
    let (number, text) = row.split_once(';').ok_or("no text")?;
    let radix = radix_of(base).ok_or("no such base")?;
    is_numeral(rt, alloc, number.parse()?, radix, case == "capital", text)
}

#[test]
fn numbers_are_written(rt: HostRuntime) -> Result<(), Fail> {
    'rows: for row in WRITTEN.lines() {
        written_row(&rt, rt.alloc(), row)?;
    }
    Ok(())
}

/// A row of texts that are read.
fn read_row(rt: &impl Abort, row: &str) -> Result<(), Fail> {
    let (base, row) = row.split_once(';').ok_or("no text")?;
    let (text, number) = row.rsplit_once(';').ok_or("no number")?;
    let radix = radix_of(base).ok_or("no such base")?;
    let want = if number.is_empty() {
        None
    } else {
        Some(number.parse()?)
    };
    assert_eq!(rt; read_digits(text, radix), want, "{row}");
    Ok(())
}

#[test]
fn texts_are_read(rt: HostRuntime) -> Result<(), Fail> {
    'rows: for row in READ.lines() {
        read_row(&rt, row)?;
    }
    Ok(())
}

/// The texts of a power of a base and of its neighbours.
#[derive(Drop)]
struct Around {
    below: String,
    at: String,
    above: String,
}

/// The power and its neighbours are written as these texts.
fn are_numerals(
    rt: &impl Abort,
    alloc: Global,
    power: u128,
    radix: Radix,
    texts: &Around,
) -> Result<(), Fail> {
    let (below, above) = (power.wrapping_sub(1), power.wrapping_add(1));
    is_numeral(rt, alloc, below, radix, false, texts.below.as_str())?;
    is_numeral(rt, alloc, power, radix, false, texts.at.as_str())?;
    is_numeral(rt, alloc, above, radix, false, texts.above.as_str())
}

/// The texts at the next power: below it stand the greatest digits alone, at it a one and zeros, above it the last
/// zero is a one.
fn push_place(texts: &mut Around, greatest: char) -> Result<(), Fail> {
    texts.above = texts.at.clone()?;
    texts.below.push(greatest)?;
    texts.at.push('0')?;
    texts.above.push('1')?;
    Ok(())
}

/// At each power of the base the numeral is one digit longer.
fn lengths_change(
    rt: &impl Abort,
    alloc: Global,
    radix: Radix,
    base: u128,
    greatest: char,
) -> Result<(), Fail> {
    let mut power: u128 = 1;
    let mut texts = Around {
        below: String::new(alloc),
        at: String::from_str(alloc, "1")?,
        above: String::new(alloc),
    };
    'places: for place in 1..129 {
        let _ = place;
        let Some(next) = power.checked_mul(base) else {
            break;
        };
        power = next;
        push_place(&mut texts, greatest)?;
        are_numerals(rt, alloc, power, radix, &texts)?;
    }
    Ok(())
}

#[test]
fn lengths_change_at_powers(rt: HostRuntime) -> Result<(), Fail> {
    lengths_change(&rt, rt.alloc(), Radix::Two, 2, '1')?;
    lengths_change(&rt, rt.alloc(), Radix::Eight, 8, '7')?;
    lengths_change(&rt, rt.alloc(), Radix::Ten, 10, '9')?;
    lengths_change(&rt, rt.alloc(), Radix::Sixteen, 16, 'f')
}
