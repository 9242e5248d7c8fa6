ghost use Rattle.std.specs.Int.{w32};
ghost use Rattle.std.specs.Prelude.{false};
ghost use Rattle.whiteread.specs.Inner.ReadingProofs.{around_front, pair_front, word_front};
ghost use Rattle.whiteread.specs.Reading.Reads.{signed};
ghost use Rattle.whiteread.specs.Reading.Tuples.{around, pair};

use std::alloc::Global;
use std::test::Fail;
use whiteread::stream::{Result, StrStream};
use whiteread::{FromStream, parse_string};

/// A point, written as two numbers.
#[derive(Debug, Drop)]
struct Point {
    x: i32,
    y: i32,
}

impl FromStream for Point {
    const REQUEST_CHEAP_ERROR: bool = false;

    ghost REQUEST_CHEAP_ERROR = { false };

    // What it reads: what a pair of numbers reads, as a point.
    ghost reading = { around (λ point. (point.x, point.y)) (pair (signed w32) (signed w32)) };

    fn read<I: StrStream>(alloc: Global, it: &mut I) -> Result<Point> {
        let (x, y): (i32, i32) = FromStream::read(alloc, it)?;
        Ok(Point { x, y })
    }

    // Whatever it answers, it takes words from the front.
    ghost is_reading = { around_front (λ point. (point.x, point.y)) (pair (signed w32) (signed w32)) (pair_front (signed w32) (signed w32) (word_front _) (word_front _)) };
}

pub fn show(rt: &HostRuntime) -> std::result::Result<(), Fail> {
    let points: (Point, Point) = parse_string(rt.alloc(), "1 -2 \n 30 40")?;
    println!(rt; "{points:?}")?;
    Ok(())
}
