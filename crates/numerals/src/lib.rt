//! Numbers as digits in four bases: written into a text, counted, and read from one.
#![tactic(auto)]

ghost use Rattle.std.specs.Prelude.{◌≡◌, ◌≤◌};
ghost use Rattle.numerals.specs.Numeral.{base_of};

mod laws;
mod read;
mod write;

pub use laws::{longer_numeral, numeral_is_std, numeral_of_value, numeral_reads_back, one_numeral};
pub use read::read_digits;
use std::alloc::AllocError;
pub use write::{count_digits, digits_of, push_digits};

/// A growth of a text or a list was refused.
#[derive(Clone, Copy, Debug, PartialEq, Eq)]
pub struct NoMemory;

impl From<AllocError> for NoMemory {
    fn from(_: AllocError) -> NoMemory {
        NoMemory
    }
}

/// The base that a number is written in.
#[derive(Clone, Copy, Debug, PartialEq, Eq)]
pub enum Radix {
    Two,
    Eight,
    Ten,
    Sixteen,
}

impl Radix {
    fn base(self) -> u32
        ensures value { result ≡ base_of self }
        ensures low { 2 ≤ result }
        ensures high { result ≤ 16 }
    {
        match self {
            Radix::Two => 2,
            Radix::Eight => 8,
            Radix::Ten => 10,
            Radix::Sixteen => 16,
        }
    }
}
