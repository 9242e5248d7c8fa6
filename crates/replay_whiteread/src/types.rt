// The types at which lines read words, by their names.

use replay::{Fault, place_of};
use std::alloc::Global;
use std::fmt::Debug;
use whiteread::FromStream;
use whiteread::adapters::{Lengthed, Skip, SkipAll, WithCheapError, Zeroed};

/// A reading that is done at a type which a line names.
pub(crate) trait TypedCall {
    fn at<T: FromStream + Debug>(&mut self, alloc: Global) -> Result<Vec<String>, Fault>;
}

/// Does the reading at the named type, which is written without spaces.
pub(crate) fn call_at<C: TypedCall>(
    alloc: Global,
    name: &str,
    call: &mut C,
) -> Result<Vec<String>, Fault> {
    match name.as_bytes() {
        [b'(', b')'] => call.at::<()>(alloc),
        [b'(', b'u', ..] => call_at_unsigned_first(alloc, name, call),
        [b'(', b'i', ..] => call_at_signed_first(alloc, name, call),
        [b'(', ..] => call_at_tuple(alloc, name, call),
        [b'O', ..] => call_at_option(alloc, name, call),
        [b'V', ..] => call_at_vec(alloc, name, call),
        [b'L', ..] => call_at_lengthed(alloc, name, call),
        [b'Z', ..] => call_at_zeroed(alloc, name, call),
        [b'W', ..] => call_at_cheap(alloc, name, call),
        _ => call_at_scalar(alloc, name, call),
    }
}

/// Does the reading at the type that stands beside the name.
macro_rules! call_at_one_of {
    ($alloc:expr, $name:expr, $call:expr; $($number:literal $text:literal => $kind:ty,)*) => {
        match place_of($name, &[$($text),*]) {
            $(Some($number) => $call.at::<$kind>($alloc),)*
            _ => Err(Fault::NoSuchType),
        }
    };
}

/// The types of one part.
fn call_at_scalar<C: TypedCall>(
    alloc: Global,
    name: &str,
    call: &mut C,
) -> Result<Vec<String>, Fault> {
    call_at_one_of! {
        alloc, name, call;
        0 "u8" => u8,
        1 "u16" => u16,
        2 "u32" => u32,
        3 "u64" => u64,
        4 "usize" => usize,
        5 "i8" => i8,
        6 "i16" => i16,
        7 "i32" => i32,
        8 "i64" => i64,
        9 "isize" => isize,
        10 "bool" => bool,
        11 "char" => char,
        12 "String" => String,
        13 "Skip" => Skip,
        14 "SkipAll" => SkipAll,
    }
}

/// Tuples with an unsigned number at their front.
fn call_at_unsigned_first<C: TypedCall>(
    alloc: Global,
    name: &str,
    call: &mut C,
) -> Result<Vec<String>, Fault> {
    call_at_one_of! {
        alloc, name, call;
        0 "(u8,u8)" => (u8, u8),
        1 "(u8,u16)" => (u8, u16),
        2 "(u8,u8,u8)" => (u8, u8, u8),
        3 "(u8,String)" => (u8, String),
        4 "(u8,Vec<u8>)" => (u8, Vec<u8>),
        5 "(u8,u8,u8,u8)" => (u8, u8, u8, u8),
        6 "(u16,u64,usize)" => (u16, u64, usize),
        7 "(u8,u8,u8,u8,u8)" => (u8, u8, u8, u8, u8),
        8 "(u8,u8,u8,u8,u8,u8)" => (u8, u8, u8, u8, u8, u8),
    }
}

/// Tuples with a signed number at their front.
fn call_at_signed_first<C: TypedCall>(
    alloc: Global,
    name: &str,
    call: &mut C,
) -> Result<Vec<String>, Fault> {
    call_at_one_of! {
        alloc, name, call;
        0 "(i32,)" => (i32,),
        1 "(i32,())" => (i32, ()),
        2 "(i32,i32)" => (i32, i32),
        3 "(i32,Skip)" => (i32, Skip),
        4 "(i32,SkipAll)" => (i32, SkipAll),
        5 "(i8,i16,isize)" => (i8, i16, isize),
        6 "(i32,String,char)" => (i32, String, char),
    }
}

/// Tuples with another type at their front.
fn call_at_tuple<C: TypedCall>(
    alloc: Global,
    name: &str,
    call: &mut C,
) -> Result<Vec<String>, Fault> {
    call_at_one_of! {
        alloc, name, call;
        0 "((),i32)" => ((), i32),
        1 "(Skip,i32)" => (Skip, i32),
        2 "(bool,i32)" => (bool, i32),
        3 "((),(),i32)" => ((), (), i32),
        4 "(String,u8)" => (String, u8),
        5 "(char,char)" => (char, char),
        6 "(Vec<u8>,u8)" => (Vec<u8>, u8),
        7 "(Option<u8>,u8)" => (Option<u8>, u8),
        8 "(Skip,i32,Skip)" => (Skip, i32, Skip),
        9 "(Lengthed<u8>,u8)" => (Lengthed<u8>, u8),
        10 "(String,u8,SkipAll)" => (String, u8, SkipAll),
        11 "(Zeroed<u8>,String)" => (Zeroed<u8>, String),
        12 "((i32,i32),(i32,i32))" => ((i32, i32), (i32, i32)),
        13 "((u8,u8),Option<i32>)" => ((u8, u8), Option<i32>),
        14 "((i32,i32),Option<i32>)" => ((i32, i32), Option<i32>),
        15 "(Option<u8>,Option<u8>)" => (Option<u8>, Option<u8>),
        16 "(WithCheapError<i32>,i32)" => (WithCheapError<i32>, i32),
    }
}

/// Options.
fn call_at_option<C: TypedCall>(
    alloc: Global,
    name: &str,
    call: &mut C,
) -> Result<Vec<String>, Fault> {
    call_at_one_of! {
        alloc, name, call;
        0 "Option<()>" => Option<()>,
        1 "Option<u8>" => Option<u8>,
        2 "Option<i32>" => Option<i32>,
        3 "Option<char>" => Option<char>,
        4 "Option<String>" => Option<String>,
        5 "Option<(u8,u8)>" => Option<(u8, u8)>,
        6 "Option<Vec<u8>>" => Option<Vec<u8>>,
        7 "Option<Option<u8>>" => Option<Option<u8>>,
        8 "Option<Zeroed<u8>>" => Option<Zeroed<u8>>,
        9 "Option<Lengthed<u8>>" => Option<Lengthed<u8>>,
        10 "Option<WithCheapError<i32>>" => Option<WithCheapError<i32>>,
    }
}

/// Lists to the end.
fn call_at_vec<C: TypedCall>(
    alloc: Global,
    name: &str,
    call: &mut C,
) -> Result<Vec<String>, Fault> {
    call_at_one_of! {
        alloc, name, call;
        0 "Vec<u8>" => Vec<u8>,
        1 "Vec<i32>" => Vec<i32>,
        2 "Vec<bool>" => Vec<bool>,
        3 "Vec<char>" => Vec<char>,
        4 "Vec<String>" => Vec<String>,
        5 "Vec<(u8,u8)>" => Vec<(u8, u8)>,
        6 "Vec<(char,i32)>" => Vec<(char, i32)>,
        7 "Vec<Zeroed<u8>>" => Vec<Zeroed<u8>>,
        8 "Vec<Lengthed<u8>>" => Vec<Lengthed<u8>>,
    }
}

/// Lists after their length.
fn call_at_lengthed<C: TypedCall>(
    alloc: Global,
    name: &str,
    call: &mut C,
) -> Result<Vec<String>, Fault> {
    call_at_one_of! {
        alloc, name, call;
        0 "Lengthed<u8>" => Lengthed<u8>,
        1 "Lengthed<i32>" => Lengthed<i32>,
        2 "Lengthed<String>" => Lengthed<String>,
        3 "Lengthed<(u8,u8)>" => Lengthed<(u8, u8)>,
        4 "Lengthed<Zeroed<u8>>" => Lengthed<Zeroed<u8>>,
        5 "Lengthed<Lengthed<u8>>" => Lengthed<Lengthed<u8>>,
    }
}

/// Lists up to a zero.
fn call_at_zeroed<C: TypedCall>(
    alloc: Global,
    name: &str,
    call: &mut C,
) -> Result<Vec<String>, Fault> {
    call_at_one_of! {
        alloc, name, call;
        0 "Zeroed<u8>" => Zeroed<u8>,
        1 "Zeroed<i32>" => Zeroed<i32>,
        2 "Zeroed<bool>" => Zeroed<bool>,
        3 "Zeroed<char>" => Zeroed<char>,
        4 "Zeroed<String>" => Zeroed<String>,
        5 "Zeroed<(u8,u8)>" => Zeroed<(u8, u8)>,
        6 "Zeroed<Lengthed<u8>>" => Zeroed<Lengthed<u8>>,
        7 "Zeroed<Lengthed<String>>" => Zeroed<Lengthed<String>>,
    }
}

/// Values whose errors show no line.
fn call_at_cheap<C: TypedCall>(
    alloc: Global,
    name: &str,
    call: &mut C,
) -> Result<Vec<String>, Fault> {
    call_at_one_of! {
        alloc, name, call;
        0 "WithCheapError<()>" => WithCheapError<()>,
        1 "WithCheapError<i32>" => WithCheapError<i32>,
        2 "WithCheapError<(u8,u8)>" => WithCheapError<(u8, u8)>,
        3 "WithCheapError<Vec<u8>>" => WithCheapError<Vec<u8>>,
    }
}
