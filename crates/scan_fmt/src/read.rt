// What a token reads as: std's reading of integers and `bool`, one character, the token itself, and integers in base 16.
ghost use Rattle.std.specs.Prelude.{◌≡◌, ℕ, List, Option, IsSomeAnd, string_bytes};
ghost use Rattle.std.specs.Int.{w8, w16, w32, w64, w128};
ghost use Rattle.std.specs.Str.Parse.{ParsesUnsigned, ParsesSigned, ParsesBool, ParsesChar};
ghost use Rattle.scan_fmt.specs.Values.{ReadsBy};

/// A type that a token may be read as.
pub trait ReadToken: Sized {
    // what the text of a token reads as: a value, or none
    ghost reads: { List ℕ → Option Self → Type 0 };

    /// The value that the token stands for, if it does. It takes no memory.
    fn read_token(token: String) -> Option<Self>
        ensures { reads (string_bytes token) result };
}

/// A type that a slice of the input may be read as, without memory.
pub trait ReadSlice<'a>: Sized {
    // what the text of a token reads as: a value, or none
    ghost reads_slice: { List ℕ → Option Self → Type 0 };

    /// The value that the token stands for, if it does. It takes no memory.
    fn read_slice(token: &'a str) -> Option<Self>
        ensures { reads_slice token.now result };
}

/// A type that a token may be read as in base 16.
pub trait ReadHex: Sized {
    // what the text of a token reads as: a value, or none
    ghost reads_hex: { List ℕ → Option Self → Type 0 };

    /// The value of the token's hexadecimal digits after at most one sign. It takes no memory.
    fn read_hex(token: &str) -> Option<Self>
        ensures { reads_hex token.now result };
}

impl ReadToken for u8 {
    ghost reads = { ReadsBy (ParsesUnsigned 8 10) };

    fn read_token(token: String) -> Option<Self> {
        token.parse::<u8>().ok()
    }
}

impl ReadToken for u16 {
    ghost reads = { ReadsBy (ParsesUnsigned 16 10) };

    fn read_token(token: String) -> Option<Self> {
        token.parse::<u16>().ok()
    }
}

impl ReadToken for u32 {
    ghost reads = { ReadsBy (ParsesUnsigned 32 10) };

    fn read_token(token: String) -> Option<Self> {
        token.parse::<u32>().ok()
    }
}

impl ReadToken for u64 {
    ghost reads = { ReadsBy (ParsesUnsigned 64 10) };

    fn read_token(token: String) -> Option<Self> {
        token.parse::<u64>().ok()
    }
}

impl ReadToken for u128 {
    ghost reads = { ReadsBy (ParsesUnsigned 128 10) };

    fn read_token(token: String) -> Option<Self> {
        token.parse::<u128>().ok()
    }
}

impl ReadToken for usize {
    ghost reads = { ReadsBy (ParsesUnsigned 64 10) };

    fn read_token(token: String) -> Option<Self> {
        token.parse::<usize>().ok()
    }
}

impl ReadToken for i8 {
    ghost reads = { ReadsBy (ParsesSigned w8 10) };

    fn read_token(token: String) -> Option<Self> {
        token.parse::<i8>().ok()
    }
}

impl ReadToken for i16 {
    ghost reads = { ReadsBy (ParsesSigned w16 10) };

    fn read_token(token: String) -> Option<Self> {
        token.parse::<i16>().ok()
    }
}

impl ReadToken for i32 {
    ghost reads = { ReadsBy (ParsesSigned w32 10) };

    fn read_token(token: String) -> Option<Self> {
        token.parse::<i32>().ok()
    }
}

impl ReadToken for i64 {
    ghost reads = { ReadsBy (ParsesSigned w64 10) };

    fn read_token(token: String) -> Option<Self> {
        token.parse::<i64>().ok()
    }
}

impl ReadToken for i128 {
    ghost reads = { ReadsBy (ParsesSigned w128 10) };

    fn read_token(token: String) -> Option<Self> {
        token.parse::<i128>().ok()
    }
}

impl ReadToken for isize {
    ghost reads = { ReadsBy (ParsesSigned w64 10) };

    fn read_token(token: String) -> Option<Self> {
        token.parse::<isize>().ok()
    }
}

impl ReadToken for bool {
    ghost reads = { ReadsBy ParsesBool };

    fn read_token(token: String) -> Option<Self> {
        token.parse::<bool>().ok()
    }
}

impl ReadToken for char {
    ghost reads = { ReadsBy ParsesChar };

    fn read_token(token: String) -> Option<Self> {
        token.parse::<char>().ok()
    }
}

impl ReadToken for String {
    ghost reads = { λ text value. IsSomeAnd value (λ s. string_bytes s ≡ text) };

    fn read_token(token: String) -> Option<Self> {
        Some(token)
    }
}

impl<'a> ReadSlice<'a> for u8 {
    ghost reads_slice = { ReadsBy (ParsesUnsigned 8 10) };

    fn read_slice(token: &'a str) -> Option<Self> {
        token.parse::<u8>().ok()
    }
}

impl<'a> ReadSlice<'a> for u16 {
    ghost reads_slice = { ReadsBy (ParsesUnsigned 16 10) };

    fn read_slice(token: &'a str) -> Option<Self> {
        token.parse::<u16>().ok()
    }
}

impl<'a> ReadSlice<'a> for u32 {
    ghost reads_slice = { ReadsBy (ParsesUnsigned 32 10) };

    fn read_slice(token: &'a str) -> Option<Self> {
        token.parse::<u32>().ok()
    }
}

impl<'a> ReadSlice<'a> for u64 {
    ghost reads_slice = { ReadsBy (ParsesUnsigned 64 10) };

    fn read_slice(token: &'a str) -> Option<Self> {
        token.parse::<u64>().ok()
    }
}

impl<'a> ReadSlice<'a> for u128 {
    ghost reads_slice = { ReadsBy (ParsesUnsigned 128 10) };

    fn read_slice(token: &'a str) -> Option<Self> {
        token.parse::<u128>().ok()
    }
}

impl<'a> ReadSlice<'a> for usize {
    ghost reads_slice = { ReadsBy (ParsesUnsigned 64 10) };

    fn read_slice(token: &'a str) -> Option<Self> {
        token.parse::<usize>().ok()
    }
}

impl<'a> ReadSlice<'a> for i8 {
    ghost reads_slice = { ReadsBy (ParsesSigned w8 10) };

    fn read_slice(token: &'a str) -> Option<Self> {
        token.parse::<i8>().ok()
    }
}

impl<'a> ReadSlice<'a> for i16 {
    ghost reads_slice = { ReadsBy (ParsesSigned w16 10) };

    fn read_slice(token: &'a str) -> Option<Self> {
        token.parse::<i16>().ok()
    }
}

impl<'a> ReadSlice<'a> for i32 {
    ghost reads_slice = { ReadsBy (ParsesSigned w32 10) };

    fn read_slice(token: &'a str) -> Option<Self> {
        token.parse::<i32>().ok()
    }
}

impl<'a> ReadSlice<'a> for i64 {
    ghost reads_slice = { ReadsBy (ParsesSigned w64 10) };

    fn read_slice(token: &'a str) -> Option<Self> {
        token.parse::<i64>().ok()
    }
}

impl<'a> ReadSlice<'a> for i128 {
    ghost reads_slice = { ReadsBy (ParsesSigned w128 10) };

    fn read_slice(token: &'a str) -> Option<Self> {
        token.parse::<i128>().ok()
    }
}

impl<'a> ReadSlice<'a> for isize {
    ghost reads_slice = { ReadsBy (ParsesSigned w64 10) };

    fn read_slice(token: &'a str) -> Option<Self> {
        token.parse::<isize>().ok()
    }
}

impl<'a> ReadSlice<'a> for bool {
    ghost reads_slice = { ReadsBy ParsesBool };

    fn read_slice(token: &'a str) -> Option<Self> {
        token.parse::<bool>().ok()
    }
}

impl<'a> ReadSlice<'a> for char {
    ghost reads_slice = { ReadsBy ParsesChar };

    fn read_slice(token: &'a str) -> Option<Self> {
        token.parse::<char>().ok()
    }
}

impl<'a> ReadSlice<'a> for &'a str {
    ghost reads_slice = { λ text value. IsSomeAnd value (λ s. s.now ≡ text) };

    fn read_slice(token: &'a str) -> Option<Self> {
        Some(token)
    }
}

impl ReadHex for u8 {
    ghost reads_hex = { ReadsBy (ParsesUnsigned 8 16) };

    fn read_hex(token: &str) -> Option<Self> {
        u8::from_str_radix(token, 16).ok()
    }
}

impl ReadHex for u16 {
    ghost reads_hex = { ReadsBy (ParsesUnsigned 16 16) };

    fn read_hex(token: &str) -> Option<Self> {
        u16::from_str_radix(token, 16).ok()
    }
}

impl ReadHex for u32 {
    ghost reads_hex = { ReadsBy (ParsesUnsigned 32 16) };

    fn read_hex(token: &str) -> Option<Self> {
        u32::from_str_radix(token, 16).ok()
    }
}

impl ReadHex for u64 {
    ghost reads_hex = { ReadsBy (ParsesUnsigned 64 16) };

    fn read_hex(token: &str) -> Option<Self> {
        u64::from_str_radix(token, 16).ok()
    }
}

impl ReadHex for u128 {
    ghost reads_hex = { ReadsBy (ParsesUnsigned 128 16) };

    fn read_hex(token: &str) -> Option<Self> {
        u128::from_str_radix(token, 16).ok()
    }
}

impl ReadHex for usize {
    ghost reads_hex = { ReadsBy (ParsesUnsigned 64 16) };

    fn read_hex(token: &str) -> Option<Self> {
        usize::from_str_radix(token, 16).ok()
    }
}

impl ReadHex for i8 {
    ghost reads_hex = { ReadsBy (ParsesSigned w8 16) };

    fn read_hex(token: &str) -> Option<Self> {
        i8::from_str_radix(token, 16).ok()
    }
}

impl ReadHex for i16 {
    ghost reads_hex = { ReadsBy (ParsesSigned w16 16) };

    fn read_hex(token: &str) -> Option<Self> {
        i16::from_str_radix(token, 16).ok()
    }
}

impl ReadHex for i32 {
    ghost reads_hex = { ReadsBy (ParsesSigned w32 16) };

    fn read_hex(token: &str) -> Option<Self> {
        i32::from_str_radix(token, 16).ok()
    }
}

impl ReadHex for i64 {
    ghost reads_hex = { ReadsBy (ParsesSigned w64 16) };

    fn read_hex(token: &str) -> Option<Self> {
        i64::from_str_radix(token, 16).ok()
    }
}

impl ReadHex for i128 {
    ghost reads_hex = { ReadsBy (ParsesSigned w128 16) };

    fn read_hex(token: &str) -> Option<Self> {
        i128::from_str_radix(token, 16).ok()
    }
}

impl ReadHex for isize {
    ghost reads_hex = { ReadsBy (ParsesSigned w64 16) };

    fn read_hex(token: &str) -> Option<Self> {
        isize::from_str_radix(token, 16).ok()
    }
}
