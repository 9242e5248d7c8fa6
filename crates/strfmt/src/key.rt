// Keys that are read from the text of a pattern.

ghost use Rattle.std.specs.Prelude.{IfOk};

use numerals::NoMemory;
use std::alloc::Global;

/// A key of a map that a pattern names by its text.
pub trait FromKey: Eq + Drop {
    ghost use Rattle.std.specs.Prelude.{ℕ, List, Bool};
    ghost use Rattle.strfmt.specs.Key.{IsKey};

    /// Whether the text names the key.
    ghost spells: { List ℕ → Self → Bool };

    /// The key that the text names, or None where it names none.
    fn from_key(alloc: Global, key: &str) -> std::result::Result<Option<Self>, NoMemory>
        ensures { IfOk result (λ found. IsKey Self.eq (spells key.now) found) };
}

impl FromKey for String {
    ghost use Rattle.std.specs.Prelude.{bytes_eq, string_bytes};

    ghost spells = { λ text key. bytes_eq text (string_bytes key) };

    fn from_key(alloc: Global, key: &str) -> std::result::Result<Option<String>, NoMemory> {
        Ok(Some(String::from_str(alloc, key)?))
    }
}

impl FromKey for u8 {
    ghost use Rattle.strfmt.specs.Key.{spells_unsigned};

    ghost spells = { spells_unsigned 8 };

    fn from_key(alloc: Global, key: &str) -> std::result::Result<Option<u8>, NoMemory> {
        let _ = alloc;
        Ok(u8::from_str_radix(key, 10).ok())
    }
}

impl FromKey for i8 {
    ghost use Rattle.strfmt.specs.Key.{spells_signed};

    ghost spells = { spells_signed 8 };

    fn from_key(alloc: Global, key: &str) -> std::result::Result<Option<i8>, NoMemory> {
        let _ = alloc;
        Ok(i8::from_str_radix(key, 10).ok())
    }
}

impl FromKey for u16 {
    ghost use Rattle.strfmt.specs.Key.{spells_unsigned};

    ghost spells = { spells_unsigned 16 };

    fn from_key(alloc: Global, key: &str) -> std::result::Result<Option<u16>, NoMemory> {
        let _ = alloc;
        Ok(u16::from_str_radix(key, 10).ok())
    }
}

impl FromKey for i16 {
    ghost use Rattle.strfmt.specs.Key.{spells_signed};

    ghost spells = { spells_signed 16 };

    fn from_key(alloc: Global, key: &str) -> std::result::Result<Option<i16>, NoMemory> {
        let _ = alloc;
        Ok(i16::from_str_radix(key, 10).ok())
    }
}

impl FromKey for u32 {
    ghost use Rattle.strfmt.specs.Key.{spells_unsigned};

    ghost spells = { spells_unsigned 32 };

    fn from_key(alloc: Global, key: &str) -> std::result::Result<Option<u32>, NoMemory> {
        let _ = alloc;
        Ok(u32::from_str_radix(key, 10).ok())
    }
}

impl FromKey for i32 {
    ghost use Rattle.strfmt.specs.Key.{spells_signed};

    ghost spells = { spells_signed 32 };

    fn from_key(alloc: Global, key: &str) -> std::result::Result<Option<i32>, NoMemory> {
        let _ = alloc;
        Ok(i32::from_str_radix(key, 10).ok())
    }
}

impl FromKey for u64 {
    ghost use Rattle.strfmt.specs.Key.{spells_unsigned};

    ghost spells = { spells_unsigned 64 };

    fn from_key(alloc: Global, key: &str) -> std::result::Result<Option<u64>, NoMemory> {
        let _ = alloc;
        Ok(u64::from_str_radix(key, 10).ok())
    }
}

impl FromKey for i64 {
    ghost use Rattle.strfmt.specs.Key.{spells_signed};

    ghost spells = { spells_signed 64 };

    fn from_key(alloc: Global, key: &str) -> std::result::Result<Option<i64>, NoMemory> {
        let _ = alloc;
        Ok(i64::from_str_radix(key, 10).ok())
    }
}

impl FromKey for u128 {
    ghost use Rattle.strfmt.specs.Key.{spells_unsigned};

    ghost spells = { spells_unsigned 128 };

    fn from_key(alloc: Global, key: &str) -> std::result::Result<Option<u128>, NoMemory> {
        let _ = alloc;
        Ok(u128::from_str_radix(key, 10).ok())
    }
}

impl FromKey for i128 {
    ghost use Rattle.strfmt.specs.Key.{spells_signed};

    ghost spells = { spells_signed 128 };

    fn from_key(alloc: Global, key: &str) -> std::result::Result<Option<i128>, NoMemory> {
        let _ = alloc;
        Ok(i128::from_str_radix(key, 10).ok())
    }
}

impl FromKey for usize {
    ghost use Rattle.strfmt.specs.Key.{spells_unsigned};

    ghost spells = { spells_unsigned 64 };

    fn from_key(alloc: Global, key: &str) -> std::result::Result<Option<usize>, NoMemory> {
        let _ = alloc;
        Ok(usize::from_str_radix(key, 10).ok())
    }
}

impl FromKey for isize {
    ghost use Rattle.strfmt.specs.Key.{spells_signed};

    ghost spells = { spells_signed 64 };

    fn from_key(alloc: Global, key: &str) -> std::result::Result<Option<isize>, NoMemory> {
        let _ = alloc;
        Ok(isize::from_str_radix(key, 10).ok())
    }
}
