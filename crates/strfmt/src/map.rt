// A text filled from a map.

ghost use Rattle.std.specs.Prelude.{◌≡◌, IfOk, option_copied, string_bytes};
ghost use Rattle.std.specs.HashMap.{get_by};
ghost use Rattle.strfmt.specs.Text.{IsPrinted, filled_by};
ghost use Rattle.strfmt.specs.Values.{Displays, values};

use crate::cause::no_value;
use crate::{DisplayStr, Formatter, FromKey, Result, strfmt_map};
use numerals::NoMemory;
use std::alloc::Global;
use std::collections::HashMap;
use std::hash::Hash;

/// The value at the key that a text names.
fn look_up<'a, K: Hash + Eq + FromKey, D: DisplayStr>(
    alloc: Global,
    vars: &'a HashMap<K, D>,
    key: &str,
) -> std::result::Result<Option<&'a D>, NoMemory>
    ensures { IfOk result (λ found. option_copied found ≡ get_by (K.spells key.now) vars.entry.now) }
{
    match K::from_key(alloc, key)? {
        Some(key) => Ok(vars.get(&key)),
        None => Ok(None),
    }
}

/// Displays the value of the formatter's key.
fn fill<K: Hash + Eq + FromKey, D: DisplayStr>(
    alloc: Global,
    vars: &HashMap<K, D>,
    f: &mut Formatter<'_>,
) -> Result<()>
    ensures { Displays (filled_by (values K.spells D.meaning vars.now f.old.key) f.old) f.old result f.new }
{
    match look_up(alloc, vars, f.key)? {
        Some(value) => value.display_str(f),
        None => Err(no_value(alloc, f.key)),
    }
}

/// Fills a text's patterns from a map, each key read by `FromKey`, each value displaying itself.
///
/// The first fault from the left is the answer. `KeyError` comes where a key doesn't read or isn't in the map;
/// a value of a caller's own type may answer any fault, which is passed on.
pub fn strfmt<K: Hash + Eq + FromKey, T: DisplayStr>(
    alloc: Global,
    fmtstr: &str,
    vars: &HashMap<K, T>,
) -> Result<String>
    ensures { IsPrinted string_bytes (values K.spells T.meaning vars.now) fmtstr.now result }
{
    strfmt_map(
        alloc,
        fmtstr,
        |f: &mut Formatter<'_>| -> Result<()>
            ensures { Displays (filled_by (values K.spells T.meaning vars.entry.now f.old.key) f.old) f.old result f.new }
        { fill(alloc, vars, f) },
    )
}

/// A text that fills its patterns from a map.
pub trait Format {
    ghost use Rattle.std.specs.Prelude.{ℕ, List};

    /// The text.
    ghost template: { Self → List ℕ };

    /// `strfmt` of the text.
    fn format<K: Hash + Eq + FromKey, D: DisplayStr>(
        &self,
        alloc: Global,
        vars: &HashMap<K, D>,
    ) -> Result<String>
        ensures { IsPrinted string_bytes (values K.spells D.meaning vars.now) (template self.now) result };
}

impl Format for &str {
    ghost template = { λ text. text.now };

    fn format<K: Hash + Eq + FromKey, D: DisplayStr>(
        &self,
        alloc: Global,
        vars: &HashMap<K, D>,
    ) -> Result<String> {
        strfmt(alloc, self, vars)
    }
}

impl Format for String {
    ghost template = { λ text. string_bytes text };

    fn format<K: Hash + Eq + FromKey, D: DisplayStr>(
        &self,
        alloc: Global,
        vars: &HashMap<K, D>,
    ) -> Result<String> {
        strfmt(alloc, self.as_str(), vars)
    }
}
