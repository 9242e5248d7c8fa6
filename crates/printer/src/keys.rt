// The value that a key names: by its position in decimal, or by the name of a position.
ghost use Rattle.std.specs.Prelude.{◌≡◌, IfOk, map, option_copied, option_map};
ghost use Rattle.formatx.specs.Scene.{named};
ghost use Rattle.values.specs.Datum.{datum_of, each_of, kind_of, word_text};
ghost use Rattle.values.specs.Templates.{strfmt_meaning, value_display};
ghost use Rattle.printer.specs.Text.{named_from, value_at_key};
ghost use Rattle.printer.specs.Keys.{first_of, IsPlaceAtKey};

use formatx::Names;
use numerals::NoMemory;
use std::alloc::Global;
use std::marker::Model;
use values::{Value, Word, read_decimal};

/// The names of the first positions. In contracts they are the list of their texts.
#[derive(Drop)]
pub struct PositionNames {
    /// The names in order.
    words: Vec<Word>,
    /// The first position that each name stands for.
    positions: Names,
}

impl Model for PositionNames {
    ghost use Rattle.std.specs.Prelude.{◌≡◌, List, ℕ, map};
    ghost use Rattle.values.specs.Datum.{word_text};
    ghost use Rattle.formatx.specs.Scene.{named};
    ghost use Rattle.printer.specs.Text.{named_from};

    ghost Value = { List (List ℕ) };

    ghost view = { λ it. map word_text it.words.items };

    ghost invariant = { λ it. named it.positions ≡ named_from 0 (map word_text it.words.items) };
}

impl PositionNames {
    /// The words as names, from the position 0 on.
    pub fn new(alloc: Global, words: &[Word]) -> Result<PositionNames, NoMemory>
        ensures { IfOk result (λ names. names ≡ map word_text words.now) }
    {
        let mut copies = Vec::new(alloc);
        let mut positions = Names::new(alloc);
        'words: for (index, word) in words.iter().enumerate() {
            let name = word.as_str();
            let copy = Word::new(alloc, name)?;
            if copies.push(copy).is_err() {
                return Err(NoMemory);
            }
            if positions.add(name, index).is_err() {
                return Err(NoMemory);
            }
        }
        Ok(PositionNames {
            words: copies,
            positions,
        })
    }

    /// The position that a name of formatx names: that of the first equal name.
    pub fn place_of(&self, name: &str) -> Option<usize>
        ensures { result ≡ named_from 0 self.now name.now }
    {
        self.positions().position(name)
    }

    /// The position that a key of strfmt names: the first that it is in decimal or by name. There may be no value at it.
    pub fn place_at_key(&self, key: &str) -> Option<usize>
        ensures { IsPlaceAtKey self.now key.now result }
    {
        first_of(read_decimal(key), self.positions().position(key))
    }

    /// The names with their positions.
    pub(crate) fn positions(&self) -> &Names
        ensures { named result.now ≡ named_from 0 self.now }
    {
        &self.positions
    }
}

fn first_of(place: Option<usize>, other: Option<usize>) -> Option<usize>
    ensures { result ≡ first_of place other }
{
    match (place, other) {
        (Some(place), Some(other)) => Some(place.min(other)),
        (None, other) => other,
        (place, None) => place,
    }
}

/// The value at the first position that the key names.
pub(crate) fn value_at<'v>(
    names: &PositionNames,
    values: &'v [Value],
    key: &str,
) -> Option<&'v Value>
    ensures { option_map value_display (option_copied result) ≡ value_at_key 0 names.now (each_of strfmt_meaning (map kind_of values.now) (map datum_of values.now)) key.now }
{
    let place = names.place_at_key(key)?;
    values.get(place)
}
