// The names of positions.
ghost use Rattle.std.specs.Prelude.{◌≡◌, [], IfErr, OnErr, OnOk};
ghost use Rattle.formatx.specs.Scene.{named, with_name};

use crate::error::Error;
use std::alloc::Global;
use std::collections::BTreeMap;
use std::marker::Model;

/// Names for positions, which are counted from 0. A name is found among n others by log n comparisons or so.
#[derive(Drop)]
pub struct Names {
    positions: BTreeMap<String, usize>,
    alloc: Global,
}

impl Model for Names {
    ghost use Rattle.std.specs.Prelude.{ℕ, List, map, string_bytes};

    ghost Value = { List (List ℕ × ℕ) };

    ghost view = { λ names. map (λ e. (string_bytes e.0, e.1)) names.positions.entries };
}

impl Names {
    /// No names. It takes no memory.
    pub fn new(alloc: Global) -> Names
        ensures { result ≡ [] }
    {
        Names {
            positions: BTreeMap::new(alloc),
            alloc,
        }
    }

    /// Names a position. A name that is there already keeps its position.
    pub fn add(&mut self, name: &str, index: usize) -> Result<(), Error>
        ensures ok { OnOk result (named self.new ≡ with_name (named self.old) name.now index) }
        ensures err { OnErr result (self.new ≡ self.old) }
        ensures memory { IfErr result (λ e. e ≡ Error.NoMemory) }
    {
        if self.position(name).is_some() {
            return Ok(());
        }
        let name = String::from_str(self.alloc, name)?;
        match self.positions.insert(name, index) {
            Ok(_) => Ok(()),
            Err(_) => Err(Error::NoMemory),
        }
    }

    /// The position that a text names. It takes no memory.
    pub fn position(&self, name: &str) -> Option<usize>
        ensures { result ≡ named self.now name.now }
    {
        self.positions.get(name).copied()
    }
}
