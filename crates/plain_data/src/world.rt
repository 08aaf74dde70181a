ghost use Rattle.std.specs.Prelude.{◌≡◌, [], true, IfOk, OnOk, OnErr};
ghost use Rattle.std.specs.Ordering.{nat_cmp};
ghost use Rattle.std.specs.Map.{keys_of};
ghost use Rattle.std.specs.List.Sorted.{IsStrictlySortedBy};
ghost use Rattle.plain_data.specs.Worlds.{value_at, has_no_zero, Sets};

use std::alloc::{AllocError, Global};
use std::collections::BTreeMap;
use std::collections::btree_map::Iter;
use std::marker::Model;
use thiserror::Error;

/// Why a world was not changed.
#[derive(Clone, Copy, Debug, PartialEq, Eq, Error)]
pub enum WorldFault {
    #[error("out of memory")]
    Memory,
}

/// Every answer that the outside gives to a run: words by place number, and initial bytes by address,
/// each 0 where nothing was set.
pub struct World {
    words: BTreeMap<u64, u64>,
    bytes: BTreeMap<u64, u8>,
}

/// By hand, so that where it is let go, a call stands in place of all that two maps hold.
impl Drop for World {
    fn drop(self) {
        let World { words, bytes } = self;
    }
}

impl Model for World {
    ghost use Rattle.std.specs.Prelude.{◌≡◌, true};
    ghost use Rattle.plain_data.specs.Worlds.{WorldTables, has_no_zero};

    ghost Value = { WorldTables };

    ghost view = { λ w. record { words = w.words.entries; bytes = w.bytes.entries } };

    ghost invariant = { λ w. (has_no_zero w.words.entries ≡ true) × (has_no_zero w.bytes.entries ≡ true) };
}

impl World {
    /// The world that gives 0 everywhere. It takes no memory before something is set.
    pub fn new(alloc: Global) -> World
        ensures words { result.words ≡ [] }
        ensures bytes { result.bytes ≡ [] }
    {
        World {
            words: BTreeMap::new(alloc),
            bytes: BTreeMap::new(alloc),
        }
    }

    /// A world that gives the same everywhere. It fails for want of memory alone.
    pub fn duplicate(&self) -> Result<World, AllocError>
        ensures { IfOk result (λ copy. copy ≡ self.now) }
    {
        Ok(World {
            words: self.words.clone()?,
            bytes: self.bytes.clone()?,
        })
    }

    /// The word at a place.
    pub fn word(&self, place: u64) -> u64
        ensures { result ≡ value_at self.now.words place }
    {
        self.words.get(&place).copied().unwrap_or(0)
    }

    /// The initial byte at an address.
    pub fn byte(&self, address: u64) -> u8
        ensures { result ≡ value_at self.now.bytes address }
    {
        self.bytes.get(&address).copied().unwrap_or(0)
    }

    /// Sets the word at a place.
    pub fn set_word(&mut self, place: u64, value: u64) -> Result<(), WorldFault>
        ensures word { OnOk result (Sets self.old.words self.new.words place value) }
        ensures bytes { self.new.bytes ≡ self.old.bytes }
        ensures err { OnErr result (self.new ≡ self.old) }
    {
        if value == 0 {
            let _ = self.words.remove(&place);
            return Ok(());
        }
        match self.words.insert(place, value) {
            Ok(_) => Ok(()),
            Err(_) => Err(WorldFault::Memory),
        }
    }

    /// Sets the initial byte at an address.
    pub fn set_byte(&mut self, address: u64, value: u8) -> Result<(), WorldFault>
        ensures byte { OnOk result (Sets self.old.bytes self.new.bytes address value) }
        ensures words { self.new.words ≡ self.old.words }
        ensures err { OnErr result (self.new ≡ self.old) }
    {
        if value == 0 {
            let _ = self.bytes.remove(&address);
            return Ok(());
        }
        match self.bytes.insert(address, value) {
            Ok(_) => Ok(()),
            Err(_) => Err(WorldFault::Memory),
        }
    }

    /// The words that aren't 0, by ascending place.
    pub fn words(&self) -> Iter<'_, u64, u64>
        ensures entries { result ≡ self.now.words }
        ensures ascending { IsStrictlySortedBy nat_cmp (keys_of self.now.words) }
        ensures nonzero { has_no_zero self.now.words ≡ true }
    {
        self.words.iter()
    }

    /// The initial bytes that aren't 0, by ascending address.
    pub fn bytes(&self) -> Iter<'_, u64, u8>
        ensures entries { result ≡ self.now.bytes }
        ensures ascending { IsStrictlySortedBy nat_cmp (keys_of self.now.bytes) }
        ensures nonzero { has_no_zero self.now.bytes ≡ true }
    {
        self.bytes.iter()
    }
}
