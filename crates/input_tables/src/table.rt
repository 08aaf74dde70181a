ghost use Rattle.std.specs.Prelude.{◌≡◌, ◌≤◌, [], cond, length, nat_eq, Some, None, IfOk, OnOk};
ghost use Rattle.std.specs.HashMap.{get};
ghost use Rattle.gates.specs.Nets.{IsBit};
ghost use Rattle.word_gates.specs.Spelling.{AreBits};
ghost use Rattle.input_tables.specs.Rows.{Index, IsKnownAs, Puts};
ghost use Rattle.input_tables.specs.Tables.{Asked, HasSame, IsEmpty, IsSettled, IsTable};

use crate::agreement::constrain;
use crate::keys::known_number;
use crate::row::{Row, copied, copied_rows, new_row, value_at};
use gates::{Bit, BlastFault, Gates};
use plain_data::Items;
use std::alloc::{AllocError, Global};
use std::collections::HashMap;

/// Rows, and conditions on those whose keys may be equal.
pub struct Table {
    /// How many bits a value has.
    pub bits: u32,
    /// Rows whose keys are known, each another.
    pub fixed: Items<Row>,
    /// Rows whose keys aren't.
    pub free: Items<Row>,
    /// Bits that are true where the rows are those of one function.
    pub conditions: Items<Bit>,
    index: HashMap<u64, usize>,
}

/// By hand, so that a call stands in place of all its parts wherever a value is let go.
impl Drop for Table {
    fn drop(self) {
        let Table {
            bits,
            fixed,
            free,
            conditions,
            index,
        } = self;
    }
}

/// Lets a known key be met at an index.
fn put(index: &mut HashMap<u64, usize>, key: u64, place: usize) -> Result<(), AllocError>
    ensures { OnOk result (Puts index.old index.new key place) }
{
    index.insert(key, place)?;
    Ok(())
}

/// The same keys at the same indices.
fn copied_index(index: &HashMap<u64, usize>) -> Result<HashMap<u64, usize>, AllocError>
    ensures { IfOk result (HasSame index.now) }
{
    let copy = index.clone()?;
    Ok(copy)
}

impl Table {
    /// No row. It takes no memory before the first row comes.
    pub fn new(alloc: Global, bits: u32) -> Table
        ensures { IsEmpty bits result }
    {
        Table {
            bits,
            fixed: Items::new(alloc),
            free: Items::new(alloc),
            conditions: Items::new(alloc),
            index: HashMap::new(alloc),
        }
    }

    /// The same rows without their conditions, for clauses that say that these are true.
    pub fn settled(&self, alloc: Global) -> Result<Table, AllocError>
        ensures { IfOk result (IsSettled self.now) }
    {
        let fixed = copied_rows(alloc, self.fixed.as_slice())?;
        let free = copied_rows(alloc, self.free.as_slice())?;
        let index = copied_index(&self.index)?;
        Ok(Table {
            bits: self.bits,
            fixed,
            free,
            conditions: Items::new(alloc),
            index,
        })
    }

    /// The value at a known key that is new.
    fn add_fixed(
        &mut self,
        gates: &mut Gates,
        key: &[Bit],
        number: u64,
    ) -> Result<Items<Bit>, BlastFault>
        requires table { IsTable gates.old self.old }
        requires key { AreBits gates.old key.now }
        requires width { length key.now ≡ 64 }
        requires known { IsKnownAs key.now number }
        requires fresh { get nat_eq self.old.index number ≡ None }
        ensures { IfOk result (Asked gates.old gates.new self.old self.new key.now) }
    {
        let row = new_row(gates, key, self.bits)?;
        constrain(gates, self.free.as_slice(), &row, &mut self.conditions)?;
        let value = copied(gates, row.value.as_slice())?;
        put(&mut self.index, number, self.fixed.len())?;
        self.fixed.push(row)?;
        Ok(value)
    }

    /// The value at a known key.
    fn ask_fixed(
        &mut self,
        gates: &mut Gates,
        key: &[Bit],
        number: u64,
    ) -> Result<Items<Bit>, BlastFault>
        requires table { IsTable gates.old self.old }
        requires key { AreBits gates.old key.now }
        requires width { length key.now ≡ 64 }
        requires known { IsKnownAs key.now number }
        ensures { IfOk result (Asked gates.old gates.new self.old self.new key.now) }
    {
        match self.index.get(&number).copied() {
            Some(place) => {
                let value = copied(gates, value_at(self.fixed.as_slice(), place))?;
                Ok(value)
            }
            None => {
                let value = self.add_fixed(gates, key, number)?;
                Ok(value)
            }
        }
    }

    /// The value at a key that isn't known.
    fn ask_free(&mut self, gates: &mut Gates, key: &[Bit]) -> Result<Items<Bit>, BlastFault>
        requires table { IsTable gates.old self.old }
        requires key { AreBits gates.old key.now }
        requires width { length key.now ≡ 64 }
        ensures { IfOk result (Asked gates.old gates.new self.old self.new key.now) }
    {
        let row = new_row(gates, key, self.bits)?;
        constrain(gates, self.fixed.as_slice(), &row, &mut self.conditions)?;
        constrain(gates, self.free.as_slice(), &row, &mut self.conditions)?;
        let value = copied(gates, row.value.as_slice())?;
        self.free.push(row)?;
        Ok(value)
    }

    /// The value at a key. A known key that was asked before has the same inputs; each other takes a row, with
    /// conditions on the rows that may have the same key.
    pub fn ask(&mut self, gates: &mut Gates, key: &[Bit]) -> Result<Items<Bit>, BlastFault>
        requires table { IsTable gates.old self.old }
        requires key { AreBits gates.old key.now }
        requires width { length key.now ≡ 64 }
        ensures { IfOk result (Asked gates.old gates.new self.old self.new key.now) }
    {
        match known_number(key) {
            Some(number) => {
                let value = self.ask_fixed(gates, key, number)?;
                Ok(value)
            }
            None => {
                let value = self.ask_free(gates, key)?;
                Ok(value)
            }
        }
    }
}
