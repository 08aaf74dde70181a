//! All objects.
ghost use Rattle.std.specs.Prelude.{◌≡◌, ◌≤◌, ◌<◌, ◌+◌, ◌^◌, length, slice_index, IsTrue, IsSome, IfOk, OnOk};
ghost use Rattle.std.specs.BTreeMap.{get};
ghost use Rattle.std.specs.Ordering.{nat_cmp};
ghost use Rattle.c_store.specs.Store.{offset_of, read, write, lay, zero_range, make, end, initial};
ghost use Rattle.c_store.specs.Access as access;
ghost use Rattle.c_memory.specs.Memories.{initial_bytes, store_of, Holds};

use crate::cell::{Cell, ROOM};
use c_store::{Object, ObjectKind};
use plain_data::{Items, World};
use std::alloc::{AllocError, Global};
use std::collections::BTreeMap;

/// The objects by their numbers. Object p has the addresses from p * 2^32. A byte that was never laid is the world's. An
/// ended object keeps its bytes, so that this is exactly the definition's store; a run keeps the place of each object
/// that it makes anyway.
#[derive(Drop)]
pub struct Memory {
    alloc: Global,
    pub cells: BTreeMap<u64, Cell>,
}

impl Memory {
    /// A memory without objects.
    pub fn new(alloc: Global) -> Memory
        ensures { (world : _) → store_of world result.cells ≡ initial world }
    {
        Memory {
            alloc,
            cells: BTreeMap::new(alloc),
        }
    }

    /// The live object of this number.
    pub fn object(&self, number: u64) -> Option<Object>
        ensures { (world : _) → result ≡ (store_of world self.now.cells).objects number }
    {
        match self.cells.get(&number) {
            Some(cell) => cell.object,
            None => None,
        }
    }

    /// Whether these addresses are of one live object; with no length, whether the address is in one or one past it.
    pub fn is_live(&self, address: u64, length: u64) -> bool
        ensures exact { (world : _) → result ≡ access.is_live (store_of world self.now.cells) address length }
        ensures room { IsTrue result → offset_of address + length ≤ 2 ^ 32 }
    {
        reaches(
            self.object(address / ROOM),
            u128::from(address % ROOM) + u128::from(length),
        )
    }

    /// Whether both addresses are in, or one past, one live object.
    pub fn in_one_object(&self, one: u64, other: u64) -> bool
        ensures { (world : _) → result ≡ access.in_one_object (store_of world self.now.cells) one other }
    {
        self.is_live(one, 0) && (self.is_live(other, 0) && one / ROOM == other / ROOM)
    }

    /// Whether each of these bytes is of a live object.
    pub fn can_access(&self, address: u64, length: u64) -> bool
        ensures exact { (world : _) → result ≡ access.can_access (store_of world self.now.cells) address length }
        ensures room { IsTrue result → offset_of address + length ≤ 2 ^ 32 }
    {
        length == 0 || self.is_live(address, length)
    }

    /// Whether none of these bytes is of a string literal.
    pub fn can_write(&self, address: u64, length: u64) -> bool
        ensures { (world : _) → result ≡ access.can_write (store_of world self.now.cells) address length }
    {
        length == 0 || !is_literal(self.object(address / ROOM))
    }

    /// Whether `free` takes the address: null, or the first byte of a live object that was allocated.
    pub fn can_free(&self, address: u64) -> bool
        ensures { (world : _) → result ≡ access.can_free (store_of world self.now.cells) address }
    {
        address == 0 || (is_heap(self.object(address / ROOM)) && address % ROOM == 0)
    }

    /// The number in the bytes at an address, little endian.
    pub fn load(&self, world: &World, address: u64, width: u64) -> u64
        requires width { width ≤ 8 }
        requires room { offset_of address + width ≤ 2 ^ 32 }
        ensures { result ≡ read width (store_of (initial_bytes world.now) self.now.cells) address }
    {
        match self.cells.get(&(address / ROOM)) {
            Some(cell) => cell.read(world, address, width),
            None => Cell::new(self.alloc, None).read(world, address, width),
        }
    }

    /// A copy of the bytes at an address. It fails for want of memory alone.
    pub fn bytes(&self, world: &World, address: u64, count: u64) -> Result<Items<u8>, AllocError>
        requires room { offset_of address + count ≤ 2 ^ 32 }
        ensures { IfOk result (λ bytes. Holds (store_of (initial_bytes world.now) self.now.cells).bytes address count bytes) }
    {
        match self.cells.get(&(address / ROOM)) {
            Some(cell) => cell.copy(self.alloc, world, address, count),
            None => Cell::new(self.alloc, None).copy(self.alloc, world, address, count),
        }
    }

    /// Writes a number at an address, little endian. It fails for want of memory alone.
    pub fn store(
        &mut self,
        world: &World,
        address: u64,
        width: u64,
        value: u64,
    ) -> Result<(), AllocError>
        requires room { offset_of address + width ≤ 2 ^ 32 }
        ensures { OnOk result (store_of (initial_bytes world.now) self.new.cells
            ≡ write width address value (store_of (initial_bytes world.now) self.old.cells)) }
    {
        self.hold(address / ROOM)?;
        match self.cells.get_mut(&(address / ROOM)) {
            Some(cell) => cell.write(world, address, width, value),
            None => Ok(()),
        }
    }

    /// Writes these bytes at an address. It fails for want of memory alone.
    pub fn lay(&mut self, world: &World, address: u64, bytes: &[u8]) -> Result<(), AllocError>
        requires room { offset_of address + length bytes.now ≤ 2 ^ 32 }
        ensures { OnOk result (store_of (initial_bytes world.now) self.new.cells
            ≡ lay address (length bytes.now) (slice_index bytes.now) (store_of (initial_bytes world.now) self.old.cells)) }
    {
        self.hold(address / ROOM)?;
        match self.cells.get_mut(&(address / ROOM)) {
            Some(cell) => cell.lay(world, address, bytes),
            None => Ok(()),
        }
    }

    /// Writes zeros at an address. It fails for want of memory alone.
    pub fn zero(&mut self, world: &World, address: u64, count: u64) -> Result<(), AllocError>
        requires room { offset_of address + count ≤ 2 ^ 32 }
        ensures { OnOk result (store_of (initial_bytes world.now) self.new.cells
            ≡ zero_range address count (store_of (initial_bytes world.now) self.old.cells)) }
    {
        self.hold(address / ROOM)?;
        match self.cells.get_mut(&(address / ROOM)) {
            Some(cell) => cell.zero(world, address, count),
            None => Ok(()),
        }
    }

    /// Makes an object, which has the bytes that stood at its addresses. It fails for want of memory alone.
    pub fn make(&mut self, number: u64, object: Object) -> Result<(), AllocError>
        ensures { (world : _) → OnOk result (store_of world self.new.cells ≡ make number object (store_of world self.old.cells)) }
    {
        self.hold(number)?;
        match self.cells.get_mut(&number) {
            Some(cell) => cell.object = Some(object),
            None => {}
        }
        Ok(())
    }

    /// Ends an object, whose bytes stay.
    pub fn end(&mut self, number: u64)
        ensures { (world : _) → store_of world self.new.cells ≡ end number (store_of world self.old.cells) }
    {
        match self.cells.get_mut(&number) {
            Some(cell) => cell.object = None,
            None => {}
        }
    }

    /// Sees that there is a cell of a number. It fails for want of memory alone.
    fn hold(&mut self, number: u64) -> Result<(), AllocError>
        ensures same { (world : _) → OnOk result (store_of world self.new.cells ≡ store_of world self.old.cells) }
        ensures there { OnOk result (IsSome (get nat_cmp self.new.cells number)) }
    {
        if !self.cells.contains_key(&number) {
            self.cells.insert(number, Cell::new(self.alloc, None))?;
        }
        Ok(())
    }
}

/// Whether an object has this many bytes.
fn reaches(object: Option<Object>, end: u128) -> bool
    ensures exact { result ≡ access.reaches object end }
    ensures room { IsTrue result → end ≤ 2 ^ 32 }
{
    match object {
        Some(object) => end <= u128::from(object.size),
        None => false,
    }
}

fn is_literal(object: Option<Object>) -> bool
    ensures { result ≡ access.is_literal object }
{
    match object {
        Some(object) => object.kind == ObjectKind::Literal,
        None => false,
    }
}

fn is_heap(object: Option<Object>) -> bool
    ensures { result ≡ access.is_heap object }
{
    match object {
        Some(object) => object.kind == ObjectKind::Heap,
        None => false,
    }
}
