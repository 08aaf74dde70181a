//! What stands at the addresses of one object.
ghost use Rattle.std.specs.Prelude.{◌≡◌, ◌≤◌, ◌<◌, ◌+◌, ◌^◌, length, slice_index, [], IfOk, OnOk};
ghost use Rattle.c_store.specs.Store.{offset_of, byte_of, spelt};
ghost use Rattle.c_memory.specs.Memories.{byte_in, initial_bytes, Lays, Holds};

use c_store::Object;
use plain_data::{Items, World};
use std::alloc::{AllocError, Global};

/// How many addresses an object has at most.
pub const ROOM: u64 = 1 << 32;

/// The addresses of one number: the object that lives there, if one does, and its bytes as far as one was laid; those
/// behind them are the world's. The bytes stay when the object ends.
#[derive(Drop)]
pub struct Cell {
    pub object: Option<Object>,
    pub bytes: Items<u8>,
}

impl Cell {
    /// Addresses at which no byte was laid.
    pub fn new(alloc: Global, object: Option<Object>) -> Cell
        ensures object { result.object ≡ object }
        ensures bytes { result.bytes ≡ [] }
    {
        Cell {
            object,
            bytes: Items::new(alloc),
        }
    }

    /// The byte at an address of the object.
    pub fn byte(&self, world: &World, address: u64) -> u8
        ensures { result ≡ byte_in (initial_bytes world.now) self.now address }
    {
        let offset = (address % ROOM) as usize;
        match self.bytes.get(offset) {
            Some(byte) => *byte,
            None => world.byte(address),
        }
    }

    /// Lays a byte at an address of the object. It fails for want of memory alone.
    fn set(&mut self, world: &World, address: u64, byte: u8) -> Result<(), AllocError>
        ensures { OnOk result (Lays (initial_bytes world.now) self.old self.new address 1 (λ _. byte)) }
    {
        let offset = (address % ROOM) as usize;
        let start = address - address % ROOM;
        'initial: while self.bytes.len() <= offset {
            let initial = world.byte(start + self.bytes.len() as u64);
            self.bytes.push(initial)?;
        }
        self.bytes.set(offset, byte);
        Ok(())
    }

    /// Lays the bytes of a number, the least first. It fails for want of memory alone.
    pub fn write(
        &mut self,
        world: &World,
        address: u64,
        width: u64,
        value: u64,
    ) -> Result<(), AllocError>
        requires room { offset_of address + width ≤ 2 ^ 32 }
        ensures { OnOk result (Lays (initial_bytes world.now) self.old self.new address width (byte_of value)) }
    {
        let mut rest = value;
        'bytes: for i in 0..width {
            self.set(world, address + i, (rest % 256) as u8)?;
            rest /= 256;
        }
        Ok(())
    }

    /// Lays these bytes. It fails for want of memory alone.
    pub fn lay(&mut self, world: &World, address: u64, bytes: &[u8]) -> Result<(), AllocError>
        requires room { offset_of address + length bytes.now ≤ 2 ^ 32 }
        ensures { OnOk result (Lays (initial_bytes world.now) self.old self.new address (length bytes.now) (slice_index bytes.now)) }
    {
        'bytes: for i in 0..bytes.len() {
            self.set(world, address + i as u64, bytes[i])?;
        }
        Ok(())
    }

    /// Lays zeros. It fails for want of memory alone.
    pub fn zero(&mut self, world: &World, address: u64, count: u64) -> Result<(), AllocError>
        requires room { offset_of address + count ≤ 2 ^ 32 }
        ensures { OnOk result (Lays (initial_bytes world.now) self.old self.new address count (λ _. 0)) }
    {
        'bytes: for i in 0..count {
            self.set(world, address + i, 0)?;
        }
        Ok(())
    }

    /// The number that these bytes spell, the least first.
    pub fn read(&self, world: &World, address: u64, width: u64) -> u64
        requires width { width ≤ 8 }
        requires room { offset_of address + width ≤ 2 ^ 32 }
        ensures { result ≡ spelt width (byte_in (initial_bytes world.now) self.now) address }
    {
        let mut value: u64 = 0;
        let mut left = width;
        'bytes: while left > 0 {
            left -= 1;
            value = value * 256 + u64::from(self.byte(world, address + left));
        }
        value
    }

    /// A copy of these bytes. It fails for want of memory alone.
    pub fn copy(
        &self,
        alloc: Global,
        world: &World,
        address: u64,
        count: u64,
    ) -> Result<Items<u8>, AllocError>
        requires room { offset_of address + count ≤ 2 ^ 32 }
        ensures { IfOk result (λ bytes. Holds (byte_in (initial_bytes world.now) self.now) address count bytes) }
    {
        let mut bytes = Items::new(alloc);
        'bytes: for i in 0..count {
            bytes.push(self.byte(world, address + i))?;
        }
        Ok(bytes)
    }
}
