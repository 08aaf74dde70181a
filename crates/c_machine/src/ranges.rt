//! Ranges of bytes (C99 6.7.8p10, p14, p21, 7.20.3), and what may be done with them.
ghost use Rattle.std.specs.Prelude.{◌≡◌, ◌%◌, length, slice_index, OnOk, IfOk};
ghost use Rattle.c_store.specs.Access as access;
ghost use Rattle.c_store.specs.Store as store;
ghost use Rattle.c_means.specs.Parts.{with_store};
ghost use Rattle.c_machine.specs.States.{state};

use crate::machine::Machine;
use crate::objects::has_room;
use c_store::Object;
use std::alloc::AllocError;

impl Machine {
    /// Sets bytes to 0. It fails for want of memory alone: no object leaves the addresses of its number.
    pub fn zero(&mut self, address: u64, count: u64) -> Result<(), AllocError>
        ensures world { self.new.world ≡ self.old.world }
        ensures zeroes { OnOk result (state self.new ≡ with_store (store.zero_range address count (state self.old).store) (state self.old)) }
    {
        if !has_room(address, count) {
            return Err(AllocError);
        }
        self.memory.zero(&self.world, address, count)
    }

    /// Lays these bytes at an address. It fails for want of memory alone: no object leaves the addresses of its number.
    pub fn lay_bytes(&mut self, address: u64, bytes: &[u8]) -> Result<(), AllocError>
        ensures world { self.new.world ≡ self.old.world }
        ensures lays { OnOk result (state self.new ≡ with_store (store.lay address (length bytes.now) (slice_index bytes.now) (state self.old).store) (state self.old)) }
    {
        if !has_room(address, bytes.len() as u64) {
            return Err(AllocError);
        }
        self.memory.lay(&self.world, address, bytes)
    }

    /// The byte at an address.
    pub fn byte(&self, address: u64) -> Result<u8, AllocError>
        ensures { IfOk result (λ byte. byte ≡ (state self.now).store.bytes address % 256) }
    {
        let word = self.word_at(address, 1)?;
        Ok((word % 256) as u8)
    }

    /// The live object of this number.
    pub fn object(&self, number: u64) -> Option<Object>
        ensures { result ≡ (state self.now).store.objects number }
    {
        self.memory.object(number)
    }

    /// Whether each of these bytes is of a live object.
    pub fn can_access(&self, address: u64, count: u64) -> bool
        ensures { result ≡ access.can_access (state self.now).store address count }
    {
        self.memory.can_access(address, count)
    }

    /// Whether none of these bytes is of a string literal.
    pub fn can_write(&self, address: u64, count: u64) -> bool
        ensures { result ≡ access.can_write (state self.now).store address count }
    {
        self.memory.can_write(address, count)
    }

    /// Whether `free` takes the address (C99 7.20.3.2).
    pub fn can_free(&self, address: u64) -> bool
        ensures { result ≡ access.can_free (state self.now).store address }
    {
        self.memory.can_free(address)
    }
}
