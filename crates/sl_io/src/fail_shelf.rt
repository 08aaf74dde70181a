ghost use Rattle.std.specs.Prelude.{◌≡◌, ◌≢◌, Err};
ghost use Rattle.std.specs.Bool.{OnTrue, OnFalse};
ghost use Rattle.sl_io.specs.Counts.{capped_sum};
ghost use Rattle.sl_io.specs.Gets.{Gets};
ghost use Rattle.sl_io.specs.Puts.{Puts};
ghost use Rattle.sl_io.specs.MemoryShelves.{held, counted, shelf_state, got_count, put_count, IsAnswer};
ghost use Rattle.sl_io.specs.FailingShelves.{inner, listed, made, fails_next};

use crate::faults::{GetFault, PutFault};
use crate::mem_shelf::MemShelf;
use crate::shelf::Shelf;
use plain_data::{Bytes, Items};
use std::alloc::Global;

/// A shelf in memory whose listed calls fail and change no file. Gets and puts are counted together,
/// from 1. Every other call is that of the shelf in memory.
pub struct FailShelf {
    shelf: MemShelf,
    failing: Items<u64>,
    calls: u64,
}

/// By hand, so that a call stands in place of all its parts wherever a value is let go.
impl Drop for FailShelf {
    fn drop(self) {
        let FailShelf {
            shelf,
            failing,
            calls,
        } = self;
    }
}

impl FailShelf {
    /// A shelf with these files, none of whose calls was made yet. `failing` lists the calls that
    /// are to fail.
    pub fn new(shelf: MemShelf, failing: Items<u64>) -> FailShelf
        ensures shelf { inner result ≡ shelf }
        ensures failing { listed result ≡ failing }
        ensures calls { made result ≡ 0 }
    {
        FailShelf {
            shelf,
            failing,
            calls: 0,
        }
    }

    /// The files, and what was counted.
    pub fn shelf(&self) -> &MemShelf
        ensures { result.now ≡ inner self.now }
    {
        &self.shelf
    }

    /// How many calls were made.
    pub fn calls(&self) -> u64
        ensures { result ≡ made self.now }
    {
        self.calls
    }

    /// Counts a call, and says whether it is to fail.
    fn next_fails(&mut self) -> bool
        ensures fails { result ≡ fails_next self.old }
        ensures shelf { inner self.new ≡ inner self.old }
        ensures failing { listed self.new ≡ listed self.old }
        ensures calls { made self.new ≡ capped_sum (made self.old) 1 }
    {
        self.calls = self.calls.saturating_add(1);
        self.failing.as_slice().contains(&self.calls)
    }
}

impl Shelf for FailShelf {
    ghost state = { λ s. shelf_state (inner s) };

    fn get(&mut self, alloc: Global, name: &str, limit: usize) -> Result<Bytes, GetFault>
        ensures meets { Gets (shelf_state (inner self.old)) (shelf_state (inner self.new)) name.now limit result }
        ensures listed { OnTrue (fails_next self.old) (result ≡ Err GetFault.Failed) }
        ensures unlisted { OnFalse (fails_next self.old) (IsAnswer (held (inner self.old) name.now) limit result) }
        ensures counts { counted (inner self.new) ≡ got_count (counted (inner self.old)) limit result }
        ensures calls { made self.new ≡ capped_sum (made self.old) 1 }
        ensures failing { listed self.new ≡ listed self.old }
    {
        if self.next_fails() {
            self.shelf.fail_get();
            return Err(GetFault::Failed);
        }
        self.shelf.get(alloc, name, limit)
    }

    fn put(&mut self, alloc: Global, name: &str, bytes: &[u8]) -> Result<(), PutFault>
        ensures meets { Puts (shelf_state (inner self.old)) (shelf_state (inner self.new)) name.now bytes.now result }
        ensures listed { OnTrue (fails_next self.old) ((result ≡ Err PutFault.Failed) × (held (inner self.new) ≡ held (inner self.old))) }
        ensures unlisted { OnFalse (fails_next self.old) (result ≢ Err PutFault.Failed) }
        ensures counts { counted (inner self.new) ≡ put_count (counted (inner self.old)) result }
        ensures calls { made self.new ≡ capped_sum (made self.old) 1 }
        ensures failing { listed self.new ≡ listed self.old }
    {
        if self.next_fails() {
            self.shelf.fail_put();
            return Err(PutFault::Failed);
        }
        self.shelf.put(alloc, name, bytes)
    }
}
