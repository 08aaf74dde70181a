//! Objects made, set to 0 and ended (C99 6.2.4, 6.7.8p10).
ghost use Rattle.std.specs.Prelude.{◌≡◌, OnOk};
ghost use Rattle.c_store.specs.Store as store;
ghost use Rattle.c_means.specs.Parts.{with_store};
ghost use Rattle.c_machine.specs.States.{state};

use crate::machine::Machine;
use c_store::Object;
use std::alloc::AllocError;

impl Machine {
    /// Makes an object, whose bytes are those that stood at its addresses. It fails for want of memory alone.
    pub fn make(&mut self, number: u64, object: Object) -> Result<(), AllocError>
        ensures world { self.new.world ≡ self.old.world }
        ensures makes { OnOk result (state self.new ≡ with_store (store.make number object (state self.old).store) (state self.old)) }
    {
        self.memory.make(number, object)
    }

    /// Ends an object's life, and leaves its bytes.
    pub fn end_object(&mut self, number: u64)
        ensures world { self.new.world ≡ self.old.world }
        ensures ends { state self.new ≡ with_store (store.end number (state self.old).store) (state self.old) }
    {
        self.memory.end(number);
    }
}
