ghost use Rattle.sl_io.specs.ShelfStates.{ShelfState};
ghost use Rattle.sl_io.specs.Gets.{Gets};
ghost use Rattle.sl_io.specs.Puts.{Puts};

use crate::faults::{GetFault, PutFault};
use plain_data::Bytes;
use std::alloc::Global;

/// Where files are got and put by name.
pub trait Shelf {
    ghost state: { Self → ShelfState };

    /// The bytes of the named file, at most `limit` of them. It changes no file. `Failed` comes for
    /// a name that is not held and for a failed read, `TooLong` for a file of more bytes.
    fn get(&mut self, alloc: Global, name: &str, limit: usize) -> Result<Bytes, GetFault>
        ensures { Gets (state self.old) (state self.new) name.now limit result };

    /// Makes the named file hold exactly `bytes`, and changes no other. After `Failed` it may hold
    /// any bytes, after `Memory` it is as before.
    fn put(&mut self, alloc: Global, name: &str, bytes: &[u8]) -> Result<(), PutFault>
        ensures { Puts (state self.old) (state self.new) name.now bytes.now result };
}
