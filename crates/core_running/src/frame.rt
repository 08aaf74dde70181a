//! The objects of a function that runs.
ghost use Rattle.std.specs.Prelude.{◌≡◌};
ghost use Rattle.core_running.specs.Frames.{env_of};

use std::alloc::Global;
use std::collections::BTreeMap;

/// The numbers of the automatic objects and parameters in force, by the offsets of their declarations.
#[derive(Drop)]
pub struct Frame {
    pub numbers: BTreeMap<u32, u32>,
}

impl Frame {
    /// A frame without objects. It takes no memory.
    pub fn new(alloc: Global) -> Frame {
        Frame {
            numbers: BTreeMap::new(alloc),
        }
    }

    /// The number of the object that a declaration made.
    pub fn number(&self, at: u32) -> u32
        ensures { result ≡ env_of self.now at }
    {
        self.numbers.get(&at).copied().unwrap_or(0)
    }
}
