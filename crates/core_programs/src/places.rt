//! The places of what lives throughout the run, by offset.
ghost use Rattle.std.specs.Prelude.{◌≡◌, IfOk, length};
ghost use Rattle.c_means.specs.Runs.{place_in};
ghost use Rattle.core_programs.specs.Offsets.{offsets_in};

use std::alloc::{AllocError, Global};
use std::collections::BTreeSet;
use std::marker::Model;

/// The offsets of what lives throughout the run, in order, each once: contracts see them as a list.
#[derive(Drop)]
pub struct PlaceTable {
    offsets: Vec<u32>,
}

impl Model for PlaceTable {
    ghost use Rattle.std.specs.Prelude.{ℕ, List};
    ghost use Rattle.std.specs.Ordering.{nat_cmp};
    ghost use Rattle.std.specs.List.Sorted.{IsStrictlySortedBy};

    ghost Value = { List ℕ };

    ghost view = { λ t. t.offsets.items };

    ghost invariant = { λ t. IsStrictlySortedBy nat_cmp t.offsets.items };
}

/// These offsets, as a set. It fails for want of memory alone.
fn gathered(alloc: Global, offsets: &[u32]) -> Result<BTreeSet<u32>, AllocError>
    ensures { IfOk result (λ set. set.keys ≡ offsets_in offsets.now) }
{
    let mut set = BTreeSet::new(alloc);
    for offset in offsets {
        set.insert(*offset)?;
    }
    Ok(set)
}

impl PlaceTable {
    /// The table of these offsets, in whatever order, each as often as it comes. It fails for want of memory alone.
    pub fn of(alloc: Global, offsets: &[u32]) -> Result<PlaceTable, AllocError>
        ensures { IfOk result (λ t. t ≡ offsets_in offsets.now) }
    {
        let set = gathered(alloc, offsets)?;
        let offsets = set.into_iter().collect(alloc)?;
        Ok(PlaceTable { offsets })
    }

    /// The place of an offset: how many offsets stand before it, and one. It takes no memory, and time in the
    /// logarithm of their number.
    pub fn place(&self, at: u32) -> u64
        ensures { result ≡ place_in self.now at }
    {
        self.offsets.partition_point(|offset| *offset < at) as u64 + 1
    }

    /// How many there are.
    pub fn count(&self) -> u64
        ensures { result ≡ length self.now }
    {
        self.offsets.len() as u64
    }
}
