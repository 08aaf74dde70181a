//! Whole runs.
ghost use Rattle.std.specs.Prelude.{◌≡◌, Some, IfOk};
ghost use Rattle.c_means.specs.Units.{world_of, limits_of};
ghost use Rattle.core_tree.specs.Programs as program;

use crate::beginning::prepare;
use crate::entry::{read_out, run_main};
use c_machine::Machine;
use core_tree::Core;
use plain_data::{Bounds, Run, World};
use run_core::Bare;
use std::alloc::{AllocError, Global};

/// The run of a program of the core in a world, within bounds: what it prints, what happens, and how it ends. It fails
/// for want of memory alone; as that count, besides, 2^63 places or more of a function, an address or a size beyond 32
/// bits where an object is made, and what no accepted program has: a function that isn't there, and a value of `main`
/// that is no `int`.
pub fn run(alloc: Global, core: &Core, world: &World, bounds: &Bounds) -> Result<Run, AllocError>
    ensures { IfOk result (λ run. program.run_of core.now (world_of world.now) (limits_of bounds.now) bounds.now.depth ≡ Some run) }
{
    let mut m = Machine::new(alloc, world.duplicate()?);
    let bare = Bare {
        core,
        world,
        bounds,
    };
    prepare(alloc, &bare, &mut m)?;
    if !m.is_running() {
        let ended = read_out(&mut m)?;
        return Ok(ended);
    }
    let whole = run_main(alloc, &bare, &mut m)?;
    Ok(whole)
}
