//! How many places the run of a program may take.
ghost use Rattle.std.specs.Prelude.{◌≡◌, IfOk};
ghost use Rattle.core_tree.specs.Programs as program;
ghost use Rattle.run_programs.specs.Places.{silent_machine};

use crate::calls::function_at;
use crate::entry::entry_room;
use crate::rooms::{function_room, rooms_below, sum_of};
use core_tree::Core;
use plain_data::{Bounds, World};
use run_core::Place;
use std::alloc::{AllocError, Global};

/// How many places the run of a program of the core may take within bounds, those of what lives throughout the run
/// among them. It fails for want of memory, as which 2^63 places or more count, and a program without `main`.
pub fn room(alloc: Global, core: &Core, bounds: &Bounds) -> Result<u64, AllocError>
    ensures { IfOk result (λ room. room ≡ program.room_of (silent_machine core.now bounds.now)) }
{
    let world = World::new(alloc);
    let own = sum_of(core.places, entry_room(core, bounds))?;
    let function = function_at(core, core.main)?;
    let left = bounds.depth - 1;
    let rooms = rooms_below(alloc, core, &world, bounds, left)?;
    let place = Place {
        core,
        world: &world,
        bounds,
        rooms: &rooms,
        left,
        function,
    };
    let inside = function_room(&place)?;
    let all = sum_of(own, inside)?;
    Ok(all)
}
