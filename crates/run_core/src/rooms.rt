//! How many places each function takes, by the levels of calls that are left below it.
ghost use Rattle.std.specs.Prelude.{◌≡◌, suc, length, IfOk, OnOk};
ghost use Rattle.run_core.specs.Scenes.{machine_of, all_rooms, HoldsRooms};

use core_tree::Core;
use plain_data::{Bounds, Rows, World};
use std::alloc::{AllocError, Global};

/// The table where no level is left: no function that is called takes a place. It fails for want of memory alone.
#[tactic(auto, using(crate::proofs::Tables::holds_none))]
pub fn no_rooms(
    alloc: Global,
    core: &Core,
    world: &World,
    bounds: &Bounds,
) -> Result<Rows<u64>, AllocError>
    ensures levels { IfOk result (λ rooms. length rooms ≡ 1) }
    ensures holds { IfOk result (λ rooms. HoldsRooms (machine_of core.now world.now bounds.now) 0 rooms) }
{
    let mut rooms = Rows::new(alloc);
    rooms.push(&[])?;
    Ok(rooms)
}

/// Adds the rooms of all functions, in order, with one level more. It fails for want of memory alone.
pub fn add_rooms(
    core: &Core,
    world: &World,
    bounds: &Bounds,
    left: u32,
    row: &[u64],
    rooms: &mut Rows<u64>,
) -> Result<(), AllocError>
    requires levels { length rooms.old ≡ suc left }
    requires holds { HoldsRooms (machine_of core.now world.now bounds.now) left rooms.old }
    requires row { row.now ≡ all_rooms core.now world.now bounds.now left }
    ensures levels { OnOk result (length rooms.new ≡ suc (suc left)) }
    ensures holds { OnOk result (HoldsRooms (machine_of core.now world.now bounds.now) (suc left) rooms.new) }
{
    rooms.push(row)?;
    Ok(())
}
