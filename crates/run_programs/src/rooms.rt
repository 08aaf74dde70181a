//! How many places the functions of a program take, level by level.
ghost use Rattle.std.specs.Prelude.{◌≡◌, ◌+◌, ◌++◌, ◌<◌, ◌^◌, suc, length, map, IfOk, OnOk};
ghost use Rattle.run_core.specs.Scenes.{machine_of, room_over, all_rooms, HoldsRooms};

use crate::calls::room_at;
use code_steps::room_of_items;
use core_tree::{Core, Function};
use plain_data::{Bounds, Items, Rows, World};
use run_core::{Place, add_rooms, no_rooms};
use std::alloc::{AllocError, Global};

/// The sum of two numbers of places. It fails from 2^63 on: such places have no numbers that count.
pub(crate) fn sum_of(first: u64, second: u64) -> Result<u64, AllocError>
    ensures sum { IfOk result (λ sum. sum ≡ first + second) }
    ensures low { IfOk result (λ _. first + second < 2 ^ 63) }
{
    match first.checked_add(second) {
        Some(sum) => {
            if sum >= 1 << 63 {
                return Err(AllocError);
            }
            Ok(sum)
        }
        None => Err(AllocError),
    }
}

/// How many places a function takes where it runs. It fails where they have no numbers that count.
#[tactic(auto, using(crate::proofs::Counts::room_found))]
pub(crate) fn function_room<'a>(place: &Place<'a>) -> Result<u64, AllocError>
    ensures { IfOk result (λ room. room ≡ room_over (machine_of place.now.core.now place.now.world.now place.now.bounds.now) place.now.left place.now.function.now) }
{
    let inside = room_of_items(place.function.items.as_slice(), place, &room_at);
    sum_of(place.function.parameters.len() as u64, inside)
}

/// Adds the rooms of functions with so many levels left, in order.
fn add_row(
    core: &Core,
    world: &World,
    bounds: &Bounds,
    rooms: &Rows<u64>,
    left: u32,
    functions: &[Function],
    row: &mut Items<u64>,
) -> Result<(), AllocError>
    requires holds { HoldsRooms (machine_of core.now world.now bounds.now) left rooms.now }
    ensures { OnOk result (row.new ≡ row.old ++ map (room_over (machine_of core.now world.now bounds.now) left) functions.now) }
{
    match functions.split_first() {
        Some((function, rest)) => {
            let place = Place {
                core,
                world,
                bounds,
                rooms,
                left,
                function,
            };
            row.push(function_room(&place)?)?;
            add_row(core, world, bounds, rooms, left, rest, row)
        }
        None => Ok(()),
    }
}

/// The rooms of all functions with so many levels left, in order.
fn row_of(
    alloc: Global,
    core: &Core,
    world: &World,
    bounds: &Bounds,
    rooms: &Rows<u64>,
    left: u32,
) -> Result<Items<u64>, AllocError>
    requires holds { HoldsRooms (machine_of core.now world.now bounds.now) left rooms.now }
    ensures { IfOk result (λ row. row ≡ all_rooms core.now world.now bounds.now left) }
{
    let mut row = Items::new(alloc);
    add_row(
        core,
        world,
        bounds,
        rooms,
        left,
        core.functions.as_slice(),
        &mut row,
    )?;
    Ok(row)
}

/// The table of rooms up to so many levels. It fails for want of memory, as which 2^63 places of a function count.
pub(crate) fn rooms_below(
    alloc: Global,
    core: &Core,
    world: &World,
    bounds: &Bounds,
    left: u32,
) -> Result<Rows<u64>, AllocError>
    ensures levels { IfOk result (λ rooms. length rooms ≡ suc left) }
    ensures holds { IfOk result (λ rooms. HoldsRooms (machine_of core.now world.now bounds.now) left rooms) }
{
    if left == 0 {
        return no_rooms(alloc, core, world, bounds);
    }
    let mut rooms = rooms_below(alloc, core, world, bounds, left - 1)?;
    let row = row_of(alloc, core, world, bounds, &rooms, left - 1)?;
    add_rooms(core, world, bounds, left - 1, row.as_slice(), &mut rooms)?;
    Ok(rooms)
}
