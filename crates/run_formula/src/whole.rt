//! All runs of a program along a log at once.
ghost use Rattle.std.specs.Prelude.{◌≡◌, ◌+◌, Some, IfOk, slice_get};
ghost use Rattle.c_means.specs.Units.{limits_of};
ghost use Rattle.log_expr.specs.Sound.{IsSound};
ghost use Rattle.path_summaries.specs.Levels.{keys_within};
ghost use Rattle.log_expr.specs.Tours.{tour_of};
ghost use Rattle.run_formula.specs.Whole.{HasRoom, RunsAll};

use crate::arguments::{entry_room, takes_given};
use crate::entering::enter_all;
use crate::settings::ready;
use core_tree::Core;
use log_expr::EndTable;
use path_forms::WalkFault;
use path_states::State;
use path_summaries::{Levelled, summarize};
use plain_data::{Bounds, Items};
use std::alloc::Global;
use term_bank::Bank;

/// A room that was told. It fails where none was.
fn told(room: Option<u64>) -> Result<u64, WalkFault>
    ensures { IfOk result (λ n. room ≡ Some n) }
{
    match room {
        Some(room) => Ok(room),
        None => Err(WalkFault::TooFar),
    }
}

/// The room of `main` among those of all functions. It fails where none is told.
fn room_of_main(core: &Core, rooms: &[Option<u64>]) -> Result<u64, WalkFault>
    ensures { IfOk result (λ n. slice_get rooms.now core.now.main ≡ Some (Some n)) }
{
    match rooms.get(core.main as usize) {
        Some(room) => told(*room),
        None => Err(WalkFault::TooFar),
    }
}

/// The first place behind those of what lives throughout the run: from there on `main` is given its arguments, and has
/// its own places behind them. It fails where these places haven't all numbers below 2^32.
fn place_of_main(core: &Core, bounds: &Bounds, rooms: &[Option<u64>]) -> Result<u64, WalkFault>
    ensures { IfOk result (HasRoom core.now (limits_of bounds.now) rooms.now) }
{
    let room = room_of_main(core, rooms)?;
    if core.places >= 0x1_0000_0000 || room >= 0x1_0000_0000 {
        return Err(WalkFault::TooFar);
    }
    let place = core.places + 1;
    if place + entry_room(core, bounds) + room > 0x1_0000_0000 {
        return Err(WalkFault::TooFar);
    }
    Ok(place)
}

/// The ends of the program's runs along the log in all worlds at once, as states over the world alone. It counts its
/// walks: one for each key of the table of ends. It fails for want of memory, where the walk can't do a step yet, and
/// where there are more places than numbers.
pub fn run_states(
    alloc: Global,
    core: &Core,
    log: &[u8],
    bounds: &Bounds,
    ends: &EndTable,
    bank: &mut Bank,
    walks: &mut u64,
) -> Result<Items<State>, WalkFault>
    requires { IsSound core.now log.now (limits_of bounds.now) bounds.now.depth ends.now }
    ensures runs { IfOk result (λ ss. RunsAll (tour_of core.now log.now bounds.now ends.now) bank.old bank.new ss) }
    ensures counted { IfOk result (λ _. walks.new ≡ walks.old + keys_within bounds.now.depth ends.now) }
{
    let levels = summarize(alloc, core, log, bounds, ends, bank, walks)?;
    let place = place_of_main(core, bounds, levels.rooms.as_slice())?;
    let readied = ready(alloc, core, log, bounds, bank)?;
    match levels.table.find(core.main, bounds.depth - 1, 0) {
        None => Err(WalkFault::Unwalked),
        Some(summary) => {
            if !takes_given(core, summary.parameters.as_slice()) {
                return Err(WalkFault::Unwalked);
            }
            let states = enter_all(
                alloc,
                bank,
                core,
                bounds,
                summary,
                place,
                readied.as_slice(),
            )?;
            Ok(states)
        }
    }
}
