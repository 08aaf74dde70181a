//! What a function is walked in, with so many levels of calls left below it.
ghost use Rattle.std.specs.Prelude.{◌≡◌, ◌+◌, ◌≤◌, true, cond, Some, IfOk, List, slice_get};
ghost use Rattle.core_tree.specs.declared.expr.Callee.TheVariants as c;
ghost use Rattle.log_expr.specs.Tables.{ends_at};
ghost use Rattle.path_states.specs.States.{IsState};
ghost use Rattle.path_states.specs.Ways.{Tries};
ghost use Rattle.path_forms.specs.declared.frame.Placed.{Placed as PlacedType};
ghost use Rattle.path_forms.specs.Calling.{call_way};
ghost use Rattle.log_expr.specs.Tours.{tour_of};
ghost use Rattle.path_summaries.specs.Tours.{around_in, measures_in};
ghost use Rattle.path_summaries.specs.Tables.{HoldsRooms, IsReady, Counts, has_ends};

use crate::beyond::{beyond, never};
use crate::table::Summaries;
use core_tree::{Callee, Core, Function};
use log_expr::EndTable;
use path_calls::call_by_rule;
use path_forms::{CallSite, Calls, Placed, WalkFault};
use path_prints::log_call;
use path_states::{State, Walked};
use plain_data::Bounds;
use std::alloc::Global;
use summary_compose::compose;
use term_bank::Bank;

/// Where a function of a program is walked: the program, the log, the bounds, the program's end table along the log,
/// the summaries with fewer levels left, the rooms of the functions that are called, how many levels of calls are left
/// below the function, and the function.
#[derive(Clone, Copy)]
pub struct Level<'a> {
    pub core: &'a Core,
    pub log: &'a [u8],
    pub bounds: &'a Bounds,
    pub ends: &'a EndTable,
    pub table: &'a Summaries,
    pub rooms: &'a [Option<u64>],
    pub left: u32,
    pub function: &'a Function,
    ghost rooms_hold: { HoldsRooms (tour_of core.now log.now bounds.now ends.now) left rooms.now },
}

/// How many turns loops take: in a function of the prelude the limit of texts.
fn turns_in(bounds: &Bounds, is_prelude: bool) -> u32
    ensures { result ≡ cond is_prelude bounds.now.texts bounds.now.turns }
{
    if is_prelude {
        bounds.texts
    } else {
        bounds.turns
    }
}

/// A number that was told. It fails where none was.
fn told(room: Option<u64>) -> Result<u64, WalkFault>
    ensures { IfOk result (λ n. room ≡ Some n) }
{
    match room {
        Some(room) => Ok(room),
        None => Err(WalkFault::TooFar),
    }
}

/// The room in a row of rooms. It fails where the row has none.
fn room_in(rooms: &[Option<u64>], function: u32) -> Result<u64, WalkFault>
    ensures { IfOk result (λ n. slice_get rooms.now function ≡ Some (Some n)) }
{
    match rooms.get(function as usize) {
        Some(room) => told(*room),
        None => Err(WalkFault::TooFar),
    }
}

/// Whether so many places from one on are within a room.
fn is_within(place: u64, own: u64, room: u64) -> bool
    ensures { result ≡ true → place + own ≤ room }
{
    match place.checked_add(own) {
        Some(end) => end <= room,
        None => false,
    }
}

impl<'a> Calls for Level<'a> {
    ghost around = { λ l. around_in (tour_of l.core.now l.log.now l.bounds.now l.ends.now) l.left l.function.now };

    ghost ready = { λ l. IsReady (tour_of l.core.now l.log.now l.bounds.now l.ends.now) l.left l.table.now };

    fn turns(&self) -> u32 {
        turns_in(self.bounds, self.function.is_prelude)
    }

    fn room(&self, function: u32) -> Result<u64, WalkFault> {
        room_below(self, function)
    }

    fn call(
        &self,
        alloc: Global,
        bank: &mut Bank,
        frame: &[Placed],
        room: u64,
        callee: &Callee,
        site: CallSite,
        state: &State,
    ) -> Result<Walked, WalkFault> {
        match callee {
            Callee::Body { function } => {
                let walked = call_body(self, alloc, bank, room, *function, site, state)?;
                Ok(walked)
            }
            Callee::Log { .. } => {
                let walked = log_call(alloc, bank, self.log, frame, room, callee, site, state)?;
                Ok(walked)
            }
            _ => {
                let walked = call_by_rule(alloc, bank, self.bounds, room, callee, site, state)?;
                Ok(walked)
            }
        }
    }
}

/// How many places a function takes that is called. It fails where 64 bits don't count them.
fn room_below<'a>(level: &Level<'a>, function: u32) -> Result<u64, WalkFault>
    ensures { IfOk result (λ n. n ≡ (measures_in (tour_of level.now.core.now level.now.log.now level.now.bounds.now
        level.now.ends.now) level.now.left level.now.function.now).room function) }
{
    if level.left == 0 {
        return Ok(0);
    }
    if function as usize >= level.core.functions.len() {
        return Ok(0);
    }
    let room = room_in(level.rooms, function)?;
    Ok(room)
}

/// Whether some run calls a function at a position with so many levels left, its own among them.
pub(crate) fn is_key(ends: &EndTable, function: u32, left: u32, start: usize) -> bool
    ensures { result ≡ has_ends (ends_at ends.now function left start) }
{
    match ends.find(function, left, start) {
        Some(_) => true,
        None => false,
    }
}

/// How many parameters a function has. It fails where the program has no such function.
fn parameters_of(core: &Core, function: u32) -> Result<usize, WalkFault>
    ensures { IfOk result (λ n. Counts core.now function n) }
{
    match core.functions.get(function as usize) {
        Some(function) => Ok(function.parameters.len()),
        None => Err(WalkFault::Unwalked),
    }
}

/// A call by body: from the summary of the function at the state's position.
fn call_body<'a>(
    level: &Level<'a>,
    alloc: Global,
    bank: &mut Bank,
    room: u64,
    function: u32,
    site: CallSite,
    state: &State,
) -> Result<Walked, WalkFault>
    requires ready { IsReady (tour_of level.now.core.now level.now.log.now level.now.bounds.now level.now.ends.now)
        level.now.left level.now.table.now bank.old }
    requires state { IsState bank.old state.now }
    ensures { IfOk result (λ w. (frame : List PlacedType) → Tries room bank.old bank.new state.now w (call_way
        (around_in (tour_of level.now.core.now level.now.log.now level.now.bounds.now level.now.ends.now)
        level.now.left level.now.function.now) frame (c.Body function) site)) }
{
    if level.left == 0 {
        let walked = beyond(alloc, bank, site, state)?;
        return Ok(walked);
    }
    let count = parameters_of(level.core, function)?;
    let own = room_below(level, function)?;
    if count != site.count || !is_within(site.place, own, room) {
        return Err(WalkFault::TooFar);
    }
    if !is_key(level.ends, function, level.left, state.position) {
        let walked = never(alloc);
        return Ok(walked);
    }
    match level.table.find(function, level.left - 1, state.position) {
        None => Err(WalkFault::Unwalked),
        Some(summary) => {
            let walked = compose(alloc, bank, summary, site, state)?;
            Ok(walked)
        }
    }
}
