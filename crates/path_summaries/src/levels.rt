//! The summaries of all keys, level by level of depth.
ghost use Rattle.std.specs.Prelude.{◌≡◌, suc, IfOk, IfSome, OnOk, [], length};
ghost use Rattle.c_means.specs.Units.{limits_of};
ghost use Rattle.log_expr.specs.Sound.{IsSound};
ghost use Rattle.log_expr.specs.Tours.{tour_of};
ghost use Rattle.path_summaries.specs.Tours.{room_in};
ghost use Rattle.path_summaries.specs.Tables.{HoldsRooms};
ghost use Rattle.path_summaries.specs.Levels.{Based, FillsKey, FillsEntry, FillsRow, FillsRows, PutsRooms, IsLevelled, Climbs, Levels};

use crate::level::{Level, is_key};
use crate::table::Summaries;
use crate::walking::{next_number, room_of_body, walk};
use core_tree::{Core, Function};
use log_expr::{EndTable, Entry};
use path_forms::WalkFault;
use plain_data::{Bounds, Items};
use std::alloc::{AllocError, Global};
use term_bank::Bank;

/// All functions of a program, walked along a log with so many levels of calls left below them: the summaries with
/// fewer levels left, and the rooms of the functions that are called.
#[derive(Clone, Copy)]
pub struct Floor<'a> {
    pub core: &'a Core,
    pub log: &'a [u8],
    pub bounds: &'a Bounds,
    pub ends: &'a EndTable,
    pub table: &'a Summaries,
    pub rooms: &'a [Option<u64>],
    pub left: u32,
}

/// The summaries of all functions with so many levels of calls left, and the rooms that they take, by the functions'
/// numbers: none where 64 bits don't count them.
#[derive(Drop)]
pub struct Levelled {
    pub table: Summaries,
    pub rooms: Items<Option<u64>>,
}

/// Puts the summary of one key in, and counts the walk.
fn walk_key<'a>(
    alloc: Global,
    floor: &Floor<'a>,
    function: u32,
    start: usize,
    bank: &mut Bank,
    table: &mut Summaries,
    walks: &mut u64,
) -> Result<(), WalkFault>
    requires { Based (tour_of floor.now.core.now floor.now.log.now floor.now.bounds.now floor.now.ends.now)
        floor.now.left floor.now.table.now floor.now.rooms.now bank.old }
    ensures { OnOk result (FillsKey (tour_of floor.now.core.now floor.now.log.now floor.now.bounds.now
        floor.now.ends.now) bank.old bank.new floor.now.left function start table.old table.new walks.old walks.new) }
{
    let depth = next_number(floor.left)?;
    if !is_key(floor.ends, function, depth, start) {
        return Err(WalkFault::Unwalked);
    }
    match floor.core.functions.get(function as usize) {
        None => Err(WalkFault::Unwalked),
        Some(body) => {
            let level = Level {
                core: floor.core,
                log: floor.log,
                bounds: floor.bounds,
                ends: floor.ends,
                table: floor.table,
                rooms: floor.rooms,
                left: floor.left,
                function: body,
            };
            let summary = walk(alloc, &level, function, start, bank, walks)?;
            table.put(alloc, function, floor.left, start, summary)?;
            Ok(())
        }
    }
}

/// Puts the summary of the key of an entry at a position in, where the entry has the level's depth.
#[tactic(auto, using(crate::proofs::Levelling::entry_walked, crate::proofs::Levelling::entry_passed))]
fn walk_entry<'a>(
    alloc: Global,
    floor: &Floor<'a>,
    entry: &Entry,
    start: usize,
    bank: &mut Bank,
    table: &mut Summaries,
    walks: &mut u64,
) -> Result<(), WalkFault>
    requires { Based (tour_of floor.now.core.now floor.now.log.now floor.now.bounds.now floor.now.ends.now)
        floor.now.left floor.now.table.now floor.now.rooms.now bank.old }
    ensures { OnOk result (FillsEntry (tour_of floor.now.core.now floor.now.log.now floor.now.bounds.now
        floor.now.ends.now) bank.old bank.new floor.now.left start entry.now table.old table.new walks.old walks.new) }
{
    let depth = next_number(floor.left)?;
    if entry.depth != depth {
        return Ok(());
    }
    walk_key(alloc, floor, entry.function, start, bank, table, walks)?;
    Ok(())
}

/// Puts the summaries of the keys of some entries at a position in.
fn walk_row<'a>(
    alloc: Global,
    floor: &Floor<'a>,
    entries: &[Entry],
    start: usize,
    bank: &mut Bank,
    table: &mut Summaries,
    walks: &mut u64,
) -> Result<(), WalkFault>
    requires { Based (tour_of floor.now.core.now floor.now.log.now floor.now.bounds.now floor.now.ends.now)
        floor.now.left floor.now.table.now floor.now.rooms.now bank.old }
    ensures { OnOk result (FillsRow (tour_of floor.now.core.now floor.now.log.now floor.now.bounds.now
        floor.now.ends.now) bank.old bank.new floor.now.left start entries.now table.old table.new walks.old walks.new) }
{
    match entries.split_first() {
        None => Ok(()),
        Some((entry, rest)) => {
            walk_entry(alloc, floor, entry, start, bank, table, walks)?;
            walk_row(alloc, floor, rest, start, bank, table, walks)?;
            Ok(())
        }
    }
}

/// Puts the summaries of all keys in that have the level's depth.
fn walk_rows<'a>(
    alloc: Global,
    floor: &Floor<'a>,
    bank: &mut Bank,
    table: &mut Summaries,
    walks: &mut u64,
) -> Result<(), WalkFault>
    requires { Based (tour_of floor.now.core.now floor.now.log.now floor.now.bounds.now floor.now.ends.now)
        floor.now.left floor.now.table.now floor.now.rooms.now bank.old }
    ensures { OnOk result (FillsRows (tour_of floor.now.core.now floor.now.log.now floor.now.bounds.now
        floor.now.ends.now) bank.old bank.new floor.now.left (length floor.now.ends.now) table.old table.new walks.old walks.new) }
{
    let mut start = 0;
    'starts: while start < floor.ends.len() {
        walk_row(
            alloc,
            floor,
            floor.ends.row(start),
            start,
            bank,
            table,
            walks,
        )?;
        start += 1;
    }
    Ok(())
}

/// How many places a function takes on the level: none where 64 bits don't count them.
fn room_with<'a>(floor: &Floor<'a>, function: &'a Function) -> Option<u64>
    requires { HoldsRooms (tour_of floor.now.core.now floor.now.log.now floor.now.bounds.now floor.now.ends.now)
        floor.now.left floor.now.rooms.now }
    ensures { IfSome result (λ n. n ≡ room_in (tour_of floor.now.core.now floor.now.log.now floor.now.bounds.now
        floor.now.ends.now) floor.now.left function.now) }
{
    let level = Level {
        core: floor.core,
        log: floor.log,
        bounds: floor.bounds,
        ends: floor.ends,
        table: floor.table,
        rooms: floor.rooms,
        left: floor.left,
        function,
    };
    match room_of_body(&level) {
        Ok(room) => Some(room),
        Err(_) => None,
    }
}

/// Adds the rooms of functions. It fails for want of memory alone.
fn add_rooms<'a>(
    floor: &Floor<'a>,
    functions: &'a [Function],
    rooms: &mut Items<Option<u64>>,
) -> Result<(), AllocError>
    requires { HoldsRooms (tour_of floor.now.core.now floor.now.log.now floor.now.bounds.now floor.now.ends.now)
        floor.now.left floor.now.rooms.now }
    ensures { OnOk result (PutsRooms (tour_of floor.now.core.now floor.now.log.now floor.now.bounds.now
        floor.now.ends.now) floor.now.left functions.now rooms.old rooms.new) }
{
    match functions.split_first() {
        None => Ok(()),
        Some((function, rest)) => {
            let room = room_with(floor, function);
            rooms.push(room)?;
            add_rooms(floor, rest, rooms)?;
            Ok(())
        }
    }
}

/// A level: the summaries of all its keys, and the rooms of all functions on it.
fn level_on<'a>(
    alloc: Global,
    floor: &Floor<'a>,
    bank: &mut Bank,
    walks: &mut u64,
) -> Result<Levelled, WalkFault>
    requires { Based (tour_of floor.now.core.now floor.now.log.now floor.now.bounds.now floor.now.ends.now)
        floor.now.left floor.now.table.now floor.now.rooms.now bank.old }
    ensures { IfOk result (λ l. Climbs (tour_of floor.now.core.now floor.now.log.now floor.now.bounds.now
        floor.now.ends.now) bank.old bank.new floor.now.left l walks.old walks.new) }
{
    let mut table = Summaries::new(alloc);
    let mut rooms = Items::new(alloc);
    walk_rows(alloc, floor, bank, &mut table, walks)?;
    add_rooms(floor, floor.core.functions.as_slice(), &mut rooms)?;
    Ok(Levelled { table, rooms })
}

/// No level: where no call is left.
fn no_level(alloc: Global) -> Levelled
    ensures { result ≡ record { table = []; rooms = [] } }
{
    Levelled {
        table: Summaries::new(alloc),
        rooms: Items::new(alloc),
    }
}

/// The level above another, which has so many levels of calls left below it.
fn level_above(
    alloc: Global,
    core: &Core,
    log: &[u8],
    bounds: &Bounds,
    ends: &EndTable,
    below: &Levelled,
    left: u32,
    bank: &mut Bank,
    walks: &mut u64,
) -> Result<Levelled, WalkFault>
    requires sound { IsSound core.now log.now (limits_of bounds.now) bounds.now.depth ends.now }
    requires below { IsLevelled (tour_of core.now log.now bounds.now ends.now) bank.old left below.now }
    ensures { IfOk result (λ l. Climbs (tour_of core.now log.now bounds.now ends.now) bank.old bank.new left l
        walks.old walks.new) }
{
    let floor = Floor {
        core,
        log,
        bounds,
        ends,
        table: &below.table,
        rooms: below.rooms.as_slice(),
        left,
    };
    let level = level_on(alloc, &floor, bank, walks)?;
    Ok(level)
}

/// The summaries of all functions of a program along a log, as they are walked with every level of calls left: each
/// key of the table of ends has one, which stands for it, and is walked and counted once. It fails for want of memory,
/// where the walk can't do a step yet, and where 64 bits don't count the places or the walks.
pub fn summarize(
    alloc: Global,
    core: &Core,
    log: &[u8],
    bounds: &Bounds,
    ends: &EndTable,
    bank: &mut Bank,
    walks: &mut u64,
) -> Result<Levelled, WalkFault>
    requires { IsSound core.now log.now (limits_of bounds.now) bounds.now.depth ends.now }
    ensures { IfOk result (λ l. Levels (tour_of core.now log.now bounds.now ends.now) bank.old bank.new
        bounds.now.depth l walks.old walks.new) }
{
    let mut below = no_level(alloc);
    let mut left = 0;
    'levels: while left < bounds.depth {
        let level = level_above(alloc, core, log, bounds, ends, &below, left, bank, walks)?;
        below = level;
        left += 1;
    }
    Ok(below)
}
