//! The end table of a program.
ghost use Rattle.std.specs.Prelude.{◌<◌, IfOk};
ghost use Rattle.c_means.specs.Units.{limits_of};
ghost use Rattle.log_expr.specs.Below.{FoundEnds};
ghost use Rattle.log_expr.specs.Bodies.{site_of, PutsOnce, WalksCall};
ghost use Rattle.log_expr.specs.Sound.{IsSound};

use crate::bodies::walk_body;
use crate::callees::Walk;
use crate::place::{Place, below};
use crate::table::{EndTable, Ends};
use core_tree::Core;
use plain_data::Bounds;
use positions::Positions;
use std::alloc::{AllocError, Global};

/// Puts the ends of a function in, where it has none yet, and gives those that it has then. It fails for want of memory
/// alone.
fn put_once(
    alloc: Global,
    table: &mut EndTable,
    function: u32,
    depth: u32,
    start: usize,
    ends: Ends,
) -> Result<Ends, AllocError>
    ensures { IfOk result (λ e. PutsOnce function depth start ends table.old table.new e) }
{
    if let Some(found) = table.find(function, depth, start) {
        let copy = found.copy(alloc)?;
        return Ok(copy);
    }
    let copy = ends.copy(alloc)?;
    table.put(alloc, function, depth, start, copy)?;
    Ok(ends)
}

/// The ends of a function that is called from there, one level below; one that isn't there has none. It fails for want
/// of memory alone.
#[cycle(tables)]
fn ends_below<'a>(
    alloc: Global,
    here: &Place<'a>,
    function: u32,
    start: usize,
    table: &mut EndTable,
) -> Result<Ends, AllocError>
    requires { 0 < here.now.left }
    ensures { IfOk result (λ e. WalksCall (site_of here.now) table.old table.new function start e) }
{
    match here.core.functions.get(function as usize) {
        Some(found) => {
            let lower = below(here, found);
            let walk = Walk {
                alloc,
                stage: &lower,
                call: &call_ends,
            };
            let ends = walk_body(&walk, found, start, table)?;
            Ok(ends)
        }
        None => Ok(Ends {
            back: Positions::new(alloc),
            ended: Positions::new(alloc),
        }),
    }
}

/// The ends of a function that is called from there: each key is walked once. It fails for want of memory alone.
#[cycle(tables)]
fn call_ends<'a>(
    alloc: Global,
    here: &Place<'a>,
    function: u32,
    start: usize,
    table: &mut EndTable,
) -> Result<Ends, AllocError>
    requires { 0 < here.now.left }
    ensures { IfOk result (λ e. FoundEnds (site_of here.now) table.old table.new function start e) }
{
    if let Some(found) = table.find(function, here.left, start) {
        let copy = found.copy(alloc)?;
        return Ok(copy);
    }
    let ends = ends_below(alloc, here, function, start, table)?;
    let kept = put_once(alloc, table, function, here.left, start, ends)?;
    Ok(kept)
}

/// The end table of a program along a log, within bounds: from the call of `main` at the log's beginning on, each
/// function is walked once for each position at which it may be called, with so many levels left. It fails for want of
/// memory alone.
pub fn end_table(
    alloc: Global,
    core: &Core,
    log: &[u8],
    bounds: &Bounds,
) -> Result<EndTable, AllocError>
    ensures { IfOk result (λ table. IsSound core.now log.now (limits_of bounds.now) bounds.now.depth table) }
{
    let mut table = EndTable::new(alloc);
    let place = Place {
        core,
        log,
        bounds,
        turns: bounds.turns,
        left: bounds.depth,
    };
    let _ends = call_ends(alloc, &place, core.main, 0, &mut table)?;
    Ok(table)
}
