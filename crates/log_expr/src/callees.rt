//! Where what is called ends.
ghost use Rattle.std.specs.Prelude.{◌≡◌, ◌<◌, ◌≤◌, ◌+◌, true, length, IfOk};
ghost use Rattle.printf_text.specs.Texts.{kinds};
ghost use Rattle.log_expr.specs.Below.{Finds, FoundEnds, ReachesCalls, ReachesCallee};

use crate::calls::{are_enough, text_ends};
use crate::stage::Stage;
use crate::table::{EndTable, Ends};
use core_tree::{Callee, WordType};
use positions::Positions;
use printf_text::Pieces;
use std::alloc::{AllocError, Global};

/// What walks the parts of a function: where it runs, and what finds the ends of calls.
#[derive(Clone, Copy)]
pub struct Walk<'a, L, K> {
    pub alloc: Global,
    pub stage: &'a L,
    pub call: &'a K,
}

/// Whether a log call has enough arguments for its format.
fn is_served(pieces: &Pieces, before: u64, types: &[WordType], count: usize) -> bool
    ensures { result ≡ true → (length (kinds pieces.now) + before ≤ length types.now)
        × (length (kinds pieces.now) + before ≤ count) }
{
    let before = before as usize;
    let least = count.min(types.len());
    before <= least && are_enough(pieces.as_slice(), least - before)
}

/// The ends of a call.
fn ends_of<'a, L: Stage, K: Fn(Global, &L, u32, usize, &mut EndTable) -> Result<Ends, AllocError>>(
    walk: &Walk<'a, L, K>,
    function: u32,
    start: usize,
    table: &mut EndTable,
) -> Result<Ends, AllocError>
    requires finds { Finds L.site K.Fn walk.now.stage walk.now.call.now }
    requires some { 0 < (L.site walk.now.stage.now).left }
    ensures { IfOk result (λ e. FoundEnds (L.site walk.now.stage.now) table.old table.new function start e) }
{
    (walk.call)(walk.alloc, walk.stage, function, start, table)
}

/// Where calls by body from these positions on come back; where the run may end in them is put in.
fn body_ends<
    'a,
    L: Stage,
    K: Fn(Global, &L, u32, usize, &mut EndTable) -> Result<Ends, AllocError>,
>(
    walk: &Walk<'a, L, K>,
    function: u32,
    from: &Positions,
    ended: &mut Positions,
    table: &mut EndTable,
) -> Result<Positions, AllocError>
    requires { Finds L.site K.Fn walk.now.stage walk.now.call.now }
    ensures { IfOk result (λ to. ReachesCalls (L.site walk.now.stage.now)
        table.old table.new function from.now to ended.old ended.new) }
{
    let mut to = Positions::new(walk.alloc);
    if walk.stage.left() == 0 {
        ended.put_all(from)?;
        return Ok(to);
    }
    'starts: for start in from.as_slice() {
        let found = ends_of(walk, function, *start, table)?;
        to.put_all(&found.back)?;
        ended.put_all(&found.ended)?;
    }
    Ok(to)
}

/// Where what is called with so many arguments comes back, from these positions on; where the run may end in it is put
/// in.
pub fn walk_callee<
    'a,
    L: Stage,
    K: Fn(Global, &L, u32, usize, &mut EndTable) -> Result<Ends, AllocError>,
>(
    walk: &Walk<'a, L, K>,
    callee: &Callee,
    count: usize,
    from: &Positions,
    ended: &mut Positions,
    table: &mut EndTable,
) -> Result<Positions, AllocError>
    requires { Finds L.site K.Fn walk.now.stage walk.now.call.now }
    ensures { IfOk result (λ to. ReachesCallee (L.site walk.now.stage.now)
        table.old table.new callee.now count from.now to ended.old ended.new) }
{
    let alloc = walk.alloc;
    match callee {
        Callee::Body { function } => {
            let to = body_ends(walk, *function, from, ended, table)?;
            Ok(to)
        }
        Callee::Log {
            pieces,
            before,
            types,
            ..
        } => {
            let served = is_served(pieces, *before, types.as_slice(), count);
            ended.put_all(from)?;
            let to = text_ends(alloc, pieces, served, walk.stage.log(), from)?;
            Ok(to)
        }
        Callee::Exit => {
            ended.put_all(from)?;
            Ok(Positions::new(alloc))
        }
        Callee::Abort => {
            ended.put_all(from)?;
            Ok(Positions::new(alloc))
        }
        Callee::Identity { .. } => {
            ended.put_all(from)?;
            from.copy(alloc)
        }
        Callee::Malloc => {
            ended.put_all(from)?;
            from.copy(alloc)
        }
        Callee::Calloc => {
            ended.put_all(from)?;
            from.copy(alloc)
        }
        Callee::Free => {
            ended.put_all(from)?;
            from.copy(alloc)
        }
        Callee::Outside { .. } => {
            ended.put_all(from)?;
            from.copy(alloc)
        }
    }
}
