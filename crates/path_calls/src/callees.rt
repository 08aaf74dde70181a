//! What each kind of callee does.
ghost use Rattle.std.specs.Prelude.{IfOk, ℕ};
ghost use Rattle.core_tree.specs.declared.expr.Callee.TheVariants as c;
ghost use Rattle.path_states.specs.States.{IsState};
ghost use Rattle.path_calls.specs.Begun.{CallsBy};
ghost use Rattle.path_calls.specs.Places.{CallsWithin};

use crate::answering::{answer, argument, end};
use crate::beginning::begin;
use crate::heap::{calloc, free, malloc};
use crate::outside_calls::outside;
use c_means::Kind;
use core_tree::Callee;
use path_forms::{CallSite, WalkFault};
use path_states::{State, StateKind, Walked};
use plain_data::{Bounds, Finish};
use std::alloc::Global;
use term_bank::{Bank, BankFault};

/// How many places a call by rule names at most, but for those of `%p`.
pub(crate) const PLACES: u64 = 4;

/// An argument of this index is the answer. It fails for want of memory alone.
pub fn identity(
    alloc: Global,
    bank: &mut Bank,
    site: CallSite,
    index: u32,
    state: &State,
) -> Result<Walked, BankFault>
    requires { IsState bank.old state.now }
    ensures { IfOk result (λ w. (room : ℕ) → CallsBy room bank.old bank.new state.now (c.Identity index) site w) }
{
    let mut now = state.copy(alloc)?;
    let arguments = begin(alloc, bank, site, &mut now)?;
    let number = argument(bank, &arguments, index)?;
    let walked = answer(alloc, bank, site.answer, number, now)?;
    Ok(walked)
}

/// The run ends by `abort` (C99 7.20.4.1). It fails for want of memory alone.
pub fn abort(
    alloc: Global,
    bank: &mut Bank,
    site: CallSite,
    state: &State,
) -> Result<Walked, BankFault>
    requires { IsState bank.old state.now }
    ensures { IfOk result (λ w. (room : ℕ) → CallsBy room bank.old bank.new state.now c.Abort site w) }
{
    let mut now = state.copy(alloc)?;
    let arguments = begin(alloc, bank, site, &mut now)?;
    let _ = arguments;
    let walked = end(alloc, StateKind::Known(Kind::Ended(Finish::Abort)), now)?;
    Ok(walked)
}

/// The run ends by `exit` with its first argument as the status (C99 7.20.4.3), which may be any number of the world. It
/// fails for want of memory alone.
pub fn exit(
    alloc: Global,
    bank: &mut Bank,
    site: CallSite,
    state: &State,
) -> Result<Walked, BankFault>
    requires { IsState bank.old state.now }
    ensures { IfOk result (λ w. (room : ℕ) → CallsBy room bank.old bank.new state.now c.Exit site w) }
{
    let mut now = state.copy(alloc)?;
    let arguments = begin(alloc, bank, site, &mut now)?;
    let status = argument(bank, &arguments, 0)?;
    let walked = end(alloc, StateKind::Exited(status), now)?;
    Ok(walked)
}

/// A call by rule that doesn't print. It fails where the call's places aren't in the room, and for every other callee.
pub fn call_by_rule(
    alloc: Global,
    bank: &mut Bank,
    bounds: &Bounds,
    room: u64,
    callee: &Callee,
    site: CallSite,
    state: &State,
) -> Result<Walked, WalkFault>
    requires { IsState bank.old state.now }
    ensures { IfOk result (λ w. CallsWithin bounds.now room bank.old bank.new state.now callee.now site w) }
{
    match callee {
        Callee::Identity { index } => {
            let walked = identity(alloc, bank, site, *index, state)?;
            Ok(walked)
        }
        Callee::Exit => {
            let walked = exit(alloc, bank, site, state)?;
            Ok(walked)
        }
        Callee::Abort => {
            let walked = abort(alloc, bank, site, state)?;
            Ok(walked)
        }
        Callee::Malloc => {
            let walked = malloc(alloc, bank, bounds, room, site, state)?;
            Ok(walked)
        }
        Callee::Calloc => {
            let walked = calloc(alloc, bank, bounds, room, site, state)?;
            Ok(walked)
        }
        Callee::Free => {
            let walked = free(alloc, bank, site, state)?;
            Ok(walked)
        }
        Callee::Outside { answer, fill } => {
            let walked = outside(alloc, bank, bounds, room, site, *answer, *fill, state)?;
            Ok(walked)
        }
        Callee::Body { .. } | Callee::Log { .. } => Err(WalkFault::Unwalked),
    }
}
