//! `main`, entered from what was before it (C99 5.1.2.2.1).
ghost use Rattle.std.specs.Prelude.{◌≡◌, ◌∷◌, [], true, false, IfOk};
ghost use Rattle.c_means.specs.Units.{limits_of};
ghost use Rattle.core_tree.specs.States.{where_running};
ghost use Rattle.term_bank.specs.declared.sort.Sort.TheVariants.{Truth};
ghost use Rattle.term_bank.specs.Terms.{IsTerm};
ghost use Rattle.path_states.specs.States.{IsState, AreStates};
ghost use Rattle.path_arrows.specs.Arrows.{is_running as runs};
ghost use Rattle.run_formula.specs.Whole.{Guards, EntersOne, EntersAll};

use crate::arguments::give;
use c_means::Kind;
use core_tree::Core;
use path_forms::WalkFault;
use path_states::{State, StateKind, alone};
use plain_data::{Bounds, Items};
use std::alloc::{AllocError, Global};
use summary_compose::{Summary, put_in};
use term_bank::{Bank, BankFault, Connective, Node};

fn runs_on(kind: &Kind) -> bool
    ensures { result ≡ where_running kind.now true false }
{
    match kind {
        Kind::Running => true,
        Kind::Breaking
        | Kind::Continuing
        | Kind::Returning
        | Kind::Going { .. }
        | Kind::Choosing { .. }
        | Kind::Defaulting
        | Kind::Ended(_) => false,
    }
}

fn is_running(kind: &StateKind) -> bool
    ensures { result ≡ runs kind.now }
{
    match kind {
        StateKind::Known(known) => runs_on(known),
        StateKind::Exited(_) => false,
    }
}

/// A state with another guard.
fn with_guard(alloc: Global, guard: Node, state: &State) -> Result<State, AllocError>
    ensures { IfOk result (λ t. t ≡ record state.now { guard = guard }) }
{
    let mut next = state.copy(alloc)?;
    next.guard = guard;
    Ok(next)
}

/// States, where a guard is true besides their own. It fails for want of memory alone.
fn under_guard(
    alloc: Global,
    bank: &mut Bank,
    guard: Node,
    states: &[State],
) -> Result<Items<State>, BankFault>
    requires guard { IsTerm bank.old Truth guard }
    requires states { AreStates bank.old states.now }
    ensures { IfOk result (Guards bank.old bank.new guard states.now) }
{
    let mut all = Items::new(alloc);
    for state in states {
        let both = bank.connect(Connective::And, guard, state.guard)?;
        let next = with_guard(alloc, both, state)?;
        all.push(next)?;
    }
    Ok(all)
}

/// The state as it is, without operands.
fn pass_one(alloc: Global, state: &State) -> Result<Items<State>, AllocError>
    ensures { IfOk result (λ ts. ts ≡ record state.now { operands = [] } ∷ []) }
{
    let mut next = state.copy(alloc)?;
    next.operands = Items::new(alloc);
    let all = alone(alloc, next)?;
    Ok(all)
}

/// The ends of `main`, from the summary of it and the first place behind what lives throughout the run, behind a state.
fn enter_one(
    alloc: Global,
    bank: &mut Bank,
    core: &Core,
    bounds: &Bounds,
    summary: &Summary,
    place: u64,
    state: &State,
) -> Result<Items<State>, WalkFault>
    requires ends { AreStates bank.old summary.now.states }
    requires state { IsState bank.old state.now }
    ensures { IfOk result (EntersOne core.now.has_arguments (limits_of bounds.now) bank.old bank.new
        summary.now place state.now) }
{
    if !is_running(&state.kind) {
        let all = pass_one(alloc, state)?;
        return Ok(all);
    }
    if state.position != 0 {
        return Err(WalkFault::Unwalked);
    }
    let binding = give(alloc, bank, core, bounds, state.memory, place)?;
    let ends = put_in(alloc, bank, summary.states.as_slice(), &binding)?;
    let all = under_guard(alloc, bank, state.guard, ends.as_slice())?;
    Ok(all)
}

/// The ends of `main` behind states of which one stands at most. It fails for want of memory, where something was
/// printed before `main`, which nothing does, and where the places of its arguments haven't all numbers below 2^32.
pub(crate) fn enter_all(
    alloc: Global,
    bank: &mut Bank,
    core: &Core,
    bounds: &Bounds,
    summary: &Summary,
    place: u64,
    states: &[State],
) -> Result<Items<State>, WalkFault>
    requires ends { AreStates bank.old summary.now.states }
    requires states { AreStates bank.old states.now }
    ensures { IfOk result (EntersAll core.now.has_arguments (limits_of bounds.now) bank.old bank.new
        summary.now place states.now) }
{
    let mut all = Items::new(alloc);
    for state in states {
        let ends = enter_one(alloc, bank, core, bounds, summary, place, state)?;
        all.append(ends)?;
    }
    Ok(all)
}
