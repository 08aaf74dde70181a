//! Steps that only say where a run stands.
ghost use Rattle.std.specs.Prelude.{◌≡◌, ◌∷◌, [], ℕ, List, IfOk, Some};
ghost use Rattle.plain_data.specs.declared.run.Finish.TheVariants as finish;
ghost use Rattle.core_tree.specs.States.{become};
ghost use Rattle.core_tree.specs.Codes.{left_at};
ghost use Rattle.term_bank.specs.declared.shape.Shape.{Shape as ShapeType};
ghost use Rattle.path_states.specs.States.{IsState, AreStates};
ghost use Rattle.path_states.specs.Ways.{Goes, Steps};
ghost use Rattle.path_arrows.specs.Arrows.{by_arrow, returning};

use c_means::Kind;
use path_states::{State, StateKind, copy_kind};
use path_steps::pop;
use plain_data::{Finish, Items};
use std::alloc::{AllocError, Global};
use term_bank::{Bank, BankFault};

/// The same states, which have no operands. It fails for want of memory alone.
pub fn pass(alloc: Global, states: &[State]) -> Result<Items<State>, AllocError>
    ensures { IfOk result (λ ts. (room : ℕ) (a : List ShapeType) → AreStates a states.now
        → Goes room a a states.now ts (by_arrow (λ e d. Some d))) }
{
    let mut all = Items::new(alloc);
    for state in states {
        let mut next = state.copy(alloc)?;
        next.operands = Items::new(alloc);
        all.push(next)?;
    }
    Ok(all)
}

/// States of another kind, which have no operands: a jump (C99 6.8.6). It fails for want of memory alone.
pub fn jump(alloc: Global, kind: &Kind, states: &[State]) -> Result<Items<State>, AllocError>
    ensures { IfOk result (λ ts. (room : ℕ) (a : List ShapeType) → AreStates a states.now
        → Goes room a a states.now ts (by_arrow (λ e d. Some (become kind.now d)))) }
{
    let mut all = Items::new(alloc);
    for state in states {
        let kind = copy_kind(kind)?;
        let mut next = state.copy(alloc)?;
        next.kind = StateKind::Known(kind);
        next.operands = Items::new(alloc);
        all.push(next)?;
    }
    Ok(all)
}

/// Runs leave the bounds at a token. It fails for want of memory alone.
pub fn leave(alloc: Global, at: u32, states: &[State]) -> Result<Items<State>, AllocError>
    ensures { IfOk result (λ ts. (room : ℕ) (a : List ShapeType) → AreStates a states.now
        → Goes room a a states.now ts (by_arrow (λ e. left_at at))) }
{
    let left = Kind::Ended(Finish::Left { at });
    let all = jump(alloc, &left, states)?;
    Ok(all)
}

fn give_one(alloc: Global, bank: &mut Bank, state: &State) -> Result<State, BankFault>
    requires { IsState bank.old state.now }
    ensures { IfOk result (λ t. (room : ℕ) → Steps room bank.old bank.new state.now (t ∷ []) returning) }
{
    let mut next = state.copy(alloc)?;
    let value = pop(bank, &mut next)?;
    next.kind = StateKind::Known(Kind::Returning);
    next.value = Some(value);
    next.operands = Items::new(alloc);
    Ok(next)
}

/// The value on top of the operands is given to the caller (C99 6.8.6.4p3). It fails for want of memory alone.
pub fn give(alloc: Global, bank: &mut Bank, states: &[State]) -> Result<Items<State>, BankFault>
    requires { AreStates bank.old states.now }
    ensures { IfOk result (λ ts. (room : ℕ) → Goes room bank.old bank.new states.now ts returning) }
{
    let mut all = Items::new(alloc);
    for state in states {
        let next = give_one(alloc, bank, state)?;
        all.push(next)?;
    }
    Ok(all)
}
