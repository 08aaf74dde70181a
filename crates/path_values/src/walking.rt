//! The walk: each level of an expression is walked over the walk of one level less.
ghost use Rattle.std.specs.Prelude.{◌≡◌, IfOk, OnOk};
ghost use Rattle.path_states.specs.States.{AreStates};
ghost use Rattle.path_forms.specs.Calling.{Stays};
ghost use Rattle.path_forms.specs.Reaching.{WalksValue};
ghost use Rattle.path_values.specs.Evaluations.{Starts, Evaluated};

use crate::below::Below;
use core_tree::Expr;
use path_forms::{Calls, Placed, Waiting, WalkFault};
use path_states::{State, Walked};
use plain_data::Items;
use std::alloc::{AllocError, Global};
use term_bank::Bank;

/// How many levels of an expression are gone down into.
const MOST_LEVELS: u32 = u32::MAX;

/// An expression, of at most this height.
fn value_of<C: Calls>(
    alloc: Global,
    scene: &C,
    height: u32,
    frame: &[Placed],
    room: u64,
    expression: &Expr,
    place: u64,
    bank: &mut Bank,
    walked: &mut Walked,
    waiting: &mut Items<Waiting>,
) -> Result<u64, WalkFault>
    requires starts { Starts (C.ready scene.now) bank.old walked.old }
    ensures same { OnOk result (waiting.new ≡ waiting.old) }
    ensures evaluated { IfOk result (λ n. Evaluated (C.around scene.now) (C.ready scene.now) frame.now room
        expression.now bank.old bank.new walked.old walked.new place n) }
{
    if height == 0 {
        return Err(WalkFault::Unwalked);
    }
    let below = Below {
        alloc,
        scene,
        height: height - 1,
        frame,
        room,
        value: value_of,
    };
    below.evaluate(expression, place, bank, walked, waiting)
}

/// Copies of states.
fn copies(alloc: Global, states: &[State]) -> Result<Items<State>, AllocError>
    ensures { IfOk result (λ ts. ts ≡ states.now) }
{
    let mut all = Items::new(alloc);
    for state in states {
        let copy = state.copy(alloc)?;
        all.push(copy)?;
    }
    Ok(all)
}

/// What an expression's walk leads to: the states, and the next place behind its own.
#[derive(Drop)]
pub struct Valued {
    pub walked: Walked,
    pub next: u64,
}

/// What an expression makes of states of which one stands at most, with its places from one behind the base on: those
/// that go on have its value on top of their operands. It fails for want of memory, and where the expression has a form
/// or a call that isn't walked, or a place or object that isn't known.
pub fn walk_value<C: Calls>(
    alloc: Global,
    scene: &C,
    frame: &[Placed],
    room: u64,
    expression: &Expr,
    place: u64,
    bank: &mut Bank,
    states: &[State],
) -> Result<Valued, WalkFault>
    requires calls { Stays (C.ready scene.now) bank.old }
    requires states { AreStates bank.old states.now }
    ensures { IfOk result (λ x. WalksValue (C.around scene.now) frame.now room expression.now bank.old bank.new
        states.now x.walked place x.next) }
{
    let going = copies(alloc, states)?;
    let mut walked = Walked {
        going,
        ended: Items::new(alloc),
    };
    let mut waiting = Items::new(alloc);
    let next = value_of(
        alloc,
        scene,
        MOST_LEVELS,
        frame,
        room,
        expression,
        place,
        bank,
        &mut walked,
        &mut waiting,
    )?;
    Ok(Valued { walked, next })
}
