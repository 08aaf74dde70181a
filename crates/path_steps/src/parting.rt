ghost use Rattle.std.specs.Prelude.{IfOk};
ghost use Rattle.term_bank.specs.Terms.{IsTerm};
ghost use Rattle.term_bank.specs.declared.sort.Sort.TheVariants.{Events};
ghost use Rattle.path_states.specs.States.{IsState, AreStates};
ghost use Rattle.path_steps.specs.Branches.{IsSided, PartsOne, PartsAll};

use crate::operands::pop;
use path_numbers::truth;
use path_states::{State, halve};
use plain_data::{Items, Side};
use std::alloc::Global;
use term_bank::{Bank, BankFault, Node};

/// The states that take a branch, and those that don't.
#[derive(Drop)]
pub struct Parted {
    pub yes: Items<State>,
    pub no: Items<State>,
}

/// The state where this guard is true, with a side of a branch noted.
fn noted(
    alloc: Global,
    bank: &mut Bank,
    state: &State,
    guard: Node,
    at: u32,
    side: Side,
) -> Result<State, BankFault>
    requires { IsTerm bank.old Events state.now.events }
    ensures { IfOk result (IsSided bank.old bank.new state.now guard at side) }
{
    let mut next = state.copy(alloc)?;
    next.guard = guard;
    let events = bank.branch_event(state.events, state.position as u64, at, side)?;
    next.events = events;
    Ok(next)
}

fn part_one(alloc: Global, bank: &mut Bank, at: u32, state: State) -> Result<Parted, BankFault>
    requires { IsState bank.old state }
    ensures { IfOk result (λ p. PartsOne bank.old bank.new state at p) }
{
    let mut state = state;
    let operand = pop(bank, &mut state)?;
    let truth = truth(bank, operand)?;
    let sides = halve(bank, state.guard, truth)?;
    let yes = noted(alloc, bank, &state, sides.yes, at, Side::Yes)?;
    let no = noted(alloc, bank, &state, sides.no, at, Side::No)?;
    let mut parted = Parted {
        yes: Items::new(alloc),
        no: Items::new(alloc),
    };
    parted.yes.push(yes)?;
    parted.no.push(no)?;
    Ok(parted)
}

/// The operand on top is taken as a condition at a token (C99 6.5.13, 6.8.4.1): the states that take the branch, and
/// those that don't, each with its side noted. It fails for want of memory alone.
pub fn part(alloc: Global, bank: &mut Bank, at: u32, states: &[State]) -> Result<Parted, BankFault>
    requires { AreStates bank.old states.now }
    ensures { IfOk result (λ p. PartsAll bank.old bank.new states.now at p) }
{
    let mut parted = Parted {
        yes: Items::new(alloc),
        no: Items::new(alloc),
    };
    for state in states {
        let copy = state.copy(alloc)?;
        let Parted { yes, no } = part_one(alloc, bank, at, copy)?;
        parted.yes.append(yes)?;
        parted.no.append(no)?;
    }
    Ok(parted)
}
