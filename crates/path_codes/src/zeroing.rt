//! Objects set to 0 (C99 6.7.8p21).
ghost use Rattle.std.specs.Prelude.{IfOk};
ghost use Rattle.path_states.specs.States.{IsState, AreStates};
ghost use Rattle.path_codes.specs.Settings.{LaysAll, LaysOne, Zeroes};

use mem_terms::zero_range;
use path_forms::WalkFault;
use path_numbers::address;
use path_states::State;
use path_steps::{Leaf, each, pop};
use plain_data::{Items, Width};
use std::alloc::Global;
use term_bank::{Bank, BankFault};

fn zero_one(alloc: Global, bank: &mut Bank, size: u64, state: State) -> Result<State, BankFault>
    requires { IsState bank.old state }
    ensures { IfOk result (λ t. LaysOne bank.old bank.new size (λ _. 0) state t) }
{
    let mut next = state;
    let operand = pop(bank, &mut next)?;
    let from = address(bank, operand)?;
    let length = bank.word(size, Width::W64)?;
    let memory = zero_range(bank, next.memory, from, length)?;
    next.memory = memory;
    next.operands = Items::new(alloc);
    Ok(next)
}

/// So many bytes from the address on top of the operands on are set to 0; the states have no operands behind it.
fn zero_all(
    alloc: Global,
    bank: &mut Bank,
    size: u64,
    states: &[State],
) -> Result<Items<State>, BankFault>
    requires { AreStates bank.old states.now }
    ensures { IfOk result (λ ts. LaysAll bank.old bank.new size (λ _. 0) states.now ts) }
{
    let mut all = Items::new(alloc);
    for state in states {
        let copy = state.copy(alloc)?;
        let next = zero_one(alloc, bank, size, copy)?;
        all.push(next)?;
    }
    Ok(all)
}

/// So many bytes of the object of a place behind the base are set to 0.
pub(crate) fn zero(
    alloc: Global,
    bank: &mut Bank,
    room: u64,
    object: u64,
    size: u64,
    states: &[State],
) -> Result<Items<State>, WalkFault>
    requires { AreStates bank.old states.now }
    ensures { IfOk result (λ ts. Zeroes room object size bank.old bank.new states.now ts) }
{
    if object >= room || size > 0x1_0000_0000 {
        return Err(WalkFault::Unplaced);
    }
    let placed = each(alloc, bank, Leaf::Local { offset: object }, states)?;
    let zeroed = zero_all(alloc, bank, size, placed.going.as_slice())?;
    Ok(zeroed)
}
