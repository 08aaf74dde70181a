//! The case of a `switch` that a value takes (C99 6.8.4.2).
ghost use Rattle.std.specs.Prelude.{◌≡◌, IfOk, OnOk};
ghost use Rattle.core_tree.specs.Numbers.{is_in};
ghost use Rattle.term_bank.specs.Terms.{IsTerm};
ghost use Rattle.term_bank.specs.declared.sort.Sort.TheVariants.{Events};
ghost use Rattle.path_states.specs.States.{IsNumber, IsState, AreStates};
ghost use Rattle.plain_data.specs.declared.run.Side.TheVariants as side;
ghost use Rattle.c_means.specs.declared.kind.Kind.TheVariants as k;
ghost use Rattle.path_codes.specs.Selecting.{Tells, SelectsCase, Selects, SelectsOne, SelectsAll, IsOnItsWay};

use c_means::Kind;
use core_tree::{Arithmetic, WordType};
use path_forms::WalkFault;
use path_numbers::{constant, truth, worked, wrapped};
use path_states::{Number, State, StateKind, halve};
use path_steps::pop;
use plain_data::{Items, Side, Width};
use std::alloc::Global;
use term_bank::{Bank, BankFault, Node};

/// Whether a type has a number.
fn has(word: WordType, value: i128) -> bool
    ensures { result ≡ is_in word value }
{
    match word.width {
        Width::W8 => {
            if word.is_signed {
                -0x80 <= value && value <= 0x7F
            } else {
                0 <= value && value <= 0xFF
            }
        }
        Width::W16 => {
            if word.is_signed {
                -0x8000 <= value && value <= 0x7FFF
            } else {
                0 <= value && value <= 0xFFFF
            }
        }
        Width::W32 => {
            if word.is_signed {
                -0x8000_0000 <= value && value <= 0x7FFF_FFFF
            } else {
                0 <= value && value <= 0xFFFF_FFFF
            }
        }
        Width::W64 => {
            if word.is_signed {
                -0x8000_0000_0000_0000 <= value && value <= 0x7FFF_FFFF_FFFF_FFFF
            } else {
                0 <= value && value <= 0xFFFF_FFFF_FFFF_FFFF
            }
        }
    }
}

/// Whether a number of a type is the value of a case.
fn is_case(bank: &mut Bank, word: WordType, number: Number, case: &i128) -> Result<Node, WalkFault>
    requires { IsNumber bank.old number }
    ensures { IfOk result (λ n. Tells bank.old bank.new n word number case.now) }
{
    let value = *case;
    if value < -0x8000_0000_0000_0000 || value > 0xFFFF_FFFF_FFFF_FFFF || !has(word, value) {
        return Err(WalkFault::Unwalked);
    }
    let label = constant(bank, value)?;
    let tested = worked(bank, Arithmetic::Equal, word, number, label)?;
    let same = truth(bank, tested.number)?;
    Ok(same)
}

/// The state where this guard is true, on its way to a case, with a side of the `switch` noted.
fn chosen(
    alloc: Global,
    bank: &mut Bank,
    state: &State,
    guard: Node,
    kind: Kind,
    at: u32,
    side: Side,
) -> Result<State, BankFault>
    requires { IsTerm bank.old Events state.now.events }
    ensures { IfOk result (IsOnItsWay bank.old bank.new state.now guard kind at side) }
{
    let mut next = state.copy(alloc)?;
    next.guard = guard;
    next.kind = StateKind::Known(kind);
    next.operands = Items::new(alloc);
    let events = bank.branch_event(state.events, state.position as u64, at, side)?;
    next.events = events;
    Ok(next)
}

fn chosen_case(
    alloc: Global,
    bank: &mut Bank,
    state: &State,
    guard: Node,
    at: u32,
    case: &i128,
) -> Result<State, BankFault>
    requires { IsTerm bank.old Events state.now.events }
    ensures { IfOk result (IsOnItsWay bank.old bank.new state.now guard (k.Choosing case.now) at
        (side.Case case.now)) }
{
    let kind = Kind::Choosing { value: *case };
    let next = chosen(alloc, bank, state, guard, kind, at, Side::Case(*case))?;
    Ok(next)
}

/// Adds what a state becomes where a number is the value of a case, and answers what it is where it isn't.
fn select_case(
    alloc: Global,
    bank: &mut Bank,
    at: u32,
    word: WordType,
    number: Number,
    case: &i128,
    state: &State,
    all: &mut Items<State>,
) -> Result<State, WalkFault>
    requires state { IsState bank.old state.now }
    requires number { IsNumber bank.old number }
    requires all { AreStates bank.old all.old }
    ensures { IfOk result (λ other. SelectsCase bank.old bank.new at word number case.now state.now all.old all.new
        other) }
{
    let same = is_case(bank, word, number, case)?;
    let sides = halve(bank, state.guard, same)?;
    let here = chosen_case(alloc, bank, state, sides.yes, at, case)?;
    all.push(here)?;
    let mut other = state.copy(alloc)?;
    other.guard = sides.no;
    Ok(other)
}

/// Adds what a state becomes that is on its way to the case of a number, else to `default`.
fn select(
    alloc: Global,
    bank: &mut Bank,
    at: u32,
    word: WordType,
    number: Number,
    cases: &[i128],
    state: &State,
    all: &mut Items<State>,
) -> Result<(), WalkFault>
    requires state { IsState bank.old state.now }
    requires number { IsNumber bank.old number }
    requires all { AreStates bank.old all.old }
    ensures { OnOk result (Selects bank.old bank.new at word number cases.now state.now all.old all.new) }
{
    match cases.split_first() {
        Some((case, rest)) => {
            let other = select_case(alloc, bank, at, word, number, case, state, all)?;
            select(alloc, bank, at, word, number, rest, &other, all)?;
            Ok(())
        }
        None => {
            let kind = Kind::Defaulting;
            let last = chosen(alloc, bank, state, state.guard, kind, at, Side::Otherwise)?;
            all.push(last)?;
            Ok(())
        }
    }
}

fn select_one(
    alloc: Global,
    bank: &mut Bank,
    at: u32,
    word: WordType,
    cases: &[i128],
    state: State,
) -> Result<Items<State>, WalkFault>
    requires { IsState bank.old state }
    ensures { IfOk result (λ ts. SelectsOne bank.old bank.new at word cases.now state ts) }
{
    let mut state = state;
    let operand = pop(bank, &mut state)?;
    let number = wrapped(bank, operand, word)?;
    let mut all = Items::new(alloc);
    select(alloc, bank, at, word, number, cases, &state, &mut all)?;
    Ok(all)
}

/// The states whose value is on top of the operands are on their way to the case of the value in a type, else to
/// `default`, with that noted at a token.
pub(crate) fn select_all(
    alloc: Global,
    bank: &mut Bank,
    at: u32,
    word: WordType,
    cases: &[i128],
    states: &[State],
) -> Result<Items<State>, WalkFault>
    requires { AreStates bank.old states.now }
    ensures { IfOk result (λ ts. SelectsAll bank.old bank.new at word cases.now states.now ts) }
{
    let mut all = Items::new(alloc);
    for state in states {
        let copy = state.copy(alloc)?;
        let some = select_one(alloc, bank, at, word, cases, copy)?;
        all.append(some)?;
    }
    Ok(all)
}
