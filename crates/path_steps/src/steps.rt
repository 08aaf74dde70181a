ghost use Rattle.std.specs.Prelude.{◌≡◌, ◌++◌, ◌∷◌, [], IfOk, Some, Ok};
ghost use Rattle.std.specs.Prelude.{◌<◌, ◌+◌, ◌-◌, ◌^◌, ◌≤ℤ◌, pos, negsuc, ℕ, unsigned_abs};
ghost use Rattle.c_language.specs.Integers.{is_zero, number_of};
ghost use Rattle.core_tree.specs.Memory.{operated as operated_by};
ghost use Rattle.core_tree.specs.Numbers.{converted_to, turned as turned_in};
ghost use Rattle.core_tree.specs.States.{found, or_stop};
ghost use Rattle.path_states.specs.States.{IsState, AreStates, IsNumber};
ghost use Rattle.path_states.specs.Ways.{Tries};
ghost use Rattle.c_store.specs.Store.{start};
ghost use Rattle.c_means.specs.Expressions.{behind};
ghost use Rattle.path_numbers.specs.Answers.{IsMaybeFault};
ghost use Rattle.path_steps.specs.Exits.{Settles, exit_at};
ghost use Rattle.path_steps.specs.Leaves.{IsLeaf, StepsBy, WalksBy, Follows, shifts, again, tucked};
ghost use Rattle.path_steps.specs.Operands.{on_none, on_one, on_two, under};

use crate::addresses::natural;
use crate::leaf::Leaf;
use crate::memory_steps::{load_step, put_step};
use crate::operands::pop;
use crate::operators::operate;
use crate::settling::{exit_of, settle};
use core_tree::{Operator, Turning, ValueType, WordType};
use path_numbers::{ADDRESS, Tested, constant, converted, flag, truth, turned};
use path_states::{Number, State, Walked, settled};
use plain_data::Width;
use std::alloc::Global;
use term_bank::{Bank, BankFault, WordOperator};

/// The state goes on with one more operand.
fn put(alloc: Global, state: State, number: Number) -> Result<Walked, BankFault>
    ensures { IfOk result (λ w. w ≡ record {
      going = record state { operands = state.operands ++ number ∷ [] } ∷ [];
      ended = [];
    }) }
{
    let mut walked = settled(alloc);
    let mut state = state;
    state.operands.push(number)?;
    walked.going.push(state)?;
    Ok(walked)
}

/// The state goes on with an operator's value, unless it is undefined at a token.
fn answer(
    alloc: Global,
    bank: &mut Bank,
    state: &State,
    at: u32,
    tested: Tested,
) -> Result<Walked, BankFault>
    requires state { IsState bank.old state.now }
    requires number { IsNumber bank.old tested.number }
    requires first { IsMaybeFault bank.old tested.first }
    requires second { IsMaybeFault bank.old tested.second }
    ensures { IfOk result (λ w. Settles bank.old bank.new state.now
        (record state.now { operands = state.now.operands ++ tested.number ∷ [] })
        (exit_at at tested.first) (exit_at at tested.second) w) }
{
    let mut next = state.copy(alloc)?;
    next.operands.push(tested.number)?;
    let first = exit_of(at, tested.first);
    let second = exit_of(at, tested.second);
    let walked = settle(alloc, bank, state, next, first, second)?;
    Ok(walked)
}

fn constant_step(
    alloc: Global,
    bank: &mut Bank,
    value: i128,
    state: State,
) -> Result<Walked, BankFault>
    requires state { IsState bank.old state }
    requires least { negsuc (2 ^ 63 - 1) ≤ℤ value }
    requires most { value ≤ℤ pos (2 ^ 64 - 1) }
    ensures { IfOk result (λ w. (room : ℕ) → Tries room bank.old bank.new state w (on_none (λ e d. found value d))) }
{
    let number = constant(bank, value)?;
    let walked = put(alloc, state, number)?;
    Ok(walked)
}

fn convert_step(
    alloc: Global,
    bank: &mut Bank,
    to: ValueType,
    state: State,
) -> Result<Walked, BankFault>
    requires { IsState bank.old state }
    ensures { IfOk result (λ w. (room : ℕ) → Tries room bank.old bank.new state w
        (on_one (λ e z d. found (converted_to to z) d))) }
{
    let mut state = state;
    let operand = pop(bank, &mut state)?;
    let number = converted(bank, operand, to)?;
    let walked = put(alloc, state, number)?;
    Ok(walked)
}

fn not_step(alloc: Global, bank: &mut Bank, state: State) -> Result<Walked, BankFault>
    requires { IsState bank.old state }
    ensures { IfOk result (λ w. (room : ℕ) → Tries room bank.old bank.new state w
        (on_one (λ e z d. found (number_of (is_zero z)) d))) }
{
    let mut state = state;
    let operand = pop(bank, &mut state)?;
    let truth = truth(bank, operand)?;
    let zero = bank.not(truth)?;
    let number = flag(bank, zero)?;
    let walked = put(alloc, state, number)?;
    Ok(walked)
}

fn turn_step(
    alloc: Global,
    bank: &mut Bank,
    at: u32,
    operator: Turning,
    word: WordType,
    state: State,
) -> Result<Walked, BankFault>
    requires { IsState bank.old state }
    ensures { IfOk result (λ w. (room : ℕ) → Tries room bank.old bank.new state w
        (on_one (λ e z d. or_stop at (turned_in operator word z) d))) }
{
    let mut state = state;
    let operand = pop(bank, &mut state)?;
    let tested = turned(bank, operator, word, operand)?;
    let walked = answer(alloc, bank, &state, at, tested)?;
    Ok(walked)
}

fn operate_step(
    alloc: Global,
    bank: &mut Bank,
    at: u32,
    operator: Operator,
    state: State,
) -> Result<Walked, BankFault>
    requires { IsState bank.old state }
    ensures { IfOk result (λ w. (room : ℕ) → Tries room bank.old bank.new state w
        (on_two (λ e x y d. operated_by at operator x y d))) }
{
    let mut state = state;
    let right = pop(bank, &mut state)?;
    let left = pop(bank, &mut state)?;
    let operated = operate(bank, state.memory, at, operator, left, right)?;
    let mut next = state.copy(alloc)?;
    next.operands.push(operated.number)?;
    let walked = settle(alloc, bank, &state, next, operated.first, operated.second)?;
    Ok(walked)
}

fn local_step(
    alloc: Global,
    bank: &mut Bank,
    offset: u64,
    state: State,
) -> Result<Walked, BankFault>
    requires { IsState bank.old state }
    ensures { IfOk result (λ w. (room : ℕ) → offset < room → Tries room bank.old bank.new state w
        (on_none (λ e d. found (pos (start (e.base + offset))) d))) }
{
    let base = bank.base()?;
    let more = bank.word(offset, Width::W64)?;
    let place = bank.binary(WordOperator::Add, Width::W64, base, more)?;
    let bits = bank.word(32, Width::W64)?;
    let node = bank.binary(WordOperator::Shl, Width::W64, place, bits)?;
    let number = Number {
        node,
        word: ADDRESS,
    };
    let walked = put(alloc, state, number)?;
    Ok(walked)
}

fn fixed_step(alloc: Global, bank: &mut Bank, place: u64, state: State) -> Result<Walked, BankFault>
    requires state { IsState bank.old state }
    requires place { place < 2 ^ 32 }
    ensures { IfOk result (λ w. (room : ℕ) → Tries room bank.old bank.new state w
        (on_none (λ e d. found (pos (start place)) d))) }
{
    let node = bank.word(place * 0x1_0000_0000, Width::W64)?;
    let number = Number {
        node,
        word: ADDRESS,
    };
    let walked = put(alloc, state, number)?;
    Ok(walked)
}

fn offset_step(
    alloc: Global,
    bank: &mut Bank,
    bytes: u64,
    state: State,
) -> Result<Walked, BankFault>
    requires { IsState bank.old state }
    ensures { IfOk result (λ w. (room : ℕ) → Tries room bank.old bank.new state w
        (on_one (λ e z d. found (pos (behind bytes (unsigned_abs z))) d))) }
{
    let mut state = state;
    let operand = pop(bank, &mut state)?;
    let address = natural(bank, operand)?;
    let more = bank.word(bytes, Width::W64)?;
    let node = bank.binary(WordOperator::Add, Width::W64, address, more)?;
    let number = Number {
        node,
        word: ADDRESS,
    };
    let walked = put(alloc, state, number)?;
    Ok(walked)
}

fn drop_step(alloc: Global, bank: &mut Bank, state: State) -> Result<Walked, BankFault>
    requires { IsState bank.old state }
    ensures { IfOk result (λ w. (room : ℕ) → Tries room bank.old bank.new state w
        (λ e v h. Some (Ok (record { operands = under h.operands; done = h.done })))) }
{
    let mut state = state;
    let operand = pop(bank, &mut state)?;
    let _ = operand;
    let mut walked = settled(alloc);
    walked.going.push(state)?;
    Ok(walked)
}

fn again_step(alloc: Global, bank: &mut Bank, state: State) -> Result<Walked, BankFault>
    requires { IsState bank.old state }
    ensures { IfOk result (λ w. (room : ℕ) → Tries room bank.old bank.new state w (shifts again)) }
{
    let mut state = state;
    let operand = pop(bank, &mut state)?;
    state.operands.push(operand)?;
    let walked = put(alloc, state, operand)?;
    Ok(walked)
}

fn tuck_step(alloc: Global, bank: &mut Bank, state: State) -> Result<Walked, BankFault>
    requires { IsState bank.old state }
    ensures { IfOk result (λ w. (room : ℕ) → Tries room bank.old bank.new state w (shifts tucked)) }
{
    let mut state = state;
    let first = pop(bank, &mut state)?;
    let second = pop(bank, &mut state)?;
    state.operands.push(first)?;
    state.operands.push(second)?;
    let walked = put(alloc, state, first)?;
    Ok(walked)
}

/// What a leaf makes of a state whose run is inside an expression: the states that go on, and those that have ended. It
/// fails for want of memory alone.
pub fn step(alloc: Global, bank: &mut Bank, leaf: Leaf, state: State) -> Result<Walked, BankFault>
    requires state { IsState bank.old state }
    requires leaf { IsLeaf leaf }
    ensures { IfOk result (StepsBy bank.old bank.new state leaf) }
{
    match leaf {
        Leaf::Constant { value } => {
            let walked = constant_step(alloc, bank, value, state)?;
            Ok(walked)
        }
        Leaf::Local { offset } => {
            let walked = local_step(alloc, bank, offset, state)?;
            Ok(walked)
        }
        Leaf::Convert { to } => {
            let walked = convert_step(alloc, bank, to, state)?;
            Ok(walked)
        }
        Leaf::Fixed { place } => {
            let walked = fixed_step(alloc, bank, place, state)?;
            Ok(walked)
        }
        Leaf::Offset { bytes } => {
            let walked = offset_step(alloc, bank, bytes, state)?;
            Ok(walked)
        }
        Leaf::Load { access } => {
            let walked = load_step(alloc, bank, access, state)?;
            Ok(walked)
        }
        Leaf::Put { at, access } => {
            let walked = put_step(alloc, bank, at, access, state)?;
            Ok(walked)
        }
        Leaf::Drop => {
            let walked = drop_step(alloc, bank, state)?;
            Ok(walked)
        }
        Leaf::Again => {
            let walked = again_step(alloc, bank, state)?;
            Ok(walked)
        }
        Leaf::Tuck => {
            let walked = tuck_step(alloc, bank, state)?;
            Ok(walked)
        }
        Leaf::Not => {
            let walked = not_step(alloc, bank, state)?;
            Ok(walked)
        }
        Leaf::Turn { at, operator, word } => {
            let walked = turn_step(alloc, bank, at, operator, word, state)?;
            Ok(walked)
        }
        Leaf::Operate { at, operator } => {
            let walked = operate_step(alloc, bank, at, operator, state)?;
            Ok(walked)
        }
    }
}

/// What a leaf makes of states of which one stands at most. It fails for want of memory alone.
pub fn each(
    alloc: Global,
    bank: &mut Bank,
    leaf: Leaf,
    states: &[State],
) -> Result<Walked, BankFault>
    requires states { AreStates bank.old states.now }
    requires leaf { IsLeaf leaf }
    ensures { IfOk result (WalksBy bank.old bank.new states.now leaf) }
{
    let mut walked = settled(alloc);
    for state in states {
        let copy = state.copy(alloc)?;
        let Walked { going, ended } = step(alloc, bank, leaf, copy)?;
        walked.going.append(going)?;
        walked.ended.append(ended)?;
    }
    Ok(walked)
}

/// The states that go on do so by a leaf, and those that end there come to the others that have ended. It fails for
/// want of memory alone.
pub fn then_each(
    alloc: Global,
    bank: &mut Bank,
    leaf: Leaf,
    walked: Walked,
) -> Result<Walked, BankFault>
    requires states { AreStates bank.old walked.going }
    requires leaf { IsLeaf leaf }
    ensures { IfOk result (λ w. Follows bank.old bank.new walked w leaf) }
{
    let Walked { going, ended } = walked;
    let mut ended = ended;
    let Walked {
        going: next,
        ended: more,
    } = each(alloc, bank, leaf, going.as_slice())?;
    ended.append(more)?;
    Ok(Walked { going: next, ended })
}
