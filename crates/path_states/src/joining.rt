ghost use Rattle.std.specs.Prelude.{◌≡◌, ◌<◌, ◌++◌, ◌∷◌, [], length, IfOk, OnOk, Some, ℕ, true, slice_get};
ghost use Rattle.term_bank.specs.Terms.{IsTerm};
ghost use Rattle.term_bank.specs.declared.sort.Sort.TheVariants.{Truth};
ghost use Rattle.path_states.specs.States.{AreNumbers, IsNumber, IsMaybeNumber, IsState, AreStates};
ghost use Rattle.path_states.specs.Ways.{Goes, stay};
ghost use Rattle.path_states.specs.Merges.{AlikeNumbers, AlikeMaybe, Alike, ChosenOne, ChosenMaybe, ChosenAll, Merges};
ghost use Rattle.path_states.specs.declared.state.State.{State as StateType};

use crate::kinds::{copy_state_kind, is_same_kind};
use crate::state::{Number, State};
use core_tree::WordType;
use plain_data::Items;
use std::alloc::Global;
use term_bank::{Bank, BankFault, Connective, Node, Sort};

/// The first number where the condition is true, else the second.
fn chosen(
    bank: &mut Bank,
    condition: Node,
    first: Number,
    second: Number,
) -> Result<Number, BankFault>
    requires condition { IsTerm bank.old Truth condition }
    requires first { IsNumber bank.old first }
    requires second { IsNumber bank.old second }
    requires alike { first.word ≡ second.word }
    ensures { IfOk result (λ x. ChosenOne bank.old bank.new condition first second x) }
{
    let node = bank.choose(first.node.sort, condition, first.node, second.node)?;
    Ok(Number {
        node,
        word: first.word,
    })
}

fn chosen_maybe(
    bank: &mut Bank,
    condition: Node,
    first: Option<Number>,
    second: Option<Number>,
) -> Result<Option<Number>, BankFault>
    requires condition { IsTerm bank.old Truth condition }
    requires first { IsMaybeNumber bank.old first }
    requires second { IsMaybeNumber bank.old second }
    requires alike { AlikeMaybe first second }
    ensures { IfOk result (λ x. ChosenMaybe bank.old bank.new condition first second x) }
{
    match (first, second) {
        (Some(x), Some(y)) => {
            let z = chosen(bank, condition, x, y)?;
            Ok(Some(z))
        }
        _ => Ok(None),
    }
}

fn chosen_all(
    alloc: Global,
    bank: &mut Bank,
    condition: Node,
    first: &[Number],
    second: &[Number],
) -> Result<Items<Number>, BankFault>
    requires condition { IsTerm bank.old Truth condition }
    requires first { AreNumbers bank.old first.now }
    requires second { AreNumbers bank.old second.now }
    requires alike { AlikeNumbers first.now second.now }
    ensures { IfOk result (λ zs. ChosenAll bank.old bank.new condition first.now second.now zs) }
{
    let mut all = Items::new(alloc);
    for i in 0..first.len() {
        let x = first[i];
        let y = second[i];
        let z = chosen(bank, condition, x, y)?;
        all.push(z)?;
    }
    Ok(all)
}

/// The state that is the first where its guard is true, and else the second.
fn merge(alloc: Global, bank: &mut Bank, first: &State, second: &State) -> Result<State, BankFault>
    requires first { IsState bank.old first.now }
    requires second { IsState bank.old second.now }
    requires alike { Alike first.now second.now }
    ensures { IfOk result (λ m. Merges bank.old bank.new first.now second.now m) }
{
    let condition = first.guard;
    let kind = copy_state_kind(&first.kind)?;
    let guard = bank.connect(Connective::Or, condition, second.guard)?;
    let value = chosen_maybe(bank, condition, first.value, second.value)?;
    let memory = bank.choose(Sort::Memory, condition, first.memory, second.memory)?;
    let operands = chosen_all(
        alloc,
        bank,
        condition,
        first.operands.as_slice(),
        second.operands.as_slice(),
    )?;
    let events = bank.choose(Sort::Events, condition, first.events, second.events)?;
    Ok(State {
        guard,
        kind,
        value,
        position: first.position,
        memory,
        events,
        operands,
    })
}

fn is_same_word(first: WordType, second: WordType) -> bool
    ensures { result ≡ true → first ≡ second }
{
    first == second
}

/// Whether two lists have numbers of the same types.
fn are_alike_numbers(first: &[Number], second: &[Number]) -> bool
    ensures { result ≡ true → AlikeNumbers first.now second.now }
{
    if first.len() != second.len() {
        return false;
    }
    for i in 0..first.len() {
        if !is_same_word(first[i].word, second[i].word) {
            return false;
        }
    }
    true
}

fn are_alike_maybe(first: Option<Number>, second: Option<Number>) -> bool
    ensures { result ≡ true → AlikeMaybe first second }
{
    match (first, second) {
        (Some(x), Some(y)) => x.word == y.word,
        (None, None) => true,
        _ => false,
    }
}

/// Whether two states can be one.
fn are_alike(first: &State, second: &State) -> bool
    ensures { result ≡ true → Alike first.now second.now }
{
    first.position == second.position
        && are_alike_maybe(first.value, second.value)
        && are_alike_numbers(first.operands.as_slice(), second.operands.as_slice())
        && is_same_kind(&first.kind, &second.kind)
}

/// The first state that can be one with a state.
fn partner(states: &[State], state: &State) -> Option<usize>
    ensures within { (i : ℕ) → result ≡ Some i → i < length states.now }
    ensures alike { (i : ℕ) (t : StateType) → result ≡ Some i → slice_get states.now i ≡ Some t → Alike t state.now }
{
    for i in 0..states.len() {
        if are_alike(&states[i], state) {
            return Some(i);
        }
    }
    None
}

/// One more state, as one with one of the others where that is possible.
fn join_one(
    alloc: Global,
    bank: &mut Bank,
    states: &mut Items<State>,
    state: &State,
) -> Result<(), BankFault>
    requires states { AreStates bank.old states.old }
    requires state { IsState bank.old state.now }
    ensures { OnOk result ((room : ℕ) → Goes room bank.old bank.new (states.old ++ state.now ∷ []) states.new stay) }
{
    match partner(states.as_slice(), state) {
        Some(at) => {
            let merged = merge(alloc, bank, &states.as_slice()[at], state)?;
            states.set(at, merged);
            Ok(())
        }
        None => {
            states.push(state.copy(alloc)?)?;
            Ok(())
        }
    }
}

/// The same states, with those of one kind and position as one, whose parts are choices. It fails for want of memory
/// alone.
pub fn join(alloc: Global, bank: &mut Bank, states: &[State]) -> Result<Items<State>, BankFault>
    requires { AreStates bank.old states.now }
    ensures { IfOk result (λ ts. (room : ℕ) → Goes room bank.old bank.new states.now ts stay) }
{
    let mut all = Items::new(alloc);
    for state in states {
        join_one(alloc, bank, &mut all, state)?;
    }
    Ok(all)
}
