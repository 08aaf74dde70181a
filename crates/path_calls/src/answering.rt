//! Arguments and answers of calls, and the ends of runs.
ghost use Rattle.std.specs.Prelude.{◌≡◌, ◌∷◌, [], IfOk};
ghost use Rattle.core_tree.specs.Callees.{value_or_zero};
ghost use Rattle.term_bank.specs.Banks.{IsBank};
ghost use Rattle.path_states.specs.States.{IsNumber, AreNumbers, numbers_in};
ghost use Rattle.path_numbers.specs.Answers.{Numbered};
ghost use Rattle.path_calls.specs.Begun.{AnswersBy};

use core_tree::ValueType;
use path_numbers::{constant, converted};
use path_states::{Number, State, StateKind, Walked, settled};
use plain_data::{Finish, Items};
use std::alloc::{AllocError, Global};
use term_bank::{Bank, BankFault};

/// The bank keeps its invariant, which proofs learn here.
pub(crate) fn keeps_bank(bank: &Bank)
    ensures { IsBank bank.now }
{
    let _ = bank.len();
}

/// The argument of this index; one that isn't there is 0. It fails for want of memory alone.
pub fn argument(bank: &mut Bank, arguments: &Items<Number>, index: u32) -> Result<Number, BankFault>
    requires { AreNumbers bank.old arguments.now }
    ensures { IfOk result (λ x. Numbered bank.old bank.new x (λ v. value_or_zero (numbers_in v arguments.now) index)) }
{
    match arguments.get(index as usize) {
        Some(number) => {
            keeps_bank(bank);
            Ok(*number)
        }
        None => {
            let zero = constant(bank, 0)?;
            Ok(zero)
        }
    }
}

/// The state goes on with a number as the call's answer, converted to a type. It fails for want of memory alone.
pub fn answer(
    alloc: Global,
    bank: &mut Bank,
    to: ValueType,
    number: Number,
    state: State,
) -> Result<Walked, BankFault>
    requires { IsNumber bank.old number }
    ensures { IfOk result (λ w. AnswersBy bank.old bank.new state to number w) }
{
    let last = converted(bank, number, to)?;
    let mut walked = settled(alloc);
    let mut state = state;
    state.operands.push(last)?;
    walked.going.push(state)?;
    Ok(walked)
}

/// The run ends as the kind says.
pub(crate) fn end(alloc: Global, kind: StateKind, state: State) -> Result<Walked, AllocError>
    ensures { IfOk result (λ w. w ≡ record {
      going = [];
      ended = record state { kind = kind; operands = [] } ∷ [];
    }) }
{
    let mut walked = settled(alloc);
    let mut state = state;
    state.kind = kind;
    state.operands = Items::new(alloc);
    walked.ended.push(state)?;
    Ok(walked)
}
