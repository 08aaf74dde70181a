//! The arguments of a call as the values of parameters.
ghost use Rattle.std.specs.Prelude.{◌≡◌, true, OnOk, IfOk};
ghost use Rattle.path_states.specs.States.{IsState, IsNumber, AreNumbers};
ghost use Rattle.summary_compose.specs.Summaries.{word_of};
ghost use Rattle.summary_compose.specs.Composing.{Takes, PassesOne, PassesFirst, Passes};

use core_tree::{ValueType, WordType};
use path_forms::WalkFault;
use path_numbers::converted;
use path_states::{Number, State};
use path_steps::pop;
use plain_data::{Items, Width};
use std::alloc::Global;
use term_bank::{Bank, BankFault, Node};

/// Takes so many operands off a state, and answers them in order. It fails for want of memory alone.
pub(crate) fn take_operands(
    alloc: Global,
    bank: &mut Bank,
    state: &mut State,
    count: usize,
) -> Result<Items<Number>, BankFault>
    requires { IsState bank.old state.old }
    ensures { IfOk result (λ xs. Takes bank.old bank.new state.old state.new count xs) }
{
    if count == 0 {
        return Ok(Items::new(alloc));
    }
    let last = pop(bank, state)?;
    let mut numbers = take_operands(alloc, bank, state, count - 1)?;
    numbers.push(last)?;
    Ok(numbers)
}

/// The integer type of the words of a parameter.
fn word_type_of(parameter: ValueType) -> WordType
    ensures { result ≡ word_of parameter }
{
    match parameter {
        ValueType::Word(word) => word,
        ValueType::Pointer => WordType {
            width: Width::W64,
            is_signed: false,
        },
        _ => WordType {
            width: Width::W32,
            is_signed: true,
        },
    }
}

fn are_same(first: WordType, second: WordType) -> bool
    ensures { result ≡ true → first ≡ second }
{
    first == second
}

/// The node of a number as the value of a parameter. It fails for want of memory, and for a parameter whose values
/// aren't walked yet.
fn pass_one(bank: &mut Bank, number: Number, parameter: ValueType) -> Result<Node, WalkFault>
    requires { IsNumber bank.old number }
    ensures { IfOk result (λ n. PassesOne bank.old bank.new parameter number n) }
{
    let number = converted(bank, number, parameter)?;
    if !are_same(number.word, word_type_of(parameter)) {
        return Err(WalkFault::Unwalked);
    }
    Ok(number.node)
}

/// Puts the node of the first number behind others; the other numbers stay in the bank.
fn pass_first(
    bank: &mut Bank,
    number: Number,
    others: &[Number],
    parameter: ValueType,
    nodes: &mut Items<Node>,
) -> Result<(), WalkFault>
    requires number { IsNumber bank.old number }
    requires others { AreNumbers bank.old others.now }
    ensures { OnOk result (PassesFirst bank.old bank.new parameter number others.now nodes.old nodes.new) }
{
    let node = pass_one(bank, number, parameter)?;
    nodes.push(node)?;
    Ok(())
}

/// Puts the nodes of the numbers as the values of the parameters behind others. It fails as `pass_one` does, and where
/// there aren't as many numbers as parameters.
pub(crate) fn pass(
    bank: &mut Bank,
    numbers: &[Number],
    parameters: &[ValueType],
    nodes: &mut Items<Node>,
) -> Result<(), WalkFault>
    requires { AreNumbers bank.old numbers.now }
    ensures { OnOk result (Passes bank.old bank.new parameters.now numbers.now nodes.old nodes.new) }
{
    match numbers.split_first() {
        None => {
            if parameters.is_empty() {
                Ok(())
            } else {
                Err(WalkFault::Unwalked)
            }
        }
        Some((number, others)) => match parameters.split_first() {
            None => Err(WalkFault::Unwalked),
            Some((parameter, rest)) => {
                pass_first(bank, *number, others, *parameter, nodes)?;
                pass(bank, others, rest, nodes)?;
                Ok(())
            }
        },
    }
}
