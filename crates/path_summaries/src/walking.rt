//! The walk: the summary of a function from one position of the log on.
ghost use Rattle.std.specs.Prelude.{◌≡◌, ◌+◌, true, suc, Some, IfOk, OnOk, slice_get};
ghost use Rattle.log_expr.specs.Tables.{ends_at};
ghost use Rattle.term_bank.specs.Banks.{IsBank};
ghost use Rattle.path_steps.specs.Memories.{IsScalar};
ghost use Rattle.path_forms.specs.Calling.{Stays};
ghost use Rattle.summary_compose.specs.Summaries.{word_of};
ghost use Rattle.log_expr.specs.Tours.{tour_of};
ghost use Rattle.path_summaries.specs.Tours.{room_in};
ghost use Rattle.path_summaries.specs.Tables.{IsReady, has_ends};
ghost use Rattle.path_summaries.specs.Walking.{EntersOne, Enters, Walks};

use crate::level::Level;
use core_tree::{Parameter, ValueType, WordType};
use path_codes::walk_body;
use path_forms::WalkFault;
use path_rooms::{room_of_items, sum};
use path_states::Number;
use plain_data::{Items, Width};
use std::alloc::Global;
use summary_compose::Summary;
use term_bank::Bank;

/// How many levels of code one in another are walked at most.
const MOST_HEIGHT: u32 = 0xFFFF_FFFF;

fn is_scalar(stored: ValueType) -> bool
    ensures { result ≡ true → IsScalar stored }
{
    match stored {
        ValueType::Truth | ValueType::Word(_) | ValueType::Pointer => true,
        ValueType::Void | ValueType::Block { .. } => false,
    }
}

/// The integer type of the words of a parameter.
fn word_type_of(stored: ValueType) -> WordType
    ensures { result ≡ word_of stored }
{
    match stored {
        ValueType::Word(word) => word,
        ValueType::Pointer => WordType {
            width: Width::W64,
            is_signed: false,
        },
        _ => WordType {
            width: Width::W32,
            is_signed: true,
        },
    }
}

/// The number that a parameter is. It fails for want of memory, and where its values aren't walked yet.
fn enter_one(bank: &mut Bank, stored: ValueType, number: u32) -> Result<Number, WalkFault>
    ensures { IfOk result (λ x. EntersOne bank.old bank.new stored number x) }
{
    if !is_scalar(stored) {
        return Err(WalkFault::Unwalked);
    }
    let word = word_type_of(stored);
    let node = bank.parameter_word(number, word.width)?;
    Ok(Number { node, word })
}

pub(crate) fn next_number(number: u32) -> Result<u32, WalkFault>
    ensures { IfOk result (λ n. n ≡ number + 1) }
{
    match number.checked_add(1) {
        Some(next) => Ok(next),
        None => Err(WalkFault::TooFar),
    }
}

/// One more walk. It fails where 64 bits don't count them.
fn one_more(walks: u64) -> Result<u64, WalkFault>
    ensures { IfOk result (λ n. n ≡ walks + 1) }
{
    match walks.checked_add(1) {
        Some(more) => Ok(more),
        None => Err(WalkFault::TooFar),
    }
}

/// Adds the types and the numbers of parameters, the first of which has this number. It fails as `enter_one` does.
fn enter(
    bank: &mut Bank,
    parameters: &[Parameter],
    number: u32,
    types: &mut Items<ValueType>,
    numbers: &mut Items<Number>,
) -> Result<(), WalkFault>
    ensures { OnOk result (Enters bank.old bank.new parameters.now number types.old types.new numbers.old numbers.new) }
{
    match parameters.split_first() {
        None => Ok(()),
        Some((parameter, rest)) => {
            let next = next_number(number)?;
            let one = enter_one(bank, parameter.stored, number)?;
            types.push(parameter.stored)?;
            numbers.push(one)?;
            enter(bank, rest, next, types, numbers)?;
            Ok(())
        }
    }
}

/// How many places the function takes. It fails where 64 bits don't count them.
pub(crate) fn room_of_body<'a>(level: &Level<'a>) -> Result<u64, WalkFault>
    ensures { IfOk result (λ n. n ≡ room_in (tour_of level.now.core.now level.now.log.now level.now.bounds.now
        level.now.ends.now) level.now.left level.now.function.now) }
{
    let items = room_of_items(level, level.function.items.as_slice())?;
    let room = sum(level.function.parameters.len() as u64, items)?;
    Ok(room)
}

/// The bank keeps its invariant, which proofs learn here.
fn keeps_bank(bank: &Bank)
    ensures { IsBank bank.now }
{
    let _ = bank.len();
}

/// The summary of a level's function, which has this number, from a position in the log on: it stands for the key, for
/// every entry memory, arguments, base and world. It counts the walk. It fails for want of memory, where the walk can't
/// do a step yet, and where 64 bits don't count the places or the walks.
pub fn walk<'a>(
    alloc: Global,
    level: &Level<'a>,
    function: u32,
    start: usize,
    bank: &mut Bank,
    walks: &mut u64,
) -> Result<Summary, WalkFault>
    requires ready { Stays (IsReady (tour_of level.now.core.now level.now.log.now level.now.bounds.now
        level.now.ends.now) level.now.left level.now.table.now) bank.old }
    requires function { slice_get level.now.core.now.functions function ≡ Some level.now.function.now }
    requires key { has_ends (ends_at level.now.ends.now function (suc level.now.left) start) ≡ true }
    ensures { IfOk result (λ s. Walks (tour_of level.now.core.now level.now.log.now level.now.bounds.now
        level.now.ends.now) bank.old bank.new function level.now.left start s walks.old walks.new) }
{
    *walks = one_more(*walks)?;
    let mut parameters = Items::new(alloc);
    let mut numbers = Items::new(alloc);
    enter(
        bank,
        level.function.parameters.as_slice(),
        0,
        &mut parameters,
        &mut numbers,
    )?;
    let memory = bank.entry()?;
    let room = room_of_body(level)?;
    let states = walk_body(
        alloc,
        level,
        room,
        MOST_HEIGHT,
        level.function,
        numbers.as_slice(),
        memory,
        start,
        bank,
    )?;
    keeps_bank(bank);
    Ok(Summary { parameters, states })
}
