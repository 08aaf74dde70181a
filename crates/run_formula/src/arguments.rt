//! The arguments of `main` (C99 5.1.2.2.1): their count, the array of pointers to them, and their strings. All stand in
//! objects that the program doesn't name, at places in front of those of `main`.
ghost use Rattle.std.specs.Prelude.{◌≡◌, ◌<◌, ◌≤◌, ◌+◌, ◌^◌, ◌∷◌, [], suc, true, false, IfOk};
ghost use Rattle.plain_data.specs.declared.width.Width.TheVariants.{W64};
ghost use Rattle.c_means.specs.Parts.{Limits};
ghost use Rattle.c_means.specs.Units.{limits_of};
ghost use Rattle.c_store.specs.Store.{start};
ghost use Rattle.core_tree.specs.declared.types.ValueType.TheVariants.{Pointer as pointer, Word as word_value};
ghost use Rattle.core_tree.specs.Numbers.{int};
ghost use Rattle.term_bank.specs.declared.sort.Sort.TheVariants.{Memory, Word};
ghost use Rattle.term_bank.specs.Terms.{IsTerm};
ghost use Rattle.run_formula.specs.Starts.{Becomes};
ghost use Rattle.run_formula.specs.Arguments.{BecomesBy, Binds, Chooses, Counts, Furnishes, TakesGiven, places_given};
ghost use Rattle.run_formula.specs.Arguments.{array_in, chosen_in, points_at, string_in, strings_in};

use crate::starts::make_at;
use crate::texts::{start_of, zero_bytes, zero_object};
use c_store::ObjectKind;
use core_tree::{Core, ValueType, WordType};
use mem_terms::write;
use path_forms::WalkFault;
use plain_data::{Bounds, Items, Width};
use std::alloc::Global;
use term_bank::{Bank, BankFault, Binding, Node, Sort, WordOperator, WordTest};

/// How many arguments there are, by the world's word at a place: one at least, and as many as the bounds allow at most.
fn count_of(bank: &mut Bank, place: u64, bounds: &Bounds) -> Result<Node, BankFault>
    ensures { IfOk result (λ n. Counts bank.old bank.new n place bounds.now.arguments) }
{
    let at = bank.word(place, Width::W64)?;
    let word = bank.world_word(Width::W64, at)?;
    let most = bank.word(bounds.arguments as u64, Width::W64)?;
    let more = bank.binary(WordOperator::Urem, Width::W64, word, most)?;
    let one = bank.word(1, Width::W64)?;
    let count = bank.binary(WordOperator::Add, Width::W64, more, one)?;
    Ok(count)
}

/// The memory with the string of a place.
fn make_string(
    bank: &mut Bank,
    memory: Node,
    place: u64,
    bounds: &Bounds,
) -> Result<Node, BankFault>
    requires memory { IsTerm bank.old Memory memory }
    requires place { place < 2 ^ 32 }
    ensures { IfOk result (λ n. Becomes bank.old bank.new memory n (string_in bounds.now.outside place)) }
{
    let made = make_at(bank, memory, ObjectKind::Outside, place, bounds.outside + 1)?;
    let node = zero_bytes(bank, made, start_of(place) + bounds.outside as u64, 1)?;
    Ok(node)
}

/// The memory with all strings, at places from one on.
fn make_strings(
    bank: &mut Bank,
    memory: Node,
    place: u64,
    bounds: &Bounds,
) -> Result<Node, BankFault>
    requires memory { IsTerm bank.old Memory memory }
    requires place { place + 8 < 2 ^ 32 }
    ensures { IfOk result (λ n. Becomes bank.old bank.new memory n
        (strings_in bounds.now.outside place bounds.now.arguments)) }
{
    let mut made = memory;
    let mut index: u32 = 0;
    'strings: while index < bounds.arguments {
        made = make_string(bank, made, place + index as u64, bounds)?;
        index += 1;
    }
    Ok(made)
}

/// The memory with the strings and the array, whose pointers are null.
fn make_array(bank: &mut Bank, memory: Node, place: u64, bounds: &Bounds) -> Result<Node, BankFault>
    requires memory { IsTerm bank.old Memory memory }
    requires place { place + 10 < 2 ^ 32 }
    ensures { IfOk result (λ n. Becomes bank.old bank.new memory n
        (array_in bounds.now.arguments bounds.now.outside place)) }
{
    let size = 8 * (bounds.arguments + 1);
    let strings = make_strings(bank, memory, place + 2, bounds)?;
    let array = make_at(bank, strings, ObjectKind::Outside, place + 1, size)?;
    let node = zero_object(bank, array, place + 1, size)?;
    Ok(node)
}

/// The first address of the object of a place, where the index is below the count, else null.
fn pointer_of(bank: &mut Bank, count: Node, place: u64, index: u32) -> Result<Node, BankFault>
    requires count { IsTerm bank.old (Word W64) count }
    requires place { place < 2 ^ 32 }
    ensures { IfOk result (λ n. Chooses bank.old bank.new count n index (start place)) }
{
    let number = bank.word(index as u64, Width::W64)?;
    let is_given = bank.test(WordTest::Below, Width::W64, number, count)?;
    let string = bank.word(start_of(place), Width::W64)?;
    let null = bank.word(0, Width::W64)?;
    let pointer = bank.choose(Sort::Word(Width::W64), is_given, string, null)?;
    Ok(pointer)
}

/// The memory in which the array at a place has its pointer of an index.
fn point(
    bank: &mut Bank,
    memory: Node,
    count: Node,
    array: u64,
    index: u32,
) -> Result<Node, BankFault>
    requires memory { IsTerm bank.old Memory memory }
    requires count { IsTerm bank.old (Word W64) count }
    requires array { array + 9 < 2 ^ 32 }
    requires index { index < 8 }
    ensures { IfOk result (λ n. BecomesBy bank.old bank.new count memory n (points_at (start array) (suc array) index)) }
{
    let pointer = pointer_of(bank, count, array + 1 + index as u64, index)?;
    let to = bank.word(start_of(array) + 8 * index as u64, Width::W64)?;
    let node = write(bank, memory, to, Width::W64, pointer)?;
    Ok(node)
}

/// The memory in which the array at a place has all its pointers, by their count.
fn point_all(
    bank: &mut Bank,
    memory: Node,
    count: Node,
    array: u64,
    bounds: &Bounds,
) -> Result<Node, BankFault>
    requires memory { IsTerm bank.old Memory memory }
    requires count { IsTerm bank.old (Word W64) count }
    requires array { array + 9 < 2 ^ 32 }
    ensures { IfOk result (λ n. BecomesBy bank.old bank.new count memory n
        (chosen_in (start array) (suc array) bounds.now.arguments)) }
{
    let mut pointed = memory;
    let mut index: u32 = 0;
    'pointers: while index < bounds.arguments {
        pointed = point(bank, pointed, count, array, index)?;
        index += 1;
    }
    Ok(pointed)
}

/// A memory in which the arguments stand, and the node of their count.
#[derive(Clone, Copy)]
pub(crate) struct Furnished {
    pub(crate) memory: Node,
    pub(crate) count: Node,
}

/// The memory with the arguments, by the world's word at a place, and with the objects at the places behind it.
fn furnish(
    bank: &mut Bank,
    memory: Node,
    place: u64,
    bounds: &Bounds,
) -> Result<Furnished, BankFault>
    requires memory { IsTerm bank.old Memory memory }
    requires place { place + 10 < 2 ^ 32 }
    ensures { IfOk result (Furnishes bank.old bank.new memory bounds.now.arguments bounds.now.outside place) }
{
    let array = make_array(bank, memory, place, bounds)?;
    let count = count_of(bank, place, bounds)?;
    let pointed = point_all(bank, array, count, place + 1, bounds)?;
    Ok(Furnished {
        memory: pointed,
        count,
    })
}

fn with_arguments(
    alloc: Global,
    bank: &mut Bank,
    memory: Node,
    place: u64,
    bounds: &Bounds,
) -> Result<Binding, BankFault>
    requires memory { IsTerm bank.old Memory memory }
    requires place { place + 10 < 2 ^ 32 }
    ensures { IfOk result (Binds true (limits_of bounds.now) place bank.old bank.new memory) }
{
    let furnished = furnish(bank, memory, place, bounds)?;
    let array = bank.word(start_of(place + 1), Width::W64)?;
    let base = bank.word(place + (2 + bounds.arguments as u64), Width::W64)?;
    let mut parameters = Items::new(alloc);
    parameters.push(furnished.count)?;
    parameters.push(array)?;
    Ok(Binding {
        entry: furnished.memory,
        parameters,
        base,
    })
}

fn without_arguments(
    alloc: Global,
    bank: &mut Bank,
    memory: Node,
    place: u64,
) -> Result<Binding, BankFault>
    requires memory { IsTerm bank.old Memory memory }
    requires place { place + 10 < 2 ^ 32 }
    ensures { IfOk result (λ put. (l : Limits) → Binds false l place bank.old bank.new memory put) }
{
    let base = bank.word(place, Width::W64)?;
    Ok(Binding {
        entry: memory,
        parameters: Items::new(alloc),
        base,
    })
}

/// What is put in for the entry of `main` behind a memory: that memory, with the arguments where `main` is given any, and
/// the first place behind theirs, which begin at a place. It fails for want of memory, and where these places haven't
/// all numbers below 2^32.
pub(crate) fn give(
    alloc: Global,
    bank: &mut Bank,
    core: &Core,
    bounds: &Bounds,
    memory: Node,
    place: u64,
) -> Result<Binding, WalkFault>
    requires { IsTerm bank.old Memory memory }
    ensures { IfOk result (Binds core.now.has_arguments (limits_of bounds.now) place bank.old bank.new memory) }
{
    if place >= 0xFFFF_FF00 {
        return Err(WalkFault::TooFar);
    }
    if core.has_arguments {
        let binding = with_arguments(alloc, bank, memory, place, bounds)?;
        return Ok(binding);
    }
    let binding = without_arguments(alloc, bank, memory, place)?;
    Ok(binding)
}

/// How many places stand before those of `main`.
pub(crate) fn entry_room(core: &Core, bounds: &Bounds) -> u64
    ensures places { result ≡ places_given core.now.has_arguments (limits_of bounds.now) }
    ensures few { result ≤ 10 }
{
    if core.has_arguments {
        2 + bounds.arguments as u64
    } else {
        0
    }
}

fn is_count(parameter: ValueType) -> bool
    ensures { result ≡ true → parameter ≡ word_value int }
{
    match parameter {
        ValueType::Word(
            WordType {
                width: Width::W32,
                is_signed: true,
            },
        ) => true,
        _ => false,
    }
}

fn is_array(parameter: ValueType) -> bool
    ensures { result ≡ true → parameter ≡ pointer }
{
    match parameter {
        ValueType::Pointer => true,
        _ => false,
    }
}

/// Whether these are an `int` and a pointer.
fn are_two(parameters: &[ValueType]) -> bool
    ensures { result ≡ true → parameters.now ≡ word_value int ∷ pointer ∷ [] }
{
    match parameters {
        [count, array] => is_count(*count) && is_array(*array),
        _ => false,
    }
}

/// Whether `main` has the parameters for what it is given.
pub(crate) fn takes_given(core: &Core, parameters: &[ValueType]) -> bool
    ensures { result ≡ true → TakesGiven core.now.has_arguments parameters.now }
{
    if core.has_arguments {
        are_two(parameters)
    } else {
        parameters.is_empty()
    }
}
