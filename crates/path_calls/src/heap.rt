//! Objects that calls make and end (C99 7.20.3).
ghost use Rattle.std.specs.Prelude.{◌≡◌, ◌<◌, ◌^◌, false, IfOk, ℕ, List};
ghost use Rattle.plain_data.specs.declared.width.Width.TheVariants.{W64};
ghost use Rattle.c_means.specs.Values.{address as address_of};
ghost use Rattle.core_tree.specs.declared.expr.Callee.TheVariants as c;
ghost use Rattle.term_bank.specs.Terms.{IsTerm};
ghost use Rattle.term_bank.specs.Values.{Values as ValuesType};
ghost use Rattle.term_bank.specs.declared.shape.Shape.{Shape as ShapeType};
ghost use Rattle.term_bank.specs.declared.sort.Sort.TheVariants.{Truth, Word, Memory};
ghost use Rattle.path_states.specs.States.{IsNumber, IsState, number_in};
ghost use Rattle.path_states.specs.Ways.{Tries};
ghost use Rattle.path_calls.specs.Begun.{CallsBy};
ghost use Rattle.path_calls.specs.Places.{CallsWithin};
ghost use Rattle.path_calls.specs.Allocations.{Requests, Remakes, Allots, Frees, allocated, released, misses_value};

use crate::answering::argument;
use crate::beginning::begin;
use crate::callees::PLACES;
use crate::placing::{first_address, place_number};
use crate::requests::{Request, is_zero, request_array, request_bytes};
use c_store::ObjectKind;
use core_tree::ValueType;
use mem_terms::{can_free, ended, made, object_number, zero_range};
use path_forms::{CallSite, WalkFault};
use path_numbers::{ADDRESS, address, constant, converted};
use path_states::{Number, State, Walked};
use path_steps::{Exit, settle};
use plain_data::{Bounds, Finish, Undefined, Width};
use std::alloc::Global;
use term_bank::{Bank, BankFault, Node, Sort};

/// What a call finds: an address or null, and the memory behind the call.
#[derive(Clone, Copy)]
pub(crate) struct Allocation {
    pub memory: Node,
    pub pointer: Number,
}

/// The memory in which the object of a place lives, with so many bytes, all of them 0 if that is asked for.
fn new_object(
    bank: &mut Bank,
    place: u64,
    memory: Node,
    size: Node,
    zeroes: bool,
) -> Result<Node, BankFault>
    requires memory { IsTerm bank.old Memory memory }
    requires size { IsTerm bank.old (Word W64) size }
    ensures { IfOk result (λ n. Remakes bank.old bank.new place memory size zeroes n) }
{
    let number = place_number(bank, place)?;
    let node = made(bank, memory, ObjectKind::Heap, number, size)?;
    if !zeroes {
        return Ok(node);
    }
    let first = first_address(bank, place)?;
    let zeroed = zero_range(bank, node, first, size)?;
    Ok(zeroed)
}

/// An object of so many bytes at the place that is so many behind the base, or null where the world's word there is 0.
fn allot(
    bank: &mut Bank,
    place: u64,
    memory: Node,
    size: Node,
    zeroes: bool,
) -> Result<Allocation, BankFault>
    requires memory { IsTerm bank.old Memory memory }
    requires size { IsTerm bank.old (Word W64) size }
    ensures { IfOk result (λ x. Allots bank.old bank.new place memory size zeroes x) }
{
    let number = place_number(bank, place)?;
    let word = bank.world_word(Width::W64, number)?;
    let null = is_zero(bank, word)?;
    let object = new_object(bank, place, memory, size, zeroes)?;
    let zero = bank.word(0, Width::W64)?;
    let first = first_address(bank, place)?;
    let node = bank.choose(Sort::Word(Width::W64), null, zero, first)?;
    let behind = bank.choose(Sort::Memory, null, memory, object)?;
    Ok(Allocation {
        memory: behind,
        pointer: Number {
            node,
            word: ADDRESS,
        },
    })
}

/// A run at which a call has begun goes on with a new object or null, unless it asks for more than the bound. It fails
/// where the call's places aren't in the room.
fn allocate(
    alloc: Global,
    bank: &mut Bank,
    room: u64,
    site: CallSite,
    request: Request,
    zeroes: bool,
    state: State,
) -> Result<Walked, WalkFault>
    requires state { IsState bank.old state }
    requires size { IsTerm bank.old (Word W64) request.size }
    requires exceeds { IsTerm bank.old Truth request.exceeds }
    ensures { IfOk result (λ w. (a : List ShapeType) (most : ℕ) (n : ValuesType → ℕ) → most < 2 ^ 32
        → Requests a bank.old most request n
        → Tries room bank.old bank.new state w (λ e v h. allocated most site (n v) zeroes e h)) }
{
    if room < PLACES || room - PLACES < site.place {
        return Err(WalkFault::TooFar);
    }
    let object = allot(bank, site.place, state.memory, request.size, zeroes)?;
    let number = converted(bank, object.pointer, site.answer)?;
    let mut next = state.copy(alloc)?;
    next.memory = object.memory;
    next.operands.push(number)?;
    let exit = Exit {
        truth: request.exceeds,
        finish: Finish::Left { at: site.at },
    };
    let walked = settle(alloc, bank, &state, next, Some(exit), None)?;
    Ok(walked)
}

/// `malloc` (C99 7.20.3.3): where more than the bound is asked for the run leaves the bounds. It fails where the call's
/// places aren't in the room.
pub fn malloc(
    alloc: Global,
    bank: &mut Bank,
    bounds: &Bounds,
    room: u64,
    site: CallSite,
    state: &State,
) -> Result<Walked, WalkFault>
    requires { IsState bank.old state.now }
    ensures { IfOk result (λ w. CallsWithin bounds.now room bank.old bank.new state.now c.Malloc site w) }
{
    let mut now = state.copy(alloc)?;
    let arguments = begin(alloc, bank, site, &mut now)?;
    let count = argument(bank, &arguments, 0)?;
    let request = request_bytes(bank, bounds.heap, count)?;
    let walked = allocate(alloc, bank, room, site, request, false, now)?;
    Ok(walked)
}

/// `calloc` (C99 7.20.3.1), as `malloc` of the product of its arguments, whose bytes are 0.
pub fn calloc(
    alloc: Global,
    bank: &mut Bank,
    bounds: &Bounds,
    room: u64,
    site: CallSite,
    state: &State,
) -> Result<Walked, WalkFault>
    requires { IsState bank.old state.now }
    ensures { IfOk result (λ w. CallsWithin bounds.now room bank.old bank.new state.now c.Calloc site w) }
{
    let mut now = state.copy(alloc)?;
    let arguments = begin(alloc, bank, site, &mut now)?;
    let count = argument(bank, &arguments, 0)?;
    let size = argument(bank, &arguments, 1)?;
    let request = request_array(bank, bounds.heap, count, size)?;
    let walked = allocate(alloc, bank, room, site, request, true, now)?;
    Ok(walked)
}

/// The memory in which the object at an address has ended; at null nothing ends.
fn without_object(bank: &mut Bank, memory: Node, at: Node) -> Result<Node, BankFault>
    requires memory { IsTerm bank.old Memory memory }
    requires at { IsTerm bank.old (Word W64) at }
    ensures { IfOk result (λ n. Frees bank.old bank.new memory at n) }
{
    let null = is_zero(bank, at)?;
    let object = object_number(bank, at)?;
    let behind = ended(bank, memory, object)?;
    let node = bank.choose(Sort::Memory, null, memory, behind)?;
    Ok(node)
}

/// A run at which a call has begun goes on without the object at an address, unless that may not be freed.
fn release(
    alloc: Global,
    bank: &mut Bank,
    site: CallSite,
    pointer: Number,
    state: State,
) -> Result<Walked, BankFault>
    requires state { IsState bank.old state }
    requires pointer { IsNumber bank.old pointer }
    ensures { IfOk result (λ w. (room : ℕ)
        → Tries room bank.old bank.new state w (λ e v h. released site (address_of (number_in v pointer)) h)) }
{
    let at = address(bank, pointer)?;
    let allowed = can_free(bank, state.memory, at)?;
    let refused = bank.not(allowed)?;
    let memory = without_object(bank, state.memory, at)?;
    let number = constant(bank, 0)?;
    let mut next = state.copy(alloc)?;
    next.memory = memory;
    next.operands.push(number)?;
    let exit = Exit {
        truth: refused,
        finish: Finish::Stopped {
            kind: Undefined::Free,
            at: site.at,
        },
    };
    let walked = settle(alloc, bank, &state, next, Some(exit), None)?;
    Ok(walked)
}

/// Whether a value is used that a call without one would have to give.
fn is_value_missing(site: CallSite) -> bool
    ensures { result ≡ misses_value site.is_used site.answer }
{
    match site.answer {
        ValueType::Void => false,
        _ => site.is_used,
    }
}

/// `free` (C99 7.20.3.2). It fails where its value is used, which it has none of.
pub fn free(
    alloc: Global,
    bank: &mut Bank,
    site: CallSite,
    state: &State,
) -> Result<Walked, WalkFault>
    requires { IsState bank.old state.now }
    ensures { IfOk result (λ w. (room : ℕ) → CallsBy room bank.old bank.new state.now c.Free site w) }
{
    if is_value_missing(site) {
        return Err(WalkFault::Unwalked);
    }
    let mut now = state.copy(alloc)?;
    let arguments = begin(alloc, bank, site, &mut now)?;
    let pointer = argument(bank, &arguments, 0)?;
    let walked = release(alloc, bank, site, pointer, now)?;
    Ok(walked)
}
