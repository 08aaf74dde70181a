//! What is to be made of the external declarations of a source, and how its functions are numbered.
ghost use Rattle.std.specs.Prelude.{◌≡◌, ◌++◌, IfOk, OnOk, map};
ghost use Rattle.c_reach.specs.Reaching.{has_at};
ghost use Rattle.core_units.specs.Numbers as numbers;
ghost use Rattle.core_units.specs.Overviews as spec;

use c_language::Entry;
use c_names::is_needed;
use c_program_notes::{OuterNotes, Overview, watched_lasting};
use c_reach::{FunctionNotes, is_among};
use core_callees::FunctionNumber;
use plain_data::{Items, Shared};
use std::alloc::{AllocError, Global};

/// What is to be made of an external declaration: whether what it declares is needed; and where it defines a function,
/// whether this is reached, and the variables that live throughout the run that the function names, as a log call in it
/// shows them.
#[derive(Drop)]
pub struct Plan {
    pub is_needed: bool,
    pub is_reached: bool,
    pub watched: Option<Items<Shared<Entry>>>,
}

/// Whether a function of this offset is reached.
fn is_reached(overview: &Overview, at: u32) -> bool
    ensures { result ≡ has_at at overview.now.reached }
{
    is_among(at, overview.reached.as_slice())
}

/// Whether the function that is defined is reached.
fn reaches(overview: &Overview, function: &Option<Shared<FunctionNotes>>) -> bool
    ensures { result ≡ spec.reached_noted overview.now function.now }
{
    match function {
        None => false,
        Some(function) => is_reached(overview, function.get().at),
    }
}

/// The variables that live throughout the run that a function names, where one is defined.
pub(crate) fn watched_if(
    alloc: Global,
    overview: &Overview,
    function: &Option<Shared<FunctionNotes>>,
) -> Result<Option<Items<Shared<Entry>>>, AllocError>
    ensures { IfOk result (λ x. x ≡ spec.watched_noted overview.now function.now) }
{
    match function {
        None => Ok(None),
        Some(function) => {
            let watched = watched_lasting(alloc, &overview.program.scope, function.get())?;
            Ok(Some(watched))
        }
    }
}

fn plan_of(alloc: Global, overview: &Overview, outer: &OuterNotes) -> Result<Plan, AllocError>
    ensures { IfOk result (λ x. x ≡ spec.plan_noted overview.now outer.now) }
{
    Ok(Plan {
        is_needed: is_needed(overview.words.as_slice(), outer.names.get()),
        is_reached: reaches(overview, &outer.function),
        watched: watched_if(alloc, overview, &outer.function)?,
    })
}

/// The plans of these external declarations, in order.
fn plans_in(
    alloc: Global,
    overview: &Overview,
    outers: &[OuterNotes],
) -> Result<Items<Plan>, AllocError>
    ensures { IfOk result (λ plans. plans ≡ map (spec.plan_noted overview.now) outers.now) }
{
    let mut plans = Items::new(alloc);
    for outer in outers {
        plans.push(plan_of(alloc, overview, outer)?)?;
    }
    Ok(plans)
}

/// The plans of all external declarations, in order. It fails for want of memory alone.
pub(crate) fn plans_of(alloc: Global, overview: &Overview) -> Result<Items<Plan>, AllocError>
    ensures { IfOk result (λ plans. plans ≡ map (spec.plan_noted overview.now) overview.now.program.outers) }
{
    plans_in(alloc, overview, overview.program.outers.as_slice())
}

/// The functions of the source with their numbers, the next number of one that is reached, and that of another.
#[derive(Drop)]
pub struct Numbering {
    pub functions: Items<Shared<FunctionNumber>>,
    pub next: u32,
    pub other: u32,
}

/// The number behind one that is taken, or isn't.
fn next_number(is_taken: bool, next: u32) -> Result<u32, AllocError>
    ensures { IfOk result (λ n. n ≡ numbers.next_number is_taken next) }
{
    if !is_taken {
        return Ok(next);
    }
    match next.checked_add(1) {
        Some(next) => Ok(next),
        None => Err(AllocError),
    }
}

fn counted(
    overview: &Overview,
    function: &Option<Shared<FunctionNotes>>,
    count: u32,
) -> Result<u32, AllocError>
    ensures { IfOk result (λ n. n ≡ spec.number_behind overview.now.reached count function.now) }
{
    match function {
        None => Ok(count),
        Some(function) => next_number(is_reached(overview, function.get().at), count),
    }
}

/// How many of these functions are reached.
fn count_in(overview: &Overview, outers: &[OuterNotes]) -> Result<u32, AllocError>
    ensures { IfOk result (λ n. n ≡ spec.count_noted overview.now.reached 0 outers.now) }
{
    let mut count = 0;
    for outer in outers {
        count = counted(overview, &outer.function, count)?;
    }
    Ok(count)
}

/// How many functions of the source are reached. It fails for want of memory alone.
pub(crate) fn count_reached(overview: &Overview) -> Result<u32, AllocError>
    ensures { IfOk result (λ n. n ≡ spec.count_noted overview.now.reached 0 overview.now.program.outers) }
{
    count_in(overview, overview.program.outers.as_slice())
}

/// A function with its number.
fn number_of(
    alloc: Global,
    function: &FunctionNotes,
    number: u32,
) -> Result<Shared<FunctionNumber>, AllocError>
    ensures { IfOk result (λ f. f ≡ record { name = function.now.name; number = number }) }
{
    let name = function.name.clone()?;
    Shared::new(alloc, FunctionNumber { name, number })
}

fn and_function(
    alloc: Global,
    overview: &Overview,
    function: &Option<Shared<FunctionNotes>>,
    numbering: &mut Numbering,
) -> Result<(), AllocError>
    ensures functions { OnOk result (numbering.new.functions ≡ numbering.old.functions ++ spec.numbers_if overview.now.reached numbering.old.next numbering.old.other function.now) }
    ensures next { OnOk result (numbering.new.next ≡ spec.number_behind overview.now.reached numbering.old.next function.now) }
    ensures other { OnOk result (numbering.new.other ≡ spec.other_behind overview.now.reached numbering.old.other function.now) }
{
    match function {
        None => Ok(()),
        Some(function) => {
            let is_reached = is_reached(overview, function.get().at);
            let number = if is_reached {
                numbering.next
            } else {
                numbering.other
            };
            let number = number_of(alloc, function.get(), number)?;
            let next = next_number(is_reached, numbering.next)?;
            let other = next_number(!is_reached, numbering.other)?;
            numbering.functions.push(number)?;
            numbering.next = next;
            numbering.other = other;
            Ok(())
        }
    }
}

fn numbered_in(
    alloc: Global,
    overview: &Overview,
    other: u32,
    outers: &[OuterNotes],
) -> Result<Items<Shared<FunctionNumber>>, AllocError>
    ensures { IfOk result (λ fs. fs ≡ spec.numbers_noted overview.now.reached 0 other outers.now) }
{
    let mut numbering = Numbering {
        functions: Items::new(alloc),
        next: 0,
        other,
    };
    for outer in outers {
        and_function(alloc, overview, &outer.function, &mut numbering)?;
    }
    let Numbering { functions, .. } = numbering;
    Ok(functions)
}

/// The numbers of all functions of the source, in order, of which the first that isn't reached has this one. It fails
/// for want of memory alone.
pub(crate) fn numbered(
    alloc: Global,
    overview: &Overview,
    other: u32,
) -> Result<Items<Shared<FunctionNumber>>, AllocError>
    ensures { IfOk result (λ fs. fs ≡ spec.numbers_noted overview.now.reached 0 other overview.now.program.outers) }
{
    numbered_in(alloc, overview, other, overview.program.outers.as_slice())
}

fn is_named_main(function: &Option<Shared<FunctionNotes>>) -> bool
    ensures { result ≡ spec.is_named_main function.now }
{
    match function {
        None => false,
        Some(function) => function.get().name.get().as_slice() == b"main".as_slice(),
    }
}

fn takes_two(function: &Option<Shared<FunctionNotes>>) -> Option<bool>
    ensures { result ≡ spec.takes_two function.now }
{
    match function {
        None => None,
        Some(function) => Some(function.get().parameters == 2),
    }
}

fn main_in(outers: &[OuterNotes]) -> Option<bool>
    ensures { result ≡ spec.main_takes_two outers.now }
{
    for outer in outers {
        if is_named_main(&outer.function) {
            return takes_two(&outer.function);
        }
    }
    None
}

/// Whether the first function of the name `main` takes two parameters (C99 5.1.2.2.1), where there is one.
pub(crate) fn main_takes_two(overview: &Overview) -> Option<bool>
    ensures { result ≡ spec.main_takes_two overview.now.program.outers }
{
    main_in(overview.program.outers.as_slice())
}
