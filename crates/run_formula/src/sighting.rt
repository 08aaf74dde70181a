//! What the prints of a site that begin in a line show: lists of numbers, each with the truth that it is shown.
ghost use Rattle.std.specs.Prelude.{◌≡◌, ◌↔◌, Some, true, nat_eq, length, slice_get, IfOk, IfSome, OnOk};
ghost use Rattle.std.specs.HashMap.{get};
ghost use Rattle.log_text.specs.Lines.{line_of};
ghost use Rattle.term_bank.specs.Banks.{IsBank};
ghost use Rattle.path_states.specs.States.{AreStates, IsState};
ghost use Rattle.run_formula.specs.Sighted.{AllSighted, AreSightings, AreTruths, IsJoining, JoinsBoth, JoinsState};
ghost use Rattle.run_formula.specs.Sighted.{PutsTruths, SightsAll, SightsPrint, SightsShape, StatesSighted};

use crate::events::{events_under, is_in_line};
use crate::joining::{Joining, join_all, nevers};
use crate::watches::Watch;
use log_text::LogText;
use path_states::State;
use plain_data::Items;
use std::alloc::{AllocError, Global};
use std::collections::HashMap;
use term_bank::{Bank, BankFault, Node, Shape, Sort};

/// Lists of numbers, each the numbers of a node, and the truths that they are shown, in one order.
pub(crate) struct Sightings {
    pub(crate) lists: Items<u32>,
    pub(crate) truths: Items<Node>,
}

/// By hand, so that a call stands in place of all its parts wherever a value is let go.
impl Drop for Sightings {
    fn drop(self) {
        let Sightings { lists, truths } = self;
    }
}

/// A watched variable along a log, and the lists of numbers that are looked for.
#[derive(Clone, Copy)]
pub(crate) struct Look<'a> {
    pub(crate) watch: &'a Watch,
    pub(crate) log: &'a LogText,
    pub(crate) lists: &'a [u32],
}

/// Whether prints by a site that begin behind so many printed bytes see a variable that is watched.
fn is_watched(watch: &Watch, log: &LogText, printed: u64, at: u32) -> bool
    ensures { (result ≡ true) ↔ ((at ≡ watch.now.at) × (line_of log.now printed ≡ watch.now.line)) }
{
    at == watch.at && is_in_line(log, watch.line, printed)
}

/// The index of a node's number among those of lists.
fn index_of(lists: &[u32], number: u32) -> Option<usize>
    ensures { IfSome result (λ index. slice_get lists.now index ≡ Some number) }
{
    'lists: for index in 0..lists.len() {
        if lists[index] == number {
            return Some(index);
        }
    }
    None
}

// ---- which lists

/// The list of numbers that a node's last event shows, where that is a print that sees the watched variable.
fn list_shown(bank: &Bank, number: u32, watch: &Watch, log: &LogText) -> Option<u32> {
    match bank.shape(number) {
        Some(
            Shape::PrintEvent {
                printed,
                at,
                seen,
                ..
            },
        ) => {
            if is_watched(watch, log, printed, at) {
                return Some(seen);
            }
            None
        }
        _ => None,
    }
}

/// Puts a list of numbers behind others, where it isn't one of them.
fn put_list(lists: &mut Items<u32>, list: Option<u32>) -> Result<(), AllocError> {
    match list {
        None => Ok(()),
        Some(seen) => match index_of(lists.as_slice(), seen) {
            Some(_) => Ok(()),
            None => lists.push(seen),
        },
    }
}

/// The lists of numbers that prints which see the watched variable show, each once, of these nodes of events.
fn lists_shown(
    alloc: Global,
    bank: &Bank,
    events: &[u32],
    watch: &Watch,
    log: &LogText,
) -> Result<Items<u32>, AllocError> {
    let mut lists = Items::new(alloc);
    for number in events {
        put_list(&mut lists, list_shown(bank, *number, watch, log))?;
    }
    Ok(lists)
}

// ---- nodes of events

/// The truths of a node. It fails where the node has no entry.
fn truths_of(
    alloc: Global,
    told: &HashMap<u32, Items<Node>>,
    events: u32,
) -> Result<Items<Node>, BankFault>
    ensures { IfOk result (λ ns. get nat_eq told.now events ≡ Some ns) }
{
    match told.get(&events) {
        Some(nodes) => {
            let copy = Items::from_slice(alloc, nodes.as_slice())?;
            Ok(copy)
        }
        None => Err(BankFault::Memory),
    }
}

/// Lets a node have truths.
fn set_truths(
    told: &mut HashMap<u32, Items<Node>>,
    number: u32,
    nodes: Items<Node>,
) -> Result<(), AllocError>
    ensures { OnOk result (PutsTruths told.old told.new number nodes) }
{
    match told.insert(number, nodes) {
        Ok(_) => Ok(()),
        Err(_) => Err(AllocError),
    }
}

/// The truths with one print more, which shows this list. It fails where the list isn't looked for.
fn with_print(
    bank: &mut Bank,
    before: Items<Node>,
    look: &Look<'_>,
    printed: u64,
    at: u32,
    seen: u32,
) -> Result<Items<Node>, BankFault>
    requires len { length before ≡ length look.now.lists.now }
    requires terms { AreTruths bank.old before }
    ensures { IfOk result (SightsPrint bank.old bank.new look.now.log.now look.now.watch.now look.now.lists.now
        before printed at seen) }
{
    if !is_watched(look.watch, look.log, printed, at) {
        return Ok(before);
    }
    match index_of(look.lists, seen) {
        None => Err(BankFault::Memory),
        Some(index) => {
            let always = bank.truth(true)?;
            let mut nodes = before;
            nodes.set(index, always);
            Ok(nodes)
        }
    }
}

/// The truths of two nodes made one.
fn both(
    alloc: Global,
    bank: &mut Bank,
    told: &HashMap<u32, Items<Node>>,
    look: &Look<'_>,
    how: Joining,
    one: u32,
    other: u32,
) -> Result<Items<Node>, BankFault>
    requires told { AllSighted bank.old look.now.log.now look.now.watch.now look.now.lists.now told.now }
    requires how { IsJoining bank.old how }
    ensures { IfOk result (JoinsBoth bank.old bank.new how told.now one other) }
{
    let _ = look;
    let ones = truths_of(alloc, told, one)?;
    let others = truths_of(alloc, told, other)?;
    let nodes = join_all(alloc, bank, how, ones.as_slice(), others.as_slice())?;
    Ok(nodes)
}

/// The truths of a shape, by what is told of the nodes below it.
fn sighted(
    alloc: Global,
    bank: &mut Bank,
    told: &HashMap<u32, Items<Node>>,
    number: u32,
    shape: Shape,
    look: &Look<'_>,
) -> Result<Items<Node>, BankFault>
    requires told { AllSighted bank.old look.now.log.now look.now.watch.now look.now.lists.now told.now }
    requires stands { slice_get bank.old number ≡ Some shape }
    requires bank { IsBank bank.old }
    ensures { IfOk result (SightsShape bank.old bank.new look.now.log.now look.now.watch.now look.now.lists.now shape) }
{
    match shape {
        Shape::NoEvents => {
            let none = nevers(alloc, bank, look.lists.len())?;
            Ok(none)
        }
        Shape::BranchEvent { events, .. } => {
            let before = truths_of(alloc, told, events)?;
            Ok(before)
        }
        Shape::CallEvent { events, .. } => {
            let before = truths_of(alloc, told, events)?;
            Ok(before)
        }
        Shape::PrintEvent {
            events,
            printed,
            at,
            seen,
            ..
        } => {
            let before = truths_of(alloc, told, events)?;
            let nodes = with_print(bank, before, look, printed, at, seen)?;
            Ok(nodes)
        }
        Shape::EventsBehind { first, second } => {
            let nodes = both(alloc, bank, told, look, Joining::Either, first, second)?;
            Ok(nodes)
        }
        Shape::Choose {
            condition,
            yes,
            no,
            ..
        } => {
            let guard = Node {
                index: condition,
                sort: Sort::Truth,
            };
            let nodes = both(alloc, bank, told, look, Joining::Chosen(guard), yes, no)?;
            Ok(nodes)
        }
        _ => Err(BankFault::Memory),
    }
}

/// One more node of events, with its truths.
fn sight_next(
    alloc: Global,
    bank: &mut Bank,
    told: &mut HashMap<u32, Items<Node>>,
    number: u32,
    look: &Look<'_>,
) -> Result<(), BankFault>
    requires { AllSighted bank.old look.now.log.now look.now.watch.now look.now.lists.now told.old }
    ensures { IfOk result (λ _. SightsAll bank.old bank.new look.now.log.now look.now.watch.now look.now.lists.now
        told.new) }
{
    if let Some(shape) = bank.shape(number) {
        let nodes = sighted(alloc, bank, told, number, shape, look)?;
        set_truths(told, number, nodes)?;
        return Ok(());
    }
    Err(BankFault::Memory)
}

/// The truths of each of these nodes of events. Each node stands behind those below it. It fails for want of memory
/// alone.
fn sight_all(
    alloc: Global,
    bank: &mut Bank,
    numbers: &[u32],
    look: &Look<'_>,
) -> Result<HashMap<u32, Items<Node>>, BankFault>
    ensures { IfOk result (SightsAll bank.old bank.new look.now.log.now look.now.watch.now look.now.lists.now) }
{
    let mut told = HashMap::new(alloc);
    for number in numbers {
        sight_next(alloc, bank, &mut told, *number, look)?;
    }
    Ok(told)
}

// ---- states

/// The truths of the states before one, and its own under its guard.
fn with_state(
    alloc: Global,
    bank: &mut Bank,
    told: &HashMap<u32, Items<Node>>,
    look: &Look<'_>,
    before: &[Node],
    state: &State,
) -> Result<Items<Node>, BankFault>
    requires told { AllSighted bank.old look.now.log.now look.now.watch.now look.now.lists.now told.now }
    requires len { length before.now ≡ length look.now.lists.now }
    requires terms { AreTruths bank.old before.now }
    requires state { IsState bank.old state.now }
    ensures { IfOk result (JoinsState bank.old bank.new told.now before.now state.now) }
{
    let _ = look;
    let own = truths_of(alloc, told, state.events.index)?;
    let how = Joining::Guarded(state.guard);
    let nodes = join_all(alloc, bank, how, before, own.as_slice())?;
    Ok(nodes)
}

/// The truths of the state that stands.
fn of_states(
    alloc: Global,
    bank: &mut Bank,
    told: &HashMap<u32, Items<Node>>,
    look: &Look<'_>,
    states: &[State],
) -> Result<Items<Node>, BankFault>
    requires told { AllSighted bank.old look.now.log.now look.now.watch.now look.now.lists.now told.now }
    requires states { AreStates bank.old states.now }
    ensures { IfOk result (StatesSighted bank.old bank.new look.now.log.now look.now.watch.now look.now.lists.now
        states.now) }
{
    let mut all = nevers(alloc, bank, look.lists.len())?;
    for state in states {
        all = with_state(alloc, bank, told, look, all.as_slice(), state)?;
    }
    Ok(all)
}

/// What the prints by a watched variable's site that begin in its line show on the state that stands: lists of numbers,
/// each with the truth that it is shown. It fails for want of memory alone.
pub(crate) fn sightings_of(
    alloc: Global,
    bank: &mut Bank,
    states: &[State],
    watch: &Watch,
    log: &LogText,
) -> Result<Sightings, BankFault>
    requires { AreStates bank.old states.now }
    ensures { IfOk result (AreSightings bank.old bank.new log.now watch.now states.now) }
{
    let events = events_under(alloc, bank, states)?;
    let lists = lists_shown(alloc, bank, events.as_slice(), watch, log)?;
    let look = Look {
        watch,
        log,
        lists: lists.as_slice(),
    };
    let told = sight_all(alloc, bank, events.as_slice(), &look)?;
    let truths = of_states(alloc, bank, &told, &look, states)?;
    Ok(Sightings { lists, truths })
}
