//! A call from a summary.
ghost use Rattle.std.specs.Prelude.{◌≡◌, ◌∷◌, ◌++◌, [], ℕ, List, true, false, IfOk};
ghost use Rattle.core_tree.specs.declared.expr.Callee.TheVariants as callee;
ghost use Rattle.term_bank.specs.Banks.{IsBank};
ghost use Rattle.term_bank.specs.Bindings.{IsBinding};
ghost use Rattle.path_states.specs.declared.kinds.StateKind.TheVariants as standing;
ghost use Rattle.path_states.specs.States.{IsState, AreStates, IsMaybeNumber};
ghost use Rattle.path_states.specs.Ways.{Tries};
ghost use Rattle.path_forms.specs.declared.frame.Placed.{Placed as PlacedType};
ghost use Rattle.path_forms.specs.Around.{Around as Surroundings};
ghost use Rattle.path_forms.specs.Calling.{call_way};
ghost use Rattle.summary_compose.specs.Summaries.{Answers};
ghost use Rattle.summary_compose.specs.Composing.{Continues, Ends, Gives, GoesOn, Resumes, PutsIn, must_give};

use crate::arguments::{pass, take_operands};
use crate::images::{state_images, table_of};
use crate::nodes::nodes_of;
use crate::summary::Summary;
use c_means::Kind;
use core_tree::ValueType;
use path_arrows::place;
use path_forms::{CallSite, WalkFault};
use path_numbers::constant;
use path_states::{Number, State, StateKind, Walked, alone, copy_state_kind};
use plain_data::{Finish, Items, Undefined};
use std::alloc::{AllocError, Global};
use term_bank::{Bank, BankFault, Binding, Connective, Node};

/// The caller with what an end of the callee left and noted.
fn go_on(
    alloc: Global,
    bank: &mut Bank,
    site: CallSite,
    caller: &State,
    end: &State,
) -> Result<State, BankFault>
    requires caller { IsState bank.old caller.now }
    requires end { IsState bank.old end.now }
    ensures { IfOk result (λ t. Continues bank.old bank.new site caller.now end.now t) }
{
    let guard = bank.connect(Connective::And, caller.guard, end.guard)?;
    let called = bank.call_event(caller.events, caller.position as u64, site.at)?;
    let events = bank.events_behind(called, end.events)?;
    let mut next = caller.copy(alloc)?;
    next.guard = guard;
    next.position = end.position;
    next.memory = end.memory;
    next.events = events;
    Ok(next)
}

/// Whether a value must be there (C99 6.9.1p12).
fn is_needed(site: CallSite) -> bool
    ensures { result ≡ must_give site }
{
    match site.answer {
        ValueType::Void => false,
        _ => site.is_used,
    }
}

/// A state that goes on with one more operand.
fn with_operand(alloc: Global, number: Number, state: State) -> Result<Walked, AllocError>
    ensures { IfOk result (λ w. w ≡ record {
      going = record state { operands = state.operands ++ number ∷ [] } ∷ [];
      ended = [];
    }) }
{
    let mut next = state;
    next.operands.push(number)?;
    let going = alone(alloc, next)?;
    Ok(Walked {
        going,
        ended: Items::new(alloc),
    })
}

/// A state whose run has ended.
fn with_end(alloc: Global, kind: StateKind, state: State) -> Result<Walked, AllocError>
    ensures { IfOk result (λ w. w ≡ record {
      going = [];
      ended = record state { kind = kind; operands = [] } ∷ [];
    }) }
{
    let mut next = state;
    next.kind = kind;
    next.operands = Items::new(alloc);
    let ended = alone(alloc, next)?;
    Ok(Walked {
        going: Items::new(alloc),
        ended,
    })
}

/// The state with the value that the call gave on its operands, or ended where one is needed that isn't there.
fn give(
    alloc: Global,
    bank: &mut Bank,
    site: CallSite,
    value: Option<Number>,
    state: State,
) -> Result<Walked, BankFault>
    requires state { IsState bank.old state }
    requires value { IsMaybeNumber bank.old value }
    ensures { IfOk result (λ w. Gives bank.old bank.new site value state w) }
{
    match value {
        Some(number) => {
            let walked = with_operand(alloc, number, state)?;
            Ok(walked)
        }
        None => {
            if is_needed(site) {
                let missing = Finish::Stopped {
                    kind: Undefined::MissingValue,
                    at: site.at,
                };
                let kind = StateKind::Known(Kind::Ended(missing));
                let walked = with_end(alloc, kind, state)?;
                return Ok(walked);
            }
            let zero = constant(bank, 0)?;
            let walked = with_operand(alloc, zero, state)?;
            Ok(walked)
        }
    }
}

fn is_end(kind: &Kind) -> bool
    ensures ended { result ≡ true → Ends (standing.Known kind.now) }
    ensures on { result ≡ false → GoesOn (standing.Known kind.now) }
{
    match kind {
        Kind::Ended(_) => true,
        Kind::Running
        | Kind::Breaking
        | Kind::Continuing
        | Kind::Returning
        | Kind::Going { .. }
        | Kind::Choosing { .. }
        | Kind::Defaulting => false,
    }
}

/// Whether the run has ended.
fn has_ended(kind: &StateKind) -> bool
    ensures ended { result ≡ true → Ends kind.now }
    ensures on { result ≡ false → GoesOn kind.now }
{
    match kind {
        StateKind::Known(known) => is_end(known),
        StateKind::Exited(_) => true,
    }
}

/// The caller's states behind one end of the callee.
fn resume_one(
    alloc: Global,
    bank: &mut Bank,
    site: CallSite,
    caller: &State,
    end: &State,
) -> Result<Walked, BankFault>
    requires caller { IsState bank.old caller.now }
    requires end { IsState bank.old end.now }
    ensures { IfOk result (λ w. Resumes bank.old bank.new site caller.now (end.now ∷ []) w) }
{
    let next = go_on(alloc, bank, site, caller, end)?;
    if has_ended(&end.kind) {
        let kind = copy_state_kind(&end.kind)?;
        let walked = with_end(alloc, kind, next)?;
        return Ok(walked);
    }
    let walked = give(alloc, bank, site, end.value, next)?;
    Ok(walked)
}

/// The caller's states behind the ends of the callee.
fn resume(
    alloc: Global,
    bank: &mut Bank,
    site: CallSite,
    caller: &State,
    ends: &[State],
) -> Result<Walked, WalkFault>
    requires caller { IsState bank.old caller.now }
    requires ends { AreStates bank.old ends.now }
    ensures { IfOk result (λ w. Resumes bank.old bank.new site caller.now ends.now w) }
{
    let mut walked = Walked {
        going: Items::new(alloc),
        ended: Items::new(alloc),
    };
    for end in ends {
        let Walked { going, ended } = resume_one(alloc, bank, site, caller, end)?;
        walked.going.append(going)?;
        walked.ended.append(ended)?;
    }
    Ok(walked)
}

/// The states of a summary over the nodes that are put in for its entry's memory, parameters and base.
pub fn put_in(
    alloc: Global,
    bank: &mut Bank,
    states: &[State],
    binding: &Binding,
) -> Result<Items<State>, WalkFault>
    requires states { AreStates bank.old states.now }
    requires binding { IsBinding bank.old binding.now }
    ensures { IfOk result (λ ts. PutsIn bank.old bank.new binding.now states.now ts) }
{
    let roots = nodes_of(alloc, states)?;
    let nodes = bank.substitute(roots.as_slice(), binding)?;
    let images = table_of(alloc, roots.as_slice(), nodes.as_slice())?;
    let ends = state_images(alloc, &images, states)?;
    Ok(ends)
}

/// The bank keeps its invariant, which proofs learn here.
fn keeps_bank(bank: &Bank)
    ensures { IsBank bank.now }
{
    let _ = bank.len();
}

/// A call, by the summary of the function that is called, from the state's position: its entry's memory is the
/// state's, its parameters are the arguments, and its places begin at the call's. The answer has one state for each
/// end. It fails for want of memory, where an argument can't be passed yet, and where there are more or fewer
/// arguments than parameters.
pub fn compose(
    alloc: Global,
    bank: &mut Bank,
    summary: &Summary,
    site: CallSite,
    state: &State,
) -> Result<Walked, WalkFault>
    requires state { IsState bank.old state.now }
    requires ends { AreStates bank.old summary.now.states }
    ensures { IfOk result (λ w. (x : Surroundings) (frame : List PlacedType) (room f : ℕ)
        → Answers x room site f state.now.position bank.old summary.now
        → Tries room bank.old bank.new state.now w (call_way x frame (callee.Body f) site)) }
{
    let mut caller = state.copy(alloc)?;
    let numbers = take_operands(alloc, bank, &mut caller, site.count)?;
    let mut parameters = Items::new(alloc);
    pass(
        bank,
        numbers.as_slice(),
        summary.parameters.as_slice(),
        &mut parameters,
    )?;
    let base = place(bank, site.place)?;
    keeps_bank(bank);
    let binding = Binding {
        entry: caller.memory,
        parameters,
        base,
    };
    let ends = put_in(alloc, bank, summary.states.as_slice(), &binding)?;
    let walked = resume(alloc, bank, site, &caller, ends.as_slice())?;
    Ok(walked)
}
