//! Where a call begins: its arguments are taken off the operands, and it is noted.
ghost use Rattle.std.specs.Prelude.{IfOk, OnOk};
ghost use Rattle.path_states.specs.States.{IsState};
ghost use Rattle.path_calls.specs.Begun.{Takes, Notes, Begins};

use path_forms::CallSite;
use path_states::{Number, State};
use path_steps::pop;
use plain_data::Items;
use std::alloc::Global;
use term_bank::{Bank, BankFault};

/// Takes the last so many operands off a state, in the order in which they were put; one that isn't there is 0. It
/// fails for want of memory alone.
pub fn take_arguments(
    alloc: Global,
    bank: &mut Bank,
    count: usize,
    state: &mut State,
) -> Result<Items<Number>, BankFault>
    requires { IsState bank.old state.old }
    ensures { IfOk result (λ xs. Takes bank.old bank.new state.old state.new count xs) }
{
    if count == 0 {
        return Ok(Items::new(alloc));
    }
    let last = pop(bank, state)?;
    let mut all = take_arguments(alloc, bank, count - 1, state)?;
    all.push(last)?;
    Ok(all)
}

/// Notes that the call at a token begins. It fails for want of memory alone.
fn note(bank: &mut Bank, at: u32, state: &mut State) -> Result<(), BankFault>
    requires { IsState bank.old state.old }
    ensures { OnOk result (Notes bank.old bank.new state.old state.new at) }
{
    let events = bank.call_event(state.events, state.position as u64, at)?;
    state.events = events;
    Ok(())
}

/// A call begins: the answer is its arguments. It fails for want of memory alone.
pub fn begin(
    alloc: Global,
    bank: &mut Bank,
    site: CallSite,
    state: &mut State,
) -> Result<Items<Number>, BankFault>
    requires { IsState bank.old state.old }
    ensures { IfOk result (λ xs. Begins bank.old bank.new state.old state.new site xs) }
{
    let arguments = take_arguments(alloc, bank, site.count, state)?;
    note(bank, site.at, state)?;
    Ok(arguments)
}
