//! Calls of functions outside.
ghost use Rattle.std.specs.Prelude.{Some, None, IfOk};
ghost use Rattle.core_tree.specs.declared.expr.Callee.TheVariants as c;
ghost use Rattle.term_bank.specs.Terms.{IsTerm};
ghost use Rattle.term_bank.specs.declared.sort.Sort.TheVariants.{Truth, Memory};
ghost use Rattle.path_states.specs.States.{IsState, IsNumber};
ghost use Rattle.path_calls.specs.Places.{CallsWithin};
ghost use Rattle.path_calls.specs.FillCalls.{SettlesFill};

use crate::answering::answer;
use crate::beginning::begin;
use crate::callees::PLACES;
use crate::fills::{FillReply, answer_fill};
use crate::outside_pointers::answer_outside;
use core_tree::{Fill, OutsideAnswer};
use path_forms::{CallSite, WalkFault};
use path_numbers::converted;
use path_states::{State, Walked};
use path_steps::{Exit, settle};
use plain_data::{Bounds, Finish, Undefined};
use std::alloc::Global;
use term_bank::{Bank, BankFault};

/// A function outside that fills nothing.
fn answered(
    alloc: Global,
    bank: &mut Bank,
    bounds: &Bounds,
    room: u64,
    site: CallSite,
    answers: OutsideAnswer,
    state: &State,
) -> Result<Walked, WalkFault>
    requires { IsState bank.old state.now }
    ensures { IfOk result (λ w. CallsWithin bounds.now room bank.old bank.new state.now (c.Outside answers None)
        site w) }
{
    if room < PLACES || room - PLACES < site.place {
        return Err(WalkFault::TooFar);
    }
    let mut now = state.copy(alloc)?;
    let arguments = begin(alloc, bank, site, &mut now)?;
    let _ = arguments;
    let reply = answer_outside(bank, bounds, site.place, answers, now.memory)?;
    now.memory = reply.memory;
    let walked = answer(alloc, bank, site.answer, reply.number, now)?;
    Ok(walked)
}

/// A state goes on with what a function outside answers that fills a buffer, unless the run ends at its token.
fn settle_fill(
    alloc: Global,
    bank: &mut Bank,
    site: CallSite,
    fill: FillReply,
    state: &State,
) -> Result<Walked, BankFault>
    requires state { IsState bank.old state.now }
    requires number { IsNumber bank.old fill.reply.number }
    requires memory { IsTerm bank.old Memory fill.reply.memory }
    requires access { IsTerm bank.old Truth fill.no_access }
    requires write { IsTerm bank.old Truth fill.no_write }
    ensures { IfOk result (λ w. SettlesFill bank.old bank.new state.now site fill w) }
{
    let last = converted(bank, fill.reply.number, site.answer)?;
    let mut next = state.copy(alloc)?;
    next.memory = fill.reply.memory;
    next.operands.push(last)?;
    let no_access = Exit {
        truth: fill.no_access,
        finish: Finish::Stopped {
            kind: Undefined::Dereference,
            at: site.at,
        },
    };
    let no_write = Exit {
        truth: fill.no_write,
        finish: Finish::Stopped {
            kind: Undefined::LiteralWrite,
            at: site.at,
        },
    };
    let walked = settle(alloc, bank, state, next, Some(no_access), Some(no_write))?;
    Ok(walked)
}

/// A function outside that fills a buffer.
fn filled(
    alloc: Global,
    bank: &mut Bank,
    bounds: &Bounds,
    room: u64,
    site: CallSite,
    answers: OutsideAnswer,
    fill: Fill,
    state: &State,
) -> Result<Walked, WalkFault>
    requires { IsState bank.old state.now }
    ensures { IfOk result (λ w. CallsWithin bounds.now room bank.old bank.new state.now (c.Outside answers (Some fill))
        site w) }
{
    if room < PLACES || room - PLACES < site.place {
        return Err(WalkFault::TooFar);
    }
    let mut now = state.copy(alloc)?;
    let arguments = begin(alloc, bank, site, &mut now)?;
    let reply = answer_fill(
        bank, bounds, site.place, answers, fill, &arguments, now.memory,
    )?;
    let walked = settle_fill(alloc, bank, site, reply, &now)?;
    Ok(walked)
}

/// A function outside: what it answers, and with what it fills a buffer, is the world's. It fails where the call's
/// places aren't in the room, and where no object has as many bytes as that of its pointer.
pub fn outside(
    alloc: Global,
    bank: &mut Bank,
    bounds: &Bounds,
    room: u64,
    site: CallSite,
    answers: OutsideAnswer,
    fill: Option<Fill>,
    state: &State,
) -> Result<Walked, WalkFault>
    requires { IsState bank.old state.now }
    ensures { IfOk result (λ w. CallsWithin bounds.now room bank.old bank.new state.now (c.Outside answers fill)
        site w) }
{
    match fill {
        None => {
            let walked = answered(alloc, bank, bounds, room, site, answers, state)?;
            Ok(walked)
        }
        Some(fill) => {
            let walked = filled(alloc, bank, bounds, room, site, answers, fill, state)?;
            Ok(walked)
        }
    }
}
