//! Facts of a run along a stripped log.
ghost use Rattle.std.specs.Prelude.{◌≡◌, ◌↔◌, true, All, Any};
ghost use Rattle.log_text.specs.Shown as spec;
ghost use Rattle.run_facts.specs.Seen.{SeenBy};

use crate::tests_of::{
    aborts, begins_in, exits, is_branch, is_call, is_print, returns, saw, stays_in, stops_at,
    stops_by,
};
use log_text::LogText;
use plain_data::{Event, Fact, Run, Side};

/// Whether a run fits a log: it prints exactly the log, and stays within its bounds.
pub fn fits(run: &Run, log: &LogText) -> bool
    ensures { (result ≡ true) ↔ spec.Fits log.now run.now }
{
    stays_in(run.finish) && run.printed.as_slice() == log.bytes()
}

fn any_branch(events: &[Event], at: u32, side: Side) -> bool
    ensures { (result ≡ true) ↔ Any (λ event. spec.IsBranch at side event.what) events.now }
{
    events.iter().any(|event| is_branch(&event.what, at, side))
}

fn any_branch_in(events: &[Event], at: u32, side: Side, line: u32, log: &LogText) -> bool
    ensures { (result ≡ true) ↔ Any (λ event. spec.IsBranch at side event.what × spec.BeginsIn log.now line event) events.now }
{
    events.iter().any(|event| is_branch(&event.what, at, side) && begins_in(log, line, event))
}

fn any_call(events: &[Event], at: u32) -> bool
    ensures { (result ≡ true) ↔ Any (λ event. spec.IsCall at event.what) events.now }
{
    events.iter().any(|event| is_call(&event.what, at))
}

fn any_call_in(events: &[Event], at: u32, line: u32, log: &LogText) -> bool
    ensures { (result ≡ true) ↔ Any (λ event. spec.IsCall at event.what × spec.BeginsIn log.now line event) events.now }
{
    events.iter().any(|event| is_call(&event.what, at) && begins_in(log, line, event))
}

fn any_print(events: &[Event], at: u32, line: u32, log: &LogText) -> bool
    ensures { (result ≡ true) ↔ Any (λ event. spec.IsPrint at event.what × spec.BeginsIn log.now line event) events.now }
{
    events.iter().any(|event| is_print(&event.what, at) && begins_in(log, line, event))
}

/// Whether a fact holds on a run, along a log.
pub fn holds(fact: &Fact, run: &Run, log: &LogText) -> bool
    ensures { (result ≡ true) ↔ spec.Holds log.now run.now fact.now }
{
    let events = run.events.as_slice();
    match *fact {
        Fact::Branch { at, side } => any_branch(events, at, side),
        Fact::BranchIn { at, side, line } => any_branch_in(events, at, side, line, log),
        Fact::Call { at } => any_call(events, at),
        Fact::CallIn { at, line } => any_call_in(events, at, line, log),
        Fact::Print { at, line } => any_print(events, at, line, log),
        Fact::StopAt { kind, at } => stops_at(run.finish, kind, at),
        Fact::Returned => returns(run.finish),
        Fact::Exited => exits(run.finish),
        Fact::Aborted => aborts(run.finish),
        Fact::StopOf { kind } => stops_by(run.finish, kind),
    }
}

/// Whether an event saw this value, where it is a print by the site that begins in the line.
#[tactic(auto, unfolding(crate::specs::Seen::SeenBy))]
fn is_seen_by(event: &Event, at: u32, line: u32, place: usize, value: i128, log: &LogText) -> bool
    ensures { (result ≡ true) ↔ SeenBy log.now at line place value event.now }
{
    if is_print(&event.what, at) && begins_in(log, line, event) {
        return saw(&event.what, place, value);
    }
    true
}

fn all_saw(events: &[Event], at: u32, line: u32, place: usize, value: i128, log: &LogText) -> bool
    ensures { (result ≡ true) ↔ All (λ event. SeenBy log.now at line place value event) events.now }
{
    events
        .iter()
        .all(|event| is_seen_by(event, at, line, place, value, log))
}

/// Whether a watched variable, by its place from 0 in what the site's prints see, has a value: each print by the site
/// that begins in the line saw it.
#[tactic(auto, unfolding(crate::specs::Seen::SeenBy))]
pub fn value_is(run: &Run, log: &LogText, at: u32, line: u32, place: usize, value: i128) -> bool
    ensures { (result ≡ true) ↔ spec.ValueIs log.now run.now at line place value }
{
    all_saw(run.events.as_slice(), at, line, place, value, log)
}
