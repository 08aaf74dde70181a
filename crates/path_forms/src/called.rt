//! Calls from states that go on.
ghost use Rattle.std.specs.Prelude.{[], ◌∷◌, IfOk, OnOk};
ghost use Rattle.path_states.specs.States.{IsState, AreStates};
ghost use Rattle.path_states.specs.Ways.{Walks};
ghost use Rattle.path_forms.specs.Calling.{Stays, call_way, IsNobody, Joins};
ghost use Rattle.path_forms.specs.Reaching.{Ready, Reaches};

use crate::calling::{CallSite, Calls};
use crate::fault::WalkFault;
use crate::frame::Placed;
use c_means::Kind;
use core_tree::Callee;
use mem_terms::initial;
use path_states::{State, StateKind, Walked, join, settled};
use plain_data::Items;
use std::alloc::Global;
use std::mem::replace;
use term_bank::{Bank, BankFault};

/// A state in which no run stands.
fn nobody(alloc: Global, bank: &mut Bank) -> Result<State, BankFault>
    ensures { IfOk result (IsNobody bank.old bank.new) }
{
    let guard = bank.truth(false)?;
    let memory = initial(bank)?;
    let events = bank.no_events()?;
    Ok(State {
        guard,
        kind: StateKind::Known(Kind::Running),
        value: None,
        position: 0,
        memory,
        events,
        operands: Items::new(alloc),
    })
}

/// A call from no state. That it keeps objects small is known of a call alone: so one is made where no run stands.
fn call_none<C: Calls>(
    alloc: Global,
    scene: &C,
    bank: &mut Bank,
    frame: &[Placed],
    room: u64,
    callee: &Callee,
    site: CallSite,
) -> Result<Walked, WalkFault>
    requires { Stays (C.ready scene.now) bank.old }
    ensures { IfOk result (λ w. Walks room bank.old bank.new [] w (call_way (C.around scene.now) frame.now
        callee.now site)) }
{
    let state = nobody(alloc, bank)?;
    let walked = scene.call(alloc, bank, frame, room, callee, site, &state)?;
    drop(walked);
    Ok(settled(alloc))
}

/// A call from a state and others, of which one stands at most.
fn call_some<C: Calls>(
    alloc: Global,
    scene: &C,
    bank: &mut Bank,
    frame: &[Placed],
    room: u64,
    callee: &Callee,
    site: CallSite,
    first: &State,
    rest: &[State],
) -> Result<Walked, WalkFault>
    requires calls { Stays (C.ready scene.now) bank.old }
    requires first { IsState bank.old first.now }
    requires rest { AreStates bank.old rest.now }
    ensures { IfOk result (λ w. Walks room bank.old bank.new (first.now ∷ rest.now) w (call_way (C.around scene.now)
        frame.now callee.now site)) }
{
    let mut walked = scene.call(alloc, bank, frame, room, callee, site, first)?;
    for state in rest {
        let Walked { going, ended } = scene.call(alloc, bank, frame, room, callee, site, state)?;
        walked.going.append(going)?;
        walked.ended.append(ended)?;
    }
    Ok(walked)
}

/// A call from states of which one stands at most.
fn call_all<C: Calls>(
    alloc: Global,
    scene: &C,
    bank: &mut Bank,
    frame: &[Placed],
    room: u64,
    callee: &Callee,
    site: CallSite,
    states: &[State],
) -> Result<Walked, WalkFault>
    requires calls { Stays (C.ready scene.now) bank.old }
    requires states { AreStates bank.old states.now }
    ensures { IfOk result (λ w. Walks room bank.old bank.new states.now w (call_way (C.around scene.now) frame.now
        callee.now site)) }
{
    match states.split_first() {
        Some((first, rest)) => call_some(
            alloc, scene, bank, frame, room, callee, site, first, rest,
        ),
        None => call_none(alloc, scene, bank, frame, room, callee, site),
    }
}

/// A call from the states that go on.
fn call_behind<C: Calls>(
    alloc: Global,
    scene: &C,
    bank: &mut Bank,
    frame: &[Placed],
    room: u64,
    callee: &Callee,
    site: CallSite,
    walked: Walked,
) -> Result<Walked, WalkFault>
    requires calls { Stays (C.ready scene.now) bank.old }
    requires ready { Ready bank.old walked }
    ensures { IfOk result (λ w. Reaches room bank.old bank.new walked w (call_way (C.around scene.now) frame.now
        callee.now site)) }
{
    let Walked { going, ended } = walked;
    let mut ended = ended;
    let Walked {
        going: next,
        ended: more,
    } = call_all(
        alloc,
        scene,
        bank,
        frame,
        room,
        callee,
        site,
        going.as_slice(),
    )?;
    ended.append(more)?;
    Ok(Walked { going: next, ended })
}

/// The states that go on are joined. It fails for want of memory alone.
fn joined(alloc: Global, bank: &mut Bank, walked: Walked) -> Result<Walked, BankFault>
    requires { Ready bank.old walked }
    ensures { IfOk result (λ w. Joins bank.old bank.new walked w) }
{
    let Walked { going, ended } = walked;
    let going = join(alloc, bank, going.as_slice())?;
    Ok(Walked { going, ended })
}

/// A call from each of the states that go on, whose answers are joined.
pub fn call_each<C: Calls>(
    alloc: Global,
    scene: &C,
    bank: &mut Bank,
    frame: &[Placed],
    room: u64,
    callee: &Callee,
    site: CallSite,
    walked: &mut Walked,
) -> Result<(), WalkFault>
    requires calls { Stays (C.ready scene.now) bank.old }
    requires ready { Ready bank.old walked.old }
    ensures { OnOk result (Reaches room bank.old bank.new walked.old walked.new (call_way (C.around scene.now)
        frame.now callee.now site)) }
{
    let now = replace(walked, settled(alloc));
    let called = call_behind(alloc, scene, bank, frame, room, callee, site, now)?;
    let done = joined(alloc, bank, called)?;
    *walked = done;
    Ok(())
}
