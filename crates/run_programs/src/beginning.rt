//! What stands before `main` is called: the places that are met, the objects that are made, and their initializers
//! (C99 5.1.2, 6.7.8p4).
ghost use Rattle.std.specs.Prelude.{◌≡◌, map, Some, IfOk};
ghost use Rattle.c_machine.specs.Worth.{worth};
ghost use Rattle.c_means.specs.Statements.{no_env};
ghost use Rattle.c_store.specs.Store.{start};
ghost use Rattle.code_steps.specs.Below.{capped};
ghost use Rattle.core_tree.specs.Callees as callees;
ghost use Rattle.core_tree.specs.Codes as codes;
ghost use Rattle.core_tree.specs.Programs as program;
ghost use Rattle.core_tree.specs.States.{Output, plain, entered};
ghost use Rattle.core_tree.specs.Values as core;
ghost use Rattle.core_running.specs.Below.{value_room};
ghost use Rattle.core_running.specs.Frames.{env_of};
ghost use Rattle.core_running.specs.Running.{done, Low};
ghost use Rattle.core_running.specs.Settings.{level, HasWorld};
ghost use Rattle.run_values.specs.Forms.{Fits, RunsAs, EndsAt};
ghost use Rattle.run_core.specs.Scenes.{machine_of};
ghost use Rattle.run_programs.specs.Places.{bare_of};

use c_machine::{Halt, Machine, Value};
use code_steps::{no_objects, room_of_setting, start_of};
use core_running::{Found, Frame};
use core_tree::{Callee, Expr, LastingSetting, ValueType};
use run_callees::{leave_bounds, run_callee};
use run_codes::Steps;
use run_core::Bare;
use run_starts::{make_all, meet_all};
use std::alloc::{AllocError, Global};

/// How many places an initializer takes, or the greatest number of 64 bits where it takes more.
fn room_on(here: &Bare, e: &Expr) -> u64
    ensures { result ≡ capped (value_room (bare_of here.now) e.now) }
{
    run_values::value_room(here, e)
}

/// A call by body leaves the bounds: there is no level for it.
fn body_on(
    _alloc: Global,
    _here: &Bare,
    _function: u32,
    at: u32,
    _values: &[Value],
    _base: u64,
    m: &mut Machine,
) -> Result<(), AllocError>
    ensures world { m.new.world ≡ m.old.world }
    ensures runs { (o : Output) → done m.old ≡ entered plain (done m.old).store o
        → IfOk result (λ _. callees.body_call (bare_of _here.now).call plain at _function (map worth _values.now) _base (done m.old).store o ≡ Some (done m.new)) }
{
    leave_bounds(at, m);
    Ok(())
}

/// Does what a callee does in an initializer.
fn call_on(
    alloc: Global,
    here: &Bare,
    callee: &Callee,
    at: u32,
    to: ValueType,
    frame: &Frame,
    values: &[Value],
    base: u64,
    m: &mut Machine,
) -> Result<(), AllocError>
    requires low { Low base (callees.callee_room callee.now (bare_of here.now).measures) }
    requires same_world { HasWorld (bare_of here.now) m.old }
    ensures world { m.new.world ≡ m.old.world }
    ensures runs { (o : Output) → done m.old ≡ entered plain (done m.old).store o
        → IfOk result (λ _. callees.called (level (bare_of here.now)) callee.now at to (env_of frame.now) (map worth values.now) base (done m.old).store o ≡ Some (done m.new)) }
{
    run_callee(
        alloc, here, &body_on, callee, at, to, frame, values, base, m,
    )
}

/// Evaluates an expression of an initializer.
fn value_on(
    alloc: Global,
    here: &Bare,
    frame: &Frame,
    e: &Expr,
    base: u64,
    m: &mut Machine,
) -> Result<Found, Halt>
    requires low { Fits (bare_of here.now) base (core.value e.now) }
    requires same_world { HasWorld (bare_of here.now) m.old }
    ensures world { m.new.world ≡ m.old.world }
    ensures runs { RunsAs (bare_of here.now) frame.now base m.old m.new result (core.value e.now) }
    ensures next { EndsAt (bare_of here.now) base result (core.value e.now) }
{
    let walk = run_values::Walk {
        scene: here,
        call: &call_on,
        height: u32::MAX,
    };
    run_values::value_of(alloc, &walk, frame, e, base, m)
}

/// The first address of the object of a place: no place is above those that 32 bits count.
fn start_at(place: u64) -> Result<u64, AllocError>
    ensures { IfOk result (λ a. a ≡ start place) }
{
    if place > u64::from(u32::MAX) {
        return Err(AllocError);
    }
    Ok(start_of(place as u32))
}

/// What one initializer sets.
#[tactic(auto, using(crate::proofs::Counts::low_room))]
fn set_one(
    alloc: Global,
    here: &Bare,
    lasting: &LastingSetting,
    m: &mut Machine,
) -> Result<(), AllocError>
    requires same_world { HasWorld (bare_of here.now) m.old }
    ensures world { m.new.world ≡ m.old.world }
    ensures sets { IfOk result (λ _. codes.sets lasting.now.setting (start lasting.now.place) (level (bare_of here.now)) no_env 0 (done m.old) ≡ Some (done m.new)) }
{
    let start = start_at(lasting.place)?;
    if room_of_setting(&lasting.setting, here, &room_on) >= 1 << 63 {
        return Err(AllocError);
    }
    let steps = Steps {
        alloc,
        scene: here,
        value: value_on,
        room: room_on,
        code: (),
    };
    let frame = no_objects(alloc);
    steps.set(&lasting.setting, start, &frame, 0, m)?;
    Ok(())
}

/// What initializers set, in order, until the run ends.
fn set_all(
    alloc: Global,
    here: &Bare,
    settings: &[LastingSetting],
    m: &mut Machine,
) -> Result<(), AllocError>
    requires same_world { HasWorld (bare_of here.now) m.old }
    ensures world { m.new.world ≡ m.old.world }
    ensures sets { IfOk result (λ _. program.sets_all settings.now (level (bare_of here.now)) (done m.old) ≡ Some (done m.new)) }
{
    match settings.split_first() {
        Some((first, rest)) => {
            set_one(alloc, here, first, m)?;
            if !m.is_running() {
                return Ok(());
            }
            set_all(alloc, here, rest, m)
        }
        None => Ok(()),
    }
}

/// Does what stands before `main` is called. It fails for want of memory alone.
#[tactic(auto, using(crate::proofs::Running::begins_ended, crate::proofs::Running::begins))]
pub(crate) fn prepare(alloc: Global, here: &Bare, m: &mut Machine) -> Result<(), AllocError>
    requires same_world { HasWorld (bare_of here.now) m.old }
    ensures world { m.new.world ≡ m.old.world }
    ensures prepares { IfOk result (λ _. program.prepared (machine_of here.now.core.now here.now.world.now here.now.bounds.now) (done m.old) ≡ Some (done m.new)) }
{
    meet_all(here.core.met.as_slice(), m)?;
    make_all(here.core.objects.as_slice(), m)?;
    if !m.is_running() {
        return Ok(());
    }
    set_all(alloc, here, here.core.settings.as_slice(), m)
}
