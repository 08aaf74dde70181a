//! Calls by the levels that are left: expressions, callees and bodies of functions run one another, each body one level
//! below its call.
ghost use Rattle.std.specs.Prelude.{◌≡◌, ◌+◌, ◌<◌, map, Some, slice_get, IfOk};
ghost use Rattle.c_machine.specs.Worth.{worth};
ghost use Rattle.code_steps.specs.Below.{capped};
ghost use Rattle.core_tree.specs.Callees as callees;
ghost use Rattle.core_tree.specs.Programs as program;
ghost use Rattle.core_tree.specs.States.{Output, plain, entered};
ghost use Rattle.core_tree.specs.Values as core;
ghost use Rattle.core_running.specs.Below.{value_room};
ghost use Rattle.core_running.specs.Frames.{env_of};
ghost use Rattle.core_running.specs.Running.{done, Low};
ghost use Rattle.core_running.specs.Settings.{level, HasWorld};
ghost use Rattle.run_values.specs.Forms.{Fits, RunsAs, EndsAt};
ghost use Rattle.run_core.specs.Scenes.{machine_of, setting_at};
ghost use Rattle.run_programs.specs.Places.{scene_of};

use c_machine::{Halt, Machine, Value};
use core_running::{Found, Frame};
use core_tree::{Callee, Core, Expr, Function, ValueType};
use run_callees::{leave_bounds, run_callee};
use run_codes::run_body;
use run_core::Place;
use std::alloc::{AllocError, Global};

/// How many places an expression takes, or the greatest number of 64 bits where it takes more.
pub(crate) fn room_at<'a>(here: &Place<'a>, e: &Expr) -> u64
    ensures { result ≡ capped (value_room (scene_of here.now) e.now) }
{
    run_values::value_room(here, e)
}

/// The function of a number. It fails where there is none, which no accepted program asks for.
pub(crate) fn function_at<'a>(core: &'a Core, number: u32) -> Result<&'a Function, AllocError>
    ensures { IfOk result (λ f. slice_get core.now.functions number ≡ Some f.now) }
{
    match core.functions.get(number as usize) {
        Some(function) => Ok(function),
        None => Err(AllocError),
    }
}

/// Where a function runs that is called from there.
#[tactic(auto, using(crate::proofs::Levels::fewer))]
fn below<'a>(here: &Place<'a>, function: &'a Function) -> Place<'a>
    requires { 0 < here.now.left }
    ensures lower { result.left + 1 ≡ here.now.left }
    ensures scene { scene_of result ≡ setting_at (machine_of here.now.core.now here.now.world.now here.now.bounds.now) result.left function.now }
{
    Place {
        core: here.core,
        world: here.world,
        bounds: here.bounds,
        rooms: here.rooms,
        left: here.left - 1,
        function,
    }
}

/// Evaluates an expression of a function. It fails for want of memory, and where the run ends.
#[cycle(levels)]
pub(crate) fn value_at<'a>(
    alloc: Global,
    here: &Place<'a>,
    frame: &Frame,
    e: &Expr,
    base: u64,
    m: &mut Machine,
) -> Result<Found, Halt>
    requires low { Fits (scene_of here.now) base (core.value e.now) }
    requires same_world { HasWorld (scene_of here.now) m.old }
    ensures world { m.new.world ≡ m.old.world }
    ensures runs { RunsAs (scene_of here.now) frame.now base m.old m.new result (core.value e.now) }
    ensures next { EndsAt (scene_of here.now) base result (core.value e.now) }
{
    let walk = run_values::Walk {
        scene: here,
        call: &call_at,
        height: u32::MAX,
    };
    run_values::value_of(alloc, &walk, frame, e, base, m)
}

/// Does what a callee does, with a machine on which a function begins. It fails for want of memory alone.
#[cycle(levels)]
fn call_at<'a>(
    alloc: Global,
    here: &Place<'a>,
    callee: &Callee,
    at: u32,
    to: ValueType,
    frame: &Frame,
    values: &[Value],
    base: u64,
    m: &mut Machine,
) -> Result<(), AllocError>
    requires low { Low base (callees.callee_room callee.now (scene_of here.now).measures) }
    requires same_world { HasWorld (scene_of here.now) m.old }
    ensures world { m.new.world ≡ m.old.world }
    ensures runs { (o : Output) → done m.old ≡ entered plain (done m.old).store o
        → IfOk result (λ _. callees.called (level (scene_of here.now)) callee.now at to (env_of frame.now) (map worth values.now) base (done m.old).store o ≡ Some (done m.new)) }
{
    run_callee(
        alloc, here, &body_at, callee, at, to, frame, values, base, m,
    )
}

/// Runs the body of the function of a number, one level below, with a machine on which a function begins. It fails for
/// want of memory, as which a function that isn't there is answered besides.
#[tactic(auto, using(crate::proofs::Levels::leaves))]
#[cycle(levels)]
fn body_at<'a>(
    alloc: Global,
    here: &Place<'a>,
    function: u32,
    at: u32,
    values: &[Value],
    base: u64,
    m: &mut Machine,
) -> Result<(), AllocError>
    requires low { Low base ((scene_of here.now).measures.room function) }
    requires same_world { HasWorld (scene_of here.now) m.old }
    ensures world { m.new.world ≡ m.old.world }
    ensures runs { (o : Output) → done m.old ≡ entered plain (done m.old).store o
        → IfOk result (λ _. callees.body_call (scene_of here.now).call plain at function (map worth values.now) base (done m.old).store o ≡ Some (done m.new)) }
{
    if here.left == 0 {
        leave_bounds(at, m);
        return Ok(());
    }
    let found = function_at(here.core, function)?;
    let lower = below(here, found);
    let walk = run_codes::Walk {
        scene: &lower,
        value: value_at,
        room: room_at,
        height: u32::MAX,
    };
    run_body(alloc, &walk, found, values, base, m)?;
    Ok(())
}

/// Runs the body of a function, with a machine on which a function begins. It fails for want of memory alone.
pub(crate) fn run_function<'a>(
    alloc: Global,
    here: &Place<'a>,
    values: &[Value],
    base: u64,
    m: &mut Machine,
) -> Result<(), AllocError>
    requires low { Low base (program.body_room {O = Output} (program.body_of here.now.function.now) (scene_of here.now).measures) }
    requires same_world { HasWorld (scene_of here.now) m.old }
    ensures world { m.new.world ≡ m.old.world }
    ensures runs { (o : Output) → done m.old ≡ entered plain (done m.old).store o
        → IfOk result (λ _. program.by_body (level (scene_of here.now)) (program.body_of here.now.function.now) (map worth values.now) base (done m.old).store o ≡ Some (done m.new)) }
{
    let walk = run_codes::Walk {
        scene: here,
        value: value_at,
        room: room_at,
        height: u32::MAX,
    };
    run_body(alloc, &walk, here.function, values, base, m)
}
