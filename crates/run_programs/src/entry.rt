//! `main` (C99 5.1.2.2.1): what it is given, its call, and the run that it leaves.
ghost use Rattle.std.specs.Prelude.{◌≡◌, ◌+◌, ◌-◌, ◌<◌, ◌^◌, map, Some, IfOk, OnOk};
ghost use Rattle.c_machine.specs.Worth.{worth};
ghost use Rattle.c_means.specs.Units.{world_of, limits_of};
ghost use Rattle.core_tree.specs.Programs as program;
ghost use Rattle.core_tree.specs.States as states;
ghost use Rattle.core_tree.specs.States.{plain};
ghost use Rattle.core_running.specs.Running.{done};
ghost use Rattle.core_running.specs.Settings.{HasWorld};
ghost use Rattle.run_core.specs.Scenes.{machine_of};
ghost use Rattle.c_means.specs.Runs.{finish_of};
ghost use Rattle.run_programs.specs.Places.{bare_of, scene_of, value_end, main_run};

use crate::calls::{function_at, run_function};
use crate::rooms::{function_room, rooms_below, sum_of};
use c_machine::{Machine, Value};
use c_means::Kind;
use code_steps::start_of;
use core_tree::Core;
use plain_data::{Bounds, Finish, Items, Run, World};
use run_core::{Bare, Place};
use run_starts::{Arguments, argument_count};
use std::alloc::{AllocError, Global};

/// Meets so many places from one on. It fails for want of memory alone.
#[tactic(auto, using(crate::proofs::MainCall::met_none, crate::proofs::MainCall::met_more))]
fn meet_places(place: u64, count: u64, m: &mut Machine) -> Result<(), AllocError>
    ensures world { m.new.world ≡ m.old.world }
    ensures meets { OnOk result (done m.new ≡ states.meets plain place count (done m.old)) }
{
    if count == 0 {
        return Ok(());
    }
    m.meet(place)?;
    if place == u64::MAX {
        return Err(AllocError);
    }
    meet_places(place + 1, count - 1, m)
}

/// How many places the arguments of a `main` take that has any: the count, the array, and a string each.
fn argument_room(bounds: &Bounds) -> u64
    ensures { result ≡ 2 + bounds.now.arguments }
{
    u64::from(bounds.arguments) + 2
}

/// Makes the arguments of a `main` that has any, from its first place on. It fails for want of memory alone.
#[tactic(auto, using(crate::proofs::MainCall::given_none))]
fn give_arguments(here: &Bare, place: u64, m: &mut Machine) -> Result<(), AllocError>
    requires same_world { HasWorld (bare_of here.now) m.old }
    ensures world { m.new.world ≡ m.old.world }
    ensures gives { OnOk result (done m.new ≡ program.given_arguments here.now.core.now.has_arguments (machine_of here.now.core.now here.now.world.now here.now.bounds.now) place (done m.old)) }
{
    if !here.core.has_arguments {
        return Ok(());
    }
    meet_places(place, argument_room(here.bounds), m)?;
    let arguments = Arguments {
        outside: here.bounds.outside,
        most: here.bounds.arguments,
    };
    arguments.make(place, m)?;
    Ok(())
}

/// How many places the arguments of `main` take.
pub(crate) fn entry_room(core: &Core, bounds: &Bounds) -> u64
    ensures { result ≡ program.entry_room core.now (limits_of bounds.now) }
{
    if core.has_arguments {
        argument_room(bounds)
    } else {
        0
    }
}

/// The values of the arguments of `main`. It fails for want of memory alone.
fn main_values(alloc: Global, here: &Bare, place: u64) -> Result<Items<Value>, AllocError>
    ensures { IfOk result (λ values. map worth values ≡ program.main_arguments here.now.core.now.has_arguments (world_of here.now.world.now) (limits_of here.now.bounds.now) place) }
{
    let mut values = Items::new(alloc);
    if here.core.has_arguments {
        let count = argument_count(here.world, here.bounds.arguments, place);
        if place >= u64::from(u32::MAX) {
            return Err(AllocError);
        }
        let start = start_of(place as u32 + 1);
        values.push(Value::Number(i128::from(count)))?;
        values.push(Value::Number(i128::from(start)))?;
    }
    Ok(values)
}

/// How a run ends behind `main`, by where it stands and what `main` gave (C99 5.1.2.2.3). A value that is no `int`,
/// which no accepted program gives, counts as want of memory.
fn finish_in(kind: &Kind, value: Option<i128>) -> Result<Finish, AllocError>
    ensures { IfOk result (λ finish. finish ≡ finish_of kind.now value) }
{
    match kind {
        Kind::Ended(finish) => Ok(*finish),
        Kind::Running => value_finish(value),
        Kind::Breaking => value_finish(value),
        Kind::Continuing => value_finish(value),
        Kind::Returning => value_finish(value),
        Kind::Going { .. } => value_finish(value),
        Kind::Choosing { .. } => value_finish(value),
        Kind::Defaulting => value_finish(value),
    }
}

/// The end of a run whose `main` came back with this value; it is 0 where there is none.
fn value_finish(value: Option<i128>) -> Result<Finish, AllocError>
    ensures { IfOk result (λ finish. finish ≡ value_end value) }
{
    match value {
        None => Ok(Finish::Return(0)),
        Some(value) => match i32::try_from(value) {
            Ok(value) => Ok(Finish::Return(value)),
            Err(_) => Err(AllocError),
        },
    }
}

/// The run that a machine is at the end of. It fails for want of memory, as which a value that is no `int` counts.
#[tactic(auto, using(crate::proofs::Machines::reads))]
pub(crate) fn read_out(m: &mut Machine) -> Result<Run, AllocError>
    ensures { IfOk result (λ run. run ≡ program.ran (done m.old)) }
{
    let left = m.enter();
    let finish = finish_in(&left.kind, left.value)?;
    Ok(Run {
        printed: left.printed,
        events: left.events,
        finish,
    })
}

/// Calls `main` with no level left unused, its arguments from a place on, and reads the run out that it leaves.
fn call_function(
    alloc: Global,
    here: &Place,
    values: &[Value],
    base: u64,
    m: &mut Machine,
) -> Result<Run, AllocError>
    requires same_world { HasWorld (scene_of here.now) m.old }
    ensures { IfOk result (λ run. main_run here.now (map worth values.now) base (done m.old) ≡ Some run) }
{
    let room = function_room(here)?;
    let _behind = sum_of(base, room)?;
    let outer = m.enter();
    run_function(alloc, here, values, base, m)?;
    let inner = read_out(m)?;
    let mut printed = outer.printed;
    printed.append(inner.printed)?;
    Ok(Run {
        printed,
        events: inner.events,
        finish: inner.finish,
    })
}

/// The run of a program behind what stands before `main`, where that left it running. It fails for want of memory, as
/// which a program without `main` counts.
#[tactic(auto, using(crate::proofs::MainCall::main_is))]
pub(crate) fn run_main(alloc: Global, bare: &Bare, m: &mut Machine) -> Result<Run, AllocError>
    requires same_world { HasWorld (bare_of bare.now) m.old }
    ensures { IfOk result (λ run. program.maybe_ran (program.called_main (machine_of bare.now.core.now bare.now.world.now bare.now.bounds.now) (done m.old)) ≡ Some run) }
{
    let function = function_at(bare.core, bare.core.main)?;
    let place = sum_of(bare.core.places, 1)?;
    let base = sum_of(place, entry_room(bare.core, bare.bounds))?;
    let left = bare.bounds.depth - 1;
    let rooms = rooms_below(alloc, bare.core, bare.world, bare.bounds, left)?;
    give_arguments(bare, place, m)?;
    let values = main_values(alloc, bare, place)?;
    let here = Place {
        core: bare.core,
        world: bare.world,
        bounds: bare.bounds,
        rooms: &rooms,
        left,
        function,
    };
    call_function(alloc, &here, values.as_slice(), base, m)
}
