//! What is called (C99 6.5.2.2): a call begins with nothing printed, noted or met.
ghost use Rattle.std.specs.Prelude.{◌≡◌, map, Some, IfOk};
ghost use Rattle.c_machine.specs.Worth.{worth};
ghost use Rattle.core_running.specs.Frames.{env_of};
ghost use Rattle.core_running.specs.Running.{done, Low};
ghost use Rattle.core_running.specs.Settings.{level, HasWorld};
ghost use Rattle.core_tree.specs.Callees as callees;
ghost use Rattle.core_tree.specs.States.{Output, finished, entered, plain};
ghost use Rattle.run_callees.specs.Bodies.{ReachesBody};

use crate::answers::finish;
use crate::heap::{Heap, exit, free, identity};
use crate::logs::LogCall;
use crate::outside::Outside;
use c_machine::{Machine, Value};
use core_running::{Frame, Scene};
use core_tree::{Callee, ValueType};
use plain_data::Finish;
use std::alloc::{AllocError, Global};

/// A call by body where no level of depth is left: the run leaves the bounds at the callee's name.
pub fn leave_bounds(at: u32, m: &mut Machine)
    ensures world { m.new.world ≡ m.old.world }
    ensures leaves { done m.new ≡ finished (Finish.Left at) (done m.old) }
{
    finish(Finish::Left { at }, m);
}

/// Runs the body of a function by what is handed in.
fn call_body<L: Scene, B>(
    alloc: Global,
    here: &L,
    body: &B,
    function: u32,
    at: u32,
    values: &[Value],
    place: u64,
    m: &mut Machine,
) -> Result<(), AllocError>
where
    B: Fn(Global, &L, u32, u32, &[Value], u64, &mut Machine) -> Result<(), AllocError>,
    requires bodies { ReachesBody L.setting B.Fn here body.now }
    requires low { Low place ((L.setting here.now).measures.room function) }
    requires world { HasWorld (L.setting here.now) m.old }
    ensures world { m.new.world ≡ m.old.world }
    ensures runs { (o : Output) → done m.old ≡ entered plain (done m.old).store o
        → IfOk result (λ _. callees.body_call (L.setting here.now).call plain at function (map worth values.now) place (done m.old).store o ≡ Some (done m.new)) }
{
    body(alloc, here, function, at, values, place, m)
}

/// Does what a callee does, with a machine on which a function begins; a call by body is run by what is handed in. It
/// fails for want of memory alone.
pub fn run_callee<L: Scene, B>(
    alloc: Global,
    here: &L,
    body: &B,
    callee: &Callee,
    at: u32,
    to: ValueType,
    frame: &Frame,
    values: &[Value],
    place: u64,
    m: &mut Machine,
) -> Result<(), AllocError>
where
    B: Fn(Global, &L, u32, u32, &[Value], u64, &mut Machine) -> Result<(), AllocError>,
    requires bodies { ReachesBody L.setting B.Fn here body.now }
    requires low { Low place (callees.callee_room callee.now (L.setting here.now).measures) }
    requires world { HasWorld (L.setting here.now) m.old }
    ensures world { m.new.world ≡ m.old.world }
    ensures runs { (o : Output) → done m.old ≡ entered plain (done m.old).store o
        → IfOk result (λ _. callees.called (level (L.setting here.now)) callee.now at to (env_of frame.now) (map worth values.now) place (done m.old).store o ≡ Some (done m.new)) }
{
    match callee {
        Callee::Body { function } => {
            call_body(alloc, here, body, *function, at, values, place, m)?;
            Ok(())
        }
        Callee::Log {
            pieces,
            before,
            types,
            watched,
        } => {
            let log = LogCall {
                alloc,
                at,
                to,
                pieces,
                before: *before,
                types: types.as_slice(),
                watched: watched.as_slice(),
            };
            log.call(frame, values, place, m)?;
            Ok(())
        }
        Callee::Identity { index } => {
            identity(to, *index, values, m)?;
            Ok(())
        }
        Callee::Exit => {
            exit(values, m)?;
            Ok(())
        }
        Callee::Abort => {
            finish(Finish::Abort, m);
            Ok(())
        }
        Callee::Malloc => {
            let bound = here.heap();
            Heap { bound, at, to }.malloc(values, place, m)?;
            Ok(())
        }
        Callee::Calloc => {
            let bound = here.heap();
            Heap { bound, at, to }.calloc(values, place, m)?;
            Ok(())
        }
        Callee::Free => {
            free(at, values, m);
            Ok(())
        }
        Callee::Outside { answer, fill } => {
            let outside = Outside {
                alloc,
                heap: here.heap(),
                text: here.outside(),
                at,
                to,
                answer: *answer,
            };
            outside.call(fill, values, place, m)?;
            Ok(())
        }
    }
}
