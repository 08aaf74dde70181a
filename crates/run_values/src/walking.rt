//! The walk: each level of an expression is evaluated over the walk at one level less.
ghost use Rattle.std.specs.Prelude.{◌≡◌, map, Some, IfOk};
ghost use Rattle.c_machine.specs.Worth.{worth};
ghost use Rattle.core_tree.specs.Callees.{callee_room};
ghost use Rattle.core_tree.specs.Callees as callees;
ghost use Rattle.core_tree.specs.States.{Output, plain, entered};
ghost use Rattle.core_tree.specs.Values as core;
ghost use Rattle.core_running.specs.Below.{ReachesCall};
ghost use Rattle.core_running.specs.Frames.{env_of};
ghost use Rattle.core_running.specs.Running.{done, Low};
ghost use Rattle.core_running.specs.Settings.{HasWorld, level};
ghost use Rattle.run_values.specs.Forms.{Fits, RunsAs, EndsAt};

use crate::below::Below;
use c_machine::{Halt, Machine, Value};
use core_running::{Found, Frame, Scene};
use core_tree::{Callee, Expr, ValueType};
use std::alloc::{AllocError, Global};

/// What a function runs in, what does what callees do, and how many levels of an expression are gone down into.
#[derive(Clone, Copy)]
pub struct Walk<'a, L, K> {
    pub scene: &'a L,
    pub call: &'a K,
    pub height: u32,
}

impl<'a, L: Scene, K> Scene for Walk<'a, L, K> {
    ghost setting = { λ w. L.setting w.scene.now };

    fn turns(&self) -> u32 {
        self.scene.turns()
    }

    fn room(&self, function: u32) -> u64 {
        self.scene.room(function)
    }

    fn heap(&self) -> u32 {
        self.scene.heap()
    }

    fn outside(&self) -> u32 {
        self.scene.outside()
    }
}

/// What a callee does, by what the walk was given.
fn called<
    'a,
    L: Scene,
    K: Fn(
        Global,
        &L,
        &Callee,
        u32,
        ValueType,
        &Frame,
        &[Value],
        u64,
        &mut Machine,
    ) -> Result<(), AllocError>,
>(
    alloc: Global,
    here: &Walk<'a, L, K>,
    callee: &Callee,
    at: u32,
    answer: ValueType,
    frame: &Frame,
    values: &[Value],
    base: u64,
    m: &mut Machine,
) -> Result<(), AllocError>
    requires calls { ReachesCall L.setting K.Fn here.now.scene here.now.call.now }
    requires low { Low base (callee_room callee.now (L.setting here.now.scene.now).measures) }
    requires world { HasWorld (L.setting here.now.scene.now) m.old }
    ensures world { m.new.world ≡ m.old.world }
    ensures runs { (o : Output) → done m.old ≡ entered plain (done m.old).store o
        → IfOk result (λ _. callees.called (level (L.setting here.now.scene.now)) callee.now at answer (env_of frame.now) (map worth values.now) base
        (done m.old).store o ≡ Some (done m.new)) }
{
    (here.call)(
        alloc, here.scene, callee, at, answer, frame, values, base, m,
    )
}

/// Evaluates an expression. It fails for want of memory, as which a tree of more levels than the walk goes down into is
/// answered besides, and where the run ends.
pub fn value_of<
    'a,
    L: Scene,
    K: Fn(
        Global,
        &L,
        &Callee,
        u32,
        ValueType,
        &Frame,
        &[Value],
        u64,
        &mut Machine,
    ) -> Result<(), AllocError>,
>(
    alloc: Global,
    here: &Walk<'a, L, K>,
    frame: &Frame,
    e: &Expr,
    base: u64,
    m: &mut Machine,
) -> Result<Found, Halt>
    requires calls { ReachesCall L.setting K.Fn here.now.scene here.now.call.now }
    requires low { Fits (L.setting here.now.scene.now) base (core.value e.now) }
    requires world { HasWorld (L.setting here.now.scene.now) m.old }
    ensures world { m.new.world ≡ m.old.world }
    ensures runs { RunsAs (L.setting here.now.scene.now) frame.now base m.old m.new result (core.value e.now) }
    ensures next { EndsAt (L.setting here.now.scene.now) base result (core.value e.now) }
{
    if here.height == 0 {
        return Err(Halt::Memory);
    }
    let lower = Walk {
        scene: here.scene,
        call: here.call,
        height: here.height - 1,
    };
    let below = Below {
        alloc,
        scene: &lower,
        frame,
        value: value_of,
        call: called,
    };
    below.evaluate(e, base, m)
}
