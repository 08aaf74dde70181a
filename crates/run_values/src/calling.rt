//! Calls (C99 6.5.2.2).
ghost use Rattle.std.specs.Prelude.{◌≡◌};
ghost use Rattle.core_tree.specs.Values as core;
ghost use Rattle.core_running.specs.Below.{ReachesValue};
ghost use Rattle.core_running.specs.Settings.{HasWorld};
ghost use Rattle.run_values.specs.Forms.{Fits, RunsAs, EndsAt};
ghost use Rattle.std.specs.Prelude.{◌+◌, map, IfOk};
ghost use Rattle.plain_data.specs.declared.run.Happening.TheVariants.{Call};
ghost use Rattle.c_machine.specs.Worth.{worth};
ghost use Rattle.core_tree.specs.Callees.{callee_room};
ghost use Rattle.core_tree.specs.States as states;
ghost use Rattle.core_running.specs.Below.{ReachesCall};
ghost use Rattle.core_running.specs.Frames.{env_of};
ghost use Rattle.core_running.specs.Running.{done, Low, RunsTo};
ghost use Rattle.core_running.specs.Settings.{level};
ghost use Rattle.run_values.specs.Arguments.{values_behind, values_of};
ghost use Rattle.run_values.specs.Places.{rooms_of};
ghost use Rattle.run_values.specs.Steps.{Runs};

use crate::below::Below;
use crate::rooms::callee_behind;
use crate::steps::{needed, note};
use c_machine::{Halt, Machine, Value};
use core_running::{Found, Frame, Scene};
use core_tree::{Callee, Expr, ValueType};
use plain_data::{Happening, Items, Shared};
use std::alloc::{AllocError, Global};

/// The values of arguments, and the first place behind theirs.
#[derive(Drop)]
pub struct Passed {
    pub values: Items<Value>,
    pub next: u64,
}

impl<
    'a,
    L: Scene,
    V: Fn(Global, &L, &Frame, &Expr, u64, &mut Machine) -> Result<Found, Halt>,
    K: Fn(
        Global,
        &L,
        &Callee,
        u32,
        ValueType,
        &Frame,
        &[Value],
        u64,
        &mut Machine,
    ) -> Result<(), AllocError>,
> Below<'a, L, V, K> {
    /// Arguments behind others, from left to right.
    fn arguments_behind(
        &self,
        items: &[Shared<Expr>],
        values: Items<Value>,
        base: u64,
        m: &mut Machine,
    ) -> Result<Passed, Halt>
        requires values { ReachesValue L.setting V.Fn self.now.scene self.now.value }
        requires low { Low base (rooms_of (L.setting self.now.scene.now) items.now) }
        requires world { HasWorld (L.setting self.now.scene.now) m.old }
        ensures world { m.new.world ≡ m.old.world }
        ensures runs { RunsTo (λ x. map worth x.values) result (done m.new)
            (values_behind (map worth values) (values_of items.now) (level (L.setting self.now.scene.now)) (env_of self.now.frame.now) base (done m.old)) }
        ensures next { IfOk result (λ x. x.next ≡ base + rooms_of (L.setting self.now.scene.now) items.now) }
    {
        match items.split_first() {
            Some((first, rest)) => {
                let Found { value, next } = self.value(first.get(), base, m)?;
                let mut values = values;
                values.push(value)?;
                self.arguments_behind(rest, values, next, m)
            }
            None => Ok(Passed { values, next: base }),
        }
    }

    /// Arguments, from left to right (C99 6.5.2.2p10).
    fn arguments(&self, items: &[Shared<Expr>], base: u64, m: &mut Machine) -> Result<Passed, Halt>
        requires values { ReachesValue L.setting V.Fn self.now.scene self.now.value }
        requires low { Low base (rooms_of (L.setting self.now.scene.now) items.now) }
        requires world { HasWorld (L.setting self.now.scene.now) m.old }
        ensures world { m.new.world ≡ m.old.world }
        ensures runs { RunsTo (λ x. map worth x.values) result (done m.new)
            (core.arguments (values_of items.now) (level (L.setting self.now.scene.now)) (env_of self.now.frame.now) base (done m.old)) }
        ensures next { IfOk result (λ x. x.next ≡ base + rooms_of (L.setting self.now.scene.now) items.now) }
    {
        self.arguments_behind(items, Items::new(self.alloc), base, m)
    }

    /// The event of a call, and what the callee does with the values of its arguments, from the first place that is
    /// given to it.
    fn acting(
        &self,
        at: u32,
        callee: &Callee,
        answer: ValueType,
        values: &[Value],
        base: u64,
        m: &mut Machine,
    ) -> Result<Option<i128>, Halt>
        requires calls { ReachesCall L.setting K.Fn self.now.scene self.now.call }
        requires low { Low base (callee_room callee.now (L.setting self.now.scene.now).measures) }
        requires world { HasWorld (L.setting self.now.scene.now) m.old }
        ensures world { m.new.world ≡ m.old.world }
        ensures runs { Runs result (done m.new)
            (core.acting callee.now at answer (level (L.setting self.now.scene.now)) (env_of self.now.frame.now) (map worth values.now) base
            (states.note states.plain (Call at) (done m.old))) }
    {
        note(m, Happening::Call { at })?;
        let caller = m.enter();
        (self.call)(
            self.alloc, self.scene, callee, at, answer, self.frame, values, base, m,
        )?;
        m.resume(caller)
    }

    /// A call: the arguments from left to right, the event, what is called, and its answer (C99 6.5.2.2).
    pub fn call(
        &self,
        at: u32,
        arguments: &[Shared<Expr>],
        callee: &Callee,
        answer: ValueType,
        is_used: bool,
        base: u64,
        m: &mut Machine,
    ) -> Result<Found, Halt>
        requires values { ReachesValue L.setting V.Fn self.now.scene self.now.value }
        requires calls { ReachesCall L.setting K.Fn self.now.scene self.now.call }
        requires low { Fits (L.setting self.now.scene.now) base (core.call at (values_of arguments.now) callee.now answer is_used) }
        requires world { HasWorld (L.setting self.now.scene.now) m.old }
        ensures world { m.new.world ≡ m.old.world }
        ensures runs { RunsAs (L.setting self.now.scene.now) self.now.frame.now base m.old m.new result (core.call at (values_of arguments.now) callee.now answer is_used) }
        ensures next { EndsAt (L.setting self.now.scene.now) base result (core.call at (values_of arguments.now) callee.now answer is_used) }
    {
        let Passed { values, next } = self.arguments(arguments, base, m)?;
        let outcome = self.acting(at, callee, answer, values.as_slice(), next, m)?;
        let number = needed(m, is_used, at, answer, outcome)?;
        Ok(Found {
            value: Value::Number(number),
            next: callee_behind(self.scene, callee, next),
        })
    }
}
