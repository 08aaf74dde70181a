//! Assignment (C99 6.5.16, 6.5.2.4, 6.5.3.1).
ghost use Rattle.std.specs.Prelude.{◌≡◌};
ghost use Rattle.core_tree.specs.Values as core;
ghost use Rattle.core_running.specs.Below.{ReachesValue};
ghost use Rattle.core_running.specs.Settings.{HasWorld};
ghost use Rattle.run_values.specs.Forms.{Fits, RunsAs, EndsAt};
ghost use Rattle.c_machine.specs.Worth.{worth};

use crate::below::Below;
use crate::memory::{load, operated, put};
use crate::numbers::address_in;
use c_machine::{Halt, Machine, Value};
use core_running::{Found, Frame, Scene};
use core_tree::{Access, Answered, Callee, Expr, Operator, ValueType};
use std::alloc::{AllocError, Global};

/// The value that `++` or `--` has, of the one that was there and the one that was stored.
fn answered(answer: Answered, before: Value, stored: Value) -> Value
    ensures { worth result ≡ core.either_value answer (worth before) (worth stored) }
{
    match answer {
        Answered::Before => before,
        Answered::Stored => stored,
    }
}

impl<
    'a,
    L: Scene,
    V: Fn(Global, &L, &Frame, &Expr, u64, &mut Machine) -> Result<Found, Halt>,
    K: Fn(
        Global,
        &L,
        &Callee,
        u32,
        ValueType,
        &Frame,
        &[Value],
        u64,
        &mut Machine,
    ) -> Result<(), AllocError>,
> Below<'a, L, V, K> {
    /// `target = value`: the address, the value, and the store (C99 6.5.16.1).
    pub fn store(
        &self,
        at: u32,
        access: Access,
        target: &Expr,
        value: &Expr,
        base: u64,
        m: &mut Machine,
    ) -> Result<Found, Halt>
        requires values { ReachesValue L.setting V.Fn self.now.scene self.now.value }
        requires low { Fits (L.setting self.now.scene.now) base (core.store at access (core.value target.now) (core.value value.now)) }
        requires world { HasWorld (L.setting self.now.scene.now) m.old }
        ensures world { m.new.world ≡ m.old.world }
        ensures runs { RunsAs (L.setting self.now.scene.now) self.now.frame.now base m.old m.new result (core.store at access (core.value target.now) (core.value value.now)) }
        ensures next { EndsAt (L.setting self.now.scene.now) base result (core.store at access (core.value target.now) (core.value value.now)) }
    {
        let Found { value: place, next } = self.value(target, base, m)?;
        let Found { value, next } = self.value(value, next, m)?;
        let value = put(m, at, access, address_in(&place)?, value)?;
        Ok(Found { value, next })
    }

    /// `target op= value`: the target is read before the value is evaluated (C99 6.5.16.2p3).
    pub fn update(
        &self,
        at: u32,
        operator: Operator,
        access: Access,
        target: &Expr,
        value: &Expr,
        base: u64,
        m: &mut Machine,
    ) -> Result<Found, Halt>
        requires values { ReachesValue L.setting V.Fn self.now.scene self.now.value }
        requires low { Fits (L.setting self.now.scene.now) base (core.update at operator access (core.value target.now) (core.value value.now)) }
        requires world { HasWorld (L.setting self.now.scene.now) m.old }
        ensures world { m.new.world ≡ m.old.world }
        ensures runs { RunsAs (L.setting self.now.scene.now) self.now.frame.now base m.old m.new result (core.update at operator access (core.value target.now) (core.value value.now)) }
        ensures next { EndsAt (L.setting self.now.scene.now) base result (core.update at operator access (core.value target.now) (core.value value.now)) }
    {
        let Found { value: place, next } = self.value(target, base, m)?;
        let address = address_in(&place)?;
        let before = load(m, access, address)?;
        let Found { value, next } = self.value(value, next, m)?;
        let value = operated(m, at, operator, &before, &value)?;
        let value = put(m, at, access, address, value)?;
        Ok(Found { value, next })
    }

    /// `++` or `--` (C99 6.5.2.4, 6.5.3.1).
    pub fn step(
        &self,
        at: u32,
        operator: Operator,
        access: Access,
        answer: Answered,
        target: &Expr,
        base: u64,
        m: &mut Machine,
    ) -> Result<Found, Halt>
        requires values { ReachesValue L.setting V.Fn self.now.scene self.now.value }
        requires low { Fits (L.setting self.now.scene.now) base (core.step at operator access answer (core.value target.now)) }
        requires world { HasWorld (L.setting self.now.scene.now) m.old }
        ensures world { m.new.world ≡ m.old.world }
        ensures runs { RunsAs (L.setting self.now.scene.now) self.now.frame.now base m.old m.new result (core.step at operator access answer (core.value target.now)) }
        ensures next { EndsAt (L.setting self.now.scene.now) base result (core.step at operator access answer (core.value target.now)) }
    {
        let Found { value: place, next } = self.value(target, base, m)?;
        let address = address_in(&place)?;
        let before = load(m, access, address)?;
        let value = operated(m, at, operator, &before, &Value::Number(1))?;
        let stored = put(m, at, access, address, value)?;
        Ok(Found {
            value: answered(answer, before, stored),
            next,
        })
    }
}
