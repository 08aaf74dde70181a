//! Operators that do not evaluate all of their operands (C99 6.5.13 to 6.5.15).
ghost use Rattle.std.specs.Prelude.{◌≡◌};
ghost use Rattle.core_tree.specs.Values as core;
ghost use Rattle.core_running.specs.Below.{ReachesValue};
ghost use Rattle.core_running.specs.Settings.{HasWorld};
ghost use Rattle.run_values.specs.Forms.{Fits, RunsAs, EndsAt};

use crate::below::Below;
use crate::numbers::truth;
use crate::rooms::room_behind;
use crate::steps::branch;
use c_machine::{Halt, Machine, Value};
use core_running::{Found, Frame, Scene};
use core_tree::{Callee, Expr, ValueType};
use std::alloc::{AllocError, Global};

impl<
    'a,
    L: Scene,
    V: Fn(Global, &L, &Frame, &Expr, u64, &mut Machine) -> Result<Found, Halt>,
    K: Fn(
        Global,
        &L,
        &Callee,
        u32,
        ValueType,
        &Frame,
        &[Value],
        u64,
        &mut Machine,
    ) -> Result<(), AllocError>,
> Below<'a, L, V, K> {
    /// `left && right` (C99 6.5.13p4).
    pub fn both(
        &self,
        at: u32,
        left: &Expr,
        right: &Expr,
        base: u64,
        m: &mut Machine,
    ) -> Result<Found, Halt>
        requires values { ReachesValue L.setting V.Fn self.now.scene self.now.value }
        requires low { Fits (L.setting self.now.scene.now) base (core.both at (core.value left.now) (core.value right.now)) }
        requires world { HasWorld (L.setting self.now.scene.now) m.old }
        ensures world { m.new.world ≡ m.old.world }
        ensures runs { RunsAs (L.setting self.now.scene.now) self.now.frame.now base m.old m.new result (core.both at (core.value left.now) (core.value right.now)) }
        ensures next { EndsAt (L.setting self.now.scene.now) base result (core.both at (core.value left.now) (core.value right.now)) }
    {
        let Found { value, next } = self.value(left, base, m)?;
        if branch(m, at, &value)? {
            let Found { value, next } = self.value(right, next, m)?;
            Ok(Found {
                value: truth(&value),
                next,
            })
        } else {
            Ok(Found {
                value: Value::Number(0),
                next: room_behind(self.scene, right, next),
            })
        }
    }

    /// `left || right` (C99 6.5.14p4).
    pub fn either(
        &self,
        at: u32,
        left: &Expr,
        right: &Expr,
        base: u64,
        m: &mut Machine,
    ) -> Result<Found, Halt>
        requires values { ReachesValue L.setting V.Fn self.now.scene self.now.value }
        requires low { Fits (L.setting self.now.scene.now) base (core.either at (core.value left.now) (core.value right.now)) }
        requires world { HasWorld (L.setting self.now.scene.now) m.old }
        ensures world { m.new.world ≡ m.old.world }
        ensures runs { RunsAs (L.setting self.now.scene.now) self.now.frame.now base m.old m.new result (core.either at (core.value left.now) (core.value right.now)) }
        ensures next { EndsAt (L.setting self.now.scene.now) base result (core.either at (core.value left.now) (core.value right.now)) }
    {
        let Found { value, next } = self.value(left, base, m)?;
        if branch(m, at, &value)? {
            Ok(Found {
                value: Value::Number(1),
                next: room_behind(self.scene, right, next),
            })
        } else {
            let Found { value, next } = self.value(right, next, m)?;
            Ok(Found {
                value: truth(&value),
                next,
            })
        }
    }

    /// `condition ? positive : negative` (C99 6.5.15p4): both have places, the first one's first.
    pub fn choose(
        &self,
        at: u32,
        condition: &Expr,
        positive: &Expr,
        negative: &Expr,
        base: u64,
        m: &mut Machine,
    ) -> Result<Found, Halt>
        requires values { ReachesValue L.setting V.Fn self.now.scene self.now.value }
        requires low { Fits (L.setting self.now.scene.now) base (core.choose at (core.value condition.now) (core.value positive.now) (core.value negative.now)) }
        requires world { HasWorld (L.setting self.now.scene.now) m.old }
        ensures world { m.new.world ≡ m.old.world }
        ensures runs { RunsAs (L.setting self.now.scene.now) self.now.frame.now base m.old m.new result (core.choose at (core.value condition.now) (core.value positive.now) (core.value negative.now)) }
        ensures next { EndsAt (L.setting self.now.scene.now) base result (core.choose at (core.value condition.now) (core.value positive.now) (core.value negative.now)) }
    {
        let Found { value, next } = self.value(condition, base, m)?;
        if branch(m, at, &value)? {
            let Found { value, next } = self.value(positive, next, m)?;
            Ok(Found {
                value,
                next: room_behind(self.scene, negative, next),
            })
        } else {
            let next = room_behind(self.scene, positive, next);
            self.value(negative, next, m)
        }
    }
}
