//! Forms over two values that are both evaluated (C99 6.5.5 to 6.5.12, 6.5.17).
ghost use Rattle.std.specs.Prelude.{◌≡◌};
ghost use Rattle.core_tree.specs.Values as core;
ghost use Rattle.core_running.specs.Below.{ReachesValue};
ghost use Rattle.core_running.specs.Settings.{HasWorld};
ghost use Rattle.run_values.specs.Forms.{Fits, RunsAs, EndsAt};

use crate::below::Below;
use crate::memory::operated;
use c_machine::{Halt, Machine, Value};
use core_running::{Found, Frame, Scene};
use core_tree::{Callee, Expr, Operator, ValueType};
use std::alloc::{AllocError, Global};

impl<
    'a,
    L: Scene,
    V: Fn(Global, &L, &Frame, &Expr, u64, &mut Machine) -> Result<Found, Halt>,
    K: Fn(
        Global,
        &L,
        &Callee,
        u32,
        ValueType,
        &Frame,
        &[Value],
        u64,
        &mut Machine,
    ) -> Result<(), AllocError>,
> Below<'a, L, V, K> {
    /// An operator on two values, the left one first.
    pub fn operate(
        &self,
        at: u32,
        operator: Operator,
        left: &Expr,
        right: &Expr,
        base: u64,
        m: &mut Machine,
    ) -> Result<Found, Halt>
        requires values { ReachesValue L.setting V.Fn self.now.scene self.now.value }
        requires low { Fits (L.setting self.now.scene.now) base (core.operate at operator (core.value left.now) (core.value right.now)) }
        requires world { HasWorld (L.setting self.now.scene.now) m.old }
        ensures world { m.new.world ≡ m.old.world }
        ensures runs { RunsAs (L.setting self.now.scene.now) self.now.frame.now base m.old m.new result (core.operate at operator (core.value left.now) (core.value right.now)) }
        ensures next { EndsAt (L.setting self.now.scene.now) base result (core.operate at operator (core.value left.now) (core.value right.now)) }
    {
        let Found { value: x, next } = self.value(left, base, m)?;
        let Found { value: y, next } = self.value(right, next, m)?;
        let value = operated(m, at, operator, &x, &y)?;
        Ok(Found { value, next })
    }

    /// `first, second` (C99 6.5.17).
    pub fn comma(
        &self,
        first: &Expr,
        second: &Expr,
        base: u64,
        m: &mut Machine,
    ) -> Result<Found, Halt>
        requires values { ReachesValue L.setting V.Fn self.now.scene self.now.value }
        requires low { Fits (L.setting self.now.scene.now) base (core.comma (core.value first.now) (core.value second.now)) }
        requires world { HasWorld (L.setting self.now.scene.now) m.old }
        ensures world { m.new.world ≡ m.old.world }
        ensures runs { RunsAs (L.setting self.now.scene.now) self.now.frame.now base m.old m.new result (core.comma (core.value first.now) (core.value second.now)) }
        ensures next { EndsAt (L.setting self.now.scene.now) base result (core.comma (core.value first.now) (core.value second.now)) }
    {
        let Found { next, .. } = self.value(first, base, m)?;
        self.value(second, next, m)
    }
}
