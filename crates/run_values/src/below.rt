//! The parts of an expression are run by functions that are handed in, so that each form is a function by itself.
ghost use Rattle.std.specs.Prelude.{◌≡◌};
ghost use Rattle.core_tree.specs.Values as core;
ghost use Rattle.core_running.specs.Below.{ReachesValue};
ghost use Rattle.core_running.specs.Settings.{HasWorld};
ghost use Rattle.run_values.specs.Forms.{Fits, RunsAs, EndsAt};

use c_machine::{Halt, Machine, Value};
use core_running::{Found, Frame, Scene};
use core_tree::{Callee, Expr, ValueType};
use std::alloc::{AllocError, Global};

/// What runs the parts of an expression: `value` evaluates one, from its first place on, and `call` does what a callee
/// does.
#[derive(Clone, Copy)]
pub struct Below<'a, L, V, K> {
    pub alloc: Global,
    pub scene: &'a L,
    pub frame: &'a Frame,
    pub value: V,
    pub call: K,
}

impl<
    'a,
    L: Scene,
    V: Fn(Global, &L, &Frame, &Expr, u64, &mut Machine) -> Result<Found, Halt>,
    K: Fn(
        Global,
        &L,
        &Callee,
        u32,
        ValueType,
        &Frame,
        &[Value],
        u64,
        &mut Machine,
    ) -> Result<(), AllocError>,
> Below<'a, L, V, K> {
    /// Evaluates a part.
    pub(crate) fn value(&self, e: &Expr, base: u64, m: &mut Machine) -> Result<Found, Halt>
        requires values { ReachesValue L.setting V.Fn self.now.scene self.now.value }
        requires low { Fits (L.setting self.now.scene.now) base (core.value e.now) }
        requires world { HasWorld (L.setting self.now.scene.now) m.old }
        ensures world { m.new.world ≡ m.old.world }
        ensures runs { RunsAs (L.setting self.now.scene.now) self.now.frame.now base m.old m.new result (core.value e.now) }
        ensures next { EndsAt (L.setting self.now.scene.now) base result (core.value e.now) }
    {
        (self.value)(self.alloc, self.scene, self.frame, e, base, m)
    }
}
