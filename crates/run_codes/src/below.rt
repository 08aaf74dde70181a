//! The parts of a node are run by functions that are handed in, so that each form is a function by itself.
ghost use Rattle.std.specs.Prelude.{◌≡◌, ◌+◌, OnOk, IfOk};
ghost use Rattle.c_machine.specs.Worth.{worth};
ghost use Rattle.core_tree.specs.Values.{value};
ghost use Rattle.core_tree.specs.Codes.{code};
ghost use Rattle.core_running.specs.Below.{ReachesValue, ReachesCode, value_room, code_room};
ghost use Rattle.core_running.specs.Frames.{env_of};
ghost use Rattle.core_running.specs.Running.{done, Low, RunsTo};
ghost use Rattle.core_running.specs.Settings.{level, HasWorld};
ghost use Rattle.code_steps.specs.Below.{ReachesRoom};
ghost use Rattle.code_steps.specs.Rooms.{items_room};
ghost use Rattle.run_codes.specs.Items.{TakesAs, ActsAs};

use c_machine::{Halt, Machine};
use code_steps::{room_of_code, room_of_items, room_of_value};
use core_running::{Found, Frame, Scene};
use core_tree::{Code, Expr};
use plain_data::Shared;
use std::alloc::{AllocError, Global};

/// What runs the parts of code: `value` evaluates an expression, `room` tells how many places one takes that isn't
/// evaluated, and `code` runs code. Each that runs a part is handed the part's first place.
#[derive(Clone, Copy)]
pub struct Steps<'a, L, V, R, X> {
    pub alloc: Global,
    pub scene: &'a L,
    pub value: V,
    pub room: R,
    pub code: X,
}

impl<
    'a,
    L: Scene,
    V: Fn(Global, &L, &Frame, &Expr, u64, &mut Machine) -> Result<Found, Halt>,
    R,
    X,
> Steps<'a, L, V, R, X> {
    /// Evaluates an expression.
    pub(crate) fn value(
        &self,
        e: &Expr,
        frame: &Frame,
        base: u64,
        m: &mut Machine,
    ) -> Result<Found, Halt>
        requires values { ReachesValue L.setting V.Fn self.now.scene self.now.value }
        requires low { Low base (value_room (L.setting self.now.scene.now) e.now) }
        requires same_world { HasWorld (L.setting self.now.scene.now) m.old }
        ensures world { m.new.world ≡ m.old.world }
        ensures next { IfOk result (λ x. x.next ≡ base + value_room (L.setting self.now.scene.now) e.now) }
        ensures runs { RunsTo (λ x. worth x.value) result (done m.new) ((value e.now).run (level (L.setting self.now.scene.now)) (env_of frame.now) base (done m.old)) }
    {
        (self.value)(self.alloc, self.scene, frame, e, base, m)
    }
}

impl<
    'a,
    L: Scene,
    V,
    R,
    X: Fn(Global, &L, &mut Frame, &Code, u64, &mut Machine) -> Result<u64, AllocError>,
> Steps<'a, L, V, R, X> {
    /// Runs a part, and answers the first place behind its own.
    pub(crate) fn part(
        &self,
        c: &Code,
        frame: &mut Frame,
        base: u64,
        m: &mut Machine,
    ) -> Result<u64, AllocError>
        requires codes { ReachesCode L.setting X.Fn self.now.scene self.now.code }
        requires low { Low base (code_room (L.setting self.now.scene.now) c.now) }
        requires same_world { HasWorld (L.setting self.now.scene.now) m.old }
        ensures world { m.new.world ≡ m.old.world }
        ensures env { OnOk result (env_of frame.new ≡ env_of frame.old) }
        ensures next { TakesAs result (code c.now) (L.setting self.now.scene.now) base }
        ensures runs { ActsAs result (code c.now) (L.setting self.now.scene.now) (env_of frame.old) base (done m.old) (done m.new) }
    {
        (self.code)(self.alloc, self.scene, frame, c, base, m)
    }
}

impl<'a, L: Scene, V, R: Fn(&L, &Expr) -> u64, X> Steps<'a, L, V, R, X> {
    /// The first place behind those of an expression that isn't evaluated.
    pub(crate) fn behind_value(&self, e: &Expr, base: u64) -> u64
        requires rooms { ReachesRoom L.setting R.Fn self.now.scene self.now.room }
        requires low { Low base (value_room (L.setting self.now.scene.now) e.now) }
        ensures { result ≡ base + value_room (L.setting self.now.scene.now) e.now }
    {
        base + room_of_value(e, self.scene, &self.room)
    }

    /// The first place behind those of code that isn't run.
    pub(crate) fn behind_code(&self, c: &Code, base: u64) -> u64
        requires rooms { ReachesRoom L.setting R.Fn self.now.scene self.now.room }
        requires low { Low base (code_room (L.setting self.now.scene.now) c.now) }
        ensures { result ≡ base + code_room (L.setting self.now.scene.now) c.now }
    {
        base + room_of_code(c, self.scene, &self.room)
    }

    /// The first place behind those of items that aren't run.
    pub(crate) fn behind_items(&self, items: &[Shared<Code>], base: u64) -> u64
        requires rooms { ReachesRoom L.setting R.Fn self.now.scene self.now.room }
        requires low { Low base (items_room (L.setting self.now.scene.now) items.now) }
        ensures { result ≡ base + items_room (L.setting self.now.scene.now) items.now }
    {
        base + room_of_items(items, self.scene, &self.room)
    }

    /// The first place behind those of an `if` of which no side is run, from where its sides' places begin.
    pub(crate) fn behind_sides(&self, positive: &Code, negative: &Code, base: u64) -> u64
        requires rooms { ReachesRoom L.setting R.Fn self.now.scene self.now.room }
        requires low { Low base (code_room (L.setting self.now.scene.now) positive.now + code_room (L.setting self.now.scene.now) negative.now) }
        ensures { result ≡ base + (code_room (L.setting self.now.scene.now) positive.now + code_room (L.setting self.now.scene.now) negative.now) }
    {
        self.behind_code(negative, self.behind_code(positive, base))
    }
}
