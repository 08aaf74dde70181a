//! Selection (C99 6.8.4).
ghost use Rattle.std.specs.Prelude.{◌≡◌, false, map, OnOk};
ghost use Rattle.core_tree.specs.Codes as form;
ghost use Rattle.core_tree.specs.Values.{value};
ghost use Rattle.core_running.specs.Below.{ReachesValue, ReachesCode};
ghost use Rattle.core_running.specs.Frames.{env_of};
ghost use Rattle.core_running.specs.Running.{done, Low};
ghost use Rattle.core_running.specs.Settings.{HasWorld};
ghost use Rattle.code_steps.specs.Below.{ReachesRoom};
ghost use Rattle.code_steps.specs.Rooms.{room_in};
ghost use Rattle.run_codes.specs.Items.{TakesAs, ActsAs};

use crate::below::Steps;
use c_machine::{Halt, Machine};
use code_steps::{branch, choose_in, past_switch};
use core_running::{Found, Frame, Scene};
use core_tree::{Code, Expr, WordType};
use plain_data::Shared;
use std::alloc::{AllocError, Global};

impl<
    'a,
    L: Scene,
    V: Fn(Global, &L, &Frame, &Expr, u64, &mut Machine) -> Result<Found, Halt>,
    R: Fn(&L, &Expr) -> u64,
    X: Fn(Global, &L, &mut Frame, &Code, u64, &mut Machine) -> Result<u64, AllocError>,
> Steps<'a, L, V, R, X> {
    /// `if` (C99 6.8.4.1p2), by its keyword.
    pub(crate) fn if_statement(
        &self,
        at: u32,
        condition: &Expr,
        positive: &Code,
        negative: &Code,
        frame: &mut Frame,
        base: u64,
        m: &mut Machine,
    ) -> Result<u64, AllocError>
        requires values { ReachesValue L.setting V.Fn self.now.scene self.now.value }
        requires rooms { ReachesRoom L.setting R.Fn self.now.scene self.now.room }
        requires codes { ReachesCode L.setting X.Fn self.now.scene self.now.code }
        requires low { Low base (room_in (L.setting self.now.scene.now) (form.if_of at (value condition.now) (form.code positive.now) (form.code negative.now))) }
        requires same_world { HasWorld (L.setting self.now.scene.now) m.old }
        ensures world { m.new.world ≡ m.old.world }
        ensures env { OnOk result (env_of frame.new ≡ env_of frame.old) }
        ensures next { TakesAs result (form.if_of at (value condition.now) (form.code positive.now) (form.code negative.now)) (L.setting self.now.scene.now) base }
        ensures runs { ActsAs result (form.if_of at (value condition.now) (form.code positive.now) (form.code negative.now)) (L.setting self.now.scene.now) (env_of frame.old) base (done m.old) (done m.new) }
    {
        if !m.is_running() {
            let sides = self.behind_value(condition, base);
            return Ok(self.behind_sides(positive, negative, sides));
        }
        match self.value(condition, frame, base, m) {
            Ok(Found { value, next }) => {
                if branch(at, &value, m)? {
                    let next = self.part(positive, frame, next, m)?;
                    Ok(self.behind_code(negative, next))
                } else {
                    let next = self.behind_code(positive, next);
                    self.part(negative, frame, next, m)
                }
            }
            Err(Halt::Over) => {
                let sides = self.behind_value(condition, base);
                Ok(self.behind_sides(positive, negative, sides))
            }
            Err(Halt::Memory) => Err(AllocError),
        }
    }

    /// `switch` (C99 6.8.4.2), by its keyword: the type in which it compares, the values of its cases in order, and the
    /// items of its body, which is entered on the way to a case.
    pub(crate) fn switch_statement(
        &self,
        at: u32,
        word: WordType,
        cases: &[i128],
        e: &Expr,
        items: &[Shared<Code>],
        frame: &mut Frame,
        base: u64,
        m: &mut Machine,
    ) -> Result<u64, AllocError>
        requires values { ReachesValue L.setting V.Fn self.now.scene self.now.value }
        requires rooms { ReachesRoom L.setting R.Fn self.now.scene self.now.room }
        requires codes { ReachesCode L.setting X.Fn self.now.scene self.now.code }
        requires low { Low base (room_in (L.setting self.now.scene.now) (form.switch_of at word cases.now (value e.now) false (map form.code items.now))) }
        requires same_world { HasWorld (L.setting self.now.scene.now) m.old }
        ensures world { m.new.world ≡ m.old.world }
        ensures env { OnOk result (env_of frame.new ≡ env_of frame.old) }
        ensures next { TakesAs result (form.switch_of at word cases.now (value e.now) false (map form.code items.now)) (L.setting self.now.scene.now) base }
        ensures runs { ActsAs result (form.switch_of at word cases.now (value e.now) false (map form.code items.now)) (L.setting self.now.scene.now) (env_of frame.old) base (done m.old) (done m.new) }
    {
        if !m.is_running() {
            let body = self.behind_value(e, base);
            return Ok(self.behind_items(items, body));
        }
        match self.value(e, frame, base, m) {
            Ok(Found { value, next }) => {
                choose_in(at, word, cases, value, m)?;
                let next = self.block(items, frame, next, m)?;
                past_switch(m);
                Ok(next)
            }
            Err(Halt::Over) => {
                let body = self.behind_value(e, base);
                Ok(self.behind_items(items, body))
            }
            Err(Halt::Memory) => Err(AllocError),
        }
    }
}
