//! Expressions as statements, and `return` (C99 6.8.3, 6.8.6.4).
ghost use Rattle.std.specs.Prelude.{◌≡◌, false, option_map, Some};
ghost use Rattle.core_tree.specs.Codes as form;
ghost use Rattle.core_tree.specs.Values.{value};
ghost use Rattle.core_running.specs.Below.{ReachesValue, value_room};
ghost use Rattle.core_running.specs.Frames.{env_of};
ghost use Rattle.core_running.specs.Running.{done, Low};
ghost use Rattle.core_running.specs.Settings.{level, HasWorld};
ghost use Rattle.code_steps.specs.Below.{ReachesRoom};
ghost use Rattle.run_codes.specs.Items.{TakesAs, ActsAs};
ghost use Rattle.code_steps.specs.Rooms.{option_room};

use crate::below::Steps;
use c_machine::{Halt, Machine, Value};
use c_means::Kind;
use code_steps::{give, jump};
use core_running::{Found, Frame, Scene};
use core_tree::Expr;
use plain_data::Shared;
use std::alloc::{AllocError, Global};

impl<
    'a,
    L: Scene,
    V: Fn(Global, &L, &Frame, &Expr, u64, &mut Machine) -> Result<Found, Halt>,
    R: Fn(&L, &Expr) -> u64,
    X,
> Steps<'a, L, V, R, X> {
    /// An expression whose value isn't used (C99 6.8.3p2).
    pub(crate) fn expression(
        &self,
        e: &Expr,
        frame: &Frame,
        base: u64,
        m: &mut Machine,
    ) -> Result<u64, AllocError>
        requires values { ReachesValue L.setting V.Fn self.now.scene self.now.value }
        requires rooms { ReachesRoom L.setting R.Fn self.now.scene self.now.room }
        requires low { Low base (value_room (L.setting self.now.scene.now) e.now) }
        requires same_world { HasWorld (L.setting self.now.scene.now) m.old }
        ensures world { m.new.world ≡ m.old.world }
        ensures next { TakesAs result (form.evaluated false (value e.now)) (L.setting self.now.scene.now) base }
        ensures runs { ActsAs result (form.evaluated false (value e.now)) (L.setting self.now.scene.now) (env_of frame.now) base (done m.old) (done m.new) }
    {
        if !m.is_running() {
            return Ok(self.behind_value(e, base));
        }
        match self.value(e, frame, base, m) {
            Ok(Found { next, .. }) => Ok(next),
            Err(Halt::Over) => Ok(self.behind_value(e, base)),
            Err(Halt::Memory) => Err(AllocError),
        }
    }

    /// `return` with a value (C99 6.8.6.4p3). A structure, which no accepted program gives so, counts as want of
    /// memory.
    fn value_return(
        &self,
        e: &Expr,
        frame: &Frame,
        base: u64,
        m: &mut Machine,
    ) -> Result<u64, AllocError>
        requires values { ReachesValue L.setting V.Fn self.now.scene self.now.value }
        requires rooms { ReachesRoom L.setting R.Fn self.now.scene self.now.room }
        requires low { Low base (value_room (L.setting self.now.scene.now) e.now) }
        requires same_world { HasWorld (L.setting self.now.scene.now) m.old }
        ensures world { m.new.world ≡ m.old.world }
        ensures next { TakesAs result (form.return_of (Some (value e.now))) (L.setting self.now.scene.now) base }
        ensures runs { ActsAs result (form.return_of (Some (value e.now))) (L.setting self.now.scene.now) (env_of frame.now) base (done m.old) (done m.new) }
    {
        if !m.is_running() {
            return Ok(self.behind_value(e, base));
        }
        match self.value(e, frame, base, m) {
            Ok(Found { value, next }) => match value {
                Value::Number(number) => {
                    give(number, m);
                    Ok(next)
                }
                Value::Bytes(_) => Err(AllocError),
            },
            Err(Halt::Over) => Ok(self.behind_value(e, base)),
            Err(Halt::Memory) => Err(AllocError),
        }
    }

    /// `return` (C99 6.8.6.4).
    pub(crate) fn return_statement(
        &self,
        e: &Option<Shared<Expr>>,
        frame: &Frame,
        base: u64,
        m: &mut Machine,
    ) -> Result<u64, AllocError>
        requires values { ReachesValue L.setting V.Fn self.now.scene self.now.value }
        requires rooms { ReachesRoom L.setting R.Fn self.now.scene self.now.room }
        requires low { Low base (option_room (L.setting self.now.scene.now) e.now) }
        requires same_world { HasWorld (L.setting self.now.scene.now) m.old }
        ensures world { m.new.world ≡ m.old.world }
        ensures next { TakesAs result (form.return_of (option_map value e.now)) (L.setting self.now.scene.now) base }
        ensures runs { ActsAs result (form.return_of (option_map value e.now)) (L.setting self.now.scene.now) (env_of frame.now) base (done m.old) (done m.new) }
    {
        match e {
            Some(e) => self.value_return(e.get(), frame, base, m),
            None => {
                jump(Kind::Returning, m);
                Ok(base)
            }
        }
    }
}
