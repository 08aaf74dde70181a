//! Automatic objects, initialised where their declarations are reached (C99 6.2.4p6, 6.7.8).
ghost use Rattle.std.specs.Prelude.{◌≡◌, ◌+◌, IfOk, Some};
ghost use Rattle.core_tree.specs.Codes as form;
ghost use Rattle.core_running.specs.Below.{ReachesValue};
ghost use Rattle.core_running.specs.Frames.{env_of};
ghost use Rattle.core_running.specs.Running.{done, Low};
ghost use Rattle.core_running.specs.Settings.{level, HasWorld};
ghost use Rattle.code_steps.specs.Below.{ReachesRoom};
ghost use Rattle.run_codes.specs.Items.{TakesAs, ActsAs};
ghost use Rattle.code_steps.specs.Rooms.{setting_room, settings_room};

use crate::below::Steps;
use c_machine::{Halt, Machine};
use code_steps::{address_behind, lay_text, room_of_settings, start_of, store, zero};
use core_running::{Found, Frame, Scene};
use core_tree::{Expr, Setting};
use std::alloc::{AllocError, Global};

impl<
    'a,
    L: Scene,
    V: Fn(Global, &L, &Frame, &Expr, u64, &mut Machine) -> Result<Found, Halt>,
    R: Fn(&L, &Expr) -> u64,
    X,
> Steps<'a, L, V, R, X> {
    /// One setting, in the object at an address.
    pub fn set(
        &self,
        setting: &Setting,
        start: u64,
        frame: &Frame,
        base: u64,
        m: &mut Machine,
    ) -> Result<u64, AllocError>
        requires values { ReachesValue L.setting V.Fn self.now.scene self.now.value }
        requires rooms { ReachesRoom L.setting R.Fn self.now.scene self.now.room }
        requires low { Low base (setting_room (L.setting self.now.scene.now) setting.now) }
        requires same_world { HasWorld (L.setting self.now.scene.now) m.old }
        ensures world { m.new.world ≡ m.old.world }
        ensures next { IfOk result (λ next. next ≡ base + setting_room (L.setting self.now.scene.now) setting.now) }
        ensures sets { IfOk result (λ _. form.sets setting.now start (level (L.setting self.now.scene.now)) (env_of frame.now) base (done m.old) ≡ Some (done m.new)) }
    {
        match setting {
            Setting::Text {
                offset,
                size,
                bytes,
            } => {
                let address = address_behind(start, *offset)?;
                lay_text(address, *size, bytes.as_slice(), m)?;
                Ok(base)
            }
            Setting::Value {
                offset,
                stored,
                value,
            } => {
                let address = address_behind(start, *offset)?;
                match self.value(value.get(), frame, base, m) {
                    Ok(Found { value, next }) => {
                        store(*stored, address, value, m)?;
                        Ok(next)
                    }
                    Err(Halt::Over) => Ok(self.behind_value(value.get(), base)),
                    Err(Halt::Memory) => Err(AllocError),
                }
            }
        }
    }

    /// The settings of an object, in order, until the run ends.
    fn set_all(
        &self,
        settings: &[Setting],
        start: u64,
        frame: &Frame,
        base: u64,
        m: &mut Machine,
    ) -> Result<(), AllocError>
        requires values { ReachesValue L.setting V.Fn self.now.scene self.now.value }
        requires rooms { ReachesRoom L.setting R.Fn self.now.scene self.now.room }
        requires low { Low base (settings_room (L.setting self.now.scene.now) settings.now) }
        requires same_world { HasWorld (L.setting self.now.scene.now) m.old }
        ensures world { m.new.world ≡ m.old.world }
        ensures sets { IfOk result (λ _. form.sets_all settings.now start (level (L.setting self.now.scene.now)) (env_of frame.now) base (done m.old) ≡ Some (done m.new)) }
    {
        match settings.split_first() {
            Some((setting, rest)) => {
                let next = self.set(setting, start, frame, base, m)?;
                if !m.is_running() {
                    return Ok(());
                }
                self.set_all(rest, start, frame, next, m)
            }
            None => Ok(()),
        }
    }

    /// An automatic object where its declaration is reached, by the declaration's offset: what stands in braces sets
    /// the whole object to 0 first.
    pub(crate) fn declaration(
        &self,
        at: u32,
        size: u64,
        is_zeroed: bool,
        settings: &[Setting],
        frame: &Frame,
        base: u64,
        m: &mut Machine,
    ) -> Result<u64, AllocError>
        requires values { ReachesValue L.setting V.Fn self.now.scene self.now.value }
        requires rooms { ReachesRoom L.setting R.Fn self.now.scene self.now.room }
        requires low { Low base (1 + settings_room (L.setting self.now.scene.now) settings.now) }
        requires same_world { HasWorld (L.setting self.now.scene.now) m.old }
        ensures world { m.new.world ≡ m.old.world }
        ensures next { TakesAs result (form.declared at size is_zeroed settings.now) (L.setting self.now.scene.now) base }
        ensures runs { ActsAs result (form.declared at size is_zeroed settings.now) (L.setting self.now.scene.now) (env_of frame.now) base (done m.old) (done m.new) }
    {
        let next = base + 1 + room_of_settings(settings, self.scene, &self.room);
        if !m.is_running() {
            return Ok(next);
        }
        let start = start_of(frame.number(at));
        if is_zeroed {
            zero(start, size, m)?;
        }
        self.set_all(settings, start, frame, base + 1, m)?;
        Ok(next)
    }
}
