//! Automatic objects, initialised where their declarations are reached (C99 6.2.4p6, 6.7.8).
ghost use Rattle.std.specs.Prelude.{IfOk, List};
ghost use Rattle.core_tree.specs.declared.code.Setting.TheVariants as s;
ghost use Rattle.core_tree.specs.Codes as form;
ghost use Rattle.path_forms.specs.declared.frame.Placed.{Placed as PlacedType};
ghost use Rattle.path_forms.specs.Calling.{Stays};
ghost use Rattle.path_states.specs.States.{AreStates};
ghost use Rattle.path_codes.specs.Settings.{WalksSet, WalksSettings, ZeroesIf};
ghost use Rattle.path_codes.specs.Walks.{WalksItem};

use crate::below::{Coded, Evaluated, Steps};
use crate::storing::store;
use crate::texts::lay;
use crate::zeroing::zero;
use core_tree::{Expr, Setting, ValueType};
use path_arrows::{Sifted, pass, rejoin, sift};
use path_forms::{Calls, Placed, WalkFault, place_of};
use path_rooms::sum;
use path_states::State;
use plain_data::Items;
use std::alloc::Global;
use term_bank::Bank;

impl<'a, C: Calls, X> Steps<'a, C, X> {
    /// A value is stored so many bytes behind the start of an object.
    fn set_value(
        &self,
        frame: &[Placed],
        object: u64,
        bytes: u64,
        stored: ValueType,
        e: &Expr,
        place: u64,
        bank: &mut Bank,
        states: &[State],
    ) -> Result<Coded, WalkFault>
        requires ready { Stays (C.ready self.now.scene.now) bank.old }
        requires states { AreStates bank.old states.now }
        ensures { IfOk result (WalksSet (C.around self.now.scene.now) frame.now self.now.room object (s.Value bytes
            stored e.now) bank.old bank.new states.now place) }
    {
        let Evaluated { over, on, next } = self.evaluate(frame, e, place, bank, states)?;
        let set = store(self.alloc, bank, self.room, object, bytes, stored, on)?;
        let all = rejoin(self.alloc, bank, over, set)?;
        Ok(Coded { states: all, next })
    }

    /// A text in so many bytes, from so many bytes behind the start of an object on.
    fn set_text(
        &self,
        object: u64,
        bytes: u64,
        size: u64,
        text: &[u8],
        place: u64,
        bank: &mut Bank,
        states: &[State],
    ) -> Result<Coded, WalkFault>
        requires { AreStates bank.old states.now }
        ensures { IfOk result (λ y. (frame : List PlacedType) → WalksSet (C.around self.now.scene.now) frame
            self.now.room object (s.Text bytes size text.now) bank.old bank.new states.now place y) }
    {
        let Sifted { running, others } = sift(self.alloc, states)?;
        let laid = lay(
            self.alloc,
            bank,
            self.room,
            object,
            bytes,
            size,
            text,
            running.as_slice(),
        )?;
        let all = rejoin(self.alloc, bank, others, laid)?;
        Ok(Coded {
            states: all,
            next: place,
        })
    }

    /// One setting of the object of a place behind the base.
    pub fn set(
        &self,
        frame: &[Placed],
        object: u64,
        setting: &Setting,
        place: u64,
        bank: &mut Bank,
        states: &[State],
    ) -> Result<Coded, WalkFault>
        requires ready { Stays (C.ready self.now.scene.now) bank.old }
        requires states { AreStates bank.old states.now }
        ensures { IfOk result (WalksSet (C.around self.now.scene.now) frame.now self.now.room object setting.now
            bank.old bank.new states.now place) }
    {
        match setting {
            Setting::Value {
                offset,
                stored,
                value,
            } => {
                let set = self.set_value(
                    frame,
                    object,
                    *offset,
                    *stored,
                    value.get(),
                    place,
                    bank,
                    states,
                )?;
                Ok(set)
            }
            Setting::Text {
                offset,
                size,
                bytes,
            } => {
                let set = self.set_text(
                    object,
                    *offset,
                    *size,
                    bytes.as_slice(),
                    place,
                    bank,
                    states,
                )?;
                Ok(set)
            }
        }
    }

    /// The settings of an object, in order, until the run ends.
    fn set_all(
        &self,
        frame: &[Placed],
        object: u64,
        settings: &[Setting],
        place: u64,
        bank: &mut Bank,
        states: &[State],
    ) -> Result<Coded, WalkFault>
        requires ready { Stays (C.ready self.now.scene.now) bank.old }
        requires states { AreStates bank.old states.now }
        ensures { IfOk result (WalksSettings (C.around self.now.scene.now) frame.now self.now.room object
            settings.now bank.old bank.new states.now place) }
    {
        let mut ran = pass(self.alloc, states)?;
        let mut next = place;
        for setting in settings {
            let Coded {
                states: now,
                next: behind,
            } = self.set(frame, object, setting, next, bank, ran.as_slice())?;
            ran = now;
            next = behind;
        }
        Ok(Coded { states: ran, next })
    }

    /// An object is set to 0 first where its initializer asks for it (C99 6.7.8p21).
    fn zero_first(
        &self,
        object: u64,
        size: u64,
        is_zeroed: bool,
        bank: &mut Bank,
        states: &[State],
    ) -> Result<Items<State>, WalkFault>
        requires { AreStates bank.old states.now }
        ensures { IfOk result (λ ts. ZeroesIf self.now.room is_zeroed object size bank.old bank.new states.now ts) }
    {
        if !is_zeroed {
            let passed = pass(self.alloc, states)?;
            return Ok(passed);
        }
        let Sifted { running, others } = sift(self.alloc, states)?;
        let zeroed = zero(
            self.alloc,
            bank,
            self.room,
            object,
            size,
            running.as_slice(),
        )?;
        let all = rejoin(self.alloc, bank, others, zeroed)?;
        Ok(all)
    }

    /// An automatic object where its declaration is reached, by the declaration's offset.
    pub(crate) fn declaration(
        &self,
        frame: &[Placed],
        at: u32,
        size: u64,
        is_zeroed: bool,
        settings: &[Setting],
        place: u64,
        bank: &mut Bank,
        states: &[State],
    ) -> Result<Coded, WalkFault>
        requires ready { Stays (C.ready self.now.scene.now) bank.old }
        requires states { AreStates bank.old states.now }
        ensures { IfOk result (WalksItem (C.around self.now.scene.now) frame.now self.now.room (form.declared at
            size is_zeroed settings.now) bank.old bank.new states.now place) }
    {
        let Some(object) = place_of(frame, self.room, at) else {
            return Err(WalkFault::Unplaced);
        };
        let zeroed = self.zero_first(object, size, is_zeroed, bank, states)?;
        let first = sum(place, 1)?;
        let set = self.set_all(frame, object, settings, first, bank, zeroed.as_slice())?;
        Ok(set)
    }
}
