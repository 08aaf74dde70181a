//! Blocks (C99 6.8.2): their objects live from entry to exit (C99 6.2.4p5).
ghost use Rattle.std.specs.Prelude.{IfOk, map};
ghost use Rattle.core_tree.specs.Codes as form;
ghost use Rattle.path_forms.specs.Calling.{Stays};
ghost use Rattle.path_states.specs.States.{AreStates};
ghost use Rattle.path_rooms.specs.Rooms.{item_of};
ghost use Rattle.path_codes.specs.Below.{ReachesCode};
ghost use Rattle.path_codes.specs.Walks.{WalksItem, WalksLived};

use crate::below::{Coded, Steps};
use core_tree::Code;
use path_arrows::{Sifted, bear, bury, pass, rejoin, sift};
use path_forms::{Calls, Placed, WalkFault};
use path_rooms::{add_objects, check_fit, with_objects};
use path_states::State;
use plain_data::{Items, Shared};
use std::alloc::Global;
use term_bank::Bank;

impl<
    'a,
    C: Calls,
    X: Fn(
        Global,
        &C,
        u64,
        u32,
        &[Placed],
        &Code,
        u64,
        &mut Bank,
        &[State],
    ) -> Result<Coded, WalkFault>,
> Steps<'a, C, X> {
    /// Items one behind the other, the places of each behind those of the one before.
    fn sequence(
        &self,
        frame: &[Placed],
        items: &[Shared<Code>],
        place: u64,
        bank: &mut Bank,
        states: &[State],
    ) -> Result<Coded, WalkFault>
        requires codes { ReachesCode C.around C.ready X.Fn self.now.scene self.now.room self.now.height self.now.code }
        requires ready { Stays (C.ready self.now.scene.now) bank.old }
        requires states { AreStates bank.old states.now }
        ensures { IfOk result (WalksItem (C.around self.now.scene.now) frame.now self.now.room (item_of items.now)
            bank.old bank.new states.now place) }
    {
        let mut ran = pass(self.alloc, states)?;
        let mut next = place;
        for item in items {
            let Coded {
                states: now,
                next: behind,
            } = self.part(frame, item.get(), next, bank, ran.as_slice())?;
            ran = now;
            next = behind;
        }
        Ok(Coded { states: ran, next })
    }

    /// The items of a block that is entered by runs in any state: its objects live while they run, also where a run
    /// ends in it.
    pub(crate) fn lived(
        &self,
        frame: &[Placed],
        items: &[Shared<Code>],
        place: u64,
        bank: &mut Bank,
        states: &[State],
    ) -> Result<Coded, WalkFault>
        requires codes { ReachesCode C.around C.ready X.Fn self.now.scene self.now.room self.now.height self.now.code }
        requires ready { Stays (C.ready self.now.scene.now) bank.old }
        requires states { AreStates bank.old states.now }
        ensures { IfOk result (WalksLived (C.around self.now.scene.now) frame.now self.now.room items.now bank.old
            bank.new states.now place) }
    {
        let mut objects = Items::new(self.alloc);
        add_objects(items, self.scene, place, &mut objects)?;
        check_fit(objects.as_slice(), self.room)?;
        let inner = with_objects(self.alloc, frame, objects.as_slice())?;
        let born = bear(self.alloc, bank, objects.as_slice(), states)?;
        let Coded { states: ran, next } = self.sequence(
            inner.as_slice(),
            items,
            place,
            bank,
            born.as_slice(),
        )?;
        let dead = bury(self.alloc, bank, objects.as_slice(), ran.as_slice())?;
        Ok(Coded { states: dead, next })
    }

    /// A block as a statement: runs that are on their way pass it by, so nothing jumps into it.
    pub(crate) fn block(
        &self,
        frame: &[Placed],
        items: &[Shared<Code>],
        place: u64,
        bank: &mut Bank,
        states: &[State],
    ) -> Result<Coded, WalkFault>
        requires codes { ReachesCode C.around C.ready X.Fn self.now.scene self.now.room self.now.height self.now.code }
        requires ready { Stays (C.ready self.now.scene.now) bank.old }
        requires states { AreStates bank.old states.now }
        ensures { (is_node : _) → IfOk result (WalksItem (C.around self.now.scene.now) frame.now self.now.room
            (form.block is_node (map form.code items.now)) bank.old bank.new states.now place) }
    {
        let Sifted { running, others } = sift(self.alloc, states)?;
        let Coded { states: ran, next } = self.lived(
            frame,
            items,
            place,
            bank,
            running.as_slice(),
        )?;
        let all = rejoin(self.alloc, bank, others, ran)?;
        Ok(Coded { states: all, next })
    }
}
