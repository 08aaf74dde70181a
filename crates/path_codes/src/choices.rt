//! Selection (C99 6.8.4).
ghost use Rattle.std.specs.Prelude.{IfOk, map};
ghost use Rattle.core_tree.specs.Values.{value};
ghost use Rattle.core_tree.specs.Codes as form;
ghost use Rattle.path_forms.specs.Calling.{Stays};
ghost use Rattle.path_states.specs.States.{AreStates};
ghost use Rattle.path_codes.specs.Below.{ReachesCode};
ghost use Rattle.path_codes.specs.Walks.{WalksItem};

use crate::below::{Coded, Evaluated, Steps};
use crate::selecting::select_all;
use core_tree::{Code, Expr, WordType};
use path_arrows::{Point, arrive, rejoin};
use path_forms::{Calls, Placed, WalkFault};
use path_states::State;
use path_steps::{Parted, part};
use plain_data::Shared;
use std::alloc::Global;
use term_bank::Bank;

impl<
    'a,
    C: Calls,
    X: Fn(
        Global,
        &C,
        u64,
        u32,
        &[Placed],
        &Code,
        u64,
        &mut Bank,
        &[State],
    ) -> Result<Coded, WalkFault>,
> Steps<'a, C, X> {
    /// `if` (C99 6.8.4.1p2), by its keyword.
    pub(crate) fn if_statement(
        &self,
        frame: &[Placed],
        at: u32,
        condition: &Expr,
        positive: &Code,
        negative: &Code,
        place: u64,
        bank: &mut Bank,
        states: &[State],
    ) -> Result<Coded, WalkFault>
        requires codes { ReachesCode C.around C.ready X.Fn self.now.scene self.now.room self.now.height self.now.code }
        requires ready { Stays (C.ready self.now.scene.now) bank.old }
        requires states { AreStates bank.old states.now }
        ensures { IfOk result (WalksItem (C.around self.now.scene.now) frame.now self.now.room (form.if_of at (value
            condition.now) (form.code positive.now) (form.code negative.now)) bank.old bank.new states.now place) }
    {
        let Evaluated { over, on, next } = self.evaluate(frame, condition, place, bank, states)?;
        let Parted { yes, no } = part(self.alloc, bank, at, on.as_slice())?;
        let Coded {
            states: first,
            next: behind,
        } = self.part(frame, positive, next, bank, yes.as_slice())?;
        let Coded {
            states: second,
            next: last,
        } = self.part(frame, negative, behind, bank, no.as_slice())?;
        let mut sides = first;
        sides.append(second)?;
        let all = rejoin(self.alloc, bank, over, sides)?;
        Ok(Coded {
            states: all,
            next: last,
        })
    }

    /// `switch` (C99 6.8.4.2), by its keyword: the type in which it compares, the values of its cases in order, and the
    /// items of its body, which is entered on the way to a case.
    pub(crate) fn switch_statement(
        &self,
        frame: &[Placed],
        at: u32,
        word: WordType,
        cases: &[i128],
        e: &Expr,
        items: &[Shared<Code>],
        place: u64,
        bank: &mut Bank,
        states: &[State],
    ) -> Result<Coded, WalkFault>
        requires codes { ReachesCode C.around C.ready X.Fn self.now.scene self.now.room self.now.height self.now.code }
        requires ready { Stays (C.ready self.now.scene.now) bank.old }
        requires states { AreStates bank.old states.now }
        ensures { (is_node : _) → IfOk result (WalksItem (C.around self.now.scene.now) frame.now self.now.room
            (form.switch_of at word cases.now (value e.now) is_node (map form.code items.now)) bank.old bank.new
            states.now place) }
    {
        let Evaluated { over, on, next } = self.evaluate(frame, e, place, bank, states)?;
        let looking = select_all(self.alloc, bank, at, word, cases, on.as_slice())?;
        let Coded {
            states: ran,
            next: behind,
        } = self.lived(frame, items, next, bank, looking.as_slice())?;
        let there = arrive(self.alloc, &Point::BehindSwitch, ran.as_slice())?;
        let all = rejoin(self.alloc, bank, over, there)?;
        Ok(Coded {
            states: all,
            next: behind,
        })
    }
}
