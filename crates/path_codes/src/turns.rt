//! Loops (C99 6.8.5): so many turns at most.
ghost use Rattle.std.specs.Prelude.{option_map, Some, None, IfOk};
ghost use Rattle.core_tree.specs.States.{running};
ghost use Rattle.core_tree.specs.Values.{value};
ghost use Rattle.path_states.specs.Ways.{Goes};
ghost use Rattle.path_arrows.specs.Arrows.{by_arrow};
ghost use Rattle.core_tree.specs.Codes as form;
ghost use Rattle.path_forms.specs.Calling.{Stays};
ghost use Rattle.path_states.specs.States.{AreStates};
ghost use Rattle.path_codes.specs.Below.{ReachesCode};
ghost use Rattle.path_codes.specs.Walks.{WalksItem, TestsTo, TurnsTo, RoundsTo, turns_arrow, rounds_arrow};

use crate::below::{Coded, Evaluated, Steps};
use core_tree::{Code, Expr};
use path_arrows::{Point, Sifted, arrive, leave, pass, rejoin, sift};
use path_forms::{Calls, Placed, WalkFault};
use path_rooms::{room_of_loop, room_of_repeat, sum};
use path_states::State;
use path_steps::{Parted, part};
use plain_data::{Items, Shared};
use std::alloc::Global;
use term_bank::Bank;

impl<'a, C: Calls, X> Steps<'a, C, X> {
    /// A loop's condition: the states in which it is true go on.
    fn condition(
        &self,
        frame: &[Placed],
        at: u32,
        test: &Expr,
        place: u64,
        bank: &mut Bank,
        states: &[State],
    ) -> Result<Evaluated, WalkFault>
        requires ready { Stays (C.ready self.now.scene.now) bank.old }
        requires states { AreStates bank.old states.now }
        ensures { IfOk result (TestsTo (C.around self.now.scene.now) frame.now self.now.room at (Some test.now)
            bank.old bank.new states.now place) }
    {
        let Evaluated { over, on, next } = self.evaluate(frame, test, place, bank, states)?;
        let Parted { yes, no } = part(self.alloc, bank, at, on.as_slice())?;
        let passed = pass(self.alloc, no.as_slice())?;
        let mut all = over;
        all.append(passed)?;
        Ok(Evaluated {
            over: all,
            on: yes,
            next,
        })
    }

    /// Without a condition all states that are running go on (C99 6.8.5.3p2).
    fn no_condition(
        &self,
        frame: &[Placed],
        place: u64,
        bank: &mut Bank,
        states: &[State],
    ) -> Result<Evaluated, WalkFault>
        requires ready { Stays (C.ready self.now.scene.now) bank.old }
        requires states { AreStates bank.old states.now }
        ensures { (at : _) → IfOk result (TestsTo (C.around self.now.scene.now) frame.now self.now.room at None
            bank.old bank.new states.now place) }
    {
        let Sifted { running, others } = sift(self.alloc, states)?;
        Ok(Evaluated {
            over: others,
            on: running,
            next: place,
        })
    }

    /// A loop's test.
    fn test(
        &self,
        frame: &[Placed],
        at: u32,
        test: &Option<Shared<Expr>>,
        place: u64,
        bank: &mut Bank,
        states: &[State],
    ) -> Result<Evaluated, WalkFault>
        requires ready { Stays (C.ready self.now.scene.now) bank.old }
        requires states { AreStates bank.old states.now }
        ensures { IfOk result (TestsTo (C.around self.now.scene.now) frame.now self.now.room at test.now bank.old
            bank.new states.now place) }
    {
        match test {
            Some(test) => self.condition(frame, at, test.get(), place, bank, states),
            None => self.no_condition(frame, place, bank, states),
        }
    }
}

impl<
    'a,
    C: Calls,
    X: Fn(
        Global,
        &C,
        u64,
        u32,
        &[Placed],
        &Code,
        u64,
        &mut Bank,
        &[State],
    ) -> Result<Coded, WalkFault>,
> Steps<'a, C, X> {
    /// A turn of a `while` or `for`.
    fn turn(
        &self,
        frame: &[Placed],
        at: u32,
        test: &Option<Shared<Expr>>,
        step: &Option<Shared<Expr>>,
        body: &Code,
        place: u64,
        bank: &mut Bank,
        states: &[State],
    ) -> Result<Evaluated, WalkFault>
        requires codes { ReachesCode C.around C.ready X.Fn self.now.scene self.now.room self.now.height self.now.code }
        requires ready { Stays (C.ready self.now.scene.now) bank.old }
        requires states { AreStates bank.old states.now }
        ensures { IfOk result (TurnsTo (C.around self.now.scene.now) frame.now self.now.room at test.now body.now
            step.now bank.old bank.new states.now place) }
    {
        let Evaluated { over, on, next } = self.test(frame, at, test, place, bank, states)?;
        let Coded {
            states: ran,
            next: behind,
        } = self.part(frame, body, next, bank, on.as_slice())?;
        let there = arrive(self.alloc, &Point::EndOfTurn, ran.as_slice())?;
        let Coded {
            states: stepped,
            next: last,
        } = self.maybe_expression(frame, step, behind, bank, there.as_slice())?;
        Ok(Evaluated {
            over,
            on: stepped,
            next: last,
        })
    }

    /// All turns of a `while` or `for`: those that would take one more leave the bounds.
    fn turns(
        &self,
        frame: &[Placed],
        at: u32,
        test: &Option<Shared<Expr>>,
        step: &Option<Shared<Expr>>,
        body: &Code,
        place: u64,
        bank: &mut Bank,
        states: &[State],
    ) -> Result<Items<State>, WalkFault>
        requires codes { ReachesCode C.around C.ready X.Fn self.now.scene self.now.room self.now.height self.now.code }
        requires ready { Stays (C.ready self.now.scene.now) bank.old }
        requires states { AreStates bank.old states.now }
        ensures { IfOk result (λ ts. Goes self.now.room bank.old bank.new states.now ts (by_arrow (λ e. running
            (turns_arrow (C.around self.now.scene.now) frame.now at test.now body.now step.now (C.around self.now.scene.now).measures.turns place e)))) }
    {
        let mut over = Items::new(self.alloc);
        let mut on = pass(self.alloc, states)?;
        let mut next = place;
        let mut left = self.scene.turns();
        'turns: while left > 0 {
            let Evaluated {
                over: ended,
                on: going,
                next: behind,
            } = self.turn(frame, at, test, step, body, next, bank, on.as_slice())?;
            over = rejoin(self.alloc, bank, over, ended)?;
            on = going;
            next = behind;
            left -= 1;
        }
        let Evaluated {
            over: last,
            on: beyond,
            ..
        } = self.test(frame, at, test, next, bank, on.as_slice())?;
        let gone = leave(self.alloc, at, beyond.as_slice())?;
        over.append(last)?;
        let all = rejoin(self.alloc, bank, over, gone)?;
        Ok(all)
    }

    /// `while` and `for` (C99 6.8.5.1, 6.8.5.3), by the keyword: at most so many turns each time that it is entered.
    pub(crate) fn loop_statement(
        &self,
        frame: &[Placed],
        at: u32,
        test: &Option<Shared<Expr>>,
        step: &Option<Shared<Expr>>,
        body: &Code,
        place: u64,
        bank: &mut Bank,
        states: &[State],
    ) -> Result<Coded, WalkFault>
        requires codes { ReachesCode C.around C.ready X.Fn self.now.scene self.now.room self.now.height self.now.code }
        requires ready { Stays (C.ready self.now.scene.now) bank.old }
        requires states { AreStates bank.old states.now }
        ensures { IfOk result (WalksItem (C.around self.now.scene.now) frame.now self.now.room (form.looped at
            (option_map value test.now) (option_map value step.now) (form.code body.now)) bank.old bank.new
            states.now place) }
    {
        let room = room_of_loop(self.scene, test, step, body)?;
        let next = sum(place, room)?;
        let Sifted { running, others } = sift(self.alloc, states)?;
        let ran = self.turns(frame, at, test, step, body, place, bank, running.as_slice())?;
        let there = arrive(self.alloc, &Point::BehindLoop, ran.as_slice())?;
        let all = rejoin(self.alloc, bank, others, there)?;
        Ok(Coded { states: all, next })
    }

    /// A turn of a `do`.
    fn round(
        &self,
        frame: &[Placed],
        at: u32,
        test: &Expr,
        body: &Code,
        place: u64,
        bank: &mut Bank,
        states: &[State],
    ) -> Result<Evaluated, WalkFault>
        requires codes { ReachesCode C.around C.ready X.Fn self.now.scene self.now.room self.now.height self.now.code }
        requires ready { Stays (C.ready self.now.scene.now) bank.old }
        requires states { AreStates bank.old states.now }
        ensures { IfOk result (RoundsTo (C.around self.now.scene.now) frame.now self.now.room at body.now test.now
            bank.old bank.new states.now place) }
    {
        let Coded { states: ran, next } = self.part(frame, body, place, bank, states)?;
        let there = arrive(self.alloc, &Point::EndOfTurn, ran.as_slice())?;
        let tested = self.condition(frame, at, test, next, bank, there.as_slice())?;
        Ok(tested)
    }

    /// All turns of a `do`: those that would take one more leave the bounds.
    fn rounds(
        &self,
        frame: &[Placed],
        at: u32,
        test: &Expr,
        body: &Code,
        place: u64,
        bank: &mut Bank,
        states: &[State],
    ) -> Result<Items<State>, WalkFault>
        requires codes { ReachesCode C.around C.ready X.Fn self.now.scene self.now.room self.now.height self.now.code }
        requires ready { Stays (C.ready self.now.scene.now) bank.old }
        requires states { AreStates bank.old states.now }
        ensures { IfOk result (λ ts. Goes self.now.room bank.old bank.new states.now ts (by_arrow
            (rounds_arrow (C.around self.now.scene.now) frame.now at body.now test.now (C.around self.now.scene.now).measures.turns place))) }
    {
        let mut over = Items::new(self.alloc);
        let mut on = pass(self.alloc, states)?;
        let mut next = place;
        let mut left = self.scene.turns();
        'rounds: while left > 0 {
            let Evaluated {
                over: ended,
                on: going,
                next: behind,
            } = self.round(frame, at, test, body, next, bank, on.as_slice())?;
            over = rejoin(self.alloc, bank, over, ended)?;
            on = going;
            next = behind;
            left -= 1;
        }
        let gone = leave(self.alloc, at, on.as_slice())?;
        let all = rejoin(self.alloc, bank, over, gone)?;
        Ok(all)
    }

    /// `do` (C99 6.8.5.2), by its keyword: at most so many turns each time that it is entered.
    pub(crate) fn do_statement(
        &self,
        frame: &[Placed],
        at: u32,
        test: &Expr,
        body: &Code,
        place: u64,
        bank: &mut Bank,
        states: &[State],
    ) -> Result<Coded, WalkFault>
        requires codes { ReachesCode C.around C.ready X.Fn self.now.scene self.now.room self.now.height self.now.code }
        requires ready { Stays (C.ready self.now.scene.now) bank.old }
        requires states { AreStates bank.old states.now }
        ensures { IfOk result (WalksItem (C.around self.now.scene.now) frame.now self.now.room (form.repeated at
            (form.code body.now) (value test.now)) bank.old bank.new states.now place) }
    {
        let room = room_of_repeat(self.scene, test, body)?;
        let next = sum(place, room)?;
        let Sifted { running, others } = sift(self.alloc, states)?;
        let ran = self.rounds(frame, at, test, body, place, bank, running.as_slice())?;
        let there = arrive(self.alloc, &Point::BehindLoop, ran.as_slice())?;
        let all = rejoin(self.alloc, bank, others, there)?;
        Ok(Coded { states: all, next })
    }
}
