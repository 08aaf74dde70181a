//! Statements without parts that are statements (C99 6.8.3, 6.8.6).
ghost use Rattle.std.specs.Prelude.{IfOk, option_map, Some};
ghost use Rattle.c_means.specs.declared.kind.Kind.TheVariants as k;
ghost use Rattle.core_tree.specs.Values.{value};
ghost use Rattle.core_tree.specs.Codes as form;
ghost use Rattle.path_forms.specs.Calling.{Stays};
ghost use Rattle.path_states.specs.States.{AreStates};
ghost use Rattle.path_codes.specs.Walks.{WalksItem};

use crate::below::{Coded, Evaluated, Steps};
use c_language::Name;
use c_means::Kind;
use core_tree::Expr;
use path_arrows::{Sifted, give, jump, pass, rejoin, sift};
use path_forms::{Calls, Placed, WalkFault};
use path_states::State;
use plain_data::Shared;
use std::alloc::Global;
use term_bank::Bank;

impl<'a, C: Calls, X> Steps<'a, C, X> {
    /// A statement that does nothing, and one whose objects live throughout the run.
    pub(crate) fn nothing(
        &self,
        frame: &[Placed],
        place: u64,
        bank: &mut Bank,
        states: &[State],
    ) -> Result<Coded, WalkFault>
        requires ready { Stays (C.ready self.now.scene.now) bank.old }
        requires states { AreStates bank.old states.now }
        ensures { IfOk result (WalksItem (C.around self.now.scene.now) frame.now self.now.room (form.nothing)
            bank.old bank.new states.now place) }
    {
        let states = pass(self.alloc, states)?;
        Ok(Coded {
            states,
            next: place,
        })
    }

    /// An expression whose value isn't used (C99 6.8.3p2).
    pub(crate) fn expression(
        &self,
        frame: &[Placed],
        e: &Expr,
        place: u64,
        bank: &mut Bank,
        states: &[State],
    ) -> Result<Coded, WalkFault>
        requires ready { Stays (C.ready self.now.scene.now) bank.old }
        requires states { AreStates bank.old states.now }
        ensures { (is_node : _) → IfOk result (WalksItem (C.around self.now.scene.now) frame.now self.now.room
            (form.evaluated is_node (value e.now)) bank.old bank.new states.now place) }
    {
        let Evaluated { over, on, next } = self.evaluate(frame, e, place, bank, states)?;
        let passed = pass(self.alloc, on.as_slice())?;
        let ran = rejoin(self.alloc, bank, over, passed)?;
        Ok(Coded { states: ran, next })
    }

    /// An expression that may be missing.
    pub(crate) fn maybe_expression(
        &self,
        frame: &[Placed],
        e: &Option<Shared<Expr>>,
        place: u64,
        bank: &mut Bank,
        states: &[State],
    ) -> Result<Coded, WalkFault>
        requires ready { Stays (C.ready self.now.scene.now) bank.old }
        requires states { AreStates bank.old states.now }
        ensures { IfOk result (WalksItem (C.around self.now.scene.now) frame.now self.now.room (form.maybe_evaluated
            (option_map value e.now)) bank.old bank.new states.now place) }
    {
        match e {
            Some(e) => self.expression(frame, e.get(), place, bank, states),
            None => self.nothing(frame, place, bank, states),
        }
    }

    /// A jump (C99 6.8.6).
    pub(crate) fn jump(
        &self,
        frame: &[Placed],
        kind: &Kind,
        place: u64,
        bank: &mut Bank,
        states: &[State],
    ) -> Result<Coded, WalkFault>
        requires ready { Stays (C.ready self.now.scene.now) bank.old }
        requires states { AreStates bank.old states.now }
        ensures { IfOk result (WalksItem (C.around self.now.scene.now) frame.now self.now.room (form.jump kind.now)
            bank.old bank.new states.now place) }
    {
        let Sifted { running, others } = sift(self.alloc, states)?;
        let jumped = jump(self.alloc, kind, running.as_slice())?;
        let ran = rejoin(self.alloc, bank, others, jumped)?;
        Ok(Coded {
            states: ran,
            next: place,
        })
    }

    /// A `return` of a value (C99 6.8.6.4).
    fn return_value(
        &self,
        frame: &[Placed],
        e: &Expr,
        place: u64,
        bank: &mut Bank,
        states: &[State],
    ) -> Result<Coded, WalkFault>
        requires ready { Stays (C.ready self.now.scene.now) bank.old }
        requires states { AreStates bank.old states.now }
        ensures { IfOk result (WalksItem (C.around self.now.scene.now) frame.now self.now.room (form.return_of (Some
            (value e.now))) bank.old bank.new states.now place) }
    {
        let Evaluated { over, on, next } = self.evaluate(frame, e, place, bank, states)?;
        let given = give(self.alloc, bank, on.as_slice())?;
        let ran = rejoin(self.alloc, bank, over, given)?;
        Ok(Coded { states: ran, next })
    }

    /// `return`.
    pub(crate) fn return_statement(
        &self,
        frame: &[Placed],
        e: &Option<Shared<Expr>>,
        place: u64,
        bank: &mut Bank,
        states: &[State],
    ) -> Result<Coded, WalkFault>
        requires ready { Stays (C.ready self.now.scene.now) bank.old }
        requires states { AreStates bank.old states.now }
        ensures { IfOk result (WalksItem (C.around self.now.scene.now) frame.now self.now.room (form.return_of
            (option_map value e.now)) bank.old bank.new states.now place) }
    {
        match e {
            Some(e) => self.return_value(frame, e.get(), place, bank, states),
            None => self.jump(frame, &Kind::Returning, place, bank, states),
        }
    }

    /// `goto` (C99 6.8.6.1).
    pub(crate) fn go_to(
        &self,
        frame: &[Placed],
        name: &Name,
        place: u64,
        bank: &mut Bank,
        states: &[State],
    ) -> Result<Coded, WalkFault>
        requires ready { Stays (C.ready self.now.scene.now) bank.old }
        requires states { AreStates bank.old states.now }
        ensures { IfOk result (WalksItem (C.around self.now.scene.now) frame.now self.now.room (form.jump (k.Going
            name.now)) bank.old bank.new states.now place) }
    {
        let label = name.clone()?;
        self.jump(frame, &Kind::Going { label }, place, bank, states)
    }
}
