//! The parts of a statement are walked by a function that is handed in, so that each form is a function by itself.
ghost use Rattle.std.specs.Prelude.{IfOk};
ghost use Rattle.core_tree.specs.Codes as form;
ghost use Rattle.path_forms.specs.Calling.{Stays};
ghost use Rattle.path_states.specs.States.{AreStates};
ghost use Rattle.path_codes.specs.Below.{ReachesCode};
ghost use Rattle.path_codes.specs.Walks.{WalksItem, EvaluatesTo};

use core_tree::{Code, Expr};
use path_arrows::{Sifted, sift};
use path_forms::{Calls, Placed, WalkFault};
use path_states::{State, Walked};
use path_values::{Valued, walk_value};
use plain_data::Items;
use std::alloc::Global;
use term_bank::Bank;

/// The states behind code, and the first place behind its own.
#[derive(Drop)]
pub struct Coded {
    pub states: Items<State>,
    pub next: u64,
}

/// States whose value is on top of the operands, or that take a side of a branch; those that don't go on there; and the
/// first place behind those of the expression.
#[derive(Drop)]
pub(crate) struct Evaluated {
    pub over: Items<State>,
    pub on: Items<State>,
    pub next: u64,
}

/// What walks the parts of code, which have so many places of the function's own, and at most so many levels.
#[derive(Clone, Copy)]
pub struct Steps<'a, C, X> {
    pub alloc: Global,
    pub scene: &'a C,
    pub room: u64,
    pub height: u32,
    pub code: X,
}

impl<'a, C: Calls, X> Steps<'a, C, X> {
    /// The states that are running evaluate an expression.
    pub(crate) fn evaluate(
        &self,
        frame: &[Placed],
        e: &Expr,
        place: u64,
        bank: &mut Bank,
        states: &[State],
    ) -> Result<Evaluated, WalkFault>
        requires ready { Stays (C.ready self.now.scene.now) bank.old }
        requires states { AreStates bank.old states.now }
        ensures { IfOk result (EvaluatesTo (C.around self.now.scene.now) frame.now self.now.room e.now bank.old
            bank.new states.now place) }
    {
        let Sifted { running, others } = sift(self.alloc, states)?;
        let Valued { walked, next } = walk_value(
            self.alloc,
            self.scene,
            frame,
            self.room,
            e,
            place,
            bank,
            running.as_slice(),
        )?;
        let Walked { going, ended } = walked;
        let mut over = others;
        over.append(ended)?;
        Ok(Evaluated {
            over,
            on: going,
            next,
        })
    }
}

impl<
    'a,
    C: Calls,
    X: Fn(
        Global,
        &C,
        u64,
        u32,
        &[Placed],
        &Code,
        u64,
        &mut Bank,
        &[State],
    ) -> Result<Coded, WalkFault>,
> Steps<'a, C, X> {
    /// Walks a part.
    pub(crate) fn part(
        &self,
        frame: &[Placed],
        code: &Code,
        place: u64,
        bank: &mut Bank,
        states: &[State],
    ) -> Result<Coded, WalkFault>
        requires codes { ReachesCode C.around C.ready X.Fn self.now.scene self.now.room self.now.height self.now.code }
        requires ready { Stays (C.ready self.now.scene.now) bank.old }
        requires states { AreStates bank.old states.now }
        ensures { IfOk result (WalksItem (C.around self.now.scene.now) frame.now self.now.room (form.code code.now)
            bank.old bank.new states.now place) }
    {
        (self.code)(
            self.alloc,
            self.scene,
            self.room,
            self.height,
            frame,
            code,
            place,
            bank,
            states,
        )
    }
}
