//! The walk: code is walked over the walk at one level less.
ghost use Rattle.std.specs.Prelude.{IfOk};
ghost use Rattle.core_tree.specs.Codes as form;
ghost use Rattle.path_forms.specs.Calling.{Stays};
ghost use Rattle.path_states.specs.States.{AreStates};
ghost use Rattle.path_codes.specs.Below.{ReachesCode};
ghost use Rattle.path_codes.specs.Walks.{WalksItem, WalksLived};

use crate::below::{Coded, Steps};
use c_means::Kind;
use core_tree::Code;
use path_forms::{Calls, Placed, WalkFault};
use path_states::State;
use plain_data::Shared;
use std::alloc::Global;
use term_bank::Bank;

impl<
    'a,
    C: Calls,
    X: Fn(
        Global,
        &C,
        u64,
        u32,
        &[Placed],
        &Code,
        u64,
        &mut Bank,
        &[State],
    ) -> Result<Coded, WalkFault>,
> Steps<'a, C, X> {
    /// Code, over what walks its parts.
    pub fn walk(
        &self,
        frame: &[Placed],
        code: &Code,
        place: u64,
        bank: &mut Bank,
        states: &[State],
    ) -> Result<Coded, WalkFault>
        requires codes { ReachesCode C.around C.ready X.Fn self.now.scene self.now.room self.now.height self.now.code }
        requires ready { Stays (C.ready self.now.scene.now) bank.old }
        requires states { AreStates bank.old states.now }
        ensures { IfOk result (WalksItem (C.around self.now.scene.now) frame.now self.now.room (form.code code.now)
            bank.old bank.new states.now place) }
    {
        match code {
            Code::Nothing { .. } => self.nothing(frame, place, bank, states),
            Code::Value { value, .. } => self.expression(frame, value.get(), place, bank, states),
            Code::Declare {
                at,
                size,
                is_zeroed,
                settings,
            } => self.declaration(
                frame,
                *at,
                *size,
                *is_zeroed,
                settings.as_slice(),
                place,
                bank,
                states,
            ),
            Code::Static { .. } => self.nothing(frame, place, bank, states),
            Code::Block { items, .. } => self.block(frame, items.as_slice(), place, bank, states),
            Code::Label { name, body } => {
                self.labeled(frame, name, body.get(), place, bank, states)
            }
            Code::Case { value, body, .. } => {
                self.case(frame, value, body.get(), place, bank, states)
            }
            Code::Default { body } => self.default(frame, body.get(), place, bank, states),
            Code::If {
                at,
                condition,
                positive,
                negative,
            } => self.if_statement(
                frame,
                *at,
                condition.get(),
                positive.get(),
                negative.get(),
                place,
                bank,
                states,
            ),
            Code::Switch {
                at,
                word,
                cases,
                value,
                items,
                ..
            } => self.switch_statement(
                frame,
                *at,
                *word,
                cases.as_slice(),
                value.get(),
                items.as_slice(),
                place,
                bank,
                states,
            ),
            Code::Loop {
                at,
                test,
                step,
                body,
            } => self.loop_statement(frame, *at, test, step, body.get(), place, bank, states),
            Code::Repeat { at, test, body } => {
                self.do_statement(frame, *at, test.get(), body.get(), place, bank, states)
            }
            Code::Goto { name } => self.go_to(frame, name, place, bank, states),
            Code::Continue => self.jump(frame, &Kind::Continuing, place, bank, states),
            Code::Break => self.jump(frame, &Kind::Breaking, place, bank, states),
            Code::Return { value } => self.return_statement(frame, value, place, bank, states),
        }
    }
}

/// The states behind code, from these, in a function whose places behind the base are so many and whose code has at
/// most so many levels.
pub fn walk_code<C: Calls>(
    alloc: Global,
    scene: &C,
    room: u64,
    height: u32,
    frame: &[Placed],
    code: &Code,
    place: u64,
    bank: &mut Bank,
    states: &[State],
) -> Result<Coded, WalkFault>
    requires ready { Stays (C.ready scene.now) bank.old }
    requires states { AreStates bank.old states.now }
    ensures { IfOk result (WalksItem (C.around scene.now) frame.now room (form.code code.now) bank.old bank.new
        states.now place) }
{
    if height == 0 {
        return Err(WalkFault::TooFar);
    }
    let steps = Steps {
        alloc,
        scene,
        room,
        height: height - 1,
        code: walk_code,
    };
    steps.walk(frame, code, place, bank, states)
}

/// The states behind the items of a function's block, whose objects live while they run.
pub fn walk_items<C: Calls>(
    alloc: Global,
    scene: &C,
    room: u64,
    height: u32,
    frame: &[Placed],
    items: &[Shared<Code>],
    place: u64,
    bank: &mut Bank,
    states: &[State],
) -> Result<Coded, WalkFault>
    requires ready { Stays (C.ready scene.now) bank.old }
    requires states { AreStates bank.old states.now }
    ensures { IfOk result (WalksLived (C.around scene.now) frame.now room items.now bank.old bank.new states.now
        place) }
{
    let steps = Steps {
        alloc,
        scene,
        room,
        height,
        code: walk_code::<C>,
    };
    steps.lived(frame, items, place, bank, states)
}
