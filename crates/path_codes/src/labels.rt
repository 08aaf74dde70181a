//! Labeled statements (C99 6.8.1), at which a run on its way may arrive.
ghost use Rattle.std.specs.Prelude.{◌≡◌, IfOk, Some};
ghost use Rattle.c_means.specs.Items as arriving;
ghost use Rattle.core_tree.specs.Codes as form;
ghost use Rattle.path_forms.specs.Calling.{Stays};
ghost use Rattle.path_states.specs.States.{AreStates};
ghost use Rattle.path_arrows.specs.declared.points.Point.TheVariants as point;
ghost use Rattle.path_arrows.specs.Points.{at_point};
ghost use Rattle.path_codes.specs.Below.{ReachesCode};
ghost use Rattle.path_codes.specs.Walks.{WalksItem};

use crate::below::{Coded, Steps};
use c_language::Name;
use core_tree::Code;
use path_arrows::{Point, arrive};
use path_forms::{Calls, Placed, WalkFault};
use path_states::State;
use std::alloc::{AllocError, Global};
use term_bank::Bank;

fn at_case(value: &i128) -> Point
    ensures { result ≡ point.Case value.now }
{
    Point::Case { value: *value }
}

fn at_label(name: &Name) -> Result<Point, AllocError>
    ensures { IfOk result (λ p. p ≡ point.Label name.now) }
{
    let name = name.clone()?;
    Ok(Point::Label { name })
}

impl<
    'a,
    C: Calls,
    X: Fn(
        Global,
        &C,
        u64,
        u32,
        &[Placed],
        &Code,
        u64,
        &mut Bank,
        &[State],
    ) -> Result<Coded, WalkFault>,
> Steps<'a, C, X> {
    /// Code behind a point at which a run may arrive.
    fn arrived(
        &self,
        frame: &[Placed],
        point: &Point,
        body: &Code,
        place: u64,
        bank: &mut Bank,
        states: &[State],
    ) -> Result<Coded, WalkFault>
        requires codes { ReachesCode C.around C.ready X.Fn self.now.scene self.now.room self.now.height self.now.code }
        requires ready { Stays (C.ready self.now.scene.now) bank.old }
        requires states { AreStates bank.old states.now }
        ensures { (more : _) → IfOk result (WalksItem (C.around self.now.scene.now) frame.now self.now.room
            (form.arrived (at_point point.now) more (form.code body.now)) bank.old bank.new states.now place) }
    {
        let there = arrive(self.alloc, point, states)?;
        let coded = self.part(frame, body, place, bank, there.as_slice())?;
        Ok(coded)
    }

    /// Code behind a label, at which a `goto` to it arrives (C99 6.8.1p4).
    pub(crate) fn labeled(
        &self,
        frame: &[Placed],
        name: &Name,
        body: &Code,
        place: u64,
        bank: &mut Bank,
        states: &[State],
    ) -> Result<Coded, WalkFault>
        requires codes { ReachesCode C.around C.ready X.Fn self.now.scene self.now.room self.now.height self.now.code }
        requires ready { Stays (C.ready self.now.scene.now) bank.old }
        requires states { AreStates bank.old states.now }
        ensures { IfOk result (WalksItem (C.around self.now.scene.now) frame.now self.now.room (form.arrived
            (arriving.at_label name.now) form.no_more (form.code body.now)) bank.old bank.new states.now place) }
    {
        let point = at_label(name)?;
        let coded = self.arrived(frame, &point, body, place, bank, states)?;
        Ok(coded)
    }

    /// Code behind `case`, at which a `switch` to this value arrives (C99 6.8.4.2p5).
    pub(crate) fn case(
        &self,
        frame: &[Placed],
        value: &i128,
        body: &Code,
        place: u64,
        bank: &mut Bank,
        states: &[State],
    ) -> Result<Coded, WalkFault>
        requires codes { ReachesCode C.around C.ready X.Fn self.now.scene self.now.room self.now.height self.now.code }
        requires ready { Stays (C.ready self.now.scene.now) bank.old }
        requires states { AreStates bank.old states.now }
        ensures { (more : _) → IfOk result (WalksItem (C.around self.now.scene.now) frame.now self.now.room
            (form.arrived (arriving.at_case (Some value.now)) more (form.code body.now)) bank.old bank.new
            states.now place) }
    {
        let coded = self.arrived(frame, &at_case(value), body, place, bank, states)?;
        Ok(coded)
    }

    /// Code behind `default`, at which a `switch` without a case for its value arrives (C99 6.8.4.2p5).
    pub(crate) fn default(
        &self,
        frame: &[Placed],
        body: &Code,
        place: u64,
        bank: &mut Bank,
        states: &[State],
    ) -> Result<Coded, WalkFault>
        requires codes { ReachesCode C.around C.ready X.Fn self.now.scene self.now.room self.now.height self.now.code }
        requires ready { Stays (C.ready self.now.scene.now) bank.old }
        requires states { AreStates bank.old states.now }
        ensures { IfOk result (WalksItem (C.around self.now.scene.now) frame.now self.now.room (form.arrived
            arriving.at_default form.no_more (form.code body.now)) bank.old bank.new states.now place) }
    {
        let coded = self.arrived(frame, &Point::Default, body, place, bank, states)?;
        Ok(coded)
    }
}
