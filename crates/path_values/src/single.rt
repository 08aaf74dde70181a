//! Forms without parts, and over one.
ghost use Rattle.std.specs.Prelude.{◌≡◌, IfOk, OnOk};
ghost use Rattle.core_tree.specs.declared.expr.Expr.TheVariants as e;
ghost use Rattle.path_values.specs.Below.{ReachesValue};
ghost use Rattle.path_values.specs.Evaluations.{StartsIn, EvaluatedIn};

use crate::below::Below;
use core_tree::{Expr, Turning, ValueType, WordType};
use path_forms::{Calls, Placed, Waiting, WalkFault, constant, fixed, leaf, local};
use path_states::Walked;
use path_steps::Leaf;
use plain_data::Items;
use std::alloc::Global;
use term_bank::Bank;

impl<
    'a,
    C: Calls,
    V: Fn(
        Global,
        &C,
        u32,
        &[Placed],
        u64,
        &Expr,
        u64,
        &mut Bank,
        &mut Walked,
        &mut Items<Waiting>,
    ) -> Result<u64, WalkFault>,
> Below<'a, C, V> {
    /// A constant.
    pub(crate) fn constant(
        &self,
        value: &i128,
        place: u64,
        bank: &mut Bank,
        walked: &mut Walked,
    ) -> Result<u64, WalkFault>
        requires { StartsIn C.ready self.now bank.old walked.old }
        ensures { IfOk result (λ n. EvaluatedIn C.around C.ready self.now (e.Constant value.now) bank.old bank.new
            walked.old walked.new place n) }
    {
        constant(self.alloc, bank, self.room, value, walked)?;
        Ok(place)
    }

    /// The address of an object that lives throughout the run.
    pub(crate) fn fixed(
        &self,
        object: u64,
        place: u64,
        bank: &mut Bank,
        walked: &mut Walked,
    ) -> Result<u64, WalkFault>
        requires { StartsIn C.ready self.now bank.old walked.old }
        ensures { IfOk result (λ n. EvaluatedIn C.around C.ready self.now (e.Fixed object) bank.old bank.new
            walked.old walked.new place n) }
    {
        fixed(self.alloc, bank, self.room, object, walked)?;
        Ok(place)
    }

    /// The address of an automatic object.
    pub(crate) fn local(
        &self,
        at: u32,
        place: u64,
        bank: &mut Bank,
        walked: &mut Walked,
    ) -> Result<u64, WalkFault>
        requires { StartsIn C.ready self.now bank.old walked.old }
        ensures { IfOk result (λ n. EvaluatedIn C.around C.ready self.now (e.Local at) bank.old bank.new walked.old
            walked.new place n) }
    {
        local(self.alloc, bank, self.frame, self.room, at, walked)?;
        Ok(place)
    }

    /// `*operand`: the address that a pointer is (C99 6.5.3.2p4).
    pub(crate) fn target(
        &self,
        operand: &Expr,
        place: u64,
        bank: &mut Bank,
        walked: &mut Walked,
        waiting: &mut Items<Waiting>,
    ) -> Result<u64, WalkFault>
        requires values { ReachesValue C.around C.ready V.Fn self.now }
        requires starts { StartsIn C.ready self.now bank.old walked.old }
        ensures same { OnOk result (waiting.new ≡ waiting.old) }
        ensures evaluated { IfOk result (λ n. EvaluatedIn C.around C.ready self.now (e.Target operand.now) bank.old
            bank.new walked.old walked.new place n) }
    {
        let next = self.value(operand, place, bank, walked, waiting)?;
        let address = Leaf::Convert {
            to: ValueType::Pointer,
        };
        leaf(self.alloc, bank, self.room, address, walked)?;
        Ok(next)
    }

    /// `&operand`: an address as a pointer (C99 6.5.3.2p3).
    pub(crate) fn pointer(
        &self,
        operand: &Expr,
        place: u64,
        bank: &mut Bank,
        walked: &mut Walked,
        waiting: &mut Items<Waiting>,
    ) -> Result<u64, WalkFault>
        requires values { ReachesValue C.around C.ready V.Fn self.now }
        requires starts { StartsIn C.ready self.now bank.old walked.old }
        ensures same { OnOk result (waiting.new ≡ waiting.old) }
        ensures evaluated { IfOk result (λ n. EvaluatedIn C.around C.ready self.now (e.Pointer operand.now) bank.old
            bank.new walked.old walked.new place n) }
    {
        let next = self.value(operand, place, bank, walked, waiting)?;
        Ok(next)
    }

    /// `.` or `->`: so many bytes behind an address (C99 6.5.2.3).
    pub(crate) fn offset(
        &self,
        bytes: u64,
        operand: &Expr,
        place: u64,
        bank: &mut Bank,
        walked: &mut Walked,
        waiting: &mut Items<Waiting>,
    ) -> Result<u64, WalkFault>
        requires values { ReachesValue C.around C.ready V.Fn self.now }
        requires starts { StartsIn C.ready self.now bank.old walked.old }
        ensures same { OnOk result (waiting.new ≡ waiting.old) }
        ensures evaluated { IfOk result (λ n. EvaluatedIn C.around C.ready self.now (e.Offset bytes operand.now)
            bank.old bank.new walked.old walked.new place n) }
    {
        let next = self.value(operand, place, bank, walked, waiting)?;
        leaf(self.alloc, bank, self.room, Leaf::Offset { bytes }, walked)?;
        Ok(next)
    }

    /// A conversion (C99 6.3).
    pub(crate) fn convert(
        &self,
        to: ValueType,
        operand: &Expr,
        place: u64,
        bank: &mut Bank,
        walked: &mut Walked,
        waiting: &mut Items<Waiting>,
    ) -> Result<u64, WalkFault>
        requires values { ReachesValue C.around C.ready V.Fn self.now }
        requires starts { StartsIn C.ready self.now bank.old walked.old }
        ensures same { OnOk result (waiting.new ≡ waiting.old) }
        ensures evaluated { IfOk result (λ n. EvaluatedIn C.around C.ready self.now (e.Convert to operand.now)
            bank.old bank.new walked.old walked.new place n) }
    {
        let next = self.value(operand, place, bank, walked, waiting)?;
        leaf(self.alloc, bank, self.room, Leaf::Convert { to }, walked)?;
        Ok(next)
    }

    /// A cast (C99 6.5.4).
    pub(crate) fn cast(
        &self,
        to: ValueType,
        operand: &Expr,
        place: u64,
        bank: &mut Bank,
        walked: &mut Walked,
        waiting: &mut Items<Waiting>,
    ) -> Result<u64, WalkFault>
        requires values { ReachesValue C.around C.ready V.Fn self.now }
        requires starts { StartsIn C.ready self.now bank.old walked.old }
        ensures same { OnOk result (waiting.new ≡ waiting.old) }
        ensures evaluated { IfOk result (λ n. EvaluatedIn C.around C.ready self.now (e.Cast to operand.now) bank.old
            bank.new walked.old walked.new place n) }
    {
        let next = self.value(operand, place, bank, walked, waiting)?;
        leaf(self.alloc, bank, self.room, Leaf::Convert { to }, walked)?;
        Ok(next)
    }

    /// `+`, `-` or `~` (C99 6.5.3.3p2 to p4).
    pub(crate) fn turn(
        &self,
        at: u32,
        operator: Turning,
        word: WordType,
        operand: &Expr,
        place: u64,
        bank: &mut Bank,
        walked: &mut Walked,
        waiting: &mut Items<Waiting>,
    ) -> Result<u64, WalkFault>
        requires values { ReachesValue C.around C.ready V.Fn self.now }
        requires starts { StartsIn C.ready self.now bank.old walked.old }
        ensures same { OnOk result (waiting.new ≡ waiting.old) }
        ensures evaluated { (is_constant : _) → IfOk result (λ n. EvaluatedIn C.around C.ready self.now (e.Turn at
            operator word is_constant operand.now) bank.old bank.new walked.old walked.new place n) }
    {
        let next = self.value(operand, place, bank, walked, waiting)?;
        let turn = Leaf::Turn { at, operator, word };
        leaf(self.alloc, bank, self.room, turn, walked)?;
        Ok(next)
    }

    /// `!operand` (C99 6.5.3.3p5).
    pub(crate) fn not(
        &self,
        operand: &Expr,
        place: u64,
        bank: &mut Bank,
        walked: &mut Walked,
        waiting: &mut Items<Waiting>,
    ) -> Result<u64, WalkFault>
        requires values { ReachesValue C.around C.ready V.Fn self.now }
        requires starts { StartsIn C.ready self.now bank.old walked.old }
        ensures same { OnOk result (waiting.new ≡ waiting.old) }
        ensures evaluated { IfOk result (λ n. EvaluatedIn C.around C.ready self.now (e.Not operand.now) bank.old
            bank.new walked.old walked.new place n) }
    {
        let next = self.value(operand, place, bank, walked, waiting)?;
        leaf(self.alloc, bank, self.room, Leaf::Not, walked)?;
        Ok(next)
    }
}
