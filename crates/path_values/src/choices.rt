//! Operators that do not evaluate all of their operands (C99 6.5.13 to 6.5.15).
ghost use Rattle.std.specs.Prelude.{◌≡◌, IfOk, OnOk};
ghost use Rattle.core_tree.specs.declared.expr.Expr.TheVariants as e;
ghost use Rattle.path_values.specs.Below.{ReachesValue};
ghost use Rattle.path_values.specs.Evaluations.{StartsIn, EvaluatedIn};

use crate::below::Below;
use core_tree::Expr;
use path_forms::{
    Calls, Placed, Waiting, WalkFault, change, close_and, close_or, meet_waiting, take_no, take_yes,
};
use path_states::Walked;
use plain_data::Items;
use std::alloc::Global;
use term_bank::Bank;

impl<
    'a,
    C: Calls,
    V: Fn(
        Global,
        &C,
        u32,
        &[Placed],
        u64,
        &Expr,
        u64,
        &mut Bank,
        &mut Walked,
        &mut Items<Waiting>,
    ) -> Result<u64, WalkFault>,
> Below<'a, C, V> {
    /// `left && right` (C99 6.5.13p4).
    pub(crate) fn both(
        &self,
        at: u32,
        left: &Expr,
        right: &Expr,
        place: u64,
        bank: &mut Bank,
        walked: &mut Walked,
        waiting: &mut Items<Waiting>,
    ) -> Result<u64, WalkFault>
        requires values { ReachesValue C.around C.ready V.Fn self.now }
        requires starts { StartsIn C.ready self.now bank.old walked.old }
        ensures same { OnOk result (waiting.new ≡ waiting.old) }
        ensures evaluated { IfOk result (λ n. EvaluatedIn C.around C.ready self.now (e.And at left.now right.now)
            bank.old bank.new walked.old walked.new place n) }
    {
        let behind = self.value(left, place, bank, walked, waiting)?;
        take_yes(self.alloc, bank, at, walked, waiting)?;
        let next = self.value(right, behind, bank, walked, waiting)?;
        close_and(self.alloc, bank, self.room, walked, waiting)?;
        Ok(next)
    }

    /// `left || right` (C99 6.5.14p4).
    pub(crate) fn either(
        &self,
        at: u32,
        left: &Expr,
        right: &Expr,
        place: u64,
        bank: &mut Bank,
        walked: &mut Walked,
        waiting: &mut Items<Waiting>,
    ) -> Result<u64, WalkFault>
        requires values { ReachesValue C.around C.ready V.Fn self.now }
        requires starts { StartsIn C.ready self.now bank.old walked.old }
        ensures same { OnOk result (waiting.new ≡ waiting.old) }
        ensures evaluated { IfOk result (λ n. EvaluatedIn C.around C.ready self.now (e.Or at left.now right.now)
            bank.old bank.new walked.old walked.new place n) }
    {
        let behind = self.value(left, place, bank, walked, waiting)?;
        take_no(self.alloc, bank, at, walked, waiting)?;
        let next = self.value(right, behind, bank, walked, waiting)?;
        close_or(self.alloc, bank, self.room, walked, waiting)?;
        Ok(next)
    }

    /// `condition ? positive : negative` (C99 6.5.15p4): both have places, the first one's first.
    pub(crate) fn choose(
        &self,
        at: u32,
        condition: &Expr,
        positive: &Expr,
        negative: &Expr,
        place: u64,
        bank: &mut Bank,
        walked: &mut Walked,
        waiting: &mut Items<Waiting>,
    ) -> Result<u64, WalkFault>
        requires values { ReachesValue C.around C.ready V.Fn self.now }
        requires starts { StartsIn C.ready self.now bank.old walked.old }
        ensures same { OnOk result (waiting.new ≡ waiting.old) }
        ensures evaluated { IfOk result (λ n. EvaluatedIn C.around C.ready self.now (e.Choose at condition.now
            positive.now negative.now) bank.old bank.new walked.old walked.new place n) }
    {
        let first = self.value(condition, place, bank, walked, waiting)?;
        take_yes(self.alloc, bank, at, walked, waiting)?;
        let second = self.value(positive, first, bank, walked, waiting)?;
        change(self.alloc, bank, walked, waiting)?;
        let next = self.value(negative, second, bank, walked, waiting)?;
        meet_waiting(self.alloc, bank, walked, waiting)?;
        Ok(next)
    }
}
