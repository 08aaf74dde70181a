//! Forms over two parts that are both evaluated (C99 6.5.5 to 6.5.12, 6.5.17).
ghost use Rattle.std.specs.Prelude.{◌≡◌, IfOk, OnOk};
ghost use Rattle.core_tree.specs.declared.expr.Expr.TheVariants as e;
ghost use Rattle.path_values.specs.Below.{ReachesValue};
ghost use Rattle.path_values.specs.Evaluations.{StartsIn, EvaluatedIn};

use crate::below::Below;
use core_tree::{Expr, Operator};
use path_forms::{Calls, Placed, Waiting, WalkFault, leaf, operate};
use path_states::Walked;
use path_steps::Leaf;
use plain_data::Items;
use std::alloc::Global;
use term_bank::Bank;

impl<
    'a,
    C: Calls,
    V: Fn(
        Global,
        &C,
        u32,
        &[Placed],
        u64,
        &Expr,
        u64,
        &mut Bank,
        &mut Walked,
        &mut Items<Waiting>,
    ) -> Result<u64, WalkFault>,
> Below<'a, C, V> {
    /// An operator on the values of two operands, the left one evaluated first.
    pub(crate) fn operate(
        &self,
        at: u32,
        operator: Operator,
        left: &Expr,
        right: &Expr,
        place: u64,
        bank: &mut Bank,
        walked: &mut Walked,
        waiting: &mut Items<Waiting>,
    ) -> Result<u64, WalkFault>
        requires values { ReachesValue C.around C.ready V.Fn self.now }
        requires starts { StartsIn C.ready self.now bank.old walked.old }
        ensures same { OnOk result (waiting.new ≡ waiting.old) }
        ensures evaluated { (is_constant : _) → IfOk result (λ n. EvaluatedIn C.around C.ready self.now (e.Operate
            at operator is_constant left.now right.now) bank.old bank.new walked.old walked.new place n) }
    {
        let behind = self.value(left, place, bank, walked, waiting)?;
        let next = self.value(right, behind, bank, walked, waiting)?;
        operate(self.alloc, bank, self.room, at, operator, walked)?;
        Ok(next)
    }

    /// `first, second` (C99 6.5.17).
    pub(crate) fn comma(
        &self,
        first: &Expr,
        second: &Expr,
        place: u64,
        bank: &mut Bank,
        walked: &mut Walked,
        waiting: &mut Items<Waiting>,
    ) -> Result<u64, WalkFault>
        requires values { ReachesValue C.around C.ready V.Fn self.now }
        requires starts { StartsIn C.ready self.now bank.old walked.old }
        ensures same { OnOk result (waiting.new ≡ waiting.old) }
        ensures evaluated { IfOk result (λ n. EvaluatedIn C.around C.ready self.now (e.Comma first.now second.now)
            bank.old bank.new walked.old walked.new place n) }
    {
        let behind = self.value(first, place, bank, walked, waiting)?;
        leaf(self.alloc, bank, self.room, Leaf::Drop, walked)?;
        let next = self.value(second, behind, bank, walked, waiting)?;
        Ok(next)
    }
}
