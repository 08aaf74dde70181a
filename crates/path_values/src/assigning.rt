//! Assignment (C99 6.5.16).
ghost use Rattle.std.specs.Prelude.{◌≡◌, IfOk, OnOk};
ghost use Rattle.core_tree.specs.declared.expr.Expr.TheVariants as e;
ghost use Rattle.path_values.specs.Below.{ReachesValue};
ghost use Rattle.path_values.specs.Evaluations.{StartsIn, EvaluatedIn};

use crate::below::Below;
use core_tree::{Access, Expr, Operator};
use path_forms::{Calls, Placed, Waiting, WalkFault, check_access, leaf, operate, recall};
use path_states::Walked;
use path_steps::Leaf;
use plain_data::Items;
use std::alloc::Global;
use term_bank::Bank;

impl<
    'a,
    C: Calls,
    V: Fn(
        Global,
        &C,
        u32,
        &[Placed],
        u64,
        &Expr,
        u64,
        &mut Bank,
        &mut Walked,
        &mut Items<Waiting>,
    ) -> Result<u64, WalkFault>,
> Below<'a, C, V> {
    /// `=`: the address, the value, and the store (C99 6.5.16.1).
    pub(crate) fn store(
        &self,
        at: u32,
        access: Access,
        target: &Expr,
        value: &Expr,
        place: u64,
        bank: &mut Bank,
        walked: &mut Walked,
        waiting: &mut Items<Waiting>,
    ) -> Result<u64, WalkFault>
        requires values { ReachesValue C.around C.ready V.Fn self.now }
        requires starts { StartsIn C.ready self.now bank.old walked.old }
        ensures same { OnOk result (waiting.new ≡ waiting.old) }
        ensures evaluated { IfOk result (λ n. EvaluatedIn C.around C.ready self.now (e.Store at access target.now
            value.now) bank.old bank.new walked.old walked.new place n) }
    {
        check_access(self.frame, self.room, access, target)?;
        let second = self.value(target, place, bank, walked, waiting)?;
        let next = self.value(value, second, bank, walked, waiting)?;
        leaf(
            self.alloc,
            bank,
            self.room,
            Leaf::Put { at, access },
            walked,
        )?;
        Ok(next)
    }

    /// `op=`: the address, what stands there, the other operand, the operator and the store (C99 6.5.16.2).
    pub(crate) fn update(
        &self,
        at: u32,
        operator: Operator,
        access: Access,
        target: &Expr,
        value: &Expr,
        place: u64,
        bank: &mut Bank,
        walked: &mut Walked,
        waiting: &mut Items<Waiting>,
    ) -> Result<u64, WalkFault>
        requires values { ReachesValue C.around C.ready V.Fn self.now }
        requires starts { StartsIn C.ready self.now bank.old walked.old }
        ensures same { OnOk result (waiting.new ≡ waiting.old) }
        ensures evaluated { IfOk result (λ n. EvaluatedIn C.around C.ready self.now (e.Update at operator access
            target.now value.now) bank.old bank.new walked.old walked.new place n) }
    {
        check_access(self.frame, self.room, access, target)?;
        let behind = self.value(target, place, bank, walked, waiting)?;
        recall(self.alloc, bank, self.room, access, walked)?;
        let next = self.value(value, behind, bank, walked, waiting)?;
        operate(self.alloc, bank, self.room, at, operator, walked)?;
        leaf(
            self.alloc,
            bank,
            self.room,
            Leaf::Put { at, access },
            walked,
        )?;
        Ok(next)
    }
}
