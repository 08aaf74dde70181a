//! Forms over the address of an object (C99 6.3.2.1, 6.5.2.4, 6.5.3.1).
ghost use Rattle.std.specs.Prelude.{◌≡◌, IfOk, OnOk};
ghost use Rattle.core_tree.specs.declared.expr.Expr.TheVariants as e;
ghost use Rattle.path_values.specs.Below.{ReachesValue};
ghost use Rattle.path_values.specs.Evaluations.{StartsIn, EvaluatedIn};

use crate::below::Below;
use core_tree::{Access, Answered, Expr, Operator};
use path_forms::{Calls, Placed, Waiting, WalkFault, check_access, leaf, raise, recall};
use path_states::Walked;
use path_steps::Leaf;
use plain_data::Items;
use std::alloc::Global;
use term_bank::Bank;

impl<
    'a,
    C: Calls,
    V: Fn(
        Global,
        &C,
        u32,
        &[Placed],
        u64,
        &Expr,
        u64,
        &mut Bank,
        &mut Walked,
        &mut Items<Waiting>,
    ) -> Result<u64, WalkFault>,
> Below<'a, C, V> {
    /// What stands at an address (C99 6.3.2.1p2).
    pub(crate) fn load(
        &self,
        access: Access,
        address: &Expr,
        place: u64,
        bank: &mut Bank,
        walked: &mut Walked,
        waiting: &mut Items<Waiting>,
    ) -> Result<u64, WalkFault>
        requires values { ReachesValue C.around C.ready V.Fn self.now }
        requires starts { StartsIn C.ready self.now bank.old walked.old }
        ensures same { OnOk result (waiting.new ≡ waiting.old) }
        ensures evaluated { IfOk result (λ n. EvaluatedIn C.around C.ready self.now (e.Load access address.now)
            bank.old bank.new walked.old walked.new place n) }
    {
        check_access(self.frame, self.room, access, address)?;
        let next = self.value(address, place, bank, walked, waiting)?;
        leaf(self.alloc, bank, self.room, Leaf::Load { access }, walked)?;
        Ok(next)
    }

    /// `++` or `--`: the same with the number 1 (C99 6.5.2.4, 6.5.3.1).
    pub(crate) fn step(
        &self,
        at: u32,
        operator: Operator,
        access: Access,
        answer: Answered,
        target: &Expr,
        place: u64,
        bank: &mut Bank,
        walked: &mut Walked,
        waiting: &mut Items<Waiting>,
    ) -> Result<u64, WalkFault>
        requires values { ReachesValue C.around C.ready V.Fn self.now }
        requires starts { StartsIn C.ready self.now bank.old walked.old }
        ensures same { OnOk result (waiting.new ≡ waiting.old) }
        ensures evaluated { IfOk result (λ n. EvaluatedIn C.around C.ready self.now (e.Step at operator access
            answer target.now) bank.old bank.new walked.old walked.new place n) }
    {
        check_access(self.frame, self.room, access, target)?;
        let next = self.value(target, place, bank, walked, waiting)?;
        recall(self.alloc, bank, self.room, access, walked)?;
        raise(
            self.alloc, bank, self.room, at, operator, access, answer, walked,
        )?;
        Ok(next)
    }
}
