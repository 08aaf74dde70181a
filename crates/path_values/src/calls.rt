//! Calls (C99 6.5.2.2).
ghost use Rattle.std.specs.Prelude.{◌≡◌, IfOk, OnOk, List};
ghost use Rattle.core_tree.specs.declared.expr.Expr.TheVariants as e;
ghost use Rattle.path_values.specs.Below.{ReachesValue};
ghost use Rattle.path_values.specs.Evaluations.{StartsIn, EvaluatedIn, AllEvaluatedIn};

use crate::below::Below;
use core_tree::{Callee, Expr, ValueType};
use path_forms::{CallSite, Calls, Placed, Waiting, WalkFault, behind_callee, call_each};
use path_states::Walked;
use plain_data::{Items, Shared};
use std::alloc::Global;
use term_bank::Bank;

impl<
    'a,
    C: Calls,
    V: Fn(
        Global,
        &C,
        u32,
        &[Placed],
        u64,
        &Expr,
        u64,
        &mut Bank,
        &mut Walked,
        &mut Items<Waiting>,
    ) -> Result<u64, WalkFault>,
> Below<'a, C, V> {
    /// Arguments, from left to right (C99 6.5.2.2p10).
    fn arguments(
        &self,
        items: &[Shared<Expr>],
        place: u64,
        bank: &mut Bank,
        walked: &mut Walked,
        waiting: &mut Items<Waiting>,
    ) -> Result<u64, WalkFault>
        requires values { ReachesValue C.around C.ready V.Fn self.now }
        requires starts { StartsIn C.ready self.now bank.old walked.old }
        ensures same { OnOk result (waiting.new ≡ waiting.old) }
        ensures evaluated { IfOk result (λ n. AllEvaluatedIn C.around C.ready self.now items.now bank.old bank.new
            walked.old walked.new place n) }
    {
        match items.split_first() {
            Some((first, rest)) => {
                let behind = self.value(first.get(), place, bank, walked, waiting)?;
                let next = self.arguments(rest, behind, bank, walked, waiting)?;
                Ok(next)
            }
            None => Ok(place),
        }
    }

    /// A call: the arguments, the event, what is called, and its answer.
    pub(crate) fn call(
        &self,
        at: u32,
        items: &[Shared<Expr>],
        callee: &Callee,
        answer: ValueType,
        is_used: bool,
        place: u64,
        bank: &mut Bank,
        walked: &mut Walked,
        waiting: &mut Items<Waiting>,
    ) -> Result<u64, WalkFault>
        requires values { ReachesValue C.around C.ready V.Fn self.now }
        requires starts { StartsIn C.ready self.now bank.old walked.old }
        ensures same { OnOk result (waiting.new ≡ waiting.old) }
        ensures evaluated { IfOk result (λ n. EvaluatedIn C.around C.ready self.now (e.Call at items.now callee.now
            answer is_used) bank.old bank.new walked.old walked.new place n) }
    {
        let behind = self.arguments(items, place, bank, walked, waiting)?;
        let site = CallSite {
            at,
            answer,
            is_used,
            count: items.len(),
            place: behind,
        };
        call_each(
            self.alloc, self.scene, bank, self.frame, self.room, callee, site, walked,
        )?;
        let next = behind_callee(self.scene, callee, behind)?;
        Ok(next)
    }
}
