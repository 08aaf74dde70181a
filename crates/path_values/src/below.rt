//! The parts of an expression are walked by a function that is handed in, so that each form is a function by itself.
ghost use Rattle.std.specs.Prelude.{◌≡◌, IfOk, OnOk};
ghost use Rattle.path_values.specs.Below.{ReachesValue};
ghost use Rattle.path_values.specs.Evaluations.{StartsIn, EvaluatedIn};

use core_tree::Expr;
use path_forms::{Calls, Placed, Waiting, WalkFault};
use path_states::Walked;
use plain_data::Items;
use std::alloc::Global;
use term_bank::Bank;

/// What walks the parts of an expression, and what of its function the walk knows: `value` is handed the height that
/// an expression may have, the first place of its own, and the sides of branches that wait.
#[derive(Clone, Copy)]
pub struct Below<'a, C, V> {
    pub alloc: Global,
    pub scene: &'a C,
    pub height: u32,
    pub frame: &'a [Placed],
    pub room: u64,
    pub value: V,
}

impl<
    'a,
    C: Calls,
    V: Fn(
        Global,
        &C,
        u32,
        &[Placed],
        u64,
        &Expr,
        u64,
        &mut Bank,
        &mut Walked,
        &mut Items<Waiting>,
    ) -> Result<u64, WalkFault>,
> Below<'a, C, V> {
    /// Walks a part, and answers the next place behind its own.
    pub(crate) fn value(
        &self,
        expression: &Expr,
        place: u64,
        bank: &mut Bank,
        walked: &mut Walked,
        waiting: &mut Items<Waiting>,
    ) -> Result<u64, WalkFault>
        requires values { ReachesValue C.around C.ready V.Fn self.now }
        requires starts { StartsIn C.ready self.now bank.old walked.old }
        ensures same { OnOk result (waiting.new ≡ waiting.old) }
        ensures evaluated { IfOk result (λ n. EvaluatedIn C.around C.ready self.now expression.now bank.old bank.new
            walked.old walked.new place n) }
    {
        (self.value)(
            self.alloc,
            self.scene,
            self.height,
            self.frame,
            self.room,
            expression,
            place,
            bank,
            walked,
            waiting,
        )
    }
}
