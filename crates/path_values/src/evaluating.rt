//! An expression is walked by its form.
ghost use Rattle.std.specs.Prelude.{◌≡◌, IfOk, OnOk};
ghost use Rattle.path_values.specs.Below.{ReachesValue};
ghost use Rattle.path_values.specs.Evaluations.{StartsIn, EvaluatedIn};

use crate::below::Below;
use core_tree::Expr;
use path_forms::{Calls, Placed, Waiting, WalkFault};
use path_states::Walked;
use plain_data::Items;
use std::alloc::Global;
use term_bank::Bank;

impl<
    'a,
    C: Calls,
    V: Fn(
        Global,
        &C,
        u32,
        &[Placed],
        u64,
        &Expr,
        u64,
        &mut Bank,
        &mut Walked,
        &mut Items<Waiting>,
    ) -> Result<u64, WalkFault>,
> Below<'a, C, V> {
    /// An expression, over what walks its parts.
    pub(crate) fn evaluate(
        &self,
        expression: &Expr,
        place: u64,
        bank: &mut Bank,
        walked: &mut Walked,
        waiting: &mut Items<Waiting>,
    ) -> Result<u64, WalkFault>
        requires values { ReachesValue C.around C.ready V.Fn self.now }
        requires starts { StartsIn C.ready self.now bank.old walked.old }
        ensures same { OnOk result (waiting.new ≡ waiting.old) }
        ensures evaluated { IfOk result (λ n. EvaluatedIn C.around C.ready self.now expression.now bank.old bank.new
            walked.old walked.new place n) }
    {
        match expression {
            Expr::Constant { value } => self.constant(value, place, bank, walked),
            Expr::Fixed { place: object } => self.fixed(*object, place, bank, walked),
            Expr::Local { at } => self.local(*at, place, bank, walked),
            Expr::Load { access, address } => {
                self.load(*access, address.get(), place, bank, walked, waiting)
            }
            Expr::Target { operand } => self.target(operand.get(), place, bank, walked, waiting),
            Expr::Pointer { operand } => self.pointer(operand.get(), place, bank, walked, waiting),
            Expr::Offset { bytes, operand } => {
                self.offset(*bytes, operand.get(), place, bank, walked, waiting)
            }
            Expr::Extract { .. } => Err(WalkFault::Unwalked),
            Expr::Convert { to, operand } => {
                self.convert(*to, operand.get(), place, bank, walked, waiting)
            }
            Expr::Cast { to, operand } => {
                self.cast(*to, operand.get(), place, bank, walked, waiting)
            }
            Expr::Turn {
                at,
                operator,
                word,
                operand,
                ..
            } => self.turn(
                *at,
                *operator,
                *word,
                operand.get(),
                place,
                bank,
                walked,
                waiting,
            ),
            Expr::Not { operand } => self.not(operand.get(), place, bank, walked, waiting),
            Expr::Operate {
                at,
                operator,
                left,
                right,
                ..
            } => {
                self.operate(
                    *at,
                    *operator,
                    left.get(),
                    right.get(),
                    place,
                    bank,
                    walked,
                    waiting,
                )
            }
            Expr::And { at, left, right } => {
                self.both(*at, left.get(), right.get(), place, bank, walked, waiting)
            }
            Expr::Or { at, left, right } => {
                self.either(*at, left.get(), right.get(), place, bank, walked, waiting)
            }
            Expr::Choose {
                at,
                condition,
                positive,
                negative,
            } => self.choose(
                *at,
                condition.get(),
                positive.get(),
                negative.get(),
                place,
                bank,
                walked,
                waiting,
            ),
            Expr::Store {
                at,
                access,
                target,
                value,
            } => {
                self.store(
                    *at,
                    *access,
                    target.get(),
                    value.get(),
                    place,
                    bank,
                    walked,
                    waiting,
                )
            }
            Expr::Update {
                at,
                operator,
                access,
                target,
                value,
            } => self.update(
                *at,
                *operator,
                *access,
                target.get(),
                value.get(),
                place,
                bank,
                walked,
                waiting,
            ),
            Expr::Step {
                at,
                operator,
                access,
                answer,
                target,
            } => self.step(
                *at,
                *operator,
                *access,
                *answer,
                target.get(),
                place,
                bank,
                walked,
                waiting,
            ),
            Expr::Comma { first, second } => {
                self.comma(first.get(), second.get(), place, bank, walked, waiting)
            }
            Expr::Call {
                at,
                arguments,
                callee,
                answer,
                is_used,
            } => self.call(
                *at,
                arguments.as_slice(),
                callee,
                *answer,
                *is_used,
                place,
                bank,
                walked,
                waiting,
            ),
        }
    }
}
