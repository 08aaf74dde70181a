//! An expression is run by its form.
ghost use Rattle.std.specs.Prelude.{◌≡◌};
ghost use Rattle.core_tree.specs.Values as core;
ghost use Rattle.core_running.specs.Below.{ReachesValue};
ghost use Rattle.core_running.specs.Settings.{HasWorld};
ghost use Rattle.run_values.specs.Forms.{Fits, RunsAs, EndsAt};
ghost use Rattle.core_running.specs.Below.{ReachesCall};

use crate::below::Below;
use crate::leaves::{constant, fixed, local};
use c_machine::{Halt, Machine, Value};
use core_running::{Found, Frame, Scene};
use core_tree::{Callee, Expr, ValueType};
use std::alloc::{AllocError, Global};

impl<
    'a,
    L: Scene,
    V: Fn(Global, &L, &Frame, &Expr, u64, &mut Machine) -> Result<Found, Halt>,
    K: Fn(
        Global,
        &L,
        &Callee,
        u32,
        ValueType,
        &Frame,
        &[Value],
        u64,
        &mut Machine,
    ) -> Result<(), AllocError>,
> Below<'a, L, V, K> {
    /// Evaluates an expression, over what evaluates its parts.
    pub fn evaluate(&self, e: &Expr, base: u64, m: &mut Machine) -> Result<Found, Halt>
        requires values { ReachesValue L.setting V.Fn self.now.scene self.now.value }
        requires calls { ReachesCall L.setting K.Fn self.now.scene self.now.call }
        requires low { Fits (L.setting self.now.scene.now) base (core.value e.now) }
        requires world { HasWorld (L.setting self.now.scene.now) m.old }
        ensures world { m.new.world ≡ m.old.world }
        ensures runs { RunsAs (L.setting self.now.scene.now) self.now.frame.now base m.old m.new result (core.value e.now) }
        ensures next { EndsAt (L.setting self.now.scene.now) base result (core.value e.now) }
    {
        match e {
            Expr::Constant { value } => constant(value, base),
            Expr::Fixed { place } => fixed(*place, base),
            Expr::Local { at } => local(self.frame, *at, base),
            Expr::Load { access, address } => self.loaded(*access, address.get(), base, m),
            Expr::Target { operand } => self.target(operand.get(), base, m),
            Expr::Pointer { operand } => self.pointer(operand.get(), base, m),
            Expr::Offset { bytes, operand } => self.offset(*bytes, operand.get(), base, m),
            Expr::Extract {
                bytes,
                member,
                operand,
            } => self.extracted(*bytes, *member, operand.get(), base, m),
            Expr::Convert { to, operand } => self.converted(*to, operand.get(), base, m),
            Expr::Cast { to, operand } => self.cast(*to, operand.get(), base, m),
            Expr::Turn {
                at,
                operator,
                word,
                operand,
                ..
            } => self.turned(*at, *operator, *word, operand.get(), base, m),
            Expr::Not { operand } => self.negated(operand.get(), base, m),
            Expr::Operate {
                at,
                operator,
                left,
                right,
                ..
            } => self.operate(*at, *operator, left.get(), right.get(), base, m),
            Expr::And { at, left, right } => self.both(*at, left.get(), right.get(), base, m),
            Expr::Or { at, left, right } => self.either(*at, left.get(), right.get(), base, m),
            Expr::Choose {
                at,
                condition,
                positive,
                negative,
            } => self.choose(
                *at,
                condition.get(),
                positive.get(),
                negative.get(),
                base,
                m,
            ),
            Expr::Store {
                at,
                access,
                target,
                value,
            } => self.store(*at, *access, target.get(), value.get(), base, m),
            Expr::Update {
                at,
                operator,
                access,
                target,
                value,
            } => self.update(*at, *operator, *access, target.get(), value.get(), base, m),
            Expr::Step {
                at,
                operator,
                access,
                answer,
                target,
            } => self.step(*at, *operator, *access, *answer, target.get(), base, m),
            Expr::Comma { first, second } => self.comma(first.get(), second.get(), base, m),
            Expr::Call {
                at,
                arguments,
                callee,
                answer,
                is_used,
            } => self.call(
                *at,
                arguments.as_slice(),
                callee,
                *answer,
                *is_used,
                base,
                m,
            ),
        }
    }
}
