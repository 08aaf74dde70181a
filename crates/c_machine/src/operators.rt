//! Operators on values (C99 6.5.3.3, 6.5.5 to 6.5.12): each gives the value, or ends the run at the operator's token.
ghost use Rattle.std.specs.Prelude.{◌≡◌, nat_eq, nat_le, nat_lt, not};
ghost use Rattle.c_means.specs.Operators as operators;
ghost use Rattle.c_means.specs.Parts.{or_stop};
ghost use Rattle.c_machine.specs.States.{state, Runs, seen, HasNumber};

use crate::halt::Halt;
use crate::machine::Machine;
use crate::operand::Operand;
use c_language::{BinaryOperator, UnaryOperator};
use c_type_forms::{turned, worked};
use plain_data::Undefined;

impl Machine {
    fn or_stop(&mut self, at: u32, answer: Result<i128, Undefined>) -> Result<i128, Halt>
        ensures world { self.new.world ≡ self.old.world }
        ensures runs { Runs result (state self.new) (or_stop at answer (state self.old)) }
    {
        match answer {
            Ok(value) => Ok(value),
            Err(kind) => Err(self.stop(at, kind)),
        }
    }

    fn arithmetic(
        &mut self,
        at: u32,
        operator: BinaryOperator,
        x: &Operand,
        y: &Operand,
    ) -> Result<i128, Halt>
        requires x_number { HasNumber x.now }
        requires y_number { HasNumber y.now }
        ensures world { self.new.world ≡ self.old.world }
        ensures runs { Runs result (state self.new) (operators.arithmetic at operator (seen x.now) (seen y.now) (state self.old)) }
    {
        match (x.kind, y.kind) {
            (Some(a), Some(b)) => {
                let answer = worked(operator, a.usual(b), x.value.scalar(), y.value.scalar());
                self.or_stop(at, answer)
            }
            _ => Ok(0),
        }
    }

    fn shift(
        &mut self,
        at: u32,
        operator: BinaryOperator,
        x: &Operand,
        y: &Operand,
    ) -> Result<i128, Halt>
        requires x_number { HasNumber x.now }
        requires y_number { HasNumber y.now }
        ensures world { self.new.world ≡ self.old.world }
        ensures runs { Runs result (state self.new) (operators.shift at operator (seen x.now) (seen y.now) (state self.old)) }
    {
        match (x.kind, y.kind) {
            (Some(a), Some(_)) => {
                let answer = worked(operator, a.promoted(), x.value.scalar(), y.value.scalar());
                self.or_stop(at, answer)
            }
            _ => Ok(0),
        }
    }

    fn addition(&mut self, at: u32, x: &Operand, y: &Operand) -> Result<i128, Halt>
        requires x_number { HasNumber x.now }
        requires y_number { HasNumber y.now }
        ensures world { self.new.world ≡ self.old.world }
        ensures runs { Runs result (state self.new) (operators.addition at (seen x.now) (seen y.now) (state self.old)) }
    {
        match (x.kind, y.kind) {
            (Some(_), Some(_)) => self.arithmetic(at, BinaryOperator::Add, x, y),
            (None, Some(_)) => self.moved(at, x.element, y.value.scalar(), x.value.address()),
            (Some(_), None) => self.moved(at, y.element, x.value.scalar(), y.value.address()),
            (None, None) => Ok(0),
        }
    }

    fn subtraction(&mut self, at: u32, x: &Operand, y: &Operand) -> Result<i128, Halt>
        requires x_number { HasNumber x.now }
        requires y_number { HasNumber y.now }
        ensures world { self.new.world ≡ self.old.world }
        ensures runs { Runs result (state self.new) (operators.subtraction at (seen x.now) (seen y.now) (state self.old)) }
    {
        match (x.kind, y.kind) {
            (Some(_), Some(_)) => self.arithmetic(at, BinaryOperator::Subtract, x, y),
            (None, Some(_)) => self.moved_back(at, x.element, y.value.scalar(), x.value.address()),
            (None, None) => self.apart(at, x.element, x.value.address(), y.value.address()),
            (Some(_), None) => Ok(0),
        }
    }

    fn relation(
        &mut self,
        at: u32,
        operator: BinaryOperator,
        x: &Operand,
        y: &Operand,
        holds: bool,
    ) -> Result<i128, Halt>
        requires x_number { HasNumber x.now }
        requires y_number { HasNumber y.now }
        ensures world { self.new.world ≡ self.old.world }
        ensures runs { Runs result (state self.new) (operators.relation at operator (λ a b. holds) (seen x.now) (seen y.now) (state self.old)) }
    {
        match (x.kind, y.kind) {
            (Some(_), Some(_)) => self.arithmetic(at, operator, x, y),
            _ => self.ordered(at, x.value.address(), y.value.address(), holds),
        }
    }

    fn equality(
        &mut self,
        at: u32,
        operator: BinaryOperator,
        x: &Operand,
        y: &Operand,
        holds: bool,
    ) -> Result<i128, Halt>
        requires x_number { HasNumber x.now }
        requires y_number { HasNumber y.now }
        ensures world { self.new.world ≡ self.old.world }
        ensures runs { Runs result (state self.new) (operators.equality at operator (λ a b. holds) (seen x.now) (seen y.now) (state self.old)) }
    {
        match (x.kind, y.kind) {
            (Some(_), Some(_)) => self.arithmetic(at, operator, x, y),
            _ => Ok(i128::from(holds)),
        }
    }

    /// A binary operator whose operands are both evaluated (C99 6.5.5 to 6.5.12); `&&` and `||` are none.
    pub fn operated(
        &mut self,
        at: u32,
        operator: BinaryOperator,
        x: &Operand,
        y: &Operand,
    ) -> Result<i128, Halt>
        requires x_number { HasNumber x.now }
        requires y_number { HasNumber y.now }
        ensures world { self.new.world ≡ self.old.world }
        ensures runs { Runs result (state self.new) (operators.operated at operator (seen x.now) (seen y.now) (state self.old)) }
    {
        let a = x.value.address();
        let b = y.value.address();
        match operator {
            BinaryOperator::Multiply => self.arithmetic(at, operator, x, y),
            BinaryOperator::Divide => self.arithmetic(at, operator, x, y),
            BinaryOperator::Remainder => self.arithmetic(at, operator, x, y),
            BinaryOperator::Add => self.addition(at, x, y),
            BinaryOperator::Subtract => self.subtraction(at, x, y),
            BinaryOperator::ShiftLeft => self.shift(at, operator, x, y),
            BinaryOperator::ShiftRight => self.shift(at, operator, x, y),
            BinaryOperator::Less => self.relation(at, operator, x, y, a < b),
            BinaryOperator::Greater => self.relation(at, operator, x, y, b < a),
            BinaryOperator::LessEqual => self.relation(at, operator, x, y, a <= b),
            BinaryOperator::GreaterEqual => self.relation(at, operator, x, y, b <= a),
            BinaryOperator::Equal => self.equality(at, operator, x, y, a == b),
            BinaryOperator::NotEqual => self.equality(at, operator, x, y, a != b),
            BinaryOperator::BitAnd => self.arithmetic(at, operator, x, y),
            BinaryOperator::BitXor => self.arithmetic(at, operator, x, y),
            BinaryOperator::BitOr => self.arithmetic(at, operator, x, y),
            BinaryOperator::LogicalAnd => Ok(0),
            BinaryOperator::LogicalOr => Ok(0),
        }
    }

    /// The operators `+`, `-` and `~` over a value, in the promoted type (C99 6.5.3.3p2 to p4).
    pub fn turned(&mut self, at: u32, operator: UnaryOperator, x: &Operand) -> Result<i128, Halt>
        requires { HasNumber x.now }
        ensures world { self.new.world ≡ self.old.world }
        ensures runs { Runs result (state self.new) (operators.turned_value at operator (seen x.now) (state self.old)) }
    {
        match x.kind {
            Some(kind) => {
                let answer = turned(operator, kind.promoted(), x.value.scalar());
                self.or_stop(at, answer)
            }
            None => Ok(0),
        }
    }
}
