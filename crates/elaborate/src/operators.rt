//! The operator of the core that a binary operator of C is, by the types of its operands.
ghost use Rattle.std.specs.Prelude.{◌≡◌, IfSome};
ghost use Rattle.elaborate.specs.Operators as spec;

use crate::types::{arithmetic, word_type};
use c_language::{BinaryOperator, IntegerKind};
use core_tree::{Operator, Relation};

/// What an operator is to know of an operand: the integer type that it has, or, of a pointer, the bytes of what it
/// points to.
#[derive(Clone, Copy, PartialEq, Eq)]
pub struct OperandType {
    pub kind: Option<IntegerKind>,
    pub element: u64,
}

/// The type in which a binary operator works: that of the usual conversions (C99 6.3.1.8), of a shift the promoted left
/// operand's (C99 6.5.7p3).
pub fn working(operator: BinaryOperator, left: IntegerKind, right: IntegerKind) -> IntegerKind
    ensures { result ≡ spec.working operator left right }
{
    match operator {
        BinaryOperator::ShiftLeft | BinaryOperator::ShiftRight => left.promoted(),
        _ => left.usual(right),
    }
}

/// The comparison of two pointers, or of a pointer and an integer (C99 6.5.8, 6.5.9).
fn comparison(operator: BinaryOperator) -> Option<Operator>
    ensures { result ≡ spec.comparison operator }
{
    match operator {
        BinaryOperator::Less => Some(Operator::Order(Relation::Less)),
        BinaryOperator::Greater => Some(Operator::Order(Relation::Greater)),
        BinaryOperator::LessEqual => Some(Operator::Order(Relation::LessEqual)),
        BinaryOperator::GreaterEqual => Some(Operator::Order(Relation::GreaterEqual)),
        BinaryOperator::Equal => Some(Operator::Same),
        BinaryOperator::NotEqual => Some(Operator::Different),
        _ => None,
    }
}

/// The operator on integers.
fn on_integers(operator: BinaryOperator, left: IntegerKind, right: IntegerKind) -> Option<Operator>
    ensures { result ≡ spec.on_integers operator left right }
{
    match arithmetic(operator) {
        Some(number) => Some(Operator::Numbers(number, word_type(working(operator, left, right)))),
        None => None,
    }
}

/// The operator on a pointer and an integer (C99 6.5.6p8).
fn on_pointer(operator: BinaryOperator, size: u64) -> Option<Operator>
    ensures { result ≡ spec.on_pointer operator size }
{
    match operator {
        BinaryOperator::Add => Some(Operator::Forward { size }),
        BinaryOperator::Subtract => Some(Operator::Back { size }),
        _ => comparison(operator),
    }
}

/// The operator on an integer and a pointer.
fn by_pointer(operator: BinaryOperator, size: u64) -> Option<Operator>
    ensures { result ≡ spec.by_pointer operator size }
{
    match operator {
        BinaryOperator::Add => Some(Operator::ForwardBy { size }),
        _ => comparison(operator),
    }
}

/// The operator on two pointers (C99 6.5.6p9).
fn on_pointers(operator: BinaryOperator, size: u64) -> Option<Operator>
    ensures { result ≡ spec.on_pointers operator size }
{
    match operator {
        BinaryOperator::Subtract => Some(Operator::Distance { size }),
        _ => comparison(operator),
    }
}

/// The operator of the core that does what a binary operator does on values of these types; none where the operands
/// break a rule, and for `&&` and `||`.
#[tactic(auto, using(crate::proofs::Operates::operates_if))]
pub fn operator_of(
    operator: BinaryOperator,
    left: OperandType,
    right: OperandType,
) -> Option<Operator>
    ensures chosen { result ≡ spec.operator_of operator left right }
    ensures does { IfSome result (λ q. spec.Operates operator left right q) }
{
    match left.kind {
        Some(a) => match right.kind {
            Some(b) => on_integers(operator, a, b),
            None => by_pointer(operator, right.element),
        },
        None => match right.kind {
            Some(_) => on_pointer(operator, left.element),
            None => on_pointers(operator, left.element),
        },
    }
}
