ghost use Rattle.std.specs.Prelude.{◌≡◌, ◌<◌, ◌^◌, IfSome};
ghost use Rattle.plain_data.specs.Words.{bits};
ghost use Rattle.term_bank.specs.Values.{result_of, outcome_of, converted, divided, shifted};
ghost use Rattle.plain_data.specs.Words.{sdiv as signed_quotient, srem as signed_remainder};

use crate::shape::{Extension, WordOperator, WordTest};
use plain_data::{
    Width, add, add_over, ashr, div_over, lshr, mul, mul_over, sdiv, shl, shl_over, slt, srem, sub,
    sub_over, to_signed, udiv, ult, urem, wrap,
};

/// The quotient of signed constants, 0 by 0. It says nothing of the least word by -1.
fn signed_divided(width: Width, a: u64, b: u64) -> Option<u64>
    requires a_in { a < 2 ^ bits width }
    requires b_in { b < 2 ^ bits width }
    ensures { IfSome result (λ x. x ≡ divided b (signed_quotient width a b)) }
{
    if b == 0 {
        Some(0)
    } else if div_over(a, b, width) {
        None
    } else {
        Some(sdiv(a, b, width))
    }
}

/// The remainder of signed constants, 0 by 0. It says nothing of the least word by -1.
fn signed_left(width: Width, a: u64, b: u64) -> Option<u64>
    requires a_in { a < 2 ^ bits width }
    requires b_in { b < 2 ^ bits width }
    ensures { IfSome result (λ x. x ≡ divided b (signed_remainder width a b)) }
{
    if b == 0 {
        Some(0)
    } else if div_over(a, b, width) {
        None
    } else {
        Some(srem(a, b, width))
    }
}

/// What a shift operator gives for constants, where the shift is below the width.
#[tactic(auto, unfolding(crate::specs::Values::result_of))]
fn shifted_by(operator: WordOperator, width: Width, a: u64, by: u32) -> Option<u64>
    requires a_in { a < 2 ^ bits width }
    requires by_in { by < bits width }
    ensures { IfSome result (λ x. x ≡ result_of operator width a by) }
{
    match operator {
        WordOperator::Shl => Some(shl(a, by, width)),
        WordOperator::Lshr => Some(lshr(a, by, width)),
        WordOperator::Ashr => Some(ashr(a, by, width)),
        _ => None,
    }
}

/// What an operator gives for constants. It says nothing of the least signed word by -1.
#[tactic(auto, unfolding(crate::specs::Values::result_of))]
pub(crate) fn result(operator: WordOperator, width: Width, a: u64, b: u64) -> Option<u64>
    requires a_in { a < 2 ^ bits width }
    requires b_in { b < 2 ^ bits width }
    ensures { IfSome result (λ x. x ≡ result_of operator width a b) }
{
    match operator {
        WordOperator::Add => Some(add(a, b, width)),
        WordOperator::Sub => Some(sub(a, b, width)),
        WordOperator::Mul => Some(mul(a, b, width)),
        WordOperator::Udiv if b == 0 => Some(0),
        WordOperator::Udiv => Some(udiv(a, b, width)),
        WordOperator::Urem if b == 0 => Some(0),
        WordOperator::Urem => Some(urem(a, b, width)),
        WordOperator::Sdiv => signed_divided(width, a, b),
        WordOperator::Srem => signed_left(width, a, b),
        WordOperator::And => Some(a & b),
        WordOperator::Or => Some(a | b),
        WordOperator::Xor => Some(a ^ b),
        WordOperator::Shl | WordOperator::Lshr | WordOperator::Ashr => {
            if b < u64::from(width.bits()) {
                shifted_by(operator, width, a, b as u32)
            } else {
                Some(0)
            }
        }
    }
}

/// What a test says of constants.
#[tactic(auto, unfolding(crate::specs::Values::outcome_of))]
pub(crate) fn outcome(test: WordTest, width: Width, a: u64, b: u64) -> bool
    requires a_in { a < 2 ^ bits width }
    requires b_in { b < 2 ^ bits width }
    ensures { result ≡ outcome_of test width a b }
{
    match test {
        WordTest::Equal => a == b,
        WordTest::Below => ult(a, b, width),
        WordTest::SignedBelow => slt(a, b, width),
        WordTest::AddOver => add_over(a, b, width),
        WordTest::SubOver => sub_over(a, b, width),
        WordTest::MulOver => mul_over(a, b, width),
        WordTest::DivOver => div_over(a, b, width),
        WordTest::ShlOver => b >= u64::from(width.bits()) || shl_over(a, b as u32, width),
    }
}

/// A constant in another width.
#[tactic(auto, unfolding(crate::specs::Values::converted))]
pub(crate) fn conversion(extension: Extension, from: Width, to: Width, a: u64) -> u64
    requires { a < 2 ^ bits from }
    ensures value { result ≡ converted extension from to a }
{
    match extension {
        Extension::Zero => wrap(i128::from(a), to),
        Extension::Sign => wrap(i128::from(to_signed(a, from)), to),
    }
}
