ghost use Rattle.std.specs.Prelude.{◌≡◌, length, IfOk};
ghost use Rattle.plain_data.specs.Words.{bits};
ghost use Rattle.gates.specs.Nets.{IsGate};
ghost use Rattle.word_gates.specs.Spelling.{AreBits, IsWord, spelled};
ghost use Rattle.term_bank.specs.Values.{result_of, outcome_of, converted};
ghost use Rattle.term_bank.specs.declared.shape.WordOperator.TheVariants.{Udiv, Urem};
ghost use Rattle.bitvectors.specs.Amounts.{bit_result};

use gates::{Bit, BlastFault, Gates};
use plain_data::{Items, Width};
use signed_gates::{
    add_overflows, arithmetic_shift, below, divide_overflows, logical_shift, multiply_overflows,
    shift_overflows, shift_up, sign_extended, signed_below, signed_quotient, signed_remainder,
    subtract_overflows, zero_extended,
};
use term_bank::{Extension, WordOperator, WordTest};
use word_gates::{BitOperator, add, bitwise, divide, equal, multiply, subtract};

/// The quotient of unsigned words, 0 by 0.
fn unsigned_quotient(
    gates: &mut Gates,
    a: &[Bit],
    b: &[Bit],
    width: Width,
) -> Result<Items<Bit>, BlastFault>
    requires a { AreBits gates.old a.now }
    requires b { AreBits gates.old b.now }
    requires a_width { length a.now ≡ bits width }
    requires b_width { length b.now ≡ bits width }
    ensures { IfOk result (IsWord gates.old gates.new (bits width)
        (λ v. result_of Udiv width (spelled v a.now) (spelled v b.now))) }
{
    let _ = width;
    let division = divide(gates, a, b)?;
    Ok(division.quotient)
}

/// The remainder of unsigned words, 0 by 0.
fn unsigned_remainder(
    gates: &mut Gates,
    a: &[Bit],
    b: &[Bit],
    width: Width,
) -> Result<Items<Bit>, BlastFault>
    requires a { AreBits gates.old a.now }
    requires b { AreBits gates.old b.now }
    requires a_width { length a.now ≡ bits width }
    requires b_width { length b.now ≡ bits width }
    ensures { IfOk result (IsWord gates.old gates.new (bits width)
        (λ v. result_of Urem width (spelled v a.now) (spelled v b.now))) }
{
    let _ = width;
    let division = divide(gates, a, b)?;
    Ok(division.remainder)
}

/// A bitwise operator on two words.
fn operate_bitwise(
    gates: &mut Gates,
    operator: BitOperator,
    a: &[Bit],
    b: &[Bit],
) -> Result<Items<Bit>, BlastFault>
    requires a { AreBits gates.old a.now }
    requires b { AreBits gates.old b.now }
    requires width { length a.now ≡ length b.now }
    ensures { IfOk result (IsWord gates.old gates.new (length a.now)
        (λ v. bit_result operator (spelled v a.now) (spelled v b.now))) }
{
    let word = bitwise(gates, operator, a, b)?;
    Ok(word)
}

/// An operator on two words.
pub(crate) fn operate(
    gates: &mut Gates,
    operator: WordOperator,
    width: Width,
    a: &[Bit],
    b: &[Bit],
) -> Result<Items<Bit>, BlastFault>
    requires a { AreBits gates.old a.now }
    requires b { AreBits gates.old b.now }
    requires a_width { length a.now ≡ bits width }
    requires b_width { length b.now ≡ bits width }
    ensures { IfOk result (IsWord gates.old gates.new (bits width)
        (λ v. result_of operator width (spelled v a.now) (spelled v b.now))) }
{
    match operator {
        WordOperator::Add => add(gates, a, b),
        WordOperator::Sub => subtract(gates, a, b),
        WordOperator::Mul => multiply(gates, a, b),
        WordOperator::Udiv => unsigned_quotient(gates, a, b, width),
        WordOperator::Urem => unsigned_remainder(gates, a, b, width),
        WordOperator::Sdiv => signed_quotient(gates, a, b, width),
        WordOperator::Srem => signed_remainder(gates, a, b, width),
        WordOperator::And => operate_bitwise(gates, BitOperator::And, a, b),
        WordOperator::Or => operate_bitwise(gates, BitOperator::Or, a, b),
        WordOperator::Xor => operate_bitwise(gates, BitOperator::Xor, a, b),
        WordOperator::Shl => shift_up(gates, a, b, width),
        WordOperator::Lshr => logical_shift(gates, a, b, width),
        WordOperator::Ashr => arithmetic_shift(gates, a, b, width),
    }
}

/// A test of two words.
pub(crate) fn compare(
    gates: &mut Gates,
    test: WordTest,
    width: Width,
    a: &[Bit],
    b: &[Bit],
) -> Result<Bit, BlastFault>
    requires a { AreBits gates.old a.now }
    requires b { AreBits gates.old b.now }
    requires a_width { length a.now ≡ bits width }
    requires b_width { length b.now ≡ bits width }
    ensures { IfOk result (IsGate gates.old gates.new
        (λ v. outcome_of test width (spelled v a.now) (spelled v b.now))) }
{
    match test {
        WordTest::Equal => equal(gates, a, b),
        WordTest::Below => below(gates, a, b),
        WordTest::SignedBelow => signed_below(gates, a, b, width),
        WordTest::AddOver => add_overflows(gates, a, b, width),
        WordTest::SubOver => subtract_overflows(gates, a, b, width),
        WordTest::MulOver => multiply_overflows(gates, a, b, width),
        WordTest::DivOver => divide_overflows(gates, a, b, width),
        WordTest::ShlOver => shift_overflows(gates, a, b, width),
    }
}

/// A word in another width.
pub(crate) fn extend(
    gates: &Gates,
    extension: Extension,
    from: Width,
    to: Width,
    a: &[Bit],
) -> Result<Items<Bit>, BlastFault>
    requires a { AreBits gates.now a.now }
    requires width { length a.now ≡ bits from }
    ensures { IfOk result (IsWord gates.now gates.now (bits to) (λ v. converted extension from to (spelled v a.now))) }
{
    match extension {
        Extension::Zero => zero_extended(gates, a, from, to),
        Extension::Sign => sign_extended(gates, a, from, to),
    }
}
