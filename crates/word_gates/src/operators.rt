ghost use Rattle.std.specs.Prelude.{◌≡◌, cond, length, map, IfOk};
ghost use Rattle.gates.specs.Nets.{IsBit, IsGate, bit_holds, opposite};
ghost use Rattle.word_gates.specs.Spelling.{AreBits, HasTruths, IsWord, connected, each_two, spelled, truths};

use gates::{Bit, BlastFault, Gates};
use plain_data::Items;

/// An operator on each two bits of two words.
#[derive(Clone, Copy)]
pub enum BitOperator {
    And,
    Or,
    Xor,
}

/// The operator on two bits.
fn connect(gates: &mut Gates, operator: BitOperator, a: Bit, b: Bit) -> Result<Bit, BlastFault>
    requires a { IsBit gates.old a }
    requires b { IsBit gates.old b }
    ensures { IfOk result (IsGate gates.old gates.new (λ v. connected operator (bit_holds v a) (bit_holds v b))) }
{
    match operator {
        BitOperator::And => gates.and(a, b),
        BitOperator::Or => gates.or(a, b),
        BitOperator::Xor => gates.xor(a, b),
    }
}

/// The operator on each two bits.
pub fn bitwise(
    gates: &mut Gates,
    operator: BitOperator,
    a: &[Bit],
    b: &[Bit],
) -> Result<Items<Bit>, BlastFault>
    requires a { AreBits gates.old a.now }
    requires b { AreBits gates.old b.now }
    requires width { length a.now ≡ length b.now }
    ensures { IfOk result (HasTruths gates.old gates.new (length a.now)
        (λ v. each_two operator (truths v a.now) (truths v b.now))) }
{
    let mut word = gates.no_bits();
    'bits: for index in 0..a.len() {
        let bit = connect(gates, operator, a[index], b[index])?;
        word.push(bit)?;
    }
    Ok(word)
}

/// The first word where the condition is true, and else the second.
pub fn choose(
    gates: &mut Gates,
    condition: &Bit,
    a: &[Bit],
    b: &[Bit],
) -> Result<Items<Bit>, BlastFault>
    requires condition { IsBit gates.old condition.now }
    requires a { AreBits gates.old a.now }
    requires b { AreBits gates.old b.now }
    requires width { length a.now ≡ length b.now }
    ensures { IfOk result (HasTruths gates.old gates.new (length a.now)
        (λ v. cond (bit_holds v condition.now) (truths v a.now) (truths v b.now))) }
{
    let mut word = gates.no_bits();
    'bits: for index in 0..a.len() {
        let bit = gates.choose(*condition, a[index], b[index])?;
        word.push(bit)?;
    }
    Ok(word)
}

/// The opposites of the bits. They take no clause.
pub fn complement(gates: &Gates, a: &[Bit]) -> Result<Items<Bit>, BlastFault>
    ensures { IfOk result (λ word. word ≡ map opposite a.now) }
{
    let mut word = gates.no_bits();
    'bits: for index in 0..a.len() {
        word.push(a[index].negated())?;
    }
    Ok(word)
}
