ghost use Rattle.std.specs.Prelude.{◌≡◌, length, nat_eq, nat_le, IfOk};
ghost use Rattle.gates.specs.Nets.{IsBit, IsGate, bit_holds};
ghost use Rattle.word_gates.specs.Spelling.{AreBits, spelled, truths};

use gates::{Bit, BlastFault, Gates};

/// Whether two words of one width are equal.
pub fn equal(gates: &mut Gates, a: &[Bit], b: &[Bit]) -> Result<Bit, BlastFault>
    requires a { AreBits gates.old a.now }
    requires b { AreBits gates.old b.now }
    requires width { length a.now ≡ length b.now }
    ensures { IfOk result (IsGate gates.old gates.new (λ v. nat_eq (spelled v a.now) (spelled v b.now))) }
{
    let mut same = Bit::Known(true);
    'bits: for index in 0..a.len() {
        let differ = gates.xor(a[index], b[index])?;
        same = gates.and(same, differ.negated())?;
    }
    Ok(same)
}

/// Whether the first word is at most the second, of one width: what is carried out of the difference.
pub fn at_most(gates: &mut Gates, a: &[Bit], b: &[Bit]) -> Result<Bit, BlastFault>
    requires a { AreBits gates.old a.now }
    requires b { AreBits gates.old b.now }
    requires width { length a.now ≡ length b.now }
    ensures { IfOk result (IsGate gates.old gates.new (λ v. nat_le (spelled v a.now) (spelled v b.now))) }
{
    let mut carried = Bit::Known(true);
    'bits: for index in 0..a.len() {
        carried = gates.majority(a[index].negated(), b[index], carried)?;
    }
    Ok(carried)
}

/// Whether a word is 0.
pub fn is_zero(gates: &mut Gates, a: &[Bit]) -> Result<Bit, BlastFault>
    requires a { AreBits gates.old a.now }
    ensures { IfOk result (IsGate gates.old gates.new (λ v. nat_eq (spelled v a.now) 0)) }
{
    let mut zero = Bit::Known(true);
    'bits: for index in 0..a.len() {
        zero = gates.and(zero, a[index].negated())?;
    }
    Ok(zero)
}
