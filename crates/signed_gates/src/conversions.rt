ghost use Rattle.std.specs.Prelude.{◌≡◌, ◌%◌, ◌^◌, length, IfOk};
ghost use Rattle.plain_data.specs.Words.{bits, word, signed};
ghost use Rattle.word_gates.specs.Spelling.{AreBits, IsWord, spelled};

use crate::signs::sign;
use gates::{Bit, BlastFault, Gates};
use plain_data::{Items, Width};
use word_gates::resize;

/// An unsigned word in another width (C99 6.3.1.3).
pub fn zero_extended(
    gates: &Gates,
    a: &[Bit],
    from: Width,
    to: Width,
) -> Result<Items<Bit>, BlastFault>
    requires a { AreBits gates.now a.now }
    requires width { length a.now ≡ bits from }
    ensures { IfOk result (IsWord gates.now gates.now (bits to) (λ v. spelled v a.now % 2 ^ bits to)) }
{
    let _ = from;
    let word = resize(gates, a, to.bits() as usize, &Bit::Known(false))?;
    Ok(word)
}

/// A signed word in another width (C99 6.3.1.3).
pub fn sign_extended(
    gates: &Gates,
    a: &[Bit],
    from: Width,
    to: Width,
) -> Result<Items<Bit>, BlastFault>
    requires a { AreBits gates.now a.now }
    requires width { length a.now ≡ bits from }
    ensures { IfOk result (IsWord gates.now gates.now (bits to) (λ v. word to (signed from (spelled v a.now)))) }
{
    let negative = sign(gates, a, from);
    let word = resize(gates, a, to.bits() as usize, &negative)?;
    Ok(word)
}
