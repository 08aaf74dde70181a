ghost use Rattle.std.specs.Prelude.{◌≡◌, length, IfOk};
ghost use Rattle.plain_data.specs.Words.{bits, sdiv, srem};
ghost use Rattle.word_gates.specs.Spelling.{AreBits, IsWord, spelled};
ghost use Rattle.signed_gates.specs.Signs.{IsDivided, divided};

use crate::signs::{magnitude, sign, signs_differ, with_sign};
use gates::{Bit, BlastFault, Gates};
use plain_data::{Items, Width};
use word_gates::{Division, divide};

/// The quotient and the remainder of two words' magnitudes.
fn divide_magnitudes(
    gates: &mut Gates,
    a: &[Bit],
    b: &[Bit],
    width: Width,
) -> Result<Division, BlastFault>
    requires a { AreBits gates.old a.now }
    requires b { AreBits gates.old b.now }
    requires a_width { length a.now ≡ bits width }
    requires b_width { length b.now ≡ bits width }
    ensures { IfOk result (IsDivided gates.old gates.new width a.now b.now) }
{
    let one = magnitude(gates, a, width)?;
    let other = magnitude(gates, b, width)?;
    let division = divide(gates, one.as_slice(), other.as_slice())?;
    Ok(division)
}

/// Signed `a / b`, toward zero (C99 6.5.5), and 0 where `b` is 0.
pub fn signed_quotient(
    gates: &mut Gates,
    a: &[Bit],
    b: &[Bit],
    width: Width,
) -> Result<Items<Bit>, BlastFault>
    requires a { AreBits gates.old a.now }
    requires b { AreBits gates.old b.now }
    requires a_width { length a.now ≡ bits width }
    requires b_width { length b.now ≡ bits width }
    ensures { IfOk result (IsWord gates.old gates.new (bits width)
        (λ v. divided (spelled v b.now) (sdiv width (spelled v a.now) (spelled v b.now)))) }
{
    let division = divide_magnitudes(gates, a, b, width)?;
    let negative = signs_differ(gates, a, b, width)?;
    let word = with_sign(gates, &negative, division.quotient.as_slice(), width)?;
    Ok(word)
}

/// Signed `a % b`, with the sign of `a` (C99 6.5.5), and 0 where `b` is 0.
pub fn signed_remainder(
    gates: &mut Gates,
    a: &[Bit],
    b: &[Bit],
    width: Width,
) -> Result<Items<Bit>, BlastFault>
    requires a { AreBits gates.old a.now }
    requires b { AreBits gates.old b.now }
    requires a_width { length a.now ≡ bits width }
    requires b_width { length b.now ≡ bits width }
    ensures { IfOk result (IsWord gates.old gates.new (bits width)
        (λ v. divided (spelled v b.now) (srem width (spelled v a.now) (spelled v b.now)))) }
{
    let division = divide_magnitudes(gates, a, b, width)?;
    let negative = sign(gates, a, width);
    let word = with_sign(gates, &negative, division.remainder.as_slice(), width)?;
    Ok(word)
}
