ghost use Rattle.std.specs.Prelude.{◌≡◌, ◌+◌, ◌-◌, ◌%◌, ◌^◌, cond, length, nat_lt, nat_eq, IfOk};
ghost use Rattle.plain_data.specs.Words.{bits, word, slt};
ghost use Rattle.gates.specs.Nets.{IsBit, IsGate, bit_holds, exclusive};
ghost use Rattle.word_gates.specs.Spelling.{AreBits, IsWord, spelled, truths};
ghost use Rattle.signed_gates.specs.Signs.{is_negative, magnitude as magnitude_of, with_sign as signed_by};

use gates::{Bit, BlastFault, Gates};
use plain_data::{Items, Width};
use word_gates::{at_most, choose, repeated, subtract};

/// A word's sign bit.
pub(crate) fn sign(gates: &Gates, a: &[Bit], width: Width) -> Bit
    requires a { AreBits gates.now a.now }
    requires width { length a.now ≡ bits width }
    ensures { IsGate gates.now gates.now (λ v. is_negative width (spelled v a.now)) result }
{
    let _ = gates;
    let _ = width;
    a[a.len() - 1]
}

/// Whether the sign bits of two words differ.
pub(crate) fn signs_differ(
    gates: &mut Gates,
    a: &[Bit],
    b: &[Bit],
    width: Width,
) -> Result<Bit, BlastFault>
    requires a { AreBits gates.old a.now }
    requires b { AreBits gates.old b.now }
    requires a_width { length a.now ≡ bits width }
    requires b_width { length b.now ≡ bits width }
    ensures { IfOk result (IsGate gates.old gates.new
        (λ v. exclusive (is_negative width (spelled v a.now)) (is_negative width (spelled v b.now)))) }
{
    let one = sign(gates, a, width);
    let other = sign(gates, b, width);
    let differ = gates.xor(one, other)?;
    Ok(differ)
}

/// The word, or its opposite modulo 2^N where a bit is true.
fn negated_if(gates: &mut Gates, condition: &Bit, a: &[Bit]) -> Result<Items<Bit>, BlastFault>
    requires condition { IsBit gates.old condition.now }
    requires a { AreBits gates.old a.now }
    ensures { IfOk result (IsWord gates.old gates.new (length a.now)
        (λ v. cond (bit_holds v condition.now) ((2 ^ length a.now - spelled v a.now) % 2 ^ length a.now)
        (spelled v a.now))) }
{
    let zeros = repeated(gates, &Bit::Known(false), a.len())?;
    let opposite = subtract(gates, zeros.as_slice(), a)?;
    let word = choose(gates, condition, opposite.as_slice(), a)?;
    Ok(word)
}

/// How far a signed word is from 0.
pub(crate) fn magnitude(
    gates: &mut Gates,
    a: &[Bit],
    width: Width,
) -> Result<Items<Bit>, BlastFault>
    requires a { AreBits gates.old a.now }
    requires width { length a.now ≡ bits width }
    ensures { IfOk result (IsWord gates.old gates.new (bits width) (λ v. magnitude_of width (spelled v a.now))) }
{
    let negative = sign(gates, a, width);
    let word = negated_if(gates, &negative, a)?;
    Ok(word)
}

/// The word of a number, or of its opposite where a bit is true.
pub(crate) fn with_sign(
    gates: &mut Gates,
    negative: &Bit,
    a: &[Bit],
    width: Width,
) -> Result<Items<Bit>, BlastFault>
    requires negative { IsBit gates.old negative.now }
    requires a { AreBits gates.old a.now }
    requires width { length a.now ≡ bits width }
    ensures { IfOk result (IsWord gates.old gates.new (bits width)
        (λ v. word width (signed_by (bit_holds v negative.now) (spelled v a.now)))) }
{
    let _ = width;
    let word = negated_if(gates, negative, a)?;
    Ok(word)
}

/// A word whose sign bit is turned: its order is that of the signed numbers.
fn turned(gates: &Gates, a: &[Bit], width: Width) -> Result<Items<Bit>, BlastFault>
    requires a { AreBits gates.now a.now }
    requires width { length a.now ≡ bits width }
    ensures { IfOk result (IsWord gates.now gates.now (bits width)
        (λ v. (spelled v a.now + 2 ^ (bits width - 1)) % 2 ^ bits width)) }
{
    let _ = width;
    let (low, _) = a.split_at(a.len() - 1);
    let mut word = gates.no_bits();
    word.extend_from_slice(low)?;
    word.push(a[a.len() - 1].negated())?;
    Ok(word)
}

/// `a < b` of unsigned words.
pub fn below(gates: &mut Gates, a: &[Bit], b: &[Bit]) -> Result<Bit, BlastFault>
    requires a { AreBits gates.old a.now }
    requires b { AreBits gates.old b.now }
    requires width { length a.now ≡ length b.now }
    ensures { IfOk result (IsGate gates.old gates.new (λ v. nat_lt (spelled v a.now) (spelled v b.now))) }
{
    let turned_round = at_most(gates, b, a)?;
    Ok(turned_round.negated())
}

/// `a < b` of signed words.
pub fn signed_below(
    gates: &mut Gates,
    a: &[Bit],
    b: &[Bit],
    width: Width,
) -> Result<Bit, BlastFault>
    requires a { AreBits gates.old a.now }
    requires b { AreBits gates.old b.now }
    requires a_width { length a.now ≡ bits width }
    requires b_width { length b.now ≡ bits width }
    ensures { IfOk result (IsGate gates.old gates.new (λ v. slt width (spelled v a.now) (spelled v b.now))) }
{
    let one = turned(gates, a, width)?;
    let other = turned(gates, b, width)?;
    let less = below(gates, one.as_slice(), other.as_slice())?;
    Ok(less)
}
