ghost use Rattle.std.specs.Prelude.{◌≡◌, ◌≤◌, ◌^◌, cond, length, nat_lt, IfOk};
ghost use Rattle.plain_data.specs.Words.{bits, shl, lshr, ashr};
ghost use Rattle.word_gates.specs.Spelling.{AreBits, IsWord, spelled};
ghost use Rattle.signed_gates.specs.Signs.{near};

use crate::signs::sign;
use gates::{Bit, BlastFault, Gates};
use plain_data::{Items, Width};
use word_gates::{shift_left, shift_right};

/// How many bits a shift by less than the width has.
pub(crate) fn stages(width: Width) -> u32
    ensures power { 2 ^ result ≡ bits width }
    ensures most { result ≤ 6 }
    ensures within { result ≤ bits width }
{
    match width {
        Width::W8 => 3,
        Width::W16 => 4,
        Width::W32 => 5,
        Width::W64 => 6,
    }
}

/// `a << by` modulo 2^N, and 0 where `by` isn't below the width.
pub fn shift_up(
    gates: &mut Gates,
    a: &[Bit],
    by: &[Bit],
    width: Width,
) -> Result<Items<Bit>, BlastFault>
    requires a { AreBits gates.old a.now }
    requires by { AreBits gates.old by.now }
    requires a_width { length a.now ≡ bits width }
    requires by_width { length by.now ≡ bits width }
    ensures { IfOk result (IsWord gates.old gates.new (bits width)
        (λ v. near width (spelled v by.now) (shl width (spelled v a.now) (spelled v by.now)))) }
{
    let word = shift_left(gates, a, by, stages(width))?;
    Ok(word)
}

/// `a >> by` of an unsigned word, and 0 where `by` isn't below the width.
pub fn logical_shift(
    gates: &mut Gates,
    a: &[Bit],
    by: &[Bit],
    width: Width,
) -> Result<Items<Bit>, BlastFault>
    requires a { AreBits gates.old a.now }
    requires by { AreBits gates.old by.now }
    requires a_width { length a.now ≡ bits width }
    requires by_width { length by.now ≡ bits width }
    ensures { IfOk result (IsWord gates.old gates.new (bits width)
        (λ v. near width (spelled v by.now) (lshr (spelled v a.now) (spelled v by.now)))) }
{
    let word = shift_right(gates, a, by, stages(width), &Bit::Known(false))?;
    Ok(word)
}

/// `a >> by` of a signed word, which copies the sign bit, and 0 where `by` isn't below the width.
pub fn arithmetic_shift(
    gates: &mut Gates,
    a: &[Bit],
    by: &[Bit],
    width: Width,
) -> Result<Items<Bit>, BlastFault>
    requires a { AreBits gates.old a.now }
    requires by { AreBits gates.old by.now }
    requires a_width { length a.now ≡ bits width }
    requires by_width { length by.now ≡ bits width }
    ensures { IfOk result (IsWord gates.old gates.new (bits width)
        (λ v. near width (spelled v by.now) (ashr width (spelled v a.now) (spelled v by.now)))) }
{
    let negative = sign(gates, a, width);
    let word = shift_right(gates, a, by, stages(width), &negative)?;
    Ok(word)
}
