ghost use Rattle.std.specs.Prelude.{◌≡◌, ◌<◌, ◌≤◌, ◌+◌, ◌-◌, ◌*◌, ◌/◌, ◌%◌, ◌^◌, cond, IfOk};
ghost use Rattle.std.specs.Prelude.{length, nat_eq, nat_lt, drop, take};
ghost use Rattle.gates.specs.Nets.{IsBit, IsGate, bit_holds};
ghost use Rattle.word_gates.specs.Spelling.{AreBits, IsWord, flipped, number, spelled, truths};

use crate::comparing::is_zero;
use crate::operators::choose;
use crate::wires::{moved_down, moved_up, repeated};
use gates::{Bit, BlastFault, Gates};
use plain_data::Items;

/// 2 to the stage.
fn power(stage: u32) -> usize
    requires { stage ≤ 6 }
    ensures { result ≡ 2 ^ stage }
{
    1 << stage
}

/// The word moved up by so many bits where a bit is true.
fn move_up_if(
    gates: &mut Gates,
    condition: &Bit,
    a: &[Bit],
    by: usize,
) -> Result<Items<Bit>, BlastFault>
    requires condition { IsBit gates.old condition.now }
    requires a { AreBits gates.old a.now }
    requires by { by ≤ length a.now }
    ensures { IfOk result (IsWord gates.old gates.new (length a.now)
        (λ v. (spelled v a.now * 2 ^ (by * number (bit_holds v condition.now))) % 2 ^ length a.now)) }
{
    let moved = moved_up(gates, a, by)?;
    let word = choose(gates, condition, moved.as_slice(), a)?;
    Ok(word)
}

/// The word moved down by so many bits where a bit is true, with another bit above.
fn move_down_if(
    gates: &mut Gates,
    condition: &Bit,
    a: &[Bit],
    by: usize,
    fill: &Bit,
) -> Result<Items<Bit>, BlastFault>
    requires condition { IsBit gates.old condition.now }
    requires a { AreBits gates.old a.now }
    requires fill { IsBit gates.old fill.now }
    requires by { by ≤ length a.now }
    ensures { IfOk result (IsWord gates.old gates.new (length a.now)
        (λ v. flipped (length a.now) (bit_holds v fill.now)
        (flipped (length a.now) (bit_holds v fill.now) (spelled v a.now)
        / 2 ^ (by * number (bit_holds v condition.now))))) }
{
    let moved = moved_down(gates, a, by, fill)?;
    let word = choose(gates, condition, moved.as_slice(), a)?;
    Ok(word)
}

/// The word moved up by the number that the lowest bits of another give, so many.
fn move_up(gates: &mut Gates, a: &[Bit], by: &[Bit], stages: u32) -> Result<Items<Bit>, BlastFault>
    requires a { AreBits gates.old a.now }
    requires by { AreBits gates.old by.now }
    requires stages { stages ≤ 6 }
    requires width { 2 ^ stages ≡ length a.now }
    requires enough { stages ≤ length by.now }
    ensures { IfOk result (IsWord gates.old gates.new (length a.now)
        (λ v. (spelled v a.now * 2 ^ spelled v (take stages by.now)) % 2 ^ length a.now)) }
{
    let mut word = gates.no_bits();
    word.extend_from_slice(a)?;
    'stages: for stage in 0..stages {
        let place = stage as usize;
        word = move_up_if(gates, &by[place], word.as_slice(), power(stage))?;
    }
    Ok(word)
}

/// The word moved down by the number that the lowest bits of another give, so many, with one bit above.
fn move_down(
    gates: &mut Gates,
    a: &[Bit],
    by: &[Bit],
    stages: u32,
    fill: &Bit,
) -> Result<Items<Bit>, BlastFault>
    requires a { AreBits gates.old a.now }
    requires by { AreBits gates.old by.now }
    requires fill { IsBit gates.old fill.now }
    requires stages { stages ≤ 6 }
    requires width { 2 ^ stages ≡ length a.now }
    requires enough { stages ≤ length by.now }
    ensures { IfOk result (IsWord gates.old gates.new (length a.now)
        (λ v. flipped (length a.now) (bit_holds v fill.now)
        (flipped (length a.now) (bit_holds v fill.now) (spelled v a.now) / 2 ^ spelled v (take stages by.now)))) }
{
    let mut word = gates.no_bits();
    word.extend_from_slice(a)?;
    'stages: for stage in 0..stages {
        let place = stage as usize;
        word = move_down_if(gates, &by[place], word.as_slice(), power(stage), fill)?;
    }
    Ok(word)
}

/// The bits from an index on.
fn bits_from(a: &[Bit], index: usize) -> &[Bit]
    requires { index ≤ length a.now }
    ensures { result.now ≡ drop index a.now }
{
    let (_, high) = a.split_at(index);
    high
}

/// The word where the shift is by less than its width, and else 0.
fn unless_too_far(
    gates: &mut Gates,
    word: &[Bit],
    by: &[Bit],
    stages: u32,
) -> Result<Items<Bit>, BlastFault>
    requires word { AreBits gates.old word.now }
    requires by { AreBits gates.old by.now }
    requires width { 2 ^ stages ≡ length word.now }
    requires enough { stages ≤ length by.now }
    ensures { IfOk result (IsWord gates.old gates.new (length word.now)
        (λ v. cond (nat_lt (spelled v by.now) (length word.now)) (spelled v word.now) 0)) }
{
    let near = is_zero(gates, bits_from(by, stages as usize))?;
    let zeros = repeated(gates, &Bit::Known(false), word.len())?;
    let kept = choose(gates, &near, word, zeros.as_slice())?;
    Ok(kept)
}

/// The word moved up by the number that another gives, and 0 where that is its width or more.
pub fn shift_left(
    gates: &mut Gates,
    a: &[Bit],
    by: &[Bit],
    stages: u32,
) -> Result<Items<Bit>, BlastFault>
    requires a { AreBits gates.old a.now }
    requires by { AreBits gates.old by.now }
    requires stages { stages ≤ 6 }
    requires width { 2 ^ stages ≡ length a.now }
    requires enough { stages ≤ length by.now }
    ensures { IfOk result (IsWord gates.old gates.new (length a.now)
        (λ v. cond (nat_lt (spelled v by.now) (length a.now))
        ((spelled v a.now * 2 ^ spelled v by.now) % 2 ^ length a.now) 0)) }
{
    let moved = move_up(gates, a, by, stages)?;
    let word = unless_too_far(gates, moved.as_slice(), by, stages)?;
    Ok(word)
}

/// The word moved down by the number that another gives, with one bit above, and 0 where that is its width or more.
pub fn shift_right(
    gates: &mut Gates,
    a: &[Bit],
    by: &[Bit],
    stages: u32,
    fill: &Bit,
) -> Result<Items<Bit>, BlastFault>
    requires a { AreBits gates.old a.now }
    requires by { AreBits gates.old by.now }
    requires fill { IsBit gates.old fill.now }
    requires stages { stages ≤ 6 }
    requires width { 2 ^ stages ≡ length a.now }
    requires enough { stages ≤ length by.now }
    ensures { IfOk result (IsWord gates.old gates.new (length a.now)
        (λ v. cond (nat_lt (spelled v by.now) (length a.now)) (flipped (length a.now) (bit_holds v fill.now)
        (flipped (length a.now) (bit_holds v fill.now) (spelled v a.now) / 2 ^ spelled v by.now)) 0)) }
{
    let moved = move_down(gates, a, by, stages, fill)?;
    let word = unless_too_far(gates, moved.as_slice(), by, stages)?;
    Ok(word)
}
