ghost use Rattle.std.specs.Prelude.{◌≡◌, ◌≤◌, ◌+◌, ◌-◌, ◌*◌, ◌^◌, ◌&&◌, not, cond, length, nat_eq, pos, ◌+ℤ◌, IfOk};
ghost use Rattle.plain_data.specs.Words.{bits, signed, is_signed, add_over, sub_over, mul_over, shl_over};
ghost use Rattle.gates.specs.Nets.{IsBit, IsGate, bit_holds};
ghost use Rattle.word_gates.specs.Spelling.{AreBits, IsWord, number, spelled, truths};
ghost use Rattle.signed_gates.specs.Signs.{magnitude as magnitude_of};

use crate::shifting::stages;
use crate::signs::{magnitude, signs_differ};
use gates::{Bit, BlastFault, Gates};
use plain_data::{Items, Width};
use word_gates::{
    add_with_carry, at_most, complement, constant, equal, multiply, repeated, resize, shift_right,
};

/// Whether the signed sum of two words and of a carry leaves the type: what is carried into the sign bit isn't what is
/// carried out of it.
fn sum_overflows(
    gates: &mut Gates,
    a: &[Bit],
    b: &[Bit],
    carry: Bit,
    width: Width,
) -> Result<Bit, BlastFault>
    requires a { AreBits gates.old a.now }
    requires b { AreBits gates.old b.now }
    requires carry { IsBit gates.old carry }
    requires a_width { length a.now ≡ bits width }
    requires b_width { length b.now ≡ bits width }
    ensures { IfOk result (IsGate gates.old gates.new (λ v. not (is_signed width
        (signed width (spelled v a.now) +ℤ signed width (spelled v b.now) +ℤ pos (number (bit_holds v carry)))))) }
{
    let _ = width;
    let top = a.len() - 1;
    let (low_a, _) = a.split_at(top);
    let (low_b, _) = b.split_at(top);
    let sum = add_with_carry(gates, low_a, low_b, carry)?;
    let carried_out = gates.majority(a[top], b[top], sum.carry)?;
    let leaves = gates.xor(sum.carry, carried_out)?;
    Ok(leaves)
}

/// Whether signed `a + b` leaves the type.
pub fn add_overflows(
    gates: &mut Gates,
    a: &[Bit],
    b: &[Bit],
    width: Width,
) -> Result<Bit, BlastFault>
    requires a { AreBits gates.old a.now }
    requires b { AreBits gates.old b.now }
    requires a_width { length a.now ≡ bits width }
    requires b_width { length b.now ≡ bits width }
    ensures { IfOk result (IsGate gates.old gates.new (λ v. add_over width (spelled v a.now) (spelled v b.now))) }
{
    let leaves = sum_overflows(gates, a, b, Bit::Known(false), width)?;
    Ok(leaves)
}

/// Whether signed `a - b` leaves the type.
pub fn subtract_overflows(
    gates: &mut Gates,
    a: &[Bit],
    b: &[Bit],
    width: Width,
) -> Result<Bit, BlastFault>
    requires a { AreBits gates.old a.now }
    requires b { AreBits gates.old b.now }
    requires a_width { length a.now ≡ bits width }
    requires b_width { length b.now ≡ bits width }
    ensures { IfOk result (IsGate gates.old gates.new (λ v. sub_over width (spelled v a.now) (spelled v b.now))) }
{
    let opposites = complement(gates, b)?;
    let leaves = sum_overflows(gates, a, opposites.as_slice(), Bit::Known(true), width)?;
    Ok(leaves)
}

/// The greatest magnitude in the signed type, by the sign, in twice as many bits: 2^(N-1) of a negative number, else 1
/// less.
fn greatest_magnitude(gates: &Gates, negative: &Bit, width: Width) -> Result<Items<Bit>, BlastFault>
    requires { IsBit gates.now negative.now }
    ensures { IfOk result (IsWord gates.now gates.now (2 * bits width)
        (λ v. 2 ^ (bits width - 1) - 1 + number (bit_holds v negative.now))) }
{
    let bits = width.bits() as usize;
    let mut word = repeated(gates, &negative.negated(), bits - 1)?;
    word.push(*negative)?;
    let zeros = repeated(gates, &Bit::Known(false), bits)?;
    word.append(zeros)?;
    Ok(word)
}

/// The product of two words' magnitudes, in twice as many bits.
fn multiply_magnitudes(
    gates: &mut Gates,
    a: &[Bit],
    b: &[Bit],
    width: Width,
) -> Result<Items<Bit>, BlastFault>
    requires a { AreBits gates.old a.now }
    requires b { AreBits gates.old b.now }
    requires a_width { length a.now ≡ bits width }
    requires b_width { length b.now ≡ bits width }
    ensures { IfOk result (IsWord gates.old gates.new (2 * bits width)
        (λ v. magnitude_of width (spelled v a.now) * magnitude_of width (spelled v b.now))) }
{
    let one = magnitude(gates, a, width)?;
    let other = magnitude(gates, b, width)?;
    let bits = 2 * width.bits() as usize;
    let wide = resize(gates, one.as_slice(), bits, &Bit::Known(false))?;
    let factor = resize(gates, other.as_slice(), bits, &Bit::Known(false))?;
    let product = multiply(gates, wide.as_slice(), factor.as_slice())?;
    Ok(product)
}

/// Whether signed `a * b` leaves the type.
pub fn multiply_overflows(
    gates: &mut Gates,
    a: &[Bit],
    b: &[Bit],
    width: Width,
) -> Result<Bit, BlastFault>
    requires a { AreBits gates.old a.now }
    requires b { AreBits gates.old b.now }
    requires a_width { length a.now ≡ bits width }
    requires b_width { length b.now ≡ bits width }
    ensures { IfOk result (IsGate gates.old gates.new (λ v. mul_over width (spelled v a.now) (spelled v b.now))) }
{
    let product = multiply_magnitudes(gates, a, b, width)?;
    let negative = signs_differ(gates, a, b, width)?;
    let greatest = greatest_magnitude(gates, &negative, width)?;
    let fits = at_most(gates, product.as_slice(), greatest.as_slice())?;
    Ok(fits.negated())
}

/// Whether the quotient of signed `a / b` leaves the type: the least word by -1 (C99 6.5.5).
pub fn divide_overflows(
    gates: &mut Gates,
    a: &[Bit],
    b: &[Bit],
    width: Width,
) -> Result<Bit, BlastFault>
    requires a { AreBits gates.old a.now }
    requires b { AreBits gates.old b.now }
    requires a_width { length a.now ≡ bits width }
    requires b_width { length b.now ≡ bits width }
    ensures { IfOk result (IsGate gates.old gates.new (λ v. nat_eq (spelled v a.now) (2 ^ (bits width - 1))
        && nat_eq (spelled v b.now) (2 ^ bits width - 1))) }
{
    let least = constant(gates, 1 << (width.bits() - 1), width.bits())?;
    let minus_one = constant(gates, u64::MAX, width.bits())?;
    let is_least = equal(gates, a, least.as_slice())?;
    let is_minus_one = equal(gates, b, minus_one.as_slice())?;
    let both = gates.and(is_least, is_minus_one)?;
    Ok(both)
}

/// Whether signed `a << by` is undefined (C99 6.5.7): `by` isn't below the width, `a` is negative, or the result leaves
/// the type. So it is where `a` reaches the least signed word moved down by `by`.
pub fn shift_overflows(
    gates: &mut Gates,
    a: &[Bit],
    by: &[Bit],
    width: Width,
) -> Result<Bit, BlastFault>
    requires a { AreBits gates.old a.now }
    requires by { AreBits gates.old by.now }
    requires a_width { length a.now ≡ bits width }
    requires by_width { length by.now ≡ bits width }
    ensures { IfOk result (IsGate gates.old gates.new (λ v. shl_over width (spelled v a.now) (spelled v by.now))) }
{
    let least = constant(gates, 1 << (width.bits() - 1), width.bits())?;
    let bound = shift_right(
        gates,
        least.as_slice(),
        by,
        stages(width),
        &Bit::Known(false),
    )?;
    let reaches = at_most(gates, bound.as_slice(), a)?;
    Ok(reaches)
}
