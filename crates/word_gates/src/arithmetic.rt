ghost use Rattle.std.specs.Prelude.{◌≡◌, ◌<◌, ◌≤◌, ◌+◌, ◌-◌, ◌*◌, ◌%◌, ◌^◌, length, IfOk};
ghost use Rattle.gates.specs.Nets.{IsBit, bit_holds};
ghost use Rattle.word_gates.specs.Spelling.{AreBits, IsWord, number, spelled, truths};

use crate::operators::{choose, complement};
use crate::sums::add_with_carry;
use crate::wires::{moved_up, repeated};
use gates::{Bit, BlastFault, Gates};
use plain_data::Items;

/// The sum of two words of one width, without what is carried out of it.
pub fn add(gates: &mut Gates, a: &[Bit], b: &[Bit]) -> Result<Items<Bit>, BlastFault>
    requires a { AreBits gates.old a.now }
    requires b { AreBits gates.old b.now }
    requires width { length a.now ≡ length b.now }
    ensures { IfOk result (IsWord gates.old gates.new (length a.now)
        (λ v. (spelled v a.now + spelled v b.now) % 2 ^ length a.now)) }
{
    let sum = add_with_carry(gates, a, b, Bit::Known(false))?;
    Ok(sum.word)
}

/// The difference of two words of one width.
pub fn subtract(gates: &mut Gates, a: &[Bit], b: &[Bit]) -> Result<Items<Bit>, BlastFault>
    requires a { AreBits gates.old a.now }
    requires b { AreBits gates.old b.now }
    requires width { length a.now ≡ length b.now }
    ensures { IfOk result (IsWord gates.old gates.new (length a.now)
        (λ v. (spelled v a.now + (2 ^ length a.now - spelled v b.now)) % 2 ^ length a.now)) }
{
    let opposites = complement(gates, b)?;
    let sum = add_with_carry(gates, a, opposites.as_slice(), Bit::Known(true))?;
    Ok(sum.word)
}

/// A word and a multiple of another by a power of 2, where a bit is true.
fn add_row(
    gates: &mut Gates,
    sum: &[Bit],
    a: &[Bit],
    by: usize,
    factor: &Bit,
) -> Result<Items<Bit>, BlastFault>
    requires sum { AreBits gates.old sum.now }
    requires a { AreBits gates.old a.now }
    requires factor { IsBit gates.old factor.now }
    requires width { length sum.now ≡ length a.now }
    requires by { by ≤ length a.now }
    ensures { IfOk result (IsWord gates.old gates.new (length a.now)
        (λ v. (spelled v sum.now + spelled v a.now * (2 ^ by * number (bit_holds v factor.now))) % 2 ^ length a.now)) }
{
    let moved = moved_up(gates, a, by)?;
    let zeros = repeated(gates, &Bit::Known(false), a.len())?;
    let row = choose(gates, factor, moved.as_slice(), zeros.as_slice())?;
    let total = add(gates, sum, row.as_slice())?;
    Ok(total)
}

/// The product of two words of one width, by the bits of the second.
fn multiply_by_rows(gates: &mut Gates, a: &[Bit], b: &[Bit]) -> Result<Items<Bit>, BlastFault>
    requires a { AreBits gates.old a.now }
    requires b { AreBits gates.old b.now }
    requires width { length a.now ≡ length b.now }
    ensures { IfOk result (IsWord gates.old gates.new (length a.now)
        (λ v. (spelled v a.now * spelled v b.now) % 2 ^ length a.now)) }
{
    let mut product = repeated(gates, &Bit::Known(false), a.len())?;
    'bits: for index in 0..a.len() {
        product = add_row(gates, product.as_slice(), a, index, &b[index])?;
    }
    Ok(product)
}

/// How many of the bits are known.
fn known_bits(a: &[Bit]) -> usize
    ensures { result ≤ length a.now }
{
    let mut count = 0;
    'bits: for index in 0..a.len() {
        if let Bit::Known(_) = &a[index] {
            count += 1;
        }
    }
    count
}

/// The product of two words of one width. A row is made for each bit of that word of which more is known.
pub fn multiply(gates: &mut Gates, a: &[Bit], b: &[Bit]) -> Result<Items<Bit>, BlastFault>
    requires a { AreBits gates.old a.now }
    requires b { AreBits gates.old b.now }
    requires width { length a.now ≡ length b.now }
    ensures { IfOk result (IsWord gates.old gates.new (length a.now)
        (λ v. (spelled v a.now * spelled v b.now) % 2 ^ length a.now)) }
{
    if known_bits(a) <= known_bits(b) {
        multiply_by_rows(gates, a, b)
    } else {
        multiply_by_rows(gates, b, a)
    }
}
