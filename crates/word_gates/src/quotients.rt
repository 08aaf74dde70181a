ghost use Rattle.std.specs.Prelude.{◌≡◌, ◌<◌, ◌≤◌, ◌+◌, length, IfOk};
ghost use Rattle.gates.specs.Nets.{IsBit, IsGate, bit_holds};
ghost use Rattle.word_gates.specs.Spelling.{AreBits, number, spelled, truths};
ghost use Rattle.word_gates.specs.Quotients.{DividesOn, IsDivision, IsQuotient};

use crate::comparing::is_zero;
use crate::operators::{choose, complement};
use crate::sums::add_with_carry;
use crate::wires::{repeated, resize, shifted_in};
use gates::{Bit, BlastFault, Gates};
use plain_data::Items;

/// A quotient and what remains.
#[derive(Drop)]
pub struct Division {
    pub quotient: Items<Bit>,
    pub remainder: Items<Bit>,
}

/// Takes the next lower bit of the dividend: the divisor is taken away from what remains, if it is not more.
fn divide_on(
    gates: &mut Gates,
    division: &Division,
    bit: &Bit,
    divisor: &[Bit],
) -> Result<Division, BlastFault>
    requires quotient { AreBits gates.old division.now.quotient }
    requires remainder { AreBits gates.old division.now.remainder }
    requires bit { IsBit gates.old bit.now }
    requires divisor { AreBits gates.old divisor.now }
    requires width { length division.now.remainder ≡ length divisor.now }
    requires small { length divisor.now ≤ 64 }
    ensures { IfOk result (DividesOn gates.old gates.new division.now bit.now divisor.now) }
{
    let shifted = shifted_in(gates, bit, division.remainder.as_slice())?;
    let wide = resize(gates, divisor, divisor.len() + 1, &Bit::Known(false))?;
    let opposites = complement(gates, wide.as_slice())?;
    let sum = add_with_carry(
        gates,
        shifted.as_slice(),
        opposites.as_slice(),
        Bit::Known(true),
    )?;
    let kept = choose(gates, &sum.carry, sum.word.as_slice(), shifted.as_slice())?;
    let remainder = resize(gates, kept.as_slice(), divisor.len(), &Bit::Known(false))?;
    let quotient = shifted_in(gates, &sum.carry, division.quotient.as_slice())?;
    Ok(Division {
        quotient,
        remainder,
    })
}

/// The quotient and the remainder of two words of one width by restoring division, where the divisor isn't 0.
fn divide_fully(gates: &mut Gates, a: &[Bit], b: &[Bit]) -> Result<Division, BlastFault>
    requires a { AreBits gates.old a.now }
    requires b { AreBits gates.old b.now }
    requires width { length a.now ≡ length b.now }
    requires small { length b.now ≤ 64 }
    ensures { IfOk result (IsQuotient gates.old gates.new a.now b.now) }
{
    let quotient = gates.no_bits();
    let remainder = repeated(gates, &Bit::Known(false), b.len())?;
    let mut division = Division {
        quotient,
        remainder,
    };
    'bits: for index in 0..a.len() {
        let place = a.len() - 1 - index;
        division = divide_on(gates, &division, &a[place], b)?;
    }
    Ok(division)
}

/// The quotient and the remainder of two words of one width, both 0 where the divisor is 0.
pub fn divide(gates: &mut Gates, a: &[Bit], b: &[Bit]) -> Result<Division, BlastFault>
    requires a { AreBits gates.old a.now }
    requires b { AreBits gates.old b.now }
    requires width { length a.now ≡ length b.now }
    requires small { length b.now ≤ 64 }
    ensures { IfOk result (IsDivision gates.old gates.new a.now b.now) }
{
    let division = divide_fully(gates, a, b)?;
    let none = is_zero(gates, b)?;
    let zeros = repeated(gates, &Bit::Known(false), b.len())?;
    let quotient = choose(gates, &none, zeros.as_slice(), division.quotient.as_slice())?;
    let remainder = choose(
        gates,
        &none,
        zeros.as_slice(),
        division.remainder.as_slice(),
    )?;
    Ok(Division {
        quotient,
        remainder,
    })
}
