ghost use Rattle.std.specs.Prelude.{◌≡◌, cond, length, nat_eq, not, IfOk};
ghost use Rattle.gates.specs.Nets.{IsBit, IsGate, bit_holds};
ghost use Rattle.word_gates.specs.Spelling.{AreBits, IsWord, number, spelled};
ghost use Rattle.term_bank.specs.Values.{connected};
ghost use Rattle.bitvectors.specs.Amounts.{is_one};

use gates::{Bit, BlastFault, Gates};
use plain_data::Items;
use term_bank::Connective;
use word_gates::choose;

/// A truth value as a word of one bit.
pub(crate) fn one_bit(gates: &Gates, bit: Bit) -> Result<Items<Bit>, BlastFault>
    requires { IsBit gates.now bit }
    ensures { IfOk result (IsWord gates.now gates.now 1 (λ v. number (bit_holds v bit))) }
{
    let mut word = gates.no_bits();
    word.push(bit)?;
    Ok(word)
}

/// The only bit of a word.
fn bit_of(gates: &Gates, word: &[Bit]) -> Bit
    requires word { AreBits gates.now word.now }
    requires width { length word.now ≡ 1 }
    ensures { IsGate gates.now gates.now (λ v. is_one (spelled v word.now)) result }
{
    let _ = gates;
    word[0]
}

/// The other truth value.
pub(crate) fn negate(gates: &Gates, a: &[Bit]) -> Result<Items<Bit>, BlastFault>
    requires a { AreBits gates.now a.now }
    requires width { length a.now ≡ 1 }
    ensures { IfOk result (IsWord gates.now gates.now 1 (λ v. number (not (is_one (spelled v a.now))))) }
{
    let bit = bit_of(gates, a);
    let word = one_bit(gates, bit.negated())?;
    Ok(word)
}

/// A connective of two truth values.
pub(crate) fn connect(
    gates: &mut Gates,
    connective: Connective,
    a: &[Bit],
    b: &[Bit],
) -> Result<Items<Bit>, BlastFault>
    requires a { AreBits gates.old a.now }
    requires b { AreBits gates.old b.now }
    requires a_width { length a.now ≡ 1 }
    requires b_width { length b.now ≡ 1 }
    ensures { IfOk result (IsWord gates.old gates.new 1
        (λ v. number (connected connective (is_one (spelled v a.now)) (is_one (spelled v b.now))))) }
{
    let one = bit_of(gates, a);
    let other = bit_of(gates, b);
    let bit = connect_bits(gates, connective, one, other)?;
    let word = one_bit(gates, bit)?;
    Ok(word)
}

/// A connective of two bits.
fn connect_bits(
    gates: &mut Gates,
    connective: Connective,
    a: Bit,
    b: Bit,
) -> Result<Bit, BlastFault>
    requires a { IsBit gates.old a }
    requires b { IsBit gates.old b }
    ensures { IfOk result (IsGate gates.old gates.new (λ v. connected connective (bit_holds v a) (bit_holds v b))) }
{
    match connective {
        Connective::And => gates.and(a, b),
        Connective::Or => gates.or(a, b),
    }
}

/// Of two words the first where a truth value is true.
pub(crate) fn select(
    gates: &mut Gates,
    condition: &[Bit],
    a: &[Bit],
    b: &[Bit],
) -> Result<Items<Bit>, BlastFault>
    requires condition { AreBits gates.old condition.now }
    requires a { AreBits gates.old a.now }
    requires b { AreBits gates.old b.now }
    requires truth { length condition.now ≡ 1 }
    requires width { length a.now ≡ length b.now }
    ensures { IfOk result (IsWord gates.old gates.new (length a.now)
        (λ v. cond (is_one (spelled v condition.now)) (spelled v a.now) (spelled v b.now))) }
{
    let bit = bit_of(gates, condition);
    let word = choose(gates, &bit, a, b)?;
    Ok(word)
}
