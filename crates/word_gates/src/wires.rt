ghost use Rattle.std.specs.Prelude.{◌≡◌, ◌≤◌, ◌-◌, ◌++◌, ◌∷◌, [], length, false, replicate, take, drop, IfOk};
ghost use Rattle.gates.specs.declared.bit.Bit.TheVariants.{Known};

use gates::{Bit, BlastFault, Gates};
use plain_data::Items;

/// A bit, so many times.
pub fn repeated(gates: &Gates, bit: &Bit, count: usize) -> Result<Items<Bit>, BlastFault>
    ensures { IfOk result (λ word. word ≡ replicate count bit.now) }
{
    let mut word = gates.no_bits();
    'bits: for _index in 0..count {
        word.push(*bit)?;
    }
    Ok(word)
}

/// The word moved up by so many bits, with zeros below.
pub fn moved_up(gates: &Gates, a: &[Bit], by: usize) -> Result<Items<Bit>, BlastFault>
    requires { by ≤ length a.now }
    ensures { IfOk result (λ word. word ≡ replicate by (Known false) ++ take (length a.now - by) a.now) }
{
    let mut word = repeated(gates, &Bit::Known(false), by)?;
    let (low, _) = a.split_at(a.len() - by);
    word.extend_from_slice(low)?;
    Ok(word)
}

/// The word moved down by so many bits, with one bit above.
pub fn moved_down(gates: &Gates, a: &[Bit], by: usize, fill: &Bit) -> Result<Items<Bit>, BlastFault>
    requires { by ≤ length a.now }
    ensures { IfOk result (λ word. word ≡ drop by a.now ++ replicate by fill.now) }
{
    let mut word = gates.no_bits();
    let (_, high) = a.split_at(by);
    word.extend_from_slice(high)?;
    let above = repeated(gates, fill, by)?;
    word.append(above)?;
    Ok(word)
}

/// The lowest bits of a word, so many, with one bit above where it is shorter.
pub fn resize(gates: &Gates, a: &[Bit], bits: usize, fill: &Bit) -> Result<Items<Bit>, BlastFault>
    ensures { IfOk result (λ word. word ≡ take bits a.now ++ replicate (bits - length a.now) fill.now) }
{
    let mut word = gates.no_bits();
    if bits <= a.len() {
        let (low, _) = a.split_at(bits);
        word.extend_from_slice(low)?;
        return Ok(word);
    }
    word.extend_from_slice(a)?;
    let above = repeated(gates, fill, bits - a.len())?;
    word.append(above)?;
    Ok(word)
}

/// The word moved up by one bit, and another bit below.
pub fn shifted_in(gates: &Gates, bit: &Bit, a: &[Bit]) -> Result<Items<Bit>, BlastFault>
    ensures { IfOk result (λ word. word ≡ bit.now ∷ a.now) }
{
    let mut word = gates.no_bits();
    word.push(*bit)?;
    word.extend_from_slice(a)?;
    Ok(word)
}
