ghost use Rattle.std.specs.Prelude.{◌≡◌, ◌≤◌, ◌%◌, ◌^◌, length, IfOk};
ghost use Rattle.word_gates.specs.Spelling.{AreBits, IsInputWord, IsWord, number_of, spelled, truths};

use gates::{Bit, BlastFault, Gates};
use plain_data::Items;

/// The lowest bits of a number, so many.
pub fn constant(gates: &Gates, value: u64, bits: u32) -> Result<Items<Bit>, BlastFault>
    requires { bits ≤ 64 }
    ensures { IfOk result (IsWord gates.now gates.now bits (λ v. value % 2 ^ bits)) }
{
    let mut word = gates.no_bits();
    'bits: for index in 0..bits {
        word.push(Bit::Known((value >> index) % 2 == 1))?;
    }
    Ok(word)
}

/// A word of so many bits, of which no clause says anything.
pub fn input(gates: &mut Gates, bits: u32) -> Result<Items<Bit>, BlastFault>
    ensures { IfOk result (IsInputWord gates.old gates.new bits) }
{
    let mut word = gates.no_bits();
    'bits: for _index in 0..bits {
        let bit = gates.input()?;
        word.push(bit)?;
    }
    Ok(word)
}
