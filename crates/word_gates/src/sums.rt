ghost use Rattle.std.specs.Prelude.{◌≡◌, ◌+◌, length, IfOk};
ghost use Rattle.gates.specs.Nets.{IsBit, IsGate, bit_holds};
ghost use Rattle.word_gates.specs.Spelling.{AreBits, number, spelled, truths};
ghost use Rattle.word_gates.specs.Sums.{IsColumn, IsSum};

use gates::{Bit, BlastFault, Gates};
use plain_data::Items;

/// A column of a sum: its bit, and what is carried to the next.
#[derive(Clone, Copy)]
pub(crate) struct Column {
    bit: Bit,
    carry: Bit,
}

/// A sum: its word, and what is carried out of it.
#[derive(Drop)]
pub struct Sum {
    pub word: Items<Bit>,
    pub carry: Bit,
}

/// The sum of three bits.
fn add_column(gates: &mut Gates, a: &Bit, b: &Bit, carry: &Bit) -> Result<Column, BlastFault>
    requires a { IsBit gates.old a.now }
    requires b { IsBit gates.old b.now }
    requires carry { IsBit gates.old carry.now }
    ensures { IfOk result (IsColumn gates.old gates.new
        (λ v. number (bit_holds v a.now) + number (bit_holds v b.now) + number (bit_holds v carry.now))) }
{
    let half = gates.xor(*a, *b)?;
    let bit = gates.xor(half, *carry)?;
    let carried = gates.majority(*a, *b, *carry)?;
    Ok(Column {
        bit,
        carry: carried,
    })
}

/// The sum of two words of one width and of a carry.
pub fn add_with_carry(
    gates: &mut Gates,
    a: &[Bit],
    b: &[Bit],
    carry: Bit,
) -> Result<Sum, BlastFault>
    requires a { AreBits gates.old a.now }
    requires b { AreBits gates.old b.now }
    requires carry { IsBit gates.old carry }
    requires width { length a.now ≡ length b.now }
    ensures { IfOk result (IsSum gates.old gates.new (length a.now)
        (λ v. spelled v a.now + spelled v b.now + number (bit_holds v carry))) }
{
    let mut word = gates.no_bits();
    let mut carried = carry;
    'bits: for index in 0..a.len() {
        let sum = add_column(gates, &a[index], &b[index], &carried)?;
        word.push(sum.bit)?;
        carried = sum.carry;
    }
    Ok(Sum {
        word,
        carry: carried,
    })
}
