ghost use Rattle.std.specs.Prelude.{◌≡◌, ◌≤◌, ◌%◌, ◌^◌, length, IfOk};
ghost use Rattle.plain_data.specs.Words.{bits};
ghost use Rattle.word_gates.specs.Spelling.{AreBits};
ghost use Rattle.bitvectors.specs.Signals.{AreInputs};
ghost use Rattle.bitvectors.specs.Leaves.{AreSettled, IsByteSignal, IsEmptyInputs, IsWordSignal};

use gates::{Bit, BlastFault, Gates};
use input_tables::Table;
use plain_data::{Items, Width};
use std::alloc::{AllocError, Global};
use word_gates::resize;

/// What a formula's variables stand for outside: the world's words by place, and its initial bytes by address.
pub struct Inputs {
    /// Words of 64 bits.
    pub words: Table,
    /// Words of 8 bits.
    pub bytes: Table,
}

/// By hand, so that a call stands in place of all its parts wherever a value is let go.
impl Drop for Inputs {
    fn drop(self) {
        let Inputs { words, bytes } = self;
    }
}

impl Inputs {
    /// No word and no byte.
    pub fn new(alloc: Global) -> Inputs
        ensures { IsEmptyInputs result }
    {
        Inputs {
            words: Table::new(alloc, 64),
            bytes: Table::new(alloc, 8),
        }
    }

    /// The same words and bytes without conditions, for clauses that say that these are true.
    pub(crate) fn settled(&self, alloc: Global) -> Result<Inputs, AllocError>
        ensures { IfOk result (AreSettled self.now) }
    {
        let words = self.words.settled(alloc)?;
        let bytes = self.bytes.settled(alloc)?;
        Ok(Inputs { words, bytes })
    }

    /// The world's word of this width at a place.
    pub(crate) fn world_word(
        &mut self,
        gates: &mut Gates,
        place: &[Bit],
        width: Width,
    ) -> Result<Items<Bit>, BlastFault>
        requires inputs { AreInputs gates.old self.old }
        requires place { AreBits gates.old place.now }
        requires width { length place.now ≡ 64 }
        ensures { IfOk result (IsWordSignal gates.old gates.new self.old self.new place.now width) }
    {
        let whole = self.words.ask(gates, place)?;
        let word = resize(
            gates,
            whole.as_slice(),
            width.bits() as usize,
            &Bit::Known(false),
        )?;
        Ok(word)
    }

    /// The initial byte at an address.
    pub(crate) fn initial_byte(
        &mut self,
        gates: &mut Gates,
        address: &[Bit],
    ) -> Result<Items<Bit>, BlastFault>
        requires inputs { AreInputs gates.old self.old }
        requires address { AreBits gates.old address.now }
        requires width { length address.now ≡ 64 }
        ensures { IfOk result (IsByteSignal gates.old gates.new self.old self.new address.now) }
    {
        let byte = self.bytes.ask(gates, address)?;
        Ok(byte)
    }
}
