ghost use Rattle.std.specs.Prelude.{◌<◌, ◌^◌, IfOk};
ghost use Rattle.plain_data.specs.Words.{bits};
ghost use Rattle.term_bank.specs.Shapes.{Each, parts};
ghost use Rattle.term_bank.specs.declared.shape.Shape.TheVariants.{Flag, Constant, WorldWord, InitialByte};
ghost use Rattle.bitvectors.specs.Amounts.{bits_at};
ghost use Rattle.bitvectors.specs.Signals.{AreInputs, HasBits, IsSignal};

use crate::inputs::Inputs;
use crate::signals::bits_of;
use crate::truths::one_bit;
use gates::{Bit, BlastFault, Gates};
use plain_data::{Items, Width};
use std::collections::HashMap;
use word_gates::constant;

/// A truth value that is known.
pub(crate) fn blast_flag(
    gates: &Gates,
    inputs: &Inputs,
    signals: &HashMap<u32, Items<Bit>>,
    truth: bool,
) -> Result<Items<Bit>, BlastFault>
    requires inputs { AreInputs gates.now inputs.now }
    ensures { IfOk result (IsSignal gates.now gates.now inputs.now inputs.now signals.now (Flag truth)) }
{
    let _ = inputs;
    let _ = signals;
    let word = one_bit(gates, Bit::Known(truth))?;
    Ok(word)
}

/// A word that is known.
pub(crate) fn blast_constant(
    gates: &Gates,
    inputs: &Inputs,
    signals: &HashMap<u32, Items<Bit>>,
    value: u64,
    width: Width,
) -> Result<Items<Bit>, BlastFault>
    requires inputs { AreInputs gates.now inputs.now }
    requires within { value < 2 ^ bits width }
    ensures { IfOk result (IsSignal gates.now gates.now inputs.now inputs.now signals.now (Constant value width)) }
{
    let _ = inputs;
    let _ = signals;
    let word = constant(gates, value, width.bits())?;
    Ok(word)
}

/// The world's word at a place.
pub(crate) fn blast_world_word(
    gates: &mut Gates,
    inputs: &mut Inputs,
    signals: &HashMap<u32, Items<Bit>>,
    width: Width,
    place: u32,
) -> Result<Items<Bit>, BlastFault>
    requires inputs { AreInputs gates.old inputs.old }
    requires parts { Each (HasBits gates.old signals.now) (parts (WorldWord width place)) }
    ensures { IfOk result (IsSignal gates.old gates.new inputs.old inputs.new signals.now (WorldWord width place)) }
{
    let word = inputs.world_word(gates, bits_of(signals, place), width)?;
    Ok(word)
}

/// The initial byte at an address, whatever its row.
pub(crate) fn blast_initial_byte(
    gates: &mut Gates,
    inputs: &mut Inputs,
    signals: &HashMap<u32, Items<Bit>>,
    row: u32,
    address: u32,
) -> Result<Items<Bit>, BlastFault>
    requires inputs { AreInputs gates.old inputs.old }
    requires parts { Each (HasBits gates.old signals.now) (parts (InitialByte row address)) }
    ensures { IfOk result (IsSignal gates.old gates.new inputs.old inputs.new signals.now (InitialByte row address)) }
{
    let _ = row;
    let byte = inputs.initial_byte(gates, bits_of(signals, address))?;
    Ok(byte)
}
