ghost use Rattle.std.specs.Prelude.{◌≡◌, map, IfOk, OnOk};
ghost use Rattle.bitvectors.specs.Amounts.{bits_at};
ghost use Rattle.bitvectors.specs.Blasts.{words_of};
ghost use Rattle.bitvectors.specs.Signals.{Puts};

use gates::{Bit, BlastFault, Gates};
use plain_data::{Items, Rows};
use std::alloc::{AllocError, Global};
use std::collections::HashMap;
use term_bank::Node;

/// A node's bits, none where it has none.
pub(crate) fn bits_of<'a>(signals: &'a HashMap<u32, Items<Bit>>, number: u32) -> &'a [Bit]
    ensures { result.now ≡ bits_at signals.now number }
{
    match signals.get(&number) {
        Some(word) => word.as_slice(),
        None => &[],
    }
}

/// The same bits.
pub(crate) fn copied(gates: &Gates, bits: &[Bit]) -> Result<Items<Bit>, BlastFault>
    ensures { IfOk result (λ copy. copy ≡ bits.now) }
{
    let mut copy = gates.no_bits();
    copy.extend_from_slice(bits)?;
    Ok(copy)
}

/// Lets a node have bits.
pub(crate) fn set_bits(
    signals: &mut HashMap<u32, Items<Bit>>,
    number: u32,
    word: Items<Bit>,
) -> Result<(), AllocError>
    ensures { OnOk result (Puts signals.old signals.new number word) }
{
    match signals.insert(number, word) {
        Ok(_) => Ok(()),
        Err(_) => Err(AllocError),
    }
}

/// The bits of each root, in order.
pub(crate) fn root_bits(
    alloc: Global,
    roots: &[Node],
    signals: &HashMap<u32, Items<Bit>>,
) -> Result<Rows<Bit>, AllocError>
    ensures { IfOk result (λ words. words ≡ words_of signals.now roots.now) }
{
    let mut words = Rows::new(alloc);
    'roots: for index in 0..roots.len() {
        words.push(bits_of(signals, roots[index].index))?;
    }
    Ok(words)
}
