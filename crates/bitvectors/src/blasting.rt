ghost use Rattle.std.specs.Prelude.{◌≡◌, IfOk, Some, slice_get, true};
ghost use Rattle.cnf_core.specs.Truth.{formula_holds, value_of};
ghost use Rattle.term_bank.specs.Banks.{IsBank};
ghost use Rattle.term_bank.specs.Shapes.{Each, IsNode, parts};
ghost use Rattle.term_bank.specs.Under.{IsOnly};
ghost use Rattle.bitvectors.specs.Signals.{AreInputs, AreKnown, IsSignalled, Spells, is_plain};
ghost use Rattle.bitvectors.specs.Blasts.{IsBlasted, IsReady, Walked};

use crate::asserting::assert_all;
use crate::inputs::Inputs;
use crate::shapes::blast_shape;
use crate::signals::{copied, root_bits, set_bits};
use cnf_core::Formula;
use gates::{Bit, BlastFault, Gates};
use plain_data::{Items, Rows};
use std::alloc::Global;
use std::collections::HashMap;
use term_bank::{Bank, Node, Shape, nodes_under};

/// A formula, and what its variables stand for.
pub struct Blasted {
    /// Its models are the environments.
    pub formula: Formula,
    /// The bits of each root, in order: one of a truth value, as many as a word has.
    pub roots: Rows<Bit>,
    /// The world's words and initial bytes.
    pub inputs: Inputs,
    /// The bits of each node under the roots, for roots that are put behind.
    pub(crate) signals: HashMap<u32, Items<Bit>>,
    /// How many variables there are.
    pub(crate) count: u32,
}

/// By hand, so that a call stands in place of all its parts wherever a value is let go.
impl Drop for Blasted {
    fn drop(self) {
        let Blasted {
            formula,
            roots,
            inputs,
            signals,
            count,
        } = self;
    }
}

/// The bits of a node whose parts have bits: those that are known, or new ones.
fn node_bits(
    bank: &Bank,
    known: &HashMap<u32, Items<Bit>>,
    gates: &mut Gates,
    inputs: &mut Inputs,
    signals: &HashMap<u32, Items<Bit>>,
    number: u32,
    shape: Shape,
) -> Result<Items<Bit>, BlastFault>
    requires bank { IsBank bank.now }
    requires stands { slice_get bank.now number ≡ Some shape }
    requires known { AreKnown bank.now gates.old inputs.old known.now }
    requires inputs { AreInputs gates.old inputs.old }
    requires parts { Each (λ p. IsSignalled bank.now gates.old inputs.old signals.now p.index) (parts shape) }
    requires plain { is_plain shape ≡ true }
    ensures { IfOk result (Spells bank.now gates.old gates.new inputs.old inputs.new number) }
{
    let _ = bank.len();
    match known.get(&number) {
        Some(word) => {
            let word = copied(gates, word.as_slice())?;
            Ok(word)
        }
        None => {
            let word = blast_shape(gates, inputs, signals, shape)?;
            Ok(word)
        }
    }
}

/// The bits of all nodes under roots, of which some are known.
pub(crate) fn walk(
    alloc: Global,
    bank: &Bank,
    roots: &[Node],
    known: &HashMap<u32, Items<Bit>>,
    gates: &mut Gates,
    inputs: &mut Inputs,
) -> Result<HashMap<u32, Items<Bit>>, BlastFault>
    requires roots { Each (IsNode bank.now) roots.now }
    requires plain { Each (λ r. IsOnly is_plain bank.now r.index) roots.now }
    requires known { AreKnown bank.now gates.old inputs.old known.now }
    requires inputs { AreInputs gates.old inputs.old }
    ensures { IfOk result (Walked bank.now roots.now gates.old gates.new inputs.old inputs.new) }
{
    let mut numbers = nodes_under(alloc, bank, roots)?;
    let mut signals = HashMap::new(alloc);
    'nodes: while let Some(number) = numbers.pop() {
        if let Some(shape) = bank.shape(number) {
            let word = node_bits(bank, known, gates, inputs, &signals, number, shape)?;
            set_bits(&mut signals, number, word)?;
        }
    }
    Ok(signals)
}

/// Clauses for the values of roots under which truths and words alone stand, and of the outside only the world's words
/// and initial bytes. The time is that of the nodes under the roots; of words and bytes of the world whose places and
/// addresses aren't known, each two take a condition.
pub fn blast(alloc: Global, bank: &Bank, roots: &[Node]) -> Result<Blasted, BlastFault>
    requires roots { Each (IsNode bank.now) roots.now }
    requires plain { Each (λ r. IsOnly is_plain bank.now r.index) roots.now }
    ensures blasted { IfOk result (IsBlasted bank.now roots.now) }
    ensures ready { IfOk result (IsReady bank.now) }
{
    let none = HashMap::new(alloc);
    let mut gates = Gates::new(alloc);
    let mut inputs = Inputs::new(alloc);
    let signals = walk(alloc, bank, roots, &none, &mut gates, &mut inputs)?;
    let words = root_bits(alloc, roots, &signals)?;
    let count = gates.count();
    let mut formula = gates.into_formula();
    assert_all(&mut formula, inputs.words.conditions.as_slice())?;
    assert_all(&mut formula, inputs.bytes.conditions.as_slice())?;
    Ok(Blasted {
        formula,
        roots: words,
        inputs,
        signals,
        count,
    })
}
