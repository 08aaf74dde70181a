ghost use Rattle.std.specs.Prelude.{◌≡◌, ◌≤◌, ◌++◌, length, take, IfOk};
ghost use Rattle.term_bank.specs.Shapes.{Each, IsNode};
ghost use Rattle.term_bank.specs.Under.{IsOnly};
ghost use Rattle.bitvectors.specs.Signals.{is_plain};
ghost use Rattle.bitvectors.specs.Blasts.{IsMore, IsReady};

use crate::asserting::assert_all;
use crate::blasting::{Blasted, walk};
use crate::inputs::Inputs;
use crate::signals::root_bits;
use cnf_core::Formula;
use gates::{Bit, BlastFault, Gates};
use plain_data::Rows;
use std::alloc::{AllocError, Global};
use term_bank::{Bank, Node};

/// What is put behind a formula for more roots.
pub struct More {
    /// The clauses.
    pub formula: Formula,
    /// The bits of each of these roots, in order.
    pub roots: Rows<Bit>,
    /// All words and initial bytes of the world, the formula's too.
    pub inputs: Inputs,
}

/// By hand, so that a call stands in place of all its parts wherever a value is let go.
impl Drop for More {
    fn drop(self) {
        let More {
            formula,
            roots,
            inputs,
        } = self;
    }
}

/// The clauses of a formula from an index on.
fn clauses_from(alloc: Global, formula: &Formula, start: usize) -> Result<Formula, AllocError>
    requires { start ≤ length formula.now }
    ensures { IfOk result (λ rest. take start formula.now ++ rest ≡ formula.now) }
{
    let mut rest = Formula::new(alloc);
    'clauses: for index in start..formula.len() {
        rest.push(formula.clause(index))?;
    }
    Ok(rest)
}

impl Blasted {
    /// Clauses for the values of more roots, to be put behind the formula's: they define what the bits of these roots
    /// need, by new variables. The bank may have grown since the formula was made. The time is that of the formula and of
    /// the nodes under the roots.
    pub fn go_on(&self, alloc: Global, bank: &Bank, roots: &[Node]) -> Result<More, BlastFault>
        requires roots { Each (IsNode bank.now) roots.now }
        requires plain { Each (λ r. IsOnly is_plain bank.now r.index) roots.now }
        requires ready { IsReady bank.now self.now }
        ensures { IfOk result (IsMore bank.now roots.now self.now) }
    {
        let copy = clauses_from(alloc, &self.formula, 0)?;
        let mut gates = Gates::over(alloc, copy, self.count);
        let mut inputs = self.inputs.settled(alloc)?;
        let signals = walk(alloc, bank, roots, &self.signals, &mut gates, &mut inputs)?;
        let words = root_bits(alloc, roots, &signals)?;
        let whole = gates.into_formula();
        let mut formula = clauses_from(alloc, &whole, self.formula.len())?;
        assert_all(&mut formula, inputs.words.conditions.as_slice())?;
        assert_all(&mut formula, inputs.bytes.conditions.as_slice())?;
        Ok(More {
            formula,
            roots: words,
            inputs,
        })
    }
}
