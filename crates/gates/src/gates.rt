ghost use Rattle.std.specs.Prelude.{◌≡◌, ◌<◌, ◌≤◌, ◌+◌, ◌^◌, ◌++◌, ◌∷◌, ◌&&◌, [], true, cond};
ghost use Rattle.std.specs.Prelude.{IfOk, IfSome, OnOk, OnErr};
ghost use Rattle.cnf_core.specs.Literal.{literal_of};
ghost use Rattle.cnf_core.specs.Truth.{literal_holds};
ghost use Rattle.gates.specs.Nets.{AllBelow, Below, Defines, IsGate, IsInput, IsModel, exclusive, majority};
ghost use Rattle.gates.specs.Cells.{AreMet, IsCell, IsMet, HasSame, Puts, cell_value};

use crate::bit::Bit;
use crate::cell::Cell;
use cnf_core::{Formula, Lit};
use plain_data::Items;
use std::alloc::{AllocError, Global};
use std::collections::HashMap;
use std::marker::Model;
use thiserror::Error;

/// Why clauses were not made.
#[derive(Clone, Copy, Debug, PartialEq, Eq, Error)]
pub enum BlastFault {
    /// Memory, or numbers for variables, ran out.
    #[error("out of memory")]
    Memory,
}

impl From<AllocError> for BlastFault {
    ghost use Rattle.std.specs.Prelude.{◌≡◌};
    ghost use Rattle.gates.specs.declared.gates.BlastFault.TheVariants.{Memory};

    ghost from_gives = { λ _ e. e ≡ Memory };

    fn from(_error: AllocError) -> BlastFault {
        BlastFault::Memory
    }
}

/// Clauses that define variables from 1 on by earlier ones, and a table of the gates that were made. Contracts see the
/// clauses and the number of variables.
pub struct Gates {
    alloc: Global,
    formula: Formula,
    count: u32,
    table: HashMap<Cell, u32>,
}

/// By hand, so that a call stands in place of all its parts wherever a value is let go.
impl Drop for Gates {
    fn drop(self) {
        let Gates {
            alloc,
            formula,
            count,
            table,
        } = self;
    }
}

impl Model for Gates {
    ghost use Rattle.std.specs.Prelude.{◌+◌, ◌<◌, ◌^◌};
    ghost use Rattle.gates.specs.Nets.{Net, AllBelow};
    ghost use Rattle.gates.specs.Cells.{AreMet};

    ghost Value = { Net };

    ghost view = { λ g. record { clauses = g.formula; count = g.count } };

    ghost invariant = { λ g. AllBelow (g.count + 1) g.formula × (g.count < 2 ^ 31)
        × AreMet (record { clauses = g.formula; count = g.count }) g.table };
}

/// Lets a cell be met in the table.
fn put(table: &mut HashMap<Cell, u32>, cell: Cell, variable: u32) -> Result<(), BlastFault>
    ensures ok { OnOk result (Puts table.old table.new cell variable) }
    ensures err { OnErr result (HasSame table.old table.new) }
{
    match table.insert(cell, variable) {
        Ok(_) => Ok(()),
        Err(_) => Err(BlastFault::Memory),
    }
}

/// The literal of this code.
fn literal(code: u32) -> Lit
    requires { 2 ≤ code }
    ensures { result ≡ literal_of code }
{
    Lit::new(code >> 1, code & 1 == 0)
}

impl Gates {
    /// No variable and no clause. It takes no memory before the first gate comes.
    pub fn new(alloc: Global) -> Gates
        ensures clauses { result.clauses ≡ [] }
        ensures count { result.count ≡ 0 }
    {
        Gates {
            alloc,
            formula: Formula::new(alloc),
            count: 0,
            table: HashMap::new(alloc),
        }
    }

    /// A word with no bit. It takes no memory before the first bit comes.
    pub fn no_bits(&self) -> Items<Bit>
        ensures { result ≡ [] }
    {
        Items::new(self.alloc)
    }

    /// Clauses over so many variables, behind which more may come. It takes no memory before the first gate comes.
    pub fn over(alloc: Global, formula: Formula, count: u32) -> Gates
        requires below { AllBelow (count + 1) formula }
        requires count { count < 2 ^ 31 }
        ensures clauses { result.clauses ≡ formula }
        ensures count { result.count ≡ count }
    {
        Gates {
            alloc,
            formula,
            count,
            table: HashMap::new(alloc),
        }
    }

    /// The number of variables: those of the clauses are from 1 to it.
    pub fn count(&self) -> u32
        ensures count { result ≡ self.now.count }
        ensures below { AllBelow (self.now.count + 1) self.now.clauses }
        ensures within { self.now.count < 2 ^ 31 }
    {
        self.count
    }

    /// The clauses.
    pub fn into_formula(self) -> Formula
        ensures { result ≡ self.clauses }
    {
        let Gates {
            alloc,
            formula,
            count,
            table,
        } = self;
        formula
    }

    /// The positive literal of a variable that stands in no clause.
    fn fresh(&mut self) -> Result<Lit, BlastFault>
        ensures literal { IfOk result (λ x. x ≡ record { variable = self.old.count + 1; positive = true }) }
        ensures count { OnOk result (self.new.count ≡ self.old.count + 1) }
        ensures clauses { self.new.clauses ≡ self.old.clauses }
        ensures below { AllBelow (self.old.count + 1) self.old.clauses }
    {
        if self.count >= Lit::MAX_VARIABLE {
            return Err(BlastFault::Memory);
        }
        self.count += 1;
        Ok(Lit::new(self.count, true))
    }

    /// A bit that no clause says anything of.
    pub fn input(&mut self) -> Result<Bit, BlastFault>
        ensures { IfOk result (IsInput self.old self.new) }
    {
        let x = self.fresh()?;
        Ok(Bit::Unknown(x))
    }

    /// Puts a clause at the end.
    fn add(&mut self, clause: &[Lit]) -> Result<(), BlastFault>
        requires { Below (self.old.count + 1) clause.now }
        ensures count { self.new.count ≡ self.old.count }
        ensures clauses { OnOk result (self.new.clauses ≡ self.old.clauses ++ clause.now ∷ []) }
    {
        self.formula.push(clause)?;
        Ok(())
    }

    /// A literal that is true where both are.
    fn define_and(&mut self, a: Lit, b: Lit) -> Result<Lit, BlastFault>
        requires a { a.variable < self.old.count + 1 }
        requires b { b.variable < self.old.count + 1 }
        ensures { IfOk result (Defines self.old self.new (λ v. literal_holds v a && literal_holds v b)) }
    {
        let x = self.fresh()?;
        let (off, not_a, not_b) = (x.negated(), a.negated(), b.negated());
        self.add(&[off, a])?;
        self.add(&[off, b])?;
        self.add(&[x, not_a, not_b])?;
        Ok(x)
    }

    /// A literal that is true where one is true, and the other isn't.
    fn define_xor(&mut self, a: Lit, b: Lit) -> Result<Lit, BlastFault>
        requires a { a.variable < self.old.count + 1 }
        requires b { b.variable < self.old.count + 1 }
        ensures { IfOk result (Defines self.old self.new (λ v. exclusive (literal_holds v a) (literal_holds v b))) }
    {
        let x = self.fresh()?;
        let (off, not_a, not_b) = (x.negated(), a.negated(), b.negated());
        self.add(&[off, a, b])?;
        self.add(&[off, not_a, not_b])?;
        self.add(&[x, not_a, b])?;
        self.add(&[x, a, not_b])?;
        Ok(x)
    }

    /// A literal that is true where at least two of three are.
    fn define_majority(&mut self, a: Lit, b: Lit, c: Lit) -> Result<Lit, BlastFault>
        requires a { a.variable < self.old.count + 1 }
        requires b { b.variable < self.old.count + 1 }
        requires c { c.variable < self.old.count + 1 }
        ensures { IfOk result (Defines self.old self.new
            (λ v. majority (literal_holds v a) (literal_holds v b) (literal_holds v c))) }
    {
        let x = self.fresh()?;
        let off = x.negated();
        let (not_a, not_b, not_c) = (a.negated(), b.negated(), c.negated());
        self.add(&[off, a, b])?;
        self.add(&[off, a, c])?;
        self.add(&[off, b, c])?;
        self.add(&[x, not_a, not_b])?;
        self.add(&[x, not_a, not_c])?;
        self.add(&[x, not_b, not_c])?;
        Ok(x)
    }

    /// A literal that has the value of `a` where `c` is true, and else that of `b`.
    fn define_choice(&mut self, c: Lit, a: Lit, b: Lit) -> Result<Lit, BlastFault>
        requires c { c.variable < self.old.count + 1 }
        requires a { a.variable < self.old.count + 1 }
        requires b { b.variable < self.old.count + 1 }
        ensures { IfOk result (Defines self.old self.new
            (λ v. cond (literal_holds v c) (literal_holds v a) (literal_holds v b))) }
    {
        let x = self.fresh()?;
        let off = x.negated();
        let (not_c, not_a, not_b) = (c.negated(), a.negated(), b.negated());
        self.add(&[off, not_c, a])?;
        self.add(&[off, c, b])?;
        self.add(&[x, not_c, not_a])?;
        self.add(&[x, c, not_b])?;
        Ok(x)
    }

    /// A literal that has the cell's value.
    fn define(&mut self, cell: Cell) -> Result<Lit, BlastFault>
        requires { IsCell self.old cell }
        ensures { IfOk result (Defines self.old self.new (λ v. cell_value v cell)) }
    {
        match cell {
            Cell::And(a, b) => self.define_and(literal(a), literal(b)),
            Cell::Xor(a, b) => self.define_xor(literal(a), literal(b)),
            Cell::Majority(a, b, c) => { self.define_majority(literal(a), literal(b), literal(c)) }
            Cell::Choose(c, a, b) => { self.define_choice(literal(c), literal(a), literal(b)) }
        }
    }

    /// The variable that was defined so before.
    fn met(&self, cell: Cell) -> Option<u32>
        ensures met { IfSome result (IsMet self.now cell) }
        ensures below { IfSome result (λ x. x < 2 ^ 31) }
    {
        let _ = &self.count;
        self.table.get(&cell).copied()
    }

    /// Lets a variable be met again.
    fn note(&mut self, cell: Cell, variable: u32) -> Result<(), BlastFault>
        requires { IsMet self.old cell variable }
        ensures { self.new ≡ self.old }
    {
        put(&mut self.table, cell, variable)
    }

    /// The bit of a gate, which is made where it wasn't met before.
    pub(crate) fn gate(&mut self, cell: Cell) -> Result<Bit, BlastFault>
        requires { IsCell self.old cell }
        ensures { IfOk result (IsGate self.old self.new (λ v. cell_value v cell)) }
    {
        if let Some(variable) = self.met(cell) {
            return Ok(Bit::Unknown(Lit::new(variable, true)));
        }
        let x = self.define(cell)?;
        self.note(cell, x.variable())?;
        Ok(Bit::Unknown(x))
    }
}
