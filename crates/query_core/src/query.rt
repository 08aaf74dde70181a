//! The clauses of a run formula, and a solver over them.
ghost use Rattle.std.specs.Prelude.{◌≡◌, ◌++◌, [], List, Err, IfOk, IfSome};
ghost use Rattle.query_core.specs.declared.fault.AskFault.TheVariants.{Unwalked};
ghost use Rattle.query_core.specs.declared.target.Target.TheVariants.{Other as OtherTarget};
ghost use Rattle.plain_data.specs.declared.fact.Fact.{Fact};
ghost use Rattle.term_bank.specs.Banks.{IsBank};
ghost use Rattle.term_bank.specs.Shapes.{Each, IsNode};
ghost use Rattle.term_bank.specs.declared.shape.Shape.{Shape};
ghost use Rattle.bitvectors.specs.Blasts.{IsBlasted, IsReady};
ghost use Rattle.bitvectors.specs.Reads.{IfNone};
ghost use Rattle.path_states.specs.States.{AreStates};
ghost use Rattle.log_expr.specs.Tours.{Tour};
ghost use Rattle.run_formula.specs.Formula.{IsFormula};
ghost use Rattle.query_core.specs.Claims.{asked_nodes, claimed, claim, IsAbout, IsDefined, IsFoundAt, IsMade, IsOfRun, IsQuery, IsUnwalked, IsWhole, StaysFor};

use crate::bits::{bit_of_root, bit_of_target};
use crate::clauses::{add_all, add_claim, number_behind, push_all, push_claim};
use crate::fault::AskFault;
use crate::others::{Other, other_at_index};
use crate::target::Target;
use bitvectors::{Blasted, blast_reads};
use cdcl::Solver;
use cnf_core::Formula;
use gates::Bit;
use plain_data::Items;
use run_formula::RunFormula;
use std::alloc::{AllocError, Global};
use term_bank::{Bank, Node};

/// The clauses that say that a run fits, with the bit of each fact, and a solver over them for all questions on facts.
pub struct Query {
    /// The clauses of the roots: that the run fits, and each fact, in order.
    pub(crate) blasted: Blasted,
    /// Over these clauses, and the one that says that the run fits.
    pub(crate) solver: Solver,
    /// The number that one clause more would have.
    pub(crate) last: u32,
    /// The formula, whose terms stand in the bank; none where it was lost for want of memory.
    pub(crate) formula: RunFormula,
    pub(crate) bank: Option<Bank>,
    /// The literals of questions on values that were made.
    pub(crate) others: Items<Other>,
}

/// By hand, so that a call stands in place of all its parts wherever a value is let go.
impl Drop for Query {
    fn drop(self) {
        let Query {
            blasted,
            solver,
            last,
            formula,
            bank,
            others,
        } = self;
    }
}

/// The truths that a query is asked: that the run fits, and each fact.
fn roots_of(alloc: Global, formula: &RunFormula) -> Result<Items<Node>, AllocError>
    ensures { IfOk result (λ nodes. nodes ≡ asked_nodes formula.now) }
{
    let mut roots = Items::new(alloc);
    roots.push(formula.fits)?;
    roots.extend_from_slice(formula.facts.as_slice())?;
    Ok(roots)
}

/// A solver over the clauses that say that the run fits.
pub(crate) fn solver_of(alloc: Global, blasted: &Blasted, fits: &Bit) -> Result<Solver, AllocError>
    ensures clauses { IfOk result (λ solver. solver.clauses ≡ blasted.now.formula ++ claimed fits.now) }
    ensures kept { IfOk result (λ solver. solver.kept ≡ []) }
{
    let mut solver = Solver::new(alloc);
    add_all(alloc, &mut solver, &blasted.formula)?;
    add_claim(alloc, &mut solver, fits)?;
    Ok(solver)
}

/// The query over these clauses.
fn query_of(
    alloc: Global,
    blasted: Blasted,
    formula: RunFormula,
    bank: Bank,
) -> Result<Query, AllocError>
    ensures { IfOk result (IsMade blasted formula bank) }
{
    let fits = bit_of_root(&blasted.roots, 0);
    let last = number_behind(&blasted.formula, &fits)?;
    let solver = solver_of(alloc, &blasted, &fits)?;
    Ok(Query {
        blasted,
        solver,
        last,
        formula,
        bank: Some(bank),
        others: Items::new(alloc),
    })
}

impl Query {
    /// The query of a run formula over its bank: none where what stands for its truths without reads depends on more
    /// than the world. It fails for want of memory alone.
    pub fn new(
        alloc: Global,
        formula: RunFormula,
        mut bank: Bank,
    ) -> Result<Option<Query>, AskFault>
        requires bank { IsBank bank }
        requires roots { Each (IsNode bank) (asked_nodes formula) }
        requires ends { AreStates bank formula.states }
        ensures query { IfOk result (λ found. IfSome found (λ q. (t : Tour) (a : List Shape) (fs : List Fact) →
            IsFormula t a bank fs formula → IsQuery t fs q)) }
        ensures whole { IfOk result (λ found. IfSome found IsWhole) }
        ensures watches { IfOk result (λ found. IfSome found (λ q. q.formula.watches ≡ formula.watches)) }
        ensures none { IfOk result (λ found. IfNone found (IsUnwalked bank formula)) }
        ensures fault { result ≡ Err Unwalked → ⊥ }
    {
        let roots = roots_of(alloc, &formula)?;
        match blast_reads(alloc, &mut bank, roots.as_slice())? {
            None => Ok(None),
            Some(blasted) => {
                let query = query_of(alloc, blasted, formula, bank)?;
                Ok(Some(query))
            }
        }
    }

    /// Lets the query go. Each crate that lets one go by itself proves anew how all that it holds is let go.
    pub fn discard(self) {
        drop(self);
    }

    /// The clauses that say that a run fits and is as a target that is no value's asks.
    fn claim_of_run(&self, alloc: Global, target: Target) -> Result<Formula, AskFault>
        requires whole { IsWhole self.now }
        requires run { IsOfRun target }
        ensures { IfOk result (λ formula. formula ≡ claim self.now target) }
    {
        let fits = bit_of_root(&self.blasted.roots, 0);
        let bit = bit_of_target(&self.blasted.roots, target);
        let mut formula = Formula::new(alloc);
        push_all(&mut formula, &self.blasted.formula)?;
        push_claim(&mut formula, &fits)?;
        push_claim(&mut formula, &bit)?;
        Ok(formula)
    }

    /// The clauses that say that a run fits, and behind them those of the literal of a watched variable and a value
    /// and the one that says that it is true.
    fn claim_of_other(
        &self,
        alloc: Global,
        watch: u32,
        value: &i128,
        index: usize,
    ) -> Result<Formula, AskFault>
        requires whole { IsWhole self.now }
        requires found { IsFoundAt self.now.others watch value.now index }
        ensures { IfOk result (λ formula. formula ≡ claim self.now (OtherTarget watch value.now)) }
    {
        let _ = watch;
        let _ = value;
        let other = other_at_index(self.others.as_slice(), index);
        let fits = bit_of_root(&self.blasted.roots, 0);
        let bit = bit_of_root(&other.more.roots, 0);
        let mut formula = Formula::new(alloc);
        push_all(&mut formula, &self.blasted.formula)?;
        push_claim(&mut formula, &fits)?;
        push_all(&mut formula, &other.more.formula)?;
        push_claim(&mut formula, &bit)?;
        Ok(formula)
    }

    /// The clauses that say that a run fits and is as it is asked for: the query's own; of a question on a value those
    /// that define its literal; and one more at the end, with one literal or, where no run that fits is so by the bits
    /// alone, with none. Where each run that fits is so by the bits alone there is no clause more at the end. A
    /// refutation that the query answers to this target is one of exactly these clauses, which stay the same from the
    /// first question on. It fails as `ask` does.
    pub fn claim_formula(&mut self, alloc: Global, target: Target) -> Result<Formula, AskFault>
        requires whole { IsWhole self.old }
        requires target { IsAbout self.old target }
        ensures formula { IfOk result (λ formula. formula ≡ claim self.new target) }
        ensures defined { IfOk result (λ _. IsDefined self.new target) }
        ensures keeps { StaysFor target self.old self.new }
    {
        match &target {
            Target::Other { watch, value } => {
                let index = self.define(alloc, *watch, value)?;
                let formula = self.claim_of_other(alloc, *watch, value, index)?;
                Ok(formula)
            }
            Target::Fits => {
                let formula = self.claim_of_run(alloc, target)?;
                Ok(formula)
            }
            Target::Having(_) => {
                let formula = self.claim_of_run(alloc, target)?;
                Ok(formula)
            }
            Target::Lacking(_) => {
                let formula = self.claim_of_run(alloc, target)?;
                Ok(formula)
            }
        }
    }
}
