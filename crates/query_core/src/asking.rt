//! Questions.
ghost use Rattle.std.specs.Prelude.{◌≡◌, ◌++◌, ◌+◌, [], length, IfOk};
ghost use Rattle.query_core.specs.Claims.{GoesOn, IsAbout, IsFoundAt, IsOfRun, IsWhole, KeepsFor, replying};
ghost use Rattle.query_core.specs.Replies.{IsReply, KeepsBehind, KeepsBehindFor};
ghost use Rattle.query_core.specs.declared.target.Target.TheVariants.{Other as OtherTarget};

use crate::bits::{bit_of_root, bit_of_target};
use crate::clauses::add_all;
use crate::fault::AskFault;
use crate::others::{Other, other_at_index};
use crate::query::{Query, solver_of};
use crate::reply::Reply;
use crate::seeking::seek;
use crate::target::Target;
use cdcl::Solver;
use std::alloc::{AllocError, Global};

/// The number of the clause behind those of a literal, where this is the number of the first of them.
fn number_behind_other(number: u32, other: &Other) -> Result<u32, AllocError>
    ensures { IfOk result (λ n. n ≡ number + length other.now.more.formula) }
{
    let len = other.more.formula.len();
    if len >= 0xffff_ffff {
        return Err(AllocError);
    }
    match number.checked_add(len as u32) {
        Some(sum) => Ok(sum),
        None => Err(AllocError),
    }
}

impl Query {
    /// A solver over the query's clauses and those of a literal.
    fn solver_for(&self, alloc: Global, other: &Other) -> Result<Solver, AllocError>
        requires whole { IsWhole self.now }
        ensures clauses { IfOk result (λ solver. solver.clauses ≡ self.now.solver.clauses ++ other.now.more.formula) }
        ensures kept { IfOk result (λ solver. solver.kept ≡ []) }
    {
        let fits = bit_of_root(&self.blasted.roots, 0);
        let mut solver = solver_of(alloc, &self.blasted, &fits)?;
        add_all(alloc, &mut solver, &other.more.formula)?;
        Ok(solver)
    }

    /// The answer on the literal of a watched variable and a value, by a solver of its own.
    fn ask_other(
        &self,
        alloc: Global,
        watch: u32,
        value: &i128,
        index: usize,
        conflicts: u32,
    ) -> Result<Reply, AskFault>
        requires whole { IsWhole self.now }
        requires found { IsFoundAt self.now.others watch value.now index }
        ensures { IfOk result (IsReply self.now (OtherTarget watch value.now) conflicts) }
    {
        let _ = watch;
        let _ = value;
        let other = other_at_index(self.others.as_slice(), index);
        let bit = bit_of_root(&other.more.roots, 0);
        let mut solver = self.solver_for(alloc, other)?;
        let number = number_behind_other(self.last, other)?;
        let reply = seek(
            alloc,
            &mut solver,
            &other.more.inputs,
            &bit,
            number,
            conflicts,
        )?;
        Ok(reply)
    }

    /// The answer on whether a run fits, or on a fact.
    fn ask_run(&mut self, alloc: Global, target: Target, conflicts: u32) -> Result<Reply, AskFault>
        requires whole { IsWhole self.old }
        requires target { IsAbout self.old target }
        requires run { IsOfRun target }
        ensures reply { IfOk result (IsReply self.old target conflicts) }
        ensures kept { IfOk result (KeepsBehind self.old.solver.kept self.new.solver.kept) }
        ensures goes { GoesOn self.old self.new }
    {
        let bit = bit_of_target(&self.blasted.roots, target);
        let reply = seek(
            alloc,
            &mut self.solver,
            &self.blasted.inputs,
            &bit,
            self.last,
            conflicts,
        )?;
        Ok(reply)
    }

    /// Whether some run fits and is as it is asked for, by at most so many conflicts.
    ///
    /// `World` has a world whose run is so, `Refuted` a refutation of the clauses of `claim_formula`, and then no
    /// world's run is so; `Spent` comes where so many conflicts were met, with the clauses learnt from them behind
    /// those that earlier questions learnt: of questions on facts all steps are kept. Where the bits alone say that no
    /// run that fits is so, nothing is searched for. A question on a value has a solver of its own. It fails for want
    /// of memory, and `Unwalked` where what a print sees of the watched variable isn't walked yet; it may be asked
    /// again whatever it answers.
    pub fn ask(&mut self, alloc: Global, target: Target, conflicts: u32) -> Result<Reply, AskFault>
        requires whole { IsWhole self.old }
        requires target { IsAbout self.old target }
        ensures reply { IfOk result (IsReply (replying target self.old self.new) target conflicts) }
        ensures kept { IfOk result (KeepsBehindFor target self.old self.new) }
        ensures keeps { KeepsFor target self.old self.new }
    {
        match &target {
            Target::Other { watch, value } => {
                let index = self.define(alloc, *watch, value)?;
                let reply = self.ask_other(alloc, *watch, value, index, conflicts)?;
                Ok(reply)
            }
            Target::Fits => {
                let reply = self.ask_run(alloc, target, conflicts)?;
                Ok(reply)
            }
            Target::Having(_) => {
                let reply = self.ask_run(alloc, target, conflicts)?;
                Ok(reply)
            }
            Target::Lacking(_) => {
                let reply = self.ask_run(alloc, target, conflicts)?;
                Ok(reply)
            }
        }
    }
}
