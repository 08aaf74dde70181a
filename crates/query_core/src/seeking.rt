//! What a solver answers where a bit is to be true.
ghost use Rattle.std.specs.Prelude.{◌≡◌, ◌+◌, length, IfOk};
ghost use Rattle.bitvectors.specs.declared.blasting.Blasted.{Blasted as BlastedType};
ghost use Rattle.bitvectors.specs.Blasts.{HasWidth};
ghost use Rattle.gates.specs.declared.bit.Bit.TheVariants.{Known};
ghost use Rattle.query_core.specs.Replies.{IsSought, KeepsBehind, Seeks};

use crate::clauses::refute_by;
use crate::fault::AskFault;
use crate::reply::Reply;
use bitvectors::Inputs;
use cdcl::{Answer, MostMarked, Solver};
use cnf_core::Lit;
use gates::Bit;
use std::alloc::Global;

/// What the solver answers under assumptions, where these are the inputs of its clauses.
fn search(
    alloc: Global,
    solver: &mut Solver,
    inputs: &Inputs,
    assume: &[Lit],
    conflicts: u32,
) -> Result<Reply, AskFault>
    requires words { HasWidth 64 inputs.now.words }
    requires bytes { HasWidth 8 inputs.now.bytes }
    ensures reply { IfOk result (λ reply. (b : BlastedType) → b.inputs ≡ inputs.now →
        IsSought solver.old b assume.now conflicts reply) }
    ensures kept { IfOk result (KeepsBehind solver.old.kept solver.new.kept) }
    ensures clauses { solver.new.clauses ≡ solver.old.clauses }
{
    let answer = solver.solve(alloc, &MostMarked, assume, conflicts)?;
    match answer {
        Answer::Sat(values) => {
            let world = inputs.decode(alloc, &values)?;
            Ok(Reply::World(world))
        }
        Answer::Unsat(refutation) => Ok(Reply::Refuted(refutation)),
        Answer::Spent(trail) => Ok(Reply::Spent(trail)),
    }
}

/// What the solver answers where a known bit is to be true, whose clause would have this number. Where the bit is
/// false, nothing is searched for.
fn seek_known(
    alloc: Global,
    solver: &mut Solver,
    inputs: &Inputs,
    known: bool,
    number: u32,
    conflicts: u32,
) -> Result<Reply, AskFault>
    requires words { HasWidth 64 inputs.now.words }
    requires bytes { HasWidth 8 inputs.now.bytes }
    requires number { number ≡ length solver.old.clauses + 1 }
    ensures reply { IfOk result (λ reply. (b : BlastedType) → b.inputs ≡ inputs.now →
        Seeks solver.old b (Known known) conflicts reply) }
    ensures kept { IfOk result (KeepsBehind solver.old.kept solver.new.kept) }
    ensures clauses { solver.new.clauses ≡ solver.old.clauses }
{
    if known {
        let reply = search(alloc, solver, inputs, &[], conflicts)?;
        return Ok(reply);
    }
    let refutation = refute_by(alloc, number)?;
    Ok(Reply::Refuted(refutation))
}

/// What the solver answers where a bit is to be true, whose clause would have this number. Where the bit is known not
/// to be true, nothing is searched for.
pub(crate) fn seek(
    alloc: Global,
    solver: &mut Solver,
    inputs: &Inputs,
    bit: &Bit,
    number: u32,
    conflicts: u32,
) -> Result<Reply, AskFault>
    requires words { HasWidth 64 inputs.now.words }
    requires bytes { HasWidth 8 inputs.now.bytes }
    requires number { number ≡ length solver.old.clauses + 1 }
    ensures reply { IfOk result (λ reply. (b : BlastedType) → b.inputs ≡ inputs.now →
        Seeks solver.old b bit.now conflicts reply) }
    ensures kept { IfOk result (KeepsBehind solver.old.kept solver.new.kept) }
    ensures clauses { solver.new.clauses ≡ solver.old.clauses }
{
    match bit {
        Bit::Known(known) => {
            let reply = seek_known(alloc, solver, inputs, *known, number, conflicts)?;
            Ok(reply)
        }
        Bit::Unknown(literal) => {
            let reply = search(alloc, solver, inputs, &[*literal], conflicts)?;
            Ok(reply)
        }
    }
}
