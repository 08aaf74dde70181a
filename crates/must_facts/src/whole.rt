//! From an accepted source and a log to the diagnosis.
ghost use Rattle.std.specs.Prelude.{◌≡◌, ◌↔◌, ◌≤◌, ◌<◌, Err, IfOk, true};
ghost use Rattle.must_facts.specs.Inquiries.{IsDiagnosed, IsFound, IsQueryOf, RunsAlong, measure_of};
ghost use Rattle.must_facts.specs.declared.fault.DiagnoseFault.TheVariants.{TooLarge};

use crate::diagnosing::diagnose;
use crate::fault::DiagnoseFault;
use crate::inquiry::Inquiry;
use accepted::Accepted;
use cnf_core::Formula;
use core_tree::Core;
use diagnoses::Diagnosis;
use log_expr::end_table;
use log_text::LogText;
use plain_data::{Bounds, Fact, Facts};
use program_facts::facts_of;
use query_core::{Query, Target};
use replayer::unrolled_size;
use run_formula::{Watch, run_formula, watches_of};
use std::alloc::{AllocError, Global};
use term_bank::Bank;

/// The greatest measure that is followed.
const MAX_MEASURE: u64 = 2_000_000;

/// The facts of a source along a log, with a verdict on each.
#[derive(Drop)]
pub struct Diagnosed {
    pub facts: Facts,
    pub diagnosis: Diagnosis,
    /// The clauses that say that a run fits; refutations and trails are over them.
    pub run: Formula,
}

/// A program within bounds whose runs are walked along a log, and the facts that are asked of them.
#[derive(Clone, Copy)]
struct Walked<'a> {
    core: &'a Core,
    bounds: &'a Bounds,
    log: &'a LogText,
    facts: &'a [Fact],
    watches: &'a [Watch],
}

/// Whether the nodes that a source unrolls to, once for each line of a log and once for its end, are followed.
fn is_within(
    alloc: Global,
    program: &Accepted,
    bounds: &Bounds,
    log: &LogText,
) -> Result<bool, AllocError>
    ensures { IfOk result (λ b. (b ≡ true) ↔ (measure_of program.now bounds.now log.now ≤ 2000000)) }
{
    let Some(positions) = (log.line_count() as u64).checked_add(1) else {
        return Err(AllocError);
    };
    let most = MAX_MEASURE / positions;
    let size = unrolled_size(alloc, program, bounds, most + 1)?;
    if size <= most {
        return Ok(true);
    }
    Ok(false)
}

/// The query over the runs of a program along a log.
fn query_of(alloc: Global, walked: &Walked<'_>) -> Result<Query, DiagnoseFault>
    ensures query { IfOk result (λ q. RunsAlong walked.now.core.now walked.now.bounds.now walked.now.log.now
        walked.now.facts.now q) }
    ensures small { result ≡ Err TooLarge → ⊥ }
{
    let Walked {
        core,
        bounds,
        log,
        facts,
        watches,
    } = *walked;
    let ends = end_table(alloc, core, log.bytes(), bounds)?;
    let mut bank = Bank::new(alloc);
    let mut walks = 0;
    let formula = run_formula(
        alloc, core, log, bounds, &ends, facts, watches, &mut bank, &mut walks,
    )?;
    match Query::new(alloc, formula, bank)? {
        Some(query) => Ok(query),
        None => Err(DiagnoseFault::Unwalked),
    }
}

/// A diagnosis by a query, and the clauses that say that a run fits.
#[derive(Drop)]
struct Found {
    diagnosis: Diagnosis,
    run: Formula,
}

/// What is found by a query.
fn found_by(alloc: Global, inquiry: &Inquiry<'_>, query: &mut Query) -> Result<Found, DiagnoseFault>
    requires query { IsQueryOf inquiry.now query.old }
    ensures found { IfOk result (IsFound inquiry.now query.old) }
    ensures small { result ≡ Err TooLarge → ⊥ }
{
    let diagnosis = diagnose(alloc, inquiry, query)?;
    let run = query.claim_formula(alloc, Target::Fits)?;
    Ok(Found { diagnosis, run })
}

/// The diagnosis of an accepted source and a log, by at most so many conflicts a question; by line, the sides of
/// branches and the calls are facts of each line too.
///
/// `TooLarge` comes exactly where the source unrolls to more nodes than are followed, over the lines of the log.
/// `Unwalked` comes where the walk doesn't do what a step of the program does yet.
pub fn diagnose_source(
    alloc: Global,
    program: &Accepted,
    bounds: &Bounds,
    log: &LogText,
    conflicts: u32,
    by_line: bool,
) -> Result<Diagnosed, DiagnoseFault>
    ensures diagnosed { IfOk result (IsDiagnosed program.now bounds.now log.now conflicts by_line) }
    ensures within { IfOk result (λ _. measure_of program.now bounds.now log.now ≤ 2000000) }
    ensures large { result ≡ Err TooLarge → 2000000 < measure_of program.now bounds.now log.now }
{
    if !is_within(alloc, program, bounds, log)? {
        return Err(DiagnoseFault::TooLarge);
    }
    let facts = facts_of(alloc, &program.core, log, by_line)?;
    let watches = watches_of(alloc, &facts)?;
    let walked = Walked {
        core: &program.core,
        bounds,
        log,
        facts: facts.facts.as_slice(),
        watches: watches.as_slice(),
    };
    let mut query = query_of(alloc, &walked)?;
    let inquiry = Inquiry {
        program,
        bounds,
        log,
        facts: facts.facts.as_slice(),
        conflicts,
    };
    let outcome = found_by(alloc, &inquiry, &mut query);
    query.discard();
    let found = outcome?;
    let Found { diagnosis, run } = found;
    Ok(Diagnosed {
        facts,
        diagnosis,
        run,
    })
}
