//! Verdicts on facts: by worlds that are known, else by a question.
ghost use Rattle.std.specs.Prelude.{◌≡◌, Some, All, IfOk, OnOk, true, false};
ghost use Rattle.query_core.specs.Claims.{fact_at, GoesOn};
ghost use Rattle.must_facts.specs.Inquiries.{IsQueryOf, matter_of};
ghost use Rattle.must_facts.specs.Knowing.{Answers, IsKnown, Weighs, WeighsAll};

use crate::inquiry::Inquiry;
use crate::known::{Known, number_at};
use diagnoses::{Open, Verdict};
use plain_data::{Fact, Items};
use query_core::{AskFault, Query, Reply, Target};
use std::alloc::Global;

/// The verdict on a fact that holds on the run of each known world.
fn weigh_lacking(
    alloc: Global,
    inquiry: &Inquiry<'_>,
    query: &mut Query,
    known: &mut Known,
    number: u32,
    fact: &Fact,
) -> Result<Verdict, AskFault>
    requires query { IsQueryOf inquiry.now query.old }
    requires known { IsKnown (matter_of inquiry.now query.old) known.old }
    requires fact { fact_at inquiry.now.facts.now number ≡ Some fact.now }
    requires hold { All (Answers true inquiry.now.log.now fact.now) known.old.runs }
    ensures goes { OnOk result (GoesOn query.old query.new) }
    ensures weighs { IfOk result (Weighs (matter_of inquiry.now query.old) number fact.now known.old known.new query.old.solver.kept query.new.solver.kept) }
{
    match query.ask(alloc, Target::Lacking(number), inquiry.conflicts)? {
        Reply::World(world) => {
            known.add(alloc, inquiry, world)?;
            let lacking = known.count()?;
            Ok(Verdict::May { having: 1, lacking })
        }
        Reply::Refuted(refutation) => Ok(Verdict::Must(refutation)),
        Reply::Spent(trail) => {
            let count = known.count()?;
            Ok(Verdict::Unknown {
                open: Open::Lacking,
                known: count,
                trail,
            })
        }
    }
}

/// The verdict on a fact that holds on the run of no known world.
fn weigh_having(
    alloc: Global,
    inquiry: &Inquiry<'_>,
    query: &mut Query,
    known: &mut Known,
    number: u32,
    fact: &Fact,
) -> Result<Verdict, AskFault>
    requires query { IsQueryOf inquiry.now query.old }
    requires known { IsKnown (matter_of inquiry.now query.old) known.old }
    requires fact { fact_at inquiry.now.facts.now number ≡ Some fact.now }
    requires fail { All (Answers false inquiry.now.log.now fact.now) known.old.runs }
    ensures goes { OnOk result (GoesOn query.old query.new) }
    ensures weighs { IfOk result (Weighs (matter_of inquiry.now query.old) number fact.now known.old known.new query.old.solver.kept query.new.solver.kept) }
{
    match query.ask(alloc, Target::Having(number), inquiry.conflicts)? {
        Reply::World(world) => {
            known.add(alloc, inquiry, world)?;
            let having = known.count()?;
            Ok(Verdict::May { having, lacking: 1 })
        }
        Reply::Refuted(refutation) => Ok(Verdict::MustNot(refutation)),
        Reply::Spent(trail) => {
            let count = known.count()?;
            Ok(Verdict::Unknown {
                open: Open::Having,
                known: count,
                trail,
            })
        }
    }
}

/// The verdict on the fact of a number.
fn weigh(
    alloc: Global,
    inquiry: &Inquiry<'_>,
    query: &mut Query,
    known: &mut Known,
    number: u32,
    fact: &Fact,
) -> Result<Verdict, AskFault>
    requires query { IsQueryOf inquiry.now query.old }
    requires known { IsKnown (matter_of inquiry.now query.old) known.old }
    requires fact { fact_at inquiry.now.facts.now number ≡ Some fact.now }
    ensures goes { OnOk result (GoesOn query.old query.new) }
    ensures weighs { IfOk result (Weighs (matter_of inquiry.now query.old) number fact.now known.old known.new query.old.solver.kept query.new.solver.kept) }
{
    let Some(having) = known.find(inquiry, fact, true)? else {
        return weigh_having(alloc, inquiry, query, known, number, fact);
    };
    match known.find(inquiry, fact, false)? {
        Some(lacking) => Ok(Verdict::May { having, lacking }),
        None => weigh_lacking(alloc, inquiry, query, known, number, fact),
    }
}

/// The verdicts on all facts, in order.
pub(crate) fn weigh_all(
    alloc: Global,
    inquiry: &Inquiry<'_>,
    query: &mut Query,
    known: &mut Known,
) -> Result<Items<Verdict>, AskFault>
    requires query { IsQueryOf inquiry.now query.old }
    requires known { IsKnown (matter_of inquiry.now query.old) known.old }
    ensures goes { OnOk result (GoesOn query.old query.new) }
    ensures weighs { IfOk result (λ vs. WeighsAll (matter_of inquiry.now query.old) inquiry.now.facts.now known.new query.new.solver.kept vs) }
{
    let mut verdicts = Items::new(alloc);
    for index in 0..inquiry.facts.len() {
        let number = number_at(index)?;
        let verdict = weigh(alloc, inquiry, query, known, number, &inquiry.facts[index])?;
        verdicts.push(verdict)?;
    }
    Ok(verdicts)
}
