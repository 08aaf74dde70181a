//! The diagnosis.
ghost use Rattle.std.specs.Prelude.{IfOk, OnOk};
ghost use Rattle.query_core.specs.Claims.{GoesOn};
ghost use Rattle.must_facts.specs.Inquiries.{IsQueryOf, matter_of};
ghost use Rattle.must_facts.specs.Verdicts.{AreFindings, FitsOn, IsDiagnosis};

use crate::inquiry::Inquiry;
use crate::known::Known;
use crate::weighing::weigh_all;
use diagnoses::{Diagnosis, Findings};
use plain_data::World;
use query_core::{AskFault, Query, Reply, Target};
use std::alloc::Global;

/// What is found where the run of a world fits.
fn findings(
    alloc: Global,
    inquiry: &Inquiry<'_>,
    query: &mut Query,
    world: World,
) -> Result<Findings, AskFault>
    requires query { IsQueryOf inquiry.now query.old }
    requires fits { FitsOn (matter_of inquiry.now query.old) world }
    ensures goes { OnOk result (GoesOn query.old query.new) }
    ensures found { IfOk result (AreFindings (matter_of inquiry.now query.old) inquiry.now.facts.now) }
{
    let mut known = Known::new(alloc);
    known.add(alloc, inquiry, world)?;
    let verdicts = weigh_all(alloc, inquiry, query, &mut known)?;
    let Known { worlds, runs: _ } = known;
    Ok(Findings { worlds, verdicts })
}

/// The diagnosis of an accepted source and a log, by a query over its runs along the log and these facts. First it is
/// asked whether a run fits, then of each fact, in order, what the worlds that are known don't show. It fails for want
/// of memory alone.
pub fn diagnose(
    alloc: Global,
    inquiry: &Inquiry<'_>,
    query: &mut Query,
) -> Result<Diagnosis, AskFault>
    requires query { IsQueryOf inquiry.now query.old }
    ensures goes { OnOk result (GoesOn query.old query.new) }
    ensures diagnosis { IfOk result (IsDiagnosis (matter_of inquiry.now query.old) inquiry.now.facts.now) }
{
    match query.ask(alloc, Target::Fits, inquiry.conflicts)? {
        Reply::World(world) => {
            let found = findings(alloc, inquiry, query, world)?;
            Ok(Diagnosis::Found(found))
        }
        Reply::Refuted(refutation) => Ok(Diagnosis::Nothing(refutation)),
        Reply::Spent(trail) => Ok(Diagnosis::Undecided(trail)),
    }
}
