//! Worlds whose runs fit, with these runs.
ghost use Rattle.std.specs.Prelude.{◌≡◌, ◌∷◌, ◌++◌, [], length, suc, IfOk, OnOk};
ghost use Rattle.must_facts.specs.Inquiries.{run_in};
ghost use Rattle.must_facts.specs.Knowing.{Finds, FindsWorld};

use crate::inquiry::Inquiry;
use log_text::LogText;
use plain_data::{Fact, Items, Run, World};
use query_core::AskFault;
use replayer::replay;
use run_facts::holds;
use std::alloc::Global;

/// Worlds, and the run in each, in one order.
#[derive(Drop)]
pub(crate) struct Known {
    pub(crate) worlds: Items<World>,
    pub(crate) runs: Items<Run>,
}

/// The index of a run on which the fact holds, or where it is wanted that it doesn't, of one on which it doesn't.
fn first_with(runs: &[Run], log: &LogText, fact: &Fact, wanted: bool) -> Option<usize>
    ensures found { Finds wanted log.now fact.now runs.now result }
{
    for (index, run) in runs.iter().enumerate() {
        if holds(fact, run, log) == wanted {
            return Some(index);
        }
    }
    None
}

/// The number of the world at an index.
pub(crate) fn number_at(index: usize) -> Result<u32, AskFault>
    ensures { IfOk result (λ number. number ≡ suc index) }
{
    if index >= 0xffff_ffff {
        return Err(AskFault::Memory);
    }
    Ok(index as u32 + 1)
}

impl Known {
    /// Nothing yet.
    pub(crate) fn new(alloc: Global) -> Known
        ensures worlds { result.worlds ≡ [] }
        ensures runs { result.runs ≡ [] }
    {
        Known {
            worlds: Items::new(alloc),
            runs: Items::new(alloc),
        }
    }

    /// One world more, with its run. It fails for want of memory alone.
    pub(crate) fn add(
        &mut self,
        alloc: Global,
        inquiry: &Inquiry<'_>,
        world: World,
    ) -> Result<(), AskFault>
        ensures worlds { OnOk result (self.new.worlds ≡ self.old.worlds ++ world ∷ []) }
        ensures runs { OnOk result (self.new.runs ≡ self.old.runs ++ run_in inquiry.now world ∷ []) }
    {
        let run = replay(alloc, inquiry.program, &world, inquiry.bounds)?;
        self.runs.push(run)?;
        self.worlds.push(world)?;
        Ok(())
    }

    /// The number of a world on whose run the fact holds, or where it is wanted that it doesn't, of one on whose run it
    /// doesn't; none where no known world's run is so.
    pub(crate) fn find(
        &self,
        inquiry: &Inquiry<'_>,
        fact: &Fact,
        wanted: bool,
    ) -> Result<Option<u32>, AskFault>
        ensures { IfOk result (FindsWorld wanted inquiry.now.log.now fact.now self.now) }
    {
        match first_with(self.runs.as_slice(), inquiry.log, fact, wanted) {
            None => Ok(None),
            Some(index) => {
                let number = number_at(index)?;
                Ok(Some(number))
            }
        }
    }

    /// How many worlds are known, which is also the number of the last.
    pub(crate) fn count(&self) -> Result<u32, AskFault>
        ensures { IfOk result (λ count. count ≡ length self.now.worlds) }
    {
        let count = self.worlds.len();
        if count > 0xffff_ffff {
            return Err(AskFault::Memory);
        }
        Ok(count as u32)
    }
}
