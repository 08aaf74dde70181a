//! Where an expression leads, while it is walked.
ghost use Rattle.std.specs.Prelude.{◌≡◌, ◌++◌, ◌∷◌, [], ℕ, List, OnOk};
ghost use Rattle.log_expr.specs.Trails.{IsPut, Stops, Saves, Joins, Switches};

use plain_data::Items;
use positions::Positions;
use std::alloc::{AllocError, Global};

/// Where an expression led so far, where the run may have ended in it, and what was set aside.
#[derive(Drop)]
pub struct Trail {
    /// Where it led so far.
    pub at: Positions,
    /// Where the run may have ended.
    pub ended: Positions,
    /// What was set aside, the last behind.
    pub aside: Items<Positions>,
}

impl Trail {
    /// The run may end where it stands. It fails for want of memory alone.
    pub fn stop(&mut self) -> Result<(), AllocError>
        ensures { OnOk result (Stops self.old self.new) }
    {
        self.ended.put_all(&self.at)?;
        Ok(())
    }

    /// Sets aside where it stands. It fails for want of memory alone.
    pub fn save(&mut self, alloc: Global) -> Result<(), AllocError>
        ensures { OnOk result (Saves self.old self.new) }
    {
        let copy = self.at.copy(alloc)?;
        self.aside.push(copy)?;
        Ok(())
    }

    /// Goes on from what was set aside last, and sets aside where it stands. It fails for want of memory alone.
    pub fn switch(&mut self, alloc: Global) -> Result<(), AllocError>
        ensures { OnOk result (Switches self.old self.new) }
    {
        if let Some(before) = self.aside.pop() {
            let now = std::mem::replace(&mut self.at, before);
            self.aside.push(now)?;
        }
        Ok(())
    }

    /// Stands also where it was set aside last. It fails for want of memory alone.
    pub fn join(&mut self) -> Result<(), AllocError>
        ensures { OnOk result (Joins self.old self.new) }
    {
        if let Some(before) = self.aside.pop() {
            self.at.put_all(&before)?;
        }
        Ok(())
    }
}
