//! Where code leads, while it is walked.
ghost use Rattle.std.specs.Prelude.{◌≡◌, ◌≤◌, ◌||◌, ℕ, true, IfOk, OnOk};
ghost use Rattle.positions.specs.Sets.{has};
ghost use Rattle.log_expr.specs.Courses.{only_running, Enters, Leaves, Passes, BeginsAgain, EndsBody, BeginsTurn};
ghost use Rattle.log_expr.specs.Flows.{Wider};

use crate::flow::Flow;
use plain_data::Items;
use positions::Positions;
use std::alloc::{AllocError, Global};

/// What was set aside where a part of code was entered.
#[derive(Drop)]
pub struct Aside {
    /// Where runs stand that pass the part.
    pub passing: Flow,
    /// Where runs enter it.
    pub starts: Positions,
}

/// Where code led so far, what was set aside where the innermost part of it was entered, and the same of the parts
/// round it.
pub struct Course {
    /// Where it led so far.
    pub at: Flow,
    /// Where runs stand that pass what is walked.
    pub passing: Flow,
    /// Where runs enter what is walked.
    pub starts: Positions,
    /// What was set aside for the parts round it, the last behind.
    pub outer: Items<Aside>,
}

/// By hand, so that a call stands in place of all its parts wherever a value is let go.
impl Drop for Course {
    fn drop(self) {
        let Course {
            at,
            passing,
            starts,
            outer,
        } = self;
    }
}

/// Whether each position of a set is in another.
fn is_within(some: &Positions, all: &Positions) -> bool
    ensures { result ≡ true → Wider some.now all.now }
{
    'some: for position in some.as_slice() {
        if !all.contains(*position) {
            return false;
        }
    }
    true
}

impl Course {
    /// Where a function begins that is called at these positions.
    pub fn begin(alloc: Global, starts: Positions) -> Course
        ensures { result.at ≡ only_running starts }
    {
        Course {
            at: Flow::at(alloc, starts),
            passing: Flow::at(alloc, Positions::new(alloc)),
            starts: Positions::new(alloc),
            outer: Items::new(alloc),
        }
    }

    /// Where it led.
    pub fn into_flow(self) -> Flow
        ensures { result ≡ self.at }
    {
        let Course {
            at,
            passing,
            starts,
            outer,
        } = self;
        at
    }

    /// Runs that are running enter a part; the others pass it. It fails for want of memory alone.
    pub fn enter(&mut self, alloc: Global) -> Result<(), AllocError>
        ensures { OnOk result (Enters self.old self.new) }
    {
        let running = self.at.take_running(alloc);
        let starts = running.copy(alloc)?;
        let gone = std::mem::replace(&mut self.at, Flow::at(alloc, running));
        let passing = std::mem::replace(&mut self.passing, gone);
        let starts = std::mem::replace(&mut self.starts, starts);
        self.outer.push(Aside { passing, starts })?;
        Ok(())
    }

    /// Behind a part: where it led, and where runs stand that passed it. It fails for want of memory alone.
    pub fn leave(&mut self) -> Result<(), AllocError>
        ensures { OnOk result (Leaves self.old self.new) }
    {
        self.at.join(&self.passing)?;
        if let Some(last) = self.outer.pop() {
            let Aside { passing, starts } = last;
            self.passing = passing;
            self.starts = starts;
        }
        Ok(())
    }

    /// Runs may pass the rest of a part from where they stand. It fails for want of memory alone.
    pub fn pass(&mut self) -> Result<(), AllocError>
        ensures { OnOk result (Passes self.old self.new) }
    {
        self.passing.join(&self.at)?;
        Ok(())
    }

    /// The other half of a part begins where it was entered. It fails for want of memory alone.
    pub fn begin_again(&mut self, alloc: Global) -> Result<(), AllocError>
        ensures { OnOk result (BeginsAgain self.old self.new) }
    {
        self.passing.join(&self.at)?;
        let starts = self.starts.copy(alloc)?;
        self.at = Flow::at(alloc, starts);
        Ok(())
    }

    /// At the end of a loop's body: runs that are on their way out of the loop pass the rest. It fails for want of
    /// memory alone.
    pub fn end_body(&mut self, alloc: Global) -> Result<(), AllocError>
        ensures { OnOk result (EndsBody self.old self.new) }
    {
        self.at.pass_continue(alloc)?;
        let running = self.at.take_running(alloc);
        self.at.pass_break(alloc)?;
        self.passing.join(&self.at)?;
        self.at = Flow::at(alloc, running);
        Ok(())
    }

    /// Begins another turn of a loop, and answers of how many are left: none is, where it would begin only where turns
    /// have begun. It fails for want of memory alone.
    pub fn begin_turn(&mut self, alloc: Global, left: u32) -> Result<u32, AllocError>
        ensures turn { IfOk result (λ n. BeginsTurn left self.old self.new n) }
        ensures fewer { IfOk result (λ n. n ≤ left) }
    {
        let next = self.at.take_running(alloc);
        self.passing.join(&self.at)?;
        let is_known = is_within(&next, &self.starts);
        self.starts.put_all(&next)?;
        let starts = self.starts.copy(alloc)?;
        self.at = Flow::at(alloc, starts);
        if is_known {
            return Ok(0);
        }
        Ok(left)
    }
}
