//! Positions at which a run may stand.
ghost use Rattle.std.specs.Prelude.{◌≡◌, ℤ, Option, [], IfOk, OnOk};
ghost use Rattle.c_means.specs.Items.{past_break, past_continue, past_switch, at_label, at_case, at_default};
ghost use Rattle.plain_data.specs.declared.run.Finish.{Finish};
ghost use Rattle.c_means.specs.declared.kind.Kind.TheVariants as k;
ghost use Rattle.c_language.specs.Scopes.{Name};
ghost use Rattle.log_expr.specs.Courses.{jumps};
ghost use Rattle.log_expr.specs.Flows.{Arrives, unchanged, Wider};

use crate::table::Ends;
use positions::Positions;
use std::alloc::{AllocError, Global};

/// Positions at which a run may stand, by where it stands between two steps.
pub struct Flow {
    /// What comes next runs.
    pub running: Positions,
    /// On the way out of the innermost loop or `switch`.
    pub breaking: Positions,
    /// On the way to the end of the innermost loop's body.
    pub continuing: Positions,
    /// On the way out of the function.
    pub returning: Positions,
    /// On the way to a label.
    pub going: Positions,
    /// On the way to a `case` or `default`.
    pub choosing: Positions,
    /// The run has ended.
    pub ended: Positions,
}

/// By hand, so that a call stands in place of all its parts wherever a value is let go.
impl Drop for Flow {
    fn drop(self) {
        let Flow {
            running,
            breaking,
            continuing,
            returning,
            going,
            choosing,
            ended,
        } = self;
    }
}

impl Flow {
    /// Where a run stands that is running.
    pub fn at(alloc: Global, running: Positions) -> Flow
        ensures running { result.running ≡ running }
        ensures breaking { result.breaking ≡ [] }
        ensures continuing { result.continuing ≡ [] }
        ensures returning { result.returning ≡ [] }
        ensures going { result.going ≡ [] }
        ensures choosing { result.choosing ≡ [] }
        ensures ended { result.ended ≡ [] }
    {
        Flow {
            running,
            breaking: Positions::new(alloc),
            continuing: Positions::new(alloc),
            returning: Positions::new(alloc),
            going: Positions::new(alloc),
            choosing: Positions::new(alloc),
            ended: Positions::new(alloc),
        }
    }

    /// The ends of a function of which this is where its body leads: runs that are running come back.
    pub fn into_ends(self) -> Ends
        ensures { result ≡ record { back = self.running; ended = self.ended } }
    {
        let Flow {
            running,
            breaking,
            continuing,
            returning,
            going,
            choosing,
            ended,
        } = self;
        Ends {
            back: running,
            ended,
        }
    }

    /// Takes out where a run stands that is running.
    pub fn take_running(&mut self, alloc: Global) -> Positions
        ensures taken { result ≡ self.old.running }
        ensures left { self.new ≡ record self.old { running = [] } }
    {
        std::mem::replace(&mut self.running, Positions::new(alloc))
    }

    /// Puts all positions of another in. It fails for want of memory alone.
    pub fn join(&mut self, more: &Flow) -> Result<(), AllocError>
        ensures old { OnOk result (Arrives unchanged self.old self.new) }
        ensures more { OnOk result (Arrives unchanged more.now self.new) }
    {
        self.running.put_all(&more.running)?;
        self.breaking.put_all(&more.breaking)?;
        self.continuing.put_all(&more.continuing)?;
        self.returning.put_all(&more.returning)?;
        self.going.put_all(&more.going)?;
        self.choosing.put_all(&more.choosing)?;
        self.ended.put_all(&more.ended)?;
        Ok(())
    }

    /// Behind a loop (C99 6.8.6.3p2).
    pub fn pass_break(&mut self, alloc: Global) -> Result<(), AllocError>
        ensures { OnOk result (Arrives past_break self.old self.new) }
    {
        let breaking = std::mem::replace(&mut self.breaking, Positions::new(alloc));
        self.running.put_all(&breaking)?;
        Ok(())
    }

    /// At the end of a loop's body (C99 6.8.6.2p2).
    pub fn pass_continue(&mut self, alloc: Global) -> Result<(), AllocError>
        ensures { OnOk result (Arrives past_continue self.old self.new) }
    {
        let continuing = std::mem::replace(&mut self.continuing, Positions::new(alloc));
        self.running.put_all(&continuing)?;
        Ok(())
    }

    /// Behind a `switch`, no part of which may have run (C99 6.8.4.2p5).
    pub fn pass_switch(&mut self, alloc: Global) -> Result<(), AllocError>
        ensures { OnOk result (Arrives past_switch self.old self.new) }
    {
        let breaking = std::mem::replace(&mut self.breaking, Positions::new(alloc));
        self.running.put_all(&breaking)?;
        self.running.put_all(&self.choosing)?;
        Ok(())
    }

    /// At a label (C99 6.8.6.1p2).
    pub fn pass_label(&mut self) -> Result<(), AllocError>
        ensures { OnOk result ((name : Name) → Arrives (at_label name) self.old self.new) }
    {
        self.running.put_all(&self.going)?;
        Ok(())
    }

    /// Runs that are running break out (C99 6.8.6.3).
    pub fn jump_out(&mut self, alloc: Global) -> Result<(), AllocError>
        ensures { OnOk result (Arrives (jumps k.Breaking) self.old self.new) }
    {
        let running = self.take_running(alloc);
        self.breaking.put_all(&running)?;
        Ok(())
    }

    /// Runs that are running go on at the end of the loop's body (C99 6.8.6.2).
    pub fn jump_on(&mut self, alloc: Global) -> Result<(), AllocError>
        ensures { OnOk result (Arrives (jumps k.Continuing) self.old self.new) }
    {
        let running = self.take_running(alloc);
        self.continuing.put_all(&running)?;
        Ok(())
    }

    /// Runs that are running return (C99 6.8.6.4).
    pub fn jump_back(&mut self, alloc: Global) -> Result<(), AllocError>
        ensures { OnOk result (Arrives (jumps k.Returning) self.old self.new) }
    {
        let running = self.take_running(alloc);
        self.returning.put_all(&running)?;
        Ok(())
    }

    /// Runs that are running go to a label (C99 6.8.6.1).
    pub fn jump_to(&mut self, alloc: Global) -> Result<(), AllocError>
        ensures { OnOk result ((name : Name) → Arrives (jumps (k.Going name)) self.old self.new) }
    {
        let running = self.take_running(alloc);
        self.going.put_all(&running)?;
        Ok(())
    }

    /// Runs that are running end.
    pub fn end(&mut self, alloc: Global) -> Result<(), AllocError>
        ensures { OnOk result ((f : Finish) → Arrives (jumps (k.Ended f)) self.old self.new) }
    {
        let running = self.take_running(alloc);
        self.ended.put_all(&running)?;
        Ok(())
    }

    /// Runs that are running look for a `case` or `default` (C99 6.8.4.2p4).
    pub fn choose(&mut self, alloc: Global) -> Result<(), AllocError>
        ensures { OnOk result (Wider self.old.running self.new.choosing) }
    {
        let running = self.take_running(alloc);
        self.choosing.put_all(&running)?;
        Ok(())
    }

    /// At a `case` or `default` (C99 6.8.4.2).
    pub fn pass_choice(&mut self) -> Result<(), AllocError>
        ensures case { OnOk result ((z : Option ℤ) → Arrives (at_case z) self.old self.new) }
        ensures default { OnOk result (Arrives at_default self.old self.new) }
    {
        self.running.put_all(&self.choosing)?;
        Ok(())
    }
}
