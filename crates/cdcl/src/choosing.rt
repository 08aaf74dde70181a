ghost use Rattle.std.specs.Prelude.{◌≡◌, ◌<◌, ◌≤◌, ◌^◌, None, vec_len, ℕ, IfSome};
ghost use Rattle.cdcl.specs.Known.{known, IsOpen};
ghost use Rattle.cdcl.specs.Ranks.{IsUnset};
ghost use Rattle.cdcl.specs.Trails.{AreOpen};

use crate::assigned::Assigned;
use crate::chooser::Chooser;
use cnf_core::Lit;
use std::alloc::{AllocError, Global};

/// How a variable is decided: with the sign that it had last.
#[derive(Drop)]
pub struct Choice {
    signs: Vec<bool>,
}

impl Choice {
    /// No signs. It takes no memory.
    pub fn new(alloc: Global) -> Choice {
        Choice {
            signs: Vec::new(alloc),
        }
    }

    /// Makes room for variables below `room`.
    pub fn grow(&mut self, room: usize) -> Result<(), AllocError> {
        self.signs.resize(room, false)?;
        Ok(())
    }

    /// Notes the sign of a literal that is taken as true.
    pub fn note(&mut self, literal: Lit) {
        if let Some(sign) = self.signs.get_mut(literal.variable() as usize) {
            *sign = literal.is_positive();
        }
    }

    /// The literal of the variable that the chooser names, where some variable is open.
    pub fn pick<C: Chooser>(&self, chooser: &C, trail: &Assigned) -> Option<Lit>
        requires small { vec_len trail.now.levels ≤ 2 ^ 31 }
        requires open { AreOpen trail.now.scores.unset trail.now.taken.items (vec_len trail.now.levels) }
        ensures open { IfSome result (λ l. (l.variable < vec_len trail.now.levels) × IsOpen (known trail.now.taken.items) l) }
        ensures none { result ≡ None → (v : ℕ) → IsUnset trail.now.scores.unset v → ⊥ }
    {
        let _some = trail.scores.first()?;
        let variable = chooser.pick(&trail.scores);
        let positive = self.signs.get(variable as usize) == Some(&true);
        Some(Lit::new(variable, positive))
    }
}
