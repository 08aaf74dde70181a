//! Calls that no summary answers.
ghost use Rattle.std.specs.Prelude.{◌≡◌, ◌∷◌, [], ℕ, List, None, Some, IfOk};
ghost use Rattle.core_tree.specs.declared.expr.Callee.TheVariants as c;
ghost use Rattle.term_bank.specs.Values.{Environment as EnvironmentType};
ghost use Rattle.path_states.specs.States.{IsState};
ghost use Rattle.path_states.specs.Ways.{Tries};
ghost use Rattle.path_forms.specs.declared.frame.Placed.{Placed as PlacedType};
ghost use Rattle.path_forms.specs.Around.{Around as Surroundings};
ghost use Rattle.path_forms.specs.Calling.{call_way};

use c_means::Kind;
use path_calls::begin;
use path_forms::{CallSite, WalkFault};
use path_states::{State, StateKind, Walked, alone, settled};
use plain_data::{Finish, Items};
use std::alloc::Global;
use term_bank::Bank;

/// A call where no level of depth is left: the run leaves the bounds there. It fails for want of memory alone.
pub(crate) fn beyond(
    alloc: Global,
    bank: &mut Bank,
    site: CallSite,
    state: &State,
) -> Result<Walked, WalkFault>
    requires { IsState bank.old state.now }
    ensures { IfOk result (λ w. (x : Surroundings) (frame : List PlacedType) (room f : ℕ) → ((e : EnvironmentType) →
        x.calls e ≡ None)
        → Tries room bank.old bank.new state.now w (call_way x frame (c.Body f) site)) }
{
    let mut now = state.copy(alloc)?;
    let arguments = begin(alloc, bank, site, &mut now)?;
    let _ = arguments;
    now.kind = StateKind::Known(Kind::Ended(Finish::Left { at: site.at }));
    now.operands = Items::new(alloc);
    let ended = alone(alloc, now)?;
    Ok(Walked {
        going: Items::new(alloc),
        ended,
    })
}

/// A call that no run makes: no state stands behind it.
pub(crate) fn never(alloc: Global) -> Walked
    ensures { result ≡ record { going = []; ended = [] } }
{
    settled(alloc)
}
