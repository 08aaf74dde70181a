ghost use Rattle.std.specs.Prelude.{◌≡◌, IfOk};
ghost use Rattle.term_bank.specs.Terms.{IsTerm};
ghost use Rattle.term_bank.specs.declared.sort.Sort.TheVariants.{Truth};
ghost use Rattle.path_states.specs.States.{IsState, AreStates};
ghost use Rattle.path_steps.specs.Exits.{IsMaybeExit, Leaves, Settles, exit_at};

use c_means::Kind;
use path_numbers::Fault;
use path_states::{State, StateKind, Walked, alone, halve};
use plain_data::{Finish, Items};
use std::alloc::Global;
use term_bank::{Bank, BankFault, Node};

/// Where the truth is true the run ends.
#[derive(Clone, Copy, PartialEq, Eq)]
pub struct Exit {
    pub truth: Node,
    pub finish: Finish,
}

/// A fault as an exit at a token.
pub(crate) fn exit_of(at: u32, fault: Option<Fault>) -> Option<Exit>
    ensures { result ≡ exit_at at fault }
{
    match fault {
        None => None,
        Some(Fault { truth, kind }) => Some(Exit {
            truth,
            finish: Finish::Stopped { kind, at },
        }),
    }
}

/// The state that has left by an exit comes to those that have ended; the answer is the guard of the run that stays.
fn leave(
    alloc: Global,
    bank: &mut Bank,
    state: &State,
    guard: Node,
    exit: Option<Exit>,
    ended: &mut Items<State>,
) -> Result<Node, BankFault>
    requires state { IsState bank.old state.now }
    requires guard { IsTerm bank.old Truth guard }
    requires exit { IsMaybeExit bank.old exit }
    requires ended { AreStates bank.old ended.old }
    ensures { IfOk result (λ g. Leaves bank.old bank.new state.now guard g exit ended.old ended.new) }
{
    let Some(exit) = exit else {
        return Ok(guard);
    };
    let sides = halve(bank, guard, exit.truth)?;
    let mut left = state.copy(alloc)?;
    left.guard = sides.yes;
    left.kind = StateKind::Known(Kind::Ended(exit.finish));
    left.operands = Items::new(alloc);
    ended.push(left)?;
    Ok(sides.no)
}

/// A state of which the run may end by one of two exits, the first of them first, and else goes on as the next state
/// says. It fails for want of memory alone.
pub fn settle(
    alloc: Global,
    bank: &mut Bank,
    state: &State,
    next: State,
    first: Option<Exit>,
    second: Option<Exit>,
) -> Result<Walked, BankFault>
    requires state { IsState bank.old state.now }
    requires next { IsState bank.old next }
    requires first { IsMaybeExit bank.old first }
    requires second { IsMaybeExit bank.old second }
    ensures { IfOk result (λ w. Settles bank.old bank.new state.now next first second w) }
{
    let mut ended = Items::new(alloc);
    let within = leave(alloc, bank, state, state.guard, first, &mut ended)?;
    let guard = leave(alloc, bank, state, within, second, &mut ended)?;
    let mut next = next;
    next.guard = guard;
    let going = alone(alloc, next)?;
    Ok(Walked { going, ended })
}
