//! Runs that are running, and those on their way.
ghost use Rattle.std.specs.Prelude.{◌≡◌, ◌++◌, ℕ, List, true, false, IfOk, OnOk};
ghost use Rattle.core_tree.specs.States.{where_running};
ghost use Rattle.term_bank.specs.declared.shape.Shape.{Shape as ShapeType};
ghost use Rattle.path_states.specs.States.{AreStates};
ghost use Rattle.path_states.specs.Ways.{Goes, stay};
ghost use Rattle.path_arrows.specs.Arrows.{is_running as runs, sorted, Sifts};

use c_means::Kind;
use path_states::{State, StateKind, join};
use plain_data::Items;
use std::alloc::{AllocError, Global};
use term_bank::{Bank, BankFault};

/// The states whose runs are running, and the others, which have no operands.
#[derive(Drop)]
pub struct Sifted {
    pub running: Items<State>,
    pub others: Items<State>,
}

fn runs_on(kind: &Kind) -> bool
    ensures { result ≡ where_running kind.now true false }
{
    match kind {
        Kind::Running => true,
        Kind::Breaking => false,
        Kind::Continuing => false,
        Kind::Returning => false,
        Kind::Going { .. } => false,
        Kind::Choosing { .. } => false,
        Kind::Defaulting => false,
        Kind::Ended(_) => false,
    }
}

fn is_running(kind: &StateKind) -> bool
    ensures { result ≡ runs kind.now }
{
    match kind {
        StateKind::Known(known) => runs_on(known),
        StateKind::Exited(_) => false,
    }
}

fn sort(alloc: Global, sifted: &mut Sifted, state: State) -> Result<(), AllocError>
    ensures { OnOk result (sifted.new ≡ sorted (runs state.kind) sifted.old state) }
{
    if is_running(&state.kind) {
        sifted.running.push(state)?;
        return Ok(());
    }
    let mut state = state;
    state.operands = Items::new(alloc);
    sifted.others.push(state)?;
    Ok(())
}

/// Which of the states are running. It fails for want of memory alone.
pub fn sift(alloc: Global, states: &[State]) -> Result<Sifted, AllocError>
    ensures { IfOk result (λ x. (a : List ShapeType) → AreStates a states.now → Sifts a states.now x) }
{
    let mut sifted = Sifted {
        running: Items::new(alloc),
        others: Items::new(alloc),
    };
    for state in states {
        let copy = state.copy(alloc)?;
        sort(alloc, &mut sifted, copy)?;
    }
    Ok(sifted)
}

/// Two lists of states as one, those of one kind and position joined. It fails for want of memory alone.
pub fn rejoin(
    alloc: Global,
    bank: &mut Bank,
    first: Items<State>,
    second: Items<State>,
) -> Result<Items<State>, BankFault>
    requires first { AreStates bank.old first }
    requires second { AreStates bank.old second }
    ensures { IfOk result (λ ts. (room : ℕ) → Goes room bank.old bank.new (first ++ second) ts stay) }
{
    let mut all = first;
    all.append(second)?;
    let joined = join(alloc, bank, all.as_slice())?;
    Ok(joined)
}
