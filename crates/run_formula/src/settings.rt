//! Initializers of what lives throughout the run, in order, before `main` is called (C99 5.1.2, 6.7.8p4).
ghost use Rattle.std.specs.Prelude.{◌≡◌, ◌∷◌, [], ℕ, List, IfOk};
ghost use Rattle.path_states.specs.States.{AreStates};
ghost use Rattle.log_expr.specs.declared.table.Entry.{Entry as EntryType};
ghost use Rattle.log_expr.specs.Tours.{tour_of};
ghost use Rattle.run_formula.specs.Settings.{still_around, Sets, Starts, Readies};

use crate::banks::keeps_bank;
use crate::starts::start_memory;
use c_means::Kind;
use core_tree::{Callee, Core, LastingSetting};
use path_arrows::pass;
use path_codes::Steps;
use path_forms::{CallSite, Calls, Placed, WalkFault};
use path_states::{State, StateKind, Walked, alone};
use plain_data::{Bounds, Items, Width};
use std::alloc::Global;
use summary_compose::put_in;
use term_bank::{Bank, BankFault, Binding};

/// How many places are asked for: those with a number below 2^32.
const ROOM: u64 = 0x1_0000_0000;

/// Where such initializers are evaluated: no function runs there, and none is called.
#[derive(Clone, Copy)]
pub(crate) struct Still<'a> {
    pub(crate) log: &'a [u8],
    pub(crate) bounds: &'a Bounds,
}

impl<'a> Calls for Still<'a> {
    ghost around = { λ s. still_around s.log.now s.bounds.now };

    ghost ready = { λ s b. Unit {0} };

    fn turns(&self) -> u32 {
        self.bounds.turns
    }

    fn room(&self, _function: u32) -> Result<u64, WalkFault> {
        Ok(0)
    }

    fn call(
        &self,
        _alloc: Global,
        _bank: &mut Bank,
        _frame: &[Placed],
        _room: u64,
        _callee: &Callee,
        _site: CallSite,
        _state: &State,
    ) -> Result<Walked, WalkFault> {
        Err(WalkFault::Unwalked)
    }
}

/// One initializer.
fn set_one<'a>(
    alloc: Global,
    still: &Still<'a>,
    one: &LastingSetting,
    bank: &mut Bank,
    states: &[State],
) -> Result<Items<State>, WalkFault>
    requires { AreStates bank.old states.now }
    ensures { IfOk result (Sets (still_around still.now.log.now still.now.bounds.now) 4294967296 (one.now ∷ [])
        bank.old bank.new states.now) }
{
    let steps = Steps {
        alloc,
        scene: still,
        room: ROOM,
        height: 0,
        code: (),
    };
    let frame = Items::new(alloc);
    let coded = steps.set(frame.as_slice(), one.place, &one.setting, 0, bank, states)?;
    Ok(coded.states)
}

/// All initializers, in order.
fn set_all<'a>(
    alloc: Global,
    still: &Still<'a>,
    settings: &[LastingSetting],
    bank: &mut Bank,
    states: &[State],
) -> Result<Items<State>, WalkFault>
    requires { AreStates bank.old states.now }
    ensures { IfOk result (Sets (still_around still.now.log.now still.now.bounds.now) 4294967296 settings.now
        bank.old bank.new states.now) }
{
    let mut set = pass(alloc, states)?;
    for one in settings {
        set = set_one(alloc, still, one, bank, set.as_slice())?;
    }
    Ok(set)
}

/// The state in which a run begins, over the memory that the entry finds. It fails for want of memory alone.
fn begin(alloc: Global, bank: &mut Bank) -> Result<Items<State>, BankFault>
    ensures { IfOk result (λ ss. (log : List ℕ) → Starts log bank.old bank.new ss) }
{
    let guard = bank.truth(true)?;
    let memory = bank.entry()?;
    let events = bank.no_events()?;
    let first = State {
        guard,
        kind: StateKind::Known(Kind::Running),
        value: None,
        position: 0,
        memory,
        events,
        operands: Items::new(alloc),
    };
    let states = alone(alloc, first)?;
    Ok(states)
}

/// The states before `main` is called, as states over the world alone. It fails for want of memory, and where an
/// initializer can't be walked yet.
pub(crate) fn ready(
    alloc: Global,
    core: &Core,
    log: &[u8],
    bounds: &Bounds,
    bank: &mut Bank,
) -> Result<Items<State>, WalkFault>
    ensures { IfOk result (λ ss. (rows : List (List EntryType))
        → Readies (tour_of core.now log.now bounds.now rows) bank.old bank.new ss) }
{
    let first = begin(alloc, bank)?;
    let still = Still { log, bounds };
    let set = set_all(
        alloc,
        &still,
        core.settings.as_slice(),
        bank,
        first.as_slice(),
    )?;
    let memory = start_memory(bank, core.objects.as_slice())?;
    let base = bank.word(0, Width::W64)?;
    keeps_bank(bank);
    let binding = Binding {
        entry: memory,
        parameters: Items::new(alloc),
        base,
    };
    let states = put_in(alloc, bank, set.as_slice(), &binding)?;
    Ok(states)
}
