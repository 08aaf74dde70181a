//! The formula of a program's runs.
ghost use Rattle.std.specs.Prelude.{◌≡◌, ◌+◌, IfOk};
ghost use Rattle.c_means.specs.Units.{limits_of};
ghost use Rattle.log_expr.specs.Sound.{IsSound};
ghost use Rattle.path_states.specs.States.{AreStates};
ghost use Rattle.path_summaries.specs.Levels.{keys_within};
ghost use Rattle.log_expr.specs.Tours.{tour_of};
ghost use Rattle.run_formula.specs.Questions.{AsksAll};
ghost use Rattle.run_formula.specs.Formula.{AnswersOther, IsFormula, Observes};

use crate::asking::ask;
use crate::events::events_under;
use crate::observing::{Observation, observed, shows_other};
use crate::questions::Question;
use crate::sighting::sightings_of;
use crate::watches::Watch;
use crate::whole::run_states;
use core_tree::Core;
use log_expr::EndTable;
use log_text::LogText;
use path_forms::WalkFault;
use path_states::State;
use plain_data::{Bounds, Fact, Items};
use std::alloc::Global;
use term_bank::{Bank, BankFault, Node};

/// What is said of a program's run in every world, by truths over the world alone.
pub struct RunFormula {
    /// The run fits the log: it prints exactly the log, and stays within the bounds.
    pub fits: Node,
    /// The run leaves the bounds, and what it has printed begins the log.
    pub left: Node,
    /// Of each fact, in order: it holds on the run, where this fits.
    pub facts: Items<Node>,
    /// The variables that are watched, in order.
    pub watches: Items<Watch>,
    /// How the runs end, one of which stands at most.
    pub(crate) states: Items<State>,
    /// The log.
    pub(crate) log: LogText,
}

/// By hand, so that a call stands in place of all its parts wherever a value is let go.
impl Drop for RunFormula {
    fn drop(self) {
        let RunFormula {
            fits,
            left,
            facts,
            watches,
            states,
            log,
        } = self;
    }
}

/// The answers on all facts, in order. It fails for want of memory alone.
fn ask_all(
    alloc: Global,
    bank: &mut Bank,
    events: &[u32],
    states: &[State],
    facts: &[Fact],
    log: &LogText,
) -> Result<Items<Node>, BankFault>
    requires { AreStates bank.old states.now }
    ensures { IfOk result (AsksAll bank.old bank.new log.now states.now facts.now) }
{
    let mut nodes = Items::new(alloc);
    for fact in facts {
        let node = ask(alloc, bank, events, states, Question::Holds(*fact), log)?;
        nodes.push(node)?;
    }
    Ok(nodes)
}

/// The formula of a program's runs along a log, for these facts and watched variables. It counts its walks: one for
/// each key of the table of ends. It fails for want of memory, and where the walk can't do a step yet (`run_states`).
pub fn run_formula(
    alloc: Global,
    core: &Core,
    log: &LogText,
    bounds: &Bounds,
    ends: &EndTable,
    facts: &[Fact],
    watches: &[Watch],
    bank: &mut Bank,
    walks: &mut u64,
) -> Result<RunFormula, WalkFault>
    requires { IsSound core.now log.now (limits_of bounds.now) bounds.now.depth ends.now }
    ensures formula { IfOk result (IsFormula (tour_of core.now log.now bounds.now ends.now) bank.old bank.new
        facts.now) }
    ensures watches { IfOk result (λ formula. formula.watches ≡ watches.now) }
    ensures ends { IfOk result (λ formula. AreStates bank.new formula.states) }
    ensures counted { IfOk result (λ _. walks.new ≡ walks.old + keys_within bounds.now.depth ends.now) }
{
    let states = run_states(alloc, core, log.bytes(), bounds, ends, bank, walks)?;
    let fits = ask(alloc, bank, &[], states.as_slice(), Question::Fits, log)?;
    let left = ask(alloc, bank, &[], states.as_slice(), Question::Left, log)?;
    let events = events_under(alloc, bank, states.as_slice())?;
    let facts = ask_all(
        alloc,
        bank,
        events.as_slice(),
        states.as_slice(),
        facts,
        log,
    )?;
    let watches = Items::from_slice(alloc, watches)?;
    let log = log.duplicate(alloc)?;
    Ok(RunFormula {
        fits,
        left,
        facts,
        watches,
        states,
        log,
    })
}

impl RunFormula {
    /// Whether some print of a watched variable saw another value than this, in every world whose run fits. The bank is
    /// the formula's, or has grown since. It fails for want of memory alone.
    pub fn saw_other(
        &self,
        alloc: Global,
        bank: &mut Bank,
        watch: Watch,
        value: &i128,
    ) -> Result<Node, BankFault>
        requires { AreStates bank.old self.now.states }
        ensures { IfOk result (AnswersOther bank.old bank.new self.now watch value.now) }
    {
        let value = *value;
        // Never so: by the test proofs learn the range of what stands behind a reference.
        if value < i128::MIN || value > i128::MAX {
            return Err(BankFault::Memory);
        }
        let seen = sightings_of(alloc, bank, self.states.as_slice(), &watch, &self.log)?;
        let lists = seen.lists.as_slice();
        let node = shows_other(
            alloc,
            bank,
            lists,
            seen.truths.as_slice(),
            watch.place,
            &value,
        )?;
        Ok(node)
    }

    /// What prints see of a watched variable: in every world whose run fits, some print by its site that begins in its
    /// line sees a number exactly where it is observed with a truth that holds. The bank is the formula's, or has grown
    /// since. It fails for want of memory alone.
    pub fn observe(
        &self,
        alloc: Global,
        bank: &mut Bank,
        watch: Watch,
    ) -> Result<Items<Observation>, BankFault>
        requires { AreStates bank.old self.now.states }
        ensures { IfOk result (Observes bank.old bank.new self.now watch) }
    {
        let seen = sightings_of(alloc, bank, self.states.as_slice(), &watch, &self.log)?;
        let lists = seen.lists.as_slice();
        let all = observed(alloc, bank, lists, seen.truths.as_slice(), watch.place)?;
        Ok(all)
    }
}
