//! Terms that answer a question in every world at once.
ghost use Rattle.std.specs.Prelude.{◌≡◌, ◌↔◌, ℕ, List, true, IfOk};
ghost use Rattle.term_bank.specs.Values.{Values as ValuesType};
ghost use Rattle.path_states.specs.States.{AreStates, done_in};
ghost use Rattle.run_formula.specs.Questions.{EndsSo, Meets, shown, AllTell, TellsState, TellsStates};
ghost use Rattle.run_formula.specs.declared.questions.Question.TheVariants as question;

use crate::events::{any_event, tell_all};
use crate::questions::{Question, ends_so, finish_of};
use log_text::LogText;
use path_states::State;
use plain_data::Fact;
use run_facts::stays_in;
use std::alloc::Global;
use std::collections::HashMap;
use term_bank::{Bank, BankFault, Connective, Node};

/// Whether a run that stands so is at the log's end, within the bounds.
fn fits(state: &State, log: &LogText) -> bool
    ensures { (v : ValuesType) → (result ≡ true) ↔ Meets log.now question.Fits (done_in v state.now) }
{
    stays_in(finish_of(&state.kind)) && state.position == log.bytes().len()
}

/// Whether a run that stands so left the bounds.
fn leaves(state: &State) -> bool
    ensures { (log : List ℕ) (v : ValuesType) → (result ≡ true) ↔ Meets log question.Left (done_in v state.now) }
{
    !stays_in(finish_of(&state.kind))
}

/// Whether a fact of a run's end holds on one that stands so.
fn ends(state: &State, fact: &Fact) -> bool
    ensures { (log : List ℕ) (v : ValuesType)
        → (result ≡ true) ↔ EndsSo fact.now (shown log (done_in v state.now)).finish }
{
    ends_so(finish_of(&state.kind), fact)
}

/// Whether a fact holds on what a state says of a run.
fn holds_on(
    bank: &mut Bank,
    told: &HashMap<u32, Node>,
    state: &State,
    fact: Fact,
    log: &LogText,
) -> Result<Node, BankFault>
    requires told { AllTell bank.old log.now (question.Holds fact) told.now }
    ensures { IfOk result (TellsState bank.old bank.new log.now (question.Holds fact) state.now) }
{
    let _ = log;
    let seen = any_event(told, state.events)?;
    let ended = bank.truth(ends(state, &fact))?;
    let node = bank.connect(Connective::Or, seen, ended)?;
    Ok(node)
}

/// Whether the answer is yes on what a state says of a run.
fn says(
    bank: &mut Bank,
    told: &HashMap<u32, Node>,
    state: &State,
    question: Question,
    log: &LogText,
) -> Result<Node, BankFault>
    requires told { AllTell bank.old log.now question told.now }
    ensures { IfOk result (TellsState bank.old bank.new log.now question state.now) }
{
    match question {
        Question::Fits => {
            let node = bank.truth(fits(state, log))?;
            Ok(node)
        }
        Question::Left => {
            let node = bank.truth(leaves(state))?;
            Ok(node)
        }
        Question::Holds(fact) => {
            let node = holds_on(bank, told, state, fact, log)?;
            Ok(node)
        }
    }
}

/// The answer on the state that stands, by what is told of events.
fn ask_told(
    bank: &mut Bank,
    told: &HashMap<u32, Node>,
    states: &[State],
    question: Question,
    log: &LogText,
) -> Result<Node, BankFault>
    requires states { AreStates bank.old states.now }
    requires told { AllTell bank.old log.now question told.now }
    ensures { IfOk result (TellsStates bank.old bank.new log.now question states.now) }
{
    let mut any = bank.truth(false)?;
    for state in states {
        let said = says(bank, told, state, question, log)?;
        let here = bank.connect(Connective::And, state.guard, said)?;
        any = bank.connect(Connective::Or, any, here)?;
    }
    Ok(any)
}

/// The answer on the state that stands, in every environment: no where none does. `events` are the nodes of events
/// under the states', each behind those below it. It fails for want of memory alone.
pub(crate) fn ask(
    alloc: Global,
    bank: &mut Bank,
    events: &[u32],
    states: &[State],
    question: Question,
    log: &LogText,
) -> Result<Node, BankFault>
    requires { AreStates bank.old states.now }
    ensures { IfOk result (TellsStates bank.old bank.new log.now question states.now) }
{
    let told = tell_all(alloc, bank, events, &question, log)?;
    let any = ask_told(bank, &told, states, question, log)?;
    Ok(any)
}
