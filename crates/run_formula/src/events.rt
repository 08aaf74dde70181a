//! Whether something happened that a question seeks, for each node of events.
ghost use Rattle.std.specs.Prelude.{◌≡◌, ◌↔◌, ℕ, ℤ, List, Some, true, nat_eq, slice_get, IfOk};
ghost use Rattle.std.specs.HashMap.{get};
ghost use Rattle.plain_data.specs.declared.run.Happening.TheVariants as happening;
ghost use Rattle.log_text.specs.Lines.{line_of};
ghost use Rattle.term_bank.specs.Banks.{IsBank};
ghost use Rattle.term_bank.specs.Terms.{IsTerm};
ghost use Rattle.term_bank.specs.declared.sort.Sort.TheVariants.{Truth};
ghost use Rattle.path_states.specs.States.{AreStates};
ghost use Rattle.run_formula.specs.Questions.{IsMeant, IsSought, AllTell, TellsShape, TellsAll, OrMeant};

use crate::questions::Question;
use log_text::LogText;
use path_states::State;
use plain_data::{Fact, Items, Side};
use run_facts::same_side;
use std::alloc::{AllocError, Global};
use std::collections::HashMap;
use term_bank::{Bank, BankFault, Connective, Node, Shape, Sort, nodes_under, set_image};

/// Whether a position is in this line of the log.
pub(crate) fn is_in_line(log: &LogText, line: u32, printed: u64) -> bool
    ensures { (result ≡ true) ↔ (line_of log.now printed ≡ line) }
{
    log.line_of(printed as usize) == line as usize
}

/// Whether a fact speaks of a branch at a token that takes a side behind so many printed bytes.
fn speaks_of_branch(fact: &Fact, log: &LogText, printed: u64, at: u32, side: Side) -> bool
    ensures { (result ≡ true) ↔
        IsMeant log.now fact.now (record { what = happening.Branch at side; printed = printed }) }
{
    match *fact {
        Fact::Branch {
            at: met,
            side: taken,
        } => at == met && same_side(side, taken),
        Fact::BranchIn {
            at: met,
            side: taken,
            line,
        } => at == met && same_side(side, taken) && is_in_line(log, line, printed),
        _ => false,
    }
}

/// Whether a fact speaks of a call at a token behind so many printed bytes.
fn speaks_of_call(fact: &Fact, log: &LogText, printed: u64, at: u32) -> bool
    ensures { (result ≡ true) ↔ IsMeant log.now fact.now (record { what = happening.Call at; printed = printed }) }
{
    match *fact {
        Fact::Call { at: met } => at == met,
        Fact::CallIn { at: met, line } => at == met && is_in_line(log, line, printed),
        _ => false,
    }
}

/// Whether a fact speaks of a print at a token behind so many printed bytes.
fn speaks_of_print(fact: &Fact, log: &LogText, printed: u64, at: u32) -> bool
    ensures { (length : ℕ) (seen : List ℤ) → (result ≡ true) ↔ IsMeant log.now fact.now (record {
      what = happening.Print at length seen;
      printed = printed;
    }) }
{
    match *fact {
        Fact::Print { at: met, line } => at == met && is_in_line(log, line, printed),
        _ => false,
    }
}

/// Whether a branch at a token that takes a side behind so many printed bytes is sought.
fn seeks_branch(question: &Question, log: &LogText, printed: u64, at: u32, side: Side) -> bool
    ensures { (result ≡ true) ↔
        IsSought log.now question.now (record { what = happening.Branch at side; printed = printed }) }
{
    match question {
        Question::Holds(fact) => speaks_of_branch(fact, log, printed, at, side),
        _ => false,
    }
}

/// Whether a call at a token behind so many printed bytes is sought.
fn seeks_call(question: &Question, log: &LogText, printed: u64, at: u32) -> bool
    ensures { (result ≡ true) ↔
        IsSought log.now question.now (record { what = happening.Call at; printed = printed }) }
{
    match question {
        Question::Holds(fact) => speaks_of_call(fact, log, printed, at),
        _ => false,
    }
}

/// Whether a print at a token behind so many printed bytes is sought, whatever it shows.
fn seeks_print(question: &Question, log: &LogText, printed: u64, at: u32) -> bool
    ensures { (length : ℕ) (seen : List ℤ) → (result ≡ true) ↔ IsSought log.now question.now (record {
      what = happening.Print at length seen;
      printed = printed;
    }) }
{
    match question {
        Question::Holds(fact) => speaks_of_print(fact, log, printed, at),
        _ => false,
    }
}

/// The truth that is told of some events. It fails where nothing is told of them.
fn told_of(told: &HashMap<u32, Node>, events: u32) -> Result<Node, BankFault>
    ensures { IfOk result (λ n. get nat_eq told.now events ≡ Some n) }
{
    match told.get(&events) {
        Some(node) => Ok(*node),
        None => Err(BankFault::Memory),
    }
}

/// The truth of what happened before, or that what happens next is meant.
fn or_meant(bank: &mut Bank, before: Node, meant: bool) -> Result<Node, BankFault>
    requires { IsTerm bank.old Truth before }
    ensures { IfOk result (OrMeant bank.old bank.new before meant) }
{
    if meant {
        let always = bank.truth(true)?;
        return Ok(always);
    }
    Ok(before)
}

/// The truth that one of a node's events is sought, by what is told of the nodes below it.
fn tell(
    bank: &mut Bank,
    told: &HashMap<u32, Node>,
    number: u32,
    shape: Shape,
    question: &Question,
    log: &LogText,
) -> Result<Node, BankFault>
    requires told { AllTell bank.old log.now question.now told.now }
    requires stands { slice_get bank.old number ≡ Some shape }
    requires bank { IsBank bank.old }
    ensures { IfOk result (TellsShape bank.old bank.new log.now question.now shape) }
{
    match shape {
        Shape::NoEvents => {
            let never = bank.truth(false)?;
            Ok(never)
        }
        Shape::BranchEvent {
            events,
            printed,
            at,
            side,
        } => {
            let before = told_of(told, events)?;
            let meant = seeks_branch(question, log, printed, at, side);
            let node = or_meant(bank, before, meant)?;
            Ok(node)
        }
        Shape::CallEvent {
            events,
            printed,
            at,
        } => {
            let before = told_of(told, events)?;
            let meant = seeks_call(question, log, printed, at);
            let node = or_meant(bank, before, meant)?;
            Ok(node)
        }
        Shape::PrintEvent {
            events,
            printed,
            at,
            ..
        } => {
            let before = told_of(told, events)?;
            let meant = seeks_print(question, log, printed, at);
            let node = or_meant(bank, before, meant)?;
            Ok(node)
        }
        Shape::EventsBehind { first, second } => {
            let one = told_of(told, first)?;
            let other = told_of(told, second)?;
            let node = bank.connect(Connective::Or, one, other)?;
            Ok(node)
        }
        Shape::Choose {
            condition,
            yes,
            no,
            ..
        } => {
            let first = told_of(told, yes)?;
            let second = told_of(told, no)?;
            let guard = Node {
                index: condition,
                sort: Sort::Truth,
            };
            let node = bank.choose(Sort::Truth, guard, first, second)?;
            Ok(node)
        }
        _ => Err(BankFault::Memory),
    }
}

/// Whether a node is of events.
fn has_events(bank: &Bank, number: u32) -> bool {
    match bank.shape(number) {
        Some(shape) => shape.sort() == Sort::Events,
        None => false,
    }
}

/// The nodes of events under those of states, each behind the nodes below it.
pub(crate) fn events_under(
    alloc: Global,
    bank: &Bank,
    states: &[State],
) -> Result<Items<u32>, AllocError>
    requires { AreStates bank.now states.now }
{
    let mut roots = Items::new(alloc);
    for state in states {
        roots.push(state.events)?;
    }
    let mut under = nodes_under(alloc, bank, roots.as_slice())?;
    let mut numbers = Items::new(alloc);
    'numbers: while let Some(number) = under.pop() {
        if has_events(bank, number) {
            numbers.push(number)?;
        }
    }
    Ok(numbers)
}

/// One more node of events, of which it is told whether one is sought.
fn tell_next(
    bank: &mut Bank,
    told: &mut HashMap<u32, Node>,
    number: u32,
    question: &Question,
    log: &LogText,
) -> Result<(), BankFault>
    requires { AllTell bank.old log.now question.now told.old }
    ensures { IfOk result (λ _. TellsAll bank.old bank.new log.now question.now told.new) }
{
    if let Some(shape) = bank.shape(number) {
        let node = tell(bank, told, number, shape, question, log)?;
        set_image(told, number, node)?;
        return Ok(());
    }
    Err(BankFault::Memory)
}

/// The truth, of each of these nodes of events, that one of its events is sought. Each node stands behind those below
/// it. It fails for want of memory alone.
pub(crate) fn tell_all(
    alloc: Global,
    bank: &mut Bank,
    numbers: &[u32],
    question: &Question,
    log: &LogText,
) -> Result<HashMap<u32, Node>, BankFault>
    ensures { IfOk result (TellsAll bank.old bank.new log.now question.now) }
{
    let mut told = HashMap::new(alloc);
    for number in numbers {
        tell_next(bank, &mut told, *number, question, log)?;
    }
    Ok(told)
}

/// The truth that one of a state's events is sought. It fails for want of memory alone.
pub(crate) fn any_event(told: &HashMap<u32, Node>, events: Node) -> Result<Node, BankFault>
    ensures { IfOk result (λ n. get nat_eq told.now events.index ≡ Some n) }
{
    let node = told_of(told, events.index)?;
    Ok(node)
}
