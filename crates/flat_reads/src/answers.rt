ghost use Rattle.std.specs.Prelude.{◌≡◌, ◌∷◌, ◌++◌, ◌⊎◌, [], IfOk, OnOk, IfSome, Some};
ghost use Rattle.term_bank.specs.Banks.{IsBank};
ghost use Rattle.term_bank.specs.Values.{Grows};
ghost use Rattle.flat_reads.specs.declared.answers.Task.TheVariants.{Ask, Make};
ghost use Rattle.flat_reads.specs.Choices.{IsChoice};
ghost use Rattle.flat_reads.specs.Answers.{AreAnswers, IsAnswer, IsAnswered, IsAskable, PutsAnswer};
ghost use Rattle.flat_reads.specs.Answers.{IsReady, IsSettled, Goes, Made, Opens, answer_in, asks, found_in};

use crate::choices::{Choice, Found, choice_of};
use plain_data::Items;
use std::alloc::{AllocError, Global};
use std::collections::HashMap;
use term_bank::{Bank, BankFault, Node, Shape};

/// What is to be done for a question.
#[derive(Clone, Copy, PartialEq, Eq)]
pub enum Task {
    /// To find what it leads to.
    Ask(Shape),
    /// To make its node, once what it leads to is answered.
    Make(Shape, Choice),
}

/// Lets a node be a question's answer.
fn set_answer(
    answers: &mut HashMap<Shape, Node>,
    question: Shape,
    node: Node,
) -> Result<(), AllocError>
    ensures { OnOk result (PutsAnswer answers.old answers.new question node) }
{
    answers.insert(question, node)?;
    Ok(())
}

/// The answer of a question, where there is one.
fn known_answer(answers: &HashMap<Shape, Node>, question: Shape) -> Option<Node>
    ensures { result ≡ answer_in answers.now question }
{
    answers.get(&question).copied()
}

/// Asks for what was found, if it is a question.
fn push_found(tasks: &mut Items<Task>, found: Found) -> Result<(), AllocError>
    ensures { OnOk result (tasks.new ≡ tasks.old ++ asks found) }
{
    match found {
        Found::Known(_) => Ok(()),
        Found::Asked(question) => tasks.push(Task::Ask(question)),
    }
}

/// The node of what was found, where it is known.
fn found_node(answers: &HashMap<Shape, Node>, found: Found) -> Option<Node>
    ensures { result ≡ found_in answers.now found }
{
    match found {
        Found::Known(node) => Some(node),
        Found::Asked(question) => known_answer(answers, question),
    }
}

/// Asks a question, unless it is answered.
fn ask(
    bank: &mut Bank,
    answers: &HashMap<Shape, Node>,
    tasks: &mut Items<Task>,
    question: Shape,
) -> Result<(), BankFault>
    requires bank { IsBank bank.old }
    requires askable { IsAskable bank.old question }
    ensures opens { OnOk result ((IsAnswered answers.now question × (tasks.new ≡ tasks.old))
        ⊎ Opens bank.new question tasks.old tasks.new) }
    ensures grows { Grows bank.old bank.new }
    ensures bank { IsBank bank.new }
{
    if let Some(_) = known_answer(answers, question) {
        return Ok(());
    }
    let choice = choice_of(bank, question)?;
    tasks.push(Task::Make(question, choice))?;
    push_found(tasks, choice.yes)?;
    push_found(tasks, choice.no)?;
    Ok(())
}

/// Makes the answer of a question from what it led to.
fn make(
    bank: &mut Bank,
    answers: &mut HashMap<Shape, Node>,
    question: Shape,
    choice: Choice,
) -> Result<(), BankFault>
    requires bank { IsBank bank.old }
    requires answers { AreAnswers bank.old answers.old }
    requires choice { IsChoice bank.old question choice }
    requires yes { IsSettled answers.old [] choice.yes }
    requires no { IsSettled answers.old [] choice.no }
    ensures made { OnOk result (Made bank.new answers.old answers.new question) }
    ensures grows { Grows bank.old bank.new }
    ensures bank { IsBank bank.new }
{
    let Some(yes) = found_node(answers, choice.yes) else {
        return Ok(());
    };
    let Some(no) = found_node(answers, choice.no) else {
        return Ok(());
    };
    if yes.index == no.index {
        set_answer(answers, question, yes)?;
        return Ok(());
    }
    let node = bank.add(Shape::Choose {
        sort: question.sort(),
        condition: choice.condition.index,
        yes: yes.index,
        no: no.index,
    })?;
    set_answer(answers, question, node)?;
    Ok(())
}

/// Does the next task.
fn perform(
    bank: &mut Bank,
    answers: &mut HashMap<Shape, Node>,
    tasks: &mut Items<Task>,
    task: Task,
) -> Result<(), BankFault>
    requires bank { IsBank bank.old }
    requires ready { IsReady bank.old answers.old (tasks.old ++ task ∷ []) }
    ensures goes { OnOk result (Goes bank.new answers.old answers.new (tasks.old ++ task ∷ []) tasks.new) }
    ensures grows { Grows bank.old bank.new }
    ensures bank { IsBank bank.new }
{
    match task {
        Task::Ask(question) => ask(bank, answers, tasks, question),
        Task::Make(question, choice) => make(bank, answers, question, choice),
    }
}

/// The answer of a question. Each question is answered once: those that it leads to come before it, in a list of tasks.
pub(crate) fn answer(
    alloc: Global,
    bank: &mut Bank,
    answers: &mut HashMap<Shape, Node>,
    question: Shape,
) -> Result<Node, BankFault>
    requires bank { IsBank bank.old }
    requires answers { AreAnswers bank.old answers.old }
    requires askable { IsAskable bank.old question }
    ensures answers { OnOk result (AreAnswers bank.new answers.new) }
    ensures node { IfOk result (IsAnswer bank.new question) }
    ensures grows { Grows bank.old bank.new }
    ensures bank { IsBank bank.new }
{
    let mut tasks = Items::new(alloc);
    tasks.push(Task::Ask(question))?;
    'tasks: while let Some(task) = tasks.pop() {
        perform(bank, answers, &mut tasks, task)?;
    }
    match known_answer(answers, question) {
        Some(node) => Ok(node),
        None => bank.add(question),
    }
}
