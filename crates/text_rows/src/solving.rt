//! Questions about a formula, answered by the solver. An answer whose evidence doesn't hold ends the program with an
//! error.
use crate::formulas;
use anyhow::{Result, anyhow, ensure};
use cdcl::{Answer, Chooser, LeastOpen, MostMarked, Solver};
use cnf_core::{Assignment, Clause, Formula, Lit, satisfies};
use proof_check::{Checker, Refutation, StepFault, Steps, Trail};
use std::alloc::Global;
use std::str::Lines;

/// What a question comes to, with the number of steps.
#[derive(Clone, Copy)]
enum Verdict {
    Sat,
    Unsat(usize),
    Spent(usize),
}

/// The formula with these literals as unit clauses last.
fn with_units(alloc: Global, formula: &Formula, units: &[Lit]) -> Result<Formula> {
    let mut whole = Formula::new(alloc);
    for index in 0..formula.len() {
        whole.push(formula.clause(index))?;
    }
    for unit in units {
        whole.push(&[*unit])?;
    }
    Ok(whole)
}

/// Values that are a model of the formula.
fn as_model(formula: &Formula, values: Assignment) -> Result<Verdict> {
    if satisfies(formula, &values) {
        Ok(Verdict::Sat)
    } else {
        Err(anyhow!("no model"))
    }
}

/// A refutation that the checker accepts.
fn as_refuted(alloc: Global, formula: &Formula, refutation: Refutation) -> Result<Verdict> {
    let mut checker = Checker::with_room(alloc, formula, &refutation)?;
    checker.check(formula, &refutation)?;
    Ok(Verdict::Unsat(refutation.steps().len()))
}

/// The steps of a trail behind those that were kept before.
fn all_steps(kept: Steps, steps: &Steps) -> Result<Refutation> {
    let mut whole = kept;
    for index in 0..steps.len() {
        whole.push(steps.step(index))?;
    }
    Ok(Refutation::from_steps(whole))
}

/// Fails where a step isn't valid, or the last one ends the refutation.
fn examine_steps(alloc: Global, formula: &Formula, whole: &Refutation) -> Result<()> {
    let mut checker = Checker::with_room(alloc, formula, whole)?;
    match checker.check(formula, whole) {
        Err(StepFault::NoEmptyClause) => Ok(()),
        _ => Err(anyhow!("no trail")),
    }
}

/// Whether no two steps have the same clause.
fn are_different(steps: &Steps) -> bool {
    for index in 0..steps.len() {
        for earlier in 0..index {
            if steps.step(earlier).clause == steps.step(index).clause {
                return false;
            }
        }
    }
    true
}

/// A trail over the formula, whose steps are valid behind those that were kept before, and are different where that is
/// `strict`.
fn as_spent(alloc: Global, formula: &Formula, trail: Trail, strict: bool) -> Result<Verdict> {
    let Trail { kept, steps } = trail;
    let count = steps.len();
    let differ = !strict || are_different(&steps);
    let whole = all_steps(kept, &steps)?;
    examine_steps(alloc, formula, &whole)?;
    if differ {
        Ok(Verdict::Spent(count))
    } else {
        Err(anyhow!("a clause is learnt twice"))
    }
}

/// The verdict of an answer whose evidence holds; `whole` is the formula with the assumptions as unit clauses last.
fn examined(
    alloc: Global,
    formula: &Formula,
    whole: &Formula,
    answer: Answer,
    strict: bool,
) -> Result<Verdict> {
    match answer {
        Answer::Sat(values) => as_model(whole, values),
        Answer::Unsat(refutation) => as_refuted(alloc, whole, refutation),
        Answer::Spent(trail) => as_spent(alloc, formula, trail, strict),
    }
}

/// How many conflicts a question may have, and what it assumes.
#[derive(Drop)]
struct Question {
    conflicts: u32,
    assume: Vec<Lit>,
    /// Whether no two steps of a trail may have the same clause.
    strict: bool,
}

/// What holds of a question whose line doesn't say it.
#[derive(Clone, Copy)]
struct Usual {
    conflicts: u32,
    strict: bool,
}

/// The question of a line: `LITERAL .. 0`, with the usual number of conflicts, or `ask CONFLICTS LITERAL .. 0`.
fn read_question(alloc: Global, line: &str, usual: Usual) -> Result<Question> {
    let (conflicts, assume) = match line.strip_prefix("ask ") {
        Some(rest) => {
            let (count, assume) = rest.split_once(' ').ok_or(anyhow!("no question"))?;
            (count.parse::<u32>()?, assume)
        }
        None => (usual.conflicts, line),
    };
    Ok(Question {
        conflicts,
        assume: formulas::literals(alloc, assume)?,
        strict: usual.strict,
    })
}

/// The questions on lines, or one that assumes nothing where there are none.
fn read_questions(alloc: Global, lines: Lines<'_>, usual: Usual) -> Result<Vec<Question>> {
    let mut questions = Vec::new(alloc);
    for line in lines {
        questions.push(read_question(alloc, line, usual)?)?;
    }
    if questions.is_empty() {
        questions.push(read_question(alloc, "0", usual)?)?;
    }
    Ok(questions)
}

/// Adds the clauses of a formula to a solver.
fn add_all(alloc: Global, solver: &mut Solver, formula: &Formula) -> Result<()> {
    for index in 0..formula.len() {
        solver.add(Clause::from_vec(formula.clause(index).to_vec(alloc)?))?;
    }
    Ok(())
}

fn asked<C: Chooser>(
    alloc: Global,
    solver: &mut Solver,
    chooser: &C,
    formula: &Formula,
    question: &Question,
) -> Result<Verdict> {
    let whole = with_units(alloc, formula, &question.assume)?;
    let answer = solver.solve(alloc, chooser, &question.assume, question.conflicts)?;
    examined(alloc, formula, &whole, answer, question.strict)
}

/// The answers to all questions about a formula, in order, of a solver that has no clause yet.
fn ask_all<C: Chooser>(
    alloc: Global,
    solver: &mut Solver,
    chooser: &C,
    formula: &Formula,
    questions: &[Question],
) -> Result<Vec<Verdict>> {
    add_all(alloc, solver, formula)?;
    let mut verdicts = Vec::new(alloc);
    for question in questions {
        verdicts.push(asked(alloc, solver, chooser, formula, question)?)?;
    }
    Ok(verdicts)
}

/// The answers of one solver to all questions about a formula.
fn examine_all<C: Chooser>(
    alloc: Global,
    chooser: &C,
    formula: &Formula,
    questions: &[Question],
) -> Result<Vec<Verdict>> {
    let mut solver = Solver::new(alloc);
    let verdicts = ask_all(alloc, &mut solver, chooser, formula, questions);
    solver.discard();
    verdicts
}

/// The answers to the questions of lines about a formula.
fn verdicts_on<C: Chooser>(
    alloc: Global,
    chooser: &C,
    formula: &Formula,
    lines: Lines<'_>,
    usual: Usual,
) -> Result<Vec<Verdict>> {
    let questions = read_questions(alloc, lines, usual)?;
    examine_all(alloc, chooser, formula, &questions)
}

/// The answers to a text's questions about its formula.
fn verdicts_of<C: Chooser>(
    alloc: Global,
    chooser: &C,
    text: &str,
    usual: Usual,
) -> Result<Vec<Verdict>> {
    let (formula, rest) = formulas::read_formula(alloc, text)?;
    verdicts_on(alloc, chooser, &formula, rest, usual)
}

/// Prints the answers of one solver to all questions, in order: `sat`, or `unsat` or `spent` with the number of steps.
pub fn solve<C: Chooser>(
    rt: &impl Print,
    alloc: Global,
    chooser: &C,
    text: &str,
    conflicts: u32,
) -> Result<()> {
    let usual = Usual {
        conflicts,
        strict: false,
    };
    for verdict in &verdicts_of(alloc, chooser, text, usual)? {
        match *verdict {
            Verdict::Sat => println!(rt; "sat")?,
            Verdict::Unsat(steps) => println!(rt; "unsat {steps}")?,
            Verdict::Spent(steps) => println!(rt; "spent {steps}")?,
        }
    }
    Ok(())
}

/// Puts a row's answer at the end: `sat`, `unsat`, or `spent` with the number of steps.
fn put_verdict(out: &mut String, verdict: Verdict) -> Result<()> {
    match verdict {
        Verdict::Sat => out.push_str("sat\n")?,
        Verdict::Unsat(_) => out.push_str("unsat\n")?,
        Verdict::Spent(steps) => writeln!(out, "spent {steps}")?,
    }
    Ok(())
}

/// The answers to a table's row, where what is decided is the chooser's. No two steps of a trail may have the same
/// clause.
fn answer_by<C: Chooser>(alloc: Global, chooser: &C, row: &str) -> Result<String> {
    let usual = Usual {
        conflicts: 0,
        strict: true,
    };
    let verdicts = verdicts_of(alloc, chooser, row, usual)?;
    let mut out = String::new(alloc);
    for verdict in &verdicts {
        put_verdict(&mut out, *verdict)?;
    }
    Ok(out)
}

/// The answers to a table's row, by either chooser.
pub fn answer(alloc: Global, row: &str) -> Result<String> {
    let out = answer_by(alloc, &MostMarked, row)?;
    let least = answer_by(alloc, &LeastOpen, row)?;
    ensure!(
        out == least,
        "another answer where the least open variable is decided"
    );
    Ok(out)
}
