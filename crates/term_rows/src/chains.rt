//! Chains of connectives.
ghost use Rattle.std.specs.Prelude.{IfOk};
ghost use Rattle.term_bank.specs.Terms.{IsTerm};
ghost use Rattle.term_bank.specs.declared.sort.Sort.TheVariants.{Truth};
ghost use Rattle.bitvectors.specs.Blasts.{HasWidth};

use crate::blasting::blast_nodes;
use crate::solving::{add_all, model_of};
use crate::terms::node_of;
use anyhow::{Result, anyhow};
use bitvectors::Blasted;
use cdcl::Solver;
use cnf_core::Assignment;
use plain_data::Width;
use std::alloc::Global;
use std::mem::drop;
use term_bank::{Bank, Connective, Node, Sort, WordTest};

/// Whether the world's word at a place is 0 in its low byte.
fn truth_of_place(bank: &mut Bank, place: u64) -> Result<Node> {
    let place = bank.word(place, Width::W64)?;
    let word = bank.world_word(Width::W8, place)?;
    let zero = bank.word(0, Width::W8)?;
    let word = node_of(bank, word.index, Sort::Word(Width::W8))?;
    Ok(bank.test(WordTest::Equal, Width::W8, word, zero)?)
}

/// Two nodes of truths joined by a connective.
fn joined(bank: &mut Bank, connective: Connective, left: u32, right: u32) -> Result<u32> {
    let left = node_of(bank, left, Sort::Truth)?;
    let right = node_of(bank, right, Sort::Truth)?;
    Ok(bank.connect(connective, left, right)?.index)
}

/// The connective of a step.
fn connective_of(step: u32) -> Connective {
    if step % 2 == 0 {
        Connective::And
    } else {
        Connective::Or
    }
}

/// A chain of so many connectives: what was made so far joined with the truth of one place, then of the other.
fn chain_of(bank: &mut Bank, count: u32) -> Result<u32> {
    let even = truth_of_place(bank, 0)?.index;
    let odd = truth_of_place(bank, 1)?.index;
    let mut number = odd;
    for step in 0..count {
        let other = if step % 2 == 0 { even } else { odd };
        number = joined(bank, connective_of(step), number, other)?;
    }
    Ok(number)
}

/// The clauses of a chain over a bank.
fn blast_chain_over(alloc: Global, bank: &mut Bank, count: u32) -> Result<Blasted>
    ensures words { IfOk result (λ b. HasWidth 64 b.inputs.words) }
    ensures bytes { IfOk result (λ b. HasWidth 8 b.inputs.bytes) }
{
    let root = chain_of(bank, count)?;
    blast_nodes(alloc, bank, &[root])
}

/// The clauses of a chain.
fn blast_chain(alloc: Global, count: u32) -> Result<Blasted>
    ensures words { IfOk result (λ b. HasWidth 64 b.inputs.words) }
    ensures bytes { IfOk result (λ b. HasWidth 8 b.inputs.bytes) }
{
    let mut bank = Bank::new(alloc);
    let blasted = blast_chain_over(alloc, &mut bank, count);
    drop(bank);
    blasted
}

/// How many clauses there are, and how many words the world of a model has.
fn count_words(
    alloc: Global,
    blasted: &Blasted,
    clauses: usize,
    values: &Assignment,
) -> Result<String>
    requires words { HasWidth 64 blasted.now.inputs.words }
    requires bytes { HasWidth 8 blasted.now.inputs.bytes }
{
    let world = blasted.decode(alloc, values)?;
    let words = world.words().count();
    drop(world);
    Ok(format!(in alloc; "{clauses} {words}\n")?)
}

/// The answer of a chain's clauses, by a solver that has none yet.
fn answer_solved(alloc: Global, blasted: &Blasted, solver: &mut Solver) -> Result<String>
    requires words { HasWidth 64 blasted.now.inputs.words }
    requires bytes { HasWidth 8 blasted.now.inputs.bytes }
{
    let clauses = blasted.formula.len();
    add_all(alloc, solver, &blasted.formula)?;
    match model_of(alloc, &blasted.formula, solver)? {
        Some(values) => {
            let counted = count_words(alloc, blasted, clauses, &values);
            drop(values);
            counted
        }
        None => Err(anyhow!("no model")),
    }
}

/// The answer to a chain: how many clauses it takes, and how many words the world of a model has.
pub fn answer_chain(alloc: Global, count: u32) -> Result<String> {
    let blasted = blast_chain(alloc, count)?;
    let mut solver = Solver::new(alloc);
    let answer = answer_solved(alloc, &blasted, &mut solver);
    solver.discard();
    drop(blasted);
    answer
}
