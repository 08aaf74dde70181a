//! Terms that rows write.
ghost use Rattle.std.specs.Prelude.{IfOk};
ghost use Rattle.term_bank.specs.Terms.{IsTerm};

use crate::names::{Form, form_named, width_of};
use anyhow::{Result, anyhow};
use mem_terms::{initial, read};
use plain_data::{Width, wrap};
use std::alloc::Global;
use std::mem::drop;
use std::str::SplitWhitespace;
use term_bank::{Bank, Connective, Extension, Node, Sort, WordOperator, WordTest};

/// A value that a node is to have; a truth has 1 or 0.
#[derive(Clone, Copy)]
pub struct Wish {
    /// The node's number in the bank.
    pub number: u32,
    pub value: u64,
}

/// The terms of a row.
#[derive(Drop)]
pub struct Terms {
    pub bank: Bank,
    /// The number in the bank of what each statement makes, in order.
    numbers: Vec<u32>,
    /// What nodes are to be: `is STATEMENT VALUE`.
    pub wishes: Vec<Wish>,
}

/// The operand at an index, 0 where there is none.
fn operand(operands: &[u64], index: usize) -> u64 {
    operands.get(index).copied().unwrap_or(0)
}

/// The width that an operand says.
fn width_at(operands: &[u64], index: usize) -> Result<Width> {
    width_of(operand(operands, index)).ok_or(anyhow!("no width"))
}

/// The number in the bank of what a statement makes.
fn number_at(numbers: &[u32], operands: &[u64], index: usize) -> Result<u32> {
    let statement = operand(operands, index) as usize;
    numbers
        .get(statement)
        .copied()
        .ok_or(anyhow!("no such statement"))
}

/// The node of a number, which must be of a sort.
pub fn node_of(bank: &Bank, number: u32, sort: Sort) -> Result<Node>
    ensures { IfOk result (IsTerm bank.now sort) }
{
    match bank.shape(number) {
        Some(shape) if shape.sort() == sort => Ok(Node {
            index: number,
            sort,
        }),
        _ => Err(anyhow!("no node of the sort")),
    }
}

/// The node of the statement that an operand names, which must be of a sort.
fn node_at(bank: &Bank, numbers: &[u32], operands: &[u64], index: usize, sort: Sort) -> Result<Node>
    ensures { IfOk result (IsTerm bank.now sort) }
{
    let number = number_at(numbers, operands, index)?;
    node_of(bank, number, sort)
}

fn make_constant(bank: &mut Bank, operands: &[u64]) -> Result<Node> {
    let width = width_at(operands, 0)?;
    let value = wrap(i128::from(operand(operands, 1)), width);
    Ok(bank.word(value, width)?)
}

fn make_world_word(bank: &mut Bank, numbers: &[u32], operands: &[u64]) -> Result<Node> {
    let width = width_at(operands, 0)?;
    let place = node_at(bank, numbers, operands, 1, Sort::Word(Width::W64))?;
    Ok(bank.world_word(width, place)?)
}

fn make_initial_word(bank: &mut Bank, numbers: &[u32], operands: &[u64]) -> Result<Node> {
    let width = width_at(operands, 0)?;
    let memory = initial(bank)?;
    let address = node_at(bank, numbers, operands, 1, Sort::Word(Width::W64))?;
    Ok(read(bank, memory, address, width)?)
}

fn make_binary(
    bank: &mut Bank,
    operator: WordOperator,
    numbers: &[u32],
    operands: &[u64],
) -> Result<Node> {
    let width = width_at(operands, 0)?;
    let left = node_at(bank, numbers, operands, 1, Sort::Word(width))?;
    let right = node_at(bank, numbers, operands, 2, Sort::Word(width))?;
    Ok(bank.binary(operator, width, left, right)?)
}

fn make_test(bank: &mut Bank, test: WordTest, numbers: &[u32], operands: &[u64]) -> Result<Node> {
    let width = width_at(operands, 0)?;
    let left = node_at(bank, numbers, operands, 1, Sort::Word(width))?;
    let right = node_at(bank, numbers, operands, 2, Sort::Word(width))?;
    Ok(bank.test(test, width, left, right)?)
}

fn make_converted(
    bank: &mut Bank,
    extension: Extension,
    numbers: &[u32],
    operands: &[u64],
) -> Result<Node> {
    let from = width_at(operands, 0)?;
    let to = width_at(operands, 1)?;
    let word = node_at(bank, numbers, operands, 2, Sort::Word(from))?;
    Ok(bank.convert(extension, from, to, word)?)
}

fn make_not(bank: &mut Bank, numbers: &[u32], operands: &[u64]) -> Result<Node> {
    let truth = node_at(bank, numbers, operands, 0, Sort::Truth)?;
    Ok(bank.not(truth)?)
}

fn make_connected(
    bank: &mut Bank,
    connective: Connective,
    numbers: &[u32],
    operands: &[u64],
) -> Result<Node> {
    let left = node_at(bank, numbers, operands, 0, Sort::Truth)?;
    let right = node_at(bank, numbers, operands, 1, Sort::Truth)?;
    Ok(bank.connect(connective, left, right)?)
}

/// The sort of a node.
fn sort_of(bank: &Bank, number: u32) -> Sort {
    match bank.shape(number) {
        Some(shape) => shape.sort(),
        None => Sort::Truth,
    }
}

fn make_choice(bank: &mut Bank, numbers: &[u32], operands: &[u64]) -> Result<Node> {
    let sort = sort_of(bank, number_at(numbers, operands, 1)?);
    let truth = node_at(bank, numbers, operands, 0, Sort::Truth)?;
    let yes = node_at(bank, numbers, operands, 1, sort)?;
    let no = node_at(bank, numbers, operands, 2, sort)?;
    Ok(bank.choose(sort, truth, yes, no)?)
}

/// The node that a statement makes.
fn make(bank: &mut Bank, form: Form, numbers: &[u32], operands: &[u64]) -> Result<Node> {
    match form {
        Form::Constant => make_constant(bank, operands),
        Form::WorldWord => make_world_word(bank, numbers, operands),
        Form::InitialWord => make_initial_word(bank, numbers, operands),
        Form::Binary(operator) => make_binary(bank, operator, numbers, operands),
        Form::Test(test) => make_test(bank, test, numbers, operands),
        Form::Convert(extension) => make_converted(bank, extension, numbers, operands),
        Form::Not => make_not(bank, numbers, operands),
        Form::Connect(connective) => make_connected(bank, connective, numbers, operands),
        Form::Choose => make_choice(bank, numbers, operands),
    }
}

/// Puts the numbers that words write at the end.
fn push_operands(operands: &mut Vec<u64>, words: SplitWhitespace<'_>) -> Result<()> {
    for word in words {
        operands.push(word.parse::<u64>()?)?;
    }
    Ok(())
}

/// The numbers that words write.
fn operands_of(alloc: Global, words: SplitWhitespace<'_>) -> Result<Vec<u64>> {
    let mut operands = Vec::new(alloc);
    let pushed = push_operands(&mut operands, words);
    pushed.and(Ok(operands))
}

impl Terms {
    /// Notes what a node is to be.
    fn wish(&mut self, operands: &[u64]) -> Result<()> {
        let number = number_at(&self.numbers, operands, 0)?;
        let value = operand(operands, 1);
        self.wishes.push(Wish { number, value })?;
        Ok(())
    }

    /// Does what a statement says.
    fn take(&mut self, name: &str, operands: &[u64]) -> Result<()> {
        if name == "is" {
            return self.wish(operands);
        }
        let form = form_named(name).ok_or(anyhow!("no such statement"))?;
        let node = make(&mut self.bank, form, &self.numbers, operands)?;
        self.numbers.push(node.index)?;
        Ok(())
    }

    /// Puts the numbers in the bank of the root, and of the nodes that are to be something, at the end.
    fn push_roots(&self, roots: &mut Vec<u32>) -> Result<()> {
        roots.push(self.numbers.last().copied().ok_or(anyhow!("no node"))?)?;
        for wish in &self.wishes {
            roots.push(wish.number)?;
        }
        Ok(())
    }

    /// The numbers in the bank of the root, and of the nodes that are to be something.
    pub fn roots(&self, alloc: Global) -> Result<Vec<u32>> {
        let mut roots = Vec::new(alloc);
        let pushed = self.push_roots(&mut roots);
        pushed.and(Ok(roots))
    }
}

/// Does what a statement says.
fn take_statement(alloc: Global, terms: &mut Terms, statement: &str) -> Result<()> {
    let mut words = statement.split_whitespace();
    let name = words.next().unwrap_or("");
    let operands = operands_of(alloc, words)?;
    let taken = terms.take(name, &operands);
    drop(operands);
    taken
}

/// Does what the statements of a row say.
fn take_statements(alloc: Global, terms: &mut Terms, row: &str) -> Result<()> {
    for statement in row.split(';') {
        take_statement(alloc, terms, statement)?;
    }
    Ok(())
}

/// The terms of a row.
pub fn read_terms(alloc: Global, row: &str) -> Result<Terms> {
    let mut terms = Terms {
        bank: Bank::new(alloc),
        numbers: Vec::new(alloc),
        wishes: Vec::new(alloc),
    };
    let taken = take_statements(alloc, &mut terms, row);
    taken.and(Ok(terms))
}
