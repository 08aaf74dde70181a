//! What roots are worth. A row is answered by `none` where its statements hold on no world. Else by the root's value in
//! a model, 1 or 0 of a truth; by `only` where the root has this value in each model, or `or` and another value; and by
//! the world that the first model stands for: ` PLACE=WORD` for each word, `:` and ` ADDRESS=BYTE` for each byte.
ghost use Rattle.std.specs.Prelude.{IfOk};
ghost use Rattle.bitvectors.specs.Blasts.{HasWidth};

use crate::blasting::blast_nodes;
use crate::solving::{add_all, model_of, push};
use crate::terms::{Terms, Wish, read_terms};
use anyhow::Result;
use bitvectors::Blasted;
use cdcl::Solver;
use cnf_core::{Assignment, Formula, Lit};
use gates::Bit;
use plain_data::{Rows, World};
use std::alloc::Global;
use std::mem::drop;

/// The bit of a value at a place.
fn bit_at(value: u64, place: usize) -> bool {
    place < 64 && (value >> place) & 1 == 1
}

/// Puts clauses at the end of a formula that say that bits spell a value.
fn push_value(formula: &mut Formula, bits: &[Bit], value: u64) -> Result<()> {
    for place in 0..bits.len() {
        let wanted = bit_at(value, place);
        match &bits[place] {
            Bit::Known(known) => {
                if *known != wanted {
                    formula.push(&[])?;
                }
            }
            Bit::Unknown(literal) => {
                let literal = *literal;
                formula.push(&[if wanted { literal } else { literal.negated() }])?;
            }
        }
    }
    Ok(())
}

/// The bits of the root at an index, none where there is no such root.
fn bits_of(roots: &Rows<Bit>, index: usize) -> &[Bit] {
    if index < roots.len() {
        roots.row(index)
    } else {
        &[]
    }
}

/// Puts clauses at the end of a formula that say that nodes are what they are to be. Their bits stand behind the root's.
fn push_wishes(formula: &mut Formula, roots: &Rows<Bit>, wishes: &[Wish]) -> Result<()> {
    for index in 0..wishes.len() {
        push_value(formula, bits_of(roots, index + 1), wishes[index].value)?;
    }
    Ok(())
}

fn holds(bit: &Bit, values: &Assignment) -> bool {
    match bit {
        Bit::Known(value) => *value,
        Bit::Unknown(literal) => values.holds(*literal),
    }
}

/// The number that bits spell.
fn number_of(bits: &[Bit], values: &Assignment) -> u64 {
    let mut number = 0;
    for place in 0..bits.len() {
        if place < 64 && holds(&bits[place], values) {
            number |= 1 << place;
        }
    }
    number
}

/// Puts literals at the end that say that bits don't all have these values.
fn push_others(literals: &mut Vec<Lit>, bits: &[Bit], values: &Assignment) -> Result<()> {
    for bit in bits {
        if let Bit::Unknown(literal) = bit {
            let literal = *literal;
            literals.push(if values.holds(literal) {
                literal.negated()
            } else {
                literal
            })?;
        }
    }
    Ok(())
}

/// A clause that says that bits don't all have these values.
fn others_of(alloc: Global, bits: &[Bit], values: &Assignment) -> Result<Vec<Lit>> {
    let mut literals = Vec::new(alloc);
    let pushed = push_others(&mut literals, bits, values);
    pushed.and(Ok(literals))
}

/// Puts a world's words and bytes at the end of a line.
fn put_world(out: &mut String, world: &World) -> Result<()> {
    for (place, word) in world.words() {
        write!(out, " {place}={word}")?;
    }
    out.push_str(" :")?;
    for (address, byte) in world.bytes() {
        write!(out, " {address}={byte}")?;
    }
    out.push('\n')?;
    Ok(())
}

/// Puts the root's value in another model.
fn put_other(out: &mut String, roots: &Rows<Bit>, others: Assignment) -> Result<()> {
    let other = number_of(bits_of(roots, 0), &others);
    drop(others);
    write!(out, " or {other}")?;
    Ok(())
}

/// Puts whether the root has another value than it has in a model.
fn put_others(
    alloc: Global,
    out: &mut String,
    blasted: &mut Blasted,
    solver: &mut Solver,
    values: &Assignment,
) -> Result<()> {
    let others = others_of(alloc, bits_of(&blasted.roots, 0), values)?;
    let pushed = push(alloc, &mut blasted.formula, solver, &others);
    drop(others);
    pushed?;
    match model_of(alloc, &blasted.formula, solver)? {
        Some(others) => put_other(out, &blasted.roots, others),
        None => Ok(out.push_str(" only")?),
    }
}

/// Puts what the root is worth in a model, and whether it has another value.
fn put_root(
    alloc: Global,
    out: &mut String,
    blasted: &mut Blasted,
    solver: &mut Solver,
    values: &Assignment,
) -> Result<()> {
    let value = number_of(bits_of(&blasted.roots, 0), values);
    write!(out, "{value}")?;
    put_others(alloc, out, blasted, solver, values)
}

/// Puts what the root is worth in a model, and a world.
fn put_in_world(
    alloc: Global,
    out: &mut String,
    blasted: &mut Blasted,
    solver: &mut Solver,
    values: &Assignment,
    world: &World,
) -> Result<()> {
    put_root(alloc, out, blasted, solver, values)?;
    put_world(out, world)
}

/// Puts what the root is worth in a model, and the world that it stands for.
fn put_model(
    alloc: Global,
    out: &mut String,
    blasted: &mut Blasted,
    solver: &mut Solver,
    values: &Assignment,
) -> Result<()>
    requires words { HasWidth 64 blasted.old.inputs.words }
    requires bytes { HasWidth 8 blasted.old.inputs.bytes }
{
    let world = blasted.decode(alloc, values)?;
    let put = put_in_world(alloc, out, blasted, solver, values, &world);
    drop(world);
    put
}

/// Puts the answer of a solver that has the clauses of the root and of what is to be.
fn put_answer(
    alloc: Global,
    out: &mut String,
    blasted: &mut Blasted,
    solver: &mut Solver,
) -> Result<()>
    requires words { HasWidth 64 blasted.old.inputs.words }
    requires bytes { HasWidth 8 blasted.old.inputs.bytes }
{
    match model_of(alloc, &blasted.formula, solver)? {
        Some(values) => {
            let put = put_model(alloc, out, blasted, solver, &values);
            drop(values);
            put
        }
        None => {
            out.push_str("none\n")?;
            Ok(())
        }
    }
}

/// The answer where the root has clauses, and nodes are to be something, by a solver that has no clause yet.
fn answer_solved(
    alloc: Global,
    blasted: &mut Blasted,
    solver: &mut Solver,
    wishes: &[Wish],
) -> Result<String>
    requires words { HasWidth 64 blasted.old.inputs.words }
    requires bytes { HasWidth 8 blasted.old.inputs.bytes }
{
    push_wishes(&mut blasted.formula, &blasted.roots, wishes)?;
    add_all(alloc, solver, &blasted.formula)?;
    let mut out = String::new(alloc);
    let put = put_answer(alloc, &mut out, blasted, solver);
    put.and(Ok(out))
}

/// The answer where the root has clauses, and nodes are to be something.
fn answer_blasted(alloc: Global, blasted: &mut Blasted, wishes: &[Wish]) -> Result<String>
    requires words { HasWidth 64 blasted.old.inputs.words }
    requires bytes { HasWidth 8 blasted.old.inputs.bytes }
{
    let mut solver = Solver::new(alloc);
    let answer = answer_solved(alloc, blasted, &mut solver, wishes);
    solver.discard();
    answer
}

/// The clauses of what the terms of a row ask for: their root, and what is to be something.
fn blast_terms(alloc: Global, terms: &mut Terms) -> Result<Blasted>
    ensures words { IfOk result (λ b. HasWidth 64 b.inputs.words) }
    ensures bytes { IfOk result (λ b. HasWidth 8 b.inputs.bytes) }
{
    let roots = terms.roots(alloc)?;
    let blasted = blast_nodes(alloc, &mut terms.bank, &roots);
    drop(roots);
    blasted
}

/// The answer of terms.
fn answer_terms(alloc: Global, terms: &mut Terms) -> Result<String> {
    let mut blasted = blast_terms(alloc, terms)?;
    let answer = answer_blasted(alloc, &mut blasted, &terms.wishes);
    drop(blasted);
    answer
}

/// The answer to a row.
pub fn worth(alloc: Global, row: &str) -> Result<String> {
    let mut terms = read_terms(alloc, row)?;
    let answer = answer_terms(alloc, &mut terms);
    drop(terms);
    answer
}

/// How many clauses a formula has, and how many literals they have.
fn size_of(alloc: Global, formula: &Formula) -> Result<String> {
    let clauses = formula.len();
    let literals = formula.literals().len();
    Ok(format!(in alloc; "{clauses} {literals}\n")?)
}

/// How many clauses the root of terms takes, and how many literals they have.
fn size_terms(alloc: Global, terms: &mut Terms) -> Result<String> {
    let blasted = blast_terms(alloc, terms)?;
    let size = size_of(alloc, &blasted.formula);
    drop(blasted);
    size
}

/// How many clauses a row's root takes, and how many literals they have.
pub fn size(alloc: Global, row: &str) -> Result<String> {
    let mut terms = read_terms(alloc, row)?;
    let size = size_terms(alloc, &mut terms);
    drop(terms);
    size
}
