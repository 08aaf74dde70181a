//! Formulas in DIMACS form, each clause on a line of its own, and refutations in LRAT form without deletions.
use anyhow::{Result, anyhow, ensure};
use cnf_core::{Formula, Lit};
use proof_check::{Step, Steps};
use std::alloc::Global;
use std::str::Lines;

/// The literal that a signed number names.
fn literal(word: &str) -> Result<Lit> {
    let number = word.parse::<i64>()?;
    let variable = number.unsigned_abs();
    ensure!(0 < variable && variable < 2147483648, "no literal: {word}");
    Ok(Lit::new(variable as u32, number > 0))
}

/// A line's literals up to a 0.
pub fn literals(alloc: Global, line: &str) -> Result<Vec<Lit>> {
    let mut literals = Vec::new(alloc);
    for word in line.split(' ') {
        if word != "0" {
            literals.push(literal(word)?)?;
        }
    }
    Ok(literals)
}

/// A step's number, its literals up to a 0, and its hints up to a 0.
pub fn push_step(alloc: Global, steps: &mut Steps, line: &str) -> Result<()> {
    let mut clause = Vec::new(alloc);
    let mut hints = Vec::new(alloc);
    let mut in_clause = true;
    for word in line.split(' ').skip(1) {
        if word == "0" {
            in_clause = false;
        } else if in_clause {
            clause.push(literal(word)?)?;
        } else {
            hints.push(word.parse::<u32>()?)?;
        }
    }
    steps.push(Step {
        clause: &clause,
        hints: &hints,
    })?;
    Ok(())
}

/// How many clauses the formula has, as its header `p cnf VARIABLES CLAUSES` says.
fn clause_count(header: &str) -> Result<usize> {
    let word = header.split(' ').last().ok_or(anyhow!("no header"))?;
    Ok(word.parse::<usize>()?)
}

/// The formula, and the lines after it.
pub fn read_formula(alloc: Global, text: &str) -> Result<(Formula, Lines<'_>)> {
    let mut formula = Formula::new(alloc);
    let mut lines = text.lines();
    let count = clause_count(lines.next().ok_or(anyhow!("no header"))?)?;
    for _ in 0..count {
        let line = lines.next().ok_or(anyhow!("a clause is missing"))?;
        formula.push(&literals(alloc, line)?)?;
    }
    Ok((formula, lines))
}
