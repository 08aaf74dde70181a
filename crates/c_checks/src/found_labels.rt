//! The labels of statements, in the order in which they stand (C99 6.8.1): of a whole function, and of one block.

ghost use Rattle.std.specs.Prelude.{◌≡◌, ◌++◌, map, option_map, OnOk};
ghost use Rattle.c_means.specs.Items as items_;
ghost use Rattle.c_means.specs.Statements as statements;

use crate::labels::Label;
use c_language::Stmt;
use plain_data::{Items, Shared};
use std::alloc::AllocError;

/// Adds all labels in a statement. It fails for want of memory alone.
#[cycle(every)]
pub fn every_label(stmt: &Stmt, found: &mut Items<Label>) -> Result<(), AllocError>
    ensures { OnOk result (found.new ≡ found.old ++ (statements.stmt stmt.now).every) }
{
    match stmt {
        Stmt::Block { items, .. } => every_among(items.as_slice(), found),
        Stmt::Declared { .. } => Ok(()),
        Stmt::Value { .. } => Ok(()),
        Stmt::Label { at, name, body } => {
            found.push(Label {
                at: *at,
                name: name.clone()?,
            })?;
            every_label(body.get(), found)
        }
        Stmt::Case { body, .. } => every_label(body.get(), found),
        Stmt::Default { body, .. } => every_label(body.get(), found),
        Stmt::If {
            positive,
            negative,
            ..
        } => {
            every_label(positive.get(), found)?;
            every_negative(negative, found)
        }
        Stmt::Switch { body, .. } => every_label(body.get(), found),
        Stmt::While { body, .. } => every_label(body.get(), found),
        Stmt::Do { body, .. } => every_label(body.get(), found),
        Stmt::For { body, .. } => every_label(body.get(), found),
        Stmt::Goto { .. } => Ok(()),
        Stmt::Continue { .. } => Ok(()),
        Stmt::Break { .. } => Ok(()),
        Stmt::Return { .. } => Ok(()),
    }
}

#[cycle(every)]
fn every_among(stmts: &[Shared<Stmt>], found: &mut Items<Label>) -> Result<(), AllocError>
    ensures { OnOk result (found.new ≡ found.old ++ items_.every_of (map statements.stmt stmts.now)) }
{
    for stmt in stmts {
        every_label(stmt.get(), found)?;
    }
    Ok(())
}

#[cycle(every)]
fn every_negative(
    negative: &Option<Shared<Stmt>>,
    found: &mut Items<Label>,
) -> Result<(), AllocError>
    ensures { OnOk result (found.new ≡ found.old ++ statements.every_if (option_map statements.stmt negative.now)) }
{
    match negative {
        None => Ok(()),
        Some(negative) => every_label(negative.get(), found),
    }
}

/// Adds the labels that a statement gives to the block in which it stands: those in front of it. It fails for want of
/// memory alone.
#[cycle(front)]
pub fn front_labels(stmt: &Stmt, found: &mut Items<Label>) -> Result<(), AllocError>
    ensures { OnOk result (found.new ≡ found.old ++ (statements.stmt stmt.now).labels) }
{
    match stmt {
        Stmt::Block { .. } => Ok(()),
        Stmt::Declared { .. } => Ok(()),
        Stmt::Value { .. } => Ok(()),
        Stmt::Label { at, name, body } => {
            found.push(Label {
                at: *at,
                name: name.clone()?,
            })?;
            front_labels(body.get(), found)
        }
        Stmt::Case { body, .. } => front_labels(body.get(), found),
        Stmt::Default { body, .. } => front_labels(body.get(), found),
        Stmt::If { .. } => Ok(()),
        Stmt::Switch { .. } => Ok(()),
        Stmt::While { .. } => Ok(()),
        Stmt::Do { .. } => Ok(()),
        Stmt::For { .. } => Ok(()),
        Stmt::Goto { .. } => Ok(()),
        Stmt::Continue { .. } => Ok(()),
        Stmt::Break { .. } => Ok(()),
        Stmt::Return { .. } => Ok(()),
    }
}

fn front_among(stmts: &[Shared<Stmt>], found: &mut Items<Label>) -> Result<(), AllocError>
    ensures { OnOk result (found.new ≡ found.old ++ items_.labels_of (map statements.stmt stmts.now)) }
{
    for stmt in stmts {
        front_labels(stmt.get(), found)?;
    }
    Ok(())
}

/// Adds the labels of the block that a statement is: those in front of its items, or in front of itself where it is no
/// compound statement. It fails for want of memory alone.
pub fn block_labels(stmt: &Stmt, found: &mut Items<Label>) -> Result<(), AllocError>
    ensures { OnOk result (found.new ≡ found.old ++ (statements.stmt stmt.now).own) }
{
    match stmt {
        Stmt::Block { items, .. } => front_among(items.as_slice(), found),
        Stmt::Declared { .. } => Ok(()),
        Stmt::Value { .. } => Ok(()),
        Stmt::Label { .. } => front_labels(stmt, found),
        Stmt::Case { .. } => front_labels(stmt, found),
        Stmt::Default { .. } => front_labels(stmt, found),
        Stmt::If { .. } => Ok(()),
        Stmt::Switch { .. } => Ok(()),
        Stmt::While { .. } => Ok(()),
        Stmt::Do { .. } => Ok(()),
        Stmt::For { .. } => Ok(()),
        Stmt::Goto { .. } => Ok(()),
        Stmt::Continue { .. } => Ok(()),
        Stmt::Break { .. } => Ok(()),
        Stmt::Return { .. } => Ok(()),
    }
}
