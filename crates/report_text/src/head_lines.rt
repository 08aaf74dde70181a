//! The lines on what a report rests on: bounds, assumptions, the log.
ghost use Rattle.std.specs.Prelude.{◌≡◌, ◌++◌, IfOk};
ghost use Rattle.std.specs.List.{flat_map};
ghost use Rattle.report_text.specs.HeadLines as spec;

use crate::numbers::put_count;
use diagnoses::{Assumption, Filling};
use log_text::LogText;
use plain_data::{Bounds, Bytes};
use std::alloc::AllocError;

#[tactic(auto, unfolding(crate::specs::HeadLines::run_bounds))]
fn put_run_bounds(text: &mut Bytes, bounds: &Bounds) -> Result<(), AllocError>
    ensures { IfOk result (λ _. text.new ≡ text.old ++ spec.run_bounds bounds.now) }
{
    put_count(text, b"bounds turns ", u64::from(bounds.turns))?;
    put_count(text, b" depth ", u64::from(bounds.depth))?;
    put_count(text, b" heap ", u64::from(bounds.heap))
}

#[tactic(auto, unfolding(crate::specs::HeadLines::outside_bounds))]
fn put_outside_bounds(text: &mut Bytes, bounds: &Bounds) -> Result<(), AllocError>
    ensures { IfOk result (λ _. text.new ≡ text.old ++ spec.outside_bounds bounds.now) }
{
    put_count(text, b" outside ", u64::from(bounds.outside))?;
    put_count(text, b" texts ", u64::from(bounds.texts))?;
    put_count(text, b" arguments ", u64::from(bounds.arguments))
}

/// Puts the bounds in force, and how many conflicts are allowed, at the end of a text. It fails for want of memory
/// alone.
pub(crate) fn put_bounds(
    text: &mut Bytes,
    bounds: &Bounds,
    conflicts: u32,
) -> Result<(), AllocError>
    ensures { IfOk result (λ _. text.new ≡ text.old ++ spec.bounds_line bounds.now conflicts) }
{
    put_run_bounds(text, bounds)?;
    put_outside_bounds(text, bounds)?;
    put_count(text, b" conflicts ", u64::from(conflicts))?;
    text.push(b'\n')
}

// ---- assumptions

fn put_fills(text: &mut Bytes, fills: &Option<Filling>) -> Result<(), AllocError>
    ensures { IfOk result (λ _. text.new ≡ text.old ++ spec.fills_text fills.now) }
{
    match fills {
        None => Ok(()),
        Some(filling) => {
            put_count(text, b" fills ", u64::from(filling.buffer))?;
            put_count(text, b" ", u64::from(filling.length))
        }
    }
}

fn put_never_null(text: &mut Bytes, never_null: bool) -> Result<(), AllocError>
    ensures { IfOk result (λ _. text.new ≡ text.old ++ spec.null_text never_null) }
{
    if never_null {
        text.extend_from_slice(b" not null")?;
    }
    Ok(())
}

fn put_outside(
    text: &mut Bytes,
    name: &[u8],
    fills: &Option<Filling>,
    never_null: bool,
) -> Result<(), AllocError>
    ensures { IfOk result (λ _. text.new ≡ text.old ++ spec.outside_line name.now fills.now never_null) }
{
    text.extend_from_slice(b"assume outside ")?;
    text.extend_from_slice(name)?;
    put_fills(text, fills)?;
    put_never_null(text, never_null)?;
    text.push(b'\n')
}

fn put_object(text: &mut Bytes, name: &[u8]) -> Result<(), AllocError>
    ensures { IfOk result (λ _. text.new ≡ text.old ++ spec.object_line name.now) }
{
    text.extend_from_slice(b"assume object ")?;
    text.extend_from_slice(name)?;
    text.push(b'\n')
}

fn put_assumption(text: &mut Bytes, assumption: &Assumption) -> Result<(), AllocError>
    ensures { IfOk result (λ _. text.new ≡ text.old ++ spec.assume_line assumption.now) }
{
    match assumption {
        Assumption::Outside {
            name,
            fills,
            never_null,
        } => put_outside(text, name.get().as_slice(), fills, *never_null),
        Assumption::Object { name } => put_object(text, name.get().as_slice()),
    }
}

/// Puts the assumptions, in their order, at the end of a text. It fails for want of memory alone.
pub(crate) fn put_assumptions(
    text: &mut Bytes,
    assumptions: &[Assumption],
) -> Result<(), AllocError>
    ensures { IfOk result (λ _. text.new ≡ text.old ++ flat_map spec.assume_line assumptions.now) }
{
    for assumption in assumptions {
        put_assumption(text, assumption)?;
    }
    Ok(())
}

// ---- the log

/// Puts how long the log is at the end of a text. It fails for want of memory alone.
pub(crate) fn put_log_line(text: &mut Bytes, log: &LogText) -> Result<(), AllocError>
    ensures { IfOk result (λ _. text.new ≡ text.old ++ spec.log_line log.now) }
{
    put_count(text, b"log lines ", log.line_count() as u64)?;
    put_count(text, b" bytes ", log.bytes().len() as u64)?;
    text.push(b'\n')
}
