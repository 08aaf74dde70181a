//! Tables of ends. A line is a key: the function's name, the levels of calls that are left, its own among them, and the
//! position at which it is called; behind `:` stand the positions at which it may come back, and behind `|` those at
//! which the run may end in it. Keys stand by their position, and at one position callees before their callers.

use crate::text::{put, put_count, put_name, put_next};
use core_tree::Function;
use log_expr::{EndTable, Entry};
use plain_data::Bytes;
use std::alloc::AllocError;

fn put_positions(positions: &[usize], text: &mut Bytes) -> Result<(), AllocError> {
    for position in positions {
        put_next(text, *position as u64)?;
    }
    Ok(())
}

/// Puts the name of the function of a number at the end.
fn put_function(functions: &[Function], number: u32, text: &mut Bytes) -> Result<(), AllocError> {
    match functions.get(number as usize) {
        Some(function) => put_name(text, &function.name),
        None => put(text, "?"),
    }
}

fn put_entry(
    functions: &[Function],
    start: usize,
    entry: &Entry,
    text: &mut Bytes,
) -> Result<(), AllocError> {
    put_function(functions, entry.function, text)?;
    put_next(text, u64::from(entry.depth))?;
    put_next(text, start as u64)?;
    put(text, ":")?;
    put_positions(entry.ends.back.as_slice(), text)?;
    put(text, " |")?;
    put_positions(entry.ends.ended.as_slice(), text)?;
    put(text, "\n")
}

/// Puts a line for each key of a table at the end.
pub fn put_table(
    functions: &[Function],
    table: &EndTable,
    text: &mut Bytes,
) -> Result<(), AllocError> {
    for start in 0..table.len() {
        for entry in table.row(start) {
            put_entry(functions, start, entry, text)?;
        }
    }
    Ok(())
}

/// How many ends an entry has.
fn ends_in(entry: &Entry) -> usize {
    let back = entry.ends.back.len();
    back.saturating_add(entry.ends.ended.len())
}

/// How many ends a row has.
fn ends_of(row: &[Entry]) -> usize {
    let mut ends = 0usize;
    for entry in row {
        ends = ends.saturating_add(ends_in(entry));
    }
    ends
}

/// Puts a line with how many keys a table has, and how many ends.
pub fn put_sums(table: &EndTable, text: &mut Bytes) -> Result<(), AllocError> {
    let mut keys = 0usize;
    let mut ends = 0usize;
    for start in 0..table.len() {
        let row = table.row(start);
        keys = keys.saturating_add(row.len());
        ends = ends.saturating_add(ends_of(row));
    }
    put_count(text, keys as u128)?;
    put_next(text, ends as u64)?;
    put(text, "\n")
}
