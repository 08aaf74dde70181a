//! End tables.
ghost use Rattle.std.specs.Prelude.{◌≡◌, ◌<◌, ◌++◌, ◌∷◌, [], ℕ, length, Some, None, IfOk, OnOk, slice_index_or};
ghost use Rattle.std.specs.Option.{option_copied};
ghost use Rattle.log_expr.specs.Tables.{ends_at, found, is_of, Puts};

use plain_data::Items;
use positions::Positions;
use std::alloc::{AllocError, Global};
use std::marker::Model;

/// Where a call may come back, and where the run may end in it.
#[derive(Drop)]
pub struct Ends {
    /// Where it may come back.
    pub back: Positions,
    /// Where the run may end.
    pub ended: Positions,
}

impl Ends {
    /// A copy. It fails for want of memory alone.
    pub fn copy(&self, alloc: Global) -> Result<Ends, AllocError>
        ensures { IfOk result (λ e. e ≡ self.now) }
    {
        let back = self.back.copy(alloc)?;
        let ended = self.ended.copy(alloc)?;
        Ok(Ends { back, ended })
    }
}

/// The ends of a function that is called at some position.
#[derive(Drop)]
pub struct Entry {
    /// The function's number.
    pub function: u32,
    /// How many levels of calls are left, that of the function among them.
    pub depth: u32,
    /// Its ends.
    pub ends: Ends,
}

/// A table of ends, by the positions at which functions are called. Contracts see the list of its rows.
#[derive(Drop)]
pub struct EndTable {
    rows: Vec<Items<Entry>>,
}

impl Model for EndTable {
    ghost use Rattle.std.specs.Prelude.{List};
    ghost use Rattle.log_expr.specs.declared.table.Entry.{Entry};

    ghost Value = { List (List Entry) };

    ghost view = { λ t. t.rows.items };
}

/// Whether an entry is that of a function with so many levels left.
fn is_of(entry: &Entry, function: u32, depth: u32) -> bool
    ensures { result ≡ is_of function depth entry.now }
{
    entry.function == function && entry.depth == depth
}

/// The ends of a function in a row.
fn found(row: &[Entry], function: u32, depth: u32) -> Option<&Ends>
    ensures { option_copied result ≡ found function depth row.now }
{
    'entries: for entry in row {
        if is_of(entry, function, depth) {
            return Some(&entry.ends);
        }
    }
    None
}

impl EndTable {
    /// No entries. It takes no memory before the first one comes.
    pub fn new(alloc: Global) -> EndTable
        ensures { result ≡ [] }
    {
        EndTable {
            rows: Vec::new(alloc),
        }
    }

    /// The ends of a function that is called at a position with so many levels left, its own among them.
    pub fn find(&self, function: u32, depth: u32, start: usize) -> Option<&Ends>
        ensures { option_copied result ≡ ends_at self.now function depth start }
    {
        if start >= self.rows.len() {
            return None;
        }
        found(self.rows[start].as_slice(), function, depth)
    }

    /// How many positions have a row.
    pub fn len(&self) -> usize
        ensures { result ≡ length self.now }
    {
        self.rows.len()
    }

    /// The entries of the functions that are called at a position.
    pub fn row(&self, start: usize) -> &[Entry]
        ensures { result.now ≡ slice_index_or self.now start [] }
    {
        if start >= self.rows.len() {
            return &[];
        }
        self.rows[start].as_slice()
    }

    /// Makes rows up to a position.
    fn reach(&mut self, alloc: Global, start: usize) -> Result<(), AllocError>
        ensures same { OnOk result ((f d i : ℕ) → ends_at self.new f d i ≡ ends_at self.old f d i) }
        ensures within { OnOk result (start < length self.new) }
    {
        'rows: while self.rows.len() <= start {
            self.rows.push(Items::new(alloc))?;
        }
        Ok(())
    }

    /// Puts the ends of a function that has none yet in. It fails for want of memory alone.
    pub fn put(
        &mut self,
        alloc: Global,
        function: u32,
        depth: u32,
        start: usize,
        ends: Ends,
    ) -> Result<(), AllocError>
        requires { ends_at self.old function depth start ≡ None }
        ensures { OnOk result (Puts function depth start ends self.old self.new) }
    {
        self.reach(alloc, start)?;
        let row = &mut self.rows[start];
        row.push(Entry {
            function,
            depth,
            ends,
        })?;
        Ok(())
    }
}
