//! Tables of summaries.
ghost use Rattle.std.specs.Prelude.{◌≡◌, ◌<◌, ℕ, List, [], length, IfSome, OnOk};
ghost use Rattle.term_bank.specs.declared.shape.Shape.{Shape as ShapeType};
ghost use Rattle.log_expr.specs.Tours.{Tour};
ghost use Rattle.path_summaries.specs.Tours.{StandsFor};
ghost use Rattle.path_summaries.specs.Tables.{RowStands, AllStand};

use plain_data::Items;
use std::alloc::{AllocError, Global};
use std::marker::Model;
use summary_compose::Summary;

/// The summary of a function, with so many levels of calls left below it.
#[derive(Drop)]
pub struct Kept {
    pub function: u32,
    pub left: u32,
    pub summary: Summary,
}

/// A table of summaries, by the positions from which they are. Contracts see the list of its rows.
#[derive(Drop)]
pub struct Summaries {
    rows: Vec<Items<Kept>>,
}

impl Model for Summaries {
    ghost use Rattle.std.specs.Prelude.{List};
    ghost use Rattle.path_summaries.specs.declared.table.Kept.{Kept};

    ghost Value = { List (List Kept) };

    ghost view = { λ t. t.rows.items };
}

/// The summary of a function in a row.
fn found(row: &[Kept], function: u32, left: u32) -> Option<&Summary>
    ensures { (t : Tour) (b : List ShapeType) (start : ℕ) → RowStands t b start row.now
        → IfSome result (λ s. StandsFor t b function left start s.now) }
{
    'kept: for kept in row {
        if kept.function == function && kept.left == left {
            return Some(&kept.summary);
        }
    }
    None
}

/// The summary of a function from a position on, in rows by position.
fn found_from(rows: &[Items<Kept>], function: u32, left: u32, start: usize) -> Option<&Summary>
    ensures { (t : Tour) (b : List ShapeType) → AllStand t b 0 rows.now
        → IfSome result (λ s. StandsFor t b function left start s.now) }
{
    if start >= rows.len() {
        return None;
    }
    found(rows[start].as_slice(), function, left)
}

impl Summaries {
    /// No summaries. It takes no memory before the first one comes.
    pub fn new(alloc: Global) -> Summaries
        ensures { result ≡ [] }
    {
        Summaries {
            rows: Vec::new(alloc),
        }
    }

    /// The summary of a function from a position on, with so many levels left below it.
    pub fn find(&self, function: u32, left: u32, start: usize) -> Option<&Summary>
        ensures { (t : Tour) (b : List ShapeType) → AllStand t b 0 self.now
            → IfSome result (λ s. StandsFor t b function left start s.now) }
    {
        found_from(self.rows.as_slice(), function, left, start)
    }

    /// Makes rows up to a position.
    fn reach(&mut self, alloc: Global, start: usize) -> Result<(), AllocError>
        ensures stand { OnOk result ((t : Tour) (b : List ShapeType) → AllStand t b 0 self.old → AllStand t b 0
            self.new) }
        ensures within { OnOk result (start < length self.new) }
    {
        'rows: while self.rows.len() <= start {
            self.rows.push(Items::new(alloc))?;
        }
        Ok(())
    }

    /// Puts the summary of a function from a position on in. It fails for want of memory alone.
    pub fn put(
        &mut self,
        alloc: Global,
        function: u32,
        left: u32,
        start: usize,
        summary: Summary,
    ) -> Result<(), AllocError>
        ensures { OnOk result ((t : Tour) (b : List ShapeType) → AllStand t b 0 self.old → StandsFor t b function
            left start summary
            → AllStand t b 0 self.new) }
    {
        self.reach(alloc, start)?;
        let row = &mut self.rows[start];
        row.push(Kept {
            function,
            left,
            summary,
        })?;
        Ok(())
    }
}
