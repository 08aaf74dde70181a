ghost use Rattle.std.specs.Prelude.{◌≡◌, [], ◌∷◌, ◌++◌, ◌<◌, ◌≤◌, length, slice_get, take, ◌↔◌, IsTrue, OnOk, OnErr, Some};
ghost use Rattle.std.specs.List.{flat_map, slice_range};
ghost use Rattle.plain_data.specs.Cut.{start_of};

use std::alloc::{AllocError, Global};
use std::marker::Model;

/// A list of lists in two allocations: the items of all rows, and where each row ends.
pub struct Rows<T> {
    items: Vec<T>,
    ends: Vec<usize>,
}

/// By hand, so that where they are let go, a call stands in place of all that two `Vec`s hold.
impl<T: Drop> Drop for Rows<T> {
    fn drop(self) {
        let Rows { items, ends } = self;
    }
}

impl<T> Model for Rows<T> {
    ghost use Rattle.std.specs.Prelude.{List};
    ghost use Rattle.std.specs.Coded.{coded_list};
    ghost use Rattle.plain_data.specs.Cut.{cut, IsCut};

    ghost Value = { List (List T) };

    ghost coded = { coded_list (coded_list T.code) };

    ghost view = { λ rows. cut rows.items.items 0 rows.ends.items };

    ghost invariant = { λ rows. IsCut rows.items.items 0 rows.ends.items };
}

/// Where the row at an index starts.
fn start_at(ends: &[usize], index: usize) -> usize
    requires { index < length ends.now }
    ensures { result ≡ start_of 0 ends.now index }
{
    if index == 0 { 0 } else { ends[index - 1] }
}

fn between<T>(items: &[T], start: usize, end: usize) -> &[T]
    requires ordered { start ≤ end }
    requires within { end ≤ length items.now }
    ensures { result.now ≡ slice_range items.now start end }
{
    &items[start..end]
}

impl<T> Rows<T> {
    /// No rows. It takes no memory before the first row comes.
    pub fn new(alloc: Global) -> Rows<T>
        ensures { result ≡ [] }
    {
        Rows {
            items: Vec::new(alloc),
            ends: Vec::new(alloc),
        }
    }

    /// How many rows there are.
    pub fn len(&self) -> usize
        ensures { result ≡ length self.now }
    {
        self.ends.len()
    }

    /// Whether there is no row.
    pub fn is_empty(&self) -> bool
        ensures { IsTrue result ↔ (self.now ≡ []) }
    {
        self.len() == 0
    }

    /// The items of all rows, in order.
    pub fn items(&self) -> &[T]
        ensures { result.now ≡ flat_map (λ row. row) self.now }
    {
        self.items.as_slice()
    }

    /// The row at an index, counted from 0.
    pub fn row(&self, index: usize) -> &[T]
        requires { index < length self.now }
        ensures { slice_get self.now index ≡ Some result.now }
    {
        let start = start_at(&self.ends, index);
        between(&self.items, start, self.ends[index])
    }
}

impl<T: Drop> Rows<T> {
    /// Keeps the first `len` rows.
    pub fn truncate(&mut self, len: usize)
        ensures { self.new ≡ take len self.old }
    {
        if len < self.len() {
            let end = start_at(&self.ends, len);
            self.items.truncate(end);
            self.ends.truncate(len);
        }
    }
}

impl<T: Copy> Rows<T> {
    /// Puts a copy of a row at the end. It fails for want of memory alone.
    pub fn push(&mut self, row: &[T]) -> Result<(), AllocError>
        ensures ok { OnOk result (self.new ≡ self.old ++ row.now ∷ []) }
        ensures err { OnErr result (self.new ≡ self.old) }
    {
        self.ends.reserve(1)?;
        self.items.extend_from_slice(row)?;
        self.ends.push(self.items.len()).unwrap();
        Ok(())
    }
}
