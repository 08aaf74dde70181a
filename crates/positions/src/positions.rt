ghost use Rattle.std.specs.Prelude.{◌≡◌, ◌∷◌, ◌++◌, ◌||◌, [], ℕ, true, length, ◌==◌, nat_eq, IfOk, OnOk};
ghost use Rattle.positions.specs.Sets.{has, ascends, are_before};

use crate::merging::{index_of, merged, stands_at};
use std::alloc::{AllocError, Global};
use std::marker::Model;

/// A set of positions. Contracts see the list of them, in ascending order.
pub struct Positions {
    items: Vec<usize>,
}

/// By hand, so that a call stands in place of all its parts wherever a value is let go.
impl Drop for Positions {
    fn drop(self) {
        let Positions { items } = self;
    }
}

impl Model for Positions {
    ghost use Rattle.std.specs.Prelude.{ℕ, List, ◌≡◌, true};
    ghost use Rattle.positions.specs.Sets.{ascends};

    ghost Value = { List ℕ };

    ghost view = { λ p. p.items.items };

    ghost invariant = { λ p. ascends p.items.items ≡ true };
}

impl Positions {
    /// No position. It takes no memory before the first one comes.
    pub fn new(alloc: Global) -> Positions
        ensures { result ≡ [] }
    {
        Positions {
            items: Vec::new(alloc),
        }
    }

    /// One position. It fails for want of memory alone.
    pub fn one(alloc: Global, position: usize) -> Result<Positions, AllocError>
        ensures { IfOk result (λ p. p ≡ position ∷ []) }
    {
        let mut items = Vec::new(alloc);
        items.push(position)?;
        Ok(Positions { items })
    }

    /// The positions, in ascending order.
    pub fn as_slice(&self) -> &[usize]
        ensures value { result.now ≡ self.now }
        ensures ordered { ascends self.now ≡ true }
    {
        self.items.as_slice()
    }

    /// How many there are.
    pub fn len(&self) -> usize
        ensures { result ≡ length self.now }
    {
        self.items.len()
    }

    /// Whether there is none.
    pub fn is_empty(&self) -> bool
        ensures { result ≡ (length self.now == 0) }
    {
        self.items.is_empty()
    }

    /// Whether a position is one of them.
    pub fn contains(&self, position: usize) -> bool
        ensures { result ≡ has self.now position }
    {
        self.items.contains(&position)
    }

    /// Puts a position behind all others. It fails for want of memory alone.
    pub fn push(&mut self, position: usize) -> Result<(), AllocError>
        requires { are_before position self.old ≡ true }
        ensures { OnOk result (self.new ≡ self.old ++ position ∷ []) }
    {
        self.items.push(position)?;
        Ok(())
    }

    /// Puts a position in, where it isn't one of them. It fails for want of memory alone.
    pub fn put(&mut self, position: usize) -> Result<(), AllocError>
        ensures { OnOk result ((y : ℕ) → has self.new y ≡ (has self.old y || nat_eq position y)) }
    {
        let index = index_of(self.items.as_slice(), position);
        if stands_at(self.items.as_slice(), index, position) {
            return Ok(());
        }
        self.items.insert(index, position)?;
        Ok(())
    }

    /// Puts the positions of another set in. It fails for want of memory alone.
    pub fn put_all(&mut self, more: &Positions) -> Result<(), AllocError>
        ensures { OnOk result ((y : ℕ) → has self.new y ≡ (has self.old y || has more.now y)) }
    {
        'more: for position in more.as_slice() {
            self.put(*position)?;
        }
        Ok(())
    }

    /// A copy. It fails for want of memory alone.
    pub fn copy(&self, alloc: Global) -> Result<Positions, AllocError>
        ensures { IfOk result (λ p. p ≡ self.now) }
    {
        let items = Vec::from_slice(alloc, self.items.as_slice())?;
        Ok(Positions { items })
    }

    /// The positions of both sets. It fails for want of memory alone.
    pub fn union(&self, alloc: Global, other: &Positions) -> Result<Positions, AllocError>
        ensures { IfOk result (λ p. (y : ℕ) → has p y ≡ (has self.now y || has other.now y)) }
    {
        let items = merged(alloc, self.items.as_slice(), other.items.as_slice())?;
        Ok(Positions { items })
    }
}
