//! Lists that are taken from where they were put on.

ghost use Rattle.std.specs.Prelude.{◌≡◌, [], ◌∷◌, ◌++◌, ◌↔◌, IsTrue, MatchOption, IfOk, OnOk, reverse};

use plain_data::Items;
use std::alloc::{AllocError, Global};
use std::marker::Model;
use std::mem::replace;

/// A list of which the first is the one that was put on last.
#[derive(Drop)]
pub struct Stack<T> {
    items: Items<T>,
}

impl<T> Model for Stack<T> {
    ghost use Rattle.std.specs.Prelude.{List, reverse};
    ghost use Rattle.std.specs.Coded.{coded_list};

    ghost Value = { List T };

    ghost coded = { coded_list T.code };

    ghost view = { λ s. reverse s.items };
}

impl<T> Stack<T> {
    /// Nothing is on it. It takes no memory.
    pub fn new(alloc: Global) -> Stack<T>
        ensures { result ≡ [] }
    {
        Stack {
            items: Items::new(alloc),
        }
    }

    /// Whether nothing is on it.
    #[tactic(auto, using(crate::proofs::Stacks::reverse_empty))]
    pub fn is_empty(&self) -> bool
        ensures { IsTrue result ↔ (self.now ≡ []) }
    {
        self.items.is_empty()
    }

    /// Takes the first off.
    #[tactic(auto, using(crate::proofs::Stacks::reverse_snoc))]
    pub fn pop(&mut self) -> Option<T>
        ensures { MatchOption result ((self.old ≡ []) × (self.new ≡ [])) (λ first. self.old ≡ first ∷ self.new) }
    {
        self.items.pop()
    }

    /// What is on it, the first last.
    pub fn as_slice(&self) -> &[T]
        ensures { self.now ≡ reverse result.now }
    {
        self.items.as_slice()
    }
}

impl<T: Drop> Stack<T> {
    /// Puts one on. It fails for want of memory alone.
    #[tactic(auto, using(crate::proofs::Stacks::reverse_snoc))]
    pub fn push(&mut self, item: T) -> Result<(), AllocError>
        ensures { OnOk result (self.new ≡ item ∷ self.old) }
    {
        self.items.push(item)
    }

    /// Takes these over, on top of what is on it, in time by their number. It fails for want of memory alone.
    pub fn take_over(&mut self, alloc: Global, top: &mut Stack<T>) -> Result<(), AllocError>
        ensures { OnOk result (self.new ≡ top.old ++ self.old) }
    {
        self.items
            .append(replace(&mut top.items, Items::new(alloc)))
    }

    /// Takes all off, the first first. It fails for want of memory alone.
    pub fn take_items(&mut self, alloc: Global) -> Result<Items<T>, AllocError>
        ensures { IfOk result (λ items. items ≡ self.old) }
    {
        let mut items = Items::new(alloc);
        'items: while let Some(first) = self.pop() {
            items.push(first)?;
        }
        Ok(items)
    }
}
