//! Lists that are taken from where they were put on.

ghost use Rattle.std.specs.Prelude.{◌≡◌, [], ◌∷◌, MatchOption, OnOk, reverse};

use plain_data::Items;
use std::alloc::{AllocError, Global};
use std::marker::Model;

/// A list of which the first is the one that was put on last.
#[derive(Drop)]
pub(crate) struct Stack<T> {
    items: Items<T>,
}

impl<T> Model for Stack<T> {
    ghost use Rattle.std.specs.Prelude.{List, reverse};
    ghost use Rattle.std.specs.Coded.{coded_list};

    ghost Value = { List T };

    ghost coded = { coded_list T.code };

    ghost view = { λ s. reverse s.items };
}

impl<T> Stack<T> {
    /// Nothing is on it. It takes no memory.
    pub(crate) fn new(alloc: Global) -> Stack<T>
        ensures { result ≡ [] }
    {
        Stack {
            items: Items::new(alloc),
        }
    }

    /// Takes the first off.
    #[tactic(auto, using(crate::proofs::Stacks::reverse_snoc))]
    pub(crate) fn pop(&mut self) -> Option<T>
        ensures { MatchOption result ((self.old ≡ []) × (self.new ≡ [])) (λ first. self.old ≡ first ∷ self.new) }
    {
        self.items.pop()
    }
}

impl<T: Drop> Stack<T> {
    /// Puts one on. It fails for want of memory alone.
    #[tactic(auto, using(crate::proofs::Stacks::reverse_snoc))]
    pub(crate) fn push(&mut self, item: T) -> Result<(), AllocError>
        ensures { OnOk result (self.new ≡ item ∷ self.old) }
    {
        self.items.push(item)
    }
}
