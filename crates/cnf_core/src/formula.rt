ghost use Rattle.std.specs.Prelude.{◌≡◌, ◌<◌, [], ◌∷◌, ◌++◌, ◌↔◌, IsTrue, OnOk, OnErr, Some, length, slice_get};
ghost use Rattle.std.specs.List.{flat_map};

use crate::lit::Lit;
use plain_data::Rows;
use std::alloc::{AllocError, Global};
use std::marker::Model;

/// A conjunction of clauses. They are numbered from 1: the clause number `n` stands at index `n - 1`.
///
/// A clause costs a word beside its literals, and no allocation of its own.
pub struct Formula {
    clauses: Rows<Lit>,
}

/// By hand, so that a call stands in place of all its parts wherever a value is let go.
impl Drop for Formula {
    fn drop(self) {
        let Formula { clauses } = self;
    }
}

impl Model for Formula {
    ghost use Rattle.std.specs.Prelude.{List};
    ghost use Rattle.cnf_core.specs.Literal.{Literal};

    ghost Value = { List (List Literal) };

    ghost view = { λ f. f.clauses };
}

impl Formula {
    /// The formula with no clause, which is true. It takes no memory before the first clause comes.
    pub fn new(alloc: Global) -> Formula
        ensures { result ≡ [] }
    {
        Formula {
            clauses: Rows::new(alloc),
        }
    }

    /// How many clauses there are.
    pub fn len(&self) -> usize
        ensures { result ≡ length self.now }
    {
        self.clauses.len()
    }

    /// Whether there is no clause.
    pub fn is_empty(&self) -> bool
        ensures { IsTrue result ↔ (self.now ≡ []) }
    {
        self.clauses.is_empty()
    }

    /// The literals of the clause at an index, counted from 0.
    pub fn clause(&self, index: usize) -> &[Lit]
        requires { index < length self.now }
        ensures { slice_get self.now index ≡ Some result.now }
    {
        self.clauses.row(index)
    }

    /// The literals of all clauses, one clause after the other.
    pub fn literals(&self) -> &[Lit]
        ensures { result.now ≡ flat_map (λ clause. clause) self.now }
    {
        self.clauses.items()
    }

    /// Puts a clause of these literals at the end. It fails for want of memory alone.
    pub fn push(&mut self, clause: &[Lit]) -> Result<(), AllocError>
        ensures ok { OnOk result (self.new ≡ self.old ++ clause.now ∷ []) }
        ensures err { OnErr result (self.new ≡ self.old) }
    {
        self.clauses.push(clause)
    }
}
