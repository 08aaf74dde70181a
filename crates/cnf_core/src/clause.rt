ghost use Rattle.std.specs.Prelude.{◌≡◌, [], ◌∷◌, ◌++◌, OnOk, OnErr};

use crate::lit::Lit;
use plain_data::Items;
use std::alloc::{AllocError, Global};
use std::marker::Model;

/// A disjunction of literals, in order; a literal may stand in it more than once.
pub struct Clause {
    literals: Items<Lit>,
}

/// By hand, so that a call stands in place of all its parts wherever a value is let go.
impl Drop for Clause {
    fn drop(self) {
        let Clause { literals } = self;
    }
}

impl Model for Clause {
    ghost use Rattle.std.specs.Prelude.{List};
    ghost use Rattle.cnf_core.specs.Literal.{Literal};

    ghost Value = { List Literal };

    ghost view = { λ c. c.literals };
}

impl Clause {
    /// The clause with no literal, which is false. It takes no memory before the first literal comes.
    pub fn new(alloc: Global) -> Clause
        ensures { result ≡ [] }
    {
        Clause {
            literals: Items::new(alloc),
        }
    }

    /// The clause of these literals, which keep their memory.
    pub fn from_vec(literals: Vec<Lit>) -> Clause
        ensures { result ≡ literals.items }
    {
        Clause {
            literals: Items::from_vec(literals),
        }
    }

    /// The literals in order.
    pub fn literals(&self) -> &[Lit]
        ensures { result.now ≡ self.now }
    {
        self.literals.as_slice()
    }

    /// Puts a literal at the end. It fails for want of memory alone.
    pub fn push(&mut self, literal: Lit) -> Result<(), AllocError>
        ensures ok { OnOk result (self.new ≡ self.old ++ literal ∷ []) }
        ensures err { OnErr result (self.new ≡ self.old) }
    {
        self.literals.push(literal)
    }
}
