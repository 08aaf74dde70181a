ghost use Rattle.std.specs.Prelude.{◌≡◌, ◌<◌, [], length, slice_get, Some, IfOk, IfSome, OnErr};
ghost use Rattle.term_bank.specs.Shapes.{IsNode, IsWell, sort_of};
ghost use Rattle.term_bank.specs.Values.{Grows, IsWorth};
ghost use Rattle.term_bank.specs.Banks.{IsBank};
ghost use Rattle.term_bank.specs.Under.{IsOver};

use crate::shape::Shape;
use crate::sort::Node;
use indexmap::IndexSet;
use std::alloc::{AllocError, Global};
use std::marker::Model;
use thiserror::Error;

/// Why a node was not made.
#[derive(Clone, Copy, Debug, PartialEq, Eq, Error)]
pub enum BankFault {
    #[error("out of memory")]
    Memory,
}

impl From<AllocError> for BankFault {
    ghost use Rattle.std.specs.Prelude.{◌≡◌};
    ghost use Rattle.term_bank.specs.declared.bank.BankFault.TheVariants.{Memory};

    ghost from_gives = { λ _ e. e ≡ Memory };

    fn from(_error: AllocError) -> BankFault {
        BankFault::Memory
    }
}

/// Shapes in the order in which they were made, each once, and each over nodes with smaller numbers. Contracts see
/// it as the list of shapes; in each environment exactly one value of each node agrees with all shapes.
#[derive(Drop)]
pub struct Bank {
    pub(crate) alloc: Global,
    shapes: IndexSet<Shape>,
}

impl Model for Bank {
    ghost use Rattle.std.specs.Prelude.{List};
    ghost use Rattle.term_bank.specs.declared.shape.Shape.{Shape as ShapeType};
    ghost use Rattle.term_bank.specs.Banks.{IsBank};

    ghost Value = { List ShapeType };

    ghost view = { λ b. b.shapes.keys };

    ghost invariant = { λ b. IsBank b.shapes.keys };
}

impl Bank {
    /// A bank with no node. It takes no memory before the first node comes.
    pub fn new(alloc: Global) -> Bank
        ensures { result ≡ [] }
    {
        Bank {
            alloc,
            shapes: IndexSet::new(alloc),
        }
    }

    /// The node of a shape, which is made where there is none.
    fn insert(&mut self, shape: Shape) -> Result<Node, BankFault>
        requires { IsWell self.old shape }
        ensures node { IfOk result (IsNode self.new) }
        ensures sort { IfOk result (λ node. node.sort ≡ sort_of shape) }
        ensures value { IfOk result (IsWorth self.new shape) }
        ensures again { (k : _) → slice_get self.old k ≡ Some shape → IfOk result (λ node. node.index ≡ k) }
        ensures shape { IfOk result (λ node. slice_get self.new node.index ≡ Some shape) }
        ensures grows { Grows self.old self.new }
        ensures err { OnErr result (self.new ≡ self.old) }
        ensures bank { IsBank self.new }
    {
        if self.shapes.len() >= 1 << 31 {
            return Err(BankFault::Memory);
        }
        match self.shapes.insert_full(shape) {
            Ok((index, _)) => Ok(Node {
                index: index as u32,
                sort: shape.sort(),
            }),
            Err(_) => Err(BankFault::Memory),
        }
    }

    /// A node that has the shape's value in every environment: the shape's own, which stands once, or one that is
    /// simpler. An operator on constants is the constant that it gives, two negations go away, and so do a choice that is
    /// decided or of one node, a connective with a side that decides or leaves it, and events behind none.
    pub fn add(&mut self, shape: Shape) -> Result<Node, BankFault>
        requires { IsWell self.old shape }
        ensures node { IfOk result (IsNode self.new) }
        ensures sort { IfOk result (λ node. node.sort ≡ sort_of shape) }
        ensures value { IfOk result (IsWorth self.new shape) }
        ensures over { IfOk result (IsOver self.new shape) }
        ensures grows { Grows self.old self.new }
        ensures err { OnErr result (self.new ≡ self.old) }
        ensures bank { IsBank self.new }
    {
        if let Some(node) = self.same_part(shape) {
            let _ = &self.alloc;
            return Ok(node);
        }
        match self.known(shape) {
            Some(known) => self.insert(known),
            None => self.insert(shape),
        }
    }

    /// How many nodes there are.
    pub fn len(&self) -> usize
        ensures len { result ≡ length self.now }
        ensures bank { IsBank self.now }
    {
        self.shapes.len()
    }

    /// The shape of the node of this number.
    pub fn shape(&self, index: u32) -> Option<Shape>
        ensures shape { result ≡ slice_get self.now index }
        ensures bank { IsBank self.now }
    {
        self.shapes.get_index(index as usize).copied()
    }
}
