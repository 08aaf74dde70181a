ghost use Rattle.std.specs.Prelude.{◌≡◌, IfSome, Some, true, slice_get};
ghost use Rattle.term_bank.specs.Shapes.{IsNode, IsWell, word};
ghost use Rattle.term_bank.specs.Banks.{IsBank};
ghost use Rattle.term_bank.specs.Folds.{IsConstant, IsSame, IsSamePart, deciding as deciding_of, leaving as leaving_of};
ghost use Rattle.term_bank.specs.declared.shape.Shape.TheVariants.{Flag, Connect, Choose, NoEvents, EventsBehind};

use crate::bank::Bank;
use crate::fold::{conversion, outcome, result};
use crate::shape::{Connective, Shape};
use crate::sort::{Node, Sort};
use plain_data::Width;

/// The truth of one side that decides a connective.
fn deciding(connective: Connective) -> bool
    ensures { result ≡ deciding_of connective }
{
    match connective {
        Connective::And => false,
        Connective::Or => true,
    }
}

/// The truth of one side that leaves a connective to the other.
fn leaving(connective: Connective) -> bool
    ensures { result ≡ leaving_of connective }
{
    match connective {
        Connective::And => true,
        Connective::Or => false,
    }
}

// What a shape is worth where its parts alone fix it.
impl Bank {
    /// The word of a node that is a constant.
    pub fn constant(&self, index: u32, width: Width) -> Option<u64>
        requires { IsNode self.now (word width index) }
        ensures { IfSome result (IsConstant self.now index width) }
    {
        match self.shape(index) {
            Some(Shape::Constant { bits, .. }) => Some(bits),
            _ => None,
        }
    }

    /// The truth of a node that is a constant.
    pub fn flag(&self, index: u32) -> Option<bool>
        ensures { IfSome result (λ b. slice_get self.now index ≡ Some (Flag b)) }
    {
        match self.shape(index) {
            Some(Shape::Flag(truth)) => Some(truth),
            _ => None,
        }
    }

    /// The constant that an operator on constants gives.
    pub(crate) fn known(&self, shape: Shape) -> Option<Shape>
        requires { IsWell self.now shape }
        ensures { IfSome result (IsSame self.now shape) }
    {
        match shape {
            Shape::Binary {
                operator,
                width,
                left,
                right,
            } => {
                let a = self.constant(left, width)?;
                let b = self.constant(right, width)?;
                let bits = result(operator, width, a, b)?;
                Some(Shape::Constant { bits, width })
            }
            Shape::Test {
                test,
                width,
                left,
                right,
            } => {
                let a = self.constant(left, width)?;
                let b = self.constant(right, width)?;
                Some(Shape::Flag(outcome(test, width, a, b)))
            }
            Shape::Convert {
                extension,
                from,
                to,
                operand,
            } => {
                let a = self.constant(operand, from)?;
                let bits = conversion(extension, from, to, a);
                Some(Shape::Constant { bits, width: to })
            }
            Shape::Not(operand) => {
                let truth = self.flag(operand)?;
                Some(Shape::Flag(!truth))
            }
            Shape::Connect {
                connective,
                left,
                right,
            } => {
                let decided = self.decided(connective, left, right)?;
                Some(Shape::Flag(decided))
            }
            _ => None,
        }
    }

    /// The truth of a connective that one of its sides decides, or both.
    fn decided(&self, connective: Connective, left: u32, right: u32) -> Option<bool>
        ensures { IfSome result (λ b. IsSame self.now (Connect connective left right) (Flag b)) }
    {
        let decides = deciding(connective);
        if self.is_flag(left, decides) {
            return Some(decides);
        }
        if self.is_flag(right, decides) {
            return Some(decides);
        }
        None
    }

    /// Whether a node is this constant truth.
    fn is_flag(&self, index: u32, truth: bool) -> bool
        ensures flag { result ≡ true → slice_get self.now index ≡ Some (Flag truth) }
        ensures bank { IsBank self.now }
    {
        let _ = &self.alloc;
        match self.flag(index) {
            Some(known) => known == truth,
            None => false,
        }
    }

    /// Whether nothing happens by a node.
    fn is_empty(&self, index: u32) -> bool
        ensures none { result ≡ true → slice_get self.now index ≡ Some NoEvents }
        ensures bank { IsBank self.now }
    {
        match self.shape(index) {
            Some(Shape::NoEvents) => true,
            _ => false,
        }
    }

    /// The side of a connective that has its truth, where the other is the same or leaves it.
    fn same_side(&self, connective: Connective, left: u32, right: u32) -> Option<Node>
        requires { IsWell self.now (Connect connective left right) }
        ensures { IfSome result (IsSamePart self.now (Connect connective left right)) }
    {
        let sort = Sort::Truth;
        let leaves = leaving(connective);
        if self.is_flag(left, leaves) {
            return Some(Node { index: right, sort });
        }
        if self.is_flag(right, leaves) {
            return Some(Node { index: left, sort });
        }
        if left == right {
            return Some(Node { index: right, sort });
        }
        None
    }

    /// The arm of a choice that is taken, where the arms are one node or the condition is known.
    fn same_arm(&self, sort: Sort, condition: u32, yes: u32, no: u32) -> Option<Node>
        requires { IsWell self.now (Choose sort condition yes no) }
        ensures { IfSome result (IsSamePart self.now (Choose sort condition yes no)) }
    {
        if yes == no || self.is_flag(condition, true) {
            Some(Node { index: yes, sort })
        } else if self.is_flag(condition, false) {
            Some(Node { index: no, sort })
        } else {
            None
        }
    }

    /// All events, where one side has none.
    fn same_events(&self, first: u32, second: u32) -> Option<Node>
        requires { IsWell self.now (EventsBehind first second) }
        ensures { IfSome result (IsSamePart self.now (EventsBehind first second)) }
    {
        let sort = Sort::Events;
        if self.is_empty(first) {
            Some(Node {
                index: second,
                sort,
            })
        } else if self.is_empty(second) {
            Some(Node { index: first, sort })
        } else {
            None
        }
    }

    /// A node below a shape that has its value: under two negations, the side of a connective or the arm of a choice
    /// that decides, the events of one side where the other has none.
    pub(crate) fn same_part(&self, shape: Shape) -> Option<Node>
        requires { IsWell self.now shape }
        ensures { IfSome result (IsSamePart self.now shape) }
    {
        match shape {
            Shape::Not(operand) => match self.shape(operand) {
                Some(Shape::Not(index)) => Some(Node {
                    index,
                    sort: Sort::Truth,
                }),
                _ => None,
            },
            Shape::Connect {
                connective,
                left,
                right,
            } => self.same_side(connective, left, right),
            Shape::Choose {
                sort,
                condition,
                yes,
                no,
            } => self.same_arm(sort, condition, yes, no),
            Shape::EventsBehind { first, second } => self.same_events(first, second),
            _ => None,
        }
    }
}
