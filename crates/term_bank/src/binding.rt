ghost use Rattle.std.specs.Prelude.{◌≡◌, IfOk, OnOk, map};
ghost use Rattle.term_bank.specs.Shapes.{Each, IsNode, IsWell};
ghost use Rattle.term_bank.specs.Values.{Grows};
ghost use Rattle.term_bank.specs.Banks.{IsBank};
ghost use Rattle.term_bank.specs.Images.{AreImages, Puts, image_at, image_in, over_images};
ghost use Rattle.term_bank.specs.Bindings.{IsBinding, HasImage, HasWordOf, IsPutIn};
ghost use Rattle.term_bank.specs.declared.shape.Shape.TheVariants.{Parameter};

use crate::bank::{Bank, BankFault};
use crate::shape::{Extension, Shape};
use crate::sort::{Node, Sort};
use crate::under::nodes_under;
use plain_data::{Items, Width};
use std::alloc::{AllocError, Global};
use std::collections::HashMap;

/// The nodes that are put in for the entry memory, for the parameters by their numbers, and for the base. A parameter
/// that has no node is 0, and one of another width is converted as an unsigned word.
#[derive(Drop)]
pub struct Binding {
    pub entry: Node,
    pub parameters: Items<Node>,
    pub base: Node,
}

/// The number of the node that stands for a node, 0 where none does.
fn image(images: &HashMap<u32, Node>, number: u32) -> u32
    ensures { result ≡ image_in images.now number }
{
    match images.get(&number) {
        Some(node) => node.index,
        None => 0,
    }
}

/// A shape over the nodes that stand for its parts.
pub fn over(images: &HashMap<u32, Node>, shape: Shape) -> Shape
    ensures { result ≡ over_images (image_in images.now) shape }
{
    match shape {
        Shape::Flag(_)
        | Shape::Constant { .. }
        | Shape::Parameter { .. }
        | Shape::Base
        | Shape::Entry
        | Shape::Initial
        | Shape::NoEvents
        | Shape::NoNumbers => shape,
        Shape::WorldWord { width, place } => Shape::WorldWord {
            width,
            place: image(images, place),
        },
        Shape::InitialByte { row, address } => Shape::InitialByte {
            row,
            address: image(images, address),
        },
        Shape::Binary {
            operator,
            width,
            left,
            right,
        } => Shape::Binary {
            operator,
            width,
            left: image(images, left),
            right: image(images, right),
        },
        Shape::Test {
            test,
            width,
            left,
            right,
        } => Shape::Test {
            test,
            width,
            left: image(images, left),
            right: image(images, right),
        },
        Shape::Convert {
            extension,
            from,
            to,
            operand,
        } => Shape::Convert {
            extension,
            from,
            to,
            operand: image(images, operand),
        },
        Shape::Not(operand) => Shape::Not(image(images, operand)),
        Shape::Connect {
            connective,
            left,
            right,
        } => Shape::Connect {
            connective,
            left: image(images, left),
            right: image(images, right),
        },
        Shape::Choose {
            sort,
            condition,
            yes,
            no,
        } => Shape::Choose {
            sort,
            condition: image(images, condition),
            yes: image(images, yes),
            no: image(images, no),
        },
        Shape::Write {
            width,
            memory,
            address,
            value,
        } => Shape::Write {
            width,
            memory: image(images, memory),
            address: image(images, address),
            value: image(images, value),
        },
        Shape::ZeroRange {
            memory,
            from,
            length,
        } => Shape::ZeroRange {
            memory: image(images, memory),
            from: image(images, from),
            length: image(images, length),
        },
        Shape::CopyRange {
            memory,
            to,
            source,
            from,
            length,
        } => Shape::CopyRange {
            memory: image(images, memory),
            to: image(images, to),
            source: image(images, source),
            from: image(images, from),
            length: image(images, length),
        },
        Shape::Made {
            kind,
            memory,
            object,
            size,
        } => Shape::Made {
            kind,
            memory: image(images, memory),
            object: image(images, object),
            size: image(images, size),
        },
        Shape::Ended { memory, object } => Shape::Ended {
            memory: image(images, memory),
            object: image(images, object),
        },
        Shape::Read {
            width,
            memory,
            address,
        } => Shape::Read {
            width,
            memory: image(images, memory),
            address: image(images, address),
        },
        Shape::ObjectSize { memory, object } => Shape::ObjectSize {
            memory: image(images, memory),
            object: image(images, object),
        },
        Shape::IsLive {
            memory,
            address,
            length,
        } => Shape::IsLive {
            memory: image(images, memory),
            address: image(images, address),
            length: image(images, length),
        },
        Shape::HasKind {
            kind,
            memory,
            object,
        } => Shape::HasKind {
            kind,
            memory: image(images, memory),
            object: image(images, object),
        },
        Shape::BranchEvent {
            events,
            printed,
            at,
            side,
        } => Shape::BranchEvent {
            events: image(images, events),
            printed,
            at,
            side,
        },
        Shape::CallEvent {
            events,
            printed,
            at,
        } => Shape::CallEvent {
            events: image(images, events),
            printed,
            at,
        },
        Shape::PrintEvent {
            events,
            printed,
            at,
            length,
            seen,
        } => Shape::PrintEvent {
            events: image(images, events),
            printed,
            at,
            length,
            seen: image(images, seen),
        },
        Shape::EventsBehind { first, second } => Shape::EventsBehind {
            first: image(images, first),
            second: image(images, second),
        },
        Shape::NumberBehind {
            numbers,
            width,
            is_signed,
            word,
        } => Shape::NumberBehind {
            numbers: image(images, numbers),
            width,
            is_signed,
            word: image(images, word),
        },
    }
}

/// Lets a node stand for a node.
pub fn set_image(images: &mut HashMap<u32, Node>, number: u32, node: Node) -> Result<(), AllocError>
    ensures { OnOk result (Puts images.old images.new number node) }
{
    images.insert(number, node)?;
    Ok(())
}

/// The nodes that stand for the roots, in order.
pub fn images_of(
    alloc: Global,
    roots: &[Node],
    images: &HashMap<u32, Node>,
) -> Result<Items<Node>, AllocError>
    ensures { IfOk result (λ nodes. nodes ≡ map (image_at images.now) roots.now) }
{
    let mut nodes = Items::new(alloc);
    for root in roots {
        match images.get(&root.index) {
            Some(node) => nodes.push(*node)?,
            None => nodes.push(*root)?,
        }
    }
    Ok(nodes)
}

impl Bank {
    /// A node of this width that has a node's word modulo 2^N. A node that is no word has 0.
    fn in_width(&mut self, node: Node, width: Width) -> Result<Node, BankFault>
        requires bank { IsBank self.old }
        requires node { IsNode self.old node }
        ensures word { IfOk result (HasWordOf self.new node width) }
        ensures grows { Grows self.old self.new }
        ensures bank { IsBank self.new }
    {
        match node.sort {
            Sort::Word(from) if from == width => Ok(node),
            Sort::Word(from) => self.add(Shape::Convert {
                extension: Extension::Zero,
                from,
                to: width,
                operand: node.index,
            }),
            Sort::Truth | Sort::Memory | Sort::Events | Sort::Numbers => {
                self.add(Shape::Constant { bits: 0, width })
            }
        }
    }

    /// What is put in for a parameter.
    fn parameter(&mut self, binding: &Binding, number: u32, width: Width) -> Result<Node, BankFault>
        requires bank { IsBank self.old }
        requires binding { IsBinding self.old binding.now }
        ensures put { (f : _) → IfOk result (IsPutIn self.new binding.now f (Parameter number width)) }
        ensures grows { Grows self.old self.new }
        ensures bank { IsBank self.new }
    {
        match binding.parameters.get(number as usize) {
            Some(node) => self.in_width(*node, width),
            None => self.add(Shape::Constant { bits: 0, width }),
        }
    }

    /// What is put in for a shape, by what stands for its parts.
    fn put_in(
        &mut self,
        binding: &Binding,
        images: &HashMap<u32, Node>,
        shape: Shape,
    ) -> Result<Node, BankFault>
        requires bank { IsBank self.old }
        requires binding { IsBinding self.old binding.now }
        requires well { IsWell self.old (over_images (image_in images.now) shape) }
        ensures put { IfOk result (IsPutIn self.new binding.now (image_in images.now) shape) }
        ensures grows { Grows self.old self.new }
        ensures bank { IsBank self.new }
    {
        match shape {
            Shape::Parameter { number, width } => self.parameter(binding, number, width),
            Shape::Base => Ok(binding.base),
            Shape::Entry => Ok(binding.entry),
            _ => self.add(over(images, shape)),
        }
    }

    /// Nodes that have the values that the roots have where the entry memory, the parameters and the base have the
    /// values of the binding's nodes. The time is that of the nodes under the roots, however many others there are.
    pub fn substitute(
        &mut self,
        roots: &[Node],
        binding: &Binding,
    ) -> Result<Items<Node>, BankFault>
        requires roots { Each (IsNode self.old) roots.now }
        requires binding { IsBinding self.old binding.now }
        ensures nodes { IfOk result (AreImages (HasImage self.old self.new binding.now) roots.now) }
        ensures grows { Grows self.old self.new }
        ensures bank { IsBank self.new }
    {
        let alloc = self.alloc;
        let mut numbers = nodes_under(alloc, self, roots)?;
        let mut images = HashMap::new(alloc);
        'nodes: while let Some(number) = numbers.pop() {
            if let Some(shape) = self.shape(number) {
                let node = self.put_in(binding, &images, shape)?;
                set_image(&mut images, number, node)?;
            }
        }
        Ok(images_of(alloc, roots, &images)?)
    }
}
