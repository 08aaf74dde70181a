ghost use Rattle.std.specs.Prelude.{◌≡◌, ◌↔◌, Some, IsTrue, IfOk, slice_get};
ghost use Rattle.term_bank.specs.Shapes.{Each, IsNode};
ghost use Rattle.term_bank.specs.Under.{IsOnly};
ghost use Rattle.bitvectors.specs.Signals.{is_of_bits, is_plain};

use std::alloc::{AllocError, Global};
use term_bank::{Bank, Node, Shape, Sort, nodes_under};

/// Whether values of a sort are spelled by bits.
fn has_bits(sort: Sort) -> bool
    ensures { result ≡ is_of_bits sort }
{
    match sort {
        Sort::Truth | Sort::Word(_) => true,
        Sort::Memory | Sort::Events | Sort::Numbers => false,
    }
}

/// Whether a shape is of truths and words alone, and depends on the world alone.
fn is_plain_shape(shape: Shape) -> bool
    ensures { result ≡ is_plain shape }
{
    match shape {
        Shape::Flag(_)
        | Shape::Constant { .. }
        | Shape::WorldWord { .. }
        | Shape::InitialByte { .. }
        | Shape::Binary { .. }
        | Shape::Test { .. }
        | Shape::Convert { .. }
        | Shape::Not(_)
        | Shape::Connect { .. } => true,
        Shape::Choose { sort, .. } => has_bits(sort),
        _ => false,
    }
}

/// Whether a node's shape is of truths and words alone, and depends on the world alone.
fn is_plain_node(bank: &Bank, number: u32) -> bool
    ensures { (shape : _) → slice_get bank.now number ≡ Some shape → result ≡ is_plain shape }
{
    match bank.shape(number) {
        Some(shape) => is_plain_shape(shape),
        None => false,
    }
}

/// Whether truths and words alone stand under roots, and of the outside only the world's words and initial bytes.
pub fn are_plain(alloc: Global, bank: &Bank, roots: &[Node]) -> Result<bool, AllocError>
    requires { Each (IsNode bank.now) roots.now }
    ensures { IfOk result (λ plain. IsTrue plain ↔ Each (λ r. IsOnly is_plain bank.now r.index) roots.now) }
{
    let mut numbers = nodes_under(alloc, bank, roots)?;
    'nodes: while let Some(number) = numbers.pop() {
        if !is_plain_node(bank, number) {
            return Ok(false);
        }
    }
    Ok(true)
}
