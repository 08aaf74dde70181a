//! Blocks (C99 6.8.2, 6.8.4p3, 6.8.5p5).
ghost use Rattle.std.specs.Prelude.{◌≡◌, true, IfOk};
ghost use Rattle.core_tree.specs.declared.code.Code.TheVariants as code;

use core_tree::Code;
use plain_data::{Items, Shared};
use std::alloc::{AllocError, Global};

/// What stands in the block that a statement is: whether it is a compound statement, its items, in order, and the
/// values of the cases that it gives to the `switch` whose block it is.
#[derive(Drop)]
pub struct Content {
    pub is_compound: bool,
    pub items: Items<Shared<Code>>,
    pub cases: Items<i128>,
}

/// A compound statement, of these items (C99 6.8.2). It fails for want of memory alone.
pub fn compound(alloc: Global, items: Items<Shared<Code>>) -> Result<Shared<Code>, AllocError>
    ensures { IfOk result (λ y. y ≡ code.Block true items) }
{
    Shared::new(
        alloc,
        Code::Block {
            is_node: true,
            items,
        },
    )
}

/// The block that a substatement is. It fails for want of memory alone.
pub fn substatement(alloc: Global, content: Content) -> Result<Shared<Code>, AllocError>
    ensures { IfOk result (λ y. y ≡ code.Block content.is_compound content.items) }
{
    let Content {
        is_compound,
        items,
        ..
    } = content;
    Shared::new(
        alloc,
        Code::Block {
            is_node: is_compound,
            items,
        },
    )
}
