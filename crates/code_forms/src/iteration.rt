//! Iteration statements (C99 6.8.5), each by its keyword's offset.
ghost use Rattle.std.specs.Prelude.{◌≡◌, Some, None, false, [], ◌∷◌, ◌++◌, IfOk};
ghost use Rattle.core_tree.specs.declared.code.Code.TheVariants as code;

use core_tree::{Code, Expr};
use plain_data::{Items, Shared};
use std::alloc::{AllocError, Global};

/// `while` (C99 6.8.5.1). It fails for want of memory alone.
pub fn while_loop(
    alloc: Global,
    at: u32,
    condition: Shared<Expr>,
    body: Shared<Code>,
) -> Result<Shared<Code>, AllocError>
    ensures { IfOk result (λ y. y ≡ code.Loop at (Some condition) None body) }
{
    Shared::new(
        alloc,
        Code::Loop {
            at,
            test: Some(condition),
            step: None,
            body,
        },
    )
}

/// `do` (C99 6.8.5.2). It fails for want of memory alone.
pub fn do_loop(
    alloc: Global,
    at: u32,
    body: Shared<Code>,
    condition: Shared<Expr>,
) -> Result<Shared<Code>, AllocError>
    ensures { IfOk result (λ y. y ≡ code.Repeat at condition body) }
{
    Shared::new(
        alloc,
        Code::Repeat {
            at,
            test: condition,
            body,
        },
    )
}

/// The turns of a `for`, behind what it begins with: the condition before each turn, where there is one, and the step
/// behind it (C99 6.8.5.3). It fails for want of memory alone.
pub fn for_turns(
    alloc: Global,
    at: u32,
    condition: Option<Shared<Expr>>,
    step: Option<Shared<Expr>>,
    body: Shared<Code>,
) -> Result<Shared<Code>, AllocError>
    ensures { IfOk result (λ y. y ≡ code.Loop at condition step body) }
{
    Shared::new(
        alloc,
        Code::Loop {
            at,
            test: condition,
            step,
            body,
        },
    )
}

/// `for`: a block of what it begins with, and its turns (C99 6.8.5p5). It fails for want of memory alone.
pub fn for_block(
    alloc: Global,
    first: Items<Shared<Code>>,
    turns: Shared<Code>,
) -> Result<Shared<Code>, AllocError>
    ensures { IfOk result (λ y. y ≡ code.Block false (first ++ turns ∷ [])) }
{
    let mut items = first;
    items.push(turns)?;
    Shared::new(
        alloc,
        Code::Block {
            is_node: false,
            items,
        },
    )
}
