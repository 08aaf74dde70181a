//! Expression statements (C99 6.8.3), and declarations that do nothing where they are reached.
ghost use Rattle.std.specs.Prelude.{◌≡◌, true, false, IfOk};
ghost use Rattle.core_tree.specs.declared.code.Code.TheVariants as code;

use core_tree::{Code, Expr};
use plain_data::Shared;
use std::alloc::{AllocError, Global};

/// `;`. It fails for want of memory alone.
pub fn empty(alloc: Global) -> Result<Shared<Code>, AllocError>
    ensures { IfOk result (λ y. y ≡ code.Nothing true) }
{
    Shared::new(alloc, Code::Nothing { is_node: true })
}

/// A declaration of typedef names, tags or functions, and a missing statement. It fails for want of memory alone.
pub fn declaration(alloc: Global) -> Result<Shared<Code>, AllocError>
    ensures { IfOk result (λ y. y ≡ code.Nothing false) }
{
    Shared::new(alloc, Code::Nothing { is_node: false })
}

/// `value;`, by what the expression does where its value isn't used (C99 6.8.3p2). It fails for want of memory alone.
pub fn effect(alloc: Global, value: Shared<Expr>) -> Result<Shared<Code>, AllocError>
    ensures { IfOk result (λ y. y ≡ code.Value true value) }
{
    Shared::new(
        alloc,
        Code::Value {
            is_node: true,
            value,
        },
    )
}

/// The expression that a `for` begins with (C99 6.8.5.3p1). It fails for want of memory alone.
pub fn first_part(alloc: Global, value: Shared<Expr>) -> Result<Shared<Code>, AllocError>
    ensures { IfOk result (λ y. y ≡ code.Value false value) }
{
    Shared::new(
        alloc,
        Code::Value {
            is_node: false,
            value,
        },
    )
}
