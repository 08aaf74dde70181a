//! Jumps (C99 6.8.6).
ghost use Rattle.std.specs.Prelude.{◌≡◌, Some, None, IfOk};
ghost use Rattle.core_tree.specs.declared.code.Code.TheVariants as code;
ghost use Rattle.core_tree.specs.declared.expr.Expr.TheVariants as expr;

use c_language::Name;
use core_tree::{Code, Expr, ValueType};
use plain_data::Shared;
use std::alloc::{AllocError, Global};

/// `goto name;` (C99 6.8.6.1). It fails for want of memory alone.
pub fn goto_label(alloc: Global, name: Name) -> Result<Shared<Code>, AllocError>
    ensures { IfOk result (λ y. y ≡ code.Goto name) }
{
    Shared::new(alloc, Code::Goto { name })
}

/// `continue;` (C99 6.8.6.2). It fails for want of memory alone.
pub fn continue_loop(alloc: Global) -> Result<Shared<Code>, AllocError>
    ensures { IfOk result (λ y. y ≡ code.Continue) }
{
    Shared::new(alloc, Code::Continue)
}

/// `break;` (C99 6.8.6.3). It fails for want of memory alone.
pub fn break_out(alloc: Global) -> Result<Shared<Code>, AllocError>
    ensures { IfOk result (λ y. y ≡ code.Break) }
{
    Shared::new(alloc, Code::Break)
}

/// `return;` (C99 6.8.6.4). It fails for want of memory alone.
pub fn bare_return(alloc: Global) -> Result<Shared<Code>, AllocError>
    ensures { IfOk result (λ y. y ≡ code.Return None) }
{
    Shared::new(alloc, Code::Return { value: None })
}

/// `return value;`, converted to the type that the function returns (C99 6.8.6.4p3). It fails for want of memory alone.
pub fn value_return(
    alloc: Global,
    to: ValueType,
    value: Shared<Expr>,
) -> Result<Shared<Code>, AllocError>
    ensures { IfOk result (λ y. y ≡ code.Return (Some (expr.Convert to value))) }
{
    let converted = Shared::new(alloc, Expr::Convert { to, operand: value })?;
    Shared::new(
        alloc,
        Code::Return {
            value: Some(converted),
        },
    )
}
