//! Labeled statements (C99 6.8.1).
ghost use Rattle.std.specs.Prelude.{◌≡◌, IfOk};
ghost use Rattle.c_language.specs.Integers.{converted};
ghost use Rattle.core_tree.specs.declared.code.Code.TheVariants as code;

use c_language::{IntegerKind, Name};
use core_tree::{Code, Expr};
use plain_data::Shared;
use std::alloc::{AllocError, Global};

/// `name: body`. It fails for want of memory alone.
pub fn label(alloc: Global, name: Name, body: Shared<Code>) -> Result<Shared<Code>, AllocError>
    ensures { IfOk result (λ y. y ≡ code.Label name body) }
{
    Shared::new(alloc, Code::Label { name, body })
}

/// `case label: body`, of this value as the `switch` compares it (C99 6.8.4.2p5). It fails for want of memory alone.
pub fn case_label(
    alloc: Global,
    value: i128,
    label: Shared<Expr>,
    body: Shared<Code>,
) -> Result<Shared<Code>, AllocError>
    ensures { IfOk result (λ y. y ≡ code.Case value label body) }
{
    Shared::new(alloc, Code::Case { value, label, body })
}

/// `default: body`. It fails for want of memory alone.
pub fn default_label(alloc: Global, body: Shared<Code>) -> Result<Shared<Code>, AllocError>
    ensures { IfOk result (λ y. y ≡ code.Default body) }
{
    Shared::new(alloc, Code::Default { body })
}

/// The value of a `case`, converted to the type in which its `switch` compares (C99 6.8.4.2p5).
pub fn case_value(compared: IntegerKind, constant: i128) -> i128
    ensures { result ≡ converted compared constant }
{
    compared.convert(constant)
}
