//! What is found of an expression.
ghost use Rattle.std.specs.Prelude.{◌≡◌};
ghost use Rattle.core_exprs.specs.Found as spec;

use core_forms::Built;
use plain_data::Bytes;

/// An expression in the core: what it is as a part, and its bytes where it is a string literal, parentheses and
/// identity functions apart.
#[derive(Drop)]
pub struct Found {
    pub built: Built,
    pub text: Option<Bytes>,
}

/// An expression that is no string literal.
pub(crate) fn plain(built: Built) -> Found
    ensures { result ≡ spec.plain built }
{
    Found { built, text: None }
}
