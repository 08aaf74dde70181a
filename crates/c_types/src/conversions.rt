//! Integer promotions and the usual arithmetic conversions (C99 6.3.1.1p2, 6.3.1.8), without memory.

ghost use Rattle.std.specs.Prelude.{◌≡◌, true, Some};
ghost use Rattle.c_language.specs.declared.ctype.IntegerKind.{IntegerKind as Kind};
ghost use Rattle.c_language.specs.Types as types;
ghost use Rattle.c_language.specs.Integers as integers;

use c_language::{Base, CType, IntegerKind};
use std::alloc::Global;

/// The kind of an integer type: an enumerated type is as `int`.
fn kind_of(ctype: &CType) -> IntegerKind
    requires { types.is_integer ctype.now ≡ true }
    ensures { types.kind_of ctype.now ≡ Some result }
{
    match ctype.kind() {
        Some(kind) => kind,
        None => IntegerKind::Int,
    }
}

/// The type of a value of an integer type behind the integer promotions (C99 6.3.1.1p2). It takes no memory.
pub fn promote(alloc: Global, ctype: &CType) -> CType
    requires { types.is_integer ctype.now ≡ true }
    ensures { (kind : Kind) → types.kind_of ctype.now ≡ Some kind → result ≡ types.integer (integers.promoted kind) }
{
    CType::basic(alloc, Base::Integer(kind_of(ctype).promoted()))
}

/// The type to which the usual arithmetic conversions bring values of two integer types (C99 6.3.1.8). It takes no
/// memory.
pub fn usual(alloc: Global, left: &CType, right: &CType) -> CType
    requires left { types.is_integer left.now ≡ true }
    requires right { types.is_integer right.now ≡ true }
    ensures { (a : Kind) (b : Kind) → types.kind_of left.now ≡ Some a → types.kind_of right.now ≡ Some b → result ≡ types.integer (integers.usual a b) }
{
    CType::basic(alloc, Base::Integer(kind_of(left).usual(kind_of(right))))
}
