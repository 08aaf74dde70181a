//! What the types say of trees that aren't evaluated, by the definition.
ghost use Rattle.std.specs.Prelude.{◌≡◌, IfOk};
ghost use Rattle.c_language.specs.Typing.{typed_in};
ghost use Rattle.c_declares.specs.Views.{type_said_in};
ghost use Rattle.c_means.specs.Trees.{part, type_name_said};

use c_declares::TypeSaid;
use c_language::{Expr, Told, TypeName};
use c_type_scope::Scope;
use c_typing::{type_name, typed};
use std::alloc::{AllocError, Global};

/// What an expression that isn't evaluated says. It fails for want of memory alone.
#[tactic(auto, using(crate::proofs::Unevaluated::typed_is))]
pub(crate) fn typed_part(alloc: Global, e: &Expr, scope: &mut Scope) -> Result<Told, AllocError>
    ensures { IfOk result (λ x. typed_in x scope.new ≡ (part e.now scope.old).typed) }
{
    typed(alloc, e, scope)
}

/// What a type name says. It fails for want of memory alone.
#[tactic(auto, using(crate::proofs::Unevaluated::type_name_is))]
pub(crate) fn named_type(
    alloc: Global,
    name: &TypeName,
    scope: &mut Scope,
) -> Result<TypeSaid, AllocError>
    ensures { IfOk result (λ x. type_said_in x scope.new ≡ type_name_said name.now scope.old) }
{
    type_name(alloc, name, scope)
}
