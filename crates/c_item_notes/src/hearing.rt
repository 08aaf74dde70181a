//! A source that is judged, and what is noted of its expressions.

ghost use Rattle.std.specs.Prelude.{◌≡◌, IfOk};
ghost use Rattle.c_means.specs.Notes as notes;
ghost use Rattle.c_item_notes.specs.Levels as spec;

use c_language::{Expr, External};
use c_means::Profile;
use c_notes::{NotedExpr, noted};
use c_type_scope::Scope;
use plain_data::Shared;
use std::alloc::{AllocError, Global};

/// The external declarations of a source, and what is known of functions besides.
#[derive(Clone, Copy)]
pub struct Source<'a> {
    pub externals: &'a [Shared<External>],
    pub profile: &'a Profile,
}

/// What an expression of the source says to the types (C99 6.5), and what is noted of it. It fails for want of memory
/// alone.
pub fn heard(
    alloc: Global,
    source: &Source<'_>,
    expr: &Expr,
    scope: &mut Scope,
) -> Result<NotedExpr, AllocError>
    ensures { IfOk result (λ x. spec.heard_in x scope.new ≡ spec.heard (spec.judged source.now) (notes.noted expr.now scope.old)) }
{
    noted(alloc, source.profile, expr, scope)
}
