//! What an initializer gives to an object.
ghost use Rattle.c_language.specs.declared.scope.Means.{Means};
ghost use Rattle.c_means.specs.Initials as initials;
ghost use Rattle.elaborate.specs.Means.{Numbering};
ghost use Rattle.core_objects.specs.Given as spec;

use core_tree::{Expr, Setting};
use plain_data::{Items, Shared};
use std::alloc::Global;

/// A whole initializer: whether what it doesn't name is 0 (C99 6.7.8p21); what its expressions set, in order; and
/// expressions that count as many nodes as it does, where its object lives throughout the run.
#[derive(Drop)]
pub struct Initial {
    pub is_zeroed: bool,
    pub settings: Items<Setting>,
    pub counted: Items<Shared<Expr>>,
}

/// No initializer. It takes no memory.
pub fn not_initialised(alloc: Global) -> Initial
    ensures { (m : Means) (numbering : Numbering) → spec.IsInitial m numbering result initials.uninitialised }
{
    Initial {
        is_zeroed: false,
        settings: Items::new(alloc),
        counted: Items::new(alloc),
    }
}
