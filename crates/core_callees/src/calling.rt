//! What the calls of a function of a program are in the core.
ghost use Rattle.std.specs.Prelude.{◌≡◌};

use crate::choosing::callee_of;
use crate::numbered::FunctionNumber;
use c_checks::identity_index;
use c_language::{Entry, Name};
use c_means::Profile;
use c_type_scope::{Named, Scope};
use core_exprs::{Callees, Site};
use core_forms::Places;
use core_programs::PlaceTable;
use core_tree::Callee;
use plain_data::Shared;
use std::alloc::{AllocError, Global};

/// What the calls of a function depend on: what is known of functions besides their source, the places of what lives
/// throughout the run, the functions with a body in the source, the number of the first function of the prelude, whose
/// nine functions have theirs in order, and the variables that live throughout the run that the function names.
#[derive(Clone, Copy)]
pub struct Calling<'a> {
    pub profile: &'a Profile,
    pub places: &'a PlaceTable,
    pub functions: &'a Named<FunctionNumber>,
    pub prelude: u32,
    pub watched: &'a [Shared<Entry>],
}

impl<'a> Places for Calling<'a> {
    ghost use Rattle.core_callees.specs.Known.{numbering_in};
    ghost use Rattle.core_callees.specs.Knows.{known_by};

    ghost numbering = { λ x. numbering_in (known_by x) };

    fn place(&self, at: u32) -> u64 {
        self.places.place(at)
    }
}

impl<'a> Callees for Calling<'a> {
    fn identity(&self, name: &Name) -> Option<u32> {
        identity_index(self.profile, name.get().as_slice())
    }

    fn callee(&self, alloc: Global, site: &Site, scope: &Scope) -> Result<Callee, AllocError> {
        callee_of(alloc, self, site, scope)
    }
}
