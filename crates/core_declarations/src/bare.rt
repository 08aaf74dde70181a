//! Where no function runs: what lives throughout the run is initialised before the program starts (C99 6.2.4p3).
ghost use Rattle.core_objects.specs.Begun.{bare};

use c_language::Name;
use c_type_scope::Scope;
use core_exprs::{Callees, Site};
use core_forms::Places;
use core_tree::Callee;
use std::alloc::{AllocError, Global};

/// The places of a program, where each call is one too many.
#[derive(Clone, Copy)]
pub(crate) struct Bare<'a, C> {
    pub(crate) callees: &'a C,
}

impl<'a, C: Callees> Places for Bare<'a, C> {
    ghost numbering = { λ b. bare (C.numbering b.callees.now) };

    fn place(&self, at: u32) -> u64 {
        self.callees.place(at)
    }
}

impl<'a, C: Callees> Callees for Bare<'a, C> {
    fn identity(&self, name: &Name) -> Option<u32> {
        self.callees.identity(name)
    }

    /// No call is left, whatever function is called.
    fn callee(&self, _alloc: Global, _site: &Site, _scope: &Scope) -> Result<Callee, AllocError> {
        Ok(Callee::Body { function: 0 })
    }
}
