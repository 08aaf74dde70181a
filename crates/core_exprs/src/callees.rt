//! What a function's calls are in the core.
ghost use Rattle.std.specs.Prelude.{◌≡◌, IfOk};
ghost use Rattle.elaborate.specs.Means.{IsCallOf};
ghost use Rattle.core_forms.specs.Nodes.{type_as};
ghost use Rattle.core_exprs.specs.Sites.{site_of};

use crate::site::Site;
use c_language::Name;
use c_type_scope::Scope;
use core_forms::Places;
use core_tree::Callee;
use std::alloc::{AllocError, Global};

/// What the calls of a function are in the core.
pub trait Callees: Places {
    /// Which argument a function of this name hands on, where it does nothing else.
    fn identity(&self, name: &Name) -> Option<u32>
        ensures { result ≡ (Self.numbering self.now).identity name.now };

    /// What a call calls, with the names in force behind its arguments: it answers as the call's type has it. It fails
    /// for want of memory alone.
    fn callee(&self, alloc: Global, site: &Site, scope: &Scope) -> Result<Callee, AllocError>
        ensures { IfOk result (λ c. IsCallOf (Self.numbering self.now) c site.now.at (type_as scope.now.tables site.now.ctype) (λ l. site_of site.now scope.now)) };
}
