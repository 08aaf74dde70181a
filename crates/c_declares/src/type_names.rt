//! Type names (C99 6.7.6).

ghost use Rattle.std.specs.Prelude.{◌≡◌, IfOk};
ghost use Rattle.c_language.specs.Scopes as scopes;
ghost use Rattle.c_language.specs.Declares as spec;
ghost use Rattle.c_declares.specs.Views.{said_in, formed_in, type_said_in};

use crate::declarators::Formed;
use crate::said::Said;
use crate::types::{derived_from, formed_type};
use c_language::{CType, Fault, Rule};
use c_type_scope::Scope;
use plain_data::Items;
use std::alloc::{AllocError, Global};

/// What a type name says, apart from the scope behind it: the type, or the rule that it breaks, where its parts have
/// types.
#[derive(Drop)]
pub struct TypeSaid {
    pub ctype: Option<Result<CType, Rule>>,
    pub faults: Items<Fault>,
}

impl TypeSaid {
    /// The type name of these specifiers and this declarator. It fails for want of memory alone.
    pub fn new(
        alloc: Global,
        said: Said,
        formed: Formed,
        scope: &Scope,
    ) -> Result<TypeSaid, AllocError>
        ensures { (before : scopes.Scope) → IfOk result (λ t. type_said_in t scope.now ≡ spec.type_formed (said_in said before) (formed_in formed scope.now)) }
    {
        let ctype = said.specified(alloc)?;
        let Said { faults, .. } = said;
        let Formed {
            derivations,
            faults: more,
            ..
        } = formed;
        let mut faults = faults;
        faults.append(more)?;
        let derived = derived_from(derivations, &ctype)?;
        Ok(TypeSaid {
            ctype: formed_type(alloc, scope.tables(), derived)?,
            faults,
        })
    }
}
