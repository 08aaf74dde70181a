//! Ordinary names that declarations in expressions bring: enumeration constants and parameters.

ghost use Rattle.std.specs.Prelude.{◌≡◌, ◌++◌, OnOk};
ghost use Rattle.std.specs.Option.{option_copied};
ghost use Rattle.c_language.specs.Scopes as scopes;
ghost use Rattle.c_language.specs.Declares as spec;

use c_language::{Entry, Fault, Means, Name, Rule};
use c_type_scope::Scope;
use plain_data::{Items, Shared};
use std::alloc::{AllocError, Global};

/// Declares an ordinary name in the innermost block.
pub(crate) fn declare(
    alloc: Global,
    at: u32,
    name: &Name,
    means: Means,
    scope: &mut Scope,
) -> Result<(), AllocError>
    ensures { OnOk result (scope.new ≡ scopes.declared at name.now means scope.old) }
{
    let name = name.clone()?;
    let entry = Entry { at, name, means };
    scope.declare_entry(Shared::new(alloc, entry)?)
}

/// A name may be declared once in a block, where it has no linkage (C99 6.7p3).
pub(crate) fn add_duplicate(
    at: u32,
    own: Option<&Shared<Entry>>,
    faults: &mut Items<Fault>,
) -> Result<(), AllocError>
    ensures { OnOk result (faults.new ≡ faults.old ++ spec.duplicate_if at (option_copied own.entry)) }
{
    match own {
        Some(_) => faults.push(Fault {
            at,
            rule: Rule::DuplicateDefinition,
        }),
        None => Ok(()),
    }
}
