//! One declarator with its initializer (C99 6.7, 6.7.8).

ghost use Rattle.std.specs.Prelude.{◌≡◌, ◌++◌, [], cond, IfOk};
ghost use Rattle.c_language.specs.declared.scope.Rule.TheVariants as rule;
ghost use Rattle.c_language.specs.Typing.{fault_at};
ghost use Rattle.c_language.specs.Declares as forms;
ghost use Rattle.c_language.specs.Declarations as spec;
ghost use Rattle.c_language.specs.Trees as trees;
ghost use Rattle.c_language.specs.Units as units;
ghost use Rattle.c_declarations.specs.Beginnings as beginnings;
ghost use Rattle.c_declarations.specs.Views.{declared_in};

use crate::beginnings::{
    Begun, declared_filled, declared_first, declared_plainly, declared_unfilled, object_in,
};
use crate::completeness::faults_of_rule;
use c_declares::Formed;
use c_initials::{Filling, filling_of};
use c_language::{CType, Entry, Fault, Initializer, Name, Rule, StorageClass};
use c_type_scope::Scope;
use plain_data::{Items, Shared};
use std::alloc::{AllocError, Global};

/// What a declarator declares, apart from the scope behind it: the entry in force, where it has a name, and the rules
/// that it and its initializer break.
#[derive(Drop)]
pub struct Declared {
    pub entry: Option<Shared<Entry>>,
    pub faults: Items<Fault>,
}

/// The name as it is in force, behind these faults. It fails for want of memory alone.
pub(crate) fn declared_lastly(
    name: &Name,
    faults: Items<Fault>,
    scope: &Scope,
) -> Result<Declared, AllocError>
    ensures { IfOk result (λ x. declared_in x scope.now ≡ spec.declared_lastly name.now faults scope.now) }
{
    match scope.look_up(name.get().as_slice()) {
        Some(entry) => Ok(Declared {
            entry: Some(entry.clone()?),
            faults,
        }),
        None => Ok(Declared {
            entry: None,
            faults,
        }),
    }
}

/// The faults so far, and a rule that is broken behind them. It fails for want of memory alone.
pub(crate) fn with_rule(
    alloc: Global,
    at: u32,
    rule: Option<Rule>,
    faults: Items<Fault>,
) -> Result<Items<Fault>, AllocError>
    ensures { IfOk result (λ all. all ≡ faults ++ spec.faults_of_rule at rule) }
{
    let more = faults_of_rule(alloc, at, rule)?;
    let mut faults = faults;
    faults.append(more)?;
    Ok(faults)
}

/// The faults so far, and a second definition behind them, where this is one. It fails for want of memory alone.
pub(crate) fn with_definition(
    alloc: Global,
    at: u32,
    is_second: bool,
    faults: Items<Fault>,
) -> Result<Items<Fault>, AllocError>
    ensures { IfOk result (λ all. all ≡ faults ++ cond is_second (fault_at at rule.DuplicateDefinition) []) }
{
    let rule = if is_second {
        Some(Rule::DuplicateDefinition)
    } else {
        None
    };
    with_rule(alloc, at, rule, faults)
}

/// An object with its initializer, in which its name is in force already (C99 6.2.1p7).
fn with_initializer(
    alloc: Global,
    begun: Begun,
    initializer: &Initializer,
    scope: &mut Scope,
) -> Result<Declared, AllocError>
    ensures { IfOk result (λ x. declared_in x scope.new ≡ beginnings.filled_by (beginnings.begins_in begun scope.old) (units.initialises (units.initial_says initializer.now))) }
{
    match object_in(&begun)? {
        None => declared_unfilled(alloc, begun, scope),
        Some(ctype) => {
            let Filling { high, faults, .. } = filling_of(alloc, initializer, ctype, scope)?;
            declared_filled(alloc, begun, high, faults, scope)
        }
    }
}

/// What a declarator with its initializer declares behind specifiers of this storage class and type. It fails for want
/// of memory alone.
pub fn declares(
    alloc: Global,
    storage: Option<StorageClass>,
    specified: &Option<CType>,
    formed: Formed,
    initializer: &Option<Initializer>,
    scope: &mut Scope,
) -> Result<Declared, AllocError>
    ensures { IfOk result (λ x. declared_in x scope.new ≡ spec.declared_formed storage formed.name (forms.formed_type scope.old.tables (forms.derived_from formed.derivations specified.now)) (units.initial_if trees.typed initializer.now) formed.faults scope.old) }
{
    match initializer {
        None => {
            let begun = declared_first(alloc, storage, specified, formed, false, scope)?;
            declared_plainly(alloc, begun, scope)
        }
        Some(initializer) => {
            let begun = declared_first(alloc, storage, specified, formed, true, scope)?;
            with_initializer(alloc, begun, initializer, scope)
        }
    }
}
