//! A declarator in front of its initializer, where its name is in force already (C99 6.2.1p7), and behind it (C99 6.7,
//! 6.7.8): whoever reads the initializer does so between the two.

ghost use Rattle.std.specs.Prelude.{◌≡◌, [], None, Some, IfOk};
ghost use Rattle.c_language.specs.declared.scope.Means.TheVariants as means_;
ghost use Rattle.c_language.specs.Scopes as scopes;
ghost use Rattle.c_language.specs.Declarations as says;
ghost use Rattle.c_language.specs.Declares as forms;
ghost use Rattle.c_declarations.specs.Beginnings as spec;
ghost use Rattle.c_declarations.specs.Views.{declared_in};

use crate::again::declared_again;
use crate::completeness::{complete_fault, completed_by, may_be_initialised, object_type};
use crate::declarators::{Declared, declared_lastly, with_definition, with_rule};
use crate::linkage::{copied, declare, declares_name, means_of, twice_defined};
use c_declares::{Formed, derived_from, formed_type};
use c_language::{CType, Fault, Means, Name, Rule, StorageClass};
use c_type_scope::Scope;
use plain_data::{Items, Shared};
use std::alloc::{AllocError, Global};

/// A declared name by the offset of its declarator, with what it means so far.
#[derive(Drop)]
pub struct NamedMeans {
    pub at: u32,
    pub name: Name,
    pub means: Means,
}

/// What a declarator declares in front of its initializer, apart from the scope, where it has a name; and the rules
/// that are broken so far.
#[derive(Drop)]
pub struct Begun {
    pub named: Option<NamedMeans>,
    pub faults: Items<Fault>,
}

/// The rules that are broken so far, with that an object alone is initialised. It fails for want of memory alone.
fn may_fill(
    alloc: Global,
    at: u32,
    initialised: bool,
    scope: &Scope,
    means: &Means,
    faults: Items<Fault>,
) -> Result<Items<Fault>, AllocError>
    ensures { IfOk result (λ all. all ≡ spec.may_fill at initialised scope.now means.now faults) }
{
    if !initialised {
        return Ok(faults);
    }
    let rule = if may_be_initialised(scope.in_file(), means) {
        None
    } else {
        Some(Rule::TypeMismatch)
    };
    with_rule(alloc, at, rule, faults)
}

fn begun_as(
    alloc: Global,
    at: u32,
    name: Name,
    initialised: bool,
    means: Means,
    faults: Items<Fault>,
    scope: &Scope,
) -> Result<Begun, AllocError>
    ensures { IfOk result (λ x. spec.begins_in x scope.now ≡ spec.begun_as at name initialised means faults scope.now) }
{
    let faults = may_fill(alloc, at, initialised, scope, &means, faults)?;
    Ok(Begun {
        named: Some(NamedMeans { at, name, means }),
        faults,
    })
}

/// A name of which nothing is known. It fails for want of memory alone.
fn begun_faulty(
    alloc: Global,
    at: u32,
    name: Name,
    initialised: bool,
    faults: Items<Fault>,
    scope: &mut Scope,
) -> Result<Begun, AllocError>
    ensures { IfOk result (λ x. spec.begins_in x scope.new ≡ spec.begun_as at name initialised means_.Faulty faults (scopes.declared at name means_.Faulty scope.old)) }
{
    declare(alloc, at, &name, Means::Faulty, scope)?;
    begun_as(alloc, at, name, initialised, Means::Faulty, faults, scope)
}

fn begun_known(
    alloc: Global,
    at: u32,
    name: Name,
    initialised: bool,
    means: Means,
    faults: Items<Fault>,
    scope: &mut Scope,
) -> Result<Begun, AllocError>
    ensures { IfOk result (λ x. spec.begins_in x scope.new ≡ spec.begun_again at name initialised (Some means) faults scope.old) }
{
    let linked = scope.linked_as(name.get().as_slice());
    let is_second = twice_defined(&means, initialised, linked);
    let faults = with_definition(alloc, at, is_second, faults)?;
    let first = copied(&means)?;
    declares_name(alloc, at, &name, first, false, scope)?;
    begun_as(alloc, at, name, initialised, means, faults, scope)
}

fn begun_again(
    alloc: Global,
    at: u32,
    name: Name,
    initialised: bool,
    again: Option<Means>,
    faults: Items<Fault>,
    scope: &mut Scope,
) -> Result<Begun, AllocError>
    ensures { IfOk result (λ x. spec.begins_in x scope.new ≡ spec.begun_again at name initialised again faults scope.old) }
{
    match again {
        Some(means) => begun_known(alloc, at, name, initialised, means, faults, scope),
        None => {
            let faults = with_rule(alloc, at, Some(Rule::DuplicateDefinition), faults)?;
            begun_faulty(alloc, at, name, initialised, faults, scope)
        }
    }
}

fn begun_type(
    alloc: Global,
    storage: Option<StorageClass>,
    at: u32,
    name: Name,
    initialised: bool,
    ctype: CType,
    faults: Items<Fault>,
    scope: &mut Scope,
) -> Result<Begun, AllocError>
    ensures { IfOk result (λ x. spec.begins_in x scope.new ≡ spec.begun_type storage at name initialised (Some ctype) faults scope.old) }
{
    let ctype = Shared::new(alloc, ctype)?;
    let means = means_of(storage, ctype, scope, &name);
    let again = declared_again(alloc, scope, &name, means)?;
    begun_again(alloc, at, name, initialised, again, faults, scope)
}

/// A name with its type, or with the rule that its type breaks.
fn begun_named(
    alloc: Global,
    storage: Option<StorageClass>,
    at: u32,
    name: Name,
    ctype: Option<Result<CType, Rule>>,
    initialised: bool,
    faults: Items<Fault>,
    scope: &mut Scope,
) -> Result<Begun, AllocError>
    ensures { IfOk result (λ x. spec.begins_in x scope.new ≡ spec.begun storage (Some (record { 0 = at; 1 = name })) ctype initialised faults scope.old) }
{
    match ctype {
        Some(Ok(ctype)) => begun_type(alloc, storage, at, name, initialised, ctype, faults, scope),
        Some(Err(rule)) => {
            let faults = with_rule(alloc, at, Some(rule), faults)?;
            begun_faulty(alloc, at, name, initialised, faults, scope)
        }
        None => begun_faulty(alloc, at, name, initialised, faults, scope),
    }
}

/// What a declarator declares behind specifiers of this storage class and type, in front of an initializer where one
/// follows. It fails for want of memory alone.
pub fn declared_first(
    alloc: Global,
    storage: Option<StorageClass>,
    specified: &Option<CType>,
    formed: Formed,
    initialised: bool,
    scope: &mut Scope,
) -> Result<Begun, AllocError>
    ensures { IfOk result (λ x. spec.begins_in x scope.new ≡ spec.begun storage formed.name (forms.formed_type scope.old.tables (forms.derived_from formed.derivations specified.now)) initialised formed.faults scope.old) }
{
    let Formed {
        name,
        derivations,
        faults,
        ..
    } = formed;
    let derived = derived_from(derivations, specified)?;
    let ctype = formed_type(alloc, scope.tables(), derived)?;
    match name {
        None => Ok(Begun {
            named: None,
            faults,
        }),
        Some((at, name)) => begun_named(
            alloc,
            storage,
            at,
            name,
            ctype,
            initialised,
            faults,
            scope,
        ),
    }
}

/// The type of the object that an initializer fills, where one is declared. It fails for want of memory alone.
pub fn object_in(begun: &Begun) -> Result<Option<Shared<CType>>, AllocError>
    ensures { IfOk result (λ t. t ≡ spec.object_of begun.now.named) }
{
    match &begun.named {
        None => Ok(None),
        Some(named) => match object_type(&named.means) {
            None => Ok(None),
            Some(ctype) => Ok(Some(ctype.clone()?)),
        },
    }
}

/// What is declared without an initializer. It fails for want of memory alone.
pub fn declared_plainly(alloc: Global, begun: Begun, scope: &Scope) -> Result<Declared, AllocError>
    ensures { IfOk result (λ x. declared_in x scope.now ≡ spec.plainly (spec.begins_in begun scope.now)) }
{
    let Begun { named, faults } = begun;
    match named {
        None => Ok(Declared {
            entry: None,
            faults,
        }),
        Some(NamedMeans { at, name, means }) => {
            let rule = complete_fault(scope.tables(), false, &means);
            let faults = with_rule(alloc, at, rule, faults)?;
            declared_lastly(&name, faults, scope)
        }
    }
}

/// The completed type is in force behind the initializer.
fn declared_completely(
    alloc: Global,
    at: u32,
    name: Name,
    means: Means,
    faults: Items<Fault>,
    scope: &mut Scope,
) -> Result<Declared, AllocError>
    ensures { IfOk result (λ x. declared_in x scope.new ≡ says.declared_completely at name means faults scope.old) }
{
    let rule = complete_fault(scope.tables(), true, &means);
    let faults = with_rule(alloc, at, rule, faults)?;
    declares_name(alloc, at, &name, means, true, scope)?;
    declared_lastly(&name, faults, scope)
}

/// What is declared behind an initializer that gives an array of unknown length this length and breaks these rules. It
/// fails for want of memory alone.
pub fn declared_filled(
    alloc: Global,
    begun: Begun,
    length: u64,
    more: Items<Fault>,
    scope: &mut Scope,
) -> Result<Declared, AllocError>
    ensures { IfOk result (λ x. declared_in x scope.new ≡ spec.filled begun.named begun.faults (record { length = Some length; faults = more; after = scope.old })) }
{
    let Begun { named, faults } = begun;
    match named {
        None => Ok(Declared {
            entry: None,
            faults,
        }),
        Some(NamedMeans { at, name, means }) => {
            let mut faults = faults;
            faults.append(more)?;
            let means = completed_by(alloc, length, means)?;
            declared_completely(alloc, at, name, means, faults, scope)
        }
    }
}

/// What is declared with an initializer that fills no object. It fails for want of memory alone.
#[tactic(auto, using(crate::proofs::BegunLaws::unfilled_is))]
pub fn declared_unfilled(
    alloc: Global,
    begun: Begun,
    scope: &mut Scope,
) -> Result<Declared, AllocError>
    ensures { IfOk result (λ x. declared_in x scope.new ≡ spec.filled begun.named begun.faults (record { length = None; faults = []; after = scope.old })) }
{
    let Begun { named, faults } = begun;
    match named {
        None => Ok(Declared {
            entry: None,
            faults,
        }),
        Some(NamedMeans { at, name, means }) => {
            declared_completely(alloc, at, name, means, faults, scope)
        }
    }
}
