//! Declarations (C99 6.7), in a block or in the file: declarators from left to right, each in the scope that those
//! before it leave.
ghost use Rattle.std.specs.Prelude.{◌≡◌, ℕ, not, map, option_map, Some, None, IfOk};
ghost use Rattle.c_language.specs.Scopes as scopes;
ghost use Rattle.c_language.specs.Declares as forms;
ghost use Rattle.c_language.specs.Declarations as says;
ghost use Rattle.c_declares.specs.Views.{formed_in, said_in};
ghost use Rattle.c_declarations.specs.Beginnings as beginnings;
ghost use Rattle.c_declarations.specs.Views.{declared_in};
ghost use Rattle.c_item_notes.specs.ItemTellings.{item_as, begun_item};
ghost use Rattle.c_means.specs.Initials as runs;
ghost use Rattle.c_means.specs.Statements as statements;
ghost use Rattle.core_objects.specs.Begun.{IsBegun};
ghost use Rattle.core_declarations.specs.Items as spec;

use crate::initials::{Filled, initialised};
use c_declarations::{
    Begun as Fronted, Declared, declared_filled, declared_first, declared_plainly,
    declared_unfilled, object_in,
};
use c_declares::{Formed, Said};
use c_initials::Filling;
use c_language::{CType, Declaration, Duration, InitDeclarator, Initializer, Means, StorageClass};
use c_type_scope::Scope;
use c_typing::{declarator, specifiers};
use core_exprs::Callees;
use core_objects::{Begun, Initial, declared_object, joined, not_initialised, nothing_begun};
use plain_data::Shared;
use std::alloc::{AllocError, Global};

// ---- a declarator with its initializer

/// What a declarator declares, from what is said of it and what its initializer gives.
fn declared_name<C: Callees>(
    alloc: Global,
    callees: &C,
    is_defined: bool,
    declared: Declared,
    initial: Initial,
    scope: &Scope,
) -> Result<Begun, AllocError>
    ensures { (at : ℕ) (x : runs.Initial) → spec.IsInitialOf declared.entry (C.numbering callees.now) initial x → IfOk result (λ y. IsBegun (C.numbering callees.now) y (spec.declared_as at is_defined (declared_in declared scope.now) x) scope.now) }
{
    let Declared { entry, .. } = declared;
    match entry {
        None => Ok(nothing_begun(alloc)),
        Some(entry) => { declared_object(alloc, callees, entry.get(), is_defined, initial, scope) }
    }
}

fn is_extern(storage: Option<StorageClass>) -> bool
    ensures { result ≡ says.is_extern storage }
{
    matches!(storage, Some(StorageClass::Extern))
}

/// Whether an object that lives throughout the run is declared (C99 6.2.4p3).
fn lasts(front: &Fronted) -> bool
    ensures { result ≡ spec.lasts front.now.named }
{
    match &front.named {
        None => false,
        Some(named) => match &named.means {
            Means::Object { duration, .. } => *duration == Duration::Static,
            Means::Function { .. } => false,
            Means::Typedef { .. } => false,
            Means::Constant { .. } => false,
            Means::Faulty => false,
        },
    }
}

/// What is declared behind an initializer that fills the object so.
fn declared_with(
    alloc: Global,
    front: Fronted,
    filling: Filling,
    scope: &mut Scope,
) -> Result<Declared, AllocError>
    ensures { IfOk result (λ x. declared_in x scope.new ≡ beginnings.filled front.named front.faults (record { length = Some filling.high; faults = filling.faults; after = scope.old })) }
{
    let Filling { high, faults, .. } = filling;
    declared_filled(alloc, front, high, faults, scope)
}

/// An object with an initializer that fills it.
fn with_object<C: Callees>(
    alloc: Global,
    callees: &C,
    front: Fronted,
    initializer: &Initializer,
    ctype: Shared<CType>,
    scope: &mut Scope,
) -> Result<Begun, AllocError>
    ensures { (at : ℕ) → beginnings.object_of front.named ≡ Some ctype → IfOk result (λ y. IsBegun (C.numbering callees.now) y (begun_item at (beginnings.begins_in front scope.old) (runs.initially initializer.now)) scope.new) }
{
    let lasts = lasts(&front);
    let filled = initialised(alloc, callees, lasts, initializer, ctype, scope)?;
    let Filled { filling, initial } = filled;
    let declared = declared_with(alloc, front, filling, scope)?;
    declared_name(alloc, callees, true, declared, initial, scope)
}

/// What is no object, with an initializer: nothing is initialised (C99 6.7.8p3).
fn with_nothing<C: Callees>(
    alloc: Global,
    callees: &C,
    front: Fronted,
    scope: &mut Scope,
) -> Result<Begun, AllocError>
    ensures { (at : ℕ) (i : runs.Initially) → beginnings.object_of front.named ≡ None → IfOk result (λ y. IsBegun (C.numbering callees.now) y (begun_item at (beginnings.begins_in front scope.old) i) scope.new) }
{
    let declared = declared_unfilled(alloc, front, scope)?;
    declared_name(
        alloc,
        callees,
        true,
        declared,
        not_initialised(alloc),
        scope,
    )
}

/// With an initializer, from what is in force in front of it (C99 6.2.1p7).
fn with_initializer<C: Callees>(
    alloc: Global,
    callees: &C,
    front: Fronted,
    initializer: &Initializer,
    scope: &mut Scope,
) -> Result<Begun, AllocError>
    ensures { (at : ℕ) → IfOk result (λ y. IsBegun (C.numbering callees.now) y (begun_item at (beginnings.begins_in front scope.old) (runs.initially initializer.now)) scope.new) }
{
    let object = object_in(&front)?;
    match object {
        None => with_nothing(alloc, callees, front, scope),
        Some(ctype) => with_object(alloc, callees, front, initializer, ctype, scope),
    }
}

fn without_initializer<C: Callees>(
    alloc: Global,
    callees: &C,
    storage: Option<StorageClass>,
    front: Fronted,
    scope: &Scope,
) -> Result<Begun, AllocError>
    ensures { (at : ℕ) → IfOk result (λ y. IsBegun (C.numbering callees.now) y (spec.declared_as at (not (says.is_extern storage)) (beginnings.plainly (beginnings.begins_in front scope.now)) runs.uninitialised) scope.now) }
{
    let declared = declared_plainly(alloc, front, scope)?;
    declared_name(
        alloc,
        callees,
        !is_extern(storage),
        declared,
        not_initialised(alloc),
        scope,
    )
}

fn one_declarator<C: Callees>(
    alloc: Global,
    callees: &C,
    storage: Option<StorageClass>,
    specified: &Option<CType>,
    formed: Formed,
    initializer: &Option<Initializer>,
    scope: &mut Scope,
) -> Result<Begun, AllocError>
    ensures { IfOk result (λ y. IsBegun (C.numbering callees.now) y (item_as storage specified.now (formed_in formed scope.old) (option_map runs.initially initializer.now)) scope.new) }
{
    match initializer {
        None => {
            let front = declared_first(alloc, storage, specified, formed, false, scope)?;
            without_initializer(alloc, callees, storage, front, scope)
        }
        Some(initializer) => {
            let front = declared_first(alloc, storage, specified, formed, true, scope)?;
            with_initializer(alloc, callees, front, initializer, scope)
        }
    }
}

// ---- a whole declaration

fn and_declarator<C: Callees>(
    alloc: Global,
    callees: &C,
    storage: Option<StorageClass>,
    specified: &Option<CType>,
    item: &InitDeclarator,
    before: Begun,
    scope: &mut Scope,
) -> Result<Begun, AllocError>
    ensures { IfOk result (λ y. spec.AndItem (C.numbering callees.now) before (item_as storage specified.now ((statements.declaring item.now).declarator scope.old) (statements.declaring item.now).initial) y scope.new) }
{
    let formed = declarator(alloc, &item.declarator, scope)?;
    let one = one_declarator(
        alloc,
        callees,
        storage,
        specified,
        formed,
        &item.initializer,
        scope,
    )?;
    joined(before, one)
}

fn each_declarator<C: Callees>(
    alloc: Global,
    callees: &C,
    storage: Option<StorageClass>,
    specified: &Option<CType>,
    items: &[InitDeclarator],
    scope: &mut Scope,
) -> Result<Begun, AllocError>
    ensures { IfOk result (λ y. IsBegun (C.numbering callees.now) y (spec.items_by storage specified.now (map statements.declaring items.now) scope.old) scope.new) }
{
    let mut begun = nothing_begun(alloc);
    for item in items {
        begun = and_declarator(alloc, callees, storage, specified, item, begun, scope)?;
    }
    Ok(begun)
}

fn is_alone(items: &[InitDeclarator]) -> bool
    ensures { result ≡ statements.is_alone (map statements.declaring items.now) }
{
    match items.split_first() {
        None => true,
        Some(_) => false,
    }
}

/// The type that specifiers specify.
fn specified_by(alloc: Global, said: &Said) -> Result<Option<CType>, AllocError>
    ensures { IfOk result (λ t. t ≡ forms.specified (said_in said.now scopes.empty)) }
{
    said.specified(alloc)
}

/// The core of a declaration, in a block or in the file (C99 6.7, 6.2.4). It fails for want of memory alone.
pub fn declaration<C: Callees>(
    alloc: Global,
    callees: &C,
    declaration: &Declaration,
    scope: &mut Scope,
) -> Result<Begun, AllocError>
    ensures { IfOk result (λ y. IsBegun (C.numbering callees.now) y (statements.declaration declaration.now scope.old) scope.new) }
{
    let items = declaration.declarators.as_slice();
    let said = specifiers(
        alloc,
        declaration.specifiers.as_slice(),
        is_alone(items),
        scope,
    )?;
    let specified = specified_by(alloc, &said)?;
    each_declarator(alloc, callees, said.storage, &specified, items, scope)
}
