//! Declarations (C99 6.7): what they declare, with what is noted of them as items.

ghost use Rattle.std.specs.Prelude.{◌≡◌, [], ◌∷◌, not, map, option_map, IfOk, Some};
ghost use Rattle.c_language.specs.Scopes as scopes;
ghost use Rattle.c_language.specs.Declares as forms;
ghost use Rattle.c_language.specs.Declarations as says;
ghost use Rattle.c_declares.specs.Views.{formed_in, said_in};
ghost use Rattle.c_declarations.specs.Beginnings as beginnings;
ghost use Rattle.c_declarations.specs.Views.{declared_in};
ghost use Rattle.c_means.specs.Items.{typing};
ghost use Rattle.c_means.specs.Statements as statements;
ghost use Rattle.c_means.specs.Initials as runs;
ghost use Rattle.c_checks.specs.Refusals.{least_of};
ghost use Rattle.c_item_notes.specs.Levels.{judged};
ghost use Rattle.c_item_notes.specs.InitialTellings as initials;
ghost use Rattle.c_item_notes.specs.ItemTellings as spec;

use crate::hearing::Source;
use crate::initials::{FilledNotes, InitialNotes, filled_notes, no_notes};
use crate::items::{ItemNotes, LastingNote, both, breaking, nothing_noted};
use crate::sizes::bytes_of;
use c_checks::least_fault;
use c_declarations::{
    Begun, Declared, declared_filled, declared_first, declared_plainly, declared_unfilled,
    object_in,
};
use c_declares::{Formed, Said};
use c_initials::Filling;
use c_language::{
    CType, Declaration, Duration, Entry, InitDeclarator, Initializer, Linkage, Means, Name,
    StorageClass, Tables,
};
use c_type_scope::Scope;
use c_typing::{declarator, specifiers};
use plain_data::{Items, Shared};
use std::alloc::{AllocError, Global};

// ---- a declared name

/// The name of what is declared with linkage.
fn link(alloc: Global, name: &Name, linkage: Linkage) -> Result<Items<Name>, AllocError>
    ensures { IfOk result (λ names. names ≡ statements.link name.now linkage) }
{
    let mut names = Items::new(alloc);
    match linkage {
        Linkage::None => Ok(names),
        Linkage::Internal => {
            names.push(name.clone()?)?;
            Ok(names)
        }
        Linkage::External => {
            names.push(name.clone()?)?;
            Ok(names)
        }
    }
}

/// An object of a block (C99 6.2.4p5).
fn automatic(alloc: Global, initial: InitialNotes) -> ItemNotes
    ensures { result ≡ record spec.nothing_noted { calls = initial.calls; called = initial.called } }
{
    let InitialNotes { calls, called, .. } = initial;
    ItemNotes {
        breach: None,
        cases: Items::new(alloc),
        calls,
        called,
        lasting: Items::new(alloc),
        links: Items::new(alloc),
    }
}

/// An object with static storage duration (C99 6.2.4p3).
fn lasting(
    alloc: Global,
    at: u32,
    entry: &Shared<Entry>,
    size: u64,
    linkage: Linkage,
    is_defined: bool,
    initial: InitialNotes,
) -> Result<ItemNotes, AllocError>
    ensures { IfOk result (λ n. n ≡ record spec.nothing_noted { breach = initial.constant; calls = initial.calls; lasting = record { at = at; entry = entry.now; size = size; is_defined = is_defined } ∷ []; links = statements.link entry.now.name linkage }) }
{
    let links = link(alloc, &entry.get().name, linkage)?;
    let mut lasting = Items::new(alloc);
    lasting.push(LastingNote {
        at,
        entry: entry.clone()?,
        size,
        is_defined,
    })?;
    let InitialNotes {
        calls,
        constant,
        ..
    } = initial;
    Ok(ItemNotes {
        breach: constant,
        cases: Items::new(alloc),
        calls,
        called: Items::new(alloc),
        lasting,
        links,
    })
}

fn linked(alloc: Global, name: &Name) -> Result<ItemNotes, AllocError>
    ensures { IfOk result (λ n. n ≡ record spec.nothing_noted { links = name.now ∷ [] }) }
{
    let ItemNotes {
        breach,
        cases,
        calls,
        called,
        lasting,
        mut links,
    } = nothing_noted(alloc);
    links.push(name.clone()?)?;
    Ok(ItemNotes {
        breach,
        cases,
        calls,
        called,
        lasting,
        links,
    })
}

/// What is noted of a name that means this.
fn means_notes(
    alloc: Global,
    tables: &Tables,
    at: u32,
    entry: &Shared<Entry>,
    means: &Means,
    is_defined: bool,
    initial: InitialNotes,
) -> Result<ItemNotes, AllocError>
    ensures { IfOk result (λ n. n ≡ spec.means_notes at tables.now entry.now means.now is_defined initial) }
{
    match means {
        Means::Object {
            ctype,
            duration,
            linkage,
        } => match *duration {
            Duration::Automatic => Ok(automatic(alloc, initial)),
            Duration::Static => {
                let size = bytes_of(tables, ctype.get());
                lasting(alloc, at, entry, size, *linkage, is_defined, initial)
            }
        },
        Means::Function { .. } => linked(alloc, &entry.get().name),
        Means::Typedef { .. } => Ok(nothing_noted(alloc)),
        Means::Constant { .. } => Ok(nothing_noted(alloc)),
        Means::Faulty => Ok(nothing_noted(alloc)),
    }
}

fn entry_notes(
    alloc: Global,
    tables: &Tables,
    at: u32,
    entry: &Option<Shared<Entry>>,
    is_defined: bool,
    initial: InitialNotes,
) -> Result<ItemNotes, AllocError>
    ensures { IfOk result (λ n. n ≡ spec.entry_notes at tables.now entry.now is_defined initial) }
{
    match entry {
        None => Ok(nothing_noted(alloc)),
        Some(entry) => {
            let means = &entry.get().means;
            means_notes(alloc, tables, at, entry, means, is_defined, initial)
        }
    }
}

/// What is noted of a declarator with its initializer, from what it declares.
fn declared_notes(
    alloc: Global,
    at: u32,
    is_defined: bool,
    declared: Declared,
    initial: InitialNotes,
    scope: &Scope,
) -> Result<ItemNotes, AllocError>
    ensures { IfOk result (λ n. spec.summed_in n scope.now ≡ spec.declared_notes at is_defined (declared_in declared scope.now) initial) }
{
    let Declared { entry, faults } = declared;
    let notes = entry_notes(alloc, scope.tables(), at, &entry, is_defined, initial)?;
    Ok(breaking(least_fault(faults.as_slice()), notes))
}

// ---- a declarator with its initializer

fn is_extern(storage: Option<StorageClass>) -> bool
    ensures { result ≡ says.is_extern storage }
{
    matches!(storage, Some(StorageClass::Extern))
}

fn name_offset(formed: &Formed) -> u32
    ensures { result ≡ statements.name_offset formed.now.name }
{
    match &formed.name {
        None => 0,
        Some((at, _)) => *at,
    }
}

/// What is declared behind an initializer that fills the object so.
fn declared_with(
    alloc: Global,
    begun: Begun,
    filling: Filling,
    scope: &mut Scope,
) -> Result<Declared, AllocError>
    ensures { IfOk result (λ x. declared_in x scope.new ≡ beginnings.filled begun.named begun.faults (record { length = Some filling.high; faults = filling.faults; after = scope.old })) }
{
    let Filling { high, faults, .. } = filling;
    declared_filled(alloc, begun, high, faults, scope)
}

/// With an initializer, from what is in force in front of it (C99 6.2.1p7).
fn initialised(
    alloc: Global,
    source: &Source<'_>,
    at: u32,
    begun: Begun,
    initializer: &Initializer,
    scope: &mut Scope,
) -> Result<ItemNotes, AllocError>
    ensures { IfOk result (λ n. spec.summed_in n scope.new ≡ spec.summed (judged source.now) (spec.begun_item at (beginnings.begins_in begun scope.old) (runs.initially initializer.now))) }
{
    let object = object_in(&begun)?;
    match object {
        None => {
            let declared = declared_unfilled(alloc, begun, scope)?;
            declared_notes(alloc, at, true, declared, no_notes(alloc), scope)
        }
        Some(ctype) => {
            let found = filled_notes(alloc, source, initializer, ctype, scope)?;
            let FilledNotes { filling, notes } = found;
            let declared = declared_with(alloc, begun, filling, scope)?;
            declared_notes(alloc, at, true, declared, notes, scope)
        }
    }
}

fn plain(
    alloc: Global,
    at: u32,
    storage: Option<StorageClass>,
    begun: Begun,
    scope: &Scope,
) -> Result<ItemNotes, AllocError>
    ensures { IfOk result (λ n. spec.summed_in n scope.now ≡ spec.declared_notes at (not (says.is_extern storage)) (beginnings.plainly (beginnings.begins_in begun scope.now)) initials.no_notes) }
{
    let declared = declared_plainly(alloc, begun, scope)?;
    declared_notes(
        alloc,
        at,
        !is_extern(storage),
        declared,
        no_notes(alloc),
        scope,
    )
}

fn declarator_notes(
    alloc: Global,
    source: &Source<'_>,
    storage: Option<StorageClass>,
    specified: &Option<CType>,
    formed: Formed,
    initializer: &Option<Initializer>,
    scope: &mut Scope,
) -> Result<ItemNotes, AllocError>
    ensures { IfOk result (λ n. spec.summed_in n scope.new ≡ spec.summed (judged source.now) (spec.item_as storage specified.now (formed_in formed scope.old) (option_map runs.initially initializer.now))) }
{
    let at = name_offset(&formed);
    match initializer {
        None => {
            let begun = declared_first(alloc, storage, specified, formed, false, scope)?;
            plain(alloc, at, storage, begun, scope)
        }
        Some(initializer) => {
            let begun = declared_first(alloc, storage, specified, formed, true, scope)?;
            initialised(alloc, source, at, begun, initializer, scope)
        }
    }
}

// ---- a whole declaration

fn and_declarator(
    alloc: Global,
    source: &Source<'_>,
    storage: Option<StorageClass>,
    specified: &Option<CType>,
    item: &InitDeclarator,
    before: ItemNotes,
    scope: &mut Scope,
) -> Result<ItemNotes, AllocError>
    ensures { IfOk result (λ n. spec.summed_in n scope.new ≡ spec.and_item (judged source.now) (spec.summed_in before scope.old) (spec.item_as storage specified.now ((statements.declaring item.now).declarator scope.old) (statements.declaring item.now).initial)) }
{
    let formed = declarator(alloc, &item.declarator, scope)?;
    let notes = declarator_notes(
        alloc,
        source,
        storage,
        specified,
        formed,
        &item.initializer,
        scope,
    )?;
    both(before, notes)
}

fn each_declarator(
    alloc: Global,
    source: &Source<'_>,
    storage: Option<StorageClass>,
    specified: &Option<CType>,
    items: &[InitDeclarator],
    before: ItemNotes,
    scope: &mut Scope,
) -> Result<ItemNotes, AllocError>
    ensures { IfOk result (λ n. spec.summed_in n scope.new ≡ spec.items_from (judged source.now) storage specified.now (spec.summed_in before scope.old) (map statements.declaring items.now)) }
{
    let mut notes = before;
    for item in items {
        notes = and_declarator(alloc, source, storage, specified, item, notes, scope)?;
    }
    Ok(notes)
}

fn is_alone(items: &[InitDeclarator]) -> bool
    ensures { result ≡ statements.is_alone (map statements.declaring items.now) }
{
    match items.split_first() {
        None => true,
        Some(_) => false,
    }
}

/// The type that specifiers specify.
fn specified_by(alloc: Global, said: &Said) -> Result<Option<CType>, AllocError>
    ensures { IfOk result (λ t. t ≡ forms.specified (said_in said.now scopes.empty)) }
{
    said.specified(alloc)
}

fn behind_specifiers(alloc: Global, said: &Said) -> ItemNotes
    ensures { result ≡ spec.breaking (least_of (typing said.now.faults)) spec.nothing_noted }
{
    breaking(least_fault(said.faults.as_slice()), nothing_noted(alloc))
}

/// What is noted of a declaration, in a block or the file. It fails for want of memory alone.
pub fn declaration_notes(
    alloc: Global,
    source: &Source<'_>,
    declaration: &Declaration,
    scope: &mut Scope,
) -> Result<ItemNotes, AllocError>
    ensures { IfOk result (λ n. spec.summed_in n scope.new ≡ spec.summed (judged source.now) (statements.declaration declaration.now scope.old)) }
{
    let items = declaration.declarators.as_slice();
    let said = specifiers(
        alloc,
        declaration.specifiers.as_slice(),
        is_alone(items),
        scope,
    )?;
    let specified = specified_by(alloc, &said)?;
    let before = behind_specifiers(alloc, &said);
    each_declarator(
        alloc,
        source,
        said.storage,
        &specified,
        items,
        before,
        scope,
    )
}
