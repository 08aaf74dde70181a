//! Whole declarations (C99 6.7).

ghost use Rattle.std.specs.Prelude.{◌≡◌, map, IfOk};
ghost use Rattle.c_language.specs.Scopes as scopes;
ghost use Rattle.c_language.specs.Declares as forms;
ghost use Rattle.c_language.specs.Declarations as spec;
ghost use Rattle.c_language.specs.Units as units;
ghost use Rattle.c_declares.specs.Views.{said_in};
ghost use Rattle.c_declarations.specs.Views as views;

use crate::declarators::{Declared, declares};
use c_declares::Said;
use c_language::{CType, Declaration, Entry, Fault, InitDeclarator, StorageClass};
use c_type_scope::Scope;
use c_typing::{declarator, specifiers};
use plain_data::{Items, Shared};
use std::alloc::{AllocError, Global};

/// What a declaration declares, apart from the scope behind it: the entries of its declarators, in order, and the rules
/// that are broken.
#[derive(Drop)]
pub struct DeclarationSaid {
    pub entries: Items<Shared<Entry>>,
    pub faults: Items<Fault>,
}

fn with_entry_of(
    entries: Items<Shared<Entry>>,
    entry: Option<Shared<Entry>>,
) -> Result<Items<Shared<Entry>>, AllocError>
    ensures { IfOk result (λ all. all ≡ spec.with_entry_of entries entry) }
{
    match entry {
        None => Ok(entries),
        Some(entry) => {
            let mut entries = entries;
            entries.push(entry)?;
            Ok(entries)
        }
    }
}

/// One more declarator with its initializer.
fn and_declared(
    alloc: Global,
    storage: Option<StorageClass>,
    specified: &Option<CType>,
    item: &InitDeclarator,
    found: DeclarationSaid,
    scope: &mut Scope,
) -> Result<DeclarationSaid, AllocError>
    ensures { IfOk result (λ x. views.declares_in x scope.new ≡ spec.and_declared (views.declares_in found scope.old) (views.declares_as storage specified.now ((views.item_of item.now).declarator scope.old) (views.item_of item.now).initial)) }
{
    let formed = declarator(alloc, &item.declarator, scope)?;
    let declared = declares(alloc, storage, specified, formed, &item.initializer, scope)?;
    let Declared {
        entry,
        faults: more,
    } = declared;
    let DeclarationSaid { entries, faults } = found;
    let entries = with_entry_of(entries, entry)?;
    let mut faults = faults;
    faults.append(more)?;
    Ok(DeclarationSaid { entries, faults })
}

fn each_declarator(
    alloc: Global,
    storage: Option<StorageClass>,
    specified: &Option<CType>,
    items: &[InitDeclarator],
    found: DeclarationSaid,
    scope: &mut Scope,
) -> Result<DeclarationSaid, AllocError>
    ensures { IfOk result (λ x. views.declares_in x scope.new ≡ views.each_as storage specified.now (views.declares_in found scope.old) (map views.item_of items.now)) }
{
    let mut found = found;
    for item in items {
        found = and_declared(alloc, storage, specified, item, found, scope)?;
    }
    Ok(found)
}

/// The type that specifiers specify.
pub(crate) fn specified_by(alloc: Global, said: &Said) -> Result<Option<CType>, AllocError>
    ensures { IfOk result (λ t. t ≡ forms.specified (said_in said.now scopes.empty)) }
{
    said.specified(alloc)
}

/// Whether no declarator follows the specifiers.
fn is_alone(items: &[InitDeclarator]) -> bool
    ensures { result ≡ spec.is_alone (map views.item_of items.now) }
{
    match items.split_first() {
        None => true,
        Some(_) => false,
    }
}

/// What a declaration declares in a scope, and the rules that it breaks. It fails for want of memory alone.
pub fn declaration_says(
    alloc: Global,
    declaration: &Declaration,
    scope: &mut Scope,
) -> Result<DeclarationSaid, AllocError>
    ensures { IfOk result (λ x. views.declares_in x scope.new ≡ units.declaration_says declaration.now scope.old) }
{
    let items = declaration.declarators.as_slice();
    let said = specifiers(
        alloc,
        declaration.specifiers.as_slice(),
        is_alone(items),
        scope,
    )?;
    let specified = specified_by(alloc, &said)?;
    let found = DeclarationSaid {
        entries: Items::new(alloc),
        faults: said.faults,
    };
    each_declarator(alloc, said.storage, &specified, items, found, scope)
}
