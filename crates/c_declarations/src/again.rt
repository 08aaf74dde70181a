//! Declaring a name again (C99 6.7p3, p4, 6.2.7).

ghost use Rattle.std.specs.Prelude.{◌≡◌, IfOk};
ghost use Rattle.c_language.specs.Compatible.{composite};
ghost use Rattle.c_language.specs.Declarations as spec;

use crate::linkage::has_linkage;
use c_language::{CType, Means, Name, Tables};
use c_type_scope::Scope;
use plain_data::Shared;
use std::alloc::{AllocError, Global};

fn is_faulty(means: &Means) -> bool
    ensures { result ≡ spec.is_faulty means.now }
{
    match means {
        Means::Faulty => true,
        Means::Object { .. } => false,
        Means::Function { .. } => false,
        Means::Typedef { .. } => false,
        Means::Constant { .. } => false,
    }
}

fn shared_composite(
    alloc: Global,
    tables: &Tables,
    t: &CType,
    u: &CType,
) -> Result<Shared<CType>, AllocError>
    ensures { IfOk result (λ c. c ≡ composite tables.now t.now u.now) }
{
    let ctype = tables.composite(alloc, t, u)?;
    Shared::new(alloc, ctype)
}

/// Two declarations with linkage of one object or function have compatible types, and the later one the composite type
/// (C99 6.2.7p4): none where they aren't. It fails for want of memory alone.
fn linked_again(
    alloc: Global,
    tables: &Tables,
    old: &Means,
    new: &Means,
) -> Result<Option<Means>, AllocError>
    ensures { IfOk result (λ m. m ≡ spec.linked_again tables.now old.now new.now) }
{
    match (old, new) {
        (
            Means::Object { ctype: t, .. },
            Means::Object {
                ctype: u,
                duration,
                linkage,
            },
        ) => {
            if !tables.compatible(t.get(), u.get()) {
                return Ok(None);
            }
            let ctype = shared_composite(alloc, tables, t.get(), u.get())?;
            Ok(Some(Means::Object {
                ctype,
                duration: *duration,
                linkage: *linkage,
            }))
        }
        (Means::Function { ctype: t, .. }, Means::Function { ctype: u, linkage }) => {
            if !tables.compatible(t.get(), u.get()) {
                return Ok(None);
            }
            let ctype = shared_composite(alloc, tables, t.get(), u.get())?;
            Ok(Some(Means::Function {
                ctype,
                linkage: *linkage,
            }))
        }
        _ => Ok(None),
    }
}

/// In the block of the declaration before.
fn own_again(
    alloc: Global,
    tables: &Tables,
    old: &Means,
    new: Means,
) -> Result<Option<Means>, AllocError>
    ensures { IfOk result (λ m. m ≡ spec.own_again tables.now old.now new) }
{
    if is_faulty(old) {
        Ok(Some(new))
    } else if has_linkage(old) && has_linkage(&new) {
        linked_again(alloc, tables, old, &new)
    } else {
        Ok(None)
    }
}

/// In a block, a name with linkage is that of the file where the file declares an object or function of the name.
fn file_again(
    alloc: Global,
    tables: &Tables,
    old: &Means,
    new: Means,
) -> Result<Option<Means>, AllocError>
    ensures { IfOk result (λ m. m ≡ spec.file_again tables.now old.now new) }
{
    if has_linkage(old) && has_linkage(&new) {
        linked_again(alloc, tables, old, &new)
    } else {
        Ok(Some(new))
    }
}

/// What a name means behind a declaration, or none where it was declared otherwise. It fails for want of memory alone.
pub(crate) fn declared_again(
    alloc: Global,
    scope: &Scope,
    name: &Name,
    new: Means,
) -> Result<Option<Means>, AllocError>
    ensures { IfOk result (λ m. m ≡ spec.declared_again scope.now name.now new) }
{
    match scope.own_entry(name.get().as_slice()) {
        Some(own) => own_again(alloc, scope.tables(), &own.get().means, new),
        None => match scope.file_entry(name.get().as_slice()) {
            Some(entry) => file_again(alloc, scope.tables(), &entry.get().means, new),
            None => Ok(Some(new)),
        },
    }
}
