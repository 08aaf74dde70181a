//! What a declarator declares (C99 6.7.1), its linkage (C99 6.2.2) and its storage duration (C99 6.2.4).

ghost use Rattle.std.specs.Prelude.{◌≡◌, IfOk, OnOk};
ghost use Rattle.std.specs.Option.{option_copied};
ghost use Rattle.c_language.specs.Scopes as scopes;
ghost use Rattle.c_language.specs.Declarations as spec;

use c_language::{CType, Duration, Entry, Linkage, Linked, Means, Name, StorageClass};
use c_type_forms::is_function;
use c_type_scope::Scope;
use plain_data::Shared;
use std::alloc::{AllocError, Global};

fn is_typedef(storage: Option<StorageClass>) -> bool
    ensures { result ≡ spec.is_typedef storage }
{
    matches!(storage, Some(StorageClass::Typedef))
}

fn is_static(storage: Option<StorageClass>) -> bool
    ensures { result ≡ spec.is_static storage }
{
    matches!(storage, Some(StorageClass::Static))
}

fn is_extern(storage: Option<StorageClass>) -> bool
    ensures { result ≡ spec.is_extern storage }
{
    matches!(storage, Some(StorageClass::Extern))
}

/// The linkage of what a name means.
pub(crate) fn linkage_meant(means: &Means) -> Linkage
    ensures { result ≡ spec.linkage_meant means.now }
{
    match means {
        Means::Object { linkage, .. } => *linkage,
        Means::Function { linkage, .. } => *linkage,
        Means::Typedef { .. } => Linkage::None,
        Means::Constant { .. } => Linkage::None,
        Means::Faulty => Linkage::None,
    }
}

/// Whether what a name means has linkage.
pub(crate) fn has_linkage(means: &Means) -> bool
    ensures { result ≡ spec.has_linkage means.now }
{
    match means {
        Means::Object { linkage, .. } => match *linkage {
            Linkage::None => false,
            Linkage::Internal => true,
            Linkage::External => true,
        },
        Means::Function { .. } => true,
        Means::Typedef { .. } => false,
        Means::Constant { .. } => false,
        Means::Faulty => false,
    }
}

fn or_external(linkage: Linkage) -> Linkage
    ensures { result ≡ spec.or_external linkage }
{
    match linkage {
        Linkage::None => Linkage::External,
        Linkage::Internal => Linkage::Internal,
        Linkage::External => Linkage::External,
    }
}

/// The linkage of the declaration in force, where there is one with linkage, else external (C99 6.2.2p4).
fn prior_linkage(prior: Option<&Shared<Entry>>) -> Linkage
    ensures { result ≡ spec.prior_linkage (option_copied prior.entry) }
{
    match prior {
        None => Linkage::External,
        Some(entry) => or_external(linkage_meant(&entry.get().means)),
    }
}

/// C99 6.2.2p3 to p6.
fn linkage_by(
    in_file: bool,
    storage: Option<StorageClass>,
    function: bool,
    prior: Option<&Shared<Entry>>,
) -> Linkage
    ensures { result ≡ spec.linkage_by in_file storage function (option_copied prior.entry) }
{
    if in_file && is_static(storage) {
        Linkage::Internal
    } else if function || is_extern(storage) {
        prior_linkage(prior)
    } else if in_file {
        Linkage::External
    } else {
        Linkage::None
    }
}

fn duration_by(storage: Option<StorageClass>, linkage: Linkage) -> Duration
    ensures { result ≡ spec.duration_by storage linkage }
{
    match linkage {
        Linkage::None => {
            if is_static(storage) {
                Duration::Static
            } else {
                Duration::Automatic
            }
        }
        Linkage::Internal => Duration::Static,
        Linkage::External => Duration::Static,
    }
}

/// What a name of this type means that is declared with this storage-class specifier.
pub(crate) fn means_of(
    storage: Option<StorageClass>,
    ctype: Shared<CType>,
    scope: &Scope,
    name: &Name,
) -> Means
    ensures { result ≡ spec.means_of storage ctype scope.now name.now }
{
    if is_typedef(storage) {
        return Means::Typedef { ctype };
    }
    let prior = scope.look_up(name.get().as_slice());
    if is_function(ctype.get()) {
        let linkage = linkage_by(scope.in_file(), storage, true, prior);
        Means::Function { ctype, linkage }
    } else {
        let linkage = linkage_by(scope.in_file(), storage, false, prior);
        Means::Object {
            ctype,
            duration: duration_by(storage, linkage),
            linkage,
        }
    }
}

/// The same meaning once more. It fails for want of memory alone.
pub(crate) fn copied(means: &Means) -> Result<Means, AllocError>
    ensures { IfOk result (λ m. m ≡ means.now) }
{
    match means {
        Means::Object {
            ctype,
            duration,
            linkage,
        } => Ok(Means::Object {
            ctype: ctype.clone()?,
            duration: *duration,
            linkage: *linkage,
        }),
        Means::Function { ctype, linkage } => Ok(Means::Function {
            ctype: ctype.clone()?,
            linkage: *linkage,
        }),
        Means::Typedef { ctype } => Ok(Means::Typedef {
            ctype: ctype.clone()?,
        }),
        Means::Constant { value } => Ok(Means::Constant { value: *value }),
        Means::Faulty => Ok(Means::Faulty),
    }
}

/// Declares a name in the innermost block. It fails for want of memory alone.
pub(crate) fn declare(
    alloc: Global,
    at: u32,
    name: &Name,
    means: Means,
    scope: &mut Scope,
) -> Result<(), AllocError>
    ensures { OnOk result (scope.new ≡ scopes.declared at name.now means scope.old) }
{
    let name = name.clone()?;
    let entry = Shared::new(alloc, Entry { at, name, means })?;
    scope.declare_entry(entry)
}

fn first_at(at: u32, linked: Option<&Shared<Linked>>) -> u32
    ensures { result ≡ spec.first_at at (option_copied linked.entry) }
{
    match linked {
        None => at,
        Some(linked) => linked.get().at,
    }
}

fn was_defined(linked: Option<&Shared<Linked>>) -> bool
    ensures { result ≡ spec.was_defined (option_copied linked.entry) }
{
    match linked {
        None => false,
        Some(linked) => linked.get().is_defined,
    }
}

/// Declares the name of an object or function with linkage, by the offset of its first declaration, which is noted with
/// whether it has a definition.
fn declares_linked(
    alloc: Global,
    first: u32,
    name: &Name,
    means: Means,
    is_defined: bool,
    scope: &mut Scope,
) -> Result<(), AllocError>
    ensures { OnOk result (scope.new ≡ scopes.with_linked first name.now (spec.linkage_meant means) is_defined (scopes.declared first name.now means scope.old)) }
{
    let linkage = linkage_meant(&means);
    declare(alloc, first, name, means, scope)?;
    let name = name.clone()?;
    let linked = Linked {
        at: first,
        name,
        linkage,
        is_defined,
    };
    scope.note_linked(Shared::new(alloc, linked)?)
}

/// Declares a name; with linkage, it stands at the offset of its first declaration. It fails for want of memory alone.
pub(crate) fn declares_name(
    alloc: Global,
    at: u32,
    name: &Name,
    means: Means,
    defines: bool,
    scope: &mut Scope,
) -> Result<(), AllocError>
    ensures { OnOk result (scope.new ≡ spec.declares_name at name.now means defines scope.old) }
{
    if !has_linkage(&means) {
        return declare(alloc, at, name, means, scope);
    }
    let linked = scope.linked_as(name.get().as_slice());
    let first = first_at(at, linked);
    let is_defined = defines || was_defined(linked);
    declares_linked(alloc, first, name, means, is_defined, scope)
}

/// Whether this is a second definition of an object or function (C99 6.9p3, p5).
pub(crate) fn twice_defined(means: &Means, defines: bool, linked: Option<&Shared<Linked>>) -> bool
    ensures { result ≡ spec.twice_defined means.now defines (option_copied linked.entry) }
{
    has_linkage(means) && defines && was_defined(linked)
}
