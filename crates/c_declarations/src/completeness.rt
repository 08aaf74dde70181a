//! Whether a declared object has a type whose size is known (C99 6.7p7), and the length that an initializer gives (C99
//! 6.7.8p22).

ghost use Rattle.std.specs.Prelude.{◌≡◌, IfOk, Some};
ghost use Rattle.c_language.specs.declared.scope.Linkage.TheVariants as linkage;
ghost use Rattle.std.specs.Option.{option_copied};
ghost use Rattle.c_language.specs.Declarations as spec;

use c_language::{CType, Derivation, Fault, LayoutRule, Linkage, Means, Rule, Tables};
use c_type_forms::{has_size, one_fault};
use plain_data::{Items, Shared};
use std::alloc::{AllocError, Global};

/// The rule that a type without size breaks where one is wanted.
pub(crate) const INCOMPLETE: Rule = Rule::Layout(LayoutRule::Incomplete);

const TOO_LARGE: Rule = Rule::Layout(LayoutRule::ObjectTooLarge);

fn size_fault(tables: &Tables, ctype: &CType) -> Option<Rule>
    ensures { result ≡ spec.size_fault tables.now ctype.now }
{
    if tables.is_too_large(ctype) {
        Some(TOO_LARGE)
    } else if has_size(tables, ctype) {
        None
    } else {
        Some(INCOMPLETE)
    }
}

fn limit_fault(tables: &Tables, ctype: &CType) -> Option<Rule>
    ensures { result ≡ spec.limit_fault tables.now ctype.now }
{
    if tables.is_too_large(ctype) {
        Some(TOO_LARGE)
    } else {
        None
    }
}

fn object_fault(tables: &Tables, initialised: bool, ctype: &CType, link: Linkage) -> Option<Rule>
    ensures { result ≡ spec.object_fault tables.now initialised ctype.now link }
{
    match link {
        Linkage::None => size_fault(tables, ctype),
        Linkage::Internal => linked_fault(tables, initialised, ctype),
        Linkage::External => linked_fault(tables, initialised, ctype),
    }
}

fn linked_fault(tables: &Tables, initialised: bool, ctype: &CType) -> Option<Rule>
    ensures { result ≡ spec.object_fault tables.now initialised ctype.now linkage.External }
{
    if initialised {
        size_fault(tables, ctype)
    } else {
        limit_fault(tables, ctype)
    }
}

/// The rule on sizes that a declared object breaks: one without linkage, and one with an initializer, has a type whose
/// size is known.
pub(crate) fn complete_fault(tables: &Tables, initialised: bool, means: &Means) -> Option<Rule>
    ensures { result ≡ spec.complete_fault tables.now initialised means.now }
{
    match means {
        Means::Object { ctype, linkage, .. } => object_fault(
            tables,
            initialised,
            ctype.get(),
            *linkage,
        ),
        Means::Function { .. } => None,
        Means::Typedef { .. } => None,
        Means::Constant { .. } => None,
        Means::Faulty => None,
    }
}

/// A rule that is broken here, where there is one. It fails for want of memory alone.
pub(crate) fn faults_of_rule(
    alloc: Global,
    at: u32,
    rule: Option<Rule>,
) -> Result<Items<Fault>, AllocError>
    ensures { IfOk result (λ faults. faults ≡ spec.faults_of_rule at rule) }
{
    match rule {
        None => Ok(Items::new(alloc)),
        Some(rule) => one_fault(alloc, at, rule),
    }
}

/// An array of unknown length with a length (C99 6.7.8p22); any other type as it is. It fails for want of memory alone.
pub(crate) fn with_length(
    alloc: Global,
    length: u64,
    ctype: &Shared<CType>,
) -> Result<Shared<CType>, AllocError>
    ensures { IfOk result (λ t. t ≡ spec.with_length (Some length) ctype.now ctype.now.derivations) }
{
    match ctype.get().derivations.as_slice().split_first() {
        Some((Derivation::Array(None), _)) => {
            let mut completed = ctype.get().duplicate(alloc)?;
            completed
                .derivations
                .set(0, Derivation::Array(Some(length)));
            Shared::new(alloc, completed)
        }
        Some((Derivation::Array(Some(_)), _)) => ctype.clone(),
        Some((Derivation::Pointer(_), _)) => ctype.clone(),
        Some((Derivation::Function(_), _)) => ctype.clone(),
        None => ctype.clone(),
    }
}

/// What a name means behind the initializer that gives an array this length. It fails for want of memory alone.
pub(crate) fn completed_by(alloc: Global, length: u64, means: Means) -> Result<Means, AllocError>
    ensures { IfOk result (λ m. m ≡ spec.completed_by (Some length) means) }
{
    match means {
        Means::Object {
            ctype,
            duration,
            linkage,
        } => {
            let ctype = with_length(alloc, length, &ctype)?;
            Ok(Means::Object {
                ctype,
                duration,
                linkage,
            })
        }
        Means::Function { ctype, linkage } => Ok(Means::Function { ctype, linkage }),
        Means::Typedef { ctype } => Ok(Means::Typedef { ctype }),
        Means::Constant { value } => Ok(Means::Constant { value }),
        Means::Faulty => Ok(Means::Faulty),
    }
}

/// A tentative definition's type: an array of unknown length has one element (C99 6.9.2p5). It fails for want of memory
/// alone.
pub fn tentative_type(alloc: Global, ctype: &Shared<CType>) -> Result<Shared<CType>, AllocError>
    ensures { IfOk result (λ t. t ≡ spec.tentative_type ctype.now) }
{
    with_length(alloc, 1, ctype)
}

/// An object alone may be initialised, and none with linkage in a block (C99 6.7.8p3, p5).
pub(crate) fn may_be_initialised(in_file: bool, means: &Means) -> bool
    ensures { result ≡ spec.may_be_initialised in_file means.now }
{
    match means {
        Means::Object { linkage, .. } => match *linkage {
            Linkage::None => true,
            Linkage::Internal => in_file,
            Linkage::External => in_file,
        },
        Means::Function { .. } => false,
        Means::Typedef { .. } => false,
        Means::Constant { .. } => false,
        Means::Faulty => true,
    }
}

/// The type of an object.
pub(crate) fn object_type(means: &Means) -> Option<&Shared<CType>>
    ensures { option_copied result ≡ spec.object_type means.now }
{
    match means {
        Means::Object { ctype, .. } => Some(ctype),
        Means::Function { .. } => None,
        Means::Typedef { .. } => None,
        Means::Constant { .. } => None,
        Means::Faulty => None,
    }
}
