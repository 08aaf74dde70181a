//! The callee of a call: by the first rule that applies.
ghost use Rattle.std.specs.Prelude.{◌≡◌, ◌+◌, ◌++◌, IfOk};
ghost use Rattle.c_means.specs.Calls as calls;
ghost use Rattle.c_means.specs.Rules as rules;
ghost use Rattle.core_tree.specs.declared.expr.Callee.TheVariants as callee;
ghost use Rattle.core_exprs.specs.Sites.{site_of};
ghost use Rattle.core_callees.specs.Bodies as bodies;
ghost use Rattle.core_callees.specs.Choices as spec;
ghost use Rattle.core_callees.specs.Knows.{known_by};
ghost use Rattle.core_callees.specs.Watching.{all_watched};

use crate::automatic::automatic_entries;
use crate::bodies::{PreludeFunction, prelude_function};
use crate::calling::Calling;
use crate::numbered::number_named;
use crate::watching::watch;
use c_checks::{filling_function, identity_index, log_function};
use c_language::Name;
use c_means::LogText;
use c_type_scope::Scope;
use core_calls::{arguments_before, fill, library_callee, log_pieces, outside_answer, word_types};
use core_exprs::Site;
use core_tree::{Callee, Watched};
use plain_data::Items;
use std::alloc::{AllocError, Global};

// ---- log calls

/// The variables that a print shows, those that live throughout the run first.
fn shown(alloc: Global, calling: &Calling, scope: &Scope) -> Result<Items<Watched>, AllocError>
    ensures { IfOk result (λ ws. ws ≡ all_watched (known_by calling.now).place ((known_by calling.now).watched ++ calls.automatic_in scope.now.blocks)) }
{
    let mut all = Items::new(alloc);
    watch(calling.places, calling.watched, &mut all)?;
    let automatic = automatic_entries(alloc, scope.blocks())?;
    watch(calling.places, automatic.as_slice(), &mut all)?;
    Ok(all)
}

fn log_callee(
    alloc: Global,
    calling: &Calling,
    text: &LogText,
    site: &Site,
    scope: &Scope,
) -> Result<Callee, AllocError>
    ensures { IfOk result (λ c. c ≡ spec.log_callee (known_by calling.now) text.now (site_of site.now scope.now)) }
{
    let watched = shown(alloc, calling, scope)?;
    let pieces = log_pieces(alloc, text, site.texts.as_slice())?;
    let types = word_types(alloc, site.types.as_slice())?;
    Ok(Callee::Log {
        pieces,
        before: arguments_before(text),
        types,
        watched,
    })
}

// ---- calls by body

/// A function of the prelude, whose first has this number. It fails where there are more functions than memory holds.
fn prelude_callee(first: u32, function: PreludeFunction) -> Result<Callee, AllocError>
    ensures { IfOk result (λ c. c ≡ callee.Body (first + bodies.position function)) }
{
    match first.checked_add(function.position()) {
        Some(function) => Ok(Callee::Body { function }),
        None => Err(AllocError),
    }
}

// ---- functions outside

fn is_among(name: &[u8], names: &[Name]) -> bool
    ensures { result ≡ rules.is_among name.now names.now }
{
    for other in names {
        if other.get().as_slice() == name {
            return true;
        }
    }
    false
}

fn outside_callee(
    alloc: Global,
    calling: &Calling,
    site: &Site,
    scope: &Scope,
) -> Result<Callee, AllocError>
    ensures { IfOk result (λ c. c ≡ spec.outside_callee (known_by calling.now) (site_of site.now scope.now)) }
{
    let name = site.callee.get().name.get().as_slice();
    let never_null = is_among(name, calling.profile.never_null.as_slice());
    let answer = outside_answer(alloc, scope.tables(), &site.ctype, never_null)?;
    let fill = fill(filling_function(calling.profile, name));
    Ok(Callee::Outside { answer, fill })
}

// ---- the rule

/// Of a call of a function without a body in the source, that is none of the C library with a meaning of its own.
fn prelude_or_outside(
    alloc: Global,
    calling: &Calling,
    site: &Site,
    scope: &Scope,
) -> Result<Callee, AllocError>
    ensures { IfOk result (λ c. c ≡ spec.by_prelude (known_by calling.now) (site_of site.now scope.now) ((known_by calling.now).prelude (rules.callee_taking (site_of site.now scope.now)) (site_of site.now scope.now).callee.name)) }
{
    match prelude_function(alloc, scope.tables(), site.callee.get())? {
        Some(function) => prelude_callee(calling.prelude, function),
        None => outside_callee(alloc, calling, site, scope),
    }
}

/// Of a call of a function without a body in the source.
fn declared_callee(
    alloc: Global,
    calling: &Calling,
    site: &Site,
    scope: &Scope,
) -> Result<Callee, AllocError>
    ensures { IfOk result (λ c. c ≡ spec.declared_callee (known_by calling.now) (site_of site.now scope.now)) }
{
    match library_callee(alloc, scope.tables(), site.callee.get())? {
        Some(callee) => Ok(callee),
        None => prelude_or_outside(alloc, calling, site, scope),
    }
}

/// Of a call of a function that is neither a log nor an identity function.
fn source_callee(
    alloc: Global,
    calling: &Calling,
    site: &Site,
    scope: &Scope,
) -> Result<Callee, AllocError>
    ensures { IfOk result (λ c. c ≡ spec.by_source (known_by calling.now) (site_of site.now scope.now) ((known_by calling.now).source (site_of site.now scope.now).callee.name)) }
{
    match number_named(calling.functions, site.callee.get().name.get().as_slice()) {
        Some(number) => Ok(Callee::Body { function: number }),
        None => declared_callee(alloc, calling, site, scope),
    }
}

/// What a call calls, with the names in force behind its arguments.
pub(crate) fn callee_of(
    alloc: Global,
    calling: &Calling,
    site: &Site,
    scope: &Scope,
) -> Result<Callee, AllocError>
    ensures { IfOk result (λ c. c ≡ spec.callee_in (known_by calling.now) (site_of site.now scope.now)) }
{
    let name = site.callee.get().name.get().as_slice();
    match log_function(calling.profile, name) {
        Some(function) => log_callee(alloc, calling, &function.text, site, scope),
        None => match identity_index(calling.profile, name) {
            Some(index) => Ok(Callee::Identity { index }),
            None => source_callee(alloc, calling, site, scope),
        },
    }
}
