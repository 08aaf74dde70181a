//! Declared objects (C99 6.2.4, 6.7.8).
ghost use Rattle.std.specs.Prelude.{◌≡◌, ℕ, map, IfOk};
ghost use Rattle.core_tree.specs.declared.code.Code.TheVariants as code;
ghost use Rattle.c_language.specs.declared.scope.Linkage.{Linkage as Linkages};
ghost use Rattle.c_language.specs.Scopes as scopes;
ghost use Rattle.c_means.specs.Initials as runs;
ghost use Rattle.c_means.specs.Statements as statements;
ghost use Rattle.elaborate.specs.Means.{Numbering};
ghost use Rattle.core_objects.specs.Begun.{IsBegun};
ghost use Rattle.core_objects.specs.Given as gives;

use crate::begun::{Begun, nothing_begun, one_begun};
use crate::given::Initial;
use c_language::{Duration, Entry, Means};
use c_type_scope::Scope;
use code_forms::{automatic_object, bytes_of, lasting_object};
use core_forms::Places;
use core_tree::{Code, Expr, LastingSetting, Setting};
use plain_data::{Items, Shared};
use std::alloc::{AllocError, Global};

/// An object of a block (C99 6.2.4p5).
fn automatic(
    alloc: Global,
    entry: &Entry,
    bytes: u64,
    initial: Initial,
) -> Result<Begun, AllocError>
    ensures { (numbering : Numbering) (x : runs.Initial) (s : scopes.Scope) → initial.is_zeroed ≡ x.is_zeroed → gives.IsGiven numbering initial.settings x → IfOk result (λ y. IsBegun numbering y (statements.automatic entry.now bytes x s) s) }
{
    let Initial {
        is_zeroed,
        settings,
        ..
    } = initial;
    let code = automatic_object(alloc, entry.at, bytes, is_zeroed, settings)?;
    one_begun(alloc, code, Items::new(alloc))
}

/// The code of an object that lives throughout the run: where it is defined, its initializer counts.
fn lasting_code(
    alloc: Global,
    is_defined: bool,
    counted: Items<Shared<Expr>>,
) -> Result<Shared<Code>, AllocError>
    ensures { IfOk result (λ y. y ≡ code.Static is_defined (gives.counted_if is_defined counted)) }
{
    if is_defined {
        lasting_object(alloc, true, counted)
    } else {
        lasting_object(alloc, false, Items::new(alloc))
    }
}

/// What is set of the object at a place before the program starts.
fn lasting_settings(
    alloc: Global,
    place: u64,
    settings: Items<Setting>,
) -> Result<Items<LastingSetting>, AllocError>
    ensures { IfOk result (λ ys. ys ≡ map (gives.lasting_setting place) settings) }
{
    let mut lasting = Items::new(alloc);
    for setting in settings.into_vec() {
        lasting.push(LastingSetting { place, setting })?;
    }
    Ok(lasting)
}

/// An object with static storage duration (C99 6.2.4p3).
fn lasting<P: Places>(
    alloc: Global,
    places: &P,
    entry: &Entry,
    is_defined: bool,
    initial: Initial,
) -> Result<Begun, AllocError>
    ensures { (at bytes : ℕ) (k : Linkages) (x : runs.Initial) (s : scopes.Scope) → gives.IsLasting (P.numbering places.now) initial x → IfOk result (λ y. IsBegun (P.numbering places.now) y (statements.lasting at entry.now bytes k is_defined x s) s) }
{
    let Initial {
        settings,
        counted,
        ..
    } = initial;
    let place = places.place(entry.at);
    let settings = lasting_settings(alloc, place, settings)?;
    let code = lasting_code(alloc, is_defined, counted)?;
    one_begun(alloc, code, settings)
}

/// What a name that is declared is in the core, by what it means: only objects act. It fails for want of memory alone.
pub fn declared_object<P: Places>(
    alloc: Global,
    places: &P,
    entry: &Entry,
    is_defined: bool,
    initial: Initial,
    scope: &Scope,
) -> Result<Begun, AllocError>
    ensures { (at : ℕ) (x : runs.Initial) → gives.IsInitial entry.now.means (P.numbering places.now) initial x → IfOk result (λ y. IsBegun (P.numbering places.now) y (statements.declared_means at entry.now entry.now.means is_defined x scope.now) scope.now) }
{
    match &entry.means {
        Means::Object {
            ctype,
            duration,
            ..
        } => match *duration {
            Duration::Automatic => {
                let bytes = bytes_of(scope.tables(), ctype.get());
                automatic(alloc, entry, bytes, initial)
            }
            Duration::Static => lasting(alloc, places, entry, is_defined, initial),
        },
        Means::Function { .. } => Ok(nothing_begun(alloc)),
        Means::Typedef { .. } => Ok(nothing_begun(alloc)),
        Means::Constant { .. } => Ok(nothing_begun(alloc)),
        Means::Faulty => Ok(nothing_begun(alloc)),
    }
}
