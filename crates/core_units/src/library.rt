//! The functions of the C library that have a body (C99 7.20.1.2, 7.21), in the core of a source.
ghost use Rattle.std.specs.Prelude.{◌≡◌, ◌∷◌, [], Some, IfOk};
ghost use Rattle.c_item_notes.specs.Levels.{judged};
ghost use Rattle.c_language.specs.declared.unit.External.TheVariants as external_;
ghost use Rattle.c_language.specs.Scopes.{empty};
ghost use Rattle.c_means.specs.Prelude as texts;
ghost use Rattle.c_means.specs.Programs as programs;
ghost use Rattle.c_program_notes.specs.Wholes.{overview as overview_in};
ghost use Rattle.core_units.specs.Surroundings as spec;

use crate::plan::watched_if;
use crate::walk::Around;
use c_language::{Body, Declarator, Entry, External, Specifier};
use c_prelude::prelude;
use c_program_notes::{Overview, outer_notes};
use c_type_scope::Scope;
use core_functions::{Definition, define};
use core_parts::Whole;
use core_tree::Function;
use plain_data::{Items, Shared};
use std::alloc::{AllocError, Global};

/// The variables that live throughout the run that the function names which an external declaration defines in a file
/// of its own, where it defines one.
fn watched_alone(
    alloc: Global,
    around: &Around<'_>,
    overview: &Overview,
    external: &External,
) -> Result<Option<Items<Shared<Entry>>>, AllocError>
    requires overview { overview.now ≡ overview_in (judged around.now.source.now) }
    ensures { IfOk result (λ x. x ≡ spec.watched_in around.now (programs.outer external.now empty).function) }
{
    let mut scope = Scope::new(alloc);
    let notes = outer_notes(alloc, around.source, external, &mut scope)?;
    watched_if(alloc, overview, &notes.function)
}

/// The function that is defined in a file of its own, which names these variables.
fn defined_alone(
    alloc: Global,
    around: &Around<'_>,
    specifiers: &[Shared<Specifier>],
    declarator: &Declarator,
    body: &Body,
    watched: &[Shared<Entry>],
) -> Result<Items<Function>, AllocError>
    requires around { spec.IsAroundOf around.now }
    ensures { spec.watched_in around.now (programs.outer (external_.Function specifiers.now declarator.now body.now) empty).function ≡ Some watched.now →
        IfOk result (λ fs. spec.AreLibrary around.now (programs.functions_of (programs.program_of (external_.Function specifiers.now declarator.now body.now ∷ []))) fs) }
{
    let mut scope = Scope::new(alloc);
    let calling = around.calling(watched);
    let parts = Whole { callees: &calling };
    let found = define(
        alloc, &parts, specifiers, declarator, body, true, &mut scope,
    )?;
    match found {
        Some(definition) => {
            let Definition { function, .. } = definition;
            let mut functions = Items::new(alloc);
            functions.push(function)?;
            Ok(functions)
        }
        None => Ok(Items::new(alloc)),
    }
}

/// The function that an external declaration defines in a file of its own, where it defines one.
fn alone(
    alloc: Global,
    around: &Around<'_>,
    overview: &Overview,
    external: &External,
) -> Result<Items<Function>, AllocError>
    requires around { spec.IsAroundOf around.now }
    requires overview { overview.now ≡ overview_in (judged around.now.source.now) }
    ensures { IfOk result (λ fs. spec.AreLibrary around.now (programs.functions_of (programs.program_of (external.now ∷ []))) fs) }
{
    let External::Function {
        specifiers,
        declarator,
        body,
    } = external
    else {
        return Ok(Items::new(alloc));
    };
    match watched_alone(alloc, around, overview, external)? {
        Some(watched) => defined_alone(
            alloc,
            around,
            specifiers.as_slice(),
            declarator,
            body,
            watched.as_slice(),
        ),
        None => Ok(Items::new(alloc)),
    }
}

/// The functions that external declarations define, each in a file of its own.
fn each_alone(
    alloc: Global,
    around: &Around<'_>,
    overview: &Overview,
    externals: &[Shared<External>],
) -> Result<Items<Function>, AllocError>
    requires around { spec.IsAroundOf around.now }
    requires overview { overview.now ≡ overview_in (judged around.now.source.now) }
    ensures { IfOk result (λ fs. spec.AreLibrary around.now (texts.functions_from externals.now) fs) }
{
    let mut all = Items::new(alloc);
    for external in externals {
        let more = alone(alloc, around, overview, external.get())?;
        all.append(more)?;
    }
    Ok(all)
}

/// The functions of the C library that have a body, in the core of a source, in order. It fails for want of memory
/// alone.
pub(crate) fn library(
    alloc: Global,
    around: &Around<'_>,
    overview: &Overview,
) -> Result<Items<Function>, AllocError>
    requires around { spec.IsAroundOf around.now }
    requires overview { overview.now ≡ overview_in (judged around.now.source.now) }
    ensures { IfOk result (λ fs. spec.AreLibrary around.now texts.prelude_functions fs) }
{
    let externals = prelude(alloc)?;
    each_alone(alloc, around, overview, externals.as_slice())
}
