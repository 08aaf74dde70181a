//! The external declarations of a source (C99 6.9), one after the other: their functions in the core, and what the
//! initializers of what is needed set.
ghost use Rattle.std.specs.Prelude.{◌≡◌, ◌∷◌, [], IfOk, map, drop, slice_get};
ghost use Rattle.c_language.specs.declared.unit.External.TheVariants as external_;
ghost use Rattle.c_means.specs.Programs as programs;
ghost use Rattle.c_means.specs.Statements as statements;
ghost use Rattle.core_units.specs.Surroundings as spec;

use crate::plan::Plan;
use c_item_notes::Source;
use c_language::{Body, Declaration, Declarator, Entry, External, Specifier};
use c_program_notes::outer_notes;
use c_type_scope::{Named, Scope};
use core_callees::{Calling, FunctionNumber};
use core_codes::{Begun, Parts};
use core_functions::{Definition, define};
use core_parts::Whole;
use core_programs::PlaceTable;
use core_tree::{Function, LastingSetting};
use plain_data::{Items, Shared};
use std::alloc::{AllocError, Global};

/// Functions of the source in the core, those that are reached and the others, and what is set before `main` is
/// called, each in order.
#[derive(Drop)]
pub struct Made {
    pub functions: Items<Function>,
    pub others: Items<Function>,
    pub settings: Items<LastingSetting>,
}

/// What is known of the whole source: the source with its profile, the places of what lives throughout the run, its
/// functions by name, and the number of the first function of the prelude, which stand behind those of the source.
#[derive(Clone, Copy)]
pub struct Around<'a> {
    pub source: &'a Source<'a>,
    pub places: &'a PlaceTable,
    pub functions: &'a Named<FunctionNumber>,
    pub prelude: u32,
}

impl<'a> Around<'a> {
    ghost use Rattle.std.specs.Prelude.{◌≡◌};
    ghost use Rattle.core_callees.specs.Knows.{known, known_by};

    /// The calls of a function that names these variables.
    pub(crate) fn calling(&self, watched: &'a [Shared<Entry>]) -> Calling<'a>
        ensures { known_by result ≡ known self.now.source.now.profile.now self.now.places.now self.now.functions.now self.now.prelude watched.now }
    {
        Calling {
            profile: self.source.profile,
            places: self.places,
            functions: self.functions,
            prelude: self.prelude,
            watched,
        }
    }
}

/// Nothing is made.
fn nothing(alloc: Global) -> Made
    ensures { result ≡ record { functions = []; others = []; settings = [] } }
{
    Made {
        functions: Items::new(alloc),
        others: Items::new(alloc),
        settings: Items::new(alloc),
    }
}

/// What is neither needed nor reached leaves the names in force that it declares.
fn passed(
    alloc: Global,
    around: &Around<'_>,
    external: &External,
    scope: &mut Scope,
) -> Result<Made, AllocError>
    ensures nothing { IfOk result (λ x. x ≡ record { functions = []; others = []; settings = [] }) }
    ensures after { IfOk result (λ _. scope.new ≡ (programs.outer external.now scope.old).after) }
{
    let _ = outer_notes(alloc, around.source, external, scope)?;
    Ok(nothing(alloc))
}

/// What is made of a function, which is reached or not.
fn placed(alloc: Global, definition: Definition, is_reached: bool) -> Result<Made, AllocError>
    ensures { IfOk result (λ x. x ≡ spec.made_by is_reached definition) }
{
    let Definition { function, settings } = definition;
    let mut functions = Items::new(alloc);
    functions.push(function)?;
    if is_reached {
        Ok(Made {
            functions,
            others: Items::new(alloc),
            settings,
        })
    } else {
        Ok(Made {
            functions: Items::new(alloc),
            others: functions,
            settings: Items::new(alloc),
        })
    }
}

/// The function that is defined, which is reached or not, and names these variables (C99 6.9.1).
fn defined(
    alloc: Global,
    around: &Around<'_>,
    specifiers: &[Shared<Specifier>],
    declarator: &Declarator,
    body: &Body,
    plan: &Plan,
    watched: &[Shared<Entry>],
    scope: &mut Scope,
) -> Result<Made, AllocError>
    requires around { spec.IsAroundOf around.now }
    ensures made { spec.watched_in around.now (programs.outer (external_.Function specifiers.now declarator.now body.now) scope.old).function ≡ Some watched.now →
        plan.now.is_reached ≡ spec.reached_by around.now (programs.outer (external_.Function specifiers.now declarator.now body.now) scope.old).function →
        IfOk result (λ x. spec.AreMadeIn around.now (programs.outer (external_.Function specifiers.now declarator.now body.now) scope.old ∷ []) x) }
    ensures after { IfOk result (λ _. scope.new ≡ (programs.outer (external_.Function specifiers.now declarator.now body.now) scope.old).after) }
{
    let calling = around.calling(watched);
    let parts = Whole { callees: &calling };
    let found = define(alloc, &parts, specifiers, declarator, body, false, scope)?;
    match found {
        Some(definition) => placed(alloc, definition, plan.is_reached),
        None => Ok(nothing(alloc)),
    }
}

/// What the initializers of a declaration set that is needed (C99 6.9.2).
#[tactic(auto, using(crate::proofs::Making::set_same))]
fn needed(
    alloc: Global,
    around: &Around<'_>,
    declared: &Declaration,
    scope: &mut Scope,
) -> Result<Made, AllocError>
    requires around { spec.IsAroundOf around.now }
    ensures made { IfOk result (λ x. (x ≡ record { functions = []; others = []; settings = x.settings }) × spec.AreSetIn around.now x.settings (statements.declaration declared.now scope.old).lasting) }
    ensures after { IfOk result (λ _. scope.new ≡ (statements.declaration declared.now scope.old).after) }
{
    let calling = around.calling(&[]);
    let parts = Whole { callees: &calling };
    let begun = parts.declaration(alloc, declared, scope)?;
    let Begun { settings, .. } = begun;
    Ok(Made {
        functions: Items::new(alloc),
        others: Items::new(alloc),
        settings,
    })
}

/// What is made of an external declaration, by its plan.
#[tactic(auto, using(crate::proofs::Making::passed_function, crate::proofs::Making::needed_made, crate::proofs::Making::unneeded_made))]
fn made_of(
    alloc: Global,
    around: &Around<'_>,
    external: &External,
    plan: &Plan,
    scope: &mut Scope,
) -> Result<Made, AllocError>
    requires around { spec.IsAroundOf around.now }
    requires plan { plan.now ≡ spec.plan_in around.now (programs.outer external.now scope.old) }
    ensures made { IfOk result (λ x. spec.AreMadeIn around.now (programs.outer external.now scope.old ∷ []) x) }
    ensures after { IfOk result (λ _. scope.new ≡ (programs.outer external.now scope.old).after) }
{
    match external {
        External::Function {
            specifiers,
            declarator,
            body,
        } => match &plan.watched {
            Some(watched) => defined(
                alloc,
                around,
                specifiers.as_slice(),
                declarator,
                body,
                plan,
                watched.as_slice(),
                scope,
            ),
            None => passed(alloc, around, external, scope),
        },
        External::Declared { declaration } => {
            if plan.is_needed {
                needed(alloc, around, declaration, scope)
            } else {
                passed(alloc, around, external, scope)
            }
        }
        External::Empty { .. } => passed(alloc, around, external, scope),
    }
}

/// What is made of all external declarations of the source, by their plans, each in the scope that those before it
/// leave.
pub(crate) fn make_each(
    alloc: Global,
    around: &Around<'_>,
    plans: &[Plan],
) -> Result<Made, AllocError>
    requires around { spec.IsAroundOf around.now }
    requires plans { plans.now ≡ map (spec.plan_in around.now) (spec.outers_of around.now) }
    ensures { IfOk result (λ x. spec.AreMadeIn around.now (spec.outers_of around.now) x) }
{
    let mut made = nothing(alloc);
    let mut scope = Scope::new(alloc);
    let mut index = 0;
    let externals = around.source.externals;
    'each: for external in externals {
        let more = made_of(alloc, around, external.get(), &plans[index], &mut scope)?;
        made.functions.append(more.functions)?;
        made.others.append(more.others)?;
        made.settings.append(more.settings)?;
        index += 1;
    }
    Ok(made)
}
