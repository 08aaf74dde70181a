//! Initializers (C99 6.7.8): what they say of the object that is declared, with what is noted of their expressions.

ghost use Rattle.std.specs.Prelude.{◌≡◌, map, IfOk};
ghost use Rattle.c_language.specs.Scopes as scopes;
ghost use Rattle.c_language.specs.Typing.{typed_in};
ghost use Rattle.c_language.specs.Initials as braces;
ghost use Rattle.c_initials.specs.Filled.{filling_in, no_filling};
ghost use Rattle.c_means.specs.Initials as runs;
ghost use Rattle.c_checks.specs.Refusals.{least_of};
ghost use Rattle.c_item_notes.specs.Levels.{judged};
ghost use Rattle.c_item_notes.specs.InitialTellings as spec;

use crate::hearing::{Source, heard};
use c_checks::lesser;
use c_initials::{
    Filling, Opened, Part, designated_by, fills_value, list_alone, list_begun, list_closed,
    value_alone, with_part_left,
};
use c_language::{CType, Initializer, InitializerItem, LayoutRule, Name, Rule, Told};
use c_means::{Breach, BrokenRule};
use c_notes::{CallNote, ExprNotes, NotedExpr, is_static};
use c_type_scope::Scope;
use plain_data::{Items, Shared};
use std::alloc::{AllocError, Global};

/// What is noted of the expressions of an initializer: all calls in them, the functions that are called where they are
/// evaluated, and the first that a static object may not be initialised with (C99 6.7.8p4).
#[derive(Drop)]
pub struct InitialNotes {
    pub calls: Items<CallNote>,
    pub called: Items<Name>,
    pub constant: Option<Breach>,
}

/// What an initializer says of its object, and what is noted of it.
#[derive(Drop)]
pub struct FilledNotes {
    pub filling: Filling,
    pub notes: InitialNotes,
}

/// What is noted of no expressions. It takes no memory.
pub(crate) fn no_notes(alloc: Global) -> InitialNotes
    ensures { result ≡ spec.no_notes }
{
    InitialNotes {
        calls: Items::new(alloc),
        called: Items::new(alloc),
        constant: None,
    }
}

fn not_static(told: &Told, notes: &ExprNotes) -> Option<Breach>
    ensures { result ≡ least_of (spec.not_static told.now notes.now) }
{
    match &told.shown {
        None => None,
        Some(_) => {
            if is_static(notes) {
                None
            } else {
                Some(Breach {
                    at: told.at,
                    rule: BrokenRule::Typing(Rule::Layout(LayoutRule::NotConstant)),
                })
            }
        }
    }
}

fn and_value(
    told: &Told,
    notes: ExprNotes,
    before: InitialNotes,
) -> Result<InitialNotes, AllocError>
    ensures { IfOk result (λ n. n ≡ spec.and_value told.now notes before) }
{
    let InitialNotes {
        mut calls,
        mut called,
        constant,
    } = before;
    let constant = lesser(constant, not_static(told, &notes));
    calls.append(notes.calls)?;
    called.append(notes.called)?;
    Ok(InitialNotes {
        calls,
        called,
        constant,
    })
}

/// One more expression as the next part.
fn and_next(
    alloc: Global,
    scope: &Scope,
    x: NotedExpr,
    found: FilledNotes,
) -> Result<FilledNotes, AllocError>
    ensures says { IfOk result (λ z. filling_in z.filling scope.now ≡ braces.fills_value (typed_in x.told scope.now) (filling_in found.filling scopes.empty)) }
    ensures notes { IfOk result (λ z. z.notes ≡ spec.and_value x.told x.notes found.notes) }
{
    let FilledNotes { filling, notes } = found;
    let NotedExpr { told, notes: more } = x;
    let notes = and_value(&told, more, notes)?;
    let filling = fills_value(alloc, scope, told, filling)?;
    Ok(FilledNotes { filling, notes })
}

/// An expression without braces, for a whole object.
fn as_whole(
    alloc: Global,
    scope: &Scope,
    x: NotedExpr,
    whole: Shared<Part>,
) -> Result<FilledNotes, AllocError>
    ensures says { IfOk result (λ z. filling_in z.filling scope.now ≡ braces.value_alone (typed_in x.told scope.now) whole (filling_in no_filling scopes.empty)) }
    ensures notes { IfOk result (λ z. z.notes ≡ spec.and_value x.told x.notes spec.no_notes) }
{
    let NotedExpr { told, notes: more } = x;
    let notes = and_value(&told, more, no_notes(alloc))?;
    let filling = value_alone(alloc, scope, told, whole)?;
    Ok(FilledNotes { filling, notes })
}

/// What an initializer says as the next part of a list in braces, with what is noted of it.
#[cycle(initial)]
fn fills(
    alloc: Global,
    source: &Source<'_>,
    initializer: &Initializer,
    found: FilledNotes,
    scope: &mut Scope,
) -> Result<FilledNotes, AllocError>
    ensures says { IfOk result (λ z. filling_in z.filling scope.new ≡ (runs.initially initializer.now).says.fills (filling_in found.filling scope.old)) }
    ensures seen { IfOk result (λ z. spec.seen_in z.notes scope.new ≡ spec.see (judged source.now) (runs.initially initializer.now).elements (spec.seen_in found.notes scope.old)) }
{
    match initializer {
        Initializer::Value { value } => {
            let x = heard(alloc, source, value.get(), scope)?;
            and_next(alloc, scope, x, found)
        }
        Initializer::List { at, items, .. } => {
            fills_list(alloc, source, items.as_slice(), *at, found, scope)
        }
    }
}

#[cycle(initial)]
#[tactic(auto, using(crate::proofs::Filling::list_within))]
fn fills_list(
    alloc: Global,
    source: &Source<'_>,
    items: &[Shared<InitializerItem>],
    at: u32,
    found: FilledNotes,
    scope: &mut Scope,
) -> Result<FilledNotes, AllocError>
    ensures says { IfOk result (λ z. filling_in z.filling scope.new ≡ (braces.list_says at (runs.all_fills (map runs.listed_item items.now))).fills (filling_in found.filling scope.old)) }
    ensures seen { IfOk result (λ z. spec.seen_in z.notes scope.new ≡ spec.see (judged source.now) (runs.all_elements (map runs.listed_item items.now)) (spec.seen_in found.notes scope.old)) }
{
    let FilledNotes { filling, notes } = found;
    let filling = with_part_left(scope, filling);
    let Opened { inside, outside } = list_begun(alloc, scope, at, filling)?;
    let begun = FilledNotes {
        filling: inside,
        notes,
    };
    let FilledNotes { filling, notes } = fills_all(alloc, source, items, begun, scope)?;
    Ok(FilledNotes {
        filling: list_closed(outside, filling, scope),
        notes,
    })
}

#[cycle(initial)]
fn fills_all(
    alloc: Global,
    source: &Source<'_>,
    items: &[Shared<InitializerItem>],
    found: FilledNotes,
    scope: &mut Scope,
) -> Result<FilledNotes, AllocError>
    ensures says { IfOk result (λ z. filling_in z.filling scope.new ≡ braces.fills_all (runs.all_fills (map runs.listed_item items.now)) (filling_in found.filling scope.old)) }
    ensures seen { IfOk result (λ z. spec.seen_in z.notes scope.new ≡ spec.see (judged source.now) (runs.all_elements (map runs.listed_item items.now)) (spec.seen_in found.notes scope.old)) }
{
    let mut found = found;
    for item in items {
        found = fills_item(alloc, source, item.get(), found, scope)?;
    }
    Ok(found)
}

#[cycle(initial)]
fn fills_item(
    alloc: Global,
    source: &Source<'_>,
    item: &InitializerItem,
    found: FilledNotes,
    scope: &mut Scope,
) -> Result<FilledNotes, AllocError>
    ensures says { IfOk result (λ z. filling_in z.filling scope.new ≡ (runs.listed_item item.now).fills (filling_in found.filling scope.old)) }
    ensures seen { IfOk result (λ z. spec.seen_in z.notes scope.new ≡ spec.see (judged source.now) (runs.listed_item item.now).elements (spec.seen_in found.notes scope.old)) }
{
    let FilledNotes { filling, notes } = found;
    let filling = designated_by(alloc, item.designators.as_slice(), filling, scope)?;
    let found = FilledNotes { filling, notes };
    fills(alloc, source, item.value.get(), found, scope)
}

/// What an initializer says of an object of a type that is declared with it, and what is noted of its expressions. It
/// fails for want of memory alone.
pub fn filled_notes(
    alloc: Global,
    source: &Source<'_>,
    initializer: &Initializer,
    ctype: Shared<CType>,
    scope: &mut Scope,
) -> Result<FilledNotes, AllocError>
    ensures says { IfOk result (λ z. filling_in z.filling scope.new ≡ braces.filling_of (runs.initially initializer.now).says ctype scope.old) }
    ensures notes { IfOk result (λ z. z.notes ≡ spec.initial_notes (judged source.now) (runs.initialising (runs.initially initializer.now) ctype scope.old)) }
{
    let whole = Part::whole(alloc, ctype)?;
    match initializer {
        Initializer::Value { value } => {
            let x = heard(alloc, source, value.get(), scope)?;
            as_whole(alloc, scope, x, whole)
        }
        Initializer::List { items, .. } => {
            let filling = list_alone(alloc, whole)?;
            let begun = FilledNotes {
                filling,
                notes: no_notes(alloc),
            };
            fills_all(alloc, source, items.as_slice(), begun, scope)
        }
    }
}
