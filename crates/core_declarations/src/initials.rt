//! Initializers (C99 6.7.8): what they say of the object that is declared, with what their expressions set.
ghost use Rattle.std.specs.Prelude.{◌≡◌, ◌++◌, ◌∷◌, [], List, map, IfOk};
ghost use Rattle.c_language.specs.Scopes as scopes;
ghost use Rattle.c_language.specs.Typing.{typed_in};
ghost use Rattle.c_language.specs.Initials as braces;
ghost use Rattle.c_initials.specs.Filled.{filling_in, no_filling};
ghost use Rattle.c_means.specs.Initials as runs;
ghost use Rattle.c_means.specs.Notes.{Noted};
ghost use Rattle.elaborate.specs.Means.{Numbering};
ghost use Rattle.core_objects.specs.Given as gives;
ghost use Rattle.core_declarations.specs.Hearing.{IsHeard};
ghost use Rattle.core_declarations.specs.Items as items;
ghost use Rattle.core_declarations.specs.Walked as spec;

use crate::bare::Bare;
use crate::hearing::{Heard, hear};
use crate::pairing::{Paired, Source, and_source, is_literal, none_paired};
use c_initials::{
    Filling, Opened, Part, designated_by, fills_value, list_alone, list_begun, list_closed,
    value_alone, with_part_left,
};
use c_language::{CType, Initializer, InitializerItem};
use c_type_scope::Scope;
use core_exprs::Callees;
use core_objects::Initial;
use core_tree::{Expr, Setting};
use plain_data::{Items, Shared};
use std::alloc::{AllocError, Global};

/// Where the closest braces have come to, and what the expressions set so far.
#[derive(Drop)]
pub(crate) struct Walked {
    pub(crate) filling: Filling,
    pub(crate) paired: Paired,
}

// ---- one expression

/// One more expression as the next part.
fn and_next(alloc: Global, scope: &Scope, x: Heard, found: Walked) -> Result<Walked, AllocError>
    ensures says { IfOk result (λ z. filling_in z.filling scope.now ≡ braces.fills_value (typed_in x.told scope.now) (filling_in found.filling scopes.empty)) }
    ensures goes { (numbering : Numbering) (n : Noted) → IsHeard numbering x n scope.now → IfOk result (λ z. (ns : List Noted) → spec.HasGone numbering ns found → spec.HasGone numbering (ns ++ n ∷ []) z) }
{
    let Walked { filling, paired } = found;
    let Heard { told, value, text } = x;
    let source = Source {
        is_literal: is_literal(&told),
        value,
        text,
    };
    let filling = fills_value(alloc, scope, told, filling)?;
    let paired = and_source(alloc, scope, &filling.parts, source, paired)?;
    Ok(Walked { filling, paired })
}

/// An expression without braces, for a whole object.
fn as_whole(
    alloc: Global,
    scope: &Scope,
    x: Heard,
    whole: Shared<Part>,
) -> Result<Walked, AllocError>
    ensures says { IfOk result (λ z. filling_in z.filling scope.now ≡ braces.value_alone (typed_in x.told scope.now) whole (filling_in no_filling scopes.empty)) }
    ensures goes { (numbering : Numbering) (n : Noted) → IsHeard numbering x n scope.now → IfOk result (λ z. spec.HasGone numbering (n ∷ []) z) }
{
    let Heard { told, value, text } = x;
    let source = Source {
        is_literal: is_literal(&told),
        value,
        text,
    };
    let filling = value_alone(alloc, scope, told, whole)?;
    let paired = and_source(alloc, scope, &filling.parts, source, none_paired(alloc))?;
    Ok(Walked { filling, paired })
}

// ---- lists in braces

/// What an initializer sets as the next part of a list in braces.
#[cycle(initial)]
fn fills<C: Callees>(
    alloc: Global,
    callees: &C,
    initializer: &Initializer,
    found: Walked,
    scope: &mut Scope,
) -> Result<Walked, AllocError>
    ensures says { IfOk result (λ z. filling_in z.filling scope.new ≡ (runs.initially initializer.now).says.fills (filling_in found.filling scope.old)) }
    ensures walks { IfOk result (λ z. spec.Walks (C.numbering callees.now) (runs.initially initializer.now).elements found scope.old z scope.new) }
{
    match initializer {
        Initializer::Value { value } => {
            let x = hear(alloc, callees, value.get(), scope)?;
            and_next(alloc, scope, x, found)
        }
        Initializer::List { at, items, .. } => {
            fills_list(alloc, callees, items.as_slice(), *at, found, scope)
        }
    }
}

#[cycle(initial)]
fn fills_list<C: Callees>(
    alloc: Global,
    callees: &C,
    items: &[Shared<InitializerItem>],
    at: u32,
    found: Walked,
    scope: &mut Scope,
) -> Result<Walked, AllocError>
    ensures says { IfOk result (λ z. filling_in z.filling scope.new ≡ (braces.list_says at (runs.all_fills (map runs.listed_item items.now))).fills (filling_in found.filling scope.old)) }
    ensures walks { IfOk result (λ z. spec.Walks (C.numbering callees.now) (runs.all_elements (map runs.listed_item items.now)) found scope.old z scope.new) }
{
    let Walked { filling, paired } = found;
    let filling = with_part_left(scope, filling);
    let opened = list_begun(alloc, scope, at, filling)?;
    let Opened { inside, outside } = opened;
    let begun = Walked {
        filling: inside,
        paired,
    };
    let filled = fills_all(alloc, callees, items, begun, scope)?;
    let Walked { filling, paired } = filled;
    Ok(Walked {
        filling: list_closed(outside, filling, scope),
        paired,
    })
}

#[cycle(initial)]
fn fills_all<C: Callees>(
    alloc: Global,
    callees: &C,
    items: &[Shared<InitializerItem>],
    found: Walked,
    scope: &mut Scope,
) -> Result<Walked, AllocError>
    ensures says { IfOk result (λ z. filling_in z.filling scope.new ≡ braces.fills_all (runs.all_fills (map runs.listed_item items.now)) (filling_in found.filling scope.old)) }
    ensures walks { IfOk result (λ z. spec.Walks (C.numbering callees.now) (runs.all_elements (map runs.listed_item items.now)) found scope.old z scope.new) }
{
    let mut found = found;
    for item in items {
        found = fills_item(alloc, callees, item.get(), found, scope)?;
    }
    Ok(found)
}

#[cycle(initial)]
fn fills_item<C: Callees>(
    alloc: Global,
    callees: &C,
    item: &InitializerItem,
    found: Walked,
    scope: &mut Scope,
) -> Result<Walked, AllocError>
    ensures says { IfOk result (λ z. filling_in z.filling scope.new ≡ (runs.listed_item item.now).fills (filling_in found.filling scope.old)) }
    ensures walks { IfOk result (λ z. spec.Walks (C.numbering callees.now) (runs.listed_item item.now).elements found scope.old z scope.new) }
{
    let Walked { filling, paired } = found;
    let filling = designated_by(alloc, item.designators.as_slice(), filling, scope)?;
    let found = Walked { filling, paired };
    fills(alloc, callees, item.value.get(), found, scope)
}

// ---- a whole initializer

fn is_braced(initializer: &Initializer) -> bool
    ensures { result ≡ (runs.initially initializer.now).is_braced }
{
    match initializer {
        Initializer::Value { .. } => false,
        Initializer::List { .. } => true,
    }
}

/// What an initializer says of an object of a type that is declared with it, and what its expressions set.
fn fill_object<C: Callees>(
    alloc: Global,
    callees: &C,
    initializer: &Initializer,
    ctype: Shared<CType>,
    scope: &mut Scope,
) -> Result<Walked, AllocError>
    ensures says { IfOk result (λ z. filling_in z.filling scope.new ≡ braces.filling_of (runs.initially initializer.now).says ctype scope.old) }
    ensures gone { IfOk result (λ z. spec.HasGone (C.numbering callees.now) (runs.evaluated (runs.initially initializer.now).elements scope.old) z) }
{
    let whole = Part::whole(alloc, ctype)?;
    match initializer {
        Initializer::Value { value } => {
            let x = hear(alloc, callees, value.get(), scope)?;
            as_whole(alloc, scope, x, whole)
        }
        Initializer::List { items, .. } => {
            let filling = list_alone(alloc, whole)?;
            let begun = Walked {
                filling,
                paired: none_paired(alloc),
            };
            fills_all(alloc, callees, items.as_slice(), begun, scope)
        }
    }
}

/// What an initializer says of its object, and what it gives to it.
#[derive(Drop)]
pub(crate) struct Filled {
    pub(crate) filling: Filling,
    pub(crate) initial: Initial,
}

fn as_initial(
    filling: Filling,
    is_zeroed: bool,
    settings: Items<Setting>,
    counted: Items<Shared<Expr>>,
) -> Filled
    ensures { result ≡ record { filling = filling; initial = record { is_zeroed = is_zeroed; settings = settings; counted = counted } } }
{
    Filled {
        filling,
        initial: Initial {
            is_zeroed,
            settings,
            counted,
        },
    }
}

/// What counts as many nodes as an initializer does where it stands; the names that it declares are left again.
fn counted_here<C: Callees>(
    alloc: Global,
    callees: &C,
    initializer: &Initializer,
    ctype: Shared<CType>,
    scope: &Scope,
) -> Result<Items<Shared<Expr>>, AllocError>
    ensures { IfOk result (λ es. gives.IsCounted (C.numbering callees.now) es (runs.initialising (runs.initially initializer.now) ctype scope.now)) }
{
    let mut inside = scope.duplicate()?;
    let walked = fill_object(alloc, callees, initializer, ctype, &mut inside)?;
    let Walked { paired, .. } = walked;
    let Paired { counted, .. } = paired;
    Ok(counted)
}

/// An initializer of an object that lives throughout the run. Its expressions are gone through twice: as they stand in
/// the function, where their nodes are counted, and where no function runs, as they are evaluated.
fn initialised_bare<C: Callees>(
    alloc: Global,
    callees: &C,
    initializer: &Initializer,
    ctype: Shared<CType>,
    scope: &mut Scope,
) -> Result<Filled, AllocError>
    ensures says { IfOk result (λ z. filling_in z.filling scope.new ≡ braces.filling_of (runs.initially initializer.now).says ctype scope.old) }
    ensures zeroed { IfOk result (λ z. z.initial.is_zeroed ≡ (runs.initially initializer.now).is_braced) }
    ensures given { IfOk result (λ z. gives.IsLasting (C.numbering callees.now) z.initial (runs.initialising (runs.initially initializer.now) ctype scope.old)) }
{
    let counted = counted_here(alloc, callees, initializer, ctype.clone()?, scope)?;
    let bare = Bare { callees };
    let walked = fill_object(alloc, &bare, initializer, ctype, scope)?;
    let Walked { filling, paired } = walked;
    let Paired { settings, .. } = paired;
    Ok(as_initial(filling, is_braced(initializer), settings, counted))
}

/// An initializer of an object of a block.
fn initialised_here<C: Callees>(
    alloc: Global,
    callees: &C,
    initializer: &Initializer,
    ctype: Shared<CType>,
    scope: &mut Scope,
) -> Result<Filled, AllocError>
    ensures says { IfOk result (λ z. filling_in z.filling scope.new ≡ braces.filling_of (runs.initially initializer.now).says ctype scope.old) }
    ensures zeroed { IfOk result (λ z. z.initial.is_zeroed ≡ (runs.initially initializer.now).is_braced) }
    ensures given { IfOk result (λ z. gives.IsGiven (C.numbering callees.now) z.initial.settings (runs.initialising (runs.initially initializer.now) ctype scope.old)) }
{
    let walked = fill_object(alloc, callees, initializer, ctype, scope)?;
    let Walked { filling, paired } = walked;
    let Paired {
        settings,
        counted,
        ..
    } = paired;
    Ok(as_initial(filling, is_braced(initializer), settings, counted))
}

/// An initializer of an object of a type that is declared with it.
pub(crate) fn initialised<C: Callees>(
    alloc: Global,
    callees: &C,
    lasts: bool,
    initializer: &Initializer,
    ctype: Shared<CType>,
    scope: &mut Scope,
) -> Result<Filled, AllocError>
    ensures says { IfOk result (λ z. filling_in z.filling scope.new ≡ braces.filling_of (runs.initially initializer.now).says ctype scope.old) }
    ensures zeroed { IfOk result (λ z. z.initial.is_zeroed ≡ (runs.initially initializer.now).is_braced) }
    ensures given { IfOk result (λ z. items.IsGivenIf lasts (C.numbering callees.now) z.initial (runs.initialising (runs.initially initializer.now) ctype scope.old)) }
{
    if lasts {
        initialised_bare(alloc, callees, initializer, ctype, scope)
    } else {
        initialised_here(alloc, callees, initializer, ctype, scope)
    }
}
