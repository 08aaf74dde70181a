//! What the trees of initializers say (C99 6.7.8).

ghost use Rattle.std.specs.Prelude.{◌≡◌, [], ◌∷◌, map, IfOk, Some};
ghost use Rattle.c_language.specs.Scopes as scopes;
ghost use Rattle.c_language.specs.Typing.{typed_in};
ghost use Rattle.c_language.specs.Initials as spec;
ghost use Rattle.c_language.specs.Units as units;
ghost use Rattle.c_initials.specs.Filled.{filling_in, no_filling};
ghost use Rattle.c_initials.specs.Said as said;

use crate::designators::designated_by;
use crate::filling::{Filling, fills_part, fills_value};
use crate::frames::{Frame, Frames};
use crate::parts::{Part, part_at};
use crate::values::length_of;
use c_language::{CType, Fault, Initializer, InitializerItem, Rule, Told};
use c_type_scope::Scope;
use c_typing::typed;
use plain_data::Shared;
use std::alloc::{AllocError, Global};
use std::marker::Model;

/// Where the closest braces go on behind a list for a part.
#[derive(Drop)]
pub struct Goes {
    frames: Frames,
    high: u64,
}

impl Model for Goes {
    ghost use Rattle.c_initials.specs.Said as said;

    ghost Value = { said.Goes };

    ghost view = { λ g. record { frames = g.frames; high = g.high } };
}

/// A list for a part, at its beginning, and where the closest braces go on behind it.
#[derive(Drop)]
pub struct Opened {
    pub inside: Filling,
    pub outside: Option<Goes>,
}

/// Begins a list that initialises the next part of the innermost object that has one left (C99 6.7.8p20). It fails for
/// want of memory alone.
pub fn list_begun(
    alloc: Global,
    scope: &Scope,
    at: u32,
    filling: Filling,
) -> Result<Opened, AllocError>
    ensures inside { IfOk result (λ o. o.inside ≡ said.opened at scope.now.tables filling.frames filling) }
    ensures outside { IfOk result (λ o. o.outside ≡ said.goes_on scope.now.tables filling.frames filling.high) }
{
    let mut filling = filling;
    match filling.frames.pop() {
        None => {
            filling.faults.push(Fault {
                at,
                rule: Rule::TypeMismatch,
            })?;
            Ok(Opened {
                inside: filling,
                outside: None,
            })
        }
        Some(frame) => {
            let part = part_at(alloc, scope.tables(), &frame.whole, frame.next)?;
            begun_within(alloc, part, filling.within(frame.stepped(scope.tables()))?)
        }
    }
}

fn begun_within(alloc: Global, part: Shared<Part>, filling: Filling) -> Result<Opened, AllocError>
    ensures inside { IfOk result (λ o. o.inside ≡ record filling { frames = spec.started part ∷ []; high = 0 }) }
    ensures outside { IfOk result (λ o. o.outside ≡ Some (record { frames = filling.frames; high = spec.high_of filling.high filling.frames })) }
{
    let Filling {
        frames,
        high,
        parts,
        faults,
    } = filling;
    let high = frames.high(high);
    let inside = Filling {
        frames: Frames::new(alloc).with(Frame::started(part))?,
        high: 0,
        parts,
        faults,
    };
    Ok(Opened {
        inside,
        outside: Some(Goes { frames, high }),
    })
}

/// Goes on behind a list for a part.
pub fn list_closed(outside: Option<Goes>, filling: Filling, scope: &Scope) -> Filling
    ensures { filling_in result scope.now ≡ said.closed outside (filling_in filling scope.now) }
{
    match outside {
        None => filling,
        Some(Goes { frames, high }) => Filling {
            frames,
            high,
            parts: filling.parts,
            faults: filling.faults,
        },
    }
}

/// Leaves the objects without a part left. It takes no memory.
pub fn with_part_left(scope: &Scope, filling: Filling) -> Filling
    ensures { result ≡ record filling { frames = spec.with_part_left scope.now.tables filling.frames } }
{
    let Filling {
        frames,
        high,
        parts,
        faults,
    } = filling;
    Filling {
        frames: frames.with_part_left(scope.tables()),
        high,
        parts,
        faults,
    }
}

/// What an initializer says as the next part of a list in braces. It fails for want of memory alone.
#[cycle(initial)]
#[tactic(auto, using(crate::proofs::Listed::says_value, crate::proofs::Listed::says_list))]
pub fn fills(
    alloc: Global,
    initializer: &Initializer,
    filling: Filling,
    scope: &mut Scope,
) -> Result<Filling, AllocError>
    ensures { IfOk result (λ z. filling_in z scope.new ≡ (units.initial_says initializer.now).fills (filling_in filling scope.old)) }
{
    match initializer {
        Initializer::Value { value } => {
            let told = typed(alloc, value.get(), scope)?;
            fills_value(alloc, scope, told, filling)
        }
        Initializer::List { at, items, .. } => {
            let filling = with_part_left(scope, filling);
            fills_list(alloc, items.as_slice(), *at, filling, scope)
        }
    }
}

#[cycle(initial)]
#[tactic(auto, using(crate::proofs::Listed::within))]
fn fills_list(
    alloc: Global,
    items: &[Shared<InitializerItem>],
    at: u32,
    filling: Filling,
    scope: &mut Scope,
) -> Result<Filling, AllocError>
    ensures { IfOk result (λ z. filling_in z scope.new ≡ spec.fills_list at (map said.item_fills items.now) filling.frames (filling_in filling scope.old)) }
{
    let Opened { inside, outside } = list_begun(alloc, scope, at, filling)?;
    let filled = fills_all(alloc, items, inside, scope)?;
    Ok(list_closed(outside, filled, scope))
}

#[cycle(initial)]
fn fills_all(
    alloc: Global,
    items: &[Shared<InitializerItem>],
    filling: Filling,
    scope: &mut Scope,
) -> Result<Filling, AllocError>
    ensures { IfOk result (λ z. filling_in z scope.new ≡ spec.fills_all (map said.item_fills items.now) (filling_in filling scope.old)) }
{
    let mut filling = filling;
    for item in items {
        filling = fills_item(alloc, item.get(), filling, scope)?;
    }
    Ok(filling)
}

#[cycle(initial)]
#[tactic(auto, using(crate::proofs::Listed::says_item))]
fn fills_item(
    alloc: Global,
    item: &InitializerItem,
    filling: Filling,
    scope: &mut Scope,
) -> Result<Filling, AllocError>
    ensures { IfOk result (λ z. filling_in z scope.new ≡ said.item_fills item.now (filling_in filling scope.old)) }
{
    let filling = designated_by(alloc, item.designators.as_slice(), filling, scope)?;
    fills(alloc, item.value.get(), filling, scope)
}

/// A list in braces for a whole object, at its beginning. It fails for want of memory alone.
pub fn list_alone(alloc: Global, whole: Shared<Part>) -> Result<Filling, AllocError>
    ensures { IfOk result (λ z. z ≡ record no_filling { frames = spec.started whole ∷ [] }) }
{
    Filling::new(alloc).within(Frame::started(whole))
}

/// An expression without braces, for a whole object. It fails for want of memory alone.
pub fn value_alone(
    alloc: Global,
    scope: &Scope,
    told: Told,
    whole: Shared<Part>,
) -> Result<Filling, AllocError>
    ensures { IfOk result (λ z. filling_in z scope.now ≡ spec.value_alone (typed_in told scope.now) whole (filling_in no_filling scopes.empty)) }
{
    let next = length_of(&told.shown);
    let part = whole.clone()?;
    let filling = Filling::new(alloc).within(Frame { whole, next })?;
    fills_part(alloc, scope, told, part, filling)
}

/// What an initializer says of an object of a type that is declared with it: the parts that it initialises, in the
/// order of its expressions, how many of the object's own parts were met, and the rules that it breaks. It fails for
/// want of memory alone.
#[tactic(auto, using(crate::proofs::Listed::says_value, crate::proofs::Listed::says_list))]
pub fn filling_of(
    alloc: Global,
    initializer: &Initializer,
    ctype: Shared<CType>,
    scope: &mut Scope,
) -> Result<Filling, AllocError>
    ensures { IfOk result (λ z. filling_in z scope.new ≡ spec.filling_of (units.initial_says initializer.now) ctype scope.old) }
{
    let whole = Part::whole(alloc, ctype)?;
    match initializer {
        Initializer::Value { value } => {
            let told = typed(alloc, value.get(), scope)?;
            value_alone(alloc, scope, told, whole)
        }
        Initializer::List { items, .. } => {
            let filling = list_alone(alloc, whole)?;
            fills_all(alloc, items.as_slice(), filling, scope)
        }
    }
}
