//! What is found of a tree, from what is found of the trees in it (C99 6.2.1).

ghost use Rattle.std.specs.Prelude.{◌≡◌, ◌∷◌, [], Some, option_map, IfOk, OnOk};
ghost use Rattle.c_means.specs.Names as names;
ghost use Rattle.c_means.specs.Names.{◌then◌};
ghost use Rattle.c_names.specs.Trees as trees;

use crate::found::{Found, NameAt, declared, nothing, take_declares, take_name, take_parameters};
use crate::parting::{bind, leave_out_declared};
use crate::stack::Stack;
use crate::words::{Binding, Literal, Word, ordinary, tagged};
use c_language::{Name, TagName};
use plain_data::Bytes;
use std::alloc::{AllocError, Global};
use std::mem::replace;

/// A word that is used. It fails for want of memory alone.
pub(crate) fn using_word(alloc: Global, word: Word) -> Result<Found, AllocError>
    ensures { IfOk result (λ x. x ≡ names.using word) }
{
    let mut found = nothing(alloc);
    found.uses.push(word)?;
    Ok(found)
}

/// A word that is declared. It fails for want of memory alone.
pub(crate) fn declaring(alloc: Global, at: u32, word: Word) -> Result<Found, AllocError>
    ensures { IfOk result (λ x. x ≡ names.declaring at word) }
{
    let mut found = nothing(alloc);
    found.declares.push(Binding { at, word })?;
    Ok(found)
}

/// A string literal, or `__func__`. It fails for want of memory alone.
pub(crate) fn literal(alloc: Global, at: u32, text: Option<Bytes>) -> Result<Found, AllocError>
    ensures { IfOk result (λ x. x ≡ names.literal at text) }
{
    let mut found = nothing(alloc);
    found.literals.push(Literal { at, text })?;
    Ok(found)
}

/// Puts `x` in front of `y`, of which it binds uses.
fn put_before(alloc: Global, x: &mut Found, y: &mut Found) -> Result<(), AllocError>
    ensures { OnOk result (y.new ≡ (x.old then y.old)) }
{
    bind(alloc, &x.declares, y)?;
    y.uses.take_over(alloc, &mut x.uses)?;
    y.declares.take_over(alloc, &mut x.declares)?;
    y.bound.take_over(alloc, &mut x.bound)?;
    y.literals.take_over(alloc, &mut x.literals)?;
    y.refers.take_over(alloc, &mut x.refers)?;
    y.named = None;
    y.is_derived = false;
    y.parameters = Stack::new(alloc);
    Ok(())
}

/// One behind the other: what `x` declares binds the uses in `y`. It takes time by the lists of `x`, and where `x`
/// declares anything, by the uses in `y` for each of its declarations. It fails for want of memory alone.
pub(crate) fn followed_by(alloc: Global, x: Found, y: Found) -> Result<Found, AllocError>
    ensures { IfOk result (λ z. z ≡ (x then y)) }
{
    let mut first = x;
    let mut whole = y;
    put_before(alloc, &mut first, &mut whole)?;
    Ok(whole)
}

/// What it declares ends with it. It takes no memory.
pub(crate) fn scoped(alloc: Global, x: Found) -> Found
    ensures { result ≡ names.scoped x }
{
    let mut found = x;
    found.declares = Stack::new(alloc);
    found.refers = Stack::new(alloc);
    found
}

/// Its tags without a list are of what stands around it. It takes no memory.
pub(crate) fn settled(alloc: Global, x: Found) -> Found
    ensures { result ≡ names.settled x }
{
    let mut found = x;
    found.refers = Stack::new(alloc);
    found
}

/// A tag that is declared, where there is one. It fails for want of memory alone.
pub(crate) fn tag_declared(alloc: Global, tag: &Option<TagName>) -> Result<Found, AllocError>
    ensures { IfOk result (λ x. x ≡ names.tag_declared tag.now) }
{
    match tag {
        None => Ok(nothing(alloc)),
        Some(tag) => declaring(alloc, tag.at, tagged(&tag.name)?),
    }
}

/// A tag without a list (C99 6.7.2.3p7). It fails for want of memory alone.
pub(crate) fn tag_used(alloc: Global, tag: &TagName) -> Result<Found, AllocError>
    ensures { IfOk result (λ x. x ≡ names.tag_used tag.now) }
{
    let used = tagged(&tag.name)?;
    let word = tagged(&tag.name)?;
    let mut found = using_word(alloc, used)?;
    found.refers.push(Binding { at: tag.at, word })?;
    Ok(found)
}

/// An ordinary name that is used. It fails for want of memory alone.
pub(crate) fn name_used(alloc: Global, name: &Name) -> Result<Found, AllocError>
    ensures { IfOk result (λ x. x ≡ names.using (names.ordinary name.now)) }
{
    using_word(alloc, ordinary(name)?)
}

/// A declarator's name. It fails for want of memory alone.
pub(crate) fn declarator_name(alloc: Global, at: u32, name: &Name) -> Result<Found, AllocError>
    ensures { IfOk result (λ x. x ≡ record names.none { named = Some (at, name.now) }) }
{
    let name = name.clone()?;
    let mut found = nothing(alloc);
    found.named = Some(NameAt { at, name });
    Ok(found)
}

/// A pointer, array or function (C99 6.7.5.1 to 6.7.5.3), of which `x` stands behind the declarator nearer to the name.
/// It fails for want of memory alone.
pub(crate) fn derived(alloc: Global, inner: Found, x: Found) -> Result<Found, AllocError>
    ensures { IfOk result (λ z. z ≡ names.derived inner x) }
{
    let mut inner = inner;
    let named = take_name(&mut inner);
    let parameters = take_parameters(alloc, &mut inner);
    let mut whole = followed_by(alloc, inner, x)?;
    whole.named = named;
    whole.is_derived = true;
    whole.parameters = parameters;
    Ok(whole)
}

fn parameters_from(is_derived: bool, inner: Stack<Binding>, own: Stack<Binding>) -> Stack<Binding>
    ensures { result ≡ names.parameters_from is_derived inner own }
{
    if is_derived { inner } else { own }
}

/// A function's declarator over its parameters (C99 6.2.1p4). It fails for want of memory alone.
pub(crate) fn function_names(
    alloc: Global,
    inner: Found,
    parameters: Found,
) -> Result<Found, AllocError>
    ensures { IfOk result (λ z. z ≡ names.function_names inner parameters) }
{
    let mut list = parameters;
    let own = take_declares(alloc, &mut list);
    let is_derived = inner.is_derived;
    let mut whole = derived(alloc, inner, scoped(alloc, list))?;
    let inside = take_parameters(alloc, &mut whole);
    whole.parameters = parameters_from(is_derived, inside, own);
    Ok(whole)
}

fn name_declared(alloc: Global, named: Option<NameAt>) -> Result<Found, AllocError>
    ensures { IfOk result (λ x. x ≡ names.name_declared (option_map trees.pair named)) }
{
    match named {
        None => Ok(nothing(alloc)),
        Some(named) => {
            let NameAt { at, name } = named;
            declaring(
                alloc,
                at,
                Word {
                    is_tag: false,
                    name,
                },
            )
        }
    }
}

/// A declarator with its name, which is in force behind it (C99 6.2.1p7). It fails for want of memory alone.
pub(crate) fn with_name(alloc: Global, declarator: Found) -> Result<Found, AllocError>
    ensures { IfOk result (λ x. x ≡ names.with_name declarator) }
{
    let mut declarator = declarator;
    let named = take_name(&mut declarator);
    let name = name_declared(alloc, named)?;
    followed_by(alloc, declarator, name)
}

fn declare_tags(alloc: Global, found: &mut Found) -> Result<(), AllocError>
    ensures { OnOk result (found.new ≡ names.standing_alone found.old) }
{
    leave_out_declared(alloc, found)?;
    let mut declares = replace(&mut found.declares, Stack::new(alloc));
    found.declares = replace(&mut found.refers, Stack::new(alloc));
    found.declares.take_over(alloc, &mut declares)
}

/// A tag that stands alone is declared anew (C99 6.7.2.3p7). It fails for want of memory alone.
pub(crate) fn standing_alone(alloc: Global, x: Found) -> Result<Found, AllocError>
    ensures { IfOk result (λ z. z ≡ names.standing_alone x) }
{
    let mut found = x;
    declare_tags(alloc, &mut found)?;
    Ok(found)
}

/// A function's head with its body, which is in the scope of its parameters (C99 6.2.1p4). It fails for want of memory
/// alone.
pub(crate) fn with_body(alloc: Global, head: Found, body: Found) -> Result<Found, AllocError>
    ensures { IfOk result (λ z. z ≡ names.with_body head body) }
{
    let mut head = head;
    let parameters = take_parameters(alloc, &mut head);
    let inside = followed_by(alloc, declared(alloc, parameters), body)?;
    let head = with_name(alloc, head)?;
    followed_by(alloc, head, scoped(alloc, inside))
}
