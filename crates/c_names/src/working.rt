//! What is found of trees, on a stack: a tree's names are put on it, and those of its parts are taken from it.

ghost use Rattle.std.specs.Prelude.{◌≡◌, ◌∷◌, None, Some, IfOk, OnOk};
ghost use Rattle.c_means.specs.Expressions.{joined as text_joined};
ghost use Rattle.c_means.specs.Names as names;
ghost use Rattle.c_names.specs.Working as spec;

use crate::forms::{
    declarator_name, declaring, derived, followed_by, function_names, literal, name_used, scoped,
    settled, standing_alone, tag_declared, tag_used, using_word, with_body, with_name,
};
use crate::found::{Found, nothing};
use crate::stack::Stack;
use crate::words::{ordinary, tagged};
use c_language::{Name, TagName};
use plain_data::{Bytes, Shared};
use std::alloc::{AllocError, Global};

/// Puts nothing on. It fails for want of memory alone, as do all of these.
pub(crate) fn put_nothing(alloc: Global, done: &mut Stack<Found>) -> Result<(), AllocError>
    ensures { OnOk result (done.new ≡ names.none ∷ done.old) }
{
    done.push(nothing(alloc))
}

/// Puts an ordinary name on that is used.
pub(crate) fn put_name(
    alloc: Global,
    name: &Name,
    done: &mut Stack<Found>,
) -> Result<(), AllocError>
    ensures { OnOk result (done.new ≡ names.using (names.ordinary name.now) ∷ done.old) }
{
    done.push(name_used(alloc, name)?)
}

/// Puts the tag of an enumeration on that is used.
pub(crate) fn put_enumeration(
    alloc: Global,
    tag: &TagName,
    done: &mut Stack<Found>,
) -> Result<(), AllocError>
    ensures { OnOk result (done.new ≡ names.using (names.tagged tag.now.name) ∷ done.old) }
{
    let word = tagged(&tag.name)?;
    done.push(using_word(alloc, word)?)
}

/// Puts a tag without a list on (C99 6.7.2.3p7).
pub(crate) fn put_tag(
    alloc: Global,
    tag: &TagName,
    done: &mut Stack<Found>,
) -> Result<(), AllocError>
    ensures { OnOk result (done.new ≡ names.tag_used tag.now ∷ done.old) }
{
    done.push(tag_used(alloc, tag)?)
}

/// Puts a tag on that is declared, where there is one.
pub(crate) fn put_declared_tag(
    alloc: Global,
    tag: &Option<TagName>,
    done: &mut Stack<Found>,
) -> Result<(), AllocError>
    ensures { OnOk result (done.new ≡ names.tag_declared tag.now ∷ done.old) }
{
    done.push(tag_declared(alloc, tag)?)
}

/// Puts an ordinary name on that is declared.
pub(crate) fn put_declared(
    alloc: Global,
    at: u32,
    name: &Name,
    done: &mut Stack<Found>,
) -> Result<(), AllocError>
    ensures { OnOk result (done.new ≡ names.declaring at (names.ordinary name.now) ∷ done.old) }
{
    let word = ordinary(name)?;
    done.push(declaring(alloc, at, word)?)
}

/// Puts a declarator's name on.
pub(crate) fn put_declarator_name(
    alloc: Global,
    at: u32,
    name: &Name,
    done: &mut Stack<Found>,
) -> Result<(), AllocError>
    ensures { OnOk result (done.new ≡ record names.none { named = Some (at, name.now) } ∷ done.old) }
{
    done.push(declarator_name(alloc, at, name)?)
}

/// The bytes of adjacent string literals together (C99 6.4.5).
fn text_of(alloc: Global, pieces: &[Shared<Bytes>]) -> Result<Bytes, AllocError>
    ensures { IfOk result (λ bytes. bytes ≡ text_joined pieces.now) }
{
    let mut text = Bytes::new(alloc);
    for piece in pieces {
        text.extend_from_slice(piece.get().as_slice())?;
    }
    Ok(text)
}

/// Puts adjacent string literals on (C99 6.4.5).
pub(crate) fn put_literal(
    alloc: Global,
    at: u32,
    pieces: &[Shared<Bytes>],
    done: &mut Stack<Found>,
) -> Result<(), AllocError>
    ensures { OnOk result (done.new ≡ names.literal at (Some (text_joined pieces.now)) ∷ done.old) }
{
    let text = text_of(alloc, pieces)?;
    done.push(literal(alloc, at, Some(text))?)
}

/// Puts `__func__` on (C99 6.4.2.2).
pub(crate) fn put_function_name(
    alloc: Global,
    at: u32,
    done: &mut Stack<Found>,
) -> Result<(), AllocError>
    ensures { OnOk result (done.new ≡ names.literal at None ∷ done.old) }
{
    done.push(literal(alloc, at, None)?)
}

/// Puts one behind the other in place of both.
pub(crate) fn join(alloc: Global, done: &mut Stack<Found>) -> Result<(), AllocError>
    ensures { OnOk result (done.new ≡ spec.joined done.old) }
{
    match done.pop() {
        None => Ok(()),
        Some(second) => match done.pop() {
            None => done.push(second),
            Some(first) => done.push(followed_by(alloc, first, second)?),
        },
    }
}

/// Puts a pointer or an array in place of the declarator nearer to the name and what stands behind that.
pub(crate) fn derive(alloc: Global, done: &mut Stack<Found>) -> Result<(), AllocError>
    ensures { OnOk result (done.new ≡ spec.derived_from done.old) }
{
    match done.pop() {
        None => Ok(()),
        Some(second) => match done.pop() {
            None => done.push(second),
            Some(first) => done.push(derived(alloc, first, second)?),
        },
    }
}

/// Puts a function's declarator in place of the declarator nearer to the name and the parameters.
pub(crate) fn to_function(alloc: Global, done: &mut Stack<Found>) -> Result<(), AllocError>
    ensures { OnOk result (done.new ≡ spec.function_from done.old) }
{
    match done.pop() {
        None => Ok(()),
        Some(second) => match done.pop() {
            None => done.push(second),
            Some(first) => done.push(function_names(alloc, first, second)?),
        },
    }
}

/// What the last declares ends with it.
pub(crate) fn scope(alloc: Global, done: &mut Stack<Found>) -> Result<(), AllocError>
    ensures { OnOk result (done.new ≡ spec.with_last names.scoped done.old) }
{
    match done.pop() {
        None => Ok(()),
        Some(last) => done.push(scoped(alloc, last)),
    }
}

/// The last one's tags without a list are of what stands around it.
pub(crate) fn settle(alloc: Global, done: &mut Stack<Found>) -> Result<(), AllocError>
    ensures { OnOk result (done.new ≡ spec.with_last names.settled done.old) }
{
    match done.pop() {
        None => Ok(()),
        Some(last) => done.push(settled(alloc, last)),
    }
}

/// The last one, a declarator, has its name behind it.
pub(crate) fn name_last(alloc: Global, done: &mut Stack<Found>) -> Result<(), AllocError>
    ensures { OnOk result (done.new ≡ spec.with_last names.with_name done.old) }
{
    match done.pop() {
        None => Ok(()),
        Some(last) => done.push(with_name(alloc, last)?),
    }
}

/// What is declared with tags alone declares them (C99 6.7.2.3p7).
pub(crate) fn stand_alone(alloc: Global, done: &mut Stack<Found>) -> Result<(), AllocError>
    ensures { OnOk result (done.new ≡ spec.with_last names.standing_alone done.old) }
{
    match done.pop() {
        None => Ok(()),
        Some(last) => done.push(standing_alone(alloc, last)?),
    }
}

/// Puts a function's declarator with its body in place of both.
pub(crate) fn embody(alloc: Global, done: &mut Stack<Found>) -> Result<(), AllocError>
    ensures { OnOk result (done.new ≡ spec.with_two names.with_body done.old) }
{
    match done.pop() {
        None => Ok(()),
        Some(second) => match done.pop() {
            None => done.push(second),
            Some(first) => done.push(with_body(alloc, first, second)?),
        },
    }
}

fn join_times(alloc: Global, count: usize, done: &mut Stack<Found>) -> Result<(), AllocError>
    ensures { OnOk result (done.new ≡ spec.joined_times count done.old) }
{
    let mut left = count;
    'joins: while left > 0 {
        left -= 1;
        join(alloc, done)?;
    }
    Ok(())
}

/// Puts as many, one behind the other, in place of them.
pub(crate) fn join_all(
    alloc: Global,
    count: usize,
    done: &mut Stack<Found>,
) -> Result<(), AllocError>
    ensures { OnOk result (done.new ≡ spec.joined_times count (names.none ∷ done.old)) }
{
    put_nothing(alloc, done)?;
    join_times(alloc, count, done)
}

/// Puts a `for` statement in place of what it begins with, its condition, its step and its body.
pub(crate) fn end_for(alloc: Global, done: &mut Stack<Found>) -> Result<(), AllocError>
    ensures { OnOk result (done.new ≡ spec.with_last names.scoped (spec.joined (spec.joined (spec.joined done.old)))) }
{
    join(alloc, done)?;
    join(alloc, done)?;
    join(alloc, done)?;
    scope(alloc, done)
}
