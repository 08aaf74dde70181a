//! The names of initializers, declarations and external declarations (C99 6.7, 6.9).

ghost use Rattle.std.specs.Prelude.{◌≡◌, ◌∷◌, [], map, IfOk, OnOk};
ghost use Rattle.c_means.specs.Names as names;
ghost use Rattle.c_means.specs.Names.{◌then◌};
ghost use Rattle.c_means.specs.Programs as programs;
ghost use Rattle.c_names.specs.Kept.{kept as kept_};
ghost use Rattle.c_names.specs.Trees as trees;

use crate::expressions::{put_declarator, put_expr, put_specifiers};
use crate::found::Found;
use crate::stack::Stack;
use crate::statements::put_stmt;
use crate::summaries::{Names, kept_last};
use crate::working::{embody, join, join_all, name_last, put_nothing, settle, stand_alone};
use c_language::{
    Body, Declaration, Declarator, Designator, External, InitDeclarator, Initializer,
    InitializerItem, Specifier,
};
use plain_data::Shared;
use std::alloc::{AllocError, Global};

fn put_designator(alloc: Global, d: &Designator, done: &mut Stack<Found>) -> Result<(), AllocError>
    ensures { OnOk result (done.new ≡ names.designator_names d.now ∷ done.old) }
{
    match d {
        Designator::Member { .. } => put_nothing(alloc, done),
        Designator::Element { index, .. } => put_expr(alloc, index.get(), done),
    }
}

fn put_designators(
    alloc: Global,
    items: &[Designator],
    done: &mut Stack<Found>,
) -> Result<(), AllocError>
    ensures { OnOk result (done.new ≡ names.all_of names.designator_names items.now ∷ done.old) }
{
    for item in items {
        put_designator(alloc, item, done)?;
    }
    join_all(alloc, items.len(), done)
}

/// Puts the names of an initializer on (C99 6.7.8).
#[cycle(initializer)]
fn put_initializer(
    alloc: Global,
    i: &Initializer,
    done: &mut Stack<Found>,
) -> Result<(), AllocError>
    ensures { OnOk result (done.new ≡ names.initializer_names i.now ∷ done.old) }
{
    match i {
        Initializer::Value { value } => put_expr(alloc, value.get(), done),
        Initializer::List { items, .. } => put_items(alloc, items.as_slice(), done),
    }
}

#[cycle(initializer)]
fn put_items(
    alloc: Global,
    items: &[Shared<InitializerItem>],
    done: &mut Stack<Found>,
) -> Result<(), AllocError>
    ensures { OnOk result (done.new ≡ names.all (map trees.item_names items.now) ∷ done.old) }
{
    for item in items {
        put_item(alloc, item.get(), done)?;
    }
    join_all(alloc, items.len(), done)
}

#[cycle(initializer)]
fn put_item(alloc: Global, i: &InitializerItem, done: &mut Stack<Found>) -> Result<(), AllocError>
    ensures { OnOk result (done.new ≡ trees.item_names i.now ∷ done.old) }
{
    put_designators(alloc, i.designators.as_slice(), done)?;
    put_initializer(alloc, i.value.get(), done)?;
    join(alloc, done)
}

fn put_optional_initializer(
    alloc: Global,
    i: &Option<Initializer>,
    done: &mut Stack<Found>,
) -> Result<(), AllocError>
    ensures { OnOk result (done.new ≡ names.of_some names.initializer_names i.now ∷ done.old) }
{
    match i {
        None => put_nothing(alloc, done),
        Some(i) => put_initializer(alloc, i, done),
    }
}

fn put_declared_names(
    alloc: Global,
    d: &InitDeclarator,
    done: &mut Stack<Found>,
) -> Result<(), AllocError>
    ensures { OnOk result (done.new ≡ names.declared_names d.now ∷ done.old) }
{
    put_declarator(alloc, &d.declarator, done)?;
    name_last(alloc, done)?;
    put_optional_initializer(alloc, &d.initializer, done)?;
    join(alloc, done)
}

fn put_all_declared(
    alloc: Global,
    items: &[InitDeclarator],
    done: &mut Stack<Found>,
) -> Result<(), AllocError>
    ensures { OnOk result (done.new ≡ names.all_of names.declared_names items.now ∷ done.old) }
{
    for item in items {
        put_declared_names(alloc, item, done)?;
    }
    join_all(alloc, items.len(), done)
}

#[tactic(auto, using(crate::proofs::NamesOf::all_of_is))]
fn put_all_specifiers(
    alloc: Global,
    items: &[Shared<Specifier>],
    done: &mut Stack<Found>,
) -> Result<(), AllocError>
    ensures { OnOk result (done.new ≡ names.all_of names.specifier_of items.now ∷ done.old) }
{
    put_specifiers(alloc, items, done)
}

fn put_standing(
    alloc: Global,
    specifiers: &[Shared<Specifier>],
    done: &mut Stack<Found>,
) -> Result<(), AllocError>
    ensures { OnOk result (done.new ≡ names.standing_alone (names.all_of names.specifier_of specifiers.now) ∷ done.old) }
{
    put_all_specifiers(alloc, specifiers, done)?;
    stand_alone(alloc, done)
}

fn put_declared_behind(
    alloc: Global,
    specifiers: &[Shared<Specifier>],
    items: &[InitDeclarator],
    done: &mut Stack<Found>,
) -> Result<(), AllocError>
    ensures { OnOk result (done.new ≡ names.settled (names.all_of names.specifier_of specifiers.now then names.all_of names.declared_names items.now) ∷ done.old) }
{
    put_all_specifiers(alloc, specifiers, done)?;
    put_all_declared(alloc, items, done)?;
    join(alloc, done)?;
    settle(alloc, done)
}

fn put_declarators(
    alloc: Global,
    specifiers: &[Shared<Specifier>],
    items: &[InitDeclarator],
    done: &mut Stack<Found>,
) -> Result<(), AllocError>
    ensures { OnOk result (done.new ≡ names.with_declarators (names.all_of names.specifier_of specifiers.now) items.now ∷ done.old) }
{
    match items.split_first() {
        None => put_standing(alloc, specifiers, done),
        Some(_) => put_declared_behind(alloc, specifiers, items, done),
    }
}

/// Puts the names of a declaration on (C99 6.7). It fails for want of memory alone.
pub(crate) fn put_declaration(
    alloc: Global,
    d: &Declaration,
    done: &mut Stack<Found>,
) -> Result<(), AllocError>
    ensures { OnOk result (done.new ≡ names.declaration_names d.now ∷ done.old) }
{
    put_declarators(
        alloc,
        d.specifiers.as_slice(),
        d.declarators.as_slice(),
        done,
    )
}

fn put_body(alloc: Global, b: &Body, done: &mut Stack<Found>) -> Result<(), AllocError>
    ensures { OnOk result (done.new ≡ names.body_names b.now ∷ done.old) }
{
    match b {
        Body::Read { block } => put_stmt(alloc, block.get(), done),
        Body::Unread { .. } => put_nothing(alloc, done),
    }
}

fn put_function(
    alloc: Global,
    specifiers: &[Shared<Specifier>],
    declarator: &Declarator,
    body: &Body,
    done: &mut Stack<Found>,
) -> Result<(), AllocError>
    ensures { OnOk result (done.new ≡ trees.function_names specifiers.now declarator.now body.now ∷ done.old) }
{
    put_all_specifiers(alloc, specifiers, done)?;
    put_declarator(alloc, declarator, done)?;
    put_body(alloc, body, done)?;
    embody(alloc, done)?;
    join(alloc, done)?;
    settle(alloc, done)
}

fn put_external(
    alloc: Global,
    external: &External,
    done: &mut Stack<Found>,
) -> Result<(), AllocError>
    ensures { OnOk result (done.new ≡ names.external_names external.now ∷ done.old) }
{
    match external {
        External::Function {
            specifiers,
            declarator,
            body,
        } => put_function(alloc, specifiers.as_slice(), declarator, body, done),
        External::Declared { declaration } => put_declaration(alloc, declaration, done),
        External::Empty { .. } => put_nothing(alloc, done),
    }
}

fn put_head(
    alloc: Global,
    specifiers: &[Shared<Specifier>],
    declarator: &Declarator,
    done: &mut Stack<Found>,
) -> Result<(), AllocError>
    ensures { OnOk result (done.new ≡ programs.head_names specifiers.now declarator.now ∷ done.old) }
{
    put_all_specifiers(alloc, specifiers, done)?;
    put_declarator(alloc, declarator, done)?;
    name_last(alloc, done)?;
    join(alloc, done)?;
    settle(alloc, done)
}

/// The names of an external declaration (C99 6.9), of a function definition with its body. It takes time by the size of
/// the tree, and for each declaration in a block by the uses behind it. It fails for want of memory alone.
pub fn external_names(alloc: Global, external: &External) -> Result<Names, AllocError>
    ensures { IfOk result (λ x. x ≡ kept_ (names.external_names external.now)) }
{
    let mut done = Stack::new(alloc);
    put_external(alloc, external, &mut done)?;
    kept_last(alloc, done)
}

/// The names of the head of a function definition (C99 6.9.1). It fails for want of memory alone.
pub fn head_names(
    alloc: Global,
    specifiers: &[Shared<Specifier>],
    declarator: &Declarator,
) -> Result<Names, AllocError>
    ensures { IfOk result (λ x. x ≡ kept_ (programs.head_names specifiers.now declarator.now)) }
{
    let mut done = Stack::new(alloc);
    put_head(alloc, specifiers, declarator, &mut done)?;
    kept_last(alloc, done)
}
