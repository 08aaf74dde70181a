//! The declarations of a unit in order: of each the rules that it breaks, the enumeration constants that it declares,
//! and its names.

use crate::faults::put_faults;
use crate::naming::{put_meaning, put_value_of};
use crate::sizing::{put_extent, put_value_line};
use crate::text::put;
use c_language::{Declaration, Declarator, Expr, External, InitDeclarator, Initializer, Specifier};
use c_types::{DeclarationSaid, Entry, FunctionSaid, Means, Names, Scope};
use plain_data::{Bytes, Shared};
use std::alloc::{AllocError, Global};

/// What is answered of each name.
#[derive(Clone, Copy)]
pub enum Answer {
    /// Its type.
    Types,
    /// Its size, and where its members lie.
    Layouts,
}

/// Puts what a name means at the end.
fn put_entry(
    alloc: Global,
    answer: Answer,
    entry: &Entry,
    scope: &Scope,
    text: &mut Bytes,
) -> Result<(), AllocError> {
    match answer {
        Answer::Types => put_meaning(scope.names().tables(), entry, text),
        Answer::Layouts => put_extent(alloc, scope.names().tables(), entry, text),
    }
}

fn put_line_end(answer: Answer, text: &mut Bytes) -> Result<(), AllocError> {
    match answer {
        Answer::Types => put(text, "\n"),
        Answer::Layouts => Ok(()),
    }
}

/// Puts what an initializer's value is at the end.
fn put_value_in(
    alloc: Global,
    answer: Answer,
    entry: &Entry,
    value: &Expr,
    names: &mut Names,
    text: &mut Bytes,
) -> Result<(), AllocError> {
    match answer {
        Answer::Types => put_value_of(alloc, value, names, text),
        Answer::Layouts => put_value_line(alloc, &entry.name, value, names, text),
    }
}

/// Puts what an initializer is at the end. It is read again in a block of a copy, since its tags are declared already;
/// the copy takes time by all names so far, which the small sources of `checks/` bear.
fn put_initial(
    alloc: Global,
    answer: Answer,
    entry: &Entry,
    initializer: &Option<Initializer>,
    scope: &Scope,
    text: &mut Bytes,
) -> Result<(), AllocError> {
    if let Some(Initializer::Value { value }) = initializer {
        let mut names = scope.names().duplicate()?;
        names.enter()?;
        put_value_in(alloc, answer, entry, value.get(), &mut names, text)?;
    }
    Ok(())
}

/// Puts what a declarator declares at the end, and its value where its declaration breaks no rule.
fn put_declarator(
    alloc: Global,
    answer: Answer,
    is_sound: bool,
    entry: &Entry,
    item: &InitDeclarator,
    scope: &Scope,
    text: &mut Bytes,
) -> Result<(), AllocError> {
    put_entry(alloc, answer, entry, scope, text)?;
    if is_sound {
        put_initial(alloc, answer, entry, &item.initializer, scope, text)?;
    }
    put_line_end(answer, text)
}

/// The names behind the first `known`.
fn behind(names: &[Shared<Entry>], known: usize) -> &[Shared<Entry>] {
    if known < names.len() {
        &names[known..]
    } else {
        &[]
    }
}

/// Puts the enumeration constants at the end that the file declares behind its first `known` names.
fn put_constants(
    alloc: Global,
    answer: Answer,
    known: usize,
    scope: &Scope,
    text: &mut Bytes,
) -> Result<(), AllocError> {
    for entry in behind(scope.names().file().entries(), known) {
        if matches!(&entry.get().means, Means::Constant { .. }) {
            put_entry(alloc, answer, entry.get(), scope, text)?;
            put_line_end(answer, text)?;
        }
    }
    Ok(())
}

fn put_said(
    alloc: Global,
    answer: Answer,
    known: usize,
    items: &[InitDeclarator],
    said: &DeclarationSaid,
    scope: &Scope,
    text: &mut Bytes,
) -> Result<(), AllocError> {
    put_faults(said.faults.as_slice(), text)?;
    put_constants(alloc, answer, known, scope, text)?;
    let is_sound = said.faults.is_empty();
    for (entry, item) in said.entries.iter().zip(items.iter()) {
        put_declarator(alloc, answer, is_sound, entry.get(), item, scope, text)?;
    }
    Ok(())
}

fn put_declaration(
    alloc: Global,
    answer: Answer,
    declaration: &Declaration,
    scope: &mut Scope,
    text: &mut Bytes,
) -> Result<(), AllocError> {
    let known = scope.names().file().entries().len();
    match scope.declare(declaration) {
        Ok(said) => {
            let items = declaration.declarators.as_slice();
            put_said(alloc, answer, known, items, &said, scope, text)
        }
        Err(failed) => Err(failed),
    }
}

fn put_head(
    alloc: Global,
    answer: Answer,
    known: usize,
    said: &FunctionSaid,
    scope: &Scope,
    text: &mut Bytes,
) -> Result<(), AllocError> {
    put_faults(said.faults.as_slice(), text)?;
    put_constants(alloc, answer, known, scope, text)?;
    if let Some(entry) = &said.entry {
        put_entry(alloc, answer, entry.get(), scope, text)?;
        put_line_end(answer, text)?;
    }
    Ok(())
}

fn put_function(
    alloc: Global,
    answer: Answer,
    specifiers: &[Shared<Specifier>],
    declarator: &Declarator,
    scope: &mut Scope,
    text: &mut Bytes,
) -> Result<(), AllocError> {
    let known = scope.names().file().entries().len();
    match scope.declare_function(specifiers, declarator) {
        Ok(said) => put_head(alloc, answer, known, &said, scope, text),
        Err(failed) => Err(failed),
    }
}

fn put_external(
    alloc: Global,
    answer: Answer,
    external: &External,
    scope: &mut Scope,
    text: &mut Bytes,
) -> Result<(), AllocError> {
    match external {
        External::Function {
            specifiers,
            declarator,
            ..
        } => {
            let specifiers = specifiers.as_slice();
            put_function(alloc, answer, specifiers, declarator, scope, text)
        }
        External::Declared { declaration } => {
            put_declaration(alloc, answer, declaration, scope, text)
        }
        External::Empty { .. } => Ok(()),
    }
}

fn put_externals(
    alloc: Global,
    answer: Answer,
    externals: &[Shared<External>],
    scope: &mut Scope,
    text: &mut Bytes,
) -> Result<(), AllocError> {
    for external in externals {
        put_external(alloc, answer, external.get(), scope, text)?;
    }
    Ok(())
}

/// Puts what the external declarations of a unit say at the end. It fails for want of memory alone.
pub fn put_unit(
    alloc: Global,
    answer: Answer,
    externals: &[Shared<External>],
    text: &mut Bytes,
) -> Result<(), AllocError> {
    let mut scope = Scope::new(alloc);
    put_externals(alloc, answer, externals, &mut scope, text)
}
