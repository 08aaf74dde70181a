//! The external declarations of a source, one by one (C99 6.9).

ghost use Rattle.std.specs.Prelude.{◌≡◌, [], ◌∷◌, ◌++◌, length, map, IfOk, OnOk};
ghost use Rattle.c_language.specs.Scopes as scopes;
ghost use Rattle.c_language.specs.Units as units;
ghost use Rattle.c_means.specs.Programs as programs;
ghost use Rattle.c_item_notes.specs.ItemTellings.{nothing_noted};
ghost use Rattle.c_item_notes.specs.Levels.{judged};
ghost use Rattle.c_program_notes.specs.Summaries as spec;

use c_checks::{is_main, least_fault};
use c_declarations::{FunctionSaid, function_says};
use c_item_notes::{ItemNotes, Source, declaration_notes, nothing_noted};
use c_language::{Body, CType, Declaration, Declarator, Entry, External, Name, Specifier, Tables};
use c_names::{Names, external_names, head_names};
use c_reach::FunctionNotes;
use c_stmt_notes::body_notes;
use c_type_scope::{Block, Scope};
use plain_data::{Items, Shared};
use std::alloc::{AllocError, Global};

/// What is noted of an external declaration: of what it declares and initialises, with the names of that part, and of
/// the function that it defines.
#[derive(Drop)]
pub struct OuterNotes {
    pub item: ItemNotes,
    pub names: Shared<Names>,
    pub function: Option<Shared<FunctionNotes>>,
}

/// What is noted of a source, external declaration by external declaration, and the scope at the end of the file.
#[derive(Drop)]
pub struct ProgramNotes {
    pub outers: Items<OuterNotes>,
    pub scope: Scope,
}

impl ProgramNotes {
    /// Lets the notes go. Each crate that lets them go by itself proves anew how all that they hold is let go.
    pub fn discard(self) {
        drop(self);
    }
}

/// What the head of a function definition notes, apart from its names: as an item of the file, and of the function.
#[derive(Drop)]
struct Head {
    item: ItemNotes,
    entry: Option<Shared<Entry>>,
    returned: Option<CType>,
    parameters: usize,
    is_main: bool,
}

// ---- the head of a function definition

/// The name of a function that is defined, which has linkage (C99 6.2.2p5).
fn entry_name(alloc: Global, entry: &Option<Shared<Entry>>) -> Result<Items<Name>, AllocError>
    ensures { IfOk result (λ names. names ≡ programs.entry_name entry.now) }
{
    let mut names = Items::new(alloc);
    if let Some(entry) = entry {
        names.push(entry.get().name.clone()?)?;
    }
    Ok(names)
}

/// Whether the type of a function that is defined is one that `main` may have (C99 5.1.2.2.1p1).
fn defines_main(
    alloc: Global,
    tables: &Tables,
    entry: &Option<Shared<Entry>>,
) -> Result<bool, AllocError>
    ensures { IfOk result (λ b. b ≡ spec.defines_main tables.now entry.now) }
{
    match entry {
        None => Ok(false),
        Some(entry) => is_main(alloc, tables, &entry.get().means),
    }
}

fn head_item(alloc: Global, said: &FunctionSaid) -> Result<ItemNotes, AllocError>
    ensures { IfOk result (λ n. n ≡ spec.head_item said.now.faults said.now.entry) }
{
    let links = entry_name(alloc, &said.entry)?;
    let ItemNotes {
        cases,
        calls,
        called,
        lasting,
        ..
    } = nothing_noted(alloc);
    Ok(ItemNotes {
        breach: least_fault(said.faults.as_slice()),
        cases,
        calls,
        called,
        lasting,
        links,
    })
}

/// Goes into the body of a function: its parameters are in force in one block (C99 6.2.1p4).
fn go_in(block: Block, name: Name, scope: &mut Scope) -> Result<(), AllocError>
    ensures { OnOk result (scope.new ≡ spec.gone_in block name scope.old) }
{
    scope.enter_with(block)?;
    scope.set_function(Some(name));
    Ok(())
}

fn head_of(alloc: Global, said: FunctionSaid, scope: &mut Scope) -> Result<Head, AllocError>
    ensures head { IfOk result (λ h. h ≡ spec.head_in said scope.old) }
    ensures scope { OnOk result (scope.new ≡ spec.gone_in said.block said.name scope.old) }
{
    let item = head_item(alloc, &said)?;
    let is_main = defines_main(alloc, scope.tables(), &said.entry)?;
    let FunctionSaid {
        entry,
        returned,
        parameters,
        block,
        name,
        ..
    } = said;
    go_in(block, name, scope)?;
    Ok(Head {
        item,
        entry,
        returned,
        parameters: parameters.len(),
        is_main,
    })
}

/// The head of a function definition, into whose body it goes.
fn into_body(
    alloc: Global,
    specifiers: &[Shared<Specifier>],
    declarator: &Declarator,
    scope: &mut Scope,
) -> Result<Head, AllocError>
    ensures head { IfOk result (λ h. h ≡ spec.head_of (units.function_says specifiers.now declarator.now scope.old)) }
    ensures scope { OnOk result (scope.new ≡ (units.function_says specifiers.now declarator.now scope.old).inside) }
{
    let said = function_says(alloc, specifiers, declarator, scope)?;
    head_of(alloc, said, scope)
}

// ---- function definitions

/// The `{` of a body that couldn't be read.
fn unread_in(body: &Body) -> Option<u32>
    ensures { result ≡ programs.unread_in body.now }
{
    match body {
        Body::Read { .. } => None,
        Body::Unread { at } => Some(*at),
    }
}

/// The name of the function in whose body it is.
fn function_name(scope: &Scope) -> Result<Option<Name>, AllocError>
    ensures { IfOk result (λ name. name ≡ scope.now.function) }
{
    match scope.function() {
        None => Ok(None),
        Some(name) => Ok(Some(name.clone()?)),
    }
}

/// Leaves the body of a function, for where it stands in a function of this name, or in none.
fn go_out(outside: Option<Name>, scope: &mut Scope)
    ensures { scope.new ≡ record (scopes.leave scope.old) { function = outside } }
{
    scope.leave();
    scope.set_function(outside);
}

fn function_notes(
    alloc: Global,
    head: Head,
    unread: Option<u32>,
    body: ItemNotes,
    of_head: Names,
    names: Names,
) -> Result<OuterNotes, AllocError>
    ensures { IfOk result (λ x. x ≡ spec.defined head unread body of_head names) }
{
    let Head {
        item,
        entry,
        parameters,
        is_main,
        ..
    } = head;
    let function = match entry {
        None => None,
        Some(entry) => Some(Shared::new(
            alloc,
            FunctionNotes {
                at: entry.get().at,
                name: entry.get().name.clone()?,
                parameters,
                unread,
                is_main,
                body,
                names,
            },
        )?),
    };
    Ok(OuterNotes {
        item,
        names: Shared::new(alloc, of_head)?,
        function,
    })
}

/// What is noted of a function definition (C99 6.9.1), whose names are these.
fn defined_notes(
    alloc: Global,
    source: &Source<'_>,
    specifiers: &[Shared<Specifier>],
    declarator: &Declarator,
    body: &Body,
    names: Names,
    scope: &mut Scope,
) -> Result<OuterNotes, AllocError>
    ensures { IfOk result (λ x. spec.outer_in x scope.new ≡ spec.defined_outer (judged source.now) specifiers.now declarator.now body.now names scope.old) }
{
    let of_head = head_names(alloc, specifiers, declarator)?;
    let outside = function_name(scope)?;
    let head = into_body(alloc, specifiers, declarator, scope)?;
    let inside = body_notes(alloc, source, &head.returned, body, scope)?;
    go_out(outside, scope);
    function_notes(alloc, head, unread_in(body), inside, of_head, names)
}

// ---- external declarations

/// What is noted of a declaration of the file, whose names are these.
#[tactic(auto, unfolding(crate::specs::Summaries::declared_told))]
fn declared_outer(
    alloc: Global,
    source: &Source<'_>,
    declaration: &Declaration,
    names: Names,
    scope: &mut Scope,
) -> Result<OuterNotes, AllocError>
    ensures { IfOk result (λ x. spec.outer_in x scope.new ≡ spec.declared_told (judged source.now) declaration.now names scope.old) }
{
    let item = declaration_notes(alloc, source, declaration, scope)?;
    Ok(OuterNotes {
        item,
        names: Shared::new(alloc, names)?,
        function: None,
    })
}

fn empty_outer(alloc: Global, names: Names) -> Result<OuterNotes, AllocError>
    ensures { IfOk result (λ x. x ≡ spec.without_function nothing_noted names) }
{
    Ok(OuterNotes {
        item: nothing_noted(alloc),
        names: Shared::new(alloc, names)?,
        function: None,
    })
}

/// What is noted of an external declaration in this scope, which becomes the one that it leaves. It fails for want of
/// memory alone.
pub fn outer_notes(
    alloc: Global,
    source: &Source<'_>,
    external: &External,
    scope: &mut Scope,
) -> Result<OuterNotes, AllocError>
    ensures { IfOk result (λ x. spec.outer_in x scope.new ≡ spec.outer_told (judged source.now) external.now scope.old) }
{
    let names = external_names(alloc, external)?;
    match external {
        External::Function {
            specifiers,
            declarator,
            body,
        } => defined_notes(
            alloc,
            source,
            specifiers.as_slice(),
            declarator,
            body,
            names,
            scope,
        ),
        External::Declared { declaration } => {
            declared_outer(alloc, source, declaration, names, scope)
        }
        External::Empty { .. } => empty_outer(alloc, names),
    }
}

fn each_outer(
    alloc: Global,
    source: &Source<'_>,
    externals: &[Shared<External>],
) -> Result<ProgramNotes, AllocError>
    ensures { IfOk result (λ p. p ≡ spec.program_notes (judged source.now) (programs.program_of externals.now)) }
{
    let mut scope = Scope::new(alloc);
    let mut outers = Items::new(alloc);
    for external in externals {
        let found = outer_notes(alloc, source, external.get(), &mut scope)?;
        outers.push(found)?;
    }
    Ok(ProgramNotes { outers, scope })
}

/// What is noted of a source, each external declaration in the scope that those before it leave. It fails for want of
/// memory alone.
pub fn program_notes(alloc: Global, source: &Source<'_>) -> Result<ProgramNotes, AllocError>
    ensures { IfOk result (λ p. p ≡ spec.program_notes (judged source.now) (programs.program_of source.now.externals.now)) }
{
    each_outer(alloc, source, source.externals)
}
