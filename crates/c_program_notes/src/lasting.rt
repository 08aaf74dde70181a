//! The objects that are made before `main` is called, in order (C99 6.2.4p3).

ghost use Rattle.std.specs.Prelude.{◌≡◌, ◌∷◌, [], ◌++◌, suc, cond, length, map, nat_eq, IfOk, OnOk, Some};
ghost use Rattle.std.specs.Option.{option_copied};
ghost use Rattle.c_means.specs.Values as values;
ghost use Rattle.c_means.specs.Runs as runs;
ghost use Rattle.core_programs.specs.Programs.{contents_if, function_object, link_objects, maybe_function, text_object};
ghost use Rattle.c_program_notes.specs.Placed as spec;

use crate::needing::{Needs, Text};
use c_declarations::tentative_type;
use c_item_notes::LastingNote;
use c_language::{CType, Class, Entry, Linked, Means, Name, Tables};
use c_store::ObjectKind;
use c_type_scope::Scope;
use core_programs::PlaceTable;
use core_tree::{Contents, LastingObject};
use plain_data::{Bytes, Items, Shared};
use std::alloc::{AllocError, Global};

// ---- sizes

/// The bytes of an object, by its type's class and size.
fn bytes_as(class: Class, size: Option<u64>) -> u64
    ensures { result ≡ values.bytes_as class size }
{
    match class {
        Class::Integer(kind) => kind.bytes(),
        Class::Pointer => 8,
        Class::Void => 0,
        Class::Array => size.unwrap_or(0),
        Class::Function => size.unwrap_or(0),
        Class::Floating => size.unwrap_or(0),
        Class::Aggregate(_) => size.unwrap_or(0),
        Class::Opaque => size.unwrap_or(0),
    }
}

/// The bytes of an object of a type; 0 where they aren't known.
fn bytes_of(tables: &Tables, ctype: &CType) -> u64
    ensures { result ≡ values.bytes_of tables.now (Some ctype.now) }
{
    bytes_as(ctype.class(), tables.size_of(ctype))
}

/// A definition without length has one element (C99 6.9.2p5).
fn size_with(
    alloc: Global,
    is_defined: bool,
    tables: &Tables,
    ctype: &Shared<CType>,
) -> Result<u64, AllocError>
    ensures { IfOk result (λ n. n ≡ runs.size_with is_defined tables.now ctype.now) }
{
    if is_defined {
        let whole = tentative_type(alloc, ctype)?;
        return Ok(bytes_of(tables, whole.get()));
    }
    Ok(bytes_of(tables, ctype.get()))
}

fn size_of_means(
    alloc: Global,
    is_defined: bool,
    tables: &Tables,
    means: &Means,
    size: u64,
) -> Result<u64, AllocError>
    ensures { IfOk result (λ n. n ≡ runs.size_of_means is_defined tables.now means.now size) }
{
    match means {
        Means::Object { ctype, .. } => size_with(alloc, is_defined, tables, ctype),
        Means::Function { .. } => Ok(size),
        Means::Typedef { .. } => Ok(size),
        Means::Constant { .. } => Ok(size),
        Means::Faulty => Ok(size),
    }
}

fn size_as(
    alloc: Global,
    tables: &Tables,
    entry: &Entry,
    note: &LastingNote,
) -> Result<u64, AllocError>
    ensures { IfOk result (λ n. n ≡ spec.size_at_end tables.now note.now (Some entry.now)) }
{
    if entry.at == note.entry.get().at {
        return size_of_means(alloc, note.is_defined, tables, &entry.means, note.size);
    }
    Ok(note.size)
}

/// How many bytes an object that lives throughout the run has: the type of an object of the file is the one that is in
/// force at the file's end, where this scope is. It fails for want of memory alone.
pub fn final_size(alloc: Global, scope: &Scope, note: &LastingNote) -> Result<u64, AllocError>
    ensures { IfOk result (λ n. n ≡ spec.final_size scope.now note.now) }
{
    match scope.file_entry(note.entry.get().name.get().as_slice()) {
        None => Ok(note.size),
        Some(entry) => size_as(alloc, scope.tables(), entry.get(), note),
    }
}

/// A size as an object has it.
fn narrow(size: u64) -> Result<u32, AllocError>
    ensures { IfOk result (λ n. n ≡ size) }
{
    if size > u32::MAX as u64 {
        return Err(AllocError);
    }
    Ok(size as u32)
}

// ---- functions and objects with linkage, and string literals

fn push_function(
    table: &PlaceTable,
    linked: Option<&Shared<Linked>>,
    objects: &mut Items<LastingObject>,
) -> Result<(), AllocError>
    ensures { OnOk result (objects.new ≡ objects.old ++ maybe_function (runs.place_in table.now) (option_copied linked.entry) []) }
{
    match linked {
        None => Ok(()),
        Some(linked) => {
            objects.push(LastingObject {
                place: table.place(linked.get().at),
                kind: ObjectKind::Static,
                size: 0,
                contents: Contents::World,
            })?;
            Ok(())
        }
    }
}

#[tactic(auto, using(crate::proofs::Making::function_then))]
fn add_links(
    table: &PlaceTable,
    scope: &Scope,
    links: &[Name],
    objects: &mut Items<LastingObject>,
) -> Result<(), AllocError>
    ensures { OnOk result (objects.new ≡ objects.old ++ link_objects (runs.place_in table.now) scope.now links.now) }
{
    for name in links {
        push_function(table, scope.linked_as(name.get().as_slice()), objects)?;
    }
    Ok(())
}

/// A literal has its bytes, and 0 behind them (C99 6.4.5p5).
fn text_size(bytes: &[u8]) -> Result<u32, AllocError>
    ensures { IfOk result (λ n. n ≡ suc (length bytes.now)) }
{
    narrow(bytes.len() as u64 + 1)
}

fn text_object(alloc: Global, table: &PlaceTable, text: &Text) -> Result<LastingObject, AllocError>
    ensures { IfOk result (λ x. x ≡ text_object (runs.place_in table.now) text.now) }
{
    let bytes = Bytes::from_slice(alloc, text.bytes.as_slice())?;
    let size = text_size(text.bytes.as_slice())?;
    Ok(LastingObject {
        place: table.place(text.at),
        kind: ObjectKind::Literal,
        size,
        contents: Contents::Text(bytes),
    })
}

fn add_texts(
    alloc: Global,
    table: &PlaceTable,
    texts: &[Text],
    objects: &mut Items<LastingObject>,
) -> Result<(), AllocError>
    ensures { OnOk result (objects.new ≡ objects.old ++ map (text_object (runs.place_in table.now)) texts.now) }
{
    for text in texts {
        objects.push(text_object(alloc, table, text)?)?;
    }
    Ok(())
}

// ---- objects

/// An object that is defined begins with zeros (C99 6.7.8p10).
fn contents_if(is_defined: bool) -> Contents
    ensures { result ≡ contents_if is_defined }
{
    if is_defined {
        Contents::Zero
    } else {
        Contents::World
    }
}

fn object_of(
    alloc: Global,
    table: &PlaceTable,
    scope: &Scope,
    note: &LastingNote,
) -> Result<LastingObject, AllocError>
    ensures { IfOk result (λ x. x ≡ spec.object_of (runs.place_in table.now) scope.now note.now) }
{
    let size = narrow(final_size(alloc, scope, note)?)?;
    Ok(LastingObject {
        place: table.place(note.entry.get().at),
        kind: ObjectKind::Static,
        size,
        contents: contents_if(note.is_defined),
    })
}

fn push_declared(
    alloc: Global,
    table: &PlaceTable,
    scope: &Scope,
    note: &LastingNote,
    objects: &mut Items<LastingObject>,
) -> Result<(), AllocError>
    ensures { OnOk result (objects.new ≡ objects.old ++ spec.declared_objects (runs.place_in table.now) scope.now (note.now ∷ [])) }
{
    if note.is_defined {
        return Ok(());
    }
    objects.push(object_of(alloc, table, scope, note)?)?;
    Ok(())
}

fn push_defined(
    alloc: Global,
    table: &PlaceTable,
    scope: &Scope,
    note: &LastingNote,
    objects: &mut Items<LastingObject>,
) -> Result<(), AllocError>
    ensures { OnOk result (objects.new ≡ objects.old ++ spec.defined_objects (runs.place_in table.now) scope.now (note.now ∷ [])) }
{
    if note.is_defined {
        objects.push(object_of(alloc, table, scope, note)?)?;
    }
    Ok(())
}

/// The objects that are only declared: they have the bytes that the world gives.
#[tactic(auto, using(crate::proofs::Making::declared_then))]
fn add_declared(
    alloc: Global,
    table: &PlaceTable,
    scope: &Scope,
    lasting: &[LastingNote],
    objects: &mut Items<LastingObject>,
) -> Result<(), AllocError>
    ensures { OnOk result (objects.new ≡ objects.old ++ spec.declared_objects (runs.place_in table.now) scope.now lasting.now) }
{
    for note in lasting {
        push_declared(alloc, table, scope, note, objects)?;
    }
    Ok(())
}

#[tactic(auto, using(crate::proofs::Making::defined_then))]
fn add_defined(
    alloc: Global,
    table: &PlaceTable,
    scope: &Scope,
    lasting: &[LastingNote],
    objects: &mut Items<LastingObject>,
) -> Result<(), AllocError>
    ensures { OnOk result (objects.new ≡ objects.old ++ spec.defined_objects (runs.place_in table.now) scope.now lasting.now) }
{
    for note in lasting {
        push_defined(alloc, table, scope, note, objects)?;
    }
    Ok(())
}

/// The objects that are made before `main` is called, in order, by the places of the whole program, in the scope of its
/// end. It fails for want of memory alone.
pub fn objects(
    alloc: Global,
    table: &PlaceTable,
    scope: &Scope,
    needs: &Needs,
) -> Result<Items<LastingObject>, AllocError>
    ensures { IfOk result (λ all. all ≡ spec.objects (runs.place_in table.now) scope.now needs.now) }
{
    let mut all = Items::new(alloc);
    add_links(table, scope, needs.links.as_slice(), &mut all)?;
    add_texts(alloc, table, needs.texts.as_slice(), &mut all)?;
    add_declared(alloc, table, scope, needs.lasting.as_slice(), &mut all)?;
    add_defined(alloc, table, scope, needs.lasting.as_slice(), &mut all)?;
    Ok(all)
}
