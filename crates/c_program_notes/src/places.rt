//! The places of what lives throughout the run: by offset, from 1.

ghost use Rattle.std.specs.Prelude.{◌≡◌, ◌++◌, [], map, reverse, IfOk, OnOk};
ghost use Rattle.std.specs.Option.{option_copied};
ghost use Rattle.c_means.specs.Runs.{place_in};
ghost use Rattle.core_programs.specs.Offsets.{offsets_in};
ghost use Rattle.c_program_notes.specs.Placed as spec;

use crate::needing::{Needs, Text};
use crate::outers::{OuterNotes, ProgramNotes};
use c_item_notes::{ItemNotes, LastingNote};
use c_language::{Linked, Name};
use c_names::{Literal, Names};
use c_reach::FunctionNotes;
use c_type_scope::Scope;
use core_programs::PlaceTable;
use plain_data::{Items, Shared};
use std::alloc::{AllocError, Global};
use std::collections::BTreeSet;

// ---- all offsets, in the order of the source

fn add_lasting(notes: &[LastingNote], offsets: &mut Items<u32>) -> Result<(), AllocError>
    ensures { OnOk result (offsets.new ≡ offsets.old ++ spec.lasting_list notes.now) }
{
    for note in notes {
        offsets.push(note.entry.get().at)?;
    }
    Ok(())
}

fn add_literals(literals: &[Literal], offsets: &mut Items<u32>) -> Result<(), AllocError>
    ensures { OnOk result (offsets.new ≡ offsets.old ++ spec.literal_list literals.now) }
{
    for literal in literals {
        offsets.push(literal.at)?;
    }
    Ok(())
}

fn add_part(item: &ItemNotes, names: &Names, offsets: &mut Items<u32>) -> Result<(), AllocError>
    ensures { OnOk result (offsets.new ≡ offsets.old ++ spec.part_list item.now names.now) }
{
    add_lasting(item.lasting.as_slice(), offsets)?;
    add_literals(names.literals.as_slice(), offsets)
}

fn add_function(
    function: &Option<Shared<FunctionNotes>>,
    offsets: &mut Items<u32>,
) -> Result<(), AllocError>
    ensures { OnOk result (offsets.new ≡ offsets.old ++ spec.function_list function.now) }
{
    match function {
        None => Ok(()),
        Some(function) => add_part(&function.get().body, &function.get().names, offsets),
    }
}

fn add_outer(outer: &OuterNotes, offsets: &mut Items<u32>) -> Result<(), AllocError>
    ensures { OnOk result (offsets.new ≡ offsets.old ++ spec.outer_list outer.now) }
{
    add_part(&outer.item, outer.names.get(), offsets)?;
    add_function(&outer.function, offsets)
}

fn add_outers(outers: &[OuterNotes], offsets: &mut Items<u32>) -> Result<(), AllocError>
    ensures { OnOk result (offsets.new ≡ offsets.old ++ spec.outers_list outers.now) }
{
    for outer in outers {
        add_outer(outer, offsets)?;
    }
    Ok(())
}

fn add_linked(linked: &[Shared<Linked>], offsets: &mut Items<u32>) -> Result<(), AllocError>
    ensures { OnOk result (offsets.new ≡ offsets.old ++ spec.linked_list linked.now) }
{
    for linked_name in linked {
        offsets.push(linked_name.get().at)?;
    }
    Ok(())
}

/// These offsets from the last to the first.
fn reversed(alloc: Global, offsets: &[u32]) -> Result<Vec<u32>, AllocError>
    ensures { IfOk result (λ all. all.items ≡ reverse offsets.now) }
{
    offsets.iter().rev().copied().collect(alloc)
}

/// All offsets of what lives throughout the run of a program, from the last to the first.
fn all_offsets(alloc: Global, program: &ProgramNotes) -> Result<Vec<u32>, AllocError>
    ensures { IfOk result (λ all. all.items ≡ reverse (spec.program_list program.now)) }
{
    let mut offsets = Items::new(alloc);
    add_outers(program.outers.as_slice(), &mut offsets)?;
    add_linked(program.scope.linked(), &mut offsets)?;
    reversed(alloc, offsets.as_slice())
}

/// The places of what lives throughout the run of a program, needed or not. It fails for want of memory alone.
pub fn place_table(alloc: Global, program: &ProgramNotes) -> Result<PlaceTable, AllocError>
    ensures { IfOk result (λ t. t ≡ offsets_in (reverse (spec.program_list program.now))) }
{
    let offsets = all_offsets(alloc, program)?;
    PlaceTable::of(alloc, &offsets)
}

// ---- the places that are met before `main` is called

fn push_linked(linked: Option<&Shared<Linked>>, offsets: &mut Items<u32>) -> Result<(), AllocError>
    ensures { OnOk result (offsets.new ≡ offsets.old ++ spec.linked_at (option_copied linked.entry)) }
{
    match linked {
        None => Ok(()),
        Some(linked) => {
            offsets.push(linked.get().at)?;
            Ok(())
        }
    }
}

fn add_links(scope: &Scope, links: &[Name], offsets: &mut Items<u32>) -> Result<(), AllocError>
    ensures { OnOk result (offsets.new ≡ offsets.old ++ spec.name_list scope.now links.now) }
{
    for name in links {
        push_linked(scope.linked_as(name.get().as_slice()), offsets)?;
    }
    Ok(())
}

fn add_texts(texts: &[Text], offsets: &mut Items<u32>) -> Result<(), AllocError>
    ensures { OnOk result (offsets.new ≡ offsets.old ++ spec.text_list texts.now) }
{
    for text in texts {
        offsets.push(text.at)?;
    }
    Ok(())
}

/// The offsets of what is made before `main` is called, from the last to the first.
fn needed_offsets(alloc: Global, scope: &Scope, needs: &Needs) -> Result<Vec<u32>, AllocError>
    ensures { IfOk result (λ all. all.items ≡ reverse (spec.needed_list scope.now needs.now)) }
{
    let mut offsets = Items::new(alloc);
    add_links(scope, needs.links.as_slice(), &mut offsets)?;
    add_lasting(needs.lasting.as_slice(), &mut offsets)?;
    add_texts(needs.texts.as_slice(), &mut offsets)?;
    reversed(alloc, offsets.as_slice())
}

/// These offsets, as a set.
fn gathered(alloc: Global, offsets: &[u32]) -> Result<BTreeSet<u32>, AllocError>
    ensures { IfOk result (λ set. set.keys ≡ offsets_in offsets.now) }
{
    let mut set = BTreeSet::new(alloc);
    for offset in offsets {
        set.insert(*offset)?;
    }
    Ok(set)
}

/// These offsets in order, each once.
fn in_order(alloc: Global, offsets: &[u32]) -> Result<Vec<u32>, AllocError>
    ensures { IfOk result (λ all. all.items ≡ offsets_in offsets.now) }
{
    let set = gathered(alloc, offsets)?;
    set.into_iter().collect(alloc)
}

fn places_at(alloc: Global, table: &PlaceTable, offsets: &[u32]) -> Result<Items<u64>, AllocError>
    ensures { IfOk result (λ places. places ≡ map (place_in table.now) offsets.now) }
{
    let mut places = Items::new(alloc);
    for offset in offsets {
        places.push(table.place(*offset))?;
    }
    Ok(places)
}

/// The places that are met before `main` is called, in order, by the places of the whole program. It fails for want of
/// memory alone.
pub fn met(
    alloc: Global,
    table: &PlaceTable,
    scope: &Scope,
    needs: &Needs,
) -> Result<Items<u64>, AllocError>
    ensures { IfOk result (λ places. places ≡ map (place_in table.now) (offsets_in (reverse (spec.needed_list scope.now needs.now)))) }
{
    let offsets = needed_offsets(alloc, scope, needs)?;
    let offsets = in_order(alloc, &offsets)?;
    places_at(alloc, table, &offsets)
}
