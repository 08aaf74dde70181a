//! The watched variables of a function that live throughout the run.

ghost use Rattle.std.specs.Prelude.{◌≡◌, ◌++◌, ◌≤◌, cond, length, IfOk, OnOk, Some};
ghost use Rattle.std.specs.Option.{option_copied};
ghost use Rattle.c_language.specs.Scopes.{entry_in};
ghost use Rattle.c_means.specs.Calls as calls;
ghost use Rattle.c_means.specs.Programs as programs;
ghost use Rattle.c_program_notes.specs.Watched as spec;

use c_item_notes::LastingNote;
use c_language::{Duration, Entry, Means};
use c_names::Word;
use c_reach::FunctionNotes;
use c_type_scope::Scope;
use plain_data::{Items, Shared};
use std::alloc::{AllocError, Global};

// ---- in the order of offsets

fn push_all(entries: &[Shared<Entry>], all: &mut Items<Shared<Entry>>) -> Result<(), AllocError>
    ensures { OnOk result (all.new ≡ all.old ++ entries.now) }
{
    for entry in entries {
        all.push(entry.clone()?)?;
    }
    Ok(())
}

/// Puts these behind what is there, and an entry among them by its offset, where it isn't one of them.
fn push_with(
    entry: &Shared<Entry>,
    entries: &[Shared<Entry>],
    all: &mut Items<Shared<Entry>>,
) -> Result<(), AllocError>
    ensures { OnOk result (all.new ≡ all.old ++ calls.inserted entry.now entries.now) }
{
    match entries.split_first() {
        None => all.push(entry.clone()?),
        Some((first, more)) => {
            if entry.get().at < first.get().at {
                all.push(entry.clone()?)?;
                return push_all(entries, all);
            }
            if entry.get().at == first.get().at {
                return push_all(entries, all);
            }
            all.push(first.clone()?)?;
            push_with(entry, more, all)
        }
    }
}

fn inserted(
    alloc: Global,
    entry: &Shared<Entry>,
    entries: &[Shared<Entry>],
) -> Result<Items<Shared<Entry>>, AllocError>
    ensures { IfOk result (λ all. all ≡ calls.inserted entry.now entries.now) }
{
    let mut all = Items::new(alloc);
    push_with(entry, entries, &mut all)?;
    Ok(all)
}

// ---- what is watched

/// Whether a name means an integer that lives throughout the run.
fn is_lasting_integer(means: &Means) -> bool
    ensures { result ≡ programs.is_lasting_integer means.now }
{
    match means {
        Means::Object {
            ctype,
            duration,
            ..
        } => match *duration {
            Duration::Static => ctype.get().class().is_integer(),
            Duration::Automatic => false,
        },
        Means::Function { .. } => false,
        Means::Typedef { .. } => false,
        Means::Constant { .. } => false,
        Means::Faulty => false,
    }
}

fn watch(
    alloc: Global,
    entry: &Shared<Entry>,
    entries: Items<Shared<Entry>>,
) -> Result<Items<Shared<Entry>>, AllocError>
    ensures { IfOk result (λ all. all ≡ programs.watches (Some entry.now) entries) }
{
    if is_lasting_integer(&entry.get().means) {
        return inserted(alloc, entry, entries.as_slice());
    }
    Ok(entries)
}

fn watch_maybe(
    alloc: Global,
    entry: Option<&Shared<Entry>>,
    entries: Items<Shared<Entry>>,
) -> Result<Items<Shared<Entry>>, AllocError>
    ensures { IfOk result (λ all. all ≡ programs.watches (option_copied entry.entry) entries) }
{
    match entry {
        None => Ok(entries),
        Some(entry) => watch(alloc, entry, entries),
    }
}

// ---- of the file

fn and_word(
    alloc: Global,
    scope: &Scope,
    word: &Word,
    entries: Items<Shared<Entry>>,
) -> Result<Items<Shared<Entry>>, AllocError>
    ensures { IfOk result (λ all. all ≡ cond word.now.is_tag entries (programs.watches (entry_in scope.now.file word.now.name) entries)) }
{
    if word.is_tag {
        return Ok(entries);
    }
    watch_maybe(alloc, scope.file_entry(word.name.get().as_slice()), entries)
}

fn in_file(alloc: Global, scope: &Scope, words: &[Word]) -> Result<Items<Shared<Entry>>, AllocError>
    ensures { IfOk result (λ all. all ≡ programs.in_file scope.now words.now) }
{
    let mut entries = Items::new(alloc);
    let mut left = words.len();
    'words: while left > 0 {
        left -= 1;
        entries = and_word(alloc, scope, &words[left], entries)?;
    }
    Ok(entries)
}

// ---- of the blocks

fn is_bound(at: u32, offsets: &[u32]) -> bool
    ensures { result ≡ programs.is_bound at offsets.now }
{
    for offset in offsets {
        if *offset == at {
            return true;
        }
    }
    false
}

fn and_note(
    alloc: Global,
    note: &LastingNote,
    bound: &[u32],
    entries: Items<Shared<Entry>>,
) -> Result<Items<Shared<Entry>>, AllocError>
    ensures { IfOk result (λ all. all ≡ cond (programs.is_bound note.now.at bound.now) (programs.watches (Some note.now.entry) entries) entries) }
{
    if is_bound(note.at, bound) {
        return watch(alloc, &note.entry, entries);
    }
    Ok(entries)
}

fn in_blocks(
    alloc: Global,
    notes: &[LastingNote],
    bound: &[u32],
    entries: Items<Shared<Entry>>,
) -> Result<Items<Shared<Entry>>, AllocError>
    ensures { IfOk result (λ all. all ≡ spec.in_blocks notes.now bound.now entries) }
{
    let mut entries = entries;
    let mut left = notes.len();
    'notes: while left > 0 {
        left -= 1;
        entries = and_note(alloc, &notes[left], bound, entries)?;
    }
    Ok(entries)
}

/// The integers that live throughout the run and that a function names, in the order of their offsets: those of the
/// file, and those of its own blocks. The scope is that of the file's end. It fails for want of memory alone.
pub fn watched_lasting(
    alloc: Global,
    scope: &Scope,
    function: &FunctionNotes,
) -> Result<Items<Shared<Entry>>, AllocError>
    ensures { IfOk result (λ entries. entries ≡ spec.watched_lasting scope.now function.now) }
{
    let names = &function.names;
    let entries = in_file(alloc, scope, names.uses.as_slice())?;
    in_blocks(
        alloc,
        function.body.lasting.as_slice(),
        names.bound.as_slice(),
        entries,
    )
}
