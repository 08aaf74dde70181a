//! What is noted of a statement or declaration as an item of a block or of the file.

ghost use Rattle.std.specs.Prelude.{◌≡◌, IfOk};
ghost use Rattle.c_item_notes.specs.ItemTellings as spec;

use c_checks::{Case, lesser};
use c_language::{Entry, Name};
use c_means::Breach;
use c_notes::CallNote;
use plain_data::{Items, Shared};
use std::alloc::{AllocError, Global};

/// An object that lives throughout the run (C99 6.2.4p3): the offset of its declarator, what its name stands for, its
/// size in bytes (0 where it isn't known), and whether it is defined here.
#[derive(Drop)]
pub struct LastingNote {
    pub at: u32,
    pub entry: Shared<Entry>,
    pub size: u64,
    pub is_defined: bool,
}

/// What is noted of an item: the rule that it breaks first apart from those of calls; the cases that it gives to the
/// `switch` whose block it is in; all calls in it, and the functions that it calls where it runs; the objects that it
/// declares that live throughout the run, and the names of what it declares with linkage.
#[derive(Drop)]
pub struct ItemNotes {
    pub breach: Option<Breach>,
    pub cases: Items<Case>,
    pub calls: Items<CallNote>,
    pub called: Items<Name>,
    pub lasting: Items<LastingNote>,
    pub links: Items<Name>,
}

/// What an item notes that is nothing. It takes no memory.
pub fn nothing_noted(alloc: Global) -> ItemNotes
    ensures { result ≡ spec.nothing_noted }
{
    ItemNotes {
        breach: None,
        cases: Items::new(alloc),
        calls: Items::new(alloc),
        called: Items::new(alloc),
        lasting: Items::new(alloc),
        links: Items::new(alloc),
    }
}

/// What two items note, one behind the other. It fails for want of memory alone.
pub fn both(first: ItemNotes, second: ItemNotes) -> Result<ItemNotes, AllocError>
    ensures { IfOk result (λ n. n ≡ spec.both first second) }
{
    let ItemNotes {
        breach,
        mut cases,
        mut calls,
        mut called,
        mut lasting,
        mut links,
    } = first;
    cases.append(second.cases)?;
    calls.append(second.calls)?;
    called.append(second.called)?;
    lasting.append(second.lasting)?;
    links.append(second.links)?;
    Ok(ItemNotes {
        breach: lesser(breach, second.breach),
        cases,
        calls,
        called,
        lasting,
        links,
    })
}

/// What an item notes that breaks these rules before its own.
pub fn breaking(breach: Option<Breach>, notes: ItemNotes) -> ItemNotes
    ensures { result ≡ spec.breaking breach notes }
{
    let ItemNotes {
        breach: own,
        cases,
        calls,
        called,
        lasting,
        links,
    } = notes;
    ItemNotes {
        breach: lesser(breach, own),
        cases,
        calls,
        called,
        lasting,
        links,
    }
}
