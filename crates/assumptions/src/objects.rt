//! The objects that are needed and have no definition (C99 6.9).
ghost use Rattle.std.specs.Prelude.{◌≡◌, ◌++◌, ◌∷◌, [], ◌&&◌, ◌||◌, cond, nat_eq, ℕ, IfOk, OnOk};
ghost use Rattle.std.specs.Ordering.{nat_cmp};
ghost use Rattle.std.specs.BTreeSet.{contains as has};
ghost use Rattle.assumptions.specs.Noted as spec;

use c_item_notes::LastingNote;
use c_language::Name;
use plain_data::Items;
use std::alloc::{AllocError, Global};
use std::collections::BTreeSet;

fn put_defined(note: &LastingNote, defined: &mut BTreeSet<u32>) -> Result<(), AllocError>
    ensures { OnOk result ((at : ℕ) → has nat_cmp defined.new at ≡ (spec.defines at note.now || has nat_cmp defined.old at)) }
{
    if note.is_defined {
        defined.insert(note.entry.get().at)?;
    }
    Ok(())
}

/// The offsets of those that are defined.
fn defined_in(alloc: Global, notes: &[LastingNote]) -> Result<BTreeSet<u32>, AllocError>
    ensures { IfOk result (λ defined. (at : ℕ) → has nat_cmp defined at ≡ spec.is_defined at notes.now) }
{
    let mut defined = BTreeSet::new(alloc);
    let mut left = notes.len();
    'notes: while left > 0 {
        left -= 1;
        put_defined(&notes[left], &mut defined)?;
    }
    Ok(defined)
}

/// The names of those that have no definition among all, once for each declaration. It fails for want of memory alone.
pub(crate) fn undefined_in(alloc: Global, notes: &[LastingNote]) -> Result<Items<Name>, AllocError>
    ensures { IfOk result (λ names. names ≡ spec.undefined_in notes.now notes.now) }
{
    let defined = defined_in(alloc, notes)?;
    let mut names = Items::new(alloc);
    'notes: for note in notes {
        let entry = note.entry.get();
        if !defined.contains(&entry.at) {
            names.push(entry.name.clone()?)?;
        }
    }
    Ok(names)
}
