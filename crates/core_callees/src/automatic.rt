//! Parameters and locals of integer type that are in scope, hidden ones too.
ghost use Rattle.std.specs.Prelude.{◌≡◌, ◌≤◌, length, reverse, IfOk, IfSome, OnOk};
ghost use Rattle.c_means.specs.Calls as calls;
ghost use Rattle.core_callees.specs.Watching as spec;

use c_language::{Duration, Entry, Means};
use c_type_scope::Block;
use plain_data::{Items, Shared};
use std::alloc::{AllocError, Global};

fn is_automatic_object(means: &Means) -> bool
    ensures { result ≡ calls.is_automatic_object means.now }
{
    match means {
        Means::Object {
            ctype,
            duration,
            ..
        } => match *duration {
            Duration::Automatic => ctype.get().class().is_integer(),
            Duration::Static => false,
        },
        Means::Function { .. } => false,
        Means::Typedef { .. } => false,
        Means::Constant { .. } => false,
        Means::Faulty => false,
    }
}

/// The index at which an entry of this offset belongs; none where one of that offset is there.
fn gap_in(found: &[Shared<Entry>], at: u32) -> Option<usize>
    ensures gap { result ≡ spec.gap_from 0 at found.now }
    ensures within { IfSome result (λ i. i ≤ length found.now) }
{
    let mut index = 0;
    for entry in found {
        let other = entry.get().at;
        if at < other {
            return Some(index);
        }
        if at == other {
            return None;
        }
        index += 1;
    }
    Some(index)
}

fn insert(found: &mut Vec<Shared<Entry>>, entry: &Shared<Entry>) -> Result<(), AllocError>
    ensures { OnOk result (found.new.items ≡ calls.inserted entry.now found.old.items) }
{
    match gap_in(found.as_slice(), entry.get().at) {
        Some(index) => {
            found.insert(index, entry.clone()?)?;
            Ok(())
        }
        None => Ok(()),
    }
}

fn insert_automatic(
    found: &mut Vec<Shared<Entry>>,
    entries: &[Shared<Entry>],
) -> Result<(), AllocError>
    ensures { OnOk result (found.new.items ≡ calls.automatic_of entries.now found.old.items) }
{
    for entry in entries {
        if is_automatic_object(&entry.get().means) {
            insert(found, entry)?;
        }
    }
    Ok(())
}

/// The parameters and locals of integer type of open blocks, the outermost first, by their offsets, each once. It fails
/// for want of memory alone.
#[tactic(auto, using(crate::proofs::AutomaticLaws::over_is_in))]
pub fn automatic_entries(alloc: Global, blocks: &[Block]) -> Result<Vec<Shared<Entry>>, AllocError>
    ensures { IfOk result (λ found. found.items ≡ calls.automatic_in (reverse blocks.now)) }
{
    let mut found = Vec::new(alloc);
    for block in blocks {
        insert_automatic(&mut found, block.entries())?;
    }
    Ok(found)
}
