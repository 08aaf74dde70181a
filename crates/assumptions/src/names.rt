//! Names in the order of their bytes.
ghost use Rattle.std.specs.Prelude.{◌≡◌, map, IfOk};
ghost use Rattle.assumptions.specs.Assumed as spec;

use c_language::Name;
use plain_data::{Bytes, Shared};
use std::alloc::{AllocError, Global};
use std::collections::BTreeSet;

/// Names in ascending order of their bytes, each once.
pub(crate) fn by_name(alloc: Global, names: &[Name]) -> Result<BTreeSet<Vec<u8>>, AllocError>
    ensures { IfOk result (λ set. map (λ name. name.items) set.keys ≡ spec.by_name names.now) }
{
    let mut set = BTreeSet::new(alloc);
    for name in names {
        set.insert(Vec::from_slice(alloc, name.get().as_slice())?)?;
    }
    Ok(set)
}

/// A name of these bytes.
pub(crate) fn name_of(alloc: Global, bytes: &[u8]) -> Result<Name, AllocError>
    ensures { IfOk result (λ name. name ≡ bytes.now) }
{
    Shared::new(alloc, Bytes::from_slice(alloc, bytes)?)
}
