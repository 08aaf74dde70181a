//! What an external declaration uses, declares and binds.

ghost use Rattle.std.specs.Prelude.{◌≡◌, IfOk};
ghost use Rattle.c_names.specs.Kept.{kept as kept_};
ghost use Rattle.c_names.specs.Working.{last_of};

use crate::found::{Found, nothing};
use crate::stack::Stack;
use crate::words::{Binding, Literal, Word};
use plain_data::Items;
use std::alloc::{AllocError, Global};

/// The names of an external declaration (C99 6.2.1, 6.2.3): the words that it uses of what stands around it, those that
/// it declares, the offsets of the declarations in it that bind uses in it, one for each such use, and its string
/// literals.
#[derive(Drop)]
pub struct Names {
    pub uses: Items<Word>,
    pub declares: Items<Binding>,
    pub bound: Items<u32>,
    pub literals: Items<Literal>,
}

fn take_names(alloc: Global, found: &mut Found) -> Result<Names, AllocError>
    ensures { IfOk result (λ x. x ≡ kept_ found.old) }
{
    let uses = found.uses.take_items(alloc)?;
    let declares = found.declares.take_items(alloc)?;
    let bound = found.bound.take_items(alloc)?;
    let literals = found.literals.take_items(alloc)?;
    Ok(Names {
        uses,
        declares,
        bound,
        literals,
    })
}

/// What is kept of all that was found. It fails for want of memory alone.
fn kept(alloc: Global, found: Found) -> Result<Names, AllocError>
    ensures { IfOk result (λ x. x ≡ kept_ found) }
{
    let mut found = found;
    take_names(alloc, &mut found)
}

/// What is kept of the last that was found. It fails for want of memory alone.
pub(crate) fn kept_last(alloc: Global, done: Stack<Found>) -> Result<Names, AllocError>
    ensures { IfOk result (λ x. x ≡ kept_ (last_of done)) }
{
    let mut done = done;
    match done.pop() {
        None => kept(alloc, nothing(alloc)),
        Some(last) => kept(alloc, last),
    }
}
