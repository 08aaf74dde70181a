//! Names and blocks of names at declarations and statements (C99 6.2.1).
ghost use Rattle.std.specs.Prelude.{◌≡◌, OnOk};
ghost use Rattle.c_grammar.specs.Parts.{declared};
ghost use Rattle.c_grammar.specs.Grammar.{form};
ghost use Rattle.c_grammar.specs.Units.{name_of};
ghost use Rattle.c_reading.specs.Cursor.{here};

use c_nodes::FoundDeclarator;
use c_reading::{Cursor, Source};
use plain_data::{Items, Shared};
use std::alloc::{AllocError, Global};

/// Declares the name of a declarator, as a typedef name or as another. It fails for want of memory alone.
pub fn declare(
    alloc: Global,
    source: &Source<'_>,
    c: &mut Cursor,
    found: &FoundDeclarator,
    is_type: bool,
) -> Result<(), AllocError>
    ensures { OnOk result (here source.now c.new
        ≡ ((here source.now c.old).0, declared (name_of (form found.now.tree)) is_type (here source.now c.old).1)) }
{
    match &found.name {
        Some(name) => c.names.declare(name, is_type),
        None => c
            .names
            .declare(&Shared::new(alloc, Items::new(alloc))?, is_type),
    }
}
