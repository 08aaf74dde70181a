//! Expressions that statements, initializers and designators share with what is made of them.
ghost use Rattle.std.specs.Prelude.{◌≤◌};
ghost use Rattle.c_grammar.specs.Reading.{rules};
ghost use Rattle.c_reading.specs.Reads.{Reads};

use c_exprs::Trees;
use c_language::Expr;
use c_reading::{Cursor, ParseFault};
use plain_data::Shared;

/// An expression at a rank of the grammar (C99 6.5).
pub fn expr(trees: &Trees<'_>, c: &mut Cursor, rank: u32) -> Result<Shared<Expr>, ParseFault>
    requires small { trees.now.height ≤ 256 }
    requires known { rank ≤ 16 }
    ensures { Reads (λ e. e) trees.now.source c.old c.new result ((rules trees.now.height).expr rank) }
{
    let found = trees.expr(c, rank)?;
    Ok(Shared::new(trees.alloc, found.tree)?)
}
