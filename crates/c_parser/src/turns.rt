//! Reading one level of a statement, whose substatements are read by a function that is handed in. So the recursion
//! stands in one place, and each rule is a function by itself.
ghost use Rattle.std.specs.Prelude.{◌≤◌};
ghost use Rattle.c_grammar.specs.UnitReading.{stmt_at};
ghost use Rattle.c_reading.specs.Reads.{Reads};
ghost use Rattle.c_parser.specs.Turns.{ReachesStatement};

use c_exprs::Trees;
use c_language::{Stmt, Token};
use c_reading::{Cursor, ParseFault};
use c_scope::FileNames;
use std::alloc::Global;

/// What reads the parts of a statement: the trees of at most a height, and a function that is handed the allocator, the
/// tokens, the names of the file, the cursor, the greatest height of what it reads, and 1 where a declaration may stand
/// too, else 0.
#[derive(Clone, Copy)]
pub struct Turns<'a, T> {
    pub trees: Trees<'a>,
    pub statement: T,
}

impl<
    'a,
    T: Fn(Global, &[Token], &FileNames, &mut Cursor, u32, u32) -> Result<Stmt, ParseFault>,
> Turns<'a, T> {
    /// `statement` (C99 6.8), and at rank 1 `block-item: declaration | statement` (C99 6.8.2), by the function that is
    /// handed in.
    pub fn statement(&self, c: &mut Cursor, rank: u32) -> Result<Stmt, ParseFault>
        requires reaches { ReachesStatement T.Fn self.now }
        requires known { rank ≤ 1 }
        ensures { Reads (λ x. x) self.now.trees.source c.old c.new result (stmt_at self.now.trees.height rank) }
    {
        (self.statement)(
            self.trees.alloc,
            self.trees.source.tokens,
            self.trees.source.file,
            c,
            self.trees.height,
            rank,
        )
    }
}
