//! Statements (C99 6.8).
ghost use Rattle.std.specs.Prelude.{◌≤◌};
ghost use Rattle.c_grammar.specs.UnitReading.{stmt_at};
ghost use Rattle.c_reading.specs.Cursor.{source_of};
ghost use Rattle.c_reading.specs.Reads.{Reads};

use crate::turns::Turns;
use c_exprs::Trees;
use c_language::{Stmt, Token};
use c_reading::{Cursor, ParseFault, Source};
use c_scope::FileNames;
use std::alloc::Global;

/// `statement` (C99 6.8) of at most this height, and at rank 1 `block-item: declaration | statement` (C99 6.8.2).
#[cycle(statement)]
pub fn statement(
    alloc: Global,
    tokens: &[Token],
    file: &FileNames,
    c: &mut Cursor,
    height: u32,
    rank: u32,
) -> Result<Stmt, ParseFault>
    requires small { height ≤ 256 }
    ensures { Reads (λ x. x) (source_of tokens.entry file.entry) c.old c.new result (stmt_at height rank) }
{
    if height == 0 {
        return Err(ParseFault::TooDeep(c.position));
    }
    let turns = Turns {
        trees: Trees {
            alloc,
            source: Source { tokens, file },
            height: height - 1,
        },
        statement,
    };
    turns.read_statement(c, rank)
}
