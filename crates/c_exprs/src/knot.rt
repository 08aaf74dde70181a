//! Trees of at most a height: each function reads with itself and the two others at one height less.
ghost use Rattle.std.specs.Prelude.{◌≤◌};
ghost use Rattle.c_grammar.specs.Reading.{rules};
ghost use Rattle.c_reading.specs.Cursor.{source_of};
ghost use Rattle.c_exprs.specs.Reads.{ReadsExpr, ReadsSpecifier, ReadsDeclarator};

use crate::below::Below;
use c_grammar::DeclaratorPlace;
use c_language::Token;
use c_nodes::{FoundDeclarator, FoundExpr, FoundSpecifier};
use c_reading::{Cursor, ParseFault, Source};
use c_scope::FileNames;
use std::alloc::Global;

/// An expression at a rank of the grammar, of at most this height (C99 6.5).
#[cycle(trees)]
pub fn expr_of(
    alloc: Global,
    tokens: &[Token],
    file: &FileNames,
    c: &mut Cursor,
    height: u32,
    rank: u32,
) -> Result<FoundExpr, ParseFault>
    requires small { height ≤ 256 }
    requires known { rank ≤ 16 }
    ensures { ReadsExpr (source_of tokens.entry file.entry) c.old c.new result ((rules height).expr rank) height }
{
    if height == 0 {
        return Err(ParseFault::TooDeep(c.position));
    }
    let below = Below {
        alloc,
        source: Source { tokens, file },
        height: height - 1,
        expr: expr_of,
        specifier: specifier_of,
        declarator: declarator_of,
    };
    below.read_expr(c, rank)
}

/// `declaration-specifier: storage-class-specifier | type-specifier | type-qualifier | function-specifier`
/// (C99 6.7), of at most this height.
#[cycle(trees)]
pub fn specifier_of(
    alloc: Global,
    tokens: &[Token],
    file: &FileNames,
    c: &mut Cursor,
    height: u32,
) -> Result<FoundSpecifier, ParseFault>
    requires small { height ≤ 256 }
    ensures { ReadsSpecifier (source_of tokens.entry file.entry) c.old c.new result (rules height).specifier height }
{
    if height == 0 {
        return Err(ParseFault::TooDeep(c.position));
    }
    let below = Below {
        alloc,
        source: Source { tokens, file },
        height: height - 1,
        expr: expr_of,
        specifier: specifier_of,
        declarator: declarator_of,
    };
    below.read_specifier(c)
}

/// `declarator: [ pointer ] direct-declarator` (C99 6.7.5), or an abstract one at its places, of at most this height.
#[cycle(trees)]
pub fn declarator_of(
    alloc: Global,
    tokens: &[Token],
    file: &FileNames,
    c: &mut Cursor,
    height: u32,
    place: DeclaratorPlace,
) -> Result<FoundDeclarator, ParseFault>
    requires small { height ≤ 256 }
    ensures { ReadsDeclarator (source_of tokens.entry file.entry) c.old c.new result
        ((rules height).declarator place) height }
{
    if height == 0 {
        return Err(ParseFault::TooDeep(c.position));
    }
    let below = Below {
        alloc,
        source: Source { tokens, file },
        height: height - 1,
        expr: expr_of,
        specifier: specifier_of,
        declarator: declarator_of,
    };
    below.read_declarator(c, place)
}
