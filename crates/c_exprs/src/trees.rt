//! Trees of at most a height, in which expressions, specifiers and declarators stand in one another.
ghost use Rattle.std.specs.Prelude.{◌≤◌};
ghost use Rattle.c_grammar.specs.Reading.{rules, specification_at};
ghost use Rattle.c_reading.specs.Reads.{Reads};

use crate::below::Below;
use crate::knot::{declarator_of, expr_of, specifier_of};
use c_grammar::DeclaratorPlace;
use c_nodes::{FoundDeclarator, FoundExpr, FoundSpecifiers};
use c_reading::{Cursor, ParseFault, Source};
use std::alloc::Global;

/// The trees of at most a height that a source has.
#[derive(Clone, Copy)]
pub struct Trees<'a> {
    pub alloc: Global,
    pub source: Source<'a>,
    pub height: u32,
}

impl<'a> Trees<'a> {
    /// An expression at a rank of the grammar (C99 6.5).
    pub fn expr(&self, c: &mut Cursor, rank: u32) -> Result<FoundExpr, ParseFault>
        requires small { self.now.height ≤ 256 }
        requires known { rank ≤ 16 }
        ensures { Reads (λ f. f.tree) self.now.source c.old c.new result ((rules self.now.height).expr rank) }
    {
        expr_of(
            self.alloc,
            self.source.tokens,
            self.source.file,
            c,
            self.height,
            rank,
        )
    }

    /// `declaration-specifiers: declaration-specifier { declaration-specifier }` (C99 6.7) that name one type (C99
    /// 6.7.2).
    pub fn specification(&self, c: &mut Cursor) -> Result<FoundSpecifiers, ParseFault>
        requires small { self.now.height ≤ 256 }
        ensures { Reads (λ f. f.trees) self.now.source c.old c.new result (specification_at (rules self.now.height)) }
    {
        let level = Below {
            alloc: self.alloc,
            source: self.source,
            height: self.height,
            expr: expr_of,
            specifier: specifier_of,
            declarator: declarator_of,
        };
        level.specification(c)
    }

    /// `declarator: [ pointer ] direct-declarator` (C99 6.7.5), or an abstract one at its places.
    pub fn declarator(
        &self,
        c: &mut Cursor,
        place: DeclaratorPlace,
    ) -> Result<FoundDeclarator, ParseFault>
        requires small { self.now.height ≤ 256 }
        ensures { Reads (λ f. f.tree) self.now.source c.old c.new result ((rules self.now.height).declarator place) }
    {
        declarator_of(
            self.alloc,
            self.source.tokens,
            self.source.file,
            c,
            self.height,
            place,
        )
    }
}
