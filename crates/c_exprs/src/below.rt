//! Reading one level of a tree, whose parts are read by functions that are handed in. So the recursion stands in one
//! place, and each rule is a function by itself.
ghost use Rattle.std.specs.Prelude.{◌≤◌};
ghost use Rattle.c_grammar.specs.Reading.{rules};
ghost use Rattle.c_exprs.specs.Below.{ReachesExpr, ReachesSpecifier, ReachesDeclarator};
ghost use Rattle.c_exprs.specs.Reads.{ReadsExpr, ReadsSpecifier, ReadsDeclarator};

use c_grammar::DeclaratorPlace;
use c_language::Token;
use c_nodes::{FoundDeclarator, FoundExpr, FoundSpecifier};
use c_reading::{Cursor, ParseFault, Source};
use c_scope::FileNames;
use std::alloc::Global;

/// What reads the parts of a tree: each of the three functions is handed the allocator, the tokens, the names of the
/// file, the cursor, and the greatest height of what it reads.
#[derive(Clone, Copy)]
pub struct Below<'a, E, S, D> {
    pub alloc: Global,
    pub source: Source<'a>,
    pub height: u32,
    pub expr: E,
    pub specifier: S,
    pub declarator: D,
}

impl<
    'a,
    E: Fn(Global, &[Token], &FileNames, &mut Cursor, u32, u32) -> Result<FoundExpr, ParseFault>,
    S: Fn(Global, &[Token], &FileNames, &mut Cursor, u32) -> Result<FoundSpecifier, ParseFault>,
    D: Fn(
        Global,
        &[Token],
        &FileNames,
        &mut Cursor,
        u32,
        DeclaratorPlace,
    ) -> Result<FoundDeclarator, ParseFault>,
> Below<'a, E, S, D> {
    /// An expression at a rank of the grammar (C99 6.5), by the function that is handed in.
    pub fn expr(&self, c: &mut Cursor, rank: u32) -> Result<FoundExpr, ParseFault>
        requires exprs { ReachesExpr E.Fn self.now.source self.now.height self.now.expr }
        requires known { rank ≤ 16 }
        ensures { ReadsExpr self.now.source c.old c.new result ((rules self.now.height).expr rank) self.now.height }
    {
        (self.expr)(
            self.alloc,
            self.source.tokens,
            self.source.file,
            c,
            self.height,
            rank,
        )
    }

    /// `declaration-specifier: storage-class-specifier | type-specifier | type-qualifier | function-specifier`
    /// (C99 6.7), by the function that is handed in.
    pub fn specifier(&self, c: &mut Cursor) -> Result<FoundSpecifier, ParseFault>
        requires specifiers { ReachesSpecifier S.Fn self.now.source self.now.height self.now.specifier }
        ensures { ReadsSpecifier self.now.source c.old c.new result
            (rules self.now.height).specifier self.now.height }
    {
        (self.specifier)(
            self.alloc,
            self.source.tokens,
            self.source.file,
            c,
            self.height,
        )
    }

    /// `declarator: [ pointer ] direct-declarator` (C99 6.7.5), or an abstract one at its places, by the function
    /// that is handed in.
    pub fn declarator(
        &self,
        c: &mut Cursor,
        place: DeclaratorPlace,
    ) -> Result<FoundDeclarator, ParseFault>
        requires declarators { ReachesDeclarator D.Fn self.now.source self.now.height self.now.declarator }
        ensures { ReadsDeclarator self.now.source c.old c.new result
            ((rules self.now.height).declarator place) self.now.height }
    {
        (self.declarator)(
            self.alloc,
            self.source.tokens,
            self.source.file,
            c,
            self.height,
            place,
        )
    }
}
