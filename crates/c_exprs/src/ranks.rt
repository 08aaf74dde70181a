//! Expressions by how loosely they bind (C99 6.5).
ghost use Rattle.std.specs.Prelude.{◌≤◌, ◌<◌, ◌+◌, suc};
ghost use Rattle.c_grammar.specs.Reading as spec;
ghost use Rattle.c_grammar.specs.Reading.{rules};
ghost use Rattle.c_exprs.specs.Below.{Reaches, ReachesExpr};
ghost use Rattle.c_exprs.specs.Reads.{ReadsExpr};

use crate::below::Below;
use c_grammar::DeclaratorPlace;
use c_language::{Keyword, Token};
use c_nodes::{FoundDeclarator, FoundExpr, FoundSpecifier};
use c_reading::{Cursor, ParseFault};
use c_scope::FileNames;
use std::alloc::Global;

impl<
    'a,
    E: Fn(Global, &[Token], &FileNames, &mut Cursor, u32, u32) -> Result<FoundExpr, ParseFault>,
    S: Fn(Global, &[Token], &FileNames, &mut Cursor, u32) -> Result<FoundSpecifier, ParseFault>,
    D: Fn(
        Global,
        &[Token],
        &FileNames,
        &mut Cursor,
        u32,
        DeclaratorPlace,
    ) -> Result<FoundDeclarator, ParseFault>,
> Below<'a, E, S, D> {
    /// `postfix-expression: primary-expression { [ .. ] | ( .. ) | . .. | -> .. | ++ | -- }` (C99 6.5.2).
    #[tactic(auto, unfolding(c_grammar::specs::Reading::expr_by))]
    fn postfix(&self, c: &mut Cursor) -> Result<FoundExpr, ParseFault>
        requires exprs { ReachesExpr E.Fn self.now.source self.now.height self.now.expr }
        requires small { self.now.height < 500 }
        ensures { ReadsExpr self.now.source c.old c.new result
            (spec.expr_by (rules self.now.height) (suc self.now.height) 1) (self.now.height + 1) }
    {
        let first = self.primary(c)?;
        self.more(c, 1, first)
    }

    /// `unary-expression: postfix-expression | unary-operator cast-expression | sizeof ..` (C99 6.5.3).
    #[tactic(auto, unfolding(c_grammar::specs::Reading::expr_by))]
    fn prefixed(&self, c: &mut Cursor) -> Result<FoundExpr, ParseFault>
        requires reaches { Reaches E.Fn S.Fn D.Fn self.now }
        requires small { self.now.height < 500 }
        ensures { ReadsExpr self.now.source c.old c.new result
            (spec.expr_by (rules self.now.height) (suc self.now.height) 2) (self.now.height + 1) }
    {
        if self.source.begins_unary(c) {
            return self.unary(c);
        }
        if self.source.begins_keyword(c, Keyword::Sizeof) {
            return self.sized(c);
        }
        self.postfix(c)
    }

    /// `cast-expression: unary-expression | ( type-name ) cast-expression` (C99 6.5.4).
    #[tactic(auto, unfolding(c_grammar::specs::Reading::expr_by))]
    fn converted(&self, c: &mut Cursor) -> Result<FoundExpr, ParseFault>
        requires reaches { Reaches E.Fn S.Fn D.Fn self.now }
        requires small { self.now.height < 500 }
        ensures { ReadsExpr self.now.source c.old c.new result
            (spec.expr_by (rules self.now.height) (suc self.now.height) 3) (self.now.height + 1) }
    {
        if self.source.begins_typed(c) {
            return self.cast(c);
        }
        self.prefixed(c)
    }

    /// `primary-expression`, `postfix-expression`, `unary-expression` or `cast-expression`, by its rank (C99 6.5.1
    /// to 6.5.4).
    #[tactic(auto, unfolding(c_grammar::specs::Reading::expr_by))]
    fn operand(&self, c: &mut Cursor, rank: u32) -> Result<FoundExpr, ParseFault>
        requires reaches { Reaches E.Fn S.Fn D.Fn self.now }
        requires small { self.now.height < 500 }
        requires known { rank ≤ 3 }
        ensures { ReadsExpr self.now.source c.old c.new result
            (spec.expr_by (rules self.now.height) (suc self.now.height) rank) (self.now.height + 1) }
    {
        match rank {
            0 => self.primary(c),
            1 => self.postfix(c),
            2 => self.prefixed(c),
            _ => self.converted(c),
        }
    }

    /// `expression: assignment-expression { , assignment-expression }`, and so at each rank from the cast up: the
    /// operand, and the operators of each looser rank in turn (C99 6.5), of at most the height above that of its
    /// parts.
    pub fn read_expr(&self, c: &mut Cursor, rank: u32) -> Result<FoundExpr, ParseFault>
        requires reaches { Reaches E.Fn S.Fn D.Fn self.now }
        requires small { self.now.height < 500 }
        requires known { rank ≤ 16 }
        ensures { ReadsExpr self.now.source c.old c.new result
            (spec.expr_by (rules self.now.height) (suc self.now.height) rank) (self.now.height + 1) }
    {
        if rank <= 3 {
            return self.operand(c, rank);
        }
        let mut all = self.converted(c)?;
        let mut reached = 3;
        'ranks: while reached < rank {
            let next = self.source.binds(c);
            if next <= reached || next > rank {
                return Ok(all);
            }
            all = self.more(c, next, all)?;
            reached = next;
        }
        Ok(all)
    }
}
