//! Labels and blocks (C99 6.8.1, 6.8.2), and statements that stand in others.
ghost use Rattle.std.specs.Prelude.{◌≤◌, length, suc};
ghost use Rattle.c_grammar.specs.Reading.{rules};
ghost use Rattle.c_grammar.specs.UnitReading as spec;
ghost use Rattle.c_grammar.specs.UnitReading.{stmt_at};
ghost use Rattle.c_reading.specs.Reads.{Reads};
ghost use Rattle.c_parser.specs.Turns.{ReachesStatement};

use crate::shared::expr;
use crate::turns::Turns;
use c_language::{Keyword, Punctuator, Stmt, Token};
use c_reading::{Cursor, ParseFault};
use c_scope::FileNames;
use plain_data::{Items, Shared};
use std::alloc::Global;

impl<
    'a,
    T: Fn(Global, &[Token], &FileNames, &mut Cursor, u32, u32) -> Result<Stmt, ParseFault>,
> Turns<'a, T> {
    /// `[ block-item-list ]` (C99 6.8.2): statements and declarations up to `}`.
    pub fn block_items(&self, c: &mut Cursor) -> Result<Items<Shared<Stmt>>, ParseFault>
        requires reaches { ReachesStatement T.Fn self.now }
        ensures { Reads (λ xs. xs) self.now.trees.source c.old c.new result
            (λ s. spec.block_items_at (stmt_at self.now.trees.height) (suc (length s.0)) s) }
    {
        let mut all = Items::new(self.trees.alloc);
        let mut left = self.trees.source.turns(c);
        'items: while left > 0 {
            left -= 1;
            if self.trees.source.begins(c, Punctuator::RightBrace) {
                return Ok(all);
            }
            let item = self.statement(c, 1)?;
            let item = Shared::new(self.trees.alloc, item)?;
            all.push(item)?;
        }
        Err(ParseFault::Syntax(c.position))
    }

    /// `compound-statement: { [ block-item-list ] }` (C99 6.8.2), behind `{`.
    #[tactic(auto, unfolding(c_grammar::specs::UnitReading::block_at))]
    pub fn block(&self, c: &mut Cursor, at: u32) -> Result<Stmt, ParseFault>
        requires reaches { ReachesStatement T.Fn self.now }
        ensures { Reads (λ x. x) self.now.trees.source c.old c.new result
            (spec.block_at (stmt_at self.now.trees.height) at) }
    {
        self.trees.source.enter(c)?;
        let items = self.block_items(c)?;
        self.trees.source.leave(c);
        self.trees.source.expect(c, Punctuator::RightBrace)?;
        Ok(Stmt::Block { at, items })
    }

    /// `labeled-statement: identifier : statement` (C99 6.8.1).
    #[tactic(auto, unfolding(c_grammar::specs::UnitReading::label_at))]
    pub fn label(&self, c: &mut Cursor) -> Result<Stmt, ParseFault>
        requires reaches { ReachesStatement T.Fn self.now }
        ensures { Reads (λ x. x) self.now.trees.source c.old c.new result
            (spec.label_at (stmt_at self.now.trees.height)) }
    {
        let (name, at) = self.trees.source.name(c)?;
        self.trees.source.expect(c, Punctuator::Colon)?;
        let body = self.statement(c, 0)?;
        let body = Shared::new(self.trees.alloc, body)?;
        Ok(Stmt::Label { at, name, body })
    }

    /// `labeled-statement: case constant-expression : statement` (C99 6.8.1), behind `case`.
    #[tactic(auto, unfolding(c_grammar::specs::UnitReading::case_at))]
    pub fn case(&self, c: &mut Cursor, at: u32) -> Result<Stmt, ParseFault>
        requires reaches { ReachesStatement T.Fn self.now }
        requires small { self.now.trees.height ≤ 256 }
        ensures { Reads (λ x. x) self.now.trees.source c.old c.new result
            (spec.case_at (stmt_at self.now.trees.height) (rules self.now.trees.height) at) }
    {
        let value = expr(&self.trees, c, 14)?;
        self.trees.source.expect(c, Punctuator::Colon)?;
        let body = self.statement(c, 0)?;
        let body = Shared::new(self.trees.alloc, body)?;
        Ok(Stmt::Case { at, value, body })
    }

    /// `labeled-statement: default : statement` (C99 6.8.1), behind `default`.
    #[tactic(auto, unfolding(c_grammar::specs::UnitReading::default_at))]
    pub fn default(&self, c: &mut Cursor, at: u32) -> Result<Stmt, ParseFault>
        requires reaches { ReachesStatement T.Fn self.now }
        ensures { Reads (λ x. x) self.now.trees.source c.old c.new result
            (spec.default_at (stmt_at self.now.trees.height) at) }
    {
        self.trees.source.expect(c, Punctuator::Colon)?;
        let body = self.statement(c, 0)?;
        let body = Shared::new(self.trees.alloc, body)?;
        Ok(Stmt::Default { at, body })
    }

    /// `statement` that is a block by itself (C99 6.8.4, 6.8.5).
    #[tactic(auto, unfolding(c_grammar::specs::UnitReading::substatement_at))]
    pub fn substatement(&self, c: &mut Cursor) -> Result<Shared<Stmt>, ParseFault>
        requires reaches { ReachesStatement T.Fn self.now }
        ensures { Reads (λ x. x) self.now.trees.source c.old c.new result
            (spec.substatement_at (stmt_at self.now.trees.height)) }
    {
        self.trees.source.enter(c)?;
        let body = self.statement(c, 0)?;
        self.trees.source.leave(c);
        Ok(Shared::new(self.trees.alloc, body)?)
    }

    /// `[ else statement ]` (C99 6.8.4.1).
    #[tactic(auto, unfolding(c_grammar::specs::UnitReading::else_at))]
    pub fn negative(&self, c: &mut Cursor) -> Result<Option<Shared<Stmt>>, ParseFault>
        requires reaches { ReachesStatement T.Fn self.now }
        ensures { Reads (λ x. x) self.now.trees.source c.old c.new result
            (spec.else_at (stmt_at self.now.trees.height)) }
    {
        if !self.trees.source.begins_keyword(c, Keyword::Else) {
            return Ok(None);
        }
        self.trees.source.expect_keyword(c, Keyword::Else)?;
        let body = self.substatement(c)?;
        Ok(Some(body))
    }
}
