//! Selection and iteration statements (C99 6.8.4, 6.8.5).
ghost use Rattle.std.specs.Prelude.{◌≤◌};
ghost use Rattle.c_grammar.specs.Reading.{rules};
ghost use Rattle.c_grammar.specs.UnitReading as spec;
ghost use Rattle.c_grammar.specs.UnitReading.{stmt_at};
ghost use Rattle.c_reading.specs.Reads.{Reads};
ghost use Rattle.c_parser.specs.Control.{branches_at};
ghost use Rattle.c_parser.specs.Turns.{ReachesStatement};

use crate::jumps::condition;
use crate::turns::Turns;
use c_language::{Keyword, Punctuator, Stmt, Token};
use c_reading::{Cursor, ParseFault};
use c_scope::FileNames;
use plain_data::Shared;
use std::alloc::Global;

impl<
    'a,
    T: Fn(Global, &[Token], &FileNames, &mut Cursor, u32, u32) -> Result<Stmt, ParseFault>,
> Turns<'a, T> {
    /// `statement [ else statement ]` (C99 6.8.4.1): the branches of an `if` statement.
    #[tactic(auto, unfolding(crate::specs::Control::branches_at))]
    fn branches(&self, c: &mut Cursor) -> Result<(Shared<Stmt>, Option<Shared<Stmt>>), ParseFault>
        requires reaches { ReachesStatement T.Fn self.now }
        ensures { Reads (λ x. x) self.now.trees.source c.old c.new result
            (branches_at (stmt_at self.now.trees.height)) }
    {
        let positive = self.substatement(c)?;
        let negative = self.negative(c)?;
        Ok((positive, negative))
    }

    /// `selection-statement: if ( expression ) statement [ else statement ]` (C99 6.8.4), behind `if`.
    #[tactic(auto, using(crate::proofs::Splits::if_is))]
    pub fn selection(&self, c: &mut Cursor, at: u32) -> Result<Stmt, ParseFault>
        requires reaches { ReachesStatement T.Fn self.now }
        requires small { self.now.trees.height ≤ 256 }
        ensures { Reads (λ x. x) self.now.trees.source c.old c.new result
            (spec.if_at (stmt_at self.now.trees.height) (rules self.now.trees.height) at) }
    {
        self.trees.source.enter(c)?;
        let condition = condition(&self.trees, c)?;
        let (positive, negative) = self.branches(c)?;
        self.trees.source.leave(c);
        Ok(Stmt::If {
            at,
            condition,
            positive,
            negative,
        })
    }

    /// `selection-statement: switch ( expression ) statement` (C99 6.8.4), behind `switch`.
    #[tactic(auto, unfolding(c_grammar::specs::UnitReading::switch_at))]
    pub fn switch(&self, c: &mut Cursor, at: u32) -> Result<Stmt, ParseFault>
        requires reaches { ReachesStatement T.Fn self.now }
        requires small { self.now.trees.height ≤ 256 }
        ensures { Reads (λ x. x) self.now.trees.source c.old c.new result
            (spec.switch_at (stmt_at self.now.trees.height) (rules self.now.trees.height) at) }
    {
        self.trees.source.enter(c)?;
        let value = condition(&self.trees, c)?;
        let body = self.substatement(c)?;
        self.trees.source.leave(c);
        Ok(Stmt::Switch { at, value, body })
    }

    /// `iteration-statement: while ( expression ) statement` (C99 6.8.5), behind `while`.
    #[tactic(auto, unfolding(c_grammar::specs::UnitReading::while_at))]
    pub fn while_loop(&self, c: &mut Cursor, at: u32) -> Result<Stmt, ParseFault>
        requires reaches { ReachesStatement T.Fn self.now }
        requires small { self.now.trees.height ≤ 256 }
        ensures { Reads (λ x. x) self.now.trees.source c.old c.new result
            (spec.while_at (stmt_at self.now.trees.height) (rules self.now.trees.height) at) }
    {
        self.trees.source.enter(c)?;
        let condition = condition(&self.trees, c)?;
        let body = self.substatement(c)?;
        self.trees.source.leave(c);
        Ok(Stmt::While {
            at,
            condition,
            body,
        })
    }

    /// `iteration-statement: do statement while ( expression ) ;` (C99 6.8.5), behind `do`.
    #[tactic(auto, unfolding(c_grammar::specs::UnitReading::do_at))]
    pub fn do_loop(&self, c: &mut Cursor, at: u32) -> Result<Stmt, ParseFault>
        requires reaches { ReachesStatement T.Fn self.now }
        requires small { self.now.trees.height ≤ 256 }
        ensures { Reads (λ x. x) self.now.trees.source c.old c.new result
            (spec.do_at (stmt_at self.now.trees.height) (rules self.now.trees.height) at) }
    {
        self.trees.source.enter(c)?;
        let body = self.substatement(c)?;
        self.trees.source.expect_keyword(c, Keyword::While)?;
        let condition = condition(&self.trees, c)?;
        self.trees.source.expect(c, Punctuator::Semicolon)?;
        self.trees.source.leave(c);
        Ok(Stmt::Do {
            at,
            body,
            condition,
        })
    }
}
