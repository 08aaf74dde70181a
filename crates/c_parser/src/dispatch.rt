//! A statement, by its first tokens (C99 6.8).
ghost use Rattle.std.specs.Prelude.{◌≡◌, ◌≤◌, drop};
ghost use Rattle.c_grammar.specs.Reading.{rules};
ghost use Rattle.c_grammar.specs.UnitReading as spec;
ghost use Rattle.c_grammar.specs.UnitReading.{stmt_at, initializer_at};
ghost use Rattle.c_reading.specs.Cursor.{here};
ghost use Rattle.c_reading.specs.Reads.{Reads};
ghost use Rattle.c_parser.specs.Turns.{ReachesStatement};

use crate::declarations::declaration;
use crate::groups::is_mark;
use crate::jumps::{break_statement, continue_statement, goto, return_statement, value_statement};
use crate::turns::Turns;
use c_exprs::Trees;
use c_language::{Keyword, Punctuator, Stmt, Token, TokenKind};
use c_reading::{Cursor, ParseFault, Source};
use c_scope::FileNames;
use std::alloc::Global;

/// Whether the token at this index is `:`.
fn is_colon(tokens: &[Token], index: usize) -> bool
    ensures { result ≡ spec.next_colon (drop index tokens.now) }
{
    match tokens.get(index) {
        Some(token) => is_mark(&token.kind, Punctuator::Colon),
        None => false,
    }
}

/// Whether a name and `:` come next (C99 6.8.1).
fn is_labelled(source: &Source<'_>, c: &Cursor) -> bool
    ensures { result ≡ spec.labelled (here source.now c.now).0 }
{
    match source.tokens.get(c.position) {
        Some(token) => match &token.kind {
            TokenKind::Identifier(_) => is_colon(source.tokens, c.position + 1),
            _ => false,
        },
        None => false,
    }
}

/// `block-item: declaration` (C99 6.8.2), where it may stand: at rank 1.
#[tactic(auto, unfolding(c_grammar::specs::UnitReading::declared_statement_at))]
fn declared(trees: &Trees<'_>, c: &mut Cursor, rank: u32) -> Result<Stmt, ParseFault>
    requires small { trees.now.height ≤ 256 }
    ensures { Reads (λ x. x) trees.now.source c.old c.new result
        (spec.declared_by (rules trees.now.height) (initializer_at trees.now.height) rank) }
{
    if rank < 1 {
        return Err(ParseFault::Syntax(c.position));
    }
    let declaration = declaration(trees, c)?;
    Ok(Stmt::Declared { declaration })
}

impl<
    'a,
    T: Fn(Global, &[Token], &FileNames, &mut Cursor, u32, u32) -> Result<Stmt, ParseFault>,
> Turns<'a, T> {
    /// `labeled-statement | selection-statement | iteration-statement | jump-statement` (C99 6.8) by the keyword that
    /// comes next, or an expression statement; `at` is the keyword's offset, and `behind` the number of the token
    /// behind it.
    fn worded(
        &self,
        c: &mut Cursor,
        keyword: Keyword,
        at: u32,
        behind: usize,
    ) -> Result<Stmt, ParseFault>
        requires reaches { ReachesStatement T.Fn self.now }
        requires small { self.now.trees.height ≤ 256 }
        ensures { Reads (λ x. x) self.now.trees.source c.old c.new result
            (λ s. spec.keyword_statement (stmt_at self.now.trees.height) (rules self.now.trees.height)
            (initializer_at self.now.trees.height) keyword at
            (drop behind self.now.trees.source.tokens.now, s.1) s) }
    {
        let whole = c.position;
        c.position = behind;
        match keyword {
            Keyword::Case => self.case(c, at),
            Keyword::Default => self.default(c, at),
            Keyword::If => self.selection(c, at),
            Keyword::Switch => self.switch(c, at),
            Keyword::While => self.while_loop(c, at),
            Keyword::Do => self.do_loop(c, at),
            Keyword::For => self.for_loop(c, at),
            Keyword::Goto => goto(&self.trees.source, c, at),
            Keyword::Continue => continue_statement(&self.trees.source, c, at),
            Keyword::Break => break_statement(&self.trees.source, c, at),
            Keyword::Return => return_statement(&self.trees, c, at),
            _ => {
                c.position = whole;
                value_statement(&self.trees, c)
            }
        }
    }

    /// `statement` (C99 6.8) that no label begins, by the token that comes next.
    fn plain(&self, c: &mut Cursor) -> Result<Stmt, ParseFault>
        requires reaches { ReachesStatement T.Fn self.now }
        requires small { self.now.trees.height ≤ 256 }
        ensures { Reads (λ x. x) self.now.trees.source c.old c.new result
            (λ s. spec.plain_in (stmt_at self.now.trees.height) (rules self.now.trees.height)
            (initializer_at self.now.trees.height) s.0 s.1) }
    {
        match self.trees.source.tokens.get(c.position) {
            Some(token) => match &token.kind {
                TokenKind::Keyword(keyword) => self.worded(
                    c,
                    *keyword,
                    token.start,
                    c.position + 1,
                ),
                TokenKind::Punctuator(Punctuator::LeftBrace) => {
                    c.position += 1;
                    self.block(c, token.start)
                }
                _ => value_statement(&self.trees, c),
            },
            None => Err(ParseFault::Syntax(c.position)),
        }
    }

    /// `statement` (C99 6.8) of at most the height above that of its parts, and at rank 1 `declaration | statement`
    /// (C99 6.8.2).
    #[tactic(auto, unfolding(c_grammar::specs::UnitReading::stmt_by))]
    pub fn read_statement(&self, c: &mut Cursor, rank: u32) -> Result<Stmt, ParseFault>
        requires reaches { ReachesStatement T.Fn self.now }
        requires small { self.now.trees.height ≤ 256 }
        ensures { Reads (λ x. x) self.now.trees.source c.old c.new result
            (spec.stmt_by (stmt_at self.now.trees.height) (rules self.now.trees.height)
            (initializer_at self.now.trees.height) rank) }
    {
        if is_labelled(&self.trees.source, c) {
            return self.label(c);
        }
        if self.trees.source.specifies(c, false) {
            return declared(&self.trees, c, rank);
        }
        self.plain(c)
    }
}
