//! Enumerators and their values (C99 6.7.2.2).
ghost use Rattle.c_grammar.specs.Reading as spec;
ghost use Rattle.c_grammar.specs.Reading.{rules};
ghost use Rattle.c_exprs.specs.Below.{ReachesExpr};
ghost use Rattle.c_reading.specs.Reads.{ReadsLow};

use crate::below::Below;
use c_grammar::DeclaratorPlace;
use c_language::{Punctuator, Token};
use c_nodes::{
    FoundDeclarator, FoundEnumerator, FoundExpr, FoundOptional, FoundSpecifier, expr, pieces,
};
use c_reading::{Cursor, ParseFault};
use c_scope::FileNames;
use std::alloc::Global;

impl<
    'a,
    E: Fn(Global, &[Token], &FileNames, &mut Cursor, u32, u32) -> Result<FoundExpr, ParseFault>,
    S: Fn(Global, &[Token], &FileNames, &mut Cursor, u32) -> Result<FoundSpecifier, ParseFault>,
    D: Fn(
        Global,
        &[Token],
        &FileNames,
        &mut Cursor,
        u32,
        DeclaratorPlace,
    ) -> Result<FoundDeclarator, ParseFault>,
> Below<'a, E, S, D> {
    /// `[ = constant-expression ]` (C99 6.7.2.2): the value of an enumerator, if there is one.
    #[tactic(auto, unfolding(c_grammar::specs::Reading::value_at))]
    pub fn value(&self, c: &mut Cursor) -> Result<FoundOptional, ParseFault>
        requires exprs { ReachesExpr E.Fn self.now.source self.now.height self.now.expr }
        ensures { ReadsLow (λ f. f.tree) (λ f. f.height) self.now.source c.old c.new result
            (spec.value_at (rules self.now.height)) self.now.height }
    {
        if !self.source.begins(c, Punctuator::Equal) {
            return Ok(expr::absent());
        }
        self.source.expect(c, Punctuator::Equal)?;
        let value = self.expr(c, 14)?;
        Ok(expr::present(self.alloc, value)?)
    }

    /// `enumerator: enumeration-constant [ = constant-expression ]` (C99 6.7.2.2); its name is in scope behind it.
    #[tactic(auto, unfolding(c_grammar::specs::Reading::enumerator_at))]
    pub fn enumerator(&self, c: &mut Cursor) -> Result<FoundEnumerator, ParseFault>
        requires exprs { ReachesExpr E.Fn self.now.source self.now.height self.now.expr }
        ensures { ReadsLow (λ f. f.tree) (λ f. f.height) self.now.source c.old c.new result
            (spec.enumerator_at (rules self.now.height)) self.now.height }
    {
        let (name, at) = self.source.name(c)?;
        let value = self.value(c)?;
        self.source.declare_name(c, &name)?;
        Ok(pieces::enumerator(at, name, value))
    }
}
