//! Enumerations (C99 6.7.2.2).
ghost use Rattle.std.specs.Prelude.{◌≡◌, ◌≤◌, ◌<◌, ◌+◌, ◌++◌, ◌∷◌, [], IfOk, true, false, map, max, length, suc};
ghost use Rattle.c_grammar.specs.Grammar.{enumerator_of, highest};
ghost use Rattle.c_grammar.specs.Reading as spec;
ghost use Rattle.c_grammar.specs.Reading.{rules};
ghost use Rattle.c_exprs.specs.Below.{ReachesExpr};
ghost use Rattle.c_reading.specs.Cursor.{behind};
ghost use Rattle.c_reading.specs.Reads.{ReadsLow};
ghost use Rattle.c_exprs.specs.Reads.{ReadsSpecifier};

use crate::below::Below;
use c_grammar::DeclaratorPlace;
use c_language::{Enumerator, Punctuator, TagName, Token};
use c_nodes::expr::most;
use c_nodes::{FoundDeclarator, FoundEnumerator, FoundExpr, FoundSpecifier, specifier};
use c_reading::{Cursor, ParseFault};
use c_scope::FileNames;
use plain_data::{Items, Shared};
use std::alloc::{AllocError, Global};

/// Enumerators, whether a comma follows the last, and the height of the highest.
#[derive(Drop)]
pub struct FoundEnumerators {
    pub trees: Items<Shared<Enumerator>>,
    pub trailing: bool,
    pub height: u32,
    pub ghost height_is: { height ≡ highest (map enumerator_of trees) },
}

/// No enumerators yet.
pub fn no_enumerators(alloc: Global) -> FoundEnumerators
    ensures trees { result.trees ≡ [] }
    ensures height { result.height ≡ 0 }
    ensures trailing { result.trailing ≡ false }
{
    FoundEnumerators {
        trees: Items::new(alloc),
        trailing: false,
        height: 0,
    }
}

/// Enumerators and one more behind them.
#[tactic(auto, using(crate::proofs::Enumerating::height_enumerators))]
pub fn and_enumerator(
    alloc: Global,
    all: FoundEnumerators,
    last: FoundEnumerator,
) -> Result<FoundEnumerators, AllocError>
    ensures trees { IfOk result (λ f. f.trees ≡ all.trees ++ last.tree ∷ []) }
    ensures height { IfOk result (λ f. f.height ≡ max all.height last.height) }
    ensures trailing { IfOk result (λ f. f.trailing ≡ all.trailing) }
{
    let height = most(all.height, last.height);
    let trailing = all.trailing;
    let mut trees = all.trees;
    trees.push(Shared::new(alloc, last.tree)?)?;
    Ok(FoundEnumerators {
        trees,
        trailing,
        height,
    })
}

/// Enumerators with a comma behind the last.
pub fn and_comma(all: FoundEnumerators) -> FoundEnumerators
    ensures trees { result.trees ≡ all.trees }
    ensures height { result.height ≡ all.height }
    ensures trailing { result.trailing ≡ true }
{
    FoundEnumerators {
        trees: all.trees,
        trailing: true,
        height: all.height,
    }
}

impl<
    'a,
    E: Fn(Global, &[Token], &FileNames, &mut Cursor, u32, u32) -> Result<FoundExpr, ParseFault>,
    S: Fn(Global, &[Token], &FileNames, &mut Cursor, u32) -> Result<FoundSpecifier, ParseFault>,
    D: Fn(
        Global,
        &[Token],
        &FileNames,
        &mut Cursor,
        u32,
        DeclaratorPlace,
    ) -> Result<FoundDeclarator, ParseFault>,
> Below<'a, E, S, D> {
    /// `enumerator-list: enumerator { , enumerator } [ , ]` (C99 6.7.2.2), behind the first: these enumerators, and
    /// those behind a comma, up to `}`.
    pub fn more_enumerators(
        &self,
        c: &mut Cursor,
        first: FoundEnumerators,
    ) -> Result<FoundEnumerators, ParseFault>
        requires exprs { ReachesExpr E.Fn self.now.source self.now.height self.now.expr }
        requires low_first { first.height ≤ self.now.height }
        requires untrailed { first.trailing ≡ false }
        ensures { ReadsLow (λ f. (f.trees, f.trailing)) (λ f. f.height) self.now.source c.old c.new result
            (λ s. behind first.trees (spec.more_enumerators_at (rules self.now.height) (suc (length s.0)) s))
            self.now.height }
    {
        let mut all = first;
        let mut left = self.source.turns(c);
        'enumerators: while left > 0 {
            left -= 1;
            if !self.source.begins(c, Punctuator::Comma) {
                return Ok(all);
            }
            self.source.expect(c, Punctuator::Comma)?;
            if self.source.begins(c, Punctuator::RightBrace) {
                return Ok(and_comma(all));
            }
            let found = self.enumerator(c)?;
            all = and_enumerator(self.alloc, all, found)?;
        }
        Err(ParseFault::Syntax(c.position))
    }

    /// `enum-specifier: enum [ identifier ] { enumerator-list [ , ] }` (C99 6.7.2.2), from `{` on.
    #[tactic(auto, unfolding(c_grammar::specs::Reading::enumeration_at))]
    pub fn enumeration(
        &self,
        c: &mut Cursor,
        at: u32,
        tag: Option<TagName>,
    ) -> Result<FoundSpecifier, ParseFault>
        requires exprs { ReachesExpr E.Fn self.now.source self.now.height self.now.expr }
        requires small { self.now.height < 500 }
        ensures { ReadsSpecifier self.now.source c.old c.new result
            (spec.enumeration_at (rules self.now.height) at tag) (self.now.height + 1) }
    {
        self.source.expect(c, Punctuator::LeftBrace)?;
        let first = self.enumerator(c)?;
        let first = and_enumerator(self.alloc, no_enumerators(self.alloc), first)?;
        let all = self.more_enumerators(c, first)?;
        self.source.expect(c, Punctuator::RightBrace)?;
        Ok(specifier::enumeration(at, tag, all.trees, all.trailing, all.height))
    }

    /// `enum-specifier: enum ( [ identifier ] { enumerator-list [ , ] } | identifier )` (C99 6.7.2.2), after the
    /// word `enum`.
    #[tactic(auto, unfolding(c_grammar::specs::Reading::enum_at))]
    pub fn enumerated(&self, c: &mut Cursor, at: u32) -> Result<FoundSpecifier, ParseFault>
        requires exprs { ReachesExpr E.Fn self.now.source self.now.height self.now.expr }
        requires small { self.now.height < 500 }
        ensures { ReadsSpecifier self.now.source c.old c.new result
            (spec.enum_at (rules self.now.height) at) (self.now.height + 1) }
    {
        if self.source.begins(c, Punctuator::LeftBrace) {
            return self.enumeration(c, at, None);
        }
        let tag = self.source.tag(c)?;
        if self.source.begins(c, Punctuator::LeftBrace) {
            return self.enumeration(c, at, Some(tag));
        }
        Ok(specifier::enum_tag(at, tag))
    }
}
