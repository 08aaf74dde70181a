//! Declaration specifiers and type names (C99 6.7, 6.7.6).
ghost use Rattle.std.specs.Prelude.{◌≡◌, ◌||◌, false, length, suc};
ghost use Rattle.c_grammar.specs.Reading as spec;
ghost use Rattle.c_grammar.specs.Reading.{rules};
ghost use Rattle.c_grammar.specs.TypeWords as words;
ghost use Rattle.c_exprs.specs.Below.{Reaches, ReachesSpecifier};
ghost use Rattle.c_reading.specs.Reads.{ReadsLow};

use crate::below::Below;
use c_grammar::{DeclaratorPlace, TypeKind};
use c_language::Token;
use c_nodes::{FoundDeclarator, FoundExpr, FoundSpecifier, FoundSpecifiers, FoundType, specifier};
use c_reading::{Cursor, ParseFault};
use c_scope::FileNames;
use std::alloc::Global;

/// Whether a type was read, after a specifier that says this of the type.
fn typed_after(typed: bool, kind: TypeKind) -> bool
    ensures { result ≡ typed || words.is_type kind }
{
    match kind {
        TypeKind::NoType => typed,
        TypeKind::Word(_) | TypeKind::Whole => true,
    }
}

impl<
    'a,
    E: Fn(Global, &[Token], &FileNames, &mut Cursor, u32, u32) -> Result<FoundExpr, ParseFault>,
    S: Fn(Global, &[Token], &FileNames, &mut Cursor, u32) -> Result<FoundSpecifier, ParseFault>,
    D: Fn(
        Global,
        &[Token],
        &FileNames,
        &mut Cursor,
        u32,
        DeclaratorPlace,
    ) -> Result<FoundDeclarator, ParseFault>,
> Below<'a, E, S, D> {
    /// `{ declaration-specifier }` (C99 6.7): as many as there are.
    pub fn specifiers(&self, c: &mut Cursor) -> Result<FoundSpecifiers, ParseFault>
        requires specifiers { ReachesSpecifier S.Fn self.now.source self.now.height self.now.specifier }
        ensures { ReadsLow (λ f. f.trees) (λ f. f.height) self.now.source c.old c.new result
            (λ s. spec.specifiers_at (rules self.now.height) (suc (length s.0)) false s) self.now.height }
    {
        let mut all = specifier::no_specifiers(self.alloc);
        let mut typed = false;
        let mut left = self.source.turns(c);
        'specifiers: while left > 0 {
            left -= 1;
            if !self.source.specifies(c, typed) {
                return Ok(all);
            }
            let found = self.specifier(c)?;
            typed = typed_after(typed, found.kind);
            all = specifier::and_specifier(self.alloc, all, found)?;
        }
        Err(ParseFault::Syntax(c.position))
    }

    /// `declaration-specifiers: declaration-specifier { declaration-specifier }` (C99 6.7) that name one type (C99
    /// 6.7.2).
    #[tactic(auto, unfolding(c_grammar::specs::Reading::specification_at))]
    pub fn specification(&self, c: &mut Cursor) -> Result<FoundSpecifiers, ParseFault>
        requires specifiers { ReachesSpecifier S.Fn self.now.source self.now.height self.now.specifier }
        ensures { ReadsLow (λ f. f.trees) (λ f. f.height) self.now.source c.old c.new result
            (spec.specification_at (rules self.now.height)) self.now.height }
    {
        let all = self.specifiers(c)?;
        if all.words.is_allowed() {
            Ok(all)
        } else {
            Err(ParseFault::Syntax(c.position))
        }
    }

    /// `type-name: specifier-qualifier-list [ abstract-declarator ]` (C99 6.7.6).
    #[tactic(auto, unfolding(c_grammar::specs::Reading::type_name_at))]
    pub fn type_name(&self, c: &mut Cursor) -> Result<FoundType, ParseFault>
        requires reaches { Reaches E.Fn S.Fn D.Fn self.now }
        ensures { ReadsLow (λ f. f.tree) (λ f. f.height) self.now.source c.old c.new result
            (spec.type_name_at (rules self.now.height)) self.now.height }
    {
        let specifiers = self.specification(c)?;
        let declarator = self.declarator(c, DeclaratorPlace::TypeName)?;
        Ok(specifier::type_name(self.alloc, specifiers, declarator)?)
    }
}
