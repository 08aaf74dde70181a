//! Declarations (C99 6.7).
ghost use Rattle.std.specs.Prelude.{◌≡◌, ◌≤◌, length, suc};
ghost use Rattle.c_grammar.specs.Reading.{rules};
ghost use Rattle.c_grammar.specs.Units as units;
ghost use Rattle.c_grammar.specs.UnitReading as spec;
ghost use Rattle.c_grammar.specs.UnitReading.{initializer_at, declaration_at};
ghost use Rattle.c_reading.specs.Cursor.{after};
ghost use Rattle.c_reading.specs.Reads.{Reads};

use crate::initializers::initializer;
use crate::scopes::declare;
use c_exprs::Trees;
use c_grammar::DeclaratorPlace;
use c_language::{
    Declaration, Declarator, InitDeclarator, Initializer, Keyword, Punctuator, Specifier,
    StorageClass,
};
use c_reading::{Cursor, ParseFault, Source};
use plain_data::{Bytes, Items, Shared};
use std::alloc::Global;

/// Whether a specifier is `typedef` (C99 6.7.1).
fn is_typedef_word(specifier: &Specifier) -> bool
    ensures { result ≡ units.is_typedef_word specifier.now }
{
    match specifier {
        Specifier::Storage { class, .. } => *class == StorageClass::Typedef,
        _ => false,
    }
}

/// Whether a declaration with these specifiers declares typedef names (C99 6.7.7).
pub fn makes_types(specifiers: &[Shared<Specifier>]) -> bool
    ensures { result ≡ units.makes_types specifiers.now }
{
    for specifier in specifiers {
        if is_typedef_word(specifier.get()) {
            return true;
        }
    }
    false
}

/// `declarator` (C99 6.7.5), whose name is then in scope (C99 6.2.1).
#[tactic(auto, unfolding(c_grammar::specs::UnitReading::declaring_at))]
pub fn declaring(trees: &Trees<'_>, c: &mut Cursor, is_type: bool) -> Result<Declarator, ParseFault>
    requires small { trees.now.height ≤ 256 }
    ensures { Reads (λ d. d) trees.now.source c.old c.new result (spec.declaring_at (rules trees.now.height) is_type) }
{
    trees.source.forget(c);
    let found = trees.declarator(c, DeclaratorPlace::Declaration)?;
    declare(trees.alloc, &trees.source, c, &found, is_type)?;
    Ok(found.tree)
}

/// `asm ( string-literal { string-literal } )`: the assembler's name, as compilers write it behind a declarator.
#[tactic(auto, unfolding(c_grammar::specs::UnitReading::assembler_name_at))]
fn assembler_name(
    alloc: Global,
    source: &Source<'_>,
    c: &mut Cursor,
) -> Result<Items<Shared<Bytes>>, ParseFault>
    ensures { Reads (λ name. name) source.now c.old c.new result spec.assembler_name_at }
{
    source.expect_keyword(c, Keyword::Asm)?;
    source.expect(c, Punctuator::LeftParen)?;
    let (first, _) = source.literal(c)?;
    let pieces = source.literals(alloc, c, first)?;
    source.expect(c, Punctuator::RightParen)?;
    Ok(pieces)
}

/// `[ asm ( string-literal { string-literal } ) ]`: the pieces of the assembler's name, if one is given.
fn assembler(
    alloc: Global,
    source: &Source<'_>,
    c: &mut Cursor,
) -> Result<Items<Shared<Bytes>>, ParseFault>
    ensures { Reads (λ name. name) source.now c.old c.new result spec.assembler_at }
{
    if source.begins_keyword(c, Keyword::Asm) {
        return assembler_name(alloc, source, c);
    }
    Ok(Items::new(alloc))
}

/// `[ = initializer ]` (C99 6.7).
#[tactic(auto, unfolding(c_grammar::specs::UnitReading::initialized_at))]
fn initialized(trees: &Trees<'_>, c: &mut Cursor) -> Result<Option<Initializer>, ParseFault>
    requires small { trees.now.height ≤ 256 }
    ensures { Reads (λ x. x) trees.now.source c.old c.new result
        (spec.initialized_at (initializer_at trees.now.height)) }
{
    if !trees.source.begins(c, Punctuator::Equal) {
        return Ok(None);
    }
    trees.source.expect(c, Punctuator::Equal)?;
    let value = initializer(
        trees.alloc,
        trees.source.tokens,
        trees.source.file,
        c,
        trees.height,
    )?;
    Ok(Some(value))
}

/// `init-declarator: declarator [ = initializer ]` (C99 6.7), behind the declarator.
#[tactic(auto, unfolding(c_grammar::specs::UnitReading::rest_at))]
fn rest(
    trees: &Trees<'_>,
    c: &mut Cursor,
    declarator: Declarator,
) -> Result<InitDeclarator, ParseFault>
    requires small { trees.now.height ≤ 256 }
    ensures { Reads (λ x. x) trees.now.source c.old c.new result
        (spec.rest_at (initializer_at trees.now.height) declarator) }
{
    let assembler_name = assembler(trees.alloc, &trees.source, c)?;
    let initializer = initialized(trees, c)?;
    Ok(InitDeclarator {
        declarator,
        assembler_name,
        initializer,
    })
}

/// `init-declarator: declarator [ = initializer ]` (C99 6.7).
#[tactic(auto, unfolding(c_grammar::specs::UnitReading::init_at))]
fn init(trees: &Trees<'_>, c: &mut Cursor, is_type: bool) -> Result<InitDeclarator, ParseFault>
    requires small { trees.now.height ≤ 256 }
    ensures { Reads (λ x. x) trees.now.source c.old c.new result
        (spec.init_at (rules trees.now.height) (initializer_at trees.now.height) is_type) }
{
    let declarator = declaring(trees, c, is_type)?;
    rest(trees, c, declarator)
}

/// `init-declarator-list: init-declarator { , init-declarator }` (C99 6.7), behind the first: these declarators, and
/// those behind a comma.
fn more_inits(
    trees: &Trees<'_>,
    c: &mut Cursor,
    is_type: bool,
    first: Items<InitDeclarator>,
) -> Result<Items<InitDeclarator>, ParseFault>
    requires small { trees.now.height ≤ 256 }
    ensures { Reads (λ xs. xs) trees.now.source c.old c.new result
        (λ s. after first (spec.more_inits_at (rules trees.now.height) (initializer_at trees.now.height) is_type
        (suc (length s.0)) s)) }
{
    let mut all = first;
    let mut left = trees.source.turns(c);
    'inits: while left > 0 {
        left -= 1;
        if !trees.source.begins(c, Punctuator::Comma) {
            return Ok(all);
        }
        trees.source.expect(c, Punctuator::Comma)?;
        let found = init(trees, c, is_type)?;
        all.push(found)?;
    }
    Err(ParseFault::Syntax(c.position))
}

/// `declaration: declaration-specifiers init-declarator-list ;` (C99 6.7), behind its first declarator.
#[tactic(auto, unfolding(c_grammar::specs::UnitReading::declaration_behind_at))]
pub fn declaration_behind(
    trees: &Trees<'_>,
    c: &mut Cursor,
    specifiers: Items<Shared<Specifier>>,
    declarator: Declarator,
) -> Result<Declaration, ParseFault>
    requires small { trees.now.height ≤ 256 }
    ensures { Reads (λ d. d) trees.now.source c.old c.new result
        (spec.declaration_behind_at (rules trees.now.height) (initializer_at trees.now.height) specifiers declarator) }
{
    let is_type = makes_types(specifiers.as_slice());
    let mut declarators = Items::new(trees.alloc);
    declarators.push(rest(trees, c, declarator)?)?;
    let declarators = more_inits(trees, c, is_type, declarators)?;
    trees.source.expect(c, Punctuator::Semicolon)?;
    Ok(Declaration {
        specifiers,
        declarators,
    })
}

/// `declaration: declaration-specifiers [ init-declarator-list ] ;` (C99 6.7).
#[tactic(auto, unfolding(c_grammar::specs::UnitReading::declaration_at))]
pub fn declaration(trees: &Trees<'_>, c: &mut Cursor) -> Result<Declaration, ParseFault>
    requires small { trees.now.height ≤ 256 }
    ensures { Reads (λ d. d) trees.now.source c.old c.new result
        (declaration_at (rules trees.now.height) (initializer_at trees.now.height)) }
{
    let specifiers = trees.specification(c)?.trees;
    if trees.source.begins(c, Punctuator::Semicolon) {
        trees.source.expect(c, Punctuator::Semicolon)?;
        return Ok(Declaration {
            specifiers,
            declarators: Items::new(trees.alloc),
        });
    }
    let is_type = makes_types(specifiers.as_slice());
    let declarator = declaring(trees, c, is_type)?;
    declaration_behind(trees, c, specifiers, declarator)
}
