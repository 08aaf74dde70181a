//! External declarations (C99 6.9).
ghost use Rattle.std.specs.Prelude.{◌≡◌, drop, length, suc};
ghost use Rattle.c_grammar.specs.UnitReading as spec;
ghost use Rattle.c_reading.specs.Cursor.{state_of, Gives};
ghost use Rattle.c_reading.specs.Reads.{Reads};

use crate::bodies::body;
use crate::declarations::{declaration_behind, declaring, makes_types};
use c_exprs::Trees;
use c_language::{Declaration, Declarator, External, Punctuator, Specifier, Token};
use c_reading::{Cursor, ParseFault, Source, is_at_end, most_height};
use c_scope::{FileNames, Names};
use plain_data::{Items, Shared};
use std::alloc::Global;

/// `compound-statement | [ = initializer ] { , init-declarator } ;` (C99 6.7, 6.9.1), behind the first declarator.
fn behind_declarator(
    trees: &Trees<'_>,
    c: &mut Cursor,
    specifiers: Items<Shared<Specifier>>,
    declarator: Declarator,
) -> Result<External, ParseFault>
    requires whole { trees.now.height ≡ 256 }
    ensures { Reads (λ x. x) trees.now.source c.old c.new result (spec.behind_declarator_at specifiers declarator) }
{
    if trees.source.begins(c, Punctuator::LeftBrace) {
        let body = body(trees.alloc, &trees.source, c)?;
        return Ok(External::Function {
            specifiers,
            declarator,
            body,
        });
    }
    let declaration = declaration_behind(trees, c, specifiers, declarator)?;
    Ok(External::Declared { declaration })
}

/// `external-declaration: function-definition | declaration` (C99 6.9).
#[tactic(auto, unfolding(c_grammar::specs::UnitReading::declared_external_at))]
fn declared_external(trees: &Trees<'_>, c: &mut Cursor) -> Result<External, ParseFault>
    requires whole { trees.now.height ≡ 256 }
    ensures { Reads (λ x. x) trees.now.source c.old c.new result spec.declared_external_at }
{
    let specifiers = trees.specification(c)?.trees;
    if trees.source.begins(c, Punctuator::Semicolon) {
        trees.source.expect(c, Punctuator::Semicolon)?;
        let declaration = Declaration {
            specifiers,
            declarators: Items::new(trees.alloc),
        };
        return Ok(External::Declared { declaration });
    }
    let is_type = makes_types(specifiers.as_slice());
    let declarator = declaring(trees, c, is_type)?;
    behind_declarator(trees, c, specifiers, declarator)
}

/// `external-declaration: function-definition | declaration` (C99 6.9), or a `;` that stands alone.
#[tactic(auto, unfolding(c_grammar::specs::UnitReading::external_at))]
fn external(alloc: Global, source: &Source<'_>, c: &mut Cursor) -> Result<External, ParseFault>
    ensures { Reads (λ x. x) source.now c.old c.new result spec.external_at }
{
    if source.begins(c, Punctuator::Semicolon) {
        let at = source.expect(c, Punctuator::Semicolon)?;
        return Ok(External::Empty { at });
    }
    let trees = Trees {
        alloc,
        source: *source,
        height: most_height(),
    };
    declared_external(&trees, c)
}

/// The next external declaration. The file takes the names that were declared before it first, so that a body's copy of
/// the names in scope is small.
fn next_external(
    alloc: Global,
    tokens: &[Token],
    file: &mut FileNames,
    c: &mut Cursor,
) -> Result<Shared<External>, ParseFault>
    ensures { Gives (λ x. (x, state_of tokens.now file.new c.new)) result
        (spec.external_at (state_of tokens.now file.old c.old)) }
{
    file.absorb(&mut c.names)?;
    let found = external(alloc, &Source { tokens, file }, c)?;
    Ok(Shared::new(alloc, found)?)
}

/// `{ external-declaration }` (C99 6.9): external declarations up to the end of the tokens.
fn externals(
    alloc: Global,
    tokens: &[Token],
    file: &mut FileNames,
    c: &mut Cursor,
) -> Result<Items<Shared<External>>, ParseFault>
    ensures { Gives (λ xs. xs) result
        (spec.externals_at (suc (length (drop c.old.position tokens.now))) (state_of tokens.now file.old c.old)) }
{
    let mut all = Items::new(alloc);
    let mut left = Source { tokens, file }.turns(c);
    'externals: while left > 0 {
        left -= 1;
        if is_at_end(tokens, c) {
            return Ok(all);
        }
        let found = next_external(alloc, tokens, file, c)?;
        all.push(found)?;
    }
    Err(ParseFault::Syntax(c.position))
}

/// `translation-unit: { external-declaration }` (C99 6.9): the external declarations that the tokens of a source are.
pub fn read_unit(alloc: Global, tokens: &[Token]) -> Result<Items<Shared<External>>, ParseFault>
    ensures { Gives (λ xs. xs) result (spec.read_unit tokens.now) }
{
    let mut c = Cursor {
        position: 0,
        names: Names::new(alloc)?,
    };
    let mut file = FileNames::new(alloc);
    externals(alloc, tokens, &mut file, &mut c)
}
