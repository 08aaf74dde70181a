//! Designators of initializers (C99 6.7.8).
ghost use Rattle.std.specs.Prelude.{◌≡◌, ◌≤◌, length, suc};
ghost use Rattle.c_grammar.specs.Reading.{rules};
ghost use Rattle.c_grammar.specs.UnitReading as spec;
ghost use Rattle.c_reading.specs.Cursor.{here};
ghost use Rattle.c_reading.specs.Reads.{Reads};

use crate::shared::expr;
use c_exprs::Trees;
use c_language::{Designator, Punctuator, TokenKind};
use c_reading::{Cursor, ParseFault, Source};
use plain_data::Items;

/// Whether a designator begins with this token.
fn is_designator(kind: &TokenKind) -> bool
    ensures { result ≡ spec.is_designator kind.now }
{
    match kind {
        TokenKind::Punctuator(mark) => match *mark {
            Punctuator::Dot | Punctuator::LeftBracket => true,
            _ => false,
        },
        _ => false,
    }
}

/// Whether a designator comes next.
pub fn is_designated(source: &Source<'_>, c: &Cursor) -> bool
    ensures { result ≡ spec.designated (here source.now c.now).0 }
{
    match source.tokens.get(c.position) {
        Some(token) => is_designator(&token.kind),
        None => false,
    }
}

/// `designator: . identifier` (C99 6.7.8), behind `.`.
#[tactic(auto, unfolding(c_grammar::specs::UnitReading::member_designator_at))]
fn member(source: &Source<'_>, c: &mut Cursor, at: u32) -> Result<Designator, ParseFault>
    ensures { Reads (λ d. d) source.now c.old c.new result (spec.member_designator_at at) }
{
    let (member, _) = source.name(c)?;
    Ok(Designator::Member { at, member })
}

/// `designator: [ constant-expression ]` (C99 6.7.8), behind `[`.
#[tactic(auto, unfolding(c_grammar::specs::UnitReading::element_designator_at))]
fn element(trees: &Trees<'_>, c: &mut Cursor, at: u32) -> Result<Designator, ParseFault>
    requires small { trees.now.height ≤ 256 }
    ensures { Reads (λ d. d) trees.now.source c.old c.new result
        (spec.element_designator_at (rules trees.now.height) at) }
{
    let index = expr(trees, c, 14)?;
    trees.source.expect(c, Punctuator::RightBracket)?;
    Ok(Designator::Element { at, index })
}

/// `designator: [ constant-expression ] | . identifier` (C99 6.7.8).
fn designator(trees: &Trees<'_>, c: &mut Cursor) -> Result<Designator, ParseFault>
    requires small { trees.now.height ≤ 256 }
    ensures { Reads (λ d. d) trees.now.source c.old c.new result
        (λ s. spec.designator_in (rules trees.now.height) s.0 s.1) }
{
    match trees.source.tokens.get(c.position) {
        Some(token) => match &token.kind {
            TokenKind::Punctuator(Punctuator::Dot) => {
                c.position += 1;
                member(&trees.source, c, token.start)
            }
            TokenKind::Punctuator(Punctuator::LeftBracket) => {
                c.position += 1;
                element(trees, c, token.start)
            }
            _ => Err(ParseFault::Syntax(c.position)),
        },
        None => Err(ParseFault::Syntax(c.position)),
    }
}

/// `[ designator-list ]` (C99 6.7.8): as many designators as there are.
pub fn designators(trees: &Trees<'_>, c: &mut Cursor) -> Result<Items<Designator>, ParseFault>
    requires small { trees.now.height ≤ 256 }
    ensures { Reads (λ ds. ds) trees.now.source c.old c.new result
        (λ s. spec.designators_at (rules trees.now.height) (suc (length s.0)) s) }
{
    let mut all = Items::new(trees.alloc);
    let mut left = trees.source.turns(c);
    'designators: while left > 0 {
        left -= 1;
        if !is_designated(&trees.source, c) {
            return Ok(all);
        }
        let found = designator(trees, c)?;
        all.push(found)?;
    }
    Err(ParseFault::Syntax(c.position))
}
