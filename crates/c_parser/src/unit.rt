//! Units (C99 6.9).
ghost use Rattle.std.specs.Prelude.{◌≡◌, IfOk, IfErr};
ghost use Rattle.c_grammar.specs.Units.{derives};
ghost use Rattle.c_language.specs.Standing.{StandInOrder};
ghost use Rattle.c_language.specs.PlaceTables.{places_of, AreFound};
ghost use Rattle.c_parser.specs.Parsing.{Refuses, IsOnly};

use crate::externals::read_unit;
use c_language::{Places, Tokens, Unit};
use c_reading::ParseFault;
use plain_data::Shared;
use std::alloc::Global;

/// Lets a unit go. Each crate that lets one go by itself proves anew how a whole tree is let go.
pub fn discard(unit: Unit) {
    drop(unit);
}

/// `translation-unit: { external-declaration }` (C99 6.9): the unit that a source's tokens derive, the only one that
/// they do. Where they stand one behind another, as `lex` answers them, each one's place is found at its start.
///
/// `Syntax` and `TooDeep` come only where the grammar has no unit, with the number, from 0, of the token at which
/// reading stopped; the end of the source counts as one.
#[tactic(auto, using(crate::proofs::Parses::says))]
pub fn parse(alloc: Global, tokens: &Tokens) -> Result<Unit, ParseFault>
    ensures derived { IfOk result (λ unit. derives tokens.now.tokens unit.externals) }
    ensures only { IfOk result (λ unit. IsOnly tokens.now.tokens unit.externals) }
    ensures places { IfOk result (λ unit. unit.places.places ≡ places_of tokens.now.tokens) }
    ensures files { IfOk result (λ unit. unit.places.files ≡ tokens.now.files) }
    ensures found { IfOk result (λ unit.
        (end : _) → StandInOrder 0 end tokens.now.tokens → AreFound unit.places.places tokens.now.tokens
        ) }
    ensures refused { IfErr result (λ fault. Refuses tokens.now.tokens fault) }
{
    let places = Places::of_tokens(alloc, tokens)?;
    let places = Shared::new(alloc, places)?;
    match read_unit(alloc, tokens.as_slice()) {
        Ok(externals) => Ok(Unit { externals, places }),
        Err(fault) => Err(fault),
    }
}
