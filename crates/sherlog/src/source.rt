//! Reading a source: from its bytes to its unit, and why it is refused.
ghost use Rattle.std.specs.Prelude.{◌≡◌, ◌≤◌, ◌<◌, List, length, false, Ok, Err, IfOk, IfErr, IfSome};
ghost use Rattle.acceptance.specs.Refusals.{IsRefusal};
ghost use Rattle.c_lexer.specs.Fault.{Refused as IsFaultOf};
ghost use Rattle.c_lexer.specs.Reading.{lexed};
ghost use Rattle.c_lexer.specs.Standing.{fault_byte};
ghost use Rattle.c_language.specs.Standing.{StandInOrder};
ghost use Rattle.c_parser.specs.Parsing.{Refuses as RefusesTokens};
ghost use Rattle.c_means.specs.declared.profile.Profile.{Profile as ProfileType};
ghost use Rattle.c_language.specs.declared.unit.External.{External as ExternalType};
ghost use Rattle.sherlog.specs.Sources.{HasFault, IsRefusedFor, start_at};
ghost use Rattle.sherlog.specs.Stages.{IsNotServed, IsToldAt, Lists, Reads, Tells};

use crate::places::{MAX_SOURCE, spot_at};
use crate::refusal::{Refusal, SourceFault};
use acceptance::{CheckFault, accept};
use accepted::Accepted;
use c_language::{External, Token, Tokens, Unit};
use c_lexer::{LexFault, lex, locate};
use c_means::Profile;
use c_parser::ParseFault;
use c_parser::unit::parse;
use plain_data::{Items, Shared};
use source_sites::{Site, sites_of};
use std::alloc::Global;
use unread_forms::has_unread;

/// The refusal of a source whose fault stands at a byte.
fn bad_source(alloc: Global, name: &str, bytes: &[u8], fault: SourceFault, at: u32) -> Refusal
    requires short { length bytes.now ≤ MAX_SOURCE }
    requires within { at ≤ length bytes.now }
    requires has { HasFault name.now bytes.now fault at }
    ensures read { Reads name.now bytes.now (Err result) }
    ensures told { IsToldAt name.now bytes.now fault at result }
{
    match locate(alloc, name, bytes, at) {
        Ok(spot) => Refusal::BadSource { fault, spot },
        Err(_) => Refusal::Memory,
    }
}

/// The refusal of a source for its lexical fault.
fn refusal_of(alloc: Global, name: &str, bytes: &[u8], fault: LexFault) -> Refusal
    requires short { length bytes.now ≤ MAX_SOURCE }
    requires has { IsFaultOf (lexed name.now bytes.now) fault }
    requires within { IfSome (fault_byte fault) (λ at. at < length bytes.now) }
    ensures { Reads name.now bytes.now (Err result) }
{
    match fault {
        LexFault::BadByte(at) => bad_source(alloc, name, bytes, SourceFault::BadByte, at),
        LexFault::OpenText(at) => bad_source(alloc, name, bytes, SourceFault::OpenText, at),
        LexFault::WideNumber(at) => bad_source(alloc, name, bytes, SourceFault::WideNumber, at),
        LexFault::BadConstant(at) => bad_source(alloc, name, bytes, SourceFault::BadConstant, at),
        LexFault::BadDirective(at) => bad_source(alloc, name, bytes, SourceFault::BadDirective, at),
        LexFault::Memory => Refusal::Memory,
    }
}

/// The byte at which a token begins, by its number, or the end of the source.
fn start_of(bytes: &[u8], tokens: &[Token], number: usize) -> u32
    requires short { length bytes.now ≤ MAX_SOURCE }
    ensures { result ≡ start_at bytes.now tokens.now number }
{
    match tokens.get(number) {
        Some(token) => token.start,
        None => bytes.len() as u32,
    }
}

/// The refusal of a source that the grammar doesn't derive.
fn unparsed(alloc: Global, name: &str, bytes: &[u8], tokens: &Tokens, fault: ParseFault) -> Refusal
    requires short { length bytes.now ≤ MAX_SOURCE }
    requires lexed { lexed name.now bytes.now ≡ Ok tokens.now }
    requires stands { StandInOrder 0 (length bytes.now) tokens.now.tokens }
    requires refused { RefusesTokens tokens.now.tokens fault }
    ensures read { Reads name.now bytes.now (Err result) }
    ensures told { Tells name.now bytes.now tokens.now.tokens fault result }
{
    match fault {
        ParseFault::Syntax(number) => {
            let at = start_of(bytes, tokens.as_slice(), number);
            bad_source(alloc, name, bytes, SourceFault::Syntax, at)
        }
        ParseFault::TooDeep(number) => {
            let at = start_of(bytes, tokens.as_slice(), number);
            bad_source(alloc, name, bytes, SourceFault::TooDeep, at)
        }
        ParseFault::Memory => Refusal::Memory,
    }
}

/// Reads a source; `name` is the file that holds before its first line marker.
pub fn read_unit(alloc: Global, name: &str, bytes: &[u8]) -> Result<Unit, Refusal>
    requires { length bytes.now ≤ MAX_SOURCE }
    ensures { Reads name.now bytes.now result }
{
    let tokens = match lex(alloc, name, bytes) {
        Ok(tokens) => tokens,
        Err(fault) => return Err(refusal_of(alloc, name, bytes, fault)),
    };
    match parse(alloc, &tokens) {
        Ok(unit) => Ok(unit),
        Err(fault) => Err(unparsed(alloc, name, bytes, &tokens, fault)),
    }
}

// ---- the rules

/// The refusal for the first rule that is broken.
fn refused_for(alloc: Global, name: &str, bytes: &[u8], why: acceptance::Refusal) -> Refusal
    requires { length bytes.now ≤ MAX_SOURCE }
    ensures told { (externals : List ExternalType) (profile : ProfileType) → IsRefusal externals profile why
        → IsRefusedFor name.now bytes.now externals profile result }
{
    match why {
        acceptance::Refusal::NoMain => Refusal::NoMain,
        acceptance::Refusal::Broken(breach) => match spot_at(alloc, name, bytes, breach.at) {
            Ok(spot) => Refusal::Broken {
                rule: breach.rule,
                spot,
            },
            Err(_) => Refusal::Memory,
        },
    }
}

/// The program of a source that is derived, where it is accepted.
pub fn accepted(
    alloc: Global,
    name: &str,
    bytes: &[u8],
    externals: Items<Shared<External>>,
    profile: Profile,
) -> Result<Accepted, Refusal>
    requires { length bytes.now ≤ MAX_SOURCE }
    ensures externals { IfOk result (λ p. p.externals ≡ externals) }
    ensures profile { IfOk result (λ p. p.profile ≡ profile) }
    ensures refused { IfErr result (IsRefusedFor name.now bytes.now externals profile) }
{
    match accept(alloc, externals, profile) {
        Ok(program) => Ok(program),
        Err(CheckFault::Refused(why)) => Err(refused_for(alloc, name, bytes, why)),
        Err(CheckFault::Memory) => Err(Refusal::Memory),
    }
}

/// Of an accepted source that can't be diagnosed, the refusal: that it has a form that isn't read yet; where it has
/// none it is for want of memory.
pub fn unserved(alloc: Global, program: &Accepted) -> Refusal
    ensures { IsNotServed program.now.externals program.now.profile result }
{
    match has_unread(alloc, program.externals.as_slice(), &program.profile) {
        Ok(true) => Refusal::NotYetRead,
        _ => Refusal::Memory,
    }
}

/// The log calls of a source that is derived, where it is accepted.
pub fn listed(
    alloc: Global,
    name: &str,
    bytes: &[u8],
    externals: Items<Shared<External>>,
    profile: Profile,
) -> Result<Items<Site>, Refusal>
    requires { length bytes.now ≤ MAX_SOURCE }
    ensures { Lists name.now bytes.now externals profile result }
{
    let program = accepted(alloc, name, bytes, externals, profile)?;
    let found = sites_of(alloc, &program);
    program.discard();
    let sites = found?;
    Ok(sites)
}
