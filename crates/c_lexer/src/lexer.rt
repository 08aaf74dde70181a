//! Cutting a source into tokens.

ghost use Rattle.std.specs.Prelude.{◌≡◌, ◌≢◌, true, ◌<◌, ◌≤◌, ◌+◌, ◌-◌, ◌^◌, List, ◌++◌, length};
ghost use Rattle.std.specs.Prelude.{OnOk, IfOk, IfErr, IfSome, IsOkUnless};
ghost use Rattle.std.specs.List.{All};
ghost use Rattle.c_lexer.specs.Piece.{IsNamedWithin};
ghost use Rattle.c_lexer.specs.Dropping.{Gives};
ghost use Rattle.c_lexer.specs.Collected.{Collects, IsNested};
ghost use Rattle.c_lexer.specs.Fault.{Answers, Refused};
ghost use Rattle.c_lexer.specs.Places.{located};
ghost use Rattle.c_lexer.specs.Reading as spec;
ghost use Rattle.c_lexer.specs.Standing.{IsPlaced, fault_byte};
ghost use Rattle.c_language.specs.Standing.{StandInOrder};
ghost use Rattle.c_lexer.specs.Division.{Element};
ghost use Rattle.c_lexer.specs.Spelling.{Divides};
ghost use Rattle.c_lexer.specs.declared.fault.LexFault.{LexFault as Fault};
ghost use Rattle.c_language.specs.declared.token.Token.{Token};
ghost use Rattle.c_language.specs.declared.token.Tokens.{Tokens as TokenList};

use crate::attribute::Collected;
use crate::fault::LexFault;
use crate::meaning::meaning;
use crate::piece::Lexeme;
use crate::walk::{Here, Walk, here_at};
use crate::words::{Words, name};
use c_language::{Name, Place, Spot, Token, TokenKind, Tokens};
use plain_data::Items;
use std::alloc::Global;

/// A walk over a source, with the file names and the tokens so far.
#[derive(Drop)]
pub struct Lexer<'a> {
    pub walk: Walk<'a>,
    pub words: Words<'a>,
    pub files: Vec<Name>,
    pub collected: Collected,
}

/// Puts a piece's token (C99 6.4), if it is one, at the end.
fn collect(
    tokens: &mut Collected,
    place: Place,
    start: u32,
    end: u32,
    kind: Option<TokenKind>,
) -> Result<(), LexFault>
    requires nested { IsNested tokens.old }
    ensures ok { OnOk result (Collects tokens.old (spec.token_at place start end kind) tokens.new) }
    ensures nested { OnOk result (IsNested tokens.new) }
    ensures err { IsOkUnless result LexFault.Memory }
{
    match kind {
        None => Ok(()),
        Some(kind) => tokens.push(Token {
            kind,
            start,
            end,
            place,
        }),
    }
}

/// Puts the name that a line marker (C99 6.10.4) gives to the lines after it at the end.
fn name_file(
    alloc: Global,
    files: &mut Vec<Name>,
    lexeme: Lexeme,
    text: &[u8],
) -> Result<(), LexFault>
    requires named { IsNamedWithin (lexeme, length text.now) }
    ensures ok { OnOk result (files.new.items ≡ files.old.items ++ spec.named_by (lexeme, text.now)) }
    ensures err { IsOkUnless result LexFault.Memory }
{
    match lexeme {
        Lexeme::Marker { line: _, from, to } => {
            files.push(name(alloc, &text[from..to])?)?;
            Ok(())
        }
        _ => Ok(()),
    }
}

impl<'a> Lexer<'a> {
    ghost use Rattle.c_lexer.specs.Walks.{whole, IsValid};
    ghost use Rattle.c_lexer.specs.Reading.{lexed};

    /// The beginning of a source, whose first line has the number 1 (C99 6.10.4).
    fn new(alloc: Global, source: &'a [u8], bytes: &'a [u8]) -> Result<Lexer<'a>, LexFault>
        requires { length bytes.now ≤ 8388608 }
        ensures ok { IfOk result (λ lexer. whole lexer ≡ lexed source.now bytes.now) }
        ensures valid { IfOk result (λ lexer. IsValid lexer) }
        ensures err { IsOkUnless result LexFault.Memory }
    {
        let mut files = Vec::new(alloc);
        files.push(name(alloc, source)?)?;
        Ok(Lexer {
            walk: Walk::new(source, bytes),
            words: Words::new(alloc),
            files,
            collected: Collected::new(alloc),
        })
    }

    /// Takes the next piece (C99 6.4).
    fn take(&mut self, alloc: Global) -> Result<(), LexFault>
        requires some { 0 < length self.old.walk.rest.now }
        requires valid { IsValid self.old }
        ensures ok { OnOk result (whole self.new ≡ whole self.old) }
        ensures err { IfErr result (λ fault. Refused (whole self.old) fault) }
        ensures valid { OnOk result (IsValid self.new) }
        ensures shorter { OnOk result (length self.new.walk.rest.now < length self.old.walk.rest.now) }
    {
        let start = self.walk.at;
        let Here {
            file: _,
            line,
            column,
        } = self.walk.here;
        let place = Place {
            file: (self.files.len() - 1) as u32,
            line,
            column,
        };
        let (lexeme, text) = self.walk.step();
        let kind = meaning(alloc, &mut self.words, start, lexeme, text)?;
        collect(&mut self.collected, place, start, self.walk.at, kind)?;
        name_file(alloc, &mut self.files, lexeme, text)?;
        Ok(())
    }
}

/// The tokens of a source (C99 6.4), piece by piece.
fn tokens_of(alloc: Global, name: &str, bytes: &[u8]) -> Result<Tokens, LexFault>
    requires { length bytes.now ≤ 8388608 }
    ensures { Answers (λ tokens. tokens) (spec.lexed name.now bytes.now) result }
{
    let mut lexer = Lexer::new(alloc, name.as_bytes(), bytes)?;
    'pieces: while !lexer.walk.rest.is_empty() {
        lexer.take(alloc)?;
    }
    let Lexer {
        walk: _,
        words: _,
        files,
        collected,
    } = lexer;
    let Collected {
        tokens,
        open_groups: _,
        after_word: _,
    } = collected;
    Ok(Tokens {
        files: Items::from_vec(files),
        tokens: Items::from_vec(tokens),
    })
}

/// The tokens that a source spells by C99 6.4, or its first fault. `name` is the file that holds before the
/// first line marker. A fault is the first in the source, with the offset at which it stands.
///
/// A source divides in one way at most, and what that division spells is answered. What is refused for
/// another cause than memory spells no tokens, and the fault that is answered is the one first fault.
///
/// Each token stands where its place says, that is where `locate` finds its first byte. Tokens stand one behind
/// another, and each takes a byte at least. A fault stands at a byte of the source.
pub fn lex(alloc: Global, name: &str, bytes: &[u8]) -> Result<Tokens, LexFault>
    requires { length bytes.now ≤ 8388608 }
    ensures value { Answers (λ tokens. tokens) (spec.lexed name.now bytes.now) result }
    ensures spelled { IfOk result (λ tokens. spec.Spells name.now bytes.now tokens) }
    ensures refused { IfErr result (λ fault. fault ≢ LexFault.Memory →
        (tokens : TokenList) → spec.Spells name.now bytes.now tokens → ⊥) }
    ensures first { IfErr result (λ fault. fault ≢ LexFault.Memory → spec.IsFirstFault bytes.now fault) }
    ensures faulty { (fault : Fault) → spec.IsFirstFault bytes.now fault → spec.lexed name.now bytes.now ≡ Err fault }
    ensures given { IfOk result (λ tokens. Gives name.now bytes.now tokens) }
    ensures none_given { IfErr result (λ fault. fault ≢ LexFault.Memory →
        (tokens : TokenList) → Gives name.now bytes.now tokens → ⊥) }
    ensures placed { IfOk result (λ tokens. All (IsPlaced name.now bytes.now tokens.files) tokens.tokens) }
    ensures stands { IfOk result (λ tokens. StandInOrder 0 (length bytes.now) tokens.tokens) }
    ensures within { IfErr result (λ fault. IfSome (fault_byte fault) (λ at. at < length bytes.now)) }
    ensures only { (one other : List Element) →
        Divides true bytes.now one → Divides true bytes.now other → one ≡ other }
{
    tokens_of(alloc, name, bytes)
}

/// Where the byte at an offset stands, or the end of the source, by the line markers before it (C99 6.10.4). It
/// fails for want of memory alone.
pub fn locate(alloc: Global, name: &str, bytes: &[u8], at: u32) -> Result<Spot, LexFault>
    requires short { length bytes.now ≤ 8388608 }
    requires within { at ≤ length bytes.now }
    ensures ok { IfOk result (λ spot. spot ≡ located name.now bytes.now at) }
    ensures err { IsOkUnless result LexFault.Memory }
{
    let here = here_at(name.as_bytes(), bytes, at);
    Ok(Spot {
        file: Items::from_slice(alloc, here.file)?,
        line: here.line,
        column: here.column,
    })
}
