//! What words mean, found once for all words of the same bytes.

ghost use Rattle.std.specs.Prelude.{◌≡◌, IfOk, OnOk, IsOkUnless};
ghost use Rattle.c_lexer.specs.Meaning as spec;

use crate::fault::LexFault;
use crate::lookup::reserved;
use crate::table::Reserved;
use c_language::{Name, TokenKind};
use plain_data::{Items, Shared};
use std::alloc::Global;
use std::collections::HashMap;

/// What a word means.
#[derive(Drop)]
pub enum Meant {
    Reserved(Reserved),
    Name(Name),
}

/// The words of a source that came so far, with what they mean.
#[derive(Drop)]
pub struct Words<'a> {
    pub seen: HashMap<&'a [u8], Meant>,
}

/// An identifier's name (C99 6.4.2.1).
pub fn name(alloc: Global, text: &[u8]) -> Result<Name, LexFault>
    ensures value { IfOk result (λ name. name ≡ text.now) }
    ensures err { IsOkUnless result LexFault.Memory }
{
    Ok(Shared::new(alloc, Items::from_slice(alloc, text)?)?)
}

/// What a word means (C99 6.4.1, 6.4.2) that didn't come before.
fn find_meaning(alloc: Global, text: &[u8]) -> Result<Meant, LexFault>
    ensures value { IfOk result (λ meant. spec.meant_kind meant ≡ spec.word_kind text.now) }
    ensures err { IsOkUnless result LexFault.Memory }
{
    match reserved(text) {
        Some(reserved) => Ok(Meant::Reserved(reserved)),
        None => Ok(Meant::Name(name(alloc, text)?)),
    }
}

/// The token of a word (C99 6.4.1, 6.4.2), or nothing where it is dropped.
fn kind_of(meant: &Meant) -> Result<Option<TokenKind>, LexFault>
    ensures value { IfOk result (λ kind. kind ≡ spec.meant_kind meant.now) }
    ensures err { IsOkUnless result LexFault.Memory }
{
    match meant {
        Meant::Reserved(Reserved::Keyword(keyword)) => Ok(Some(TokenKind::Keyword(*keyword))),
        Meant::Reserved(Reserved::FunctionName) => Ok(Some(TokenKind::FunctionName)),
        Meant::Reserved(Reserved::Dropped) => Ok(None),
        Meant::Name(name) => Ok(Some(TokenKind::Identifier(name.clone()?))),
    }
}

impl<'a> Words<'a> {
    ghost use Rattle.c_lexer.specs.Words.{IsRight};

    /// No words.
    pub fn new(alloc: Global) -> Words<'a>
        ensures { IsRight result }
    {
        Words {
            seen: HashMap::new(alloc),
        }
    }

    /// What a word means (C99 6.4.1, 6.4.2): a token's kind, or nothing where it is dropped.
    pub fn kind(&mut self, alloc: Global, text: &'a [u8]) -> Result<Option<TokenKind>, LexFault>
        requires right { IsRight self.old }
        ensures value { IfOk result (λ kind. kind ≡ spec.word_kind text.entry.now) }
        ensures err { IsOkUnless result LexFault.Memory }
        ensures right { OnOk result (IsRight self.new) }
    {
        if let Some(meant) = self.seen.get(&text) {
            return kind_of(meant);
        }
        let meant = find_meaning(alloc, text)?;
        let kind = kind_of(&meant)?;
        self.seen.insert(text, meant)?;
        Ok(kind)
    }
}
