//! Attributes of GNU C, which are no tokens: the word and its matched parentheses.

ghost use Rattle.std.specs.Prelude.{◌≡◌, ◌-◌, List, [], ◌∷◌, length, false, if◌then◌else◌, OnOk, IsOkUnless};
ghost use Rattle.c_language.specs.declared.token.Token.{Token};
ghost use Rattle.c_lexer.specs.Attributes.{role_of};
ghost use Rattle.c_lexer.specs.Collected.{Collects, IsNested};

use crate::fault::LexFault;
use c_language::{Punctuator, Token, TokenKind};
use std::alloc::Global;

/// How a token takes part in attributes.
#[derive(Clone, Copy)]
pub enum Role {
    /// The word that begins an attribute, if a group of parentheses follows.
    Attribute,
    Open,
    Close,
    Other,
}

/// The tokens so far, without attributes.
#[derive(Drop)]
pub struct Collected {
    pub tokens: Vec<Token>,
    /// For each parenthesis that is still open, the index of the attribute's word that stands before it.
    pub open_groups: Vec<Option<usize>>,
    /// Whether the last token is an attribute's word.
    pub after_word: bool,
}

/// How a token takes part in attributes of GNU C: they are no tokens of C99 6.4.
fn role_of(kind: &TokenKind) -> Role
    ensures { result ≡ role_of kind.now }
{
    match kind {
        TokenKind::Punctuator(Punctuator::LeftParen) => Role::Open,
        TokenKind::Punctuator(Punctuator::RightParen) => Role::Close,
        TokenKind::Identifier(name) => {
            let bytes = name.get().as_slice();
            if bytes == b"__attribute__".as_slice() || bytes == b"__attribute".as_slice() {
                Role::Attribute
            } else {
                Role::Other
            }
        }
        _ => Role::Other,
    }
}

impl Collected {
    /// No tokens.
    pub fn new(alloc: Global) -> Collected
        ensures tokens { result.tokens.items ≡ [] }
        ensures open_groups { result.open_groups.items ≡ [] }
        ensures after_word { result.after_word ≡ false }
    {
        Collected {
            tokens: Vec::new(alloc),
            open_groups: Vec::new(alloc),
            after_word: false,
        }
    }

    /// The index of the attribute's word that begins the group that comes next.
    fn group_word(&self) -> Option<usize>
        ensures { result ≡ (if self.now.after_word then Some (length self.now.tokens.items - 1) else None) }
    {
        if self.after_word {
            Some(self.tokens.len().saturating_sub(1))
        } else {
            None
        }
    }

    /// Takes an opening round bracket (C99 6.4.6).
    fn open_group(&mut self, token: Token) -> Result<(), LexFault>
        requires nested { IsNested self.old }
        requires role { role_of token.kind ≡ Role.Open }
        ensures ok { OnOk result (Collects self.old (token ∷ []) self.new) }
        ensures nested { OnOk result (IsNested self.new) }
        ensures err { IsOkUnless result LexFault.Memory }
    {
        let word = self.group_word();
        self.open_groups.push(word)?;
        self.tokens.push(token)?;
        self.after_word = false;
        Ok(())
    }

    /// Takes a closing round bracket (C99 6.4.6), which ends an attribute where its group began one.
    fn close_group(&mut self, token: Token) -> Result<(), LexFault>
        requires nested { IsNested self.old }
        requires role { role_of token.kind ≡ Role.Close }
        ensures ok { OnOk result (Collects self.old (token ∷ []) self.new) }
        ensures nested { OnOk result (IsNested self.new) }
        ensures err { IsOkUnless result LexFault.Memory }
    {
        self.after_word = false;
        match self.open_groups.pop() {
            Some(Some(word)) => self.tokens.truncate(word),
            Some(None) => self.tokens.push(token)?,
            None => self.tokens.push(token)?,
        }
        Ok(())
    }

    /// Puts a token at the end. It fails for want of memory alone.
    pub fn push(&mut self, token: Token) -> Result<(), LexFault>
        requires nested { IsNested self.old }
        ensures ok { OnOk result (Collects self.old (token ∷ []) self.new) }
        ensures nested { OnOk result (IsNested self.new) }
        ensures err { IsOkUnless result LexFault.Memory }
    {
        match role_of(&token.kind) {
            Role::Open => self.open_group(token),
            Role::Close => self.close_group(token),
            Role::Attribute => {
                self.tokens.push(token)?;
                self.after_word = true;
                Ok(())
            }
            Role::Other => {
                self.tokens.push(token)?;
                self.after_word = false;
                Ok(())
            }
        }
    }
}
