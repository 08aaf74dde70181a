//! As many words of a kind as there are.
ghost use Rattle.std.specs.Prelude.{◌≡◌, ◌∷◌, [], IfOk, length, suc};
ghost use Rattle.c_grammar.specs.Reading as spec;
ghost use Rattle.c_reading.specs.Cursor.{here, after, Gives, Takes};
ghost use Rattle.c_reading.specs.Reads.{Reads};

use crate::cursor::{Cursor, Source};
use crate::fault::ParseFault;
use c_grammar::{array_word_of, qualifier_of};
use c_language::{ArrayWord, Qualifier, TokenKind};
use plain_data::{Bytes, Items, Shared};
use std::alloc::{AllocError, Global};

impl<'a> Source<'a> {
    /// How many tokens are left, and one more: a bound for loops that take a token each turn.
    pub fn turns(&self, c: &Cursor) -> usize
        ensures { result ≡ suc (length (here self.now c.now).0) }
    {
        self.tokens.len().saturating_sub(c.position) + 1
    }

    /// Takes the next token where it is a type qualifier.
    fn take_qualifier(&self, c: &mut Cursor) -> Option<Qualifier>
        ensures { Takes spec.a_qualifier result (here self.now c.old) (here self.now c.new) }
    {
        match self.tokens.get(c.position) {
            Some(token) => match &token.kind {
                TokenKind::Keyword(keyword) => {
                    let found = qualifier_of(*keyword);
                    if found.is_some() {
                        c.position += 1;
                    }
                    found
                }
                _ => None,
            },
            None => None,
        }
    }

    /// Takes the next token where it may stand first between the brackets of an array.
    fn take_array_word(&self, c: &mut Cursor) -> Option<ArrayWord>
        ensures { Takes spec.an_array_word result (here self.now c.old) (here self.now c.new) }
    {
        match self.tokens.get(c.position) {
            Some(token) => match &token.kind {
                TokenKind::Keyword(keyword) => {
                    let found = array_word_of(*keyword);
                    if found.is_some() {
                        c.position += 1;
                    }
                    found
                }
                _ => None,
            },
            None => None,
        }
    }

    /// `[ type-qualifier-list ]` (C99 6.7.3, 6.7.5.1).
    pub fn qualifiers(&self, alloc: Global, c: &mut Cursor) -> Result<Items<Qualifier>, ParseFault>
        ensures { Reads (λ xs. xs) self.now c.old c.new result
            (λ s. spec.run_at spec.a_qualifier (suc (length s.0)) s) }
    {
        let mut all = Items::new(alloc);
        let mut left = self.turns(c);
        'run: while left > 0 {
            left -= 1;
            match self.take_qualifier(c) {
                Some(word) => all.push(word)?,
                None => return Ok(all),
            }
        }
        Err(ParseFault::Syntax(c.position))
    }

    /// `[ static ] [ type-qualifier-list ]` in any order (C99 6.7.5.2): the words between the brackets of an array.
    pub fn array_words(&self, alloc: Global, c: &mut Cursor) -> Result<Items<ArrayWord>, ParseFault>
        ensures { Reads (λ xs. xs) self.now c.old c.new result
            (λ s. spec.run_at spec.an_array_word (suc (length s.0)) s) }
    {
        let mut all = Items::new(alloc);
        let mut left = self.turns(c);
        'run: while left > 0 {
            left -= 1;
            match self.take_array_word(c) {
                Some(word) => all.push(word)?,
                None => return Ok(all),
            }
        }
        Err(ParseFault::Syntax(c.position))
    }

    /// Takes the next token where it is a string literal; the bytes that it stands for, and its offset.
    pub fn literal(&self, c: &mut Cursor) -> Result<(Shared<Bytes>, u32), ParseFault>
        ensures { Gives (λ x. (x.0, x.1, here self.now c.new)) result
            (spec.take_by spec.a_literal (here self.now c.old).0 (here self.now c.old).1) }
    {
        match self.tokens.get(c.position) {
            Some(token) => match &token.kind {
                TokenKind::StringLiteral(bytes) => {
                    let bytes = bytes.clone()?;
                    c.position += 1;
                    Ok((bytes, token.start))
                }
                _ => Err(ParseFault::Syntax(c.position)),
            },
            None => Err(ParseFault::Syntax(c.position)),
        }
    }

    /// Takes the next token where it is a string literal. It fails for want of memory alone.
    fn take_literal(&self, c: &mut Cursor) -> Result<Option<Shared<Bytes>>, AllocError>
        ensures { IfOk result (λ found. Takes spec.a_literal found (here self.now c.old) (here self.now c.new)) }
    {
        match self.tokens.get(c.position) {
            Some(token) => match &token.kind {
                TokenKind::StringLiteral(bytes) => {
                    let bytes = bytes.clone()?;
                    c.position += 1;
                    Ok(Some(bytes))
                }
                _ => Ok(None),
            },
            None => Ok(None),
        }
    }

    /// `string-literal { string-literal }` (C99 6.5.1), behind the first: this one, and those that stand behind it.
    pub fn literals(
        &self,
        alloc: Global,
        c: &mut Cursor,
        first: Shared<Bytes>,
    ) -> Result<Items<Shared<Bytes>>, ParseFault>
        ensures { Reads (λ xs. xs) self.now c.old c.new result
            (λ s. after (first ∷ []) (spec.run_at spec.a_literal (suc (length s.0)) s)) }
    {
        let mut all = Items::new(alloc);
        all.push(first)?;
        let mut left = self.turns(c);
        'run: while left > 0 {
            left -= 1;
            match self.take_literal(c)? {
                Some(piece) => all.push(piece)?,
                None => return Ok(all),
            }
        }
        Err(ParseFault::Syntax(c.position))
    }
}
