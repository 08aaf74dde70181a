//! Ordinary names and tags (C99 6.2.3), where they are declared, and string literals.

ghost use Rattle.std.specs.Prelude.{◌≡◌, IfOk};
ghost use Rattle.c_means.specs.Programs as programs;
ghost use Rattle.c_means.specs.Names as names;

use c_language::Name;
use plain_data::Bytes;
use std::alloc::AllocError;
use std::marker::Model;

/// An ordinary name, or a tag.
#[derive(Drop)]
pub struct Word {
    pub is_tag: bool,
    pub name: Name,
}

impl Model for Word {
    ghost use Rattle.c_means.specs.Names.{Word as Spec};

    ghost Value = { Spec };

    ghost view = { λ w. record { is_tag = w.is_tag; name = w.name } };
}

impl Clone for Word {
    ghost is_clone = { λ w copy. copy ≡ w };

    /// The same word. It fails for want of memory alone.
    fn clone(&self) -> Result<Word, AllocError> {
        Ok(Word {
            is_tag: self.is_tag,
            name: self.name.clone()?,
        })
    }
}

/// A declared name, by its offset.
#[derive(Drop)]
pub struct Binding {
    pub at: u32,
    pub word: Word,
}

impl Model for Binding {
    ghost use Rattle.c_means.specs.Names.{Binding as Spec};

    ghost Value = { Spec };

    ghost view = { λ b. record { at = b.at; word = b.word } };
}

/// A string literal with its bytes (C99 6.4.5), or `__func__` (C99 6.4.2.2), which has none; by its offset.
#[derive(Drop)]
pub struct Literal {
    pub at: u32,
    pub text: Option<Bytes>,
}

impl Model for Literal {
    ghost use Rattle.c_means.specs.Names.{Literal as Spec};

    ghost Value = { Spec };

    ghost view = { λ l. record { at = l.at; text = l.text } };
}

/// An ordinary name. It fails for want of memory alone.
pub(crate) fn ordinary(name: &Name) -> Result<Word, AllocError>
    ensures { IfOk result (λ w. w ≡ names.ordinary name.now) }
{
    Ok(Word {
        is_tag: false,
        name: name.clone()?,
    })
}

/// A tag. It fails for want of memory alone.
pub(crate) fn tagged(name: &Name) -> Result<Word, AllocError>
    ensures { IfOk result (λ w. w ≡ names.tagged name.now) }
{
    Ok(Word {
        is_tag: true,
        name: name.clone()?,
    })
}

pub(crate) fn same_word(x: &Word, y: &Word) -> bool
    ensures { result ≡ names.same_word x.now y.now }
{
    x.is_tag == y.is_tag && x.name.get().as_slice() == y.name.get().as_slice()
}

/// Whether a word is one of these.
pub fn has_word(word: &Word, words: &[Word]) -> bool
    ensures { result ≡ programs.has_word word.now words.now }
{
    for other in words {
        if same_word(other, word) {
            return true;
        }
    }
    false
}
