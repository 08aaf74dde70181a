//! Groups of tokens in braces, whose brackets match.
ghost use Rattle.std.specs.Prelude.{◌≡◌, ◌≤◌, ◌∷◌, [], length, drop, IfOk, OnOk};
ghost use Rattle.c_language.specs.declared.token.Punctuator.TheVariants as mark;
ghost use Rattle.c_grammar.specs.Parts.{is_punctuator};
ghost use Rattle.c_grammar.specs.Units as units;
ghost use Rattle.c_grammar.specs.UnitReading as spec;
ghost use Rattle.c_parser.specs.Groups.{wants_none, closed_by, wanted_behind, Changes, parted, closed, reach};

use c_language::{Punctuator, Token, TokenKind};
use std::alloc::{AllocError, Global};
use std::marker::Model;

/// Whether a token is this punctuator.
pub fn is_mark(kind: &TokenKind, wanted: Punctuator) -> bool
    ensures { result ≡ is_punctuator wanted kind.now }
{
    match kind {
        TokenKind::Punctuator(mark) => *mark == wanted,
        _ => false,
    }
}

/// The bracket that closes what a token opens.
fn closer(kind: &TokenKind) -> Option<Punctuator>
    ensures { result ≡ units.closer kind.now }
{
    match kind {
        TokenKind::Punctuator(mark) => match *mark {
            Punctuator::LeftParen => Some(Punctuator::RightParen),
            Punctuator::LeftBracket => Some(Punctuator::RightBracket),
            Punctuator::LeftBrace => Some(Punctuator::RightBrace),
            _ => None,
        },
        _ => None,
    }
}

/// Whether a token is a closing bracket.
fn is_closing(kind: &TokenKind) -> bool
    ensures { result ≡ units.closing kind.now }
{
    match kind {
        TokenKind::Punctuator(mark) => match *mark {
            Punctuator::RightParen | Punctuator::RightBracket | Punctuator::RightBrace => true,
            _ => false,
        },
        _ => false,
    }
}

/// How many tokens a group has, or how many stand before the one at which its brackets stop matching.
#[derive(Clone, Copy)]
pub enum Extent {
    Closed(usize),
    Broken(usize),
}

/// The closing brackets that are wanted, which contracts see with the next first.
#[derive(Drop)]
struct Wanted {
    brackets: Vec<Punctuator>,
}

impl Model for Wanted {
    ghost use Rattle.std.specs.Prelude.{List, reverse};
    ghost use Rattle.c_language.specs.declared.token.Punctuator.{Punctuator};

    ghost Value = { List Punctuator };

    ghost view = { λ w. reverse w.brackets.items };
}

impl Wanted {
    fn new(alloc: Global) -> Wanted
        ensures { result ≡ [] }
    {
        Wanted {
            brackets: Vec::new(alloc),
        }
    }

    fn is_empty(&self) -> bool
        ensures { result ≡ wants_none self.now }
    {
        match self.brackets.as_slice() {
            [] => true,
            _ => false,
        }
    }

    fn open(&mut self, closer: Punctuator) -> Result<(), AllocError>
        ensures { OnOk result (self.new ≡ closer ∷ self.old) }
    {
        self.brackets.push(closer)?;
        Ok(())
    }

    fn close(&mut self, kind: &TokenKind) -> bool
        ensures { Changes (closed_by kind.now self.old) result self.new }
    {
        match self.brackets.pop() {
            Some(wanted) => is_mark(kind, wanted),
            None => false,
        }
    }

    /// Takes a token, unless it closes what isn't open. It fails for want of memory alone.
    fn take(&mut self, kind: &TokenKind) -> Result<bool, AllocError>
        ensures { IfOk result (λ taken. Changes (wanted_behind kind.now self.old) taken self.new) }
    {
        if let Some(closer) = closer(kind) {
            self.open(closer)?;
            return Ok(true);
        }
        if is_closing(kind) {
            return Ok(self.close(kind));
        }
        Ok(true)
    }
}

/// How far the brace group goes that begins before the tokens. It fails for want of memory alone.
fn cut(alloc: Global, tokens: &[Token]) -> Result<Extent, AllocError>
    ensures cut { IfOk result (λ extent.
        spec.cut tokens.now (mark.RightBrace ∷ []) ≡ parted (closed extent) tokens.now
        ) }
    ensures within { IfOk result (λ extent. reach extent ≤ length tokens.now) }
{
    let mut wanted = Wanted::new(alloc);
    wanted.open(Punctuator::RightBrace)?;
    let mut index = 0;
    'cut: while !wanted.is_empty() {
        match tokens.get(index) {
            Some(token) => {
                if !wanted.take(&token.kind)? {
                    return Ok(Extent::Broken(index));
                }
                index += 1;
            }
            None => return Ok(Extent::Broken(index)),
        }
    }
    Ok(Extent::Closed(index))
}

/// How far the brace group goes that begins here. It fails for want of memory alone.
pub fn group(alloc: Global, tokens: &[Token]) -> Result<Extent, AllocError>
    ensures cut { IfOk result (λ extent. spec.group_in tokens.now ≡ parted (closed extent) tokens.now) }
    ensures within { IfOk result (λ extent. reach extent ≤ length tokens.now) }
{
    match tokens {
        [first, rest @ ..] => {
            if !is_mark(&first.kind, Punctuator::LeftBrace) {
                return Ok(Extent::Broken(0));
            }
            match cut(alloc, rest)? {
                Extent::Closed(end) => Ok(Extent::Closed(end + 1)),
                Extent::Broken(end) => Ok(Extent::Broken(end + 1)),
            }
        }
        [] => Ok(Extent::Broken(0)),
    }
}
