//! Names, and blocks of names that are entered and left (C99 6.2.1).
ghost use Rattle.std.specs.Prelude.{◌≡◌, OnOk, false};
ghost use Rattle.c_grammar.specs.Reading as spec;
ghost use Rattle.c_grammar.specs.Parts.{declared, entered, forgetting, is_typedef, left};
ghost use Rattle.c_grammar.specs.Grammar.{may_omit as may_omit_spec};
ghost use Rattle.c_reading.specs.Cursor.{here};

use crate::cursor::{Cursor, Source};
use c_grammar::DeclaratorPlace;
use c_language::{Name, Punctuator, TokenKind};
use std::alloc::AllocError;

/// Whether a declarator may be without a name at such a place.
pub fn may_omit(place: DeclaratorPlace) -> bool
    ensures { result ≡ may_omit_spec place }
{
    match place {
        DeclaratorPlace::Parameter | DeclaratorPlace::TypeName => true,
        DeclaratorPlace::Declaration | DeclaratorPlace::Member => false,
    }
}

/// Whether a suffix of declarators begins with this token.
fn is_suffix(kind: &TokenKind) -> bool
    ensures { result ≡ spec.is_suffix kind.now }
{
    match kind {
        TokenKind::Punctuator(mark) => match *mark {
            Punctuator::LeftBracket | Punctuator::LeftParen => true,
            _ => false,
        },
        _ => false,
    }
}

impl<'a> Source<'a> {
    /// Whether a name is a typedef name here (C99 6.7.7).
    pub fn is_typedef(&self, c: &Cursor, name: &Name) -> bool
        ensures { result ≡ is_typedef name.now (here self.now c.now).1 }
    {
        c.names.is_typedef(self.file, name.get().as_slice())
    }

    /// Declares a name as another than a typedef name. It fails for want of memory alone.
    pub fn declare_name(&self, c: &mut Cursor, name: &Name) -> Result<(), AllocError>
        ensures { OnOk result
            (here self.now c.new ≡ ((here self.now c.old).0, declared name.now false (here self.now c.old).1)) }
    {
        c.names.declare(name, false)
    }

    /// Declares a name, where there is one, as another than a typedef name. It fails for want of memory alone.
    pub fn declare(&self, c: &mut Cursor, name: &Option<Name>) -> Result<(), AllocError>
        ensures { OnOk result (here self.now c.new ≡ spec.with_name name.now false (here self.now c.old)) }
    {
        match name {
            Some(name) => self.declare_name(c, name),
            None => Ok(()),
        }
    }

    /// Enters a block. It fails for want of memory alone.
    pub fn enter(&self, c: &mut Cursor) -> Result<(), AllocError>
        ensures { OnOk result (here self.now c.new ≡ ((here self.now c.old).0, entered (here self.now c.old).1)) }
    {
        c.names.enter()
    }

    /// Leaves the innermost block of names.
    pub fn leave(&self, c: &mut Cursor)
        ensures { here self.now c.new ≡ ((here self.now c.old).0, left (here self.now c.old).1) }
    {
        c.names.leave();
    }

    /// Forgets the parameters of the function whose declarator was read last.
    pub fn forget(&self, c: &mut Cursor)
        ensures { here self.now c.new ≡ ((here self.now c.old).0, forgetting (here self.now c.old).1) }
    {
        c.names.forget();
    }

    /// Leaves the block of a function's parameters, which are kept where a declaration declares that function.
    pub fn close(&self, c: &mut Cursor, place: DeclaratorPlace, derived: bool)
        ensures { here self.now c.new
            ≡ ((here self.now c.old).0, spec.closed_at place derived (here self.now c.old).1) }
    {
        match place {
            DeclaratorPlace::Declaration => {
                if derived {
                    self.leave(c);
                } else {
                    c.names.leave_keeping();
                }
            }
            _ => self.leave(c),
        }
    }

    /// Whether what comes next makes the `(` before it the beginning of parameters.
    pub fn begins_parameters(&self, c: &Cursor) -> bool
        ensures { result ≡ spec.begins_parameters (here self.now c.now) }
    {
        self.begins(c, Punctuator::RightParen) || self.specifies(c, false)
    }

    /// Whether `[` or `(` comes next.
    pub fn is_suffixed(&self, c: &Cursor) -> bool
        ensures { result ≡ spec.suffixed (here self.now c.now).0 }
    {
        match self.tokens.get(c.position) {
            Some(token) => is_suffix(&token.kind),
            None => false,
        }
    }
}
