//! Initializers (C99 6.7.8), declarations (C99 6.7), statements (C99 6.8) and external definitions (C99 6.9).

ghost use Rattle.std.specs.Prelude.{◌≡◌};
ghost use Rattle.c_language.specs.PlaceTables.{place_at, file_at};

use crate::expr::{Declarator, Expr, Specifier};
use crate::places::Places;
use crate::{Name, Place};
use plain_data::{Bytes, Items, Shared};
use std::alloc::AllocError;

/// A designator (C99 6.7.8), by the offset of its `.` or `[`.
#[derive(Drop)]
pub enum Designator {
    Member { at: u32, member: Name },
    Element { at: u32, index: Shared<Expr> },
}

/// An initializer (C99 6.7.8).
#[cycle(initializer)]
#[derive(Drop)]
pub enum Initializer {
    Value {
        value: Shared<Expr>,
    },
    /// A braced list, by the offset of its brace, and whether a comma follows the last item.
    List {
        at: u32,
        items: Items<Shared<InitializerItem>>,
        trailing: bool,
    },
}

/// An item of a braced list: its designators, if there are any, and its initializer.
#[cycle(initializer)]
#[derive(Drop)]
pub struct InitializerItem {
    pub designators: Items<Designator>,
    pub value: Shared<Initializer>,
}

/// A declarator with its initializer (C99 6.7). The pieces of the assembler's name, where one is given, have
/// no effect.
#[derive(Drop)]
pub struct InitDeclarator {
    pub declarator: Declarator,
    pub assembler_name: Items<Shared<Bytes>>,
    pub initializer: Option<Initializer>,
}

/// A declaration (C99 6.7).
#[derive(Drop)]
pub struct Declaration {
    pub specifiers: Items<Shared<Specifier>>,
    pub declarators: Items<InitDeclarator>,
}

/// What a `for` statement begins with (C99 6.8.5.3).
#[derive(Drop)]
pub enum ForStart {
    Value { value: Option<Shared<Expr>> },
    Declared { declaration: Declaration },
}

/// A statement (C99 6.8), or a declaration in a block. Each `at` is the byte offset of the statement's keyword,
/// of a label's name, of `{`, or of an expression statement's `;`.
#[derive(Drop)]
pub enum Stmt {
    Block {
        at: u32,
        items: Items<Shared<Stmt>>,
    },
    Declared {
        declaration: Declaration,
    },
    Value {
        at: u32,
        value: Option<Shared<Expr>>,
    },
    Label {
        at: u32,
        name: Name,
        body: Shared<Stmt>,
    },
    Case {
        at: u32,
        value: Shared<Expr>,
        body: Shared<Stmt>,
    },
    Default {
        at: u32,
        body: Shared<Stmt>,
    },
    If {
        at: u32,
        condition: Shared<Expr>,
        positive: Shared<Stmt>,
        negative: Option<Shared<Stmt>>,
    },
    Switch {
        at: u32,
        value: Shared<Expr>,
        body: Shared<Stmt>,
    },
    While {
        at: u32,
        condition: Shared<Expr>,
        body: Shared<Stmt>,
    },
    Do {
        at: u32,
        body: Shared<Stmt>,
        condition: Shared<Expr>,
    },
    For {
        at: u32,
        start: ForStart,
        condition: Option<Shared<Expr>>,
        step: Option<Shared<Expr>>,
        body: Shared<Stmt>,
    },
    Goto {
        at: u32,
        name: Name,
    },
    Continue {
        at: u32,
    },
    Break {
        at: u32,
    },
    Return {
        at: u32,
        value: Option<Shared<Expr>>,
    },
}

/// The body of a function (C99 6.9.1), by the offset of its `{`.
#[derive(Drop)]
pub enum Body {
    /// A block.
    Read { block: Shared<Stmt> },
    /// A brace group that no block of the greatest height or less derives.
    Unread { at: u32 },
}

/// An external declaration (C99 6.9), or a `;` that stands alone.
#[derive(Drop)]
pub enum External {
    Function {
        specifiers: Items<Shared<Specifier>>,
        declarator: Declarator,
        body: Body,
    },
    Declared {
        declaration: Declaration,
    },
    Empty {
        at: u32,
    },
}

/// A translation unit (C99 6.9): its external declarations in order, and the places of its tokens. A clone shares both,
/// so it takes time and memory by the number of external declarations.
#[derive(Drop)]
pub struct Unit {
    pub externals: Items<Shared<External>>,
    pub places: Shared<Places>,
}

impl Clone for Unit {
    ghost is_clone = { λ unit copy. copy ≡ unit };

    /// The same unit. It fails for want of memory alone.
    fn clone(&self) -> Result<Unit, AllocError> {
        Ok(Unit {
            externals: self.externals.clone()?,
            places: self.places.clone()?,
        })
    }
}

impl Unit {
    /// The place of the token at a byte offset; at an offset where none begins all its numbers are 0. It takes no
    /// memory, and time in the logarithm of the number of tokens.
    pub fn place(&self, at: u32) -> Place
        ensures { result ≡ place_at self.now.places.places at }
    {
        self.places.get().place(at)
    }

    /// The name of the file that a place names by its number. It takes no memory.
    pub fn file(&self, file: u32) -> &[u8]
        ensures { result.now ≡ file_at self.now.places.files file }
    {
        self.places.get().file(file)
    }
}
