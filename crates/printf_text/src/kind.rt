ghost use Rattle.std.specs.Prelude.{◌≡◌, ◌++◌, ◌↔◌, ◌<◌, ◌^◌, IsTrue, IfOk, OnOk};
ghost use Rattle.plain_data.specs.Words.{bits};
ghost use Rattle.printf_text.specs.Texts.{HaveKinds, piece_kinds, kinds};

use crate::piece::{Arg, Args, Form, Piece, Pieces, Size};
use plain_data::{Items, Width};
use std::alloc::{AllocError, Global};

/// What a conversion asks of an argument.
#[derive(Clone, Copy, PartialEq, Eq)]
pub enum Kind {
    /// An integer, for `d i u o x X c` and `*`.
    Integer,
    /// A text, for `s`.
    Text,
    /// A pointer, for `p`.
    Pointer,
}

/// The kinds of a format's arguments, in order.
pub type Kinds = Items<Kind>;

impl Form {
    ghost use Rattle.printf_text.specs.Texts.{form_kind};

    /// The kind of the argument that is converted.
    pub fn kind(self) -> Kind
        ensures { result ≡ form_kind self }
    {
        match self {
            Form::Signed(_) | Form::Unsigned(_, _) | Form::Char => Kind::Integer,
            Form::Text => Kind::Text,
            Form::Pointer => Kind::Pointer,
        }
    }
}

impl Arg {
    ghost use Rattle.printf_text.specs.Texts.{HasKind};

    /// Whether the argument has a kind: a word is below 2^N, a text holds no byte 0, and a shown
    /// number isn't 0.
    pub fn has_kind(&self, kind: Kind) -> bool
        ensures { IsTrue result ↔ HasKind kind self.now }
    {
        match (kind, self) {
            (Kind::Integer, Arg::Word { bits, width, .. }) => is_word(*bits, *width),
            (Kind::Text, Arg::Text(bytes)) => bytes.as_slice().iter().all(|b| *b != 0),
            (Kind::Pointer, Arg::Null) => true,
            (Kind::Pointer, Arg::Shown(n)) => *n != 0,
            _ => false,
        }
    }
}

/// Whether a number is a word of a width.
fn is_word(a: u64, width: Width) -> bool
    ensures { IsTrue result ↔ (a < 2 ^ bits width) }
{
    match width {
        Width::W8 => a < 0x100,
        Width::W16 => a < 0x1_0000,
        Width::W32 => a < 0x1_0000_0000,
        Width::W64 => true,
    }
}

/// Puts the kinds of a piece's arguments at the end.
fn push_kinds(out: &mut Kinds, piece: &Piece) -> Result<(), AllocError>
    ensures { OnOk result (out.new ≡ out.old ++ piece_kinds piece.now) }
{
    let Piece::Converted(c) = piece else {
        return Ok(());
    };
    if c.width == Size::Star {
        out.push(Kind::Integer)?;
    }
    if c.precision == Size::Star {
        out.push(Kind::Integer)?;
    }
    out.push(c.form.kind())?;
    Ok(())
}

/// The kinds of the arguments that pieces take, in order. It fails for want of memory alone.
pub fn kinds(alloc: Global, pieces: &Pieces) -> Result<Kinds, AllocError>
    ensures { IfOk result (λ all. all ≡ kinds pieces.now) }
{
    let mut all = Kinds::new(alloc);
    for piece in pieces.as_slice() {
        push_kinds(&mut all, piece)?;
    }
    Ok(all)
}

/// Whether arguments have these kinds, one for each.
pub fn have_kinds(kinds: &Kinds, args: &Args) -> bool
    ensures { IsTrue result ↔ HaveKinds kinds.now args.now }
{
    let kinds = kinds.as_slice();
    let args = args.as_slice();
    if kinds.len() != args.len() {
        return false;
    }
    for i in 0..kinds.len() {
        if !args[i].has_kind(kinds[i]) {
            return false;
        }
    }
    true
}
