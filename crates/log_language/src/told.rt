//! What code can print, while it is gone through.
ghost use Rattle.std.specs.Prelude.{◌≡◌, IfOk, OnOk};
ghost use Rattle.log_language.specs.Steps.{MayPrint, Saves, Switches, Joins, EntersLoop, LeavesLoop};

use crate::tree::LogExpr;
use plain_data::{Bytes, Items, Shared};
use printf_text::{Piece, Pieces};
use std::alloc::{AllocError, Global};

/// What can have been printed so far, and what was set aside, the last behind.
#[derive(Drop)]
pub(crate) struct Told {
    pub so_far: Shared<LogExpr>,
    pub aside: Items<Shared<LogExpr>>,
}

/// A piece once more. It fails for want of memory alone.
fn copy_piece(alloc: Global, piece: &Piece) -> Result<Piece, AllocError>
    ensures { IfOk result (λ p. p ≡ piece.now) }
{
    match piece {
        Piece::Literal(bytes) => {
            let copy = Bytes::from_slice(alloc, bytes.as_slice())?;
            Ok(Piece::Literal(copy))
        }
        Piece::Converted(conversion) => Ok(Piece::Converted(*conversion)),
    }
}

/// Pieces once more. It fails for want of memory alone.
pub(crate) fn copy_pieces(alloc: Global, pieces: &[Piece]) -> Result<Pieces, AllocError>
    ensures { IfOk result (λ ps. ps ≡ pieces.now) }
{
    let mut copies = Items::new(alloc);
    'pieces: for piece in pieces {
        let copy = copy_piece(alloc, piece)?;
        copies.push(copy)?;
    }
    Ok(copies)
}

impl Told {
    /// Nothing is printed yet. It fails for want of memory alone.
    pub fn begin(alloc: Global) -> Result<Told, AllocError>
        ensures { IfOk result (λ told. told.so_far ≡ LogExpr.Silent) }
    {
        let so_far = Shared::new(alloc, LogExpr::Silent)?;
        Ok(Told {
            so_far,
            aside: Items::new(alloc),
        })
    }

    /// A text may be printed, or none. It fails for want of memory alone.
    pub fn may_print(&mut self, alloc: Global, texts: LogExpr) -> Result<(), AllocError>
        ensures { OnOk result (MayPrint texts self.old self.new) }
    {
        let silent = Shared::new(alloc, LogExpr::Silent)?;
        let texts = Shared::new(alloc, texts)?;
        let choice = LogExpr::Choice {
            first: silent,
            second: texts,
        };
        let second = Shared::new(alloc, choice)?;
        let first = self.so_far.clone()?;
        self.so_far = Shared::new(alloc, LogExpr::Sequence { first, second })?;
        Ok(())
    }

    /// Sets aside what can have been printed so far. It fails for want of memory alone.
    pub fn save(&mut self) -> Result<(), AllocError>
        ensures { OnOk result (Saves self.old self.new) }
    {
        let copy = self.so_far.clone()?;
        self.aside.push(copy)?;
        Ok(())
    }

    /// Goes on from what was set aside last, and sets this aside. It fails for want of memory alone.
    pub fn switch(&mut self) -> Result<(), AllocError>
        ensures { OnOk result (Switches self.old self.new) }
    {
        if let Some(before) = self.aside.pop() {
            let now = std::mem::replace(&mut self.so_far, before);
            self.aside.push(now)?;
        }
        Ok(())
    }

    /// This, or what was set aside last. It fails for want of memory alone.
    pub fn join(&mut self, alloc: Global) -> Result<(), AllocError>
        ensures { OnOk result (Joins self.old self.new) }
    {
        if let Some(first) = self.aside.pop() {
            let second = self.so_far.clone()?;
            self.so_far = Shared::new(alloc, LogExpr::Choice { first, second })?;
        }
        Ok(())
    }

    /// Sets aside what can have been printed before a loop, and begins a turn. It fails for want of memory alone.
    pub fn enter_loop(&mut self, alloc: Global) -> Result<(), AllocError>
        ensures { OnOk result (EntersLoop self.old self.new) }
    {
        let silent = Shared::new(alloc, LogExpr::Silent)?;
        let before = std::mem::replace(&mut self.so_far, silent);
        self.aside.push(before)?;
        Ok(())
    }

    /// Behind the turns of a loop, of which this is one. It fails for want of memory alone.
    pub fn leave_loop(&mut self, alloc: Global) -> Result<(), AllocError>
        ensures { OnOk result (LeavesLoop self.old self.new) }
    {
        if let Some(first) = self.aside.pop() {
            let body = self.so_far.clone()?;
            let second = Shared::new(alloc, LogExpr::Repetition { body })?;
            self.so_far = Shared::new(alloc, LogExpr::Sequence { first, second })?;
        }
        Ok(())
    }
}
