//! Where a list in braces has come to (C99 6.7.8p17, p20).

ghost use Rattle.std.specs.Prelude.{◌≡◌, [], ◌∷◌, IfOk, MatchOption};
ghost use Rattle.std.specs.Option.{option_copied};
ghost use Rattle.c_language.specs.Initials as spec;
ghost use Rattle.c_initials.specs.Filled.{innermost, only, full};

use crate::parts::{Part, behind, has_part};
use c_language::Tables;
use plain_data::Shared;
use std::alloc::{AllocError, Global};
use std::marker::Model;

/// An object within which the next part, by its number from 0, is initialised next.
#[derive(Drop)]
pub struct Frame {
    pub whole: Shared<Part>,
    pub next: u64,
}

impl Model for Frame {
    ghost use Rattle.c_language.specs.Initials as spec;

    ghost Value = { spec.Frame };

    ghost view = { λ f. record { whole = f.whole; next = f.next } };
}

impl Frame {
    /// An object of which nothing is initialised so far. It takes no memory.
    pub fn started(whole: Shared<Part>) -> Frame
        ensures { result ≡ spec.started whole }
    {
        Frame { whole, next: 0 }
    }

    /// The same object, behind its next part. Parts are counted up to 2^64 - 1.
    pub fn stepped(self, tables: &Tables) -> Frame
        ensures { result ≡ spec.stepped tables.now self }
    {
        let Frame { whole, next } = self;
        let next = behind(tables, whole.get().ctype.get(), next);
        Frame { whole, next }
    }
}

/// The frames of the closest braces, which contracts see with the innermost first and the braces' object last.
#[derive(Drop)]
pub struct Frames {
    items: Vec<Frame>,
}

impl Model for Frames {
    ghost use Rattle.std.specs.Prelude.{List, reverse};
    ghost use Rattle.c_language.specs.Initials as spec;

    ghost Value = { List spec.Frame };

    ghost view = { λ frames. reverse frames.items.items };
}

impl Frames {
    /// No frames. It takes no memory.
    pub fn new(alloc: Global) -> Frames
        ensures { result ≡ [] }
    {
        Frames {
            items: Vec::new(alloc),
        }
    }

    /// An object within this one is initialised next. It fails for want of memory alone.
    #[tactic(auto, using(crate::proofs::Reversed::reverse_snoc))]
    pub fn with(self, frame: Frame) -> Result<Frames, AllocError>
        ensures { IfOk result (λ frames. frames ≡ frame ∷ self) }
    {
        let Frames { mut items } = self;
        items.push(frame)?;
        Ok(Frames { items })
    }

    /// Takes the innermost frame out.
    #[tactic(auto, using(crate::proofs::Reversed::reverse_snoc))]
    pub fn pop(&mut self) -> Option<Frame>
        ensures { MatchOption result ((self.old ≡ []) × (self.new ≡ [])) (λ frame. self.old ≡ frame ∷ self.new) }
    {
        self.items.pop()
    }

    /// The innermost frame.
    #[tactic(auto, using(crate::proofs::Reversed::reverse_snoc))]
    pub fn innermost(&self) -> Option<&Frame>
        ensures { option_copied result ≡ innermost self.now }
    {
        match self.items.as_slice().split_last() {
            Some((frame, _)) => Some(frame),
            None => None,
        }
    }

    /// The only frame, where there is one alone.
    #[tactic(auto, using(crate::proofs::Reversed::only_one, crate::proofs::Reversed::only_none))]
    pub fn only(&self) -> Option<&Frame>
        ensures { option_copied result ≡ only self.now }
    {
        match self.items.as_slice().split_first() {
            Some((frame, rest)) if rest.is_empty() => Some(frame),
            _ => None,
        }
    }

    /// Keeps the frame of the braces' object alone.
    #[tactic(auto, using(crate::proofs::Reversed::outermost_kept))]
    pub fn keep_outermost(&mut self)
        ensures { self.new ≡ spec.outermost self.old }
    {
        self.items.truncate(1);
    }

    /// How many parts of the braces' object were met, where so many were before.
    #[tactic(auto, using(crate::proofs::Reversed::high_first))]
    pub fn high(&self, before: u64) -> u64
        ensures { result ≡ spec.high_of before self.now }
    {
        match self.items.as_slice().split_first() {
            Some((frame, _)) => before.max(frame.next),
            None => before,
        }
    }

    fn is_full(&self, tables: &Tables) -> bool
        ensures { result ≡ full tables.now self.now }
    {
        match self.innermost() {
            Some(frame) => !has_part(tables, frame.whole.get().ctype.get(), frame.next),
            None => false,
        }
    }

    /// Leaves the frames without a part left.
    #[tactic(auto, using(crate::proofs::Reversed::left_further, crate::proofs::Reversed::left_here))]
    pub fn with_part_left(self, tables: &Tables) -> Frames
        ensures { result ≡ spec.with_part_left tables.now self }
    {
        let mut frames = self;
        'frames: while frames.is_full(tables) {
            let _ = frames.pop();
        }
        frames
    }
}
