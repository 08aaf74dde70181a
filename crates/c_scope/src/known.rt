//! What the names of the blocks are, and what each was when it was declared.

ghost use Rattle.std.specs.Prelude.{◌≡◌, [], ◌∷◌, ◌++◌, reverse, OnOk, IfOk};
ghost use Rattle.c_grammar.specs.Parts.{Frame};
ghost use Rattle.c_scope.specs.Kinds.{kind_at};
ghost use Rattle.c_scope.specs.Known.{Knows};

use crate::kinds::Kinds;
use crate::level::Declared;
use std::alloc::{AllocError, Global};

/// What names are, and what each was when it was declared, the last declared last.
#[derive(Drop)]
pub struct Known {
    kinds: Kinds,
    hidden: Vec<Option<bool>>,
}

impl Known {
    /// No names.
    pub fn new(alloc: Global) -> Known
        ensures { Knows result [] }
    {
        Known {
            kinds: Kinds::new(alloc),
            hidden: Vec::new(alloc),
        }
    }

    /// What a name is, where it is declared.
    pub fn get(&self, name: &[u8]) -> Option<bool>
        ensures { result ≡ kind_at self.now.kinds name.now }
    {
        self.kinds.get(name)
    }

    /// Notes a declaration. It fails for want of memory alone.
    pub fn note(&mut self, declared: &Declared) -> Result<(), AllocError>
        ensures { OnOk result ((outer : Frame) → Knows self.old outer → Knows self.new (declared.now ∷ outer)) }
    {
        let hidden = self.kinds.put(declared.name(), declared.is_type())?;
        self.hidden.push(hidden)?;
        Ok(())
    }

    /// Notes declarations in their order. It fails for want of memory alone.
    pub fn note_all(&mut self, names: &[Declared]) -> Result<(), AllocError>
        ensures { OnOk result ((outer : Frame) → Knows self.old outer → Knows self.new (reverse names.now ++ outer)) }
    {
        for declared in names {
            self.note(declared)?;
        }
        Ok(())
    }

    fn undo(&mut self, declared: &Declared)
        ensures { (outer : Frame) → Knows self.old (declared.now ∷ outer) → Knows self.new outer }
    {
        if let Some(hidden) = self.hidden.pop() {
            self.kinds.restore(declared.name(), hidden);
        }
    }

    /// Undoes declarations that were noted last, from the last.
    pub fn undo_all(&mut self, names: &[Declared])
        ensures { (outer : Frame) → Knows self.old (reverse names.now ++ outer) → Knows self.new outer }
    {
        let mut count = names.len();
        'undo: while count > 0 {
            count -= 1;
            self.undo(&names[count]);
        }
    }
}
