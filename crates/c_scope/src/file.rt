//! The names of the file.

ghost use Rattle.std.specs.Prelude.{◌≡◌, [], ◌∷◌, OnOk};
ghost use Rattle.c_scope.specs.Local.{found};

use crate::kinds::Kinds;
use crate::level::Declared;
use std::alloc::{AllocError, Global};
use std::marker::Model;

/// The names that the file declares, which contracts see with the last declared first (C99 6.2.1).
#[derive(Drop)]
pub struct FileNames {
    names: Vec<Declared>,
    kinds: Kinds,
}

impl Model for FileNames {
    ghost use Rattle.std.specs.Prelude.{◌≡◌, reverse};
    ghost use Rattle.c_grammar.specs.Parts.{Frame, Name};
    ghost use Rattle.c_scope.specs.Local.{found};
    ghost use Rattle.c_scope.specs.Kinds.{kind_at};

    ghost Value = { Frame };

    ghost view = { λ f. reverse f.names.items };

    ghost invariant = { λ f. (name : Name) → kind_at f.kinds name ≡ found name (reverse f.names.items) };
}

impl FileNames {
    /// No names.
    pub fn new(alloc: Global) -> FileNames
        ensures { result ≡ [] }
    {
        FileNames {
            names: Vec::new(alloc),
            kinds: Kinds::new(alloc),
        }
    }

    /// Whether the last declaration of a name in the file makes it a typedef name, where there is one.
    pub(crate) fn find(&self, name: &[u8]) -> Option<bool>
        ensures { result ≡ found name.now self.now }
    {
        self.kinds.get(name)
    }

    /// Declares a name. It fails for want of memory alone.
    pub(crate) fn declare(&mut self, declared: &Declared) -> Result<(), AllocError>
        ensures { OnOk result (self.new ≡ declared.now ∷ self.old) }
    {
        self.names.push(declared.copy()?)?;
        match self.kinds.put(declared.name(), declared.is_type()) {
            Ok(_) => Ok(()),
            Err(failed) => {
                let _ = self.names.pop();
                Err(failed)
            }
        }
    }
}
