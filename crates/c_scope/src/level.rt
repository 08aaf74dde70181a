//! The names that one block declares.

ghost use Rattle.std.specs.Prelude.{◌≡◌, [], ◌∷◌, ◌++◌, Bool, false, true, reverse, IfOk, OnOk, OnErr};
ghost use Rattle.c_grammar.specs.Parts.{same_name};
ghost use Rattle.c_scope.specs.Local.{found, frame_of};

use crate::file::FileNames;
use c_language::Name;
use std::alloc::{AllocError, Global};
use std::marker::Model;

/// A declared name, and whether it is a typedef name.
#[derive(Drop)]
pub struct Declared {
    name: Name,
    is_type: bool,
}

impl Model for Declared {
    ghost use Rattle.c_grammar.specs.Parts.{Bound};

    ghost Value = { Bound };

    ghost view = { λ d. record { name = d.name; is_type = d.is_type } };
}

impl Declared {
    /// A declaration of a name. It fails for want of memory alone.
    pub fn new(name: &Name, is_type: bool) -> Result<Declared, AllocError>
        ensures { IfOk result (λ d. d ≡ record { name = name.now; is_type = is_type }) }
    {
        Ok(Declared {
            name: name.clone()?,
            is_type,
        })
    }

    /// The bytes of the name.
    pub fn name(&self) -> &[u8]
        ensures { result.now ≡ self.now.name }
    {
        self.name.get().as_slice()
    }

    /// Whether it is a typedef name.
    pub fn is_type(&self) -> bool
        ensures { result ≡ self.now.is_type }
    {
        self.is_type
    }

    #[tactic(auto, using(crate::proofs::Same::same_name_is))]
    fn is_named(&self, name: &[u8]) -> bool
        ensures { result ≡ same_name name.now self.now.name }
    {
        name == self.name.get().as_slice()
    }

    /// The same declaration. It fails for want of memory alone.
    pub fn copy(&self) -> Result<Declared, AllocError>
        ensures { IfOk result (λ d. d ≡ self.now) }
    {
        Declared::new(&self.name, self.is_type)
    }
}

/// Whether the last declaration of a name makes it a typedef name, where it is declared.
fn find(names: &[Declared], name: &[u8]) -> Option<bool>
    ensures { result ≡ found name.now (reverse names.now) }
{
    names
        .iter()
        .rev()
        .find(|declared| declared.is_named(name))
        .map(|declared| declared.is_type())
}

/// Copies of declared names, in their order. It fails for want of memory alone.
fn copy(alloc: Global, names: &[Declared]) -> Result<Vec<Declared>, AllocError>
    ensures { IfOk result (λ copies. copies.items ≡ names.now) }
{
    let mut copies = Vec::new(alloc);
    for declared in names {
        copies.push(declared.copy()?)?;
    }
    Ok(copies)
}

/// The names of a block, in the order of their declarations, and whether the names of the file come before them.
#[derive(Drop)]
pub struct Level {
    names: Vec<Declared>,
    over_file: bool,
}

impl Model for Level {
    ghost use Rattle.std.specs.Prelude.{reverse};
    ghost use Rattle.c_scope.specs.Local as spec;

    ghost Value = { spec.Level };

    ghost view = { λ l. record { names = reverse l.names.items; over_file = l.over_file } };
}

impl Level {
    /// A block with no names of its own.
    pub fn new(alloc: Global, over_file: bool) -> Level
        ensures { result ≡ record { names = []; over_file = over_file } }
    {
        Level {
            names: Vec::new(alloc),
            over_file,
        }
    }

    /// Whether the block has the names of the file.
    pub fn is_over_file(&self) -> bool
        ensures { result ≡ self.now.over_file }
    {
        self.over_file
    }

    /// Whether the last declaration of a name in the block itself makes it a typedef name, where there is one.
    pub fn find(&self, name: &[u8]) -> Option<bool>
        ensures { result ≡ found name.now self.now.names }
    {
        find(&self.names, name)
    }

    /// The names of the block itself, in the order of their declarations.
    pub fn names(&self) -> &[Declared]
        ensures { reverse result.now ≡ self.now.names }
    {
        &self.names
    }

    /// Declares a name. It fails for want of memory alone.
    pub fn declare(&mut self, declared: Declared) -> Result<(), AllocError>
        ensures { OnOk result (self.new ≡ record self.old { names = declared ∷ self.old.names }) }
    {
        self.names.push(declared)?;
        Ok(())
    }

    /// Moves the names to the file. It fails for want of memory alone.
    pub fn move_to(&mut self, file: &mut FileNames) -> Result<(), AllocError>
        ensures moved { OnOk result (file.new ≡ self.old.names ++ file.old) }
        ensures left { OnOk result (self.new ≡ record self.old { names = [] }) }
    {
        for declared in &self.names {
            file.declare(declared)?;
        }
        self.names.clear();
        Ok(())
    }

    /// A block of the same names. It fails for want of memory alone.
    pub fn copy(&self, alloc: Global) -> Result<Level, AllocError>
        ensures { IfOk result (λ level. level ≡ self.now) }
    {
        Ok(Level {
            names: copy(alloc, &self.names)?,
            over_file: self.over_file,
        })
    }
}
