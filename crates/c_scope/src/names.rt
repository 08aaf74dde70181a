//! The names of the file and of the blocks that are entered.

ghost use Rattle.std.specs.Prelude.{◌≡◌, [], ◌∷◌, IfOk, OnOk};
ghost use Rattle.c_grammar.specs.Parts.{Frame, is_typedef, declared, entered, left, left_keeping, forgetting, entered_function};
ghost use Rattle.c_scope.specs.Local.{scope_of};

use crate::file::FileNames;
use crate::level::Level;
use crate::levels::Levels;
use c_language::Name;
use std::alloc::{AllocError, Global};
use std::marker::Model;

impl FileNames {
    /// Moves the names that the file's block declares to the file, where that is the one block that is entered; else it
    /// moves none. The scope stays as it is. It fails for want of memory alone.
    pub fn absorb(&mut self, names: &mut Names) -> Result<(), AllocError>
        ensures { OnOk result (scope_of self.new names.new ≡ scope_of self.old names.old) }
    {
        if names.parameters.is_over_file() {
            return Ok(());
        }
        names.levels.move_to(self)
    }
}

/// The names of the blocks that are entered, and the parameters of the function whose declarator was read last
/// (C99 6.2.1). The names of the file are kept apart.
#[derive(Drop)]
pub struct Names {
    alloc: Global,
    levels: Levels,
    parameters: Level,
}

impl Model for Names {
    ghost use Rattle.c_scope.specs.Local.{Local};

    ghost Value = { Local };

    ghost view = { λ n. record { levels = n.levels; parameters = n.parameters } };
}

#[tactic(auto, unfolding(c_grammar::specs::Parts::is_typedef, c_grammar::specs::Parts::declared, c_grammar::specs::Parts::entered, c_grammar::specs::Parts::left, c_grammar::specs::Parts::left_keeping, c_grammar::specs::Parts::forgetting, c_grammar::specs::Parts::entered_function))]
impl Names {
    /// The names of the file alone, with no parameters. It fails for want of memory alone.
    pub fn new(alloc: Global) -> Result<Names, AllocError>
        ensures { IfOk result (λ n. (file : Frame) → scope_of file n ≡ record { frames = file ∷ []; parameters = [] }) }
    {
        let mut levels = Levels::new(alloc);
        levels.enter(Level::new(alloc, true))?;
        Ok(Names {
            alloc,
            levels,
            parameters: Level::new(alloc, false),
        })
    }

    /// Whether a name is a typedef name: whether the innermost declaration of it makes it one (C99 6.7.7).
    pub fn is_typedef(&self, file: &FileNames, name: &[u8]) -> bool
        ensures { result ≡ is_typedef name.now (scope_of file.now self.now) }
    {
        self.levels.is_typedef(file, name)
    }

    /// Declares a name in the innermost block, as a typedef name or as another. It fails for want of memory alone.
    pub fn declare(&mut self, name: &Name, is_type: bool) -> Result<(), AllocError>
        ensures { OnOk result ((file : Frame) → scope_of file self.new ≡ declared name.now is_type (scope_of file self.old)) }
    {
        self.levels.declare(name, is_type)
    }

    /// Enters a block. It fails for want of memory alone.
    pub fn enter(&mut self) -> Result<(), AllocError>
        ensures { OnOk result ((file : Frame) → scope_of file self.new ≡ entered (scope_of file self.old)) }
    {
        self.levels.enter(Level::new(self.alloc, false))
    }

    /// Leaves the innermost block, if any.
    pub fn leave(&mut self)
        ensures { (file : Frame) → scope_of file self.new ≡ left (scope_of file self.old) }
    {
        let _ = self.levels.leave();
    }

    /// Leaves the innermost block, if any, and keeps its names as the parameters of a function.
    pub fn leave_keeping(&mut self)
        ensures { (file : Frame) → scope_of file self.new ≡ left_keeping (scope_of file self.old) }
    {
        self.parameters = match self.levels.leave() {
            Some(level) => level,
            None => Level::new(self.alloc, false),
        };
    }

    /// Forgets the parameters.
    pub fn forget(&mut self)
        ensures { (file : Frame) → scope_of file self.new ≡ forgetting (scope_of file self.old) }
    {
        self.parameters = Level::new(self.alloc, false);
    }

    /// Names of their own for a function's body: the blocks that are entered, and in them the block of its parameters. It
    /// fails for want of memory alone.
    pub fn in_function(&self) -> Result<Names, AllocError>
        ensures { IfOk result (λ n. (file : Frame) → scope_of file n ≡ entered_function (scope_of file self.now)) }
    {
        let mut levels = self.levels.copy(self.alloc)?;
        levels.enter(self.parameters.copy(self.alloc)?)?;
        Ok(Names {
            alloc: self.alloc,
            levels,
            parameters: self.parameters.copy(self.alloc)?,
        })
    }
}
