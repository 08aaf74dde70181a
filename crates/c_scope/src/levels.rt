//! The blocks that are entered.

ghost use Rattle.std.specs.Prelude.{◌≡◌, [], ◌∷◌, ◌↔◌, List, Bool, true, false, map, reverse, IfOk, OnOk, IfSome, IsSomeAnd, MatchOption};
ghost use Rattle.c_grammar.specs.Parts.{is_type_among};
ghost use Rattle.c_scope.specs.Local as local;
ghost use Rattle.c_scope.specs.Local.{found, frame_of, declared_at};
ghost use Rattle.c_scope.specs.Known.{OutermostAlone, IsUsual};

use crate::file::FileNames;
use crate::known::Known;
use crate::level::{Declared, Level};
use c_language::Name;
use std::alloc::{AllocError, Global};
use std::marker::Model;

/// The blocks that are entered, which contracts see with the innermost first.
#[derive(Drop)]
pub struct Levels {
    levels: Vec<Level>,
    known: Known,
    /// Whether the outermost block has the names of the file, where no other may have them and `known` holds.
    in_file: Option<bool>,
}

impl Model for Levels {
    ghost use Rattle.std.specs.Prelude.{List, reverse, IfSome};
    ghost use Rattle.c_scope.specs.Local as spec;
    ghost use Rattle.c_scope.specs.Known.{IsUsual};

    ghost Value = { List spec.Level };

    ghost view = { λ l. reverse l.levels.items };

    ghost invariant = { λ l. IfSome l.in_file (IsUsual l.known (reverse l.levels.items)) };
}

fn find_over(level: &Level, file: &FileNames, name: &[u8]) -> Option<bool>
    ensures { result ≡ found name.now (frame_of file.now level.now) }
{
    match level.find(name) {
        Some(is_type) => Some(is_type),
        None if level.is_over_file() => file.find(name),
        None => None,
    }
}

fn look_up(known: &Known, in_file: bool, file: &FileNames, name: &[u8]) -> bool
    ensures { (levels : List local.Level) → IsUsual known.now levels in_file → result ≡ is_type_among name.now (map (frame_of file.now) levels) }
{
    match known.get(name) {
        Some(is_type) => is_type,
        None if in_file => file.find(name).unwrap_or(false),
        None => false,
    }
}

fn is_empty(levels: &[Level]) -> bool
    ensures { (result ≡ true) ↔ (reverse levels.now ≡ []) }
{
    match levels {
        [] => true,
        _ => false,
    }
}

/// Whether the outermost block has the names of the file, after a block is entered.
fn entered(in_file: Option<bool>, over_file: bool, is_first: bool) -> Option<bool>
    ensures { IfSome result (λ after. IsSomeAnd in_file (λ before. (level : local.Level) (levels : List local.Level) → level.over_file ≡ over_file → (is_first ≡ true → levels ≡ []) → OutermostAlone before levels → OutermostAlone after (level ∷ levels))) }
{
    match in_file {
        Some(in_file) if !over_file => Some(in_file),
        Some(_) if is_first => Some(true),
        _ => None,
    }
}

/// Whether the outermost block has the names of the file, after a block is left.
fn left(in_file: Option<bool>, was_last: bool) -> Option<bool>
    ensures { IfSome result (λ after. IsSomeAnd in_file (λ before. (level : local.Level) (levels : List local.Level) → ((was_last ≡ true) ↔ (levels ≡ [])) → OutermostAlone before (level ∷ levels) → OutermostAlone after levels)) }
{
    match in_file {
        Some(_) if was_last => Some(false),
        other => other,
    }
}

impl Levels {
    /// No blocks.
    pub fn new(alloc: Global) -> Levels
        ensures { result ≡ [] }
    {
        Levels {
            levels: Vec::new(alloc),
            known: Known::new(alloc),
            in_file: Some(false),
        }
    }

    /// Whether the innermost declaration of a name makes it a typedef name, where the file declares names too.
    pub fn is_typedef(&self, file: &FileNames, name: &[u8]) -> bool
        ensures { result ≡ is_type_among name.now (map (frame_of file.now) self.now) }
    {
        match self.in_file {
            Some(in_file) => look_up(&self.known, in_file, file, name),
            None => self.walk(file, name),
        }
    }

    fn walk(&self, file: &FileNames, name: &[u8]) -> bool
        ensures { result ≡ is_type_among name.now (map (frame_of file.now) self.now) }
    {
        let mut index = self.levels.len();
        'walk: while index > 0 {
            index -= 1;
            if let Some(is_type) = find_over(&self.levels[index], file, name) {
                return is_type;
            }
        }
        false
    }

    /// Declares a name in the innermost block, if any. It fails for want of memory alone.
    pub fn declare(&mut self, name: &Name, is_type: bool) -> Result<(), AllocError>
        ensures { OnOk result (self.new ≡ declared_at (record { name = name.now; is_type = is_type }) self.old) }
    {
        let count = self.levels.len();
        if count == 0 {
            return Ok(());
        }
        let declared = Declared::new(name, is_type)?;
        let in_file = self.in_file.take();
        self.known.note(&declared)?;
        let level = &mut self.levels[count - 1];
        level.declare(declared)?;
        self.in_file = in_file;
        Ok(())
    }

    /// Enters a block. It fails for want of memory alone.
    pub fn enter(&mut self, level: Level) -> Result<(), AllocError>
        ensures { OnOk result (self.new ≡ level ∷ self.old) }
    {
        let in_file = self.in_file.take();
        let in_file = entered(in_file, level.is_over_file(), is_empty(&self.levels));
        self.known.note_all(level.names())?;
        self.levels.push(level)?;
        self.in_file = in_file;
        Ok(())
    }

    /// Leaves the innermost block, if any.
    pub fn leave(&mut self) -> Option<Level>
        ensures { MatchOption result ((self.old ≡ []) × (self.new ≡ [])) (λ level. self.old ≡ level ∷ self.new) }
    {
        match self.levels.pop() {
            Some(level) => {
                self.known.undo_all(level.names());
                self.in_file = left(self.in_file, is_empty(&self.levels));
                Some(level)
            }
            None => None,
        }
    }

    /// Moves the names of the file's block to the file, where it is the one block that is entered. It fails for want of
    /// memory alone.
    pub fn move_to(&mut self, file: &mut FileNames) -> Result<(), AllocError>
        ensures { OnOk result (map (frame_of file.new) self.new ≡ map (frame_of file.old) self.old) }
    {
        if self.levels.len() == 1 {
            let level = &mut self.levels[0];
            if level.is_over_file() {
                let in_file = self.in_file.take();
                self.known.undo_all(level.names());
                level.move_to(file)?;
                self.in_file = in_file;
            }
        }
        Ok(())
    }

    /// Blocks of the same names. It fails for want of memory alone.
    pub fn copy(&self, alloc: Global) -> Result<Levels, AllocError>
        ensures { IfOk result (λ levels. levels ≡ self.now) }
    {
        let mut levels = Levels::new(alloc);
        for level in &self.levels {
            levels.enter(level.copy(alloc)?)?;
        }
        Ok(levels)
    }
}
