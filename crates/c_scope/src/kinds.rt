//! What names are now.

ghost use Rattle.std.specs.Prelude.{◌≡◌, Some, None, IsSome, IfOk, OnOk, OnErr};
ghost use Rattle.c_scope.specs.Kinds.{kind_at, Changes};

use std::alloc::{AllocError, Global};
use std::collections::HashMap;

/// Whether each name is a typedef name, where it is declared. The keys are copies of the names' bytes.
#[derive(Drop)]
pub struct Kinds {
    alloc: Global,
    by_name: HashMap<Vec<u8>, bool>,
}

impl Kinds {
    /// No names.
    pub fn new(alloc: Global) -> Kinds
        ensures { (name : _) → kind_at result name ≡ None }
    {
        Kinds {
            alloc,
            by_name: HashMap::new(alloc),
        }
    }

    /// What a name is, where it is declared.
    pub fn get(&self, name: &[u8]) -> Option<bool>
        ensures { result ≡ kind_at self.now name.now }
    {
        self.by_name.get(name).copied()
    }

    /// Makes a name something else, and answers what it was. It fails for want of memory alone, and then changes nothing.
    pub fn put(&mut self, name: &[u8], is_type: bool) -> Result<Option<bool>, AllocError>
        ensures old { IfOk result (λ old. old ≡ kind_at self.old name.now) }
        ensures changes { OnOk result (Changes name.now (Some is_type) self.old self.new) }
        ensures err { OnErr result ((other : _) → kind_at self.new other ≡ kind_at self.old other) }
    {
        let key = Vec::from_slice(self.alloc, name)?;
        match self.by_name.insert(key, is_type) {
            Ok(old) => Ok(old),
            Err(failed) => Err(failed.into()),
        }
    }

    /// Makes a declared name what it was.
    pub fn restore(&mut self, name: &[u8], kind: Option<bool>)
        ensures { IsSome (kind_at self.old name.now) → Changes name.now kind self.old self.new }
    {
        match kind {
            Some(is_type) => self.set(name, is_type),
            None => {
                let _ = self.by_name.remove(name);
            }
        }
    }

    fn set(&mut self, name: &[u8], is_type: bool)
        ensures { IsSome (kind_at self.old name.now) → Changes name.now (Some is_type) self.old self.new }
    {
        if let Some(now) = self.by_name.get_mut(name) {
            *now = is_type;
        }
    }
}
