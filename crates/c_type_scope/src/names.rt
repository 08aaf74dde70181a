//! Lists of what has a name, in which the last of a name is found without walking them.

ghost use Rattle.std.specs.Prelude.{◌≡◌, ℕ, List, [], ◌∷◌, ◌++◌, None, IfOk, OnOk};
ghost use Rattle.std.specs.Option.{option_copied};
ghost use Rattle.std.specs.Str.{bytes_eq};
ghost use Rattle.c_language.specs.Scopes.{last_where};

use c_language::{Entry, Linked, Name, Tag};
use plain_data::Shared;
use std::alloc::{AllocError, Global};
use std::collections::HashMap;
use std::marker::Model;

/// What has a name.
pub trait HasName {
    ghost name_of: { Self → List ℕ };

    fn name(&self) -> &Name
        ensures { result.now ≡ name_of self.now };
}

impl HasName for Entry {
    ghost name_of = { λ e. e.name };

    fn name(&self) -> &Name {
        &self.name
    }
}

impl HasName for Tag {
    ghost name_of = { λ t. t.name };

    fn name(&self) -> &Name {
        &self.name
    }
}

impl HasName for Linked {
    ghost name_of = { λ l. l.name };

    fn name(&self) -> &Name {
        &self.name
    }
}

/// Named values, the last one last, which contracts see as their list.
pub struct Named<T: HasName> {
    alloc: Global,
    items: Vec<Shared<T>>,
    last: HashMap<Vec<u8>, Shared<T>>,
}

/// By hand, so that a call stands in place of all its parts wherever a value is let go.
impl<T: HasName + Drop> Drop for Named<T> {
    fn drop(self) {
        let Named { alloc, items, last } = self;
    }
}

impl<T: HasName> Model for Named<T> {
    ghost use Rattle.std.specs.Prelude.{◌≡◌, ℕ, List, None};
    ghost use Rattle.std.specs.Coded.{coded_list};
    ghost use Rattle.std.specs.Str.{bytes_eq};
    ghost use Rattle.std.specs.HashMap.{get_by};
    ghost use Rattle.c_language.specs.Scopes.{last_where};

    ghost Value = { List T };

    ghost coded = { coded_list T.code };

    ghost view = { λ n. n.items.items };

    ghost invariant = { λ n. (name : List ℕ) → get_by (λ k. bytes_eq name k.items) n.last ≡ last_where (λ x. bytes_eq (T.name_of x) name) None n.items.items };
}

impl<T: HasName + Drop> Named<T> {
    /// No values.
    pub fn new(alloc: Global) -> Named<T>
        ensures { result ≡ [] }
    {
        Named {
            alloc,
            items: Vec::new(alloc),
            last: HashMap::new(alloc),
        }
    }

    /// The last value of a name.
    pub fn get(&self, name: &[u8]) -> Option<&Shared<T>>
        ensures { option_copied result ≡ last_where (λ x. bytes_eq (T.name_of x) name.now) None self.now }
    {
        self.last.get(name)
    }

    /// The values in order.
    pub fn as_slice(&self) -> &[Shared<T>]
        ensures { result.now ≡ self.now }
    {
        self.items.as_slice()
    }

    /// The same values, which are shared. It fails for want of memory alone.
    pub fn duplicate(&self, alloc: Global) -> Result<Named<T>, AllocError>
        ensures { IfOk result (λ copy. copy ≡ self.now) }
    {
        let mut copy = Named::new(alloc);
        for item in &self.items {
            copy.push(item.clone()?)?;
        }
        Ok(copy)
    }

    /// Puts a value at the end. It fails for want of memory alone, and then changes nothing.
    pub fn push(&mut self, value: Shared<T>) -> Result<(), AllocError>
        ensures { OnOk result (self.new ≡ self.old ++ value ∷ []) }
    {
        let key = Vec::from_slice(self.alloc, value.get().name().get().as_slice())?;
        let copy = value.clone()?;
        self.items.push(value)?;
        match self.last.insert(key, copy) {
            Ok(_) => Ok(()),
            Err(failed) => {
                let _ = self.items.pop();
                Err(failed.into())
            }
        }
    }
}
