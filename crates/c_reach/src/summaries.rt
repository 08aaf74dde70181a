//! Summaries of function definitions: what is to be known of each where the whole program has been read.

ghost use Rattle.std.specs.Prelude.{◌≡◌};

use c_item_notes::ItemNotes;
use c_language::Name;
use c_names::Names;
use c_type_scope::HasName;

/// A function definition (C99 6.9.1): the offset of its name's first declaration, how many parameters it has, the `{`
/// of a body that couldn't be read, whether its type is one that `main` may have (C99 5.1.2.2.1p1), what is noted of
/// its body, and the names that it uses, declares and binds, with its string literals.
pub struct FunctionNotes {
    pub at: u32,
    pub name: Name,
    pub parameters: usize,
    pub unread: Option<u32>,
    pub is_main: bool,
    pub body: ItemNotes,
    pub names: Names,
}

/// By hand, so that a call stands in place of all its parts wherever a value is let go.
impl Drop for FunctionNotes {
    fn drop(self) {
        let FunctionNotes {
            at,
            name,
            parameters,
            unread,
            is_main,
            body,
            names,
        } = self;
    }
}

impl HasName for FunctionNotes {
    ghost name_of = { λ f. f.name };

    fn name(&self) -> &Name {
        &self.name
    }
}
