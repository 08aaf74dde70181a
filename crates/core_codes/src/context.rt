//! What a statement stands in.

use c_language::IntegerKind;
use core_tree::ValueType;

/// What a statement stands in, as far as its core depends on it: the type in which the `switch` compares whose block
/// this is (C99 6.8.4.2p5), and the type of the core that the function's value has (C99 6.8.6.4p3).
#[derive(Clone, Copy)]
pub struct Context {
    pub compared: Option<IntegerKind>,
    pub returned: ValueType,
}

impl Context {
    ghost use Rattle.std.specs.Prelude.{◌≡◌, Some, None};

    /// A block within: no `switch` chooses in it (C99 6.8.1p2).
    pub(crate) fn within(self) -> Context
        ensures { result ≡ record self { compared = None } }
    {
        Context {
            compared: None,
            returned: self.returned,
        }
    }

    /// The block of a `switch` that compares in this type.
    pub(crate) fn choosing(self, compared: IntegerKind) -> Context
        ensures { result ≡ record self { compared = Some compared } }
    {
        Context {
            compared: Some(compared),
            returned: self.returned,
        }
    }
}
