ghost use Rattle.std.specs.Prelude.{◌≡◌, None};

use path_states::Number;
use plain_data::Undefined;
use term_bank::Node;

/// A kind of undefined behaviour, which is met where the truth is true.
#[derive(Clone, Copy, PartialEq, Eq)]
pub struct Fault {
    pub truth: Node,
    pub kind: Undefined,
}

/// An operator's answer: the first fault whose truth is true, else the number.
#[derive(Clone, Copy, PartialEq, Eq)]
pub struct Tested {
    pub number: Number,
    pub first: Option<Fault>,
    pub second: Option<Fault>,
}

/// An answer that is no fault.
pub fn sure(number: Number) -> Tested
    ensures { result ≡ record { number = number; first = None; second = None } }
{
    Tested {
        number,
        first: None,
        second: None,
    }
}
