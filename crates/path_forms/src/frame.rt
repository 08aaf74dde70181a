//! Where the objects are that have names in a function.
ghost use Rattle.std.specs.Prelude.{◌≡◌, ◌<◌, cond, nat_eq, IfSome, Some};
ghost use Rattle.path_forms.specs.Around.{IsPlace};

/// The automatic object that is declared at an offset of the source, and how many places it is behind the base.
#[derive(Clone, Copy, PartialEq, Eq)]
pub struct Placed {
    pub at: u32,
    pub offset: u64,
}

fn later(found: Option<u64>, placed: Placed, at: u32) -> Option<u64>
    ensures { result ≡ cond (nat_eq at placed.at) (Some placed.offset) found }
{
    if at == placed.at {
        Some(placed.offset)
    } else {
        found
    }
}

fn within(found: Option<u64>, room: u64) -> Option<u64>
    ensures room { IfSome result (λ o. o < room) }
    ensures same { IfSome result (λ o. found ≡ Some o) }
{
    match found {
        Some(offset) if offset < room => Some(offset),
        _ => None,
    }
}

/// How many places behind the base the object is that was bound last under a declaration's offset, if it is known and
/// within the room.
pub fn place_of(frame: &[Placed], room: u64, at: u32) -> Option<u64>
    ensures { IfSome result (λ offset. IsPlace frame.now room at offset) }
{
    let mut found = None;
    for placed in frame {
        found = later(found, *placed, at);
    }
    within(found, room)
}
