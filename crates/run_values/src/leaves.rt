//! Forms without parts.
ghost use Rattle.std.specs.Prelude.{◌≡◌, pos, Ok};
ghost use Rattle.c_store.specs.Store.{start};
ghost use Rattle.c_machine.specs.declared.value.Value.TheVariants.{Number};
ghost use Rattle.core_running.specs.Frames.{env_of};

use c_machine::{Halt, Value};
use core_running::{Found, Frame};

/// How many addresses an object has at most.
const ROOM: i128 = 1 << 32;

/// A constant.
pub(crate) fn constant(value: &i128, base: u64) -> Result<Found, Halt>
    ensures { result ≡ Ok (record { value = Number value.now; next = base }) }
{
    Ok(Found {
        value: Value::Number(*value),
        next: base,
    })
}

/// The first address of the object of this place.
pub(crate) fn fixed(place: u64, base: u64) -> Result<Found, Halt>
    ensures { result ≡ Ok (record { value = Number (pos (start place)); next = base }) }
{
    Ok(Found {
        value: Value::Number(i128::from(place) * ROOM),
        next: base,
    })
}

/// The first address of the automatic object that is declared at this offset.
pub(crate) fn local(frame: &Frame, at: u32, base: u64) -> Result<Found, Halt>
    ensures { result ≡ Ok (record { value = Number (pos (start (env_of frame.now at))); next = base }) }
{
    fixed(u64::from(frame.number(at)), base)
}
