//! Which accesses a walk can do: those that are tested, and those near the start of an object that has a name.
ghost use Rattle.std.specs.Prelude.{◌≡◌, List, IfSome, OnOk};
ghost use Rattle.core_tree.specs.declared.expr.Expr.TheVariants as e;
ghost use Rattle.path_forms.specs.declared.frame.Placed.{Placed as PlacedType};
ghost use Rattle.path_forms.specs.Accesses.{IsFarther, HasScalarSize, IsNamed, IsAccess};
ghost use Rattle.path_forms.specs.Around.{Around};

use crate::fault::WalkFault;
use crate::frame::{Placed, place_of};
use core_tree::{Access, Expr, ValueType};
use mem_terms::octets;

/// How many bytes a scalar has; none of what is no scalar.
fn scalar_size(stored: ValueType) -> Option<u64>
    ensures { IfSome result (HasScalarSize stored) }
{
    match stored {
        ValueType::Truth => Some(1),
        ValueType::Word(word) => Some(octets(word.width)),
        ValueType::Pointer => Some(8),
        ValueType::Void => None,
        ValueType::Block { .. } => None,
    }
}

/// So many bytes more, where the sum is below 2^32.
fn farther(distance: Option<u64>, bytes: u64) -> Option<u64>
    ensures { IfSome result (IsFarther distance bytes) }
{
    let from = distance?;
    let sum = from.checked_add(bytes)?;
    if sum < 0x1_0000_0000 { Some(sum) } else { None }
}

/// The start of an automatic object, where it is known.
fn local_distance(frame: &[Placed], room: u64, at: u32) -> Option<u64>
    ensures { IfSome result (λ n. (x : Around) → IsNamed x frame.now room (e.Local at) n) }
{
    match place_of(frame, room, at) {
        Some(_) => Some(0),
        None => None,
    }
}

/// The start of an object that lives throughout the run.
fn fixed_distance(place: u64) -> Option<u64>
    ensures { IfSome result (λ n. (x : Around) (frame : List PlacedType) (room : _) → IsNamed x frame room (e.Fixed
        place) n) }
{
    if place < 0x1_0000_0000 { Some(0) } else { None }
}

/// How many bytes an address is behind the start of an object that has a name; none where its form doesn't tell it.
fn distance_of(frame: &[Placed], room: u64, address: &Expr) -> Option<u64>
    ensures { IfSome result (λ n. (x : Around) → IsNamed x frame.now room address.now n) }
{
    match address {
        Expr::Local { at } => local_distance(frame, room, *at),
        Expr::Fixed { place } => fixed_distance(*place),
        Expr::Offset { bytes, operand } => farther(distance_of(frame, room, operand.get()), *bytes),
        _ => None,
    }
}

/// Whether a walk can do an access at an address: of a scalar, that is tested or ends fewer than 2^32 bytes behind the
/// start of an object that has a name.
pub fn check_access(
    frame: &[Placed],
    room: u64,
    access: Access,
    address: &Expr,
) -> Result<(), WalkFault>
    ensures { OnOk result ((x : Around) → IsAccess x frame.now room access address.now) }
{
    let Some(size) = scalar_size(access.stored) else {
        return Err(WalkFault::Unwalked);
    };
    if access.is_tested {
        return Ok(());
    }
    match farther(distance_of(frame, room, address), size) {
        Some(_) => Ok(()),
        None => Err(WalkFault::Unwalked),
    }
}
