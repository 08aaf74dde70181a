//! Values stored in objects that are there (C99 6.7.8p11).
ghost use Rattle.std.specs.Prelude.{◌≡◌, true, IfOk};
ghost use Rattle.path_states.specs.States.{AreStates};
ghost use Rattle.path_codes.specs.Settings.{Storable, Stores};

use core_tree::{Access, ValueType};
use path_arrows::pass;
use path_forms::{WalkFault, leaf};
use path_states::{State, Walked};
use path_steps::Leaf;
use plain_data::Items;
use std::alloc::Global;
use term_bank::Bank;

/// Whether a scalar of a type can be stored so many bytes behind the start of an object.
fn is_storable(stored: ValueType, bytes: u64) -> bool
    ensures { result ≡ true → Storable stored bytes }
{
    match stored {
        ValueType::Truth => bytes <= 0xFFFF_FFF8,
        ValueType::Word(_) => bytes <= 0xFFFF_FFF8,
        ValueType::Pointer => bytes <= 0xFFFF_FFF8,
        ValueType::Void => false,
        ValueType::Block { .. } => false,
    }
}

/// The value on top of the operands is converted to a type and stored so many bytes behind the start of the object of a
/// place behind the base; the states have no operands behind it.
pub(crate) fn store(
    alloc: Global,
    bank: &mut Bank,
    room: u64,
    object: u64,
    bytes: u64,
    stored: ValueType,
    states: Items<State>,
) -> Result<Items<State>, WalkFault>
    requires { AreStates bank.old states }
    ensures { IfOk result (λ ts. Stores room object bytes stored bank.old bank.new states ts) }
{
    if object >= room {
        return Err(WalkFault::Unplaced);
    }
    if !is_storable(stored, bytes) {
        return Err(WalkFault::Unwalked);
    }
    let access = Access {
        at: 0,
        stored,
        is_tested: false,
    };
    let mut walked = Walked {
        going: states,
        ended: Items::new(alloc),
    };
    leaf(
        alloc,
        bank,
        room,
        Leaf::Local { offset: object },
        &mut walked,
    )?;
    leaf(alloc, bank, room, Leaf::Offset { bytes }, &mut walked)?;
    leaf(alloc, bank, room, Leaf::Tuck, &mut walked)?;
    leaf(alloc, bank, room, Leaf::Drop, &mut walked)?;
    leaf(alloc, bank, room, Leaf::Put { at: 0, access }, &mut walked)?;
    leaf(alloc, bank, room, Leaf::Drop, &mut walked)?;
    let passed = pass(alloc, walked.going.as_slice())?;
    Ok(passed)
}
