//! The values of watched variables.
ghost use Rattle.std.specs.Prelude.{◌≡◌, ◌++◌, false, OnOk, IfOk, IfSome};
ghost use Rattle.c_language.specs.Integers as integers;
ghost use Rattle.c_machine.specs.States.{state};
ghost use Rattle.c_store.specs.Store.{read};
ghost use Rattle.core_running.specs.Frames.{env_of};
ghost use Rattle.core_tree.specs.Callees as callees;
ghost use Rattle.core_tree.specs.Numbers.{size_of, value_of_bytes};
ghost use Rattle.run_callees.specs.Watched.{ClassOf};

use c_language::{Class, IntegerKind};
use c_machine::Machine;
use core_running::Frame;
use core_tree::{Holder, ValueType, Watched, WordType};
use plain_data::{Numbers, Width};
use std::alloc::AllocError;

/// The integer type of C with a width and sign.
fn kind_of(word: WordType) -> IntegerKind
    ensures width { integers.width_of result ≡ word.width }
    ensures sign { integers.is_signed result ≡ word.is_signed }
    ensures integer { integers.is_bool result ≡ false }
{
    match (word.width, word.is_signed) {
        (Width::W8, true) => IntegerKind::SignedChar,
        (Width::W8, false) => IntegerKind::UnsignedChar,
        (Width::W16, true) => IntegerKind::Short,
        (Width::W16, false) => IntegerKind::UnsignedShort,
        (Width::W32, true) => IntegerKind::Int,
        (Width::W32, false) => IntegerKind::UnsignedInt,
        (Width::W64, true) => IntegerKind::Long,
        (Width::W64, false) => IntegerKind::UnsignedLong,
    }
}

/// The class of C whose values have this type, if it is of numbers.
#[tactic(auto, using(crate::proofs::Watching::of_truth, crate::proofs::Watching::of_word, crate::proofs::Watching::of_pointer))]
fn class_of(stored: ValueType) -> Option<Class>
    ensures { IfSome result (ClassOf stored) }
{
    match stored {
        ValueType::Void => None,
        ValueType::Truth => Some(Class::Integer(IntegerKind::Bool)),
        ValueType::Word(word) => Some(Class::Integer(kind_of(word))),
        ValueType::Pointer => Some(Class::Pointer),
        ValueType::Block { .. } => None,
    }
}

/// The value of a variable. It fails for want of memory alone: each that is shown has a type of numbers.
fn held(stored: ValueType, address: u64, m: &mut Machine) -> Result<i128, AllocError>
    ensures world { m.new.world ≡ m.old.world }
    ensures same { OnOk result (state m.new ≡ state m.old) }
    ensures value { IfOk result (λ z. z ≡ value_of_bytes stored (read (size_of stored) (state m.old).store address)) }
{
    match class_of(stored) {
        Some(class) => match m.load(class, None, 0, true, address) {
            Ok(value) => Ok(value.scalar()),
            Err(_) => Err(AllocError),
        },
        None => Err(AllocError),
    }
}

/// The number of the object of a variable.
fn number_of(x: &Watched, frame: &Frame) -> u64
    ensures { result ≡ callees.number_held (env_of frame.now) x.now.at x.now.holder }
{
    match x.holder {
        Holder::Local => u64::from(frame.number(x.at)),
        Holder::Fixed { place } => place,
    }
}

fn seen(x: &Watched, frame: &Frame, m: &mut Machine) -> Result<i128, AllocError>
    ensures world { m.new.world ≡ m.old.world }
    ensures same { OnOk result (state m.new ≡ state m.old) }
    ensures value { IfOk result (λ z. z ≡ callees.seen (env_of frame.now) (state m.old).store x.now) }
{
    let number = number_of(x, frame);
    if number > u64::from(u32::MAX) {
        return Err(AllocError);
    }
    let value = held(x.stored, number * (1 << 32), m)?;
    Ok(value)
}

/// Puts the values of variables at the end. It fails for want of memory alone.
pub(crate) fn push_seen(
    shown: &mut Numbers,
    watched: &[Watched],
    frame: &Frame,
    m: &mut Machine,
) -> Result<(), AllocError>
    ensures world { m.new.world ≡ m.old.world }
    ensures same { OnOk result (state m.new ≡ state m.old) }
    ensures values { OnOk result (shown.new ≡ shown.old ++ callees.seen_all (env_of frame.now) (state m.old).store watched.now) }
{
    match watched.split_first() {
        Some((x, rest)) => {
            let value = seen(x, frame, m)?;
            shown.push(value)?;
            push_seen(shown, rest, frame, m)?;
            Ok(())
        }
        None => Ok(()),
    }
}
