//! Values stored in objects that are there, objects set to 0, made and ended, and branches that are noted.
ghost use Rattle.std.specs.Prelude.{◌≡◌, ◌≤◌, ◌+◌, false, length, OnOk, IfOk};
ghost use Rattle.c_language.specs.Integers.{is_bool};
ghost use Rattle.c_store.specs.Store.{end, lay, make, start, zero_range};
ghost use Rattle.c_store.specs.declared.object.ObjectKind.TheVariants.{Automatic};
ghost use Rattle.c_means.specs.Initials.{text_byte};
ghost use Rattle.c_means.specs.Values as values;
ghost use Rattle.c_machine.specs.Worth.{worth};
ghost use Rattle.core_tree.specs.Memory.{stored};
ghost use Rattle.core_tree.specs.Numbers.{size_of, wrapped};
ghost use Rattle.core_tree.specs.States.{plain, meet, with_store};
ghost use Rattle.elaborate.specs.Types.{word_type};
ghost use Rattle.core_running.specs.Running.{done};
ghost use Rattle.code_steps.specs.Stores.{StoresAs, Branched};

use c_language::{Class, IntegerKind};
use c_machine::{Machine, Value, bytes_as};
use c_store::{Object, ObjectKind};
use core_tree::{ValueType, WordType};
use plain_data::Width;
use std::alloc::AllocError;

/// A type of C whose values are those of a type of the core: its class and size.
#[derive(Clone, Copy)]
pub struct Slot {
    pub class: Class,
    pub size: Option<u64>,
}

/// An integer type of a width and sign.
pub fn kind_of(word: WordType) -> IntegerKind
    ensures word { word_type result ≡ word }
    ensures no_bool { is_bool result ≡ false }
{
    match word.width {
        Width::W8 => {
            if word.is_signed {
                IntegerKind::SignedChar
            } else {
                IntegerKind::UnsignedChar
            }
        }
        Width::W16 => {
            if word.is_signed {
                IntegerKind::Short
            } else {
                IntegerKind::UnsignedShort
            }
        }
        Width::W32 => {
            if word.is_signed {
                IntegerKind::Int
            } else {
                IntegerKind::UnsignedInt
            }
        }
        Width::W64 => {
            if word.is_signed {
                IntegerKind::Long
            } else {
                IntegerKind::UnsignedLong
            }
        }
    }
}

/// A type of C for a type of the core.
pub fn slot_of(stored: ValueType) -> Slot
    ensures { StoresAs result.class (values.bytes_as result.class result.size) stored }
{
    match stored {
        ValueType::Void => Slot {
            class: Class::Void,
            size: None,
        },
        ValueType::Truth => Slot {
            class: Class::Integer(IntegerKind::Bool),
            size: None,
        },
        ValueType::Word(word) => Slot {
            class: Class::Integer(kind_of(word)),
            size: None,
        },
        ValueType::Pointer => Slot {
            class: Class::Pointer,
            size: None,
        },
        ValueType::Block { bytes } => Slot {
            class: Class::Aggregate(0),
            size: Some(bytes),
        },
    }
}

/// How many bytes a value of a type has.
pub fn size_in(stored: ValueType) -> u64
    ensures { result ≡ size_of stored }
{
    let slot = slot_of(stored);
    bytes_as(slot.class, slot.size)
}

/// Stores a value in an object that is there, converted to the type of what is stored (C99 6.7.8p11). It fails for want
/// of memory alone.
pub fn store(to: ValueType, address: u64, value: Value, m: &mut Machine) -> Result<(), AllocError>
    ensures world { m.new.world ≡ m.old.world }
    ensures stores { OnOk result (done m.new ≡ stored to address (worth value) (done m.old)) }
{
    let slot = slot_of(to);
    let outcome = m.put(slot.class, slot.size, 0, 0, true, address, value);
    if outcome.is_err() {
        return Err(AllocError);
    }
    Ok(())
}

/// Sets bytes to 0. It fails for want of memory alone.
pub fn zero(address: u64, count: u64, m: &mut Machine) -> Result<(), AllocError>
    ensures world { m.new.world ≡ m.old.world }
    ensures zeroes { OnOk result (done m.new ≡ with_store (zero_range address count (done m.old).store) (done m.old)) }
{
    m.zero(address, count)
}

/// Makes an automatic object. It fails for want of memory alone: no object has more bytes than 32 bits count.
pub fn bear_one(place: u64, size: u64, m: &mut Machine) -> Result<(), AllocError>
    ensures world { m.new.world ≡ m.old.world }
    ensures born { OnOk result (done m.new ≡ meet plain place (with_store (make place (record { kind = Automatic; size = size }) (done m.old).store) (done m.old))) }
{
    if size > u64::from(u32::MAX) {
        return Err(AllocError);
    }
    let kind = ObjectKind::Automatic;
    let size = size as u32;
    m.make(place, Object { kind, size })?;
    m.meet(place)
}

/// Ends an object's life.
pub fn end_one(place: u64, m: &mut Machine)
    ensures world { m.new.world ≡ m.old.world }
    ensures dead { done m.new ≡ with_store (end place (done m.old).store) (done m.old) }
{
    m.end_object(place);
}

/// Notes the side of a branch that a value takes: whether it isn't 0. It fails for want of memory alone.
pub fn branch(at: u32, value: &Value, m: &mut Machine) -> Result<bool, AllocError>
    ensures world { m.new.world ≡ m.old.world }
    ensures branches { Branched result at (worth value.now) (done m.old) (done m.new) }
{
    m.branch(at, value)
}

/// The number of an integer type that a value is converted to.
pub fn wrapped_in(word: WordType, value: Value) -> i128
    ensures { result ≡ wrapped word (worth value) }
{
    value.converted(Class::Integer(kind_of(word))).scalar()
}

/// The first bytes of a text that has at least so many.
fn lay_first(address: u64, size: u64, text: &[u8], m: &mut Machine) -> Result<(), AllocError>
    requires { size ≤ length text.now }
    ensures world { m.new.world ≡ m.old.world }
    ensures lays { OnOk result (done m.new ≡ with_store (lay address size (text_byte text.now) (done m.old).store) (done m.old)) }
{
    m.lay_bytes(address, text.split_at(size as usize).0)
}

/// A text of at most so many bytes, and 0 behind it.
fn lay_whole(address: u64, size: u64, text: &[u8], m: &mut Machine) -> Result<(), AllocError>
    requires { length text.now ≤ size }
    ensures world { m.new.world ≡ m.old.world }
    ensures lays { OnOk result (done m.new ≡ with_store (lay address size (text_byte text.now) (done m.old).store) (done m.old)) }
{
    let count = text.len() as u64;
    let behind = address_behind(address, count)?;
    m.lay_bytes(address, text)?;
    m.zero(behind, size - count)
}

/// Bytes of a text in so many bytes, and 0 behind them. It fails for want of memory alone.
pub fn lay_text(address: u64, size: u64, text: &[u8], m: &mut Machine) -> Result<(), AllocError>
    ensures world { m.new.world ≡ m.old.world }
    ensures lays { OnOk result (done m.new ≡ with_store (lay address size (text_byte text.now) (done m.old).store) (done m.old)) }
{
    if size <= text.len() as u64 {
        lay_first(address, size, text, m)
    } else {
        lay_whole(address, size, text, m)
    }
}

/// The first address of an object.
pub fn start_of(number: u32) -> u64
    ensures { result ≡ start number }
{
    u64::from(number) * (1 << 32)
}

/// An address so many bytes behind another. It fails for want of memory alone: no object leaves the addresses that 64
/// bits count.
pub fn address_behind(start: u64, offset: u64) -> Result<u64, AllocError>
    ensures { IfOk result (λ a. a ≡ start + offset) }
{
    match start.checked_add(offset) {
        Some(address) => Ok(address),
        None => Err(AllocError),
    }
}
