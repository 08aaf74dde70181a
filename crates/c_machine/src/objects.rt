//! Objects read and written (C99 6.3.2.1, 6.5.3.2p4, 6.5.16.1).
ghost use Rattle.std.specs.Prelude.{◌≡◌, ◌≤◌, ◌+◌, ◌^◌, ◌||◌, not, pos, IsTrue, IfOk, OnOk, None, unsigned_abs};
ghost use Rattle.c_language.specs.declared.class.Class.TheVariants as class;
ghost use Rattle.c_store.specs.Store.{offset_of, read, write};
ghost use Rattle.c_store.specs.Access as access;
ghost use Rattle.c_means.specs.Objects as objects;
ghost use Rattle.c_means.specs.Parts.{with_store};
ghost use Rattle.c_means.specs.Values as values;
ghost use Rattle.c_machine.specs.States.{state, RunsWorth};
ghost use Rattle.c_machine.specs.Worth.{worth, IsNumber, IsScalar};

use crate::halt::Halt;
use crate::machine::Machine;
use crate::value::Value;
use c_language::{Class, IntegerKind};
use plain_data::{Undefined, wrap};
use std::alloc::AllocError;

/// How many addresses an object has at most.
const ROOM: u64 = 1 << 32;

/// The bytes of an object, by its type's class and size.
pub fn bytes_as(class: Class, size: Option<u64>) -> u64
    ensures { result ≡ values.bytes_as class size }
{
    match class {
        Class::Integer(kind) => kind.bytes(),
        Class::Pointer => 8,
        Class::Void => 0,
        Class::Array => size.unwrap_or(0),
        Class::Function => size.unwrap_or(0),
        Class::Floating => size.unwrap_or(0),
        Class::Aggregate(_) => size.unwrap_or(0),
        Class::Opaque => size.unwrap_or(0),
    }
}

/// Whether an lvalue of a class is read where its value is wanted (C99 6.3.2.1p2 to p4).
fn is_read(class: Class) -> bool
    ensures { result ≡ objects.is_read class }
{
    match class {
        Class::Integer(_) => true,
        Class::Pointer => true,
        Class::Aggregate(_) => true,
        Class::Floating => true,
        Class::Opaque => true,
        Class::Void => false,
        Class::Array => false,
        Class::Function => false,
    }
}

/// Whether these addresses are all of one number.
pub(crate) fn has_room(address: u64, count: u64) -> bool
    ensures { IsTrue result → offset_of address + count ≤ 2 ^ 32 }
{
    count <= ROOM - address % ROOM
}

impl Machine {
    fn can_load(&self, class: Class, count: u64, rooted: bool, address: u64) -> bool
        ensures { result ≡ rooted || not (objects.is_read class) || access.can_access (state self.now).store address count }
    {
        if rooted {
            return true;
        }
        if is_read(class) {
            self.memory.can_access(address, count)
        } else {
            true
        }
    }

    fn can_reach(&self, count: u64, rooted: bool, address: u64) -> bool
        ensures { result ≡ rooted || access.can_access (state self.now).store address count }
    {
        rooted || self.memory.can_access(address, count)
    }

    fn can_change(&self, count: u64, rooted: bool, address: u64) -> bool
        ensures { result ≡ rooted || access.can_write (state self.now).store address count }
    {
        rooted || self.memory.can_write(address, count)
    }

    /// The number in at most eight bytes.
    pub(crate) fn word_at(&self, address: u64, count: u64) -> Result<u64, AllocError>
        requires { count ≤ 8 }
        ensures { IfOk result (λ word. word ≡ read count (state self.now).store address) }
    {
        if !has_room(address, count) {
            return Err(AllocError);
        }
        Ok(self.memory.load(&self.world, address, count))
    }

    fn integer_at(&self, kind: IntegerKind, address: u64) -> Result<i128, AllocError>
        ensures { IfOk result (λ z. z ≡ objects.value_at (class.Integer kind) (values.bytes_as (class.Integer kind) None) (state self.now).store address) }
    {
        let word = self.word_at(address, kind.bytes())?;
        Ok(kind.value_of_word(word))
    }

    fn bytes_at(&self, address: u64, count: u64) -> Result<Value, AllocError>
        ensures { IfOk result (λ v. worth v ≡ pos (read count (state self.now).store address)) }
    {
        if !has_room(address, count) {
            return Err(AllocError);
        }
        Ok(Value::Bytes(self.memory.bytes(&self.world, address, count)?))
    }

    /// The value of what stands at an address. It fails for want of memory alone: no object leaves the addresses of its
    /// number.
    fn value_at(&self, class: Class, size: Option<u64>, address: u64) -> Result<Value, AllocError>
        ensures value { IfOk result (λ v. worth v ≡ objects.value_at class (values.bytes_as class size) (state self.now).store address) }
        ensures number { IfOk result (λ v. IsScalar class → IsNumber v) }
    {
        match class {
            Class::Integer(kind) => Ok(Value::Number(self.integer_at(kind, address)?)),
            Class::Pointer => Ok(Value::Number(i128::from(self.word_at(address, 8)?))),
            Class::Void => Ok(Value::Number(0)),
            Class::Array => Ok(Value::Number(i128::from(address))),
            Class::Function => Ok(Value::Number(i128::from(address))),
            Class::Floating => self.bytes_at(address, bytes_as(class, size)),
            Class::Aggregate(_) => self.bytes_at(address, bytes_as(class, size)),
            Class::Opaque => self.bytes_at(address, bytes_as(class, size)),
        }
    }

    /// The value of an lvalue at its address, by its type's class and size (C99 6.3.2.1p2). One whose root is a name is
    /// accessed without a test. It fails for want of memory alone.
    pub fn load(
        &mut self,
        class: Class,
        size: Option<u64>,
        at: u32,
        rooted: bool,
        address: u64,
    ) -> Result<Value, Halt>
        ensures world { self.new.world ≡ self.old.world }
        ensures runs { RunsWorth result (state self.new) (objects.load_as class (values.bytes_as class size) at rooted address (state self.old)) }
        ensures number { IfOk result (λ v. IsScalar class → IsNumber v) }
    {
        if !self.can_load(class, bytes_as(class, size), rooted, address) {
            return Err(self.stop(at, Undefined::Dereference));
        }
        Ok(self.value_at(class, size, address)?)
    }

    fn store(&mut self, address: u64, count: u64, word: u64) -> Result<(), AllocError>
        ensures world { self.new.world ≡ self.old.world }
        ensures stores { OnOk result (state self.new ≡ with_store (write count address word (state self.old).store) (state self.old)) }
    {
        if !has_room(address, count) {
            return Err(AllocError);
        }
        self.memory.store(&self.world, address, count, word)
    }

    fn lay(&mut self, address: u64, count: u64, value: &Value) -> Result<(), AllocError>
        ensures world { self.new.world ≡ self.old.world }
        ensures stores { OnOk result (state self.new ≡ with_store (write count address (unsigned_abs (worth value.now)) (state self.old).store) (state self.old)) }
    {
        if !has_room(address, count) {
            return Err(AllocError);
        }
        let bytes = value.bytes(self.alloc, 0, count)?;
        self.memory.lay(&self.world, address, bytes.as_slice())
    }

    fn write(
        &mut self,
        class: Class,
        size: Option<u64>,
        address: u64,
        value: &Value,
    ) -> Result<(), AllocError>
        ensures world { self.new.world ≡ self.old.world }
        ensures stores { OnOk result (state self.new ≡ with_store (write (values.bytes_as class size) address (values.bytes_of_value class (worth value.now)) (state self.old).store) (state self.old)) }
    {
        let count = bytes_as(class, size);
        match class {
            Class::Integer(kind) => self.store(address, count, wrap(value.scalar(), kind.width())),
            Class::Pointer => self.store(address, count, value.address()),
            Class::Void => self.store(address, count, 0),
            Class::Array => self.lay(address, count, value),
            Class::Function => self.lay(address, count, value),
            Class::Floating => self.lay(address, count, value),
            Class::Aggregate(_) => self.lay(address, count, value),
            Class::Opaque => self.lay(address, count, value),
        }
    }

    /// Converts a value to an lvalue's type, of this class and size, and stores it at its address, by the operator that
    /// stands at a token (C99 6.5.16p3, 6.5.16.1p2); what was stored is answered. It fails for want of memory alone.
    pub fn put(
        &mut self,
        class: Class,
        size: Option<u64>,
        at: u32,
        operator: u32,
        rooted: bool,
        address: u64,
        value: Value,
    ) -> Result<Value, Halt>
        ensures world { self.new.world ≡ self.old.world }
        ensures runs { RunsWorth result (state self.new)
            (objects.put_as class (values.bytes_as class size) at operator rooted address (values.converted_to class (worth value)) (state self.old)) }
        ensures number { IfOk result (λ v. IsScalar class → IsNumber v) }
    {
        let count = bytes_as(class, size);
        let value = value.converted(class);
        if !self.can_reach(count, rooted, address) {
            return Err(self.stop(at, Undefined::Dereference));
        }
        if !self.can_change(count, rooted, address) {
            return Err(self.stop(operator, Undefined::LiteralWrite));
        }
        self.write(class, size, address, &value)?;
        Ok(value)
    }
}
