//! Values of C as data.
ghost use Rattle.std.specs.Prelude.{◌≡◌, ◌≤◌, ◌<◌, ◌^◌, ◌/◌, ◌%◌, pos, length, IfOk, unsigned_abs};
ghost use Rattle.plain_data.specs.Words.{word, from_bytes, to_bytes};
ghost use Rattle.plain_data.specs.declared.width.Width.TheVariants.{W64};
ghost use Rattle.c_language.specs.Integers.{is_zero};
ghost use Rattle.c_means.specs.Values as values;
ghost use Rattle.c_machine.specs.Worth.{worth, IsNumber, IsScalar};

use crate::objects::bytes_as;
use c_language::Class;
use plain_data::{Bytes, Width, wrap};
use std::alloc::{AllocError, Global};

/// A value: a number or an address, or the bytes of a structure or union, the least first.
#[derive(Drop)]
pub enum Value {
    Number(i128),
    Bytes(Bytes),
}

/// The lowest eight bytes of the number that bytes spell.
fn lowest(bytes: &[u8]) -> u64
    ensures value { result ≡ from_bytes bytes.now % 2 ^ 64 }
    ensures below { from_bytes bytes.now < 256 ^ length bytes.now }
{
    let mut low: u64 = 0;
    let mut left = bytes.len();
    'bytes: while left > 0 {
        left -= 1;
        low = (low % (1 << 56)) * 256 + u64::from(bytes[left]);
    }
    low
}

fn are_zero(bytes: &[u8]) -> bool
    ensures { result ≡ is_zero (pos (from_bytes bytes.now)) }
{
    let mut zero = true;
    let mut left = bytes.len();
    'bytes: while left > 0 {
        left -= 1;
        zero = bytes[left] == 0 && zero;
    }
    zero
}

fn scalar_of(bytes: &[u8]) -> i128
    ensures word { word W64 result ≡ from_bytes bytes.now % 2 ^ 64 }
    ensures zero { is_zero result ≡ is_zero (pos (from_bytes bytes.now)) }
{
    let low = lowest(bytes);
    if low == 0 && !are_zero(bytes) {
        1 << 64
    } else {
        i128::from(low)
    }
}

fn spelled(alloc: Global, number: u128) -> Result<Bytes, AllocError>
    ensures { IfOk result (λ bytes. bytes ≡ to_bytes 16 number) }
{
    let mut bytes = Bytes::new(alloc);
    let mut rest = number;
    let mut left: u32 = 16;
    'bytes: while left > 0 {
        left -= 1;
        bytes.push((rest % 256) as u8)?;
        rest /= 256;
    }
    Ok(bytes)
}

/// Bytes from an offset on, where there are any.
fn behind(bytes: &[u8], offset: u64) -> &[u8]
    ensures { from_bytes result.now ≡ from_bytes bytes.now / 256 ^ offset }
{
    let offset = offset as usize;
    if offset <= bytes.len() {
        bytes.split_at(offset).1
    } else {
        bytes.split_at(bytes.len()).1
    }
}

/// So many bytes, zeros behind those that there are. It fails for want of memory alone.
fn first(alloc: Global, bytes: &[u8], count: u64) -> Result<Bytes, AllocError>
    ensures { IfOk result (λ found. found ≡ to_bytes count (from_bytes bytes.now)) }
{
    let mut found = Bytes::new(alloc);
    let mut rest = bytes;
    let mut left = count;
    'bytes: while left > 0 {
        left -= 1;
        match rest.split_first() {
            Some((byte, more)) => {
                found.push(*byte)?;
                rest = more;
            }
            None => found.push(0)?,
        }
    }
    Ok(found)
}

impl Value {
    /// A number that has the same lowest 64 bits, and is 0 exactly where the value is.
    pub fn scalar(&self) -> i128
        ensures word { word W64 result ≡ word W64 (worth self.now) }
        ensures zero { is_zero result ≡ is_zero (worth self.now) }
        ensures number { IsNumber self.now → result ≡ worth self.now }
    {
        match self {
            Value::Number(number) => *number,
            Value::Bytes(bytes) => scalar_of(bytes.as_slice()),
        }
    }

    /// The value as a 64-bit address.
    pub fn address(&self) -> u64
        ensures { result ≡ values.address (worth self.now) }
    {
        wrap(self.scalar(), Width::W64)
    }

    /// Conversion to a type, as by a cast or an assignment (C99 6.3.1.2, 6.3.1.3, 6.3.2.3).
    pub fn converted(self, class: Class) -> Value
        ensures value { worth result ≡ values.converted_to class (worth self) }
        ensures number { IsScalar class → IsNumber result }
    {
        match class {
            Class::Integer(kind) => Value::Number(kind.convert(self.scalar())),
            Class::Pointer => Value::Number(i128::from(self.address())),
            Class::Void => Value::Number(0),
            Class::Array => self,
            Class::Function => self,
            Class::Floating => self,
            Class::Aggregate(_) => self,
            Class::Opaque => self,
        }
    }

    /// Some of the bytes that the value spells, the least first. It fails for want of memory alone.
    pub fn bytes(&self, alloc: Global, offset: u64, count: u64) -> Result<Bytes, AllocError>
        ensures { IfOk result (λ bytes. bytes ≡ to_bytes count (unsigned_abs (worth self.now) / 256 ^ offset)) }
    {
        match self {
            Value::Number(number) => {
                let all = spelled(alloc, number.unsigned_abs())?;
                first(alloc, behind(all.as_slice(), offset), count)
            }
            Value::Bytes(bytes) => first(alloc, behind(bytes.as_slice(), offset), count),
        }
    }

    /// Whether the value is 0.
    pub fn is_zero(&self) -> bool
        ensures { result ≡ is_zero (worth self.now) }
    {
        self.scalar() == 0
    }

    /// The value of a type that stands in the bytes of this one, from an offset on (C99 6.5.2.3p3). It fails for want
    /// of memory alone.
    pub fn part(
        &self,
        alloc: Global,
        offset: u64,
        class: Class,
        size: Option<u64>,
    ) -> Result<Value, AllocError>
        ensures value { IfOk result (λ v. worth v ≡ values.value_of_bytes class (values.bytes_within offset (values.bytes_as class size) (unsigned_abs (worth self.now)))) }
        ensures number { IfOk result (λ v. IsScalar class → IsNumber v) }
    {
        let bytes = self.bytes(alloc, offset, bytes_as(class, size))?;
        Ok(Value::of_bytes(class, size, bytes))
    }

    /// The value of a type whose bytes these are: a `_Bool` of a byte other than 0 is 1 (C99 6.2.6.1p4).
    pub fn of_bytes(class: Class, size: Option<u64>, bytes: Bytes) -> Value
        requires { length bytes ≡ values.bytes_as class size }
        ensures value { worth result ≡ values.value_of_bytes class (from_bytes bytes) }
        ensures number { IsScalar class → IsNumber result }
    {
        match class {
            Class::Integer(kind) => Value::Number(kind.value_of_word(lowest(bytes.as_slice()))),
            Class::Pointer => Value::Number(i128::from(lowest(bytes.as_slice()))),
            Class::Void => Value::Number(0),
            Class::Array => Value::Bytes(bytes),
            Class::Function => Value::Bytes(bytes),
            Class::Floating => Value::Bytes(bytes),
            Class::Aggregate(_) => Value::Bytes(bytes),
            Class::Opaque => Value::Bytes(bytes),
        }
    }
}
