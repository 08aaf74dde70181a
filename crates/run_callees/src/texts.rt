//! Texts in memory, as `%s` reads them (C99 7.19.6.1p8).
ghost use Rattle.std.specs.Prelude.{◌≡◌, ◌<◌, ◌+◌, ◌^◌, IfOk};
ghost use Rattle.c_machine.specs.States.{state};
ghost use Rattle.c_means.specs.Calls as calls;
ghost use Rattle.run_callees.specs.Reading as reading;

use c_machine::Machine;
use plain_data::Bytes;
use std::alloc::{AllocError, Global};

fn is_spent(most: Option<u64>) -> bool
    ensures { result ≡ reading.is_spent most }
{
    match most {
        Some(left) => left == 0,
        None => false,
    }
}

fn fewer(most: Option<u64>) -> Option<u64>
    ensures { result ≡ reading.fewer most }
{
    match most {
        Some(left) => { if left == 0 { Some(0) } else { Some(left - 1) } }
        None => None,
    }
}

/// The bytes from an address on, up to the first 0, or as many as the precision asks for, where the object has so many
/// bytes left: nothing where it ends before.
fn text_from(
    alloc: Global,
    left: u64,
    most: Option<u64>,
    address: u64,
    m: &Machine,
) -> Result<Option<Bytes>, AllocError>
    requires { address + left < 2 ^ 64 }
    ensures { IfOk result (λ text. text ≡ calls.text_from left most (state m.now).store address) }
{
    let mut text = Bytes::new(alloc);
    let mut rest = left;
    let mut wanted = most;
    let mut place = address;
    'bytes: while !is_spent(wanted) {
        if rest == 0 {
            return Ok(None);
        }
        let byte = m.byte(place)?;
        if byte == 0 {
            return Ok(Some(text));
        }
        text.push(byte)?;
        rest -= 1;
        wanted = fewer(wanted);
        place += 1;
    }
    Ok(Some(text))
}

/// How many bytes of a live object stand from an address on.
fn bytes_left(address: u64, m: &Machine) -> u64
    ensures left { result ≡ calls.bytes_left (state m.now).store address }
    ensures low { address + result < 2 ^ 64 }
{
    match m.object(address / (1 << 32)) {
        Some(object) => {
            let offset = address % (1 << 32);
            let size = u64::from(object.size);
            if offset <= size { size - offset } else { 0 }
        }
        None => 0,
    }
}

/// The text at an address, as far as the precision asks for it: nothing where a byte that it reaches is of no live
/// object. It fails for want of memory alone.
pub(crate) fn read_text(
    alloc: Global,
    most: Option<u64>,
    address: u64,
    m: &Machine,
) -> Result<Option<Bytes>, AllocError>
    ensures { IfOk result (λ text. text ≡ calls.text_at most (state m.now).store address) }
{
    text_from(alloc, bytes_left(address, m), most, address, m)
}
