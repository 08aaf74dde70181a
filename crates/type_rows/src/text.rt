//! Words and numbers at the end of a text. Each call fails for want of memory alone.

use c_language::Name;
use plain_data::Bytes;
use std::alloc::AllocError;

/// Puts words at the end.
pub fn put(text: &mut Bytes, words: &str) -> Result<(), AllocError> {
    text.extend_from_slice(words.as_bytes())
}

/// Puts a name at the end.
pub fn put_name(text: &mut Bytes, name: &Name) -> Result<(), AllocError> {
    text.extend_from_slice(name.get().as_slice())
}

/// Puts a count in decimal digits at the end.
pub fn put_count(text: &mut Bytes, count: u128) -> Result<(), AllocError> {
    if 10 <= count {
        put_count(text, count / 10)?;
    }
    text.push(b'0' + (count % 10) as u8)
}

/// Puts a number in decimal digits at the end, with its sign where it is below 0.
pub fn put_value(text: &mut Bytes, value: i128) -> Result<(), AllocError> {
    if value < 0 {
        put(text, "-")?;
    }
    put_count(text, value.unsigned_abs())
}

/// Puts a space and a count at the end.
pub fn put_next(text: &mut Bytes, count: u64) -> Result<(), AllocError> {
    put(text, " ")?;
    put_count(text, u128::from(count))
}
