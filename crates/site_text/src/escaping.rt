//! Formats as they are shown. All fail for want of memory alone.
ghost use Rattle.std.specs.Prelude.{◌≡◌, ◌≤◌, ◌++◌, length, IfOk};
ghost use Rattle.std.specs.List.{flat_map};
ghost use Rattle.printf_text.specs.Pieces.{format_text};
ghost use Rattle.site_text.specs.Shown as spec;

use plain_data::Bytes;
use source_sites::LogFormat;
use std::alloc::AllocError;

/// Whether a byte is shown as it is: one from 32 to 126 that is no backslash.
fn is_plain(byte: u8) -> bool
    ensures { result ≡ spec.is_plain byte }
{
    32 <= byte && byte <= 126 && byte != b'\\'
}

/// A hexadecimal digit, in lower case.
fn hex_digit(value: u8) -> u8
    requires { value ≤ 15 }
    ensures { result ≡ spec.hex_digit value }
{
    if value < 10 {
        b'0' + value
    } else {
        b'W' + value
    }
}

/// Puts a byte as it is shown at the end of a text.
fn put_byte(text: &mut Bytes, byte: u8) -> Result<(), AllocError>
    ensures { IfOk result (λ _. text.new ≡ text.old ++ spec.shown_byte byte) }
{
    if is_plain(byte) {
        return text.push(byte);
    }
    text.extend_from_slice(b"\\x")?;
    text.push(hex_digit(byte / 16))?;
    text.push(hex_digit(byte % 16))
}

/// Puts bytes as they are shown at the end of a text.
fn put_bytes(text: &mut Bytes, bytes: &[u8]) -> Result<(), AllocError>
    ensures { IfOk result (λ _. text.new ≡ text.old ++ flat_map spec.shown_byte bytes.now) }
{
    for byte in bytes {
        put_byte(text, *byte)?;
    }
    Ok(())
}

/// How many bytes stand before the first byte 0.
fn text_len(bytes: &[u8]) -> usize
    ensures value { result ≡ spec.text_len bytes.now }
    ensures within { result ≤ length bytes.now }
{
    bytes.iter().take_while(|b| **b != 0).count()
}

/// The bytes before the first byte 0.
fn text_of(bytes: &[u8]) -> &[u8]
    ensures { result.now ≡ format_text bytes.now }
{
    bytes.split_at(text_len(bytes)).0
}

/// Puts the newline that is added, as it is shown.
fn put_newline(text: &mut Bytes, newline: bool) -> Result<(), AllocError>
    ensures { IfOk result (λ _. text.new ≡ text.old ++ spec.shown_newline newline) }
{
    if newline {
        return text.extend_from_slice(b"\\x0a");
    }
    Ok(())
}

/// Puts a format as it is shown at the end of a text.
pub(crate) fn put_format(text: &mut Bytes, format: &LogFormat) -> Result<(), AllocError>
    ensures { IfOk result (λ _. text.new ≡ text.old ++ spec.shown_format format.now) }
{
    put_bytes(text, text_of(format.bytes.as_slice()))?;
    put_newline(text, format.newline)
}
