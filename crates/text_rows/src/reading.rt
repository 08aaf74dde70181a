//! What the rows of words, texts and splits have in common.
use anyhow::{Result, anyhow};
use plain_data::{Bytes, Width, wrap};
use printf_text::{Arg, Args};
use std::alloc::Global;
use std::str::SplitWhitespace;

/// The bytes that hexadecimal digits write, `.` for none.
pub fn bytes_of(alloc: Global, digits: &str) -> Result<Bytes> {
    if digits == "." {
        return Ok(Bytes::new(alloc));
    }
    match hex::decode(alloc, digits) {
        Ok(bytes) => Ok(Bytes::from_vec(bytes)),
        Err(_) => Err(anyhow!("no bytes")),
    }
}

/// The bytes of a text in which `\n` is a newline and `\0` the byte 0.
pub fn unescaped(alloc: Global, text: &str) -> Result<Bytes> {
    let mut bytes = Bytes::new(alloc);
    let mut behind = false;
    for byte in text.as_bytes() {
        match (behind, *byte) {
            (false, b'\\') => behind = true,
            (false, byte) => bytes.push(byte)?,
            (true, escape) => {
                bytes.push(match escape {
                    b'n' => b'\n',
                    b'0' => 0,
                    other => other,
                })?;
                behind = false;
            }
        }
    }
    Ok(bytes)
}

/// Bytes as a text in which a newline is written `\n`.
pub fn escaped(alloc: Global, bytes: &[u8]) -> Result<String> {
    let mut text = String::new(alloc);
    for byte in bytes {
        match *byte {
            b'\n' => text.push_str("\\n")?,
            0 => text.push_str("\\0")?,
            byte => text.push(char::from(byte))?,
        }
    }
    Ok(text)
}

/// A row's first line, and the lines after it.
pub fn first_line(row: &str) -> (&str, &str) {
    row.split_once('\n').unwrap_or((row, ""))
}

/// The width with this number of bits.
pub fn width_of(bits: &str) -> Option<Width> {
    match bits {
        "8" => Some(Width::W8),
        "16" => Some(Width::W16),
        "32" => Some(Width::W32),
        "64" => Some(Width::W64),
        _ => None,
    }
}

/// The argument that a word writes: `sN=BITS` or `uN=BITS`, `t=HEX` or `t:TEXT`, `p=NUMBER`, `null`.
fn arg_of(alloc: Global, word: &str) -> Result<Arg> {
    if word == "null" {
        return Ok(Arg::Null);
    }
    if let Some(text) = word.strip_prefix("t:") {
        return Ok(Arg::Text(Bytes::from_slice(alloc, text.as_bytes())?));
    }
    let (kind, value) = word.split_once('=').ok_or(anyhow!("no argument"))?;
    if kind == "t" {
        return Ok(Arg::Text(bytes_of(alloc, value)?));
    }
    let number = value.parse::<u64>().ok().ok_or(anyhow!("no number"))?;
    if kind == "p" {
        return Ok(Arg::Shown(number));
    }
    let width = kind.strip_prefix('s').or(kind.strip_prefix('u'));
    let width = width.and_then(width_of).ok_or(anyhow!("no width"))?;
    Ok(Arg::Word {
        bits: wrap(i128::from(number), width),
        width,
        signed: kind.starts_with('s'),
    })
}

/// The arguments that words write.
pub fn args_of(alloc: Global, words: SplitWhitespace<'_>) -> Result<Args> {
    let mut args = Args::new(alloc);
    for word in words {
        args.push(arg_of(alloc, word)?)?;
    }
    Ok(args)
}
