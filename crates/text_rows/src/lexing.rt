//! Sources, answered by their tokens or by their first fault and where it stands. The table's head says how.
use crate::sources::LONGEST;
use anyhow::{Result, anyhow};
use c_language::{Token, TokenKind};
use c_lexer::{LexFault, lex, locate};
use plain_data::Bytes;
use std::alloc::{AllocError, Global};

/// The file that holds before the first line marker.
const FILE: &str = "a.c";

/// The byte that two hexadecimal digits write.
fn byte_of(alloc: Global, digits: &str) -> Result<u8> {
    match hex::decode(alloc, digits)?.as_slice() {
        [byte] => Ok(*byte),
        _ => Err(anyhow!("no byte")),
    }
}

/// The source that a row writes: `\n` is a newline, `\xHH` a byte, and `\\` a backslash.
fn source_of(alloc: Global, row: &str) -> Result<Bytes> {
    let mut bytes = Bytes::new(alloc);
    let mut pieces = row.split('\\');
    if let Some(first) = pieces.next() {
        bytes.extend_from_slice(first.as_bytes())?;
    }
    while let Some(piece) = pieces.next() {
        if piece.is_empty() {
            bytes.push(b'\\')?;
            bytes.extend_from_slice(pieces.next().unwrap_or("").as_bytes())?;
        } else if let Some(rest) = piece.strip_prefix('n') {
            bytes.push(b'\n')?;
            bytes.extend_from_slice(rest.as_bytes())?;
        } else {
            let (digits, rest) = piece.split_at_checked(3).ok_or(anyhow!("no escape"))?;
            bytes.push(byte_of(alloc, digits.strip_prefix('x').unwrap_or(""))?)?;
            bytes.extend_from_slice(rest.as_bytes())?;
        }
    }
    Ok(bytes)
}

/// A token as the table writes it.
fn token_text(alloc: Global, kind: &TokenKind) -> Result<String> {
    Ok(match kind {
        TokenKind::Identifier(name) => {
            let name = String::from_utf8_lossy(alloc, name.get().as_slice())?;
            format!(in alloc; " id:{name}")?
        }
        TokenKind::Keyword(keyword) => format!(in alloc; " {keyword:?}")?,
        TokenKind::Punctuator(mark) => format!(in alloc; " {mark:?}")?,
        TokenKind::Integer(constant) => {
            let value = constant.value;
            let integer_type = constant.integer_type;
            format!(in alloc; " {value}:{integer_type:?}")?
        }
        TokenKind::Floating => format!(in alloc; " floating")?,
        TokenKind::Character(value) => format!(in alloc; " char:{value}")?,
        TokenKind::StringLiteral(bytes) => {
            let digits = hex::encode(alloc, bytes.get().as_slice())?;
            format!(in alloc; " string:{digits}")?
        }
        TokenKind::WideCharacter => format!(in alloc; " wide-char")?,
        TokenKind::WideString => format!(in alloc; " wide-string")?,
        TokenKind::FunctionName => format!(in alloc; " __func__")?,
    })
}

fn fault_text(alloc: Global, source: &[u8], fault: LexFault) -> Result<String> {
    let (name, at) = match fault {
        LexFault::BadByte(at) => ("BadByte", at),
        LexFault::OpenText(at) => ("OpenText", at),
        LexFault::WideNumber(at) => ("WideNumber", at),
        LexFault::BadConstant(at) => ("BadConstant", at),
        LexFault::BadDirective(at) => ("BadDirective", at),
        LexFault::Memory => return Err(anyhow!(AllocError)),
    };
    if LONGEST < source.len() || source.len() < at as usize {
        return Err(anyhow!("a fault behind the source"));
    }
    let spot = locate(alloc, FILE, source, at)?;
    let file = String::from_utf8_lossy(alloc, spot.file.as_slice())?;
    let (line, column) = (spot.line, spot.column);
    Ok(format!(in alloc; "fault {name} {at} {file} {line} {column}\n")?)
}

/// Tokens as the table writes them.
fn tokens_text(alloc: Global, tokens: &[Token]) -> Result<String> {
    let mut text = String::new(alloc);
    text.push_str("tokens")?;
    for token in tokens {
        text.push_str(token_text(alloc, &token.kind)?.as_str())?;
    }
    text.push('\n')?;
    Ok(text)
}

/// The tokens of a source, or its first fault.
fn answer_source(alloc: Global, source: &[u8]) -> Result<String> {
    if LONGEST < source.len() {
        return Err(anyhow!("the source is too long"));
    }
    match lex(alloc, FILE, source) {
        Ok(tokens) => tokens_text(alloc, tokens.as_slice()),
        Err(fault) => fault_text(alloc, source, fault),
    }
}

/// The tokens of a row's source, or its first fault.
pub fn answer(alloc: Global, row: &str) -> Result<String> {
    let source = source_of(alloc, row)?;
    answer_source(alloc, source.as_slice())
}
