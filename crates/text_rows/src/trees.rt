//! Sources, answered by the text of their syntax tree, which is that of `tree_text`. A source that no tree derives is
//! answered by `fault NAME K`, where K is the number of a token, counted from 0, and one that isn't tokens by
//! `lexical NAME AT`, where AT is an offset in bytes.
use crate::sources::{LONGEST, tokens_of};
use anyhow::{Result, anyhow};
use c_language::Tokens;
use c_lexer::{LexFault, lex};
use c_parser::{ParseFault, discard, parse};
use plain_data::Bytes;
use std::alloc::{AllocError, Global};
use tree_text::{placed_text, unit_text};

fn bytes_of(text: String) -> Bytes {
    Bytes::from_vec(text.into_bytes())
}

fn lexical(alloc: Global, fault: LexFault) -> Result<Bytes> {
    let (name, at) = match fault {
        LexFault::BadByte(at) => ("BadByte", at),
        LexFault::OpenText(at) => ("OpenText", at),
        LexFault::WideNumber(at) => ("WideNumber", at),
        LexFault::BadConstant(at) => ("BadConstant", at),
        LexFault::BadDirective(at) => ("BadDirective", at),
        LexFault::Memory => return Err(anyhow!(AllocError)),
    };
    Ok(bytes_of(format!(in alloc; "lexical {name} {at}\n")?))
}

fn syntactic(alloc: Global, fault: ParseFault) -> Result<Bytes> {
    let (name, token) = match fault {
        ParseFault::Syntax(token) => ("Syntax", token),
        ParseFault::TooDeep(token) => ("TooDeep", token),
        ParseFault::Memory => return Err(anyhow!(AllocError)),
    };
    Ok(bytes_of(format!(in alloc; "fault {name} {token}\n")?))
}

fn tree_of(alloc: Global, tokens: &Tokens) -> Result<Bytes> {
    match parse(alloc, tokens) {
        Ok(unit) => {
            let text = unit_text(alloc, unit.externals.as_slice());
            discard(unit);
            Ok(text?)
        }
        Err(fault) => syntactic(alloc, fault),
    }
}

/// The text of a source's tree, or of the fault for which it has none.
pub fn text_of(alloc: Global, source: &[u8]) -> Result<Bytes> {
    if LONGEST < source.len() {
        return Err(anyhow!("the source is too long"));
    }
    match lex(alloc, "source", source) {
        Ok(tokens) => tree_of(alloc, &tokens),
        Err(fault) => lexical(alloc, fault),
    }
}

/// The text of a row's tree, or its fault.
pub fn answer(alloc: Global, row: &str) -> Result<String> {
    let text = text_of(alloc, row.as_bytes())?;
    Ok(String::from_utf8_lossy(alloc, text.as_slice())?)
}

/// The name of a row's fault.
pub fn answer_fault(alloc: Global, row: &str) -> Result<String> {
    let answer = answer(alloc, row)?;
    let mut words = answer.split(' ');
    let word = words.next().unwrap_or("");
    let name = words.next().unwrap_or("");
    Ok(format!(in alloc; "{word} {name}\n")?)
}

/// The text of the tree of tokens, with the places of its nodes.
fn placed_of(alloc: Global, tokens: &Tokens) -> Result<Bytes> {
    let unit = parse(alloc, tokens)?;
    let text = placed_text(alloc, unit.externals.as_slice());
    discard(unit);
    Ok(text?)
}

/// The text of a source's tree, with the places of its nodes.
fn placed_in(alloc: Global, source: &[u8]) -> Result<Bytes> {
    let tokens = tokens_of(alloc, source)?;
    placed_of(alloc, &tokens)
}

/// The text of a row's tree, with the places of its nodes.
pub fn answer_placed(alloc: Global, row: &str) -> Result<String> {
    let text = placed_in(alloc, row.as_bytes())?;
    Ok(String::from_utf8_lossy(alloc, text.as_slice())?)
}
