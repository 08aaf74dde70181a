//! What calls break by the rule that they follow: calls of log functions, identity functions, functions with a body,
//! and functions that fill a buffer. The types are those of the arguments as they are converted.

ghost use Rattle.std.specs.Prelude.{◌≡◌, suc, drop, None, IfOk, slice_get, unwrap_or};
ghost use Rattle.std.specs.Option.{option_copied};
ghost use Rattle.printf_text.specs.Pieces.{pieces_of};
ghost use Rattle.c_language.specs.Types as types_;
ghost use Rattle.c_means.specs.Checks as checks;
ghost use Rattle.c_checks.specs.Refusals.{least_of};
ghost use Rattle.c_checks.specs.Calls as spec;

use crate::statements::mismatch_if;
use c_language::{CType, Class};
use c_means::{Breach, BrokenRule, LogText};
use plain_data::Bytes;
use printf_text::{FormatFault, Kind, kinds, parse_format};
use std::alloc::{AllocError, Global};

// ---- arguments

fn is_integer(argument: &Option<CType>) -> bool
    ensures { result ≡ checks.meets types_.is_integer argument.now }
{
    match argument {
        None => false,
        Some(ctype) => ctype.class().is_integer(),
    }
}

fn is_pointer(argument: &Option<CType>) -> bool
    ensures { result ≡ checks.meets types_.is_pointer argument.now }
{
    match argument {
        None => false,
        Some(ctype) => matches!(ctype.class(), Class::Pointer),
    }
}

fn is_scalar(argument: &Option<CType>) -> bool
    ensures { result ≡ checks.meets types_.is_scalar argument.now }
{
    match argument {
        None => false,
        Some(ctype) => ctype.class().is_scalar(),
    }
}

fn is_integer_at(types: &[Option<CType>], index: u32) -> bool
    ensures { result ≡ checks.meets types_.is_integer (checks.type_at types.now index) }
{
    match types.get(index as usize) {
        None => false,
        Some(argument) => is_integer(argument),
    }
}

fn is_pointer_at(types: &[Option<CType>], index: u32) -> bool
    ensures { result ≡ checks.meets types_.is_pointer (checks.type_at types.now index) }
{
    match types.get(index as usize) {
        None => false,
        Some(argument) => is_pointer(argument),
    }
}

fn is_scalar_at(types: &[Option<CType>], index: u32) -> bool
    ensures { result ≡ checks.meets types_.is_scalar (checks.type_at types.now index) }
{
    match types.get(index as usize) {
        None => false,
        Some(argument) => is_scalar(argument),
    }
}

// ---- identity functions, bodies and filled buffers

/// What a call of an identity function breaks, by the index of what it hands on, which is a scalar.
pub fn identity_call(at: u32, types: &[Option<CType>], index: u32) -> Option<Breach>
    ensures { result ≡ least_of (spec.identity_breaches at types.now index) }
{
    mismatch_if(!is_scalar_at(types, index), at)
}

/// What a call of a function with a body of so many parameters breaks: it has as many arguments, whatever the
/// declaration in force says (C99 6.5.2.2p6).
pub fn body_call(at: u32, types: &[Option<CType>], parameters: usize) -> Option<Breach>
    ensures { result ≡ least_of (spec.body_breaches at types.now parameters) }
{
    mismatch_if(!(parameters == types.len()), at)
}

/// What a call that fills a buffer breaks, by the indices of the buffer and of its length.
pub fn filling_call(at: u32, types: &[Option<CType>], buffer: u32, length: u32) -> Option<Breach>
    ensures { result ≡ least_of (spec.fill_breaches at types.now buffer length) }
{
    mismatch_if(
        !(is_pointer_at(types, buffer) && is_integer_at(types, length)),
        at,
    )
}

// ---- log functions

fn is_of_kind(kind: Kind, argument: &Option<CType>) -> bool
    ensures { result ≡ checks.is_of_kind kind argument.now }
{
    match kind {
        Kind::Integer => is_integer(argument),
        Kind::Text => is_pointer(argument),
        Kind::Pointer => is_pointer(argument),
    }
}

/// Whether there is an argument for each kind (C99 7.19.6.1p2).
fn are_of_kinds(kinds: &[Kind], types: &[Option<CType>]) -> bool
    ensures { result ≡ checks.are_of_kinds kinds.now types.now }
{
    let mut rest = types;
    for kind in kinds {
        match rest.split_first() {
            None => return false,
            Some((argument, more)) => {
                if !is_of_kind(*kind, argument) {
                    return false;
                }
                rest = more;
            }
        }
    }
    true
}

fn pieces_breach(
    alloc: Global,
    at: u32,
    format: &[u8],
    types: &[Option<CType>],
) -> Result<Option<Breach>, AllocError>
    ensures { IfOk result (λ b. b ≡ least_of (checks.pieces_breaches at (pieces_of format.now) types.now)) }
{
    match parse_format(alloc, format) {
        Ok(pieces) => {
            let kinds = kinds(alloc, &pieces)?;
            if are_of_kinds(kinds.as_slice(), types) {
                Ok(None)
            } else {
                Ok(Some(Breach {
                    at,
                    rule: BrokenRule::FormatArgument,
                }))
            }
        }
        Err(FormatFault::Unsupported(offset)) => Ok(Some(Breach {
            at,
            rule: BrokenRule::Format(FormatFault::Unsupported(offset)),
        })),
        Err(FormatFault::Truncated(offset)) => Ok(Some(Breach {
            at,
            rule: BrokenRule::Format(FormatFault::Truncated(offset)),
        })),
        Err(FormatFault::Memory) => Err(AllocError),
    }
}

fn literal_breach(
    alloc: Global,
    at: u32,
    text: &Option<Bytes>,
    types: &[Option<CType>],
) -> Result<Option<Breach>, AllocError>
    ensures { IfOk result (λ b. b ≡ least_of (checks.literal_breaches at text.now types.now)) }
{
    match text {
        None => Ok(Some(Breach {
            at,
            rule: BrokenRule::FormatNotLiteral,
        })),
        Some(text) => pieces_breach(alloc, at, text.as_slice(), types),
    }
}

/// The arguments behind an index.
fn behind(types: &[Option<CType>], index: u32) -> &[Option<CType>]
    ensures { result.now ≡ drop (suc index) types.now }
{
    let index = index as usize;
    let count = types.len();
    if index < count {
        types.split_at(index + 1).1
    } else {
        types.split_at(count).1
    }
}

/// What a call of a log function breaks, by the texts of those arguments that are string literals: its format is one,
/// and is read, and has an argument of its kind for each that it takes. It fails for want of memory alone.
pub fn log_call(
    alloc: Global,
    at: u32,
    texts: &[Option<Bytes>],
    types: &[Option<CType>],
    log: &LogText,
) -> Result<Option<Breach>, AllocError>
    ensures { IfOk result (λ b. b ≡ least_of (spec.log_breaches at texts.now types.now log.now)) }
{
    match log {
        LogText::Text { format } => pieces_breach(alloc, at, format.as_slice(), types),
        LogText::Format { index, .. } => {
            let types = behind(types, *index);
            match texts.get(*index as usize) {
                None => literal_breach(alloc, at, &None, types),
                Some(text) => literal_breach(alloc, at, text, types),
            }
        }
    }
}
