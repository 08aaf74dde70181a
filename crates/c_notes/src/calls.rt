//! What is told of a call, to be judged where the bodies of the source are known.

ghost use Rattle.std.specs.Prelude.{◌≡◌, length, unwrap_or, [], IfOk};
ghost use Rattle.c_means.specs.Calls as runs;
ghost use Rattle.c_means.specs.Rules as rules;
ghost use Rattle.c_notes.specs.CallsTold as spec;

use crate::prelude::prelude_parameters;
use c_checks::{
    body_call, filling_call, filling_function, identity_call, identity_index, is_library_function,
    log_call, log_function,
};
use c_language::{CType, Entry, Name, Tables};
use c_means::{Breach, LogText, Profile};
use plain_data::Bytes;
use std::alloc::{AllocError, Global};

/// The format of a log call: the bytes of its literal, and whether a newline follows what is printed.
#[derive(Drop)]
pub struct LogFormat {
    pub bytes: Bytes,
    pub newline: bool,
}

/// A call by name: the offset of the name; how many arguments it has, where a body of that name in the source runs; the
/// rule that it breaks first where none does; and the format, where it is a log call.
#[derive(Drop)]
pub struct CallNote {
    pub at: u32,
    pub name: Name,
    pub arguments: Option<usize>,
    pub breach: Option<Breach>,
    pub format: Option<LogFormat>,
}

fn outside_call(profile: &Profile, at: u32, name: &[u8], types: &[Option<CType>]) -> Option<Breach>
    ensures { result ≡ spec.outside_least at types.now (rules.fill_of profile.now name.now) }
{
    match filling_function(profile, name) {
        None => None,
        Some(function) => filling_call(at, types, function.buffer, function.length),
    }
}

fn bodiless_call(
    alloc: Global,
    profile: &Profile,
    at: u32,
    tables: &Tables,
    entry: &Entry,
    types: &[Option<CType>],
) -> Result<Option<Breach>, AllocError>
    ensures { IfOk result (λ b. b ≡ spec.bodiless_least profile.now at tables.now entry.now types.now) }
{
    if is_library_function(alloc, tables, entry)? {
        return Ok(None);
    }
    match prelude_parameters(alloc, tables, entry)? {
        Some(parameters) => Ok(body_call(at, types, parameters)),
        None => Ok(outside_call(profile, at, entry.name.get().as_slice(), types)),
    }
}

fn by_body(
    alloc: Global,
    profile: &Profile,
    at: u32,
    tables: &Tables,
    entry: &Entry,
    types: &[Option<CType>],
) -> Result<CallNote, AllocError>
    ensures { IfOk result (λ c. c ≡ spec.open_call at entry.now.name (length types.now) (spec.bodiless_least profile.now at tables.now entry.now types.now)) }
{
    let breach = bodiless_call(alloc, profile, at, tables, entry, types)?;
    Ok(CallNote {
        at,
        name: entry.name.clone()?,
        arguments: Some(types.len()),
        breach,
        format: None,
    })
}

fn judged(
    at: u32,
    entry: &Entry,
    breach: Option<Breach>,
    format: Option<LogFormat>,
) -> Result<CallNote, AllocError>
    ensures { IfOk result (λ c. c ≡ spec.judged_call at entry.now.name breach format) }
{
    Ok(CallNote {
        at,
        name: entry.name.clone()?,
        arguments: None,
        breach,
        format,
    })
}

/// The bytes of a literal, none where there is none.
fn bytes_or_none(text: &Option<Bytes>) -> &[u8]
    ensures { result.now ≡ unwrap_or text.now [] }
{
    match text {
        None => &[],
        Some(bytes) => bytes.as_slice(),
    }
}

/// The bytes of the argument of an index, where it is a literal.
fn literal_at(texts: &[Option<Bytes>], index: u32) -> &[u8]
    ensures { result.now ≡ runs.literal_at texts.now index }
{
    match texts.get(index as usize) {
        None => &[],
        Some(text) => bytes_or_none(text),
    }
}

/// The format of a log call, over the texts of those arguments that are string literals.
fn format_in(alloc: Global, texts: &[Option<Bytes>], log: &LogText) -> Result<LogFormat, AllocError>
    ensures { IfOk result (λ f. f ≡ spec.format_in texts.now log.now) }
{
    match log {
        LogText::Text { format } => Ok(LogFormat {
            bytes: Bytes::from_slice(alloc, format.as_slice())?,
            newline: false,
        }),
        LogText::Format { index, newline } => Ok(LogFormat {
            bytes: Bytes::from_slice(alloc, literal_at(texts, *index))?,
            newline: *newline,
        }),
    }
}

/// What is told of a call of what has this declaration, over the types of its arguments as they are converted and the
/// texts of those that are string literals. It fails for want of memory alone.
pub fn call_note(
    alloc: Global,
    profile: &Profile,
    at: u32,
    tables: &Tables,
    entry: &Entry,
    types: &[Option<CType>],
    texts: &[Option<Bytes>],
) -> Result<CallNote, AllocError>
    ensures { IfOk result (λ c. c ≡ spec.told_call profile.now at tables.now entry.now types.now texts.now) }
{
    let name = entry.name.get().as_slice();
    match log_function(profile, name) {
        Some(function) => {
            let breach = log_call(alloc, at, texts, types, &function.text)?;
            let format = format_in(alloc, texts, &function.text)?;
            judged(at, entry, breach, Some(format))
        }
        None => match identity_index(profile, name) {
            Some(index) => judged(at, entry, identity_call(at, types, index), None),
            None => by_body(alloc, profile, at, tables, entry, types),
        },
    }
}
