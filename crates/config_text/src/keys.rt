//! The table of keys, and what is wrong with the value of one.
ghost use Rattle.std.specs.Prelude.{◌≡◌, IfOk};
ghost use Rattle.serde_json.specs.View.{view, items_view};
ghost use Rattle.config_text.specs.Keys as spec;

use crate::config::{EntryKind, KeyFault};
use printf_text::{FormatFault, parse_format};
use serde_json::Value;
use std::alloc::{AllocError, Global};

/// The greatest index of an argument.
const MAX_INDEX: u64 = 15;

/// The range of a key that is a number.
pub(crate) fn range_of(key: &str) -> Option<(u64, u64)>
    ensures { result ≡ spec.range_of key.now }
{
    match key {
        "arguments" => Some((1, 8)),
        "heap" => Some((1, 4096)),
        "outside" => Some((0, 256)),
        "texts" => Some((1, 1024)),
        _ => None,
    }
}

/// The kind of the entries of a key that has some.
pub(crate) fn kind_of(key: &str) -> Option<EntryKind>
    ensures { result ≡ spec.kind_of key.now }
{
    match key {
        "fills" => Some(EntryKind::Fill),
        "identity" => Some(EntryKind::Identity),
        "log" => Some(EntryKind::Log),
        _ => None,
    }
}

/// A whole number in a range. What the JSON reader holds as a float is of another type.
pub(crate) fn number_fault(low: u64, high: u64, value: &Value) -> Option<KeyFault>
    ensures { result ≡ spec.number_fault low high (view value.now) }
{
    let Some(number) = value.as_number() else {
        return Some(KeyFault::WrongType);
    };
    if number.is_f64() {
        return Some(KeyFault::WrongType);
    }
    match number.as_u64() {
        Some(n) if low <= n && n <= high => None,
        _ => Some(KeyFault::OutOfRange),
    }
}

/// The index of an argument.
pub(crate) fn index_fault(value: &Value) -> Option<KeyFault>
    ensures { result ≡ spec.index_fault (view value.now) }
{
    number_fault(0, MAX_INDEX, value)
}

pub(crate) fn flag_fault(value: &Value) -> Option<KeyFault>
    ensures { result ≡ spec.flag_fault (view value.now) }
{
    match value.as_bool() {
        Some(_) => None,
        None => Some(KeyFault::WrongType),
    }
}

/// A flag that may only be set.
fn set_fault(value: &Value) -> Option<KeyFault>
    ensures { result ≡ spec.set_fault (view value.now) }
{
    match value.as_bool() {
        Some(true) => None,
        Some(false) => Some(KeyFault::OutOfRange),
        None => Some(KeyFault::WrongType),
    }
}

/// A format that `printf_text` takes.
fn format_fault(alloc: Global, value: &Value) -> Result<Option<KeyFault>, AllocError>
    ensures { IfOk result (λ fault. fault ≡ spec.format_fault (view value.now)) }
{
    let Some(text) = value.as_str() else {
        return Ok(Some(KeyFault::WrongType));
    };
    match parse_format(alloc, text.as_bytes()) {
        Ok(_) => Ok(None),
        Err(FormatFault::Memory) => Err(AllocError),
        Err(_) => Ok(Some(KeyFault::OutOfRange)),
    }
}

fn answer_fault(value: &Value) -> Option<KeyFault>
    ensures { result ≡ spec.answer_fault (view value.now) }
{
    match value.as_str() {
        Some(text) if text == "free" || text == "count" => None,
        Some(_) => Some(KeyFault::OutOfRange),
        None => Some(KeyFault::WrongType),
    }
}

fn are_strings(values: &[Value]) -> bool
    ensures { result ≡ spec.are_strings (items_view values.now) }
{
    for value in values {
        if !value.is_string() {
            return false;
        }
    }
    true
}

/// A list of names.
pub(crate) fn names_fault(value: &Value) -> Option<KeyFault>
    ensures { result ≡ spec.names_fault (view value.now) }
{
    match value.as_array() {
        Some(values) if are_strings(values.as_slice()) => None,
        _ => Some(KeyFault::WrongType),
    }
}

fn whole_fault(is_whole: bool) -> Option<KeyFault>
    ensures { result ≡ spec.whole_fault is_whole }
{
    if is_whole {
        None
    } else {
        Some(KeyFault::WrongType)
    }
}

fn has(entry: &Value, key: &str) -> bool
    ensures { result ≡ spec.has (view entry.now) key.now }
{
    entry.get(key).is_some()
}

fn is_log_entry(entry: &Value) -> bool
    ensures { result ≡ spec.is_log_entry (view entry.now) }
{
    if has(entry, "text") {
        !has(entry, "format") && !has(entry, "newline")
    } else {
        has(entry, "format")
    }
}

fn is_fill_entry(entry: &Value) -> bool
    ensures { result ≡ spec.is_fill_entry (view entry.now) }
{
    has(entry, "buffer") && has(entry, "length")
}

/// What is wrong with an entry as a whole.
pub(crate) fn own_fault(kind: EntryKind, entry: &Value) -> Option<KeyFault>
    ensures { result ≡ spec.own_fault kind (view entry.now) }
{
    match kind {
        EntryKind::Log => whole_fault(is_log_entry(entry)),
        EntryKind::Identity => index_fault(entry),
        EntryKind::Fill => whole_fault(is_fill_entry(entry)),
    }
}

fn log_key_fault(alloc: Global, key: &str, value: &Value) -> Result<Option<KeyFault>, AllocError>
    ensures { IfOk result (λ fault. fault ≡ spec.log_key_fault key.now (view value.now)) }
{
    match key {
        "format" => Ok(index_fault(value)),
        "newline" => Ok(set_fault(value)),
        "text" => format_fault(alloc, value),
        _ => Ok(Some(KeyFault::Unknown)),
    }
}

fn fill_key_fault(key: &str, value: &Value) -> Option<KeyFault>
    ensures { result ≡ spec.fill_key_fault key.now (view value.now) }
{
    match key {
        "answer" => answer_fault(value),
        "buffer" | "length" => index_fault(value),
        _ => Some(KeyFault::Unknown),
    }
}

/// What is wrong with a key of an entry.
pub(crate) fn key_fault(
    alloc: Global,
    kind: EntryKind,
    key: &str,
    value: &Value,
) -> Result<Option<KeyFault>, AllocError>
    ensures { IfOk result (λ fault. fault ≡ spec.key_fault kind key.now (view value.now)) }
{
    match kind {
        EntryKind::Log => log_key_fault(alloc, key, value),
        EntryKind::Identity => Ok(Some(KeyFault::Unknown)),
        EntryKind::Fill => Ok(fill_key_fault(key, value)),
    }
}
