//! The first faulty key of a document, in the order of the keys' bytes.
ghost use Rattle.std.specs.Prelude.{◌≡◌, IfOk, is_some};
ghost use Rattle.std.specs.Prelude.{option_map};
ghost use Rattle.serde_json.specs.View.{view, members_view};
ghost use Rattle.config_text.specs.Keys as spec;

use crate::config::{ConfigFault, EntryKind, KeyFault};
use crate::keys::{flag_fault, key_fault, kind_of, names_fault, number_fault, own_fault, range_of};
use plain_data::Bytes;
use serde_json::{Map, Value};
use std::alloc::{AllocError, Global};

fn named(alloc: Global, fault: KeyFault, key: &str) -> Result<ConfigFault, AllocError>
    ensures { IfOk result (λ named. named ≡ spec.named fault key.now) }
{
    let name = Bytes::from_slice(alloc, key.as_bytes())?;
    match fault {
        KeyFault::Unknown => Ok(ConfigFault::UnknownKey(name)),
        KeyFault::WrongType => Ok(ConfigFault::WrongType(name)),
        KeyFault::OutOfRange => Ok(ConfigFault::OutOfRange(name)),
    }
}

fn under(
    alloc: Global,
    key: &str,
    fault: Option<KeyFault>,
) -> Result<Option<ConfigFault>, AllocError>
    ensures { IfOk result (λ found. found ≡ spec.under key.now fault) }
{
    match fault {
        Some(fault) => Ok(Some(named(alloc, fault, key)?)),
        None => Ok(None),
    }
}

/// The first fault among the keys of an entry.
fn keys_fault(
    alloc: Global,
    kind: EntryKind,
    members: &Map<String, Value>,
) -> Result<Option<ConfigFault>, AllocError>
    ensures { IfOk result (λ found. found
        ≡ spec.first_fault (λ key value. spec.under key (spec.key_fault kind key value))
        (members_view members.now.entries)) }
{
    for (key, value) in members {
        let key = key.as_str();
        if let Some(fault) = key_fault(alloc, kind, key, value)? {
            return Ok(Some(named(alloc, fault, key)?));
        }
    }
    Ok(None)
}

/// What is wrong with a key of an entry, which needs none.
fn members_fault(
    alloc: Global,
    kind: EntryKind,
    entry: &Value,
) -> Result<Option<ConfigFault>, AllocError>
    ensures { IfOk result (λ found. found
        ≡ spec.first_fault (λ key value. spec.under key (spec.key_fault kind key value))
        (spec.members_in (view entry.now))) }
{
    match entry.as_object() {
        Some(members) => keys_fault(alloc, kind, members),
        None => Ok(None),
    }
}

/// What is wrong with an entry: as a whole, or else with one of its keys.
fn entry_fault(
    alloc: Global,
    kind: EntryKind,
    name: &str,
    entry: &Value,
) -> Result<Option<ConfigFault>, AllocError>
    ensures { IfOk result (λ found. found ≡ spec.entry_fault kind name.now (view entry.now)) }
{
    if let Some(fault) = own_fault(kind, entry) {
        return Ok(Some(named(alloc, fault, name)?));
    }
    members_fault(alloc, kind, entry)
}

fn all_entries_fault(
    alloc: Global,
    kind: EntryKind,
    entries: &Map<String, Value>,
) -> Result<Option<ConfigFault>, AllocError>
    ensures { IfOk result (λ found. found
        ≡ spec.first_fault (spec.entry_fault kind) (members_view entries.now.entries)) }
{
    for (name, entry) in entries {
        if let Some(fault) = entry_fault(alloc, kind, name.as_str(), entry)? {
            return Ok(Some(fault));
        }
    }
    Ok(None)
}

fn entries_fault(
    alloc: Global,
    kind: EntryKind,
    key: &str,
    value: &Value,
) -> Result<Option<ConfigFault>, AllocError>
    ensures { IfOk result (λ found. found ≡ spec.entries_fault kind key.now (view value.now)) }
{
    match value.as_object() {
        Some(entries) => all_entries_fault(alloc, kind, entries),
        None => under(alloc, key, Some(KeyFault::WrongType)),
    }
}

fn pattern_fault(
    alloc: Global,
    refused: bool,
    key: &str,
    value: &Value,
) -> Result<Option<ConfigFault>, AllocError>
    ensures { IfOk result (λ found. found ≡ spec.pattern_fault refused key.now (view value.now)) }
{
    match value.as_str() {
        Some(_) if refused => Ok(Some(ConfigFault::BadPattern)),
        Some(_) => Ok(None),
        None => under(alloc, key, Some(KeyFault::WrongType)),
    }
}

fn other_fault(
    alloc: Global,
    refused: bool,
    key: &str,
    value: &Value,
) -> Result<Option<ConfigFault>, AllocError>
    ensures { IfOk result (λ found. found ≡ spec.other_fault refused key.now (view value.now)) }
{
    match key {
        "drop_unmatched" => under(alloc, key, flag_fault(value)),
        "never_null" => under(alloc, key, names_fault(value)),
        "prefix" => pattern_fault(alloc, refused, key, value),
        _ => under(alloc, key, Some(KeyFault::Unknown)),
    }
}

/// What is wrong with a key of the whole, or with what stands under it. `refused`: its pattern is none.
#[tactic(auto, unfolding(crate::specs::Keys::setting_fault))]
fn setting_fault(
    alloc: Global,
    refused: bool,
    key: &str,
    value: &Value,
) -> Result<Option<ConfigFault>, AllocError>
    ensures { IfOk result (λ found. found ≡ spec.setting_fault refused key.now (view value.now)) }
{
    if let Some((low, high)) = range_of(key) {
        return under(alloc, key, number_fault(low, high, value));
    }
    match kind_of(key) {
        Some(kind) => entries_fault(alloc, kind, key, value),
        None => other_fault(alloc, refused, key, value),
    }
}

/// The first fault among the keys of the whole.
pub(crate) fn first_fault(
    alloc: Global,
    refused: bool,
    members: &Map<String, Value>,
) -> Result<Option<ConfigFault>, AllocError>
    ensures { IfOk result (λ found. found
        ≡ spec.first_fault (spec.setting_fault refused) (members_view members.now.entries)) }
{
    for (word, value) in members {
        if let Some(fault) = setting_fault(alloc, refused, word.as_str(), value)? {
            return Ok(Some(fault));
        }
    }
    Ok(None)
}
