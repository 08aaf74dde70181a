//! What a document settles, once no key is faulty: the defaults, with what the keys say.
ghost use Rattle.std.specs.Prelude.{◌≡◌, ◌≤◌, ◌++◌, ◌∷◌, [], codes, IfOk, option_map};
ghost use Rattle.serde_json.specs.Find.{get};
ghost use Rattle.serde_json.specs.View.{view, members_view, items_view};
ghost use Rattle.config_text.specs.Values as spec;

use crate::config::Config;
use c_language::Name;
use c_means::{FillAnswer, FillFunction, IdentityFunction, LogFunction, LogText, Profile};
use plain_data::{Bytes, Items, Shared};
use serde_json::{Map, Value};
use sl_config::Name as Text;
use std::alloc::{AllocError, Global};

/// A number in its range, or another one.
fn number_or(low: u32, high: u32, other: u32, value: Option<&Value>) -> u32
    ensures within { low ≤ other → other ≤ high → (low ≤ result) × (result ≤ high) }
    ensures value { result ≡ spec.number_or low high other (option_map (λ v. view v.now) value.entry) }
{
    match value.and_then(Value::as_u64) {
        Some(n) if u64::from(low) <= n && n <= u64::from(high) => n as u32,
        _ => other,
    }
}

fn is_set(value: Option<&Value>) -> bool
    ensures { result ≡ spec.is_set (option_map (λ v. view v.now) value.entry) }
{
    match value {
        Some(value) => value.as_bool().unwrap_or(false),
        None => false,
    }
}

fn name(alloc: Global, text: &str) -> Result<Name, AllocError>
    ensures { IfOk result (λ name. name ≡ text.now) }
{
    Shared::new(alloc, Bytes::from_slice(alloc, text.as_bytes())?)
}

fn text(alloc: Global, text: &str) -> Result<Bytes, AllocError>
    ensures { IfOk result (λ bytes. bytes ≡ text.now) }
{
    Bytes::from_slice(alloc, text.as_bytes())
}

fn index_in(entry: &Value, key: &str) -> u32
    ensures { result ≡ spec.index_in key.now (view entry.now) }
{
    number_or(0, 15, 0, entry.get(key))
}

fn text_in(value: Option<&Value>) -> Option<&str>
    ensures { option_map (λ s. s.now) result ≡ spec.text_in (option_map (λ v. view v.now) value.entry) }
{
    value.and_then(Value::as_str)
}

// ---- functions

fn log_text(alloc: Global, entry: &Value) -> Result<LogText, AllocError>
    ensures { IfOk result (λ made. made ≡ spec.log_text_of (view entry.now)) }
{
    match text_in(entry.get("text")) {
        Some(format) => Ok(LogText::Text {
            format: text(alloc, format)?,
        }),
        None => Ok(LogText::Format {
            index: index_in(entry, "format"),
            newline: is_set(entry.get("newline")),
        }),
    }
}

fn log_function(alloc: Global, key: &str, entry: &Value) -> Result<LogFunction, AllocError>
    ensures { IfOk result (λ function. function ≡ spec.log_function key.now (view entry.now)) }
{
    let name = name(alloc, key)?;
    let text = log_text(alloc, entry)?;
    Ok(LogFunction { name, text })
}

fn identity_function(
    alloc: Global,
    key: &str,
    entry: &Value,
) -> Result<IdentityFunction, AllocError>
    ensures { IfOk result (λ function. function ≡ spec.identity_function key.now (view entry.now)) }
{
    let index = number_or(0, 15, 0, Some(entry));
    let name = name(alloc, key)?;
    Ok(IdentityFunction { name, index })
}

fn answer_by(text: Option<&str>) -> FillAnswer
    ensures { result ≡ spec.answer_by (option_map (λ s. s.now) text.entry) }
{
    match text {
        Some("count") => FillAnswer::Count,
        _ => FillAnswer::Free,
    }
}

fn fill_function(alloc: Global, key: &str, entry: &Value) -> Result<FillFunction, AllocError>
    ensures { IfOk result (λ function. function ≡ spec.fill_function key.now (view entry.now)) }
{
    let name = name(alloc, key)?;
    Ok(FillFunction {
        name,
        buffer: index_in(entry, "buffer"),
        length: index_in(entry, "length"),
        answer: answer_by(text_in(entry.get("answer"))),
    })
}

// ---- the lists

fn default_log(alloc: Global) -> Result<Items<LogFunction>, AllocError>
    ensures { IfOk result (λ all. all ≡ spec.default_log) }
{
    let mut all = Items::new(alloc);
    put_format(alloc, &mut all, "printf", 0)?;
    put_format(alloc, &mut all, "fprintf", 1)?;
    put_text(alloc, &mut all, "puts", "%s\n")?;
    put_text(alloc, &mut all, "fputs", "%s")?;
    Ok(all)
}

fn put_format(
    alloc: Global,
    all: &mut Items<LogFunction>,
    key: &str,
    index: u32,
) -> Result<(), AllocError>
    ensures { IfOk result (λ _. all.new ≡ all.old ++ spec.of_format key.now index ∷ []) }
{
    let name = name(alloc, key)?;
    let text = LogText::Format {
        index,
        newline: false,
    };
    all.push(LogFunction { name, text })
}

fn put_text(
    alloc: Global,
    all: &mut Items<LogFunction>,
    key: &str,
    format: &str,
) -> Result<(), AllocError>
    ensures { IfOk result (λ _. all.new ≡ all.old ++ spec.of_text key.now format.now ∷ []) }
{
    let name = name(alloc, key)?;
    let format = text(alloc, format)?;
    let text = LogText::Text { format };
    all.push(LogFunction { name, text })
}

fn put_log(
    alloc: Global,
    all: &mut Items<LogFunction>,
    entries: &Map<String, Value>,
) -> Result<(), AllocError>
    ensures { IfOk result (λ _. all.new
        ≡ all.old ++ spec.for_each spec.log_function (members_view entries.now.entries)) }
{
    for (key, entry) in entries {
        all.push(log_function(alloc, key.as_str(), entry)?)?;
    }
    Ok(())
}

fn put_identity(
    alloc: Global,
    all: &mut Items<IdentityFunction>,
    entries: &Map<String, Value>,
) -> Result<(), AllocError>
    ensures { IfOk result (λ _. all.new
        ≡ all.old ++ spec.for_each spec.identity_function (members_view entries.now.entries)) }
{
    for (key, entry) in entries {
        all.push(identity_function(alloc, key.as_str(), entry)?)?;
    }
    Ok(())
}

fn put_fills(
    alloc: Global,
    all: &mut Items<FillFunction>,
    entries: &Map<String, Value>,
) -> Result<(), AllocError>
    ensures { IfOk result (λ _. all.new
        ≡ all.old ++ spec.for_each spec.fill_function (members_view entries.now.entries)) }
{
    for (key, entry) in entries {
        all.push(fill_function(alloc, key.as_str(), entry)?)?;
    }
    Ok(())
}

fn put_names(alloc: Global, all: &mut Items<Name>, values: &[Value]) -> Result<(), AllocError>
    ensures { IfOk result (λ _. all.new ≡ all.old ++ spec.texts_in (items_view values.now)) }
{
    for value in values {
        if let Some(text) = value.as_str() {
            all.push(name(alloc, text)?)?;
        }
    }
    Ok(())
}

/// The members of an object.
fn entries_in(value: Option<&Value>) -> Option<&Map<String, Value>>
    ensures { spec.entries_of (option_map (λ m. members_view m.now.entries) result)
        ≡ spec.entries_in (option_map (λ v. view v.now) value.entry) }
{
    value.and_then(Value::as_object)
}

fn log_functions(alloc: Global, document: &Value) -> Result<Items<LogFunction>, AllocError>
    ensures { IfOk result (λ all. all ≡ spec.log_functions (view document.now)) }
{
    let mut all = default_log(alloc)?;
    match entries_in(document.get("log")) {
        Some(entries) => put_log(alloc, &mut all, entries)?,
        None => {}
    }
    Ok(all)
}

fn identity_functions(
    alloc: Global,
    document: &Value,
) -> Result<Items<IdentityFunction>, AllocError>
    ensures { IfOk result (λ all. all ≡ spec.identity_functions (view document.now)) }
{
    let mut all = Items::new(alloc);
    let name = name(alloc, "gettext")?;
    all.push(IdentityFunction { name, index: 0 })?;
    match entries_in(document.get("identity")) {
        Some(entries) => put_identity(alloc, &mut all, entries)?,
        None => {}
    }
    Ok(all)
}

fn fill_functions(alloc: Global, document: &Value) -> Result<Items<FillFunction>, AllocError>
    ensures { IfOk result (λ all. all ≡ spec.fill_functions (view document.now)) }
{
    let mut all = Items::new(alloc);
    match entries_in(document.get("fills")) {
        Some(entries) => put_fills(alloc, &mut all, entries)?,
        None => {}
    }
    Ok(all)
}

fn never_null(alloc: Global, document: &Value) -> Result<Items<Name>, AllocError>
    ensures { IfOk result (λ all. all ≡ spec.never_null (view document.now)) }
{
    let mut all = Items::new(alloc);
    all.push(name(alloc, "__errno_location")?)?;
    all.push(name(alloc, "strerror")?)?;
    match document.get("never_null").and_then(Value::as_array) {
        Some(values) => put_names(alloc, &mut all, values.as_slice())?,
        None => {}
    }
    Ok(all)
}

// ---- the whole

fn profile(alloc: Global, document: &Value) -> Result<Profile, AllocError>
    ensures { IfOk result (λ profile. profile ≡ spec.profile_of (view document.now)) }
{
    let log = log_functions(alloc, document)?;
    let identity = identity_functions(alloc, document)?;
    let fills = fill_functions(alloc, document)?;
    let never_null = never_null(alloc, document)?;
    Ok(Profile {
        log,
        identity,
        fills,
        never_null,
    })
}

fn prefix(alloc: Global, document: &Value) -> Result<Option<Text>, AllocError>
    ensures { IfOk result (λ prefix. prefix ≡ spec.text_in (get (codes "prefix") (view document.now))) }
{
    match text_in(document.get("prefix")) {
        Some(pattern) => Ok(Some(Text::new(alloc, pattern)?)),
        None => Ok(None),
    }
}

/// What a document settles.
pub(crate) fn config(alloc: Global, document: &Value) -> Result<Config, AllocError>
    ensures ranges { IfOk result spec.InRanges }
    ensures value { IfOk result (λ config. config ≡ spec.config_of (view document.now)) }
{
    let profile = profile(alloc, document)?;
    let prefix = prefix(alloc, document)?;
    Ok(Config {
        profile,
        heap: number_or(1, 4096, 256, document.get("heap")),
        outside: number_or(0, 256, 64, document.get("outside")),
        texts: number_or(1, 1024, 32, document.get("texts")),
        arguments: number_or(1, 8, 2, document.get("arguments")),
        prefix,
        drop_unmatched: is_set(document.get("drop_unmatched")),
    })
}
