//! A configuration's text, read.
ghost use Rattle.std.specs.Prelude.{◌≡◌, ◌≢◌, IsUtf8, IfOk, Err, Ok, Some};
ghost use Rattle.serde_json.specs.View.{view};
ghost use Rattle.config_text.specs.Configs as spec;
ghost use Rattle.config_text.specs.Values.{InRanges};

use crate::building::config;
use crate::checking::first_fault;
use crate::config::{Config, ConfigFault};
use log_text::{Prefix, PrefixFault};
use serde_json::{Map, Value};
use std::alloc::{AllocError, Global};

fn is_refused(alloc: Global, pattern: &str) -> Result<bool, AllocError>
    ensures { IfOk result (spec.Judges (Some pattern.now)) }
{
    match Prefix::new(alloc, pattern) {
        Ok(_) => Ok(false),
        Err(PrefixFault::BadPattern) => Ok(true),
        Err(PrefixFault::Memory) => Err(AllocError),
    }
}

/// Whether the document's pattern is none.
fn has_bad_pattern(alloc: Global, document: &Value) -> Result<bool, AllocError>
    ensures { IfOk result (spec.Judges (spec.pattern_in (view document.now))) }
{
    match document.get("prefix").and_then(Value::as_str) {
        Some(pattern) => is_refused(alloc, pattern),
        None => Ok(false),
    }
}

fn config_in(
    alloc: Global,
    refused: bool,
    document: &Value,
) -> Result<Result<Config, ConfigFault>, AllocError>
    ensures ranges { IfOk result (λ said. IfOk said InRanges) }
    ensures value { IfOk result (λ said. said ≡ spec.config_in refused (Some (view document.now))) }
{
    let Some(members) = document.as_object() else {
        return Ok(Err(ConfigFault::NotJson));
    };
    match first_fault(alloc, refused, members)? {
        Some(fault) => Ok(Err(fault)),
        None => Ok(Ok(config(alloc, document)?)),
    }
}

fn said(alloc: Global, document: &Value) -> Result<Result<Config, ConfigFault>, AllocError>
    ensures ranges { IfOk result (λ said. IfOk said InRanges) }
    ensures says { IfOk result (spec.Says (Some (view document.now))) }
{
    let refused = has_bad_pattern(alloc, document)?;
    config_in(alloc, refused, document)
}

/// The configuration that a text writes, in JSON of at most 127 levels (RFC 8259).
///
/// The keys are `log`, `identity`, `fills`, `never_null`, `heap`, `outside`, `texts`, `arguments`, `prefix` and
/// `drop_unmatched`; none has to stand. A fault is that of the first faulty key in the order of bytes, and is unknown
/// before of another type before out of range. The keys of an entry follow the entry, and of two equal keys the last
/// counts.
pub fn read_config(alloc: Global, bytes: &[u8]) -> Result<Config, ConfigFault>
    ensures reads { result ≢ Err ConfigFault.Memory → spec.Reads bytes.now result }
    ensures ranges { IfOk result InRanges }
{
    let document = match Value::from_slice(alloc, bytes) {
        Ok(document) => document,
        Err(error) if error.is_memory() => return Err(ConfigFault::Memory),
        Err(_) => return Err(ConfigFault::NotJson),
    };
    match said(alloc, &document) {
        Ok(said) => said,
        Err(_) => Err(ConfigFault::Memory),
    }
}

/// What holds where there is no configuration. It fails for want of memory alone.
pub fn default_config(alloc: Global) -> Result<Config, AllocError>
    ensures ranges { IfOk result InRanges }
    ensures value { IfOk result (λ made. made ≡ spec.default_config) }
{
    config(alloc, &Value::Object(Map::new(alloc)))
}
