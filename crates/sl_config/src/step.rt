//! One word after the other.
ghost use Rattle.std.specs.Prelude.{◌≡◌, ◌≢◌, Err, option_map};
ghost use Rattle.sl_config.specs.Words as spec;

use crate::given::{Flag, Given, Setting};
use crate::job::{Command, WordsFault};
use crate::name::Name;
use crate::numbers::number_in;
use crate::table::{flag_named, places, setting_named, takes, takes_flag};
use std::alloc::Global;

fn with_place(
    alloc: Global,
    command: Command,
    mut given: Given,
    word: &str,
) -> Result<Given, WordsFault>
    ensures { result ≢ Err WordsFault.Memory → result ≡ spec.with_place command given word.now }
{
    if word.is_empty() || given.places.len() >= places(command) {
        return Err(WordsFault::Usage);
    }
    given.places.push(Name::new(alloc, word)?)?;
    Ok(given)
}

fn has(given: &Given, setting: Setting) -> bool
    ensures { result ≡ spec.has given.now setting }
{
    match setting {
        Setting::Config => given.config.is_some(),
        Setting::Turns => given.turns.is_some(),
        Setting::Depth => given.depth.is_some(),
        Setting::Conflicts => given.conflicts.is_some(),
        Setting::Cert => given.cert.is_some(),
    }
}

fn may_come(command: Command, given: &Given, setting: Setting) -> bool
    ensures { result ≡ spec.may_come command given.now setting }
{
    takes(command, setting) && !has(given, setting)
}

fn with_turns(mut given: Given, value: Option<u32>) -> Result<Given, WordsFault>
    ensures { result ≡ spec.with_turns given value }
{
    let Some(turns) = value else {
        return Err(WordsFault::Usage);
    };
    given.turns = Some(turns);
    Ok(given)
}

fn with_depth(mut given: Given, value: Option<u32>) -> Result<Given, WordsFault>
    ensures { result ≡ spec.with_depth given value }
{
    let Some(depth) = value else {
        return Err(WordsFault::Usage);
    };
    given.depth = Some(depth);
    Ok(given)
}

fn with_conflicts(mut given: Given, value: Option<u32>) -> Result<Given, WordsFault>
    ensures { result ≡ spec.with_conflicts given value }
{
    let Some(conflicts) = value else {
        return Err(WordsFault::Usage);
    };
    given.conflicts = Some(conflicts);
    Ok(given)
}

fn with_value(
    alloc: Global,
    mut given: Given,
    setting: Setting,
    value: &str,
) -> Result<Given, WordsFault>
    ensures { result ≢ Err WordsFault.Memory → result ≡ spec.with_value given setting value.now }
{
    match setting {
        Setting::Turns => with_turns(given, number_in(1, 64, value.as_bytes())),
        Setting::Depth => with_depth(given, number_in(1, 16, value.as_bytes())),
        Setting::Conflicts => with_conflicts(given, number_in(1, 200_000, value.as_bytes())),
        Setting::Config => {
            given.config = Some(Name::new(alloc, value)?);
            Ok(given)
        }
        Setting::Cert => {
            given.cert = Some(Name::new(alloc, value)?);
            Ok(given)
        }
    }
}

fn with_setting(
    alloc: Global,
    command: Command,
    given: Given,
    setting: Setting,
    value: &str,
) -> Result<Given, WordsFault>
    ensures { result ≢ Err WordsFault.Memory → result ≡ spec.with_setting command given setting value.now }
{
    if !may_come(command, &given, setting) || value.is_empty() {
        return Err(WordsFault::Usage);
    }
    with_value(alloc, given, setting, value)
}

fn with_wanted(command: Command, mut given: Given, setting: Setting) -> Result<Given, WordsFault>
    ensures { result ≡ spec.with_wanted command given setting }
{
    if !may_come(command, &given, setting) {
        return Err(WordsFault::Usage);
    }
    given.waits = Some(setting);
    Ok(given)
}

fn flag_given(given: &Given, flag: Flag) -> bool
    ensures { result ≡ spec.flag_given given.now flag }
{
    match flag {
        Flag::ByLine => given.by_line,
        Flag::Json => given.json,
    }
}

fn with_flag(command: Command, mut given: Given, flag: Flag) -> Result<Given, WordsFault>
    ensures { result ≡ spec.with_flag command given flag }
{
    if !takes_flag(command, flag) || flag_given(&given, flag) {
        return Err(WordsFault::Usage);
    }
    match flag {
        Flag::ByLine => given.by_line = true,
        Flag::Json => given.json = true,
    }
    Ok(given)
}

fn with_bare_name(command: Command, given: Given, name: &str) -> Result<Given, WordsFault>
    ensures { result ≡ spec.with_bare_name command given name.now }
{
    match (flag_named(name), setting_named(name)) {
        (Some(flag), _) => with_flag(command, given, flag),
        (None, Some(setting)) => with_wanted(command, given, setting),
        (None, None) => Err(WordsFault::Usage),
    }
}

/// The bytes before the first `=`, and those behind it, if there is one.
fn name_and_value(word: &str) -> (&str, Option<&str>)
    ensures { (result.0.now, option_map (λ s. s.now) result.1) ≡ spec.name_and_value word.now }
{
    match word.split_once('=') {
        Some((name, value)) => (name, Some(value)),
        None => (word, None),
    }
}

fn with_name(
    alloc: Global,
    command: Command,
    given: Given,
    name: &str,
    value: Option<&str>,
) -> Result<Given, WordsFault>
    ensures { result ≢ Err WordsFault.Memory → result ≡ spec.with_name command given name.now (option_map (λ s. s.now) value.entry) }
{
    let Some(value) = value else {
        return with_bare_name(command, given, name);
    };
    match setting_named(name) {
        Some(setting) => with_setting(alloc, command, given, setting, value),
        None => Err(WordsFault::Usage),
    }
}

fn is_dashed(word: &str) -> bool
    ensures { result ≡ spec.is_dashed word.now }
{
    let bytes = word.as_bytes();
    1 < bytes.len() && bytes[0] == b'-'
}

/// What stands behind a first `-`.
fn behind_hyphen(word: &str) -> Option<&str>
    ensures { option_map (λ s. s.now) result ≡ spec.behind_hyphen word.now }
{
    word.strip_prefix('-')
}

/// What stands behind a first `--`.
fn behind_hyphens(word: &str) -> Option<&str>
    ensures { option_map (λ s. s.now) result ≡ spec.behind_hyphens word.now }
{
    behind_hyphen(behind_hyphen(word)?)
}

#[tactic(auto, unfolding(crate::specs::Words::with_option))]
fn with_option(
    alloc: Global,
    command: Command,
    given: Given,
    word: &str,
) -> Result<Given, WordsFault>
    ensures { result ≢ Err WordsFault.Memory → result ≡ spec.with_option command given word.now }
{
    let Some(option) = behind_hyphens(word) else {
        return Err(WordsFault::Usage);
    };
    let (name, value) = name_and_value(option);
    with_name(alloc, command, given, name, value)
}

fn with_free_word(
    alloc: Global,
    command: Command,
    mut given: Given,
    word: &str,
) -> Result<Given, WordsFault>
    ensures { result ≢ Err WordsFault.Memory → result ≡ spec.with_free_word command given word.now }
{
    if word == "--" {
        given.trailing = true;
        return Ok(given);
    }
    if is_dashed(word) {
        with_option(alloc, command, given, word)
    } else {
        with_place(alloc, command, given, word)
    }
}

/// One word more.
#[tactic(auto, unfolding(crate::specs::Words::with_word))]
pub(crate) fn with_word(
    alloc: Global,
    command: Command,
    mut given: Given,
    word: &str,
) -> Result<Given, WordsFault>
    ensures { result ≢ Err WordsFault.Memory → result ≡ spec.with_word command given word.now }
{
    if given.trailing {
        return with_place(alloc, command, given, word);
    }
    let Some(setting) = given.waits else {
        return with_free_word(alloc, command, given, word);
    };
    if is_dashed(word) {
        return Err(WordsFault::Usage);
    }
    given.waits = None;
    with_setting(alloc, command, given, setting, word)
}
