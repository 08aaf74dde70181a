//! Files got, and what they hold.
ghost use Rattle.std.specs.Prelude.{◌≡◌, ◌≤◌, length, option_map, IfOk, IfErr};
ghost use Rattle.log_text.specs.Patterns.{prefix_pattern};
ghost use Rattle.sherlog.specs.Causes.{IsPatternOf};
ghost use Rattle.sherlog.specs.declared.refusal.Refusal.TheVariants.{Memory as MemoryRefusal};
ghost use Rattle.sherlog.specs.Inputs.{asked_in};
ghost use Rattle.sherlog.specs.Stages.{Configures, Fetches, GetsLog, Parses, ReadsWorldFile, Strips, config_refusal, world_refusal};

use crate::refusal::{InputFile, Refusal};
use crate::request::Request;
use crate::source::read_unit;
use c_language::Unit;
use cert_text::{CertFault, read_world};
use config_text::{Config, ConfigFault, default_config, read_config};
use log_text::{LogFault, LogText, Prefix, strip};
use plain_data::{Bytes, World};
use sl_config::Name;
use sl_io::{GetFault, Shelf};
use std::alloc::Global;

/// A source that was got: the configuration in force, the source's bytes and their unit.
#[derive(Drop)]
pub struct Parsed {
    pub config: Config,
    pub bytes: Bytes,
    pub unit: Unit,
}

/// Gets a file of the command, within its limit.
pub fn fetch<H: Shelf>(
    alloc: Global,
    request: &Request<'_>,
    file: InputFile,
    shelf: &mut H,
) -> Result<Bytes, Refusal>
    ensures { Fetches (asked_in request.now) file (H.state shelf.old) (H.state shelf.new) result }
{
    match shelf.get(alloc, file.name(request), file.limit()) {
        Ok(bytes) => Ok(bytes),
        Err(GetFault::Failed) => Err(Refusal::Fault),
        Err(GetFault::TooLong) => Err(Refusal::TooLong(file)),
        Err(GetFault::Memory) => Err(Refusal::Memory),
    }
}

fn refusal_of_config(fault: ConfigFault) -> Refusal
    ensures { result ≡ config_refusal fault }
{
    match fault {
        ConfigFault::Memory => Refusal::Memory,
        ConfigFault::NotJson => Refusal::BadConfig(ConfigFault::NotJson),
        ConfigFault::UnknownKey(key) => Refusal::BadConfig(ConfigFault::UnknownKey(key)),
        ConfigFault::WrongType(key) => Refusal::BadConfig(ConfigFault::WrongType(key)),
        ConfigFault::OutOfRange(key) => Refusal::BadConfig(ConfigFault::OutOfRange(key)),
        ConfigFault::BadPattern => Refusal::BadConfig(ConfigFault::BadPattern),
    }
}

/// The configuration in force.
fn configuration<H: Shelf>(
    alloc: Global,
    request: &Request<'_>,
    shelf: &mut H,
) -> Result<Config, Refusal>
    ensures { Configures (asked_in request.now) (H.state shelf.old) (H.state shelf.new) result }
{
    match request.config {
        None => Ok(default_config(alloc)?),
        Some(_) => {
            let text = fetch(alloc, request, InputFile::Config, shelf)?;
            match read_config(alloc, text.as_slice()) {
                Ok(config) => Ok(config),
                Err(fault) => Err(refusal_of_config(fault)),
            }
        }
    }
}

/// Gets and reads the configuration and the source.
pub fn read_source<H: Shelf>(
    alloc: Global,
    request: &Request<'_>,
    shelf: &mut H,
) -> Result<Parsed, Refusal>
    ensures { Parses (asked_in request.now) (H.state shelf.old) (H.state shelf.new) result }
{
    let config = configuration(alloc, request, shelf)?;
    let bytes = fetch(alloc, request, InputFile::Source, shelf)?;
    let unit = read_unit(alloc, request.source, bytes.as_slice())?;
    Ok(Parsed {
        config,
        bytes,
        unit,
    })
}

/// The pattern of a configuration's prefix; a configuration's text is one.
fn pattern_of(alloc: Global, prefix: &Option<Name>) -> Result<Option<Prefix>, Refusal>
    ensures pattern { IfOk result (λ found. IsPatternOf prefix.now (option_map (λ p. prefix_pattern p) found)) }
    ensures refused { IfErr result (λ r. r ≡ MemoryRefusal) }
{
    match prefix {
        None => Ok(None),
        Some(text) => match Prefix::new(alloc, text.as_str()) {
            Ok(pattern) => Ok(Some(pattern)),
            Err(_) => Err(Refusal::Memory),
        },
    }
}

/// A log without the prefixes of its lines, where it has no more lines than are followed.
fn strip_log(
    alloc: Global,
    bytes: &[u8],
    prefix: &Option<Name>,
    drops: bool,
) -> Result<LogText, Refusal>
    requires { length bytes.now ≤ 65536 }
    ensures { Strips prefix.now drops bytes.now result }
{
    let pattern = pattern_of(alloc, prefix)?;
    match strip(alloc, bytes, pattern.as_ref(), drops) {
        Ok(log) => Ok(log),
        Err(LogFault::TooManyLines(count)) => Err(Refusal::TooManyLines(count)),
        Err(LogFault::Memory) => Err(Refusal::Memory),
    }
}

/// Gets the log, where it has no more lines than are followed, without the prefixes of its lines.
pub fn get_log<H: Shelf>(
    alloc: Global,
    request: &Request<'_>,
    prefix: &Option<Name>,
    drops: bool,
    shelf: &mut H,
) -> Result<LogText, Refusal>
    ensures { GetsLog (asked_in request.now) prefix.now drops (H.state shelf.old) (H.state shelf.new) result }
{
    let bytes = fetch(alloc, request, InputFile::Log, shelf)?;
    let log = strip_log(alloc, bytes.as_slice(), prefix, drops)?;
    Ok(log)
}

fn refusal_of_world(fault: CertFault) -> Refusal
    ensures { result ≡ world_refusal fault }
{
    match fault {
        CertFault::BadLine(line) => Refusal::BadWorld(line),
        CertFault::WrongVersion => Refusal::BadWorld(1),
        CertFault::Memory => Refusal::Memory,
    }
}

/// Gets and reads the world.
pub fn world<H: Shelf>(
    alloc: Global,
    request: &Request<'_>,
    shelf: &mut H,
) -> Result<World, Refusal>
    ensures { ReadsWorldFile (asked_in request.now) (H.state shelf.old) (H.state shelf.new) result }
{
    let text = fetch(alloc, request, InputFile::World, shelf)?;
    match read_world(alloc, text.as_slice()) {
        Ok(world) => Ok(world),
        Err(fault) => Err(refusal_of_world(fault)),
    }
}
