//! Programs, logs and bounds.

use acceptance::{CheckFault, accept};
use accepted::Accepted;
use anyhow::{Result, anyhow, ensure};
use c_language::Unit;
use c_means::Profile;
use config_text::default_config;
use log_text::{LogText, strip};
use plain_data::Bounds;
use std::alloc::{AllocError, Global};
use text_rows::unit_of;

/// The most bytes that a log may have.
const LONGEST_LOG: usize = 65_536;

/// What stands before the first byte 0, and what stands behind it.
pub fn split(input: &[u8]) -> Result<(&[u8], &[u8])> {
    for index in 0..input.len() {
        if input[index] == 0 {
            return Ok((&input[..index], &input[index + 1..]));
        }
    }
    Err(anyhow!("no log"))
}

/// What is known of functions where no configuration says more.
fn profile_of(alloc: Global) -> Result<Profile, AllocError> {
    let config = default_config(alloc)?;
    Ok(config.profile)
}

fn accepted(alloc: Global, unit: Unit, profile: Profile) -> Result<Accepted> {
    match accept(alloc, unit.externals, profile) {
        Ok(program) => Ok(program),
        Err(CheckFault::Refused(_)) => Err(anyhow!("the source breaks a rule")),
        Err(CheckFault::Memory) => Err(anyhow!(AllocError)),
    }
}

/// The program of a source.
pub fn program_of(alloc: Global, source: &[u8]) -> Result<Accepted> {
    let profile = profile_of(alloc)?;
    match unit_of(alloc, source) {
        Ok(unit) => accepted(alloc, unit, profile),
        Err(fault) => Err(fault),
    }
}

/// A log.
pub fn log_of(alloc: Global, log: &[u8]) -> Result<LogText> {
    ensure!(log.len() <= LONGEST_LOG, "the log is too long");
    Ok(strip(alloc, log, None, false)?)
}

/// Bounds with so many turns and levels of calls.
pub fn bounds_of(turns: u32, depth: u32) -> Result<Bounds> {
    ensure!(1 <= turns && turns <= 64, "no number of turns");
    ensure!(1 <= depth && depth <= 16, "no number of levels");
    Ok(Bounds {
        turns,
        depth,
        heap: 256,
        outside: 64,
        texts: 32,
        arguments: 2,
    })
}
