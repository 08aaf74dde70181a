//! What a command line asks for, where it is served.
ghost use Rattle.std.specs.Prelude.{◌≡◌, option_map};
ghost use Rattle.sherlog.specs.Words as spec;
ghost use Rattle.sherlog.specs.Inputs.{asked_in};

use crate::request::{Command, Request};
use sl_config::{Job, Name};

/// Whether a report as text is asked for, and no certificate.
fn is_plain(job: &Job) -> bool
    ensures { result ≡ spec.is_plain job.now }
{
    !job.cert.is_some() && !job.json
}

fn text_of(name: &Option<Name>) -> Option<&str>
    ensures { option_map (λ text. text.now) result ≡ name.now }
{
    match name {
        Some(name) => Some(name.as_str()),
        None => None,
    }
}

fn request_over<'a>(
    command: Command,
    job: &'a Job,
    source: &'a str,
    second: &'a str,
) -> Option<Request<'a>>
    ensures { option_map asked_in result ≡ spec.asked_over command job.now source.now second.now }
{
    if 1 <= job.turns && job.turns <= 64 && 1 <= job.depth && job.depth <= 16 {
        Some(Request {
            command,
            source,
            second,
            config: text_of(&job.config),
            turns: job.turns,
            depth: job.depth,
            conflicts: job.conflicts,
            by_line: job.by_line,
        })
    } else {
        None
    }
}

/// A command over a source and a second file.
fn request_of_two(command: Command, job: &Job) -> Option<Request<'_>>
    ensures { option_map asked_in result ≡ spec.asked_of_two command job.now job.now.places }
{
    match job.places.as_slice() {
        [source, second] => request_over(command, job, source.as_str(), second.as_str()),
        _ => None,
    }
}

/// A command over a source alone.
fn request_of_one(command: Command, job: &Job) -> Option<Request<'_>>
    ensures { option_map asked_in result ≡ spec.asked_of_one command job.now job.now.places }
{
    match job.places.as_slice() {
        [source] => request_over(command, job, source.as_str(), ""),
        _ => None,
    }
}

/// What a command line asks for, where it is served: `diagnose` without `--json` and `--cert`, `replay`, `sites` and
/// `match`.
pub fn request_of(job: &Job) -> Option<Request<'_>>
    ensures { option_map asked_in result ≡ spec.asked_in job.now }
{
    match job.command {
        sl_config::Command::Diagnose => {
            if is_plain(job) {
                request_of_two(Command::Diagnose, job)
            } else {
                None
            }
        }
        sl_config::Command::Replay => request_of_two(Command::Replay, job),
        sl_config::Command::Sites => request_of_one(Command::Sites, job),
        sl_config::Command::Match => request_of_two(Command::Match, job),
        sl_config::Command::Check => None,
        sl_config::Command::SelfTest => None,
    }
}
