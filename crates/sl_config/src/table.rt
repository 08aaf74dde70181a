//! Which command takes what.
ghost use Rattle.std.specs.Prelude.{◌≡◌};
ghost use Rattle.sl_config.specs.Words as spec;

use crate::given::{Flag, Setting};
use crate::job::Command;

pub(crate) fn command_named(word: &str) -> Option<Command>
    ensures { result ≡ spec.command_named word.now }
{
    match word {
        "diagnose" => Some(Command::Diagnose),
        "check" => Some(Command::Check),
        "replay" => Some(Command::Replay),
        "sites" => Some(Command::Sites),
        "match" => Some(Command::Match),
        "self" => Some(Command::SelfTest),
        _ => None,
    }
}

/// How many words stand by themselves.
pub(crate) fn places(command: Command) -> usize
    ensures { result ≡ spec.places command }
{
    match command {
        Command::Check => 3,
        Command::Diagnose | Command::Replay | Command::Match => 2,
        Command::Sites | Command::SelfTest => 1,
    }
}

pub(crate) fn takes(command: Command, setting: Setting) -> bool
    ensures { result ≡ spec.takes command setting }
{
    match (command, setting) {
        (Command::Diagnose, _) => true,
        (Command::Check | Command::Replay, Setting::Config | Setting::Turns | Setting::Depth) =>
            true,
        (Command::Sites | Command::Match, Setting::Config) => true,
        _ => false,
    }
}

pub(crate) fn takes_flag(command: Command, flag: Flag) -> bool
    ensures { result ≡ spec.takes_flag command flag }
{
    match (command, flag) {
        (Command::Diagnose, _) | (Command::Check, Flag::ByLine) => true,
        _ => false,
    }
}

pub(crate) fn setting_named(name: &str) -> Option<Setting>
    ensures { result ≡ spec.setting_named name.now }
{
    match name {
        "config" => Some(Setting::Config),
        "turns" => Some(Setting::Turns),
        "depth" => Some(Setting::Depth),
        "conflicts" => Some(Setting::Conflicts),
        "cert" => Some(Setting::Cert),
        _ => None,
    }
}

pub(crate) fn flag_named(name: &str) -> Option<Flag>
    ensures { result ≡ spec.flag_named name.now }
{
    match name {
        "by-line" => Some(Flag::ByLine),
        "json" => Some(Flag::Json),
        _ => None,
    }
}
