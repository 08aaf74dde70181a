ghost use Rattle.std.specs.Prelude.{◌≡◌, ◌≢◌, Err, map, string_bytes};
ghost use Rattle.sl_config.specs.Words as spec;

use crate::given::Given;
use crate::job::{Command, Job, WordsFault};
use crate::numbers::number_in;
use crate::step::with_word;
use crate::table::{command_named, places};
use plain_data::Items;
use std::alloc::Global;

fn nothing_given(alloc: Global) -> Given
    ensures { result ≡ spec.nothing_given }
{
    Given {
        places: Items::new(alloc),
        config: None,
        cert: None,
        turns: None,
        depth: None,
        conflicts: None,
        by_line: false,
        json: false,
        waits: None,
        trailing: false,
    }
}

fn with_words(alloc: Global, command: Command, words: &[String]) -> Result<Given, WordsFault>
    ensures { result ≢ Err WordsFault.Memory → result ≡ spec.with_words command spec.nothing_given (map string_bytes words.now) }
{
    let mut given = nothing_given(alloc);
    'words: for word in words {
        given = with_word(alloc, command, given, word.as_str())?;
    }
    Ok(given)
}

fn is_whole(command: Command, given: &Given) -> bool
    ensures { result ≡ spec.is_whole command given.now }
{
    given.waits.is_none() && given.places.len() == places(command)
}

fn count_of(command: Command, given: &Given) -> Option<u32>
    ensures { result ≡ spec.count_of command given.now.places }
{
    match (command, given.places.as_slice()) {
        (Command::SelfTest, [word, ..]) => number_in(1, 200, word.as_str().as_bytes()),
        _ => None,
    }
}

fn job(command: Command, given: Given, count: Option<u32>) -> Job
    ensures { result ≡ spec.job command given count }
{
    Job {
        command,
        places: given.places,
        count,
        config: given.config,
        cert: given.cert,
        turns: given.turns.unwrap_or(8),
        depth: given.depth.unwrap_or(8),
        conflicts: given.conflicts.unwrap_or(20_000),
        by_line: given.by_line,
        json: given.json,
    }
}

fn finished(command: Command, given: Given) -> Result<Job, WordsFault>
    ensures { result ≡ spec.finished command given }
{
    if !is_whole(command, &given) {
        return Err(WordsFault::Usage);
    }
    let count = count_of(command, &given);
    match (command, count) {
        (Command::SelfTest, None) => Err(WordsFault::Usage),
        _ => Ok(job(command, given, count)),
    }
}

/// What the words after the program's name ask for: `Usage` exactly where they are no command line.
///
/// The first word is the command. An option is `--name VALUE` or `--name=VALUE`, a flag `--name`, and
/// behind the word `--` each word stands by itself. Neither comes twice, and no value and no word by
/// itself is empty; a value in a word of its own doesn't begin with `-`, unless it is `-`. A number
/// is one to nine digits, in its range. There is no help and no version.
pub fn read_words(alloc: Global, words: &[String]) -> Result<Job, WordsFault>
    ensures { result ≢ Err WordsFault.Memory → result ≡ spec.job_of (map string_bytes words.now) }
{
    let Some((first, rest)) = words.split_first() else {
        return Err(WordsFault::Usage);
    };
    let Some(command) = command_named(first.as_str()) else {
        return Err(WordsFault::Usage);
    };
    let given = with_words(alloc, command, rest)?;
    finished(command, given)
}
