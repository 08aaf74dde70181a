//! The top call.
ghost use Rattle.std.specs.Prelude.{◌≡◌, ◌⊎◌, None, IfSome, map, string_bytes};
ghost use Rattle.sl_io.specs.Writes.{Told};
ghost use Rattle.sherlog.specs.Answers.{AllIsWell, Answered, IsAnswer, IsRefusal, IsRefused};
ghost use Rattle.sherlog.specs.Completeness.{IsAnswerable, IsNoProgram};
ghost use Rattle.sherlog.specs.Lines.{memory_line, usage_line};
ghost use Rattle.sherlog.specs.Words.{asked_of};

use crate::lines::{tell_memory, tell_refusal, tell_usage};
use crate::serving::serve;
use crate::words::request_of;
use diagnoses::Kept;
use sl_config::{WordsFault, read_words};
use sl_io::{Shelf, Sink};
use std::alloc::Global;

/// Serves a command line, and answers the status. The words are those behind the program's name. What a diagnosis
/// rests on is kept as values.
pub fn run<H: Shelf, O: Sink, E: Sink>(
    alloc: Global,
    words: &[String],
    shelf: &mut H,
    out: &mut O,
    err: &mut E,
    kept: &mut Kept,
) -> u8
    // 0, 1 and 9 come once what is asked for was written: of `diagnose` a report that is true of every world, 1 where
    // no run fits, and 9 where a question stayed open after the conflicts that were allowed; of `replay`, always 0,
    // what the run prints, with the line of its end on err; of `sites` and `match`, always 0, exactly the lines for
    // the log calls of the source in functions that are reached, with exactly the ends that some arguments of the
    // format's kinds reach. Behind `diagnose` the formula of the runs and the diagnosis over it are kept: each
    // refutation and each trail, as values.
    ensures answered { IsAnswer result → IfSome (asked_of (map string_bytes words.now)) (λ asked.
        Answered asked (H.state shelf.old).files result (O.state out.old) (O.state out.new)
        (E.state err.old) (E.state err.new) kept.new) }

    // 2 comes exactly where the words are no command line that is served, but for want of memory.
    ensures usage { result ≡ 2 → asked_of (map string_bytes words.now) ≡ None }
    ensures unserved { asked_of (map string_bytes words.now) ≡ None → (result ≡ 2) ⊎ (result ≡ 12) }
    ensures usage_line { result ≡ 2 → Told (E.state err.old) (E.state err.new) usage_line }

    // Each refusal comes by its cause, and its line is told.
    ensures refused { IsRefusal result → IfSome (asked_of (map string_bytes words.now)) (λ asked.
        IsRefused asked (H.state shelf.old) (H.state shelf.new) (O.state out.old) (O.state out.new)
        (E.state err.old) (E.state err.new) result) }
    ensures memory { result ≡ 12 → O.state out.new ≡ O.state out.old }
    ensures memory_line { result ≡ 12 → Told (E.state err.old) (E.state err.new) memory_line }
    ensures statuses { IsAnswer result ⊎ ((result ≡ 2) ⊎ (IsRefusal result ⊎ (result ≡ 12))) }

    // No file changes, and where all goes well outside, what the files hold decides, but for want of memory.
    ensures files { (H.state shelf.new).files ≡ (H.state shelf.old).files }
    ensures decided { IfSome (asked_of (map string_bytes words.now)) (λ asked.
        AllIsWell asked (H.state shelf.old) (H.state shelf.new) (O.state out.old) (O.state out.new)
        → (result ≡ 6 → ⊥) × (result ≡ 7 → ⊥)) }
    ensures no_program { IfSome (asked_of (map string_bytes words.now)) (λ asked.
        IsNoProgram asked (H.state shelf.old) (H.state shelf.new) → (result ≡ 3) ⊎ (result ≡ 12)) }
    ensures complete { IfSome (asked_of (map string_bytes words.now)) (λ asked.
        IsAnswerable asked (H.state shelf.old) (H.state shelf.new) (O.state out.old) (O.state out.new)
        → IsAnswer result ⊎ (result ≡ 12)) }
{
    let job = match read_words(alloc, words) {
        Ok(job) => job,
        Err(WordsFault::Usage) => {
            tell_usage(err);
            return 2;
        }
        Err(WordsFault::Memory) => {
            tell_memory(err);
            return 12;
        }
    };
    let Some(request) = request_of(&job) else {
        tell_usage(err);
        return 2;
    };
    match serve(alloc, &request, shelf, out, err, kept) {
        Ok(status) => status,
        Err(refusal) => tell_refusal(alloc, err, &request, &refusal),
    }
}
