//! Whether a source is accepted: `main` is one, and no rule is broken by what is needed and by what is reached; else
//! the broken rule that comes first.

ghost use Rattle.std.specs.Prelude.{◌≡◌, ◌≤◌, length, nat_eq, not, reverse, IfOk, Some};
ghost use Rattle.std.specs.Option.{option_copied};
ghost use Rattle.c_means.specs.Checks as checks;
ghost use Rattle.c_means.specs.Items as items;
ghost use Rattle.c_checks.specs.Refusals.{least_of};
ghost use Rattle.c_item_notes.specs.Levels.{judged};
ghost use Rattle.c_reach.specs.Reaching.{named_in};
ghost use Rattle.c_program_notes.specs.Refused as spec;
ghost use Rattle.c_program_notes.specs.Wholes as wholes;

use crate::outers::OuterNotes;
use crate::whole::{Overview, functions_in};
use c_checks::lesser;
use c_declarations::tentative_type;
use c_item_notes::{ItemNotes, LastingNote, Source};
use c_language::{Entry, LayoutRule, Means, Rule, Tables};
use c_means::{Breach, BrokenRule};
use c_names::{Word, is_needed};
use c_notes::CallNote;
use c_reach::{FunctionNotes, named_functions};
use c_type_forms::has_size;
use c_type_scope::{Named, Scope};
use plain_data::Shared;
use std::alloc::{AllocError, Global};

/// Why a source isn't accepted.
#[derive(Drop)]
pub enum Refusal {
    /// No function `main` is defined whose type is one that it may have (C99 5.1.2.2.1p1).
    NoMain,
    /// A rule is broken, and of all that are none comes before it.
    Broken(Breach),
}

// ---- single rules

fn rule_copy(rule: &BrokenRule) -> BrokenRule
    ensures { result ≡ rule.now }
{
    match rule {
        BrokenRule::UnreadBody => BrokenRule::UnreadBody,
        BrokenRule::Typing(rule) => BrokenRule::Typing(*rule),
        BrokenRule::BadGoto => BrokenRule::BadGoto,
        BrokenRule::FormatNotLiteral => BrokenRule::FormatNotLiteral,
        BrokenRule::Format(fault) => BrokenRule::Format(*fault),
        BrokenRule::FormatArgument => BrokenRule::FormatArgument,
    }
}

fn breach_copy(breach: &Option<Breach>) -> Option<Breach>
    ensures { result ≡ breach.now }
{
    match breach {
        None => None,
        Some(breach) => Some(Breach {
            at: breach.at,
            rule: rule_copy(&breach.rule),
        }),
    }
}

/// A call has as many arguments as the body has parameters, whatever the declaration in force says (C99 6.5.2.2p6).
fn wrong_count(at: u32, parameters: usize, arguments: usize) -> Option<Breach>
    ensures { result ≡ least_of (items.breach_if (not (nat_eq parameters arguments)) at checks.mismatch) }
{
    if parameters == arguments {
        return None;
    }
    Some(Breach {
        at,
        rule: BrokenRule::Typing(Rule::TypeMismatch),
    })
}

fn unread_body(unread: Option<u32>) -> Option<Breach>
    ensures { result ≡ least_of (checks.unread_breaches unread) }
{
    match unread {
        None => None,
        Some(at) => Some(Breach {
            at,
            rule: BrokenRule::UnreadBody,
        }),
    }
}

// ---- calls, where the bodies of the source are known

fn counted_call(
    call: &CallNote,
    arguments: usize,
    function: Option<&Shared<FunctionNotes>>,
) -> Option<Breach>
    ensures { result ≡ spec.counted_call call.now arguments (option_copied function.entry) }
{
    match function {
        None => breach_copy(&call.breach),
        Some(function) => wrong_count(call.at, function.get().parameters, arguments),
    }
}

/// A call of a name, where no body counts but that of the source.
fn body_call(
    named: &Named<FunctionNotes>,
    call: &CallNote,
    name: &[u8],
    arguments: usize,
) -> Option<Breach>
    ensures { result ≡ spec.counted_call call.now arguments (named_in named.now name.now) }
{
    counted_call(call, arguments, named.get(name))
}

fn call_breach(named: &Named<FunctionNotes>, call: &CallNote) -> Option<Breach>
    ensures { result ≡ spec.call_least named.now call.now }
{
    match call.arguments {
        None => breach_copy(&call.breach),
        Some(arguments) => body_call(named, call, call.name.get().as_slice(), arguments),
    }
}

fn calls_breach(named: &Named<FunctionNotes>, calls: &[CallNote]) -> Option<Breach>
    ensures { result ≡ spec.calls_least named.now calls.now }
{
    let mut least = None;
    let mut left = calls.len();
    'calls: while left > 0 {
        left -= 1;
        least = lesser(call_breach(named, &calls[left]), least);
    }
    least
}

fn item_breach(named: &Named<FunctionNotes>, item: &ItemNotes) -> Option<Breach>
    ensures { result ≡ spec.item_least named.now item.now }
{
    let own = breach_copy(&item.breach);
    lesser(own, calls_breach(named, item.calls.as_slice()))
}

// ---- functions that are reached

fn function_breach(named: &Named<FunctionNotes>, function: &FunctionNotes) -> Option<Breach>
    ensures { result ≡ spec.function_least named.now function.now }
{
    let unread = unread_body(function.unread);
    lesser(unread, item_breach(named, &function.body))
}

fn functions_breach(
    named: &Named<FunctionNotes>,
    functions: &[Shared<FunctionNotes>],
) -> Option<Breach>
    ensures { result ≡ spec.functions_least named.now functions.now }
{
    let mut least = None;
    let mut left = functions.len();
    'functions: while left > 0 {
        left -= 1;
        least = lesser(function_breach(named, functions[left].get()), least);
    }
    least
}

// ---- declarations that are needed

/// Whether the type of a definition is complete at the end of the file (C99 6.9.2p3).
fn is_known(alloc: Global, tables: &Tables, means: &Means) -> Result<bool, AllocError>
    ensures { IfOk result (λ b. b ≡ checks.is_known tables.now means.now) }
{
    match means {
        Means::Object { ctype, .. } => {
            let whole = tentative_type(alloc, ctype)?;
            Ok(has_size(tables, whole.get()))
        }
        Means::Function { .. } => Ok(true),
        Means::Typedef { .. } => Ok(true),
        Means::Constant { .. } => Ok(true),
        Means::Faulty => Ok(true),
    }
}

fn incomplete_if(wrong: bool, at: u32) -> Option<Breach>
    ensures { result ≡ least_of (items.breach_if wrong at spec.incomplete) }
{
    if wrong {
        Some(Breach {
            at,
            rule: BrokenRule::Typing(Rule::Layout(LayoutRule::Incomplete)),
        })
    } else {
        None
    }
}

fn final_breach(
    alloc: Global,
    tables: &Tables,
    entry: &Entry,
    note: &LastingNote,
) -> Result<Option<Breach>, AllocError>
    ensures { IfOk result (λ b. b ≡ spec.final_least tables.now note.now (Some entry.now)) }
{
    let known = is_known(alloc, tables, &entry.means)?;
    let is_it = entry.at == note.entry.get().at;
    Ok(incomplete_if(note.is_defined && is_it && !known, note.at))
}

fn note_breach(
    alloc: Global,
    scope: &Scope,
    note: &LastingNote,
) -> Result<Option<Breach>, AllocError>
    ensures { IfOk result (λ b. b ≡ spec.note_least scope.now note.now) }
{
    match scope.file_entry(note.entry.get().name.get().as_slice()) {
        None => Ok(None),
        Some(entry) => final_breach(alloc, scope.tables(), entry.get(), note),
    }
}

fn lasting_breach(
    alloc: Global,
    scope: &Scope,
    notes: &[LastingNote],
) -> Result<Option<Breach>, AllocError>
    ensures { IfOk result (λ b. b ≡ spec.lasting_least scope.now notes.now) }
{
    let mut least = None;
    let mut left = notes.len();
    'notes: while left > 0 {
        left -= 1;
        let found = note_breach(alloc, scope, &notes[left])?;
        least = lesser(found, least);
    }
    Ok(least)
}

fn outer_breach(
    alloc: Global,
    named: &Named<FunctionNotes>,
    scope: &Scope,
    words: &[Word],
    outer: &OuterNotes,
) -> Result<Option<Breach>, AllocError>
    ensures { IfOk result (λ b. b ≡ spec.outer_least named.now scope.now words.now outer.now) }
{
    if is_needed(words, outer.names.get()) {
        let lasting = lasting_breach(alloc, scope, outer.item.lasting.as_slice())?;
        return Ok(lesser(item_breach(named, &outer.item), lasting));
    }
    Ok(None)
}

fn outers_breach(
    alloc: Global,
    named: &Named<FunctionNotes>,
    scope: &Scope,
    words: &[Word],
    outers: &[OuterNotes],
) -> Result<Option<Breach>, AllocError>
    ensures { IfOk result (λ b. b ≡ spec.outers_least named.now scope.now words.now outers.now) }
{
    let mut least = None;
    let mut left = outers.len();
    'outers: while left > 0 {
        left -= 1;
        let found = outer_breach(alloc, named, scope, words, &outers[left])?;
        least = lesser(found, least);
    }
    Ok(least)
}

// ---- the whole source

fn has_main(named: &Named<FunctionNotes>) -> bool
    ensures { result ≡ spec.has_main named.now }
{
    match named.get(b"main") {
        None => false,
        Some(function) => function.get().is_main,
    }
}

#[tactic(auto, unfolding(crate::specs::Refused::whole_least))]
fn first_breach(
    alloc: Global,
    named: &Named<FunctionNotes>,
    overview: &Overview,
) -> Result<Option<Breach>, AllocError>
    ensures { IfOk result (λ b. b ≡ spec.whole_least named.now overview.now) }
{
    let outers = overview.program.outers.as_slice();
    let words = overview.words.as_slice();
    let declared = outers_breach(alloc, named, &overview.program.scope, words, outers)?;
    Ok(lesser(
        declared,
        functions_breach(named, overview.reached.as_slice()),
    ))
}

#[tactic(auto, unfolding(crate::specs::Refused::refusal_by))]
fn refusal_by(
    alloc: Global,
    named: &Named<FunctionNotes>,
    overview: &Overview,
) -> Result<Option<Refusal>, AllocError>
    ensures { IfOk result (λ r. r ≡ spec.refusal_by named.now overview.now) }
{
    if !has_main(named) {
        return Ok(Some(Refusal::NoMain));
    }
    match first_breach(alloc, named, overview)? {
        None => Ok(None),
        Some(breach) => Ok(Some(Refusal::Broken(breach))),
    }
}

fn refusal_in(alloc: Global, overview: &Overview) -> Result<Option<Refusal>, AllocError>
    ensures { IfOk result (λ r. r ≡ spec.refusal_by (reverse (wholes.functions_in overview.now.program.outers)) overview.now) }
{
    let functions = functions_in(alloc, overview.program.outers.as_slice())?;
    let named = named_functions(alloc, functions.as_slice())?;
    refusal_by(alloc, &named, overview)
}

/// Why a source isn't accepted: it has no `main`, or the first of the rules that are broken by declarations that are
/// needed and by functions that are reached. None, where it is accepted. It fails for want of memory alone.
pub fn why_refused(
    alloc: Global,
    source: &Source<'_>,
    overview: &Overview,
) -> Result<Option<Refusal>, AllocError>
    requires { overview.now ≡ wholes.overview (judged source.now) }
    ensures { IfOk result (λ r. r ≡ spec.refusal_of (wholes.machine (judged source.now))) }
{
    refusal_in(alloc, overview)
}
