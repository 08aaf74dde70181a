//! Questions on facts and on what watched variables were, and whether their answers hold.
ghost use Rattle.std.specs.Prelude.{◌≡◌, ◌≤◌, suc, length, IfOk};
ghost use Rattle.query_core.specs.Claims.{GoesOn, IsAbout, IsOfRun, IsWatched, IsWhole, KeepsFor, StaysFor};
ghost use Rattle.table_rows.specs.Asked.{IsAsked, IsKept};

use crate::text::{put, put_count, put_next, put_value};
use accepted::Accepted;
use anyhow::{Result, anyhow};
use log_expr::end_table;
use log_text::LogText;
use plain_data::{Bounds, Bytes, Fact, Facts, Happening, Run, World};
use program_facts::facts_of;
use proof_check::{Checker, Refutation};
use query_core::{Query, Reply, Target};
use replayer::replay;
use run_facts::{fits, holds, value_is};
use run_formula::{Watch, run_formula, watches_of};
use std::alloc::Global;
use term_bank::Bank;

/// How many conflicts a question may take.
const CONFLICTS: u32 = 20_000;

/// A program within bounds, and a log.
#[derive(Clone, Copy)]
pub struct Asked<'a> {
    pub program: &'a Accepted,
    pub bounds: &'a Bounds,
    pub log: &'a LogText,
}

/// The query over a program's runs, for these facts and watched variables.
fn query_of(alloc: Global, asked: &Asked<'_>, facts: &Facts, watches: &[Watch]) -> Result<Query>
    ensures { IfOk result (IsAsked facts.now.facts watches.now) }
{
    let core = &asked.program.core;
    let ends = end_table(alloc, core, asked.log.bytes(), asked.bounds)?;
    let mut bank = Bank::new(alloc);
    let mut walks = 0;
    let facts = facts.facts.as_slice();
    let formula = run_formula(
        alloc,
        core,
        asked.log,
        asked.bounds,
        &ends,
        facts,
        watches,
        &mut bank,
        &mut walks,
    )?;
    match Query::new(alloc, formula, bank)? {
        Some(query) => Ok(query),
        None => Err(anyhow!("a step that isn't walked yet")),
    }
}

/// What a run's first print of a watched variable saw.
fn seen(run: &Run, log: &LogText, watch: &Watch) -> Option<i128> {
    for event in &run.events {
        if let Happening::Print { at, seen, .. } = &event.what {
            let line = log.line_of(event.printed as usize);
            if *at == watch.at && line == watch.line as usize {
                return seen.get(watch.place as usize).copied();
            }
        }
    }
    None
}

/// Whether a refutation is one of the clauses of a target's claim.
fn is_refuted(
    alloc: Global,
    query: &mut Query,
    target: Target,
    refutation: Refutation,
) -> Result<bool>
    requires whole { IsWhole query.old }
    requires target { IsAbout query.old target }
    ensures { StaysFor target query.old query.new }
{
    let formula = query.claim_formula(alloc, target)?;
    let mut checker = Checker::with_room(alloc, &formula, &refutation)?;
    Ok(checker.check(&formula, &refutation).is_ok())
}

/// The answer to a question.
fn answered(alloc: Global, query: &mut Query, target: Target) -> Result<Reply>
    requires whole { IsWhole query.old }
    requires target { IsAbout query.old target }
    ensures { KeepsFor target query.old query.new }
{
    match query.ask(alloc, target, CONFLICTS) {
        Ok(reply) => Ok(reply),
        Err(fault) => Err(anyhow!(fault)),
    }
}

/// What questions on facts came to.
#[derive(Clone, Copy)]
struct Counts {
    worlds: u64,
    refuted: u64,
    unknown: u64,
    /// Answers that don't hold.
    wrong: u64,
}

/// One more, where it is so.
fn counted(count: u64, is_so: bool) -> Result<u64> {
    if !is_so {
        return Ok(count);
    }
    match count.checked_add(1) {
        Some(more) => Ok(more),
        None => Err(anyhow!("too many")),
    }
}

/// The number of the fact or watched variable at an index.
fn number_at(index: usize) -> Result<u32>
    ensures { IfOk result (λ number. number ≡ suc index) }
{
    if index >= 0xffff_ffff {
        return Err(anyhow!("too many"));
    }
    Ok(index as u32 + 1)
}

/// Counts a world, and whether its run doesn't fit or isn't as it was asked for.
fn count_world(
    alloc: Global,
    asked: &Asked<'_>,
    fact: &Fact,
    wanted: bool,
    world: World,
    counts: &mut Counts,
) -> Result<()> {
    let run = replay(alloc, asked.program, &world, asked.bounds)?;
    let is_so = fits(&run, asked.log) && holds(fact, &run, asked.log) == wanted;
    counts.worlds = counted(counts.worlds, true)?;
    counts.wrong = counted(counts.wrong, !is_so)?;
    Ok(())
}

/// Counts the answer on whether some run fits on which a fact holds, or where it is wanted that it doesn't, of one on
/// which it doesn't.
fn count_fact(
    alloc: Global,
    asked: &Asked<'_>,
    query: &mut Query,
    fact: &Fact,
    target: Target,
    wanted: bool,
    counts: &mut Counts,
) -> Result<()>
    requires whole { IsWhole query.old }
    requires target { IsAbout query.old target }
    requires run { IsOfRun target }
    ensures { GoesOn query.old query.new }
{
    match answered(alloc, query, target)? {
        Reply::World(world) => count_world(alloc, asked, fact, wanted, world, counts)?,
        Reply::Refuted(refutation) => {
            let is_so = is_refuted(alloc, query, target, refutation)?;
            counts.refuted = counted(counts.refuted, true)?;
            counts.wrong = counted(counts.wrong, !is_so)?;
        }
        Reply::Spent(trail) => {
            let _ = trail;
            counts.unknown = counted(counts.unknown, true)?;
        }
    }
    Ok(())
}

/// Counts the answers to both questions on each fact.
fn count_facts(
    alloc: Global,
    asked: &Asked<'_>,
    query: &mut Query,
    facts: &[Fact],
    watches: &[Watch],
    counts: &mut Counts,
) -> Result<()>
    requires { IsAsked facts.now watches.now query.old }
    ensures { IsAsked facts.now watches.now query.new }
{
    let _ = watches;
    'facts: for index in 0..facts.len() {
        let number = number_at(index)?;
        let fact = &facts[index];
        count_fact(
            alloc,
            asked,
            query,
            fact,
            Target::Having(number),
            true,
            counts,
        )?;
        count_fact(
            alloc,
            asked,
            query,
            fact,
            Target::Lacking(number),
            false,
            counts,
        )?;
    }
    Ok(())
}

/// Puts what the questions on all facts come to at the end.
fn put_facts(
    alloc: Global,
    asked: &Asked<'_>,
    query: &mut Query,
    facts: &[Fact],
    watches: &[Watch],
    text: &mut Bytes,
) -> Result<()>
    requires { IsAsked facts.now watches.now query.old }
    ensures { IsAsked facts.now watches.now query.new }
{
    let mut counts = Counts {
        worlds: 0,
        refuted: 0,
        unknown: 0,
        wrong: 0,
    };
    count_facts(alloc, asked, query, facts, watches, &mut counts)?;
    put(text, "facts")?;
    put_next(text, counts.worlds)?;
    put_next(text, counts.refuted)?;
    put_next(text, counts.unknown)?;
    put_next(text, counts.wrong)?;
    put(text, "\n")?;
    Ok(())
}

/// Puts what a world says of a watched variable at the end: that it can be another than this value.
fn put_other(
    alloc: Global,
    asked: &Asked<'_>,
    watch: &Watch,
    value: i128,
    world: World,
    text: &mut Bytes,
) -> Result<()> {
    let run = replay(alloc, asked.program, &world, asked.bounds)?;
    let place = watch.place as usize;
    let same = value_is(&run, asked.log, watch.at, watch.line, place, value);
    let is_so = fits(&run, asked.log) && !same;
    put(text, if is_so { "several" } else { "wrong" })?;
    Ok(())
}

/// Puts the value of the watched variable of a number at the end, or that it can have several.
fn put_value_of(
    alloc: Global,
    asked: &Asked<'_>,
    query: &mut Query,
    watch: &Watch,
    number: u32,
    value: i128,
    text: &mut Bytes,
) -> Result<()>
    requires whole { IsWhole query.old }
    requires watch { IsWatched query.old number }
    ensures { IsKept query.old query.new }
{
    let target = Target::Other {
        watch: number,
        value,
    };
    match answered(alloc, query, target)? {
        Reply::World(world) => put_other(alloc, asked, watch, value, world, text)?,
        Reply::Refuted(refutation) => {
            if is_refuted(alloc, query, target, refutation)? {
                put_value(text, value)?;
            } else {
                put(text, "wrong")?;
            }
        }
        Reply::Spent(trail) => {
            let _ = trail;
            put(text, "unknown")?;
        }
    }
    Ok(())
}

/// Puts what a watched variable is at the end, where a run that fits has seen some value.
fn put_watch(
    alloc: Global,
    asked: &Asked<'_>,
    query: &mut Query,
    run: &Run,
    watch: &Watch,
    number: u32,
    text: &mut Bytes,
) -> Result<()>
    requires whole { IsWhole query.old }
    requires watch { IsWatched query.old number }
    ensures { IsKept query.old query.new }
{
    let Some(value) = seen(run, asked.log, watch) else {
        return Ok(());
    };
    put(text, "value")?;
    put_next(text, u64::from(number))?;
    put(text, " ")?;
    put_value_of(alloc, asked, query, watch, number, value, text)?;
    put(text, "\n")?;
    Ok(())
}

/// Puts what watched variables are at the end, of which a run that fits has seen some value.
fn put_watches(
    alloc: Global,
    asked: &Asked<'_>,
    query: &mut Query,
    run: &Run,
    facts: &[Fact],
    watches: &[Watch],
    text: &mut Bytes,
) -> Result<()>
    requires { IsAsked facts.now watches.now query.old }
{
    let _ = facts;
    'watches: for index in 0..watches.len() {
        let number = number_at(index)?;
        put_watch(alloc, asked, query, run, &watches[index], number, text)?;
    }
    Ok(())
}

/// Puts how many clauses say that a run fits at the end, in a line.
pub fn put_clauses(alloc: Global, asked: &Asked<'_>, text: &mut Bytes) -> Result<()> {
    let facts = facts_of(alloc, &asked.program.core, asked.log, false)?;
    let watches = watches_of(alloc, &facts)?;
    let mut query = query_of(alloc, asked, &facts, watches.as_slice())?;
    let claim = query.claim_formula(alloc, Target::Fits);
    query.discard();
    let formula = claim?;
    put_count(text, formula.len() as u128)?;
    put(text, "\n")?;
    Ok(())
}

/// Puts the answers to all questions on facts and watched variables at the end, where the run in this world fits.
fn put_all(
    alloc: Global,
    asked: &Asked<'_>,
    query: &mut Query,
    facts: &[Fact],
    watches: &[Watch],
    world: World,
    text: &mut Bytes,
) -> Result<()>
    requires { IsAsked facts.now watches.now query.old }
{
    let run = replay(alloc, asked.program, &world, asked.bounds)?;
    put(
        text,
        if fits(&run, asked.log) {
            "fits\n"
        } else {
            "wrong\n"
        },
    )?;
    put_facts(alloc, asked, query, facts, watches, text)?;
    put_watches(alloc, asked, query, &run, facts, watches, text)?;
    Ok(())
}

/// Puts whether a run fits at the end, and where one does the answers to all questions on facts and watched variables.
fn put_answers(
    alloc: Global,
    asked: &Asked<'_>,
    query: &mut Query,
    facts: &[Fact],
    watches: &[Watch],
    text: &mut Bytes,
) -> Result<()>
    requires { IsAsked facts.now watches.now query.old }
{
    match answered(alloc, query, Target::Fits)? {
        Reply::World(world) => put_all(alloc, asked, query, facts, watches, world, text)?,
        Reply::Refuted(refutation) => {
            let is_so = is_refuted(alloc, query, Target::Fits, refutation)?;
            put(text, if is_so { "none\n" } else { "wrong\n" })?;
        }
        Reply::Spent(trail) => {
            let _ = trail;
            put(text, "unknown\n")?;
        }
    }
    Ok(())
}

/// Puts the answers to all questions on a program's runs at the end.
pub fn put_values(alloc: Global, asked: &Asked<'_>, text: &mut Bytes) -> Result<()> {
    let facts = facts_of(alloc, &asked.program.core, asked.log, false)?;
    let watches = watches_of(alloc, &facts)?;
    let mut query = query_of(alloc, asked, &facts, watches.as_slice())?;
    let (list, seen) = (facts.facts.as_slice(), watches.as_slice());
    let outcome = put_answers(alloc, asked, &mut query, list, seen, text);
    query.discard();
    outcome
}
