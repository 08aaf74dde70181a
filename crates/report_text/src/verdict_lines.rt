//! The lines of facts with their verdicts, and how many of each there are.
ghost use Rattle.std.specs.Prelude.{◌≡◌, ◌++◌, count_by, IfOk};
ghost use Rattle.report_text.specs.VerdictLines as spec;

use crate::fact_texts::put_fact;
use crate::numbers::put_count;
use c_language::Places;
use diagnoses::{Open, Verdict};
use plain_data::{Bytes, Fact};
use std::alloc::AllocError;

fn put_verdict(text: &mut Bytes, verdict: &Verdict) -> Result<(), AllocError>
    ensures { IfOk result (λ _. text.new ≡ text.old ++ spec.verdict_text verdict.now) }
{
    match verdict {
        Verdict::Must(_) => text.extend_from_slice(b" must "),
        Verdict::MustNot(_) => text.extend_from_slice(b" mustnot "),
        Verdict::May { having, lacking } => {
            put_count(text, b" may ", u64::from(*having))?;
            put_count(text, b" ", u64::from(*lacking))?;
            text.push(b' ')
        }
        Verdict::Unknown {
            open,
            known: _,
            trail: _,
        } => put_question(text, *open),
    }
}

fn put_question(text: &mut Bytes, question: Open) -> Result<(), AllocError>
    ensures { IfOk result (λ _. text.new ≡ text.old ++ spec.question_text question) }
{
    match question {
        Open::Having => text.extend_from_slice(b" unknown having "),
        Open::Lacking => text.extend_from_slice(b" unknown lacking "),
    }
}

fn put_fact_line(
    text: &mut Bytes,
    places: &Places,
    number: u64,
    fact: &Fact,
    verdict: &Verdict,
) -> Result<(), AllocError>
    ensures { IfOk result (λ _. text.new ≡ text.old ++ spec.fact_line places.now number fact.now verdict.now) }
{
    put_count(text, b"fact ", number)?;
    put_verdict(text, verdict)?;
    put_fact(text, places, fact)?;
    text.push(b'\n')
}

/// Puts the facts with their verdicts, numbered from 1, at the end of a text. It fails for want of memory alone.
pub(crate) fn put_fact_lines(
    text: &mut Bytes,
    places: &Places,
    facts: &[Fact],
    verdicts: &[Verdict],
) -> Result<(), AllocError>
    ensures { IfOk result (λ _. text.new ≡ text.old ++ spec.fact_lines places.now 1 facts.now verdicts.now) }
{
    let mut number = 0u64;
    for (fact, verdict) in facts.iter().zip(verdicts.iter()) {
        number += 1;
        put_fact_line(text, places, number, fact, verdict)?;
    }
    Ok(())
}

// ---- how many of each

/// How many verdicts there are of each kind.
#[derive(Clone, Copy)]
struct Tally {
    must: u64,
    mustnot: u64,
    may: u64,
    unknown: u64,
}

fn count(verdicts: &[Verdict]) -> Tally
    ensures must { result.must ≡ count_by spec.is_must verdicts.now }
    ensures mustnot { result.mustnot ≡ count_by spec.is_mustnot verdicts.now }
    ensures may { result.may ≡ count_by spec.is_may verdicts.now }
    ensures unknown { result.unknown ≡ count_by spec.is_unknown verdicts.now }
{
    let mut must = 0u64;
    let mut mustnot = 0u64;
    let mut may = 0u64;
    let mut unknown = 0u64;
    for verdict in verdicts {
        match verdict {
            Verdict::Must(_) => must += 1,
            Verdict::MustNot(_) => mustnot += 1,
            Verdict::May { .. } => may += 1,
            Verdict::Unknown { .. } => unknown += 1,
        }
    }
    Tally {
        must,
        mustnot,
        may,
        unknown,
    }
}

#[tactic(auto, unfolding(crate::specs::VerdictLines::total_text))]
fn put_tally(text: &mut Bytes, tally: Tally) -> Result<(), AllocError>
    ensures { IfOk result (λ _.
        text.new ≡ text.old ++ spec.total_text tally.must tally.mustnot tally.may tally.unknown
        ) }
{
    put_count(text, b"total must ", tally.must)?;
    put_count(text, b" mustnot ", tally.mustnot)?;
    put_count(text, b" may ", tally.may)?;
    put_count(text, b" unknown ", tally.unknown)?;
    text.extend_from_slice(b" values must 0 may 0 unknown 0\n")
}

/// Puts how many facts have each kind of verdict at the end of a text. It fails for want of memory alone.
pub(crate) fn put_total_line(text: &mut Bytes, verdicts: &[Verdict]) -> Result<(), AllocError>
    ensures { IfOk result (λ _. text.new ≡ text.old ++ spec.total_line verdicts.now) }
{
    put_tally(text, count(verdicts))
}
