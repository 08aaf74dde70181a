//! The report on a source and a log, as bytes.
ghost use Rattle.std.specs.Prelude.{◌≡◌, ◌++◌, IfOk};
ghost use Rattle.report_text.specs.Reports as spec;

use crate::head_lines::{put_assumptions, put_bounds, put_log_line};
use crate::numbers::put_count;
use crate::verdict_lines::{put_fact_lines, put_total_line};
use crate::world_texts::put_worlds;
use c_language::Places;
use diagnoses::{Assumption, Diagnosis, Findings};
use log_text::LogText;
use plain_data::{Bounds, Bytes, Fact};
use std::alloc::{AllocError, Global};

/// What a diagnosis is about: the places of the source's tokens, the log, the bounds in force, how many conflicts each
/// question may take, what is assumed of the outside, and the facts, in the order of their verdicts.
#[derive(Clone, Copy)]
pub struct Subject<'a> {
    pub places: &'a Places,
    pub log: &'a LogText,
    pub bounds: &'a Bounds,
    pub conflicts: u32,
    pub assumptions: &'a [Assumption],
    pub facts: &'a [Fact],
}

fn put_found(
    text: &mut Bytes,
    places: &Places,
    facts: &[Fact],
    findings: &Findings,
) -> Result<(), AllocError>
    ensures { IfOk result (λ _. text.new ≡ text.old ++ spec.found_lines places.now facts.now findings.now) }
{
    text.extend_from_slice(b"execution found\n")?;
    put_fact_lines(text, places, facts, findings.verdicts.as_slice())?;
    put_total_line(text, findings.verdicts.as_slice())?;
    put_worlds(text, findings.worlds.as_slice())
}

fn put_undecided(text: &mut Bytes, conflicts: u32) -> Result<(), AllocError>
    ensures { IfOk result (λ _. text.new ≡ text.old ++ spec.undecided_line conflicts) }
{
    put_count(text, b"execution unknown after ", u64::from(conflicts))?;
    text.extend_from_slice(b" conflicts\n")
}

fn put_diagnosis(
    text: &mut Bytes,
    subject: &Subject<'_>,
    diagnosis: &Diagnosis,
) -> Result<(), AllocError>
    ensures { IfOk result (λ _. text.new ≡ text.old ++ spec.diagnosis_lines subject.now diagnosis.now) }
{
    match diagnosis {
        Diagnosis::Found(findings) => put_found(text, subject.places, subject.facts, findings),
        Diagnosis::Nothing(_) => text.extend_from_slice(b"execution none within bounds\n"),
        Diagnosis::Undecided(_) => put_undecided(text, subject.conflicts),
    }
}

/// The report of a diagnosis. It fails for want of memory alone.
pub fn report(
    alloc: Global,
    subject: &Subject<'_>,
    diagnosis: &Diagnosis,
) -> Result<Bytes, AllocError>
    ensures { IfOk result (λ text. text ≡ spec.report_of subject.now diagnosis.now) }
{
    let mut text = Bytes::new(alloc);
    text.extend_from_slice(b"sherlog report 1\n")?;
    put_bounds(&mut text, subject.bounds, subject.conflicts)?;
    put_assumptions(&mut text, subject.assumptions)?;
    put_log_line(&mut text, subject.log)?;
    put_diagnosis(&mut text, subject, diagnosis)?;
    text.extend_from_slice(b"end\n")?;
    Ok(text)
}
