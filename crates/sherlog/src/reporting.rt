//! The report on a program and a log.
ghost use Rattle.std.specs.Prelude.{◌≡◌, ◌<◌, Err, IfOk};
ghost use Rattle.std.specs.List.{list_any};
ghost use Rattle.must_facts.specs.Inquiries.{measure_of};
ghost use Rattle.must_facts.specs.declared.fault.DiagnoseFault.TheVariants.{TooLarge};
ghost use Rattle.sherlog.specs.Answers as spec;
ghost use Rattle.sherlog.specs.Inputs.{asked_in};

use crate::output::Output;
use crate::request::Request;
use accepted::Accepted;
use assumptions::assumptions;
use c_item_notes::Source;
use c_language::Places;
use diagnoses::{Diagnosis, Kept, Verdict};
use log_text::LogText;
use must_facts::{DiagnoseFault, diagnose_source};
use plain_data::{Bounds, Bytes};
use report_text::{Subject, report};
use std::alloc::Global;

fn is_unknown(verdict: &Verdict) -> bool
    ensures { result ≡ spec.is_unknown verdict.now }
{
    match verdict {
        Verdict::Unknown { .. } => true,
        _ => false,
    }
}

fn any_unknown(verdicts: &[Verdict]) -> bool
    ensures { result ≡ list_any spec.is_unknown verdicts.now }
{
    for verdict in verdicts {
        if is_unknown(verdict) {
            return true;
        }
    }
    false
}

/// The status that a diagnosis comes to, once it is written.
fn status_of(diagnosis: &Diagnosis) -> u8
    ensures { result ≡ spec.status_of_diagnosis diagnosis.now }
{
    match diagnosis {
        Diagnosis::Found(findings) => {
            if any_unknown(findings.verdicts.as_slice()) {
                return 9;
            }
            0
        }
        Diagnosis::Nothing(_) => 1,
        Diagnosis::Undecided(_) => 9,
    }
}

/// The report on an accepted source and a log, whole.
pub fn report_on(
    alloc: Global,
    request: &Request<'_>,
    places: &Places,
    program: &Accepted,
    bounds: &Bounds,
    log: &LogText,
) -> Result<Output, DiagnoseFault>
    ensures report { IfOk result (spec.IsReportOn (asked_in request.now) places.now program.now bounds.now log.now) }
    ensures large { result ≡ Err TooLarge → 2000000 < measure_of program.now bounds.now log.now }
{
    let found = diagnose_source(
        alloc,
        program,
        bounds,
        log,
        request.conflicts,
        request.by_line,
    )?;
    let source = Source {
        externals: program.externals.as_slice(),
        profile: &program.profile,
    };
    let assumed = assumptions(alloc, &source)?;
    let subject = Subject {
        places,
        log,
        bounds,
        conflicts: request.conflicts,
        assumptions: assumed.as_slice(),
        facts: found.facts.facts.as_slice(),
    };
    let text = report(alloc, &subject, &found.diagnosis)?;
    let status = status_of(&found.diagnosis);
    Ok(Output {
        text,
        end: Bytes::new(alloc),
        status,
        evidence: Kept {
            run: found.run,
            diagnosis: Some(found.diagnosis),
        },
    })
}
