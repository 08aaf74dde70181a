//! One command from the bytes of its files to its output.
ghost use Rattle.std.specs.Prelude.{◌≡◌, []};
ghost use Rattle.config_text.specs.Values.{InRanges};
ghost use Rattle.sl_io.specs.Writes.{Writes};
ghost use Rattle.sherlog.specs.Causes.{AreInForce};
ghost use Rattle.sherlog.specs.Inputs.{asked_in};
ghost use Rattle.sherlog.specs.Stages.{Forms, IsRunnable, IsTraced, Serves};
ghost use Rattle.sherlog.specs.declared.request.Command.{Command as CommandType};

use crate::getting::{Parsed, get_log, read_source, world};
use crate::lines::end_line;
use crate::output::Output;
use crate::refusal::Refusal;
use crate::reporting::report_on;
use crate::request::{Command, Request};
use crate::source::{accepted, listed, unserved};
use accepted::Accepted;
use c_language::{Places, Unit};
use config_text::Config;
use diagnoses::Kept;
use must_facts::DiagnoseFault;
use plain_data::{Bounds, Bytes};
use replayer::{replay, unrolled_size};
use site_text::{match_lines, site_lines};
use sl_config::Name;
use sl_io::{Shelf, Sink, SinkFault, tell};
use std::alloc::Global;

/// The most nodes to which a program may unroll.
const MAX_SIZE: u64 = 2_000_000;

/// The bounds in force.
fn bounds_of(request: &Request<'_>, config: &Config) -> Bounds
    requires { InRanges config.now }
    ensures { AreInForce (asked_in request.now) config.now result }
{
    Bounds {
        turns: request.turns,
        depth: request.depth,
        heap: config.heap,
        outside: config.outside,
        texts: config.texts,
        arguments: config.arguments,
    }
}

/// A program, with what its diagnosis takes besides its log.
#[derive(Clone, Copy)]
struct Traced<'a> {
    program: &'a Accepted,
    bounds: &'a Bounds,
    places: &'a Places,
    prefix: &'a Option<Name>,
    drops: bool,
}

/// Gets the log of a program, and forms the whole report.
fn report_along<H: Shelf>(
    alloc: Global,
    request: &Request<'_>,
    traced: &Traced<'_>,
    shelf: &mut H,
) -> Result<Output, Refusal>
    requires command { request.now.command ≡ CommandType.Diagnose }
    requires traced { IsTraced (asked_in request.now) (H.state shelf.old).files traced.now.program.now
        traced.now.bounds.now traced.now.places.now traced.now.prefix.now traced.now.drops }
    ensures { Forms (asked_in request.now) (H.state shelf.old) (H.state shelf.new) result }
{
    let log = get_log(alloc, request, traced.prefix, traced.drops, shelf)?;
    match report_on(
        alloc,
        request,
        traced.places,
        traced.program,
        traced.bounds,
        &log,
    ) {
        Ok(output) => Ok(output),
        Err(DiagnoseFault::TooLarge) => Err(Refusal::TooLarge),
        Err(DiagnoseFault::Unwalked) => Err(unserved(alloc, traced.program)),
        Err(DiagnoseFault::Memory) => Err(Refusal::Memory),
    }
}

/// Gets and reads the files of `diagnose`, and forms the whole report. Nothing is written.
fn form_report<H: Shelf>(
    alloc: Global,
    request: &Request<'_>,
    shelf: &mut H,
) -> Result<Output, Refusal>
    requires { request.now.command ≡ CommandType.Diagnose }
    ensures { Forms (asked_in request.now) (H.state shelf.old) (H.state shelf.new) result }
{
    let Parsed {
        config,
        bytes,
        unit,
    } = read_source(alloc, request, shelf)?;
    let bounds = bounds_of(request, &config);
    let prefix = config.prefix;
    let drops = config.drop_unmatched;
    let Unit { externals, places } = unit;
    let program = accepted(
        alloc,
        request.source,
        bytes.as_slice(),
        externals,
        config.profile,
    )?;
    let traced = Traced {
        program: &program,
        bounds: &bounds,
        places: places.get(),
        prefix: &prefix,
        drops,
    };
    let output = report_along(alloc, request, &traced, shelf);
    program.discard();
    output
}

/// Gets the world, and runs a program of the source that has these bytes.
fn run_in_world<H: Shelf>(
    alloc: Global,
    request: &Request<'_>,
    bytes: &[u8],
    program: &Accepted,
    bounds: &Bounds,
    shelf: &mut H,
) -> Result<Output, Refusal>
    requires command { request.now.command ≡ CommandType.Replay }
    requires runnable { IsRunnable (asked_in request.now) (H.state shelf.old).files program.now bounds.now bytes.now }
    ensures { Forms (asked_in request.now) (H.state shelf.old) (H.state shelf.new) result }
{
    let world = world(alloc, request, shelf)?;
    if MAX_SIZE < unrolled_size(alloc, program, bounds, MAX_SIZE + 1)? {
        return Err(Refusal::TooLarge);
    }
    let run = replay(alloc, program, &world, bounds)?;
    let end = end_line(alloc, request.source, bytes, run.finish)?;
    Ok(Output {
        text: run.printed,
        end,
        status: 0,
        evidence: Kept::new(alloc),
    })
}

/// Gets and reads the files of `replay`, and runs the program. Nothing is written.
fn form_run<H: Shelf>(
    alloc: Global,
    request: &Request<'_>,
    shelf: &mut H,
) -> Result<Output, Refusal>
    requires { request.now.command ≡ CommandType.Replay }
    ensures { Forms (asked_in request.now) (H.state shelf.old) (H.state shelf.new) result }
{
    let Parsed {
        config,
        bytes,
        unit,
    } = read_source(alloc, request, shelf)?;
    let bounds = bounds_of(request, &config);
    let program = accepted(
        alloc,
        request.source,
        bytes.as_slice(),
        unit.externals,
        config.profile,
    )?;
    let output = run_in_world(alloc, request, bytes.as_slice(), &program, &bounds, shelf);
    program.discard();
    output
}

/// What is written where nothing is told of a run.
fn written(alloc: Global, text: Bytes) -> Output
    ensures text { result.text ≡ text }
    ensures end { result.end ≡ [] }
    ensures status { result.status ≡ 0 }
{
    Output {
        text,
        end: Bytes::new(alloc),
        status: 0,
        evidence: Kept::new(alloc),
    }
}

/// Gets and reads the source of `sites`, and lists its log calls. Nothing is written.
fn form_listing<H: Shelf>(
    alloc: Global,
    request: &Request<'_>,
    shelf: &mut H,
) -> Result<Output, Refusal>
    requires { request.now.command ≡ CommandType.Sites }
    ensures { Forms (asked_in request.now) (H.state shelf.old) (H.state shelf.new) result }
{
    let Parsed {
        config,
        bytes,
        unit,
    } = read_source(alloc, request, shelf)?;
    let Unit { externals, places } = unit;
    let sites = listed(
        alloc,
        request.source,
        bytes.as_slice(),
        externals,
        config.profile,
    )?;
    let text = site_lines(alloc, places.get(), sites.as_slice())?;
    Ok(written(alloc, text))
}

/// Gets and reads the files of `match`, and finds where prints of the source's log calls can end along the log.
/// Nothing is written.
fn form_matches<H: Shelf>(
    alloc: Global,
    request: &Request<'_>,
    shelf: &mut H,
) -> Result<Output, Refusal>
    requires { request.now.command ≡ CommandType.Match }
    ensures { Forms (asked_in request.now) (H.state shelf.old) (H.state shelf.new) result }
{
    let Parsed {
        config,
        bytes,
        unit,
    } = read_source(alloc, request, shelf)?;
    let prefix = config.prefix;
    let drops = config.drop_unmatched;
    let Unit { externals, places } = unit;
    let sites = listed(
        alloc,
        request.source,
        bytes.as_slice(),
        externals,
        config.profile,
    )?;
    let log = get_log(alloc, request, &prefix, drops, shelf)?;
    let text = match_lines(alloc, places.get(), &log, sites.as_slice())?;
    Ok(written(alloc, text))
}

fn form_output<H: Shelf>(
    alloc: Global,
    request: &Request<'_>,
    shelf: &mut H,
) -> Result<Output, Refusal>
    ensures { Forms (asked_in request.now) (H.state shelf.old) (H.state shelf.new) result }
{
    match request.command {
        Command::Diagnose => form_report(alloc, request, shelf),
        Command::Replay => form_run(alloc, request, shelf),
        Command::Sites => form_listing(alloc, request, shelf),
        Command::Match => form_matches(alloc, request, shelf),
    }
}

/// Hands the whole output over by one write, where it is not empty.
fn write_whole<O: Sink>(out: &mut O, output: &[u8]) -> Result<(), SinkFault>
    ensures { Writes (O.state out.old) (O.state out.new) output.now result }
{
    if output.is_empty() {
        return Ok(());
    }
    out.write(output)
}

/// Serves a command: the status, once the output is written. The evidence of a diagnosis is kept then.
pub fn serve<H: Shelf, O: Sink, E: Sink>(
    alloc: Global,
    request: &Request<'_>,
    shelf: &mut H,
    out: &mut O,
    err: &mut E,
    kept: &mut Kept,
) -> Result<u8, Refusal>
    ensures { Serves (asked_in request.now) (H.state shelf.old) (H.state shelf.new)
        (O.state out.old) (O.state out.new) (E.state err.old) (E.state err.new) kept.new result }
{
    let output = form_output(alloc, request, shelf)?;
    match write_whole(out, output.text.as_slice()) {
        Ok(()) => {
            if request.command == Command::Replay {
                tell(err, output.end.as_slice());
            }
            *kept = output.evidence;
            Ok(output.status)
        }
        Err(SinkFault::Failed) => Err(Refusal::Fault),
    }
}
