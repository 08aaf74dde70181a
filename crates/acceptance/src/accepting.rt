//! Whether a source is accepted, and its program.
ghost use Rattle.std.specs.Prelude.{◌≡◌, IfOk, IfErr};
ghost use Rattle.c_item_notes.specs.Levels.{judged};
ghost use Rattle.c_program_notes.specs.Wholes.{overview as overview_in};
ghost use Rattle.c_means.specs.Units.{IsAcceptedSource};
ghost use Rattle.acceptance.specs.Refusals.{Judges, Refuses};
ghost use Rattle.accepted.specs.Cores.{HasItsFunctions, HasItsRuns};

use crate::fault::CheckFault;
use accepted::{Accepted, discard_source};
use c_item_notes::Source;
use c_language::External;
use c_means::Profile;
use c_program_notes::{Overview, Refusal, read_source, why_refused};
use core_tree::Core;
use core_units::core_of;
use plain_data::{Items, Shared};
use std::alloc::{AllocError, Global};

/// Why a source that was read once is refused, or none where it is accepted.
fn judged_by(
    alloc: Global,
    source: &Source<'_>,
    overview: &Overview,
) -> Result<Option<Refusal>, AllocError>
    requires { overview.now ≡ overview_in (judged source.now) }
    ensures { IfOk result (Judges source.now.externals.now source.now.profile.now) }
{
    why_refused(alloc, source, overview)
}

/// Why a source is refused, of the external declarations in order, with what is known of functions besides; none
/// where it is accepted. It fails for want of memory alone.
pub fn check(
    alloc: Global,
    externals: &[Shared<External>],
    profile: &Profile,
) -> Result<Option<Refusal>, AllocError>
    ensures { IfOk result (Judges externals.now profile.now) }
{
    let source = Source { externals, profile };
    let overview = read_source(alloc, &source)?;
    let judged = judged_by(alloc, &source, &overview);
    overview.discard();
    judged
}

/// The core of a source that was read; it has none exactly where it has no `main`.
fn made_of(alloc: Global, source: &Source<'_>, overview: &Overview) -> Result<Core, CheckFault>
    requires { overview.now ≡ overview_in (judged source.now) }
    ensures core { IfOk result (HasItsRuns source.now.externals.now source.now.profile.now) }
    ensures functions { IfOk result (HasItsFunctions source.now.externals.now source.now.profile.now) }
    ensures refused { IfErr result (Refuses source.now.externals.now source.now.profile.now) }
{
    match core_of(alloc, source, overview)? {
        Some(core) => Ok(core),
        None => Err(CheckFault::Refused(Refusal::NoMain)),
    }
}

/// The core of a source that was read, where it is accepted.
fn core_by(alloc: Global, source: &Source<'_>, overview: &Overview) -> Result<Core, CheckFault>
    requires { overview.now ≡ overview_in (judged source.now) }
    ensures kept { IfOk result (λ _. IsAcceptedSource source.now.externals.now source.now.profile.now) }
    ensures core { IfOk result (HasItsRuns source.now.externals.now source.now.profile.now) }
    ensures functions { IfOk result (HasItsFunctions source.now.externals.now source.now.profile.now) }
    ensures refused { IfErr result (Refuses source.now.externals.now source.now.profile.now) }
{
    match judged_by(alloc, source, overview)? {
        None => made_of(alloc, source, overview),
        Some(refusal) => Err(CheckFault::Refused(refusal)),
    }
}

/// The core of a source that is accepted.
fn core_in(alloc: Global, source: &Source<'_>) -> Result<Core, CheckFault>
    ensures kept { IfOk result (λ _. IsAcceptedSource source.now.externals.now source.now.profile.now) }
    ensures core { IfOk result (HasItsRuns source.now.externals.now source.now.profile.now) }
    ensures functions { IfOk result (HasItsFunctions source.now.externals.now source.now.profile.now) }
    ensures refused { IfErr result (Refuses source.now.externals.now source.now.profile.now) }
{
    let overview = read_source(alloc, source)?;
    let core = core_by(alloc, source, &overview);
    overview.discard();
    core
}

/// The program of an accepted source: of the external declarations in order, with what is known of functions besides.
///
/// It is refused exactly where a rule is broken, but for want of memory.
pub fn accept(
    alloc: Global,
    externals: Items<Shared<External>>,
    profile: Profile,
) -> Result<Accepted, CheckFault>
    ensures externals { IfOk result (λ p. p.externals ≡ externals) }
    ensures profile { IfOk result (λ p. p.profile ≡ profile) }
    ensures refused { IfErr result (Refuses externals profile) }
{
    let source = Source {
        externals: externals.as_slice(),
        profile: &profile,
    };
    match core_in(alloc, &source) {
        Ok(core) => Ok(Accepted {
            externals,
            profile,
            core,
        }),
        Err(fault) => {
            discard_source(externals, profile);
            Err(fault)
        }
    }
}
