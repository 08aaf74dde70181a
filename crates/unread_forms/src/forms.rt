//! Whether a source has one of the forms that aren't read yet. It fails for want of memory alone.
ghost use Rattle.std.specs.Prelude.{◌≡◌, IfOk};
ghost use Rattle.std.specs.List.{list_any};
ghost use Rattle.c_item_notes.specs.Levels.{judged};
ghost use Rattle.c_program_notes.specs.Wholes.{overview as overview_in};
ghost use Rattle.unread_forms.specs.Forms as spec;

use crate::needed::kept;
use c_item_notes::Source;
use c_language::{Aggregate, Content, External};
use c_means::Profile;
use c_program_notes::{Overview, program_notes, read_source};
use plain_data::{Items, Shared};
use printf_text::{FormatFault, Kind, kinds, parse_format};
use source_sites::{Site, sites};
use std::alloc::{AllocError, Global};

// ---- structures and unions

fn is_defined(aggregate: &Aggregate) -> bool
    ensures { result ≡ spec.is_defined aggregate.now }
{
    match &aggregate.content {
        Content::Incomplete => false,
        Content::Opaque(_) | Content::Complete(_) => true,
    }
}

fn some_is_defined(aggregates: &[Aggregate]) -> bool
    ensures { result ≡ list_any spec.is_defined aggregates.now }
{
    aggregates.iter().any(|aggregate| is_defined(aggregate))
}

/// Whether external declarations define a structure or union.
fn define_structures(
    alloc: Global,
    externals: &[Shared<External>],
    profile: &Profile,
) -> Result<bool, AllocError>
    ensures { IfOk result (λ b. b ≡ spec.define_structures externals.now) }
{
    let source = Source { externals, profile };
    let program = program_notes(alloc, &source)?;
    let defines = some_is_defined(program.scope.tables().aggregates.as_slice());
    program.discard();
    Ok(defines)
}

// ---- texts and pointers in log calls

fn is_text_or_pointer(kind: Kind) -> bool
    ensures { result ≡ spec.is_text_or_pointer kind }
{
    match kind {
        Kind::Integer => false,
        Kind::Text | Kind::Pointer => true,
    }
}

fn some_is_text_or_pointer(kinds: &[Kind]) -> bool
    ensures { result ≡ list_any spec.is_text_or_pointer kinds.now }
{
    kinds.iter().any(|kind| is_text_or_pointer(*kind))
}

fn shows_one(alloc: Global, site: &Site) -> Result<bool, AllocError>
    ensures { IfOk result (λ b. b ≡ spec.shows_text_or_pointer site.now) }
{
    match parse_format(alloc, site.format.bytes.as_slice()) {
        Ok(pieces) => {
            let asked = kinds(alloc, &pieces)?;
            Ok(some_is_text_or_pointer(asked.as_slice()))
        }
        Err(FormatFault::Memory) => Err(AllocError),
        Err(_) => Ok(false),
    }
}

fn some_shows_one(alloc: Global, sites: &[Site]) -> Result<bool, AllocError>
    ensures { IfOk result (λ b. b ≡ list_any spec.shows_text_or_pointer sites.now) }
{
    for site in sites {
        let shows = shows_one(alloc, site)?;
        if shows {
            return Ok(true);
        }
    }
    Ok(false)
}

fn log_calls_show_one(
    alloc: Global,
    source: &Source<'_>,
    overview: &Overview,
) -> Result<bool, AllocError>
    requires { overview.now ≡ overview_in (judged source.now) }
    ensures { IfOk result (λ b. b ≡ spec.shows_some source.now.externals.now source.now.profile.now) }
{
    let found = sites(alloc, source, overview)?;
    let shows = some_shows_one(alloc, found.as_slice())?;
    Ok(shows)
}

// ---- all of them

/// Whether a source that was read has a form that isn't read yet.
fn has_unread_in(
    alloc: Global,
    source: &Source<'_>,
    overview: &Overview,
) -> Result<bool, AllocError>
    requires { overview.now ≡ overview_in (judged source.now) }
    ensures { IfOk result (λ b. b ≡ spec.has_unread source.now.externals.now source.now.profile.now) }
{
    let needed = kept(alloc, source, overview)?;
    let defines = define_structures(alloc, needed.as_slice(), source.profile)?;
    if defines {
        return Ok(true);
    }
    let shows = log_calls_show_one(alloc, source, overview)?;
    Ok(shows)
}

/// Whether a source has a form that isn't read yet where it is diagnosed: what is needed of it defines a structure or
/// union, or a log call of a function that is reached shows a text or a pointer.
pub fn has_unread(
    alloc: Global,
    externals: &[Shared<External>],
    profile: &Profile,
) -> Result<bool, AllocError>
    ensures { IfOk result (λ b. b ≡ spec.has_unread externals.now profile.now) }
{
    let source = Source { externals, profile };
    let overview = read_source(alloc, &source)?;
    let unread = has_unread_in(alloc, &source, &overview);
    overview.discard();
    unread
}
