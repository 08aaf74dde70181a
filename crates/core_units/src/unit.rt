//! The core of a whole source (C99 6.9).
ghost use Rattle.std.specs.Prelude.{◌≡◌, ◌+◌, IfOk};
ghost use Rattle.c_item_notes.specs.Levels.{judged};
ghost use Rattle.c_program_notes.specs.Wholes.{overview as overview_in};
ghost use Rattle.core_units.specs.Overviews.{count_noted};
ghost use Rattle.core_units.specs.Surroundings as spec;
ghost use Rattle.core_units.specs.Units.{MaybeCore, MaybeParts};

use crate::library::library;
use crate::plan::{count_reached, main_takes_two, numbered, plans_of};
use crate::walk::{Around, Made, make_each};
use c_item_notes::Source;
use c_program_notes::{Overview, Preparation, prepare};
use core_callees::{number_named, numbered_functions};
use core_prefix::cut;
use core_tree::{Core, Function, LastingSetting};
use plain_data::Items;
use std::alloc::{AllocError, Global};

/// How many functions of the C library have a body.
const LIBRARY: u32 = 9;

/// The functions of a source in the core, those of the prelude behind its own that are reached, and the others behind
/// these; and what is set before `main` is called.
#[derive(Drop)]
pub struct All {
    pub functions: Items<Function>,
    pub settings: Items<LastingSetting>,
}

/// All functions of a source in the core, what is set before `main` is called, and the number of `main`.
#[derive(Drop)]
pub struct Parts {
    pub functions: Items<Function>,
    pub settings: Items<LastingSetting>,
    pub main: u32,
}

/// The functions of the source and of the prelude, by what is known of the whole source.
fn all_made(alloc: Global, around: &Around<'_>, overview: &Overview) -> Result<All, AllocError>
    requires around { spec.IsAroundOf around.now }
    requires overview { overview.now ≡ overview_in (judged around.now.source.now) }
    ensures { IfOk result (λ x. spec.AreAllIn around.now x) }
{
    let plans = plans_of(alloc, overview)?;
    let made = make_each(alloc, around, plans.as_slice())?;
    let Made {
        mut functions,
        others,
        settings,
    } = made;
    let mut more = library(alloc, around, overview)?;
    more.append(others)?;
    functions.append(more)?;
    Ok(All {
        functions,
        settings,
    })
}

/// How many functions stand in front of those that aren't reached.
fn needed_count(reached: u32) -> Result<u32, AllocError>
    ensures { IfOk result (λ n. n ≡ reached + 9) }
{
    match reached.checked_add(LIBRARY) {
        Some(count) => Ok(count),
        None => Err(AllocError),
    }
}

fn all_parts(
    alloc: Global,
    source: &Source<'_>,
    overview: &Overview,
    reached: u32,
    count: u32,
) -> Result<Option<Parts>, AllocError>
    requires overview { overview.now ≡ overview_in (judged source.now) }
    requires reached { reached ≡ count_noted overview.now.reached 0 overview.now.program.outers }
    requires count { count ≡ reached + 9 }
    ensures { IfOk result (λ x. MaybeParts source.now.externals.now source.now.profile.now x) }
{
    let functions = numbered(alloc, overview, count)?;
    let functions = numbered_functions(alloc, functions.as_slice())?;
    let around = Around {
        source,
        places: &overview.places,
        functions: &functions,
        prelude: reached,
    };
    let Some(main) = number_named(&functions, b"main".as_slice()) else {
        return Ok(None);
    };
    let All {
        functions,
        settings,
    } = all_made(alloc, &around, overview)?;
    Ok(Some(Parts {
        functions,
        settings,
        main,
    }))
}

/// The core of a whole source that was read, where there is a `main`: in every world and bounds it has the program's
/// run, room and size, whatever rules are broken. Of the functions that aren't reached it has none, where no other
/// calls one. It fails for want of memory alone.
pub fn core_of(
    alloc: Global,
    source: &Source<'_>,
    overview: &Overview,
) -> Result<Option<Core>, AllocError>
    requires { overview.now ≡ overview_in (judged source.now) }
    ensures { IfOk result (λ p. MaybeCore source.now.externals.now source.now.profile.now p) }
{
    let Some(has_arguments) = main_takes_two(overview) else {
        return Ok(None);
    };
    let reached = count_reached(overview)?;
    let count = needed_count(reached)?;
    let Preparation { met, objects } = prepare(alloc, source, overview)?;
    let Some(parts) = all_parts(alloc, source, overview, reached, count)? else {
        return Ok(None);
    };
    let Parts {
        functions,
        settings,
        main,
    } = parts;
    let core = Core {
        functions,
        met,
        objects,
        settings,
        places: overview.places.count(),
        main,
        has_arguments,
    };
    Ok(Some(cut(core, count)))
}
