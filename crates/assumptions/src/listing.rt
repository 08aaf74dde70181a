//! What is assumed of a source, in order.
ghost use Rattle.std.specs.Prelude.{◌≡◌, ◌++◌, ◌∷◌, [], map, IfOk, OnOk, option_map};
ghost use Rattle.std.specs.Option.{option_copied};
ghost use Rattle.c_means.specs.Rules as rules;
ghost use Rattle.c_means.specs.Units.{IsAcceptedSource};
ghost use Rattle.c_item_notes.specs.Levels.{judged};
ghost use Rattle.c_program_notes.specs.Wholes.{overview as overview_in};
ghost use Rattle.assumptions.specs.Asked as asked_by;
ghost use Rattle.assumptions.specs.Assumed as spec;
ghost use Rattle.assumptions.specs.Noted as noted;

use crate::asking::asked;
use crate::names::{by_name, name_of};
use crate::objects::undefined_in;
use crate::outside::outside_noted;
use c_checks::filling_function;
use c_item_notes::Source;
use c_language::Name;
use c_means::{FillFunction, Profile};
use c_program_notes::{Overview, read_source};
use diagnoses::{Assumption, Filling};
use plain_data::Items;
use std::alloc::{AllocError, Global};
use std::collections::BTreeSet;

// ---- what is known of a function outside

fn filling(function: Option<&FillFunction>) -> Option<Filling>
    ensures { result ≡ option_map spec.filling (option_copied function.entry) }
{
    match function {
        None => None,
        Some(function) => Some(Filling {
            buffer: function.buffer,
            length: function.length,
        }),
    }
}

fn is_among(name: &[u8], names: &[Name]) -> bool
    ensures { result ≡ rules.is_among name.now names.now }
{
    for other in names {
        if other.get().as_slice() == name {
            return true;
        }
    }
    false
}

fn outside(alloc: Global, profile: &Profile, name: &[u8]) -> Result<Assumption, AllocError>
    ensures { IfOk result (λ a. a ≡ spec.outside profile.now name.now) }
{
    let fills = filling(filling_function(profile, name));
    let never_null = is_among(name, profile.never_null.as_slice());
    Ok(Assumption::Outside {
        name: name_of(alloc, name)?,
        fills,
        never_null,
    })
}

fn object(alloc: Global, name: &[u8]) -> Result<Assumption, AllocError>
    ensures { IfOk result (λ a. a ≡ spec.object name.now) }
{
    Ok(Assumption::Object {
        name: name_of(alloc, name)?,
    })
}

// ---- in order

fn put_outside(
    alloc: Global,
    profile: &Profile,
    names: &BTreeSet<Vec<u8>>,
    all: &mut Items<Assumption>,
) -> Result<(), AllocError>
    ensures { OnOk result (all.new ≡ all.old ++ map (spec.outside profile.now) (map (λ name. name.items) names.now.keys)) }
{
    for name in names {
        all.push(outside(alloc, profile, name.as_slice())?)?;
    }
    Ok(())
}

fn put_objects(
    alloc: Global,
    names: &BTreeSet<Vec<u8>>,
    all: &mut Items<Assumption>,
) -> Result<(), AllocError>
    ensures { OnOk result (all.new ≡ all.old ++ map spec.object (map (λ name. name.items) names.now.keys)) }
{
    for name in names {
        all.push(object(alloc, name.as_slice())?)?;
    }
    Ok(())
}

/// What is assumed, by what was noted of the source as it is asked.
#[tactic(auto, unfolding(crate::specs::Noted::assumptions_noted))]
fn noted_in(
    alloc: Global,
    profile: &Profile,
    asked: &Profile,
    overview: &Overview,
) -> Result<Items<Assumption>, AllocError>
    ensures { IfOk result (λ all. all ≡ noted.assumptions_noted profile.now asked.now overview.now) }
{
    let called = outside_noted(alloc, asked, overview)?;
    let undefined = undefined_in(alloc, overview.needs.lasting.as_slice())?;
    let mut all = Items::new(alloc);
    put_outside(
        alloc,
        profile,
        &by_name(alloc, called.as_slice())?,
        &mut all,
    )?;
    put_objects(alloc, &by_name(alloc, undefined.as_slice())?, &mut all)?;
    Ok(all)
}

/// What the runs of an accepted source rest on that it doesn't define: the functions outside that functions which are
/// reached call, with what the profile says of them; then the objects that are needed and have no definition. Each
/// stands once, by the bytes of its name. It fails for want of memory alone.
pub fn assumptions(alloc: Global, source: &Source<'_>) -> Result<Items<Assumption>, AllocError>
    requires { IsAcceptedSource source.now.externals.now source.now.profile.now }
    ensures { IfOk result (λ all. all ≡ spec.assumptions_of source.now.externals.now source.now.profile.now) }
{
    let asked = asked(alloc, source.profile)?;
    let asking = Source {
        externals: source.externals,
        profile: &asked,
    };
    let overview = read_source(alloc, &asking)?;
    let assumed = noted_in(alloc, source.profile, &asked, &overview);
    overview.discard();
    assumed
}
