//! Variables that a print shows, in the core.
ghost use Rattle.std.specs.Prelude.{◌≡◌, ◌++◌, IfOk, OnOk};
ghost use Rattle.c_means.specs.Runs.{place_in};
ghost use Rattle.core_callees.specs.Watching as spec;

use c_language::{Class, Duration, Entry, IntegerKind, Means};
use core_programs::PlaceTable;
use core_tree::{Holder, ValueType, Watched};
use elaborate::value_type;
use plain_data::{Items, Shared};
use std::alloc::{AllocError, Global};

/// As what an object of this kind is seen; of what is no integer nothing is.
fn stored_as(kind: Option<IntegerKind>) -> ValueType
    ensures { result ≡ spec.stored_in kind }
{
    match kind {
        Some(kind) => value_type(Class::Integer(kind), 0),
        None => ValueType::Void,
    }
}

fn holder(places: &PlaceTable, at: u32, duration: Duration) -> Holder
    ensures { result ≡ spec.holder_in (place_in places.now) at duration }
{
    match duration {
        Duration::Automatic => Holder::Local,
        Duration::Static => {
            let place = places.place(at);
            Holder::Fixed { place }
        }
    }
}

/// A name that is no object.
fn unseen(at: u32) -> Watched
    ensures { result ≡ spec.unseen at }
{
    Watched {
        at,
        holder: Holder::Local,
        stored: ValueType::Void,
    }
}

/// A variable in the core.
fn watched_variable(places: &PlaceTable, entry: &Entry) -> Watched
    ensures { result ≡ spec.watched_of (place_in places.now) entry.now }
{
    let at = entry.at;
    match &entry.means {
        Means::Object {
            ctype,
            duration,
            ..
        } => Watched {
            at,
            holder: holder(places, at, *duration),
            stored: stored_as(ctype.get().kind()),
        },
        Means::Function { .. } => unseen(at),
        Means::Typedef { .. } => unseen(at),
        Means::Constant { .. } => unseen(at),
        Means::Faulty => unseen(at),
    }
}

/// Puts the variables behind those that are there.
pub(crate) fn watch(
    places: &PlaceTable,
    entries: &[Shared<Entry>],
    all: &mut Items<Watched>,
) -> Result<(), AllocError>
    ensures { OnOk result (all.new ≡ all.old ++ spec.all_watched (place_in places.now) entries.now) }
{
    for entry in entries {
        all.push(watched_variable(places, entry.get()))?;
    }
    Ok(())
}

/// Variables that a print shows, in order. It fails for want of memory alone.
pub fn watched_variables(
    alloc: Global,
    places: &PlaceTable,
    entries: &[Shared<Entry>],
) -> Result<Items<Watched>, AllocError>
    ensures { IfOk result (λ ws. ws ≡ spec.all_watched (place_in places.now) entries.now) }
{
    let mut all = Items::new(alloc);
    watch(places, entries, &mut all)?;
    Ok(all)
}
