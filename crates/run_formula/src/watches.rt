//! The variables that are watched, by the sites whose prints see them.
ghost use Rattle.std.specs.Prelude.{◌≡◌, ◌+◌, cond, IfOk};
ghost use Rattle.run_formula.specs.Watched.{fact_of, watch_at, watches};

use plain_data::{Fact, Facts, Items, Watched};
use std::alloc::{AllocError, Global};

/// A variable that is watched in a line: what prints by a site see of it that begin in the line.
#[derive(Clone, Copy, PartialEq, Eq)]
pub struct Watch {
    /// The site: the byte offset of the called name.
    pub at: u32,
    /// The line of the log, from 1.
    pub line: u32,
    /// The variable's place, from 0, in what the site's prints see.
    pub place: u32,
}

/// The fact of a number, from 1.
fn fact_numbered(facts: &[Fact], number: u32) -> Option<Fact>
    ensures { result ≡ fact_of facts.now number }
{
    if number == 0 {
        return None;
    }
    let index = number as usize - 1;
    facts.get(index).copied()
}

/// A place in what the prints of a fact's site see.
fn watch_of(fact: Option<Fact>, place: u32) -> Watch
    ensures { result ≡ watch_at fact place }
{
    match fact {
        Some(Fact::Print { at, line }) => Watch { at, line, place },
        _ => Watch {
            at: 0,
            line: 0,
            place,
        },
    }
}

/// The place behind another one, where both are of one fact, else the first.
fn place_behind(is_same: bool, next: u32) -> u32
    ensures { result ≡ cond is_same next 0 }
{
    if is_same { next } else { 0 }
}

/// The next place. It fails where it has no number.
fn next_place(place: u32) -> Result<u32, AllocError>
    ensures { IfOk result (λ next. next ≡ place + 1) }
{
    match place.checked_add(1) {
        Some(next) => Ok(next),
        None => Err(AllocError),
    }
}

/// What is watched of each of these variables, in order.
fn watches_in(
    alloc: Global,
    facts: &[Fact],
    watched: &[Watched],
) -> Result<Items<Watch>, AllocError>
    ensures { IfOk result (λ all. all ≡ watches facts.now watched.now) }
{
    let mut all = Items::new(alloc);
    let mut last = 0;
    let mut next = 0;
    'watched: for index in 0..watched.len() {
        let one = watched[index];
        let place = place_behind(one.fact == last, next);
        let fact = fact_numbered(facts, one.fact);
        let watch = watch_of(fact, place);
        all.push(watch)?;
        last = one.fact;
        next = next_place(place)?;
    }
    Ok(all)
}

/// What is watched of each watched variable of facts, in order. It fails for want of memory alone.
pub fn watches_of(alloc: Global, facts: &Facts) -> Result<Items<Watch>, AllocError>
    ensures { IfOk result (λ all. all ≡ watches facts.now.facts facts.now.watched) }
{
    let all = watches_in(alloc, facts.facts.as_slice(), facts.watched.as_slice())?;
    Ok(all)
}
