//! What was noted so far, with more behind it: each note is moved once, however deep the statement stands.

ghost use Rattle.std.specs.Prelude.{◌≡◌, ◌++◌, [], None, OnOk};
ghost use Rattle.c_means.specs.Statements as statements;
ghost use Rattle.c_checks.specs.Refusals.{lesser, least_of};
ghost use Rattle.c_item_notes.specs.ItemTellings.{both};
ghost use Rattle.c_stmt_notes.specs.StatementTellings as spec;

use c_checks::{Case, lesser, repeated_cases};
use c_item_notes::ItemNotes;
use c_means::Breach;
use c_notes::ExprNotes;
use plain_data::Items;
use std::alloc::{AllocError, Global};
use std::mem::replace;

/// A rule that is broken.
#[tactic(auto, using(crate::proofs::Added::broken_behind))]
pub(crate) fn and_broken(found: &mut ItemNotes, breach: Option<Breach>)
    ensures { found.new ≡ both found.old (spec.broken breach) }
{
    let before = found.breach.take();
    found.breach = lesser(before, breach);
}

/// An expression that is evaluated.
#[tactic(auto, using(crate::proofs::Added::evaluated_behind))]
pub(crate) fn and_evaluated(
    found: &mut ItemNotes,
    breach: Option<Breach>,
    notes: ExprNotes,
) -> Result<(), AllocError>
    ensures { OnOk result (found.new ≡ both found.old (spec.evaluated breach notes)) }
{
    let ExprNotes { calls, called, .. } = notes;
    found.calls.append(calls)?;
    found.called.append(called)?;
    let before = found.breach.take();
    found.breach = lesser(before, breach);
    Ok(())
}

/// A case of this value, where it has one, or `default`.
fn and_case_at(at: u32, value: Option<i128>, cases: &mut Items<Case>) -> Result<(), AllocError>
    ensures { OnOk result (cases.new ≡ cases.old ++ spec.case_at at value) }
{
    match value {
        None => Ok(()),
        Some(_) => {
            cases.push(Case { at, value })?;
            Ok(())
        }
    }
}

/// A case, whose expression isn't evaluated.
#[tactic(auto, using(crate::proofs::Added::case_behind))]
pub(crate) fn and_case(
    found: &mut ItemNotes,
    at: u32,
    breach: Option<Breach>,
    value: Option<i128>,
    notes: ExprNotes,
) -> Result<(), AllocError>
    ensures { OnOk result (found.new ≡ both found.old (spec.case_notes at breach value notes)) }
{
    let ExprNotes { calls, .. } = notes;
    found.calls.append(calls)?;
    and_case_at(at, value, &mut found.cases)?;
    let before = found.breach.take();
    found.breach = lesser(before, breach);
    Ok(())
}

/// `default`.
#[tactic(auto, using(crate::proofs::Added::default_behind))]
pub(crate) fn and_default(
    found: &mut ItemNotes,
    at: u32,
    breach: Option<Breach>,
) -> Result<(), AllocError>
    ensures { OnOk result (found.new ≡ both found.old (spec.default_notes at breach)) }
{
    found.cases.push(Case { at, value: None })?;
    let before = found.breach.take();
    found.breach = lesser(before, breach);
    Ok(())
}

/// An item.
pub(crate) fn and_item(found: &mut ItemNotes, more: ItemNotes) -> Result<(), AllocError>
    ensures { OnOk result (found.new ≡ both found.old more) }
{
    let ItemNotes {
        breach,
        cases,
        calls,
        called,
        lasting,
        links,
    } = more;
    found.cases.append(cases)?;
    found.calls.append(calls)?;
    found.called.append(called)?;
    found.lasting.append(lasting)?;
    found.links.append(links)?;
    let before = found.breach.take();
    found.breach = lesser(before, breach);
    Ok(())
}

/// The cases so far, which those of a block within don't join.
pub(crate) fn take_cases(alloc: Global, found: &mut ItemNotes) -> Items<Case>
    ensures cases { result ≡ found.old.cases }
    ensures rest { found.new ≡ record found.old { cases = [] } }
{
    replace(&mut found.cases, Items::new(alloc))
}

/// Puts them back.
pub(crate) fn put_cases(found: &mut ItemNotes, cases: Items<Case>)
    ensures { found.new ≡ record found.old { cases = cases } }
{
    found.cases = cases;
}

/// What is set aside while the block of a `switch` is walked: the refusal of what stands before it, and the cases of
/// the `switch` around it.
#[derive(Drop)]
pub(crate) struct Aside {
    pub breach: Option<Breach>,
    pub cases: Items<Case>,
}

/// Sets them aside.
pub(crate) fn set_aside(alloc: Global, found: &mut ItemNotes) -> Aside
    ensures aside { result ≡ record { breach = found.old.breach; cases = found.old.cases } }
    ensures rest { found.new ≡ record found.old { breach = None; cases = [] } }
{
    let breach = found.breach.take();
    let cases = replace(&mut found.cases, Items::new(alloc));
    Aside { breach, cases }
}

/// Behind the block of a `switch` whose value breaks this, whose cases stand each once (C99 6.8.4.2p3).
pub(crate) fn take_back(
    alloc: Global,
    found: &mut ItemNotes,
    aside: Aside,
    said: Option<Breach>,
) -> Result<(), AllocError>
    ensures { OnOk result (found.new ≡ spec.taken_back aside said found.old) }
{
    let Aside { breach, cases } = aside;
    let repeated = repeated_cases(alloc, found.cases.as_slice())?;
    let inside = found.breach.take();
    found.breach = lesser(breach, lesser(said, lesser(repeated, inside)));
    found.cases = cases;
    Ok(())
}
