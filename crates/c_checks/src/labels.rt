//! Labels, and where a `goto` leads (C99 6.8.1, 6.8.6.1).

ghost use Rattle.std.specs.Prelude.{◌≡◌};
ghost use Rattle.c_means.specs.Statements as statements;
ghost use Rattle.c_checks.specs.Refusals.{least_of};
ghost use Rattle.c_checks.specs.Rules as spec;

use crate::statements::misplaced_if;
use c_language::Name;
use c_means::Breach;
use std::marker::Model;

/// A label, by the offset of its name.
#[derive(Drop)]
pub struct Label {
    pub at: u32,
    pub name: Name,
}

impl Model for Label {
    ghost use Rattle.c_means.specs.Items.{Label as Spec};

    ghost Value = { Spec };

    ghost view = { λ l. record { at = l.at; name = l.name } };
}

/// Whether a label of this name stands behind an offset.
fn leads(at: u32, name: &Name, labels: &[Label]) -> bool
    ensures { result ≡ statements.leads at name.now labels.now }
{
    for label in labels {
        if label.name.get().as_slice() == name.get().as_slice() && at < label.at {
            return true;
        }
    }
    false
}

/// Whether a label of this name stands before an offset.
fn stood_before(at: u32, name: &Name, labels: &[Label]) -> bool
    ensures { result ≡ statements.stood_before at name.now labels.now }
{
    for label in labels {
        if label.name.get().as_slice() == name.get().as_slice() && label.at < at {
            return true;
        }
    }
    false
}

/// What a `goto` breaks where these labels are in force: it leads to one behind it (C99 6.8.6.1p1).
pub fn goto(at: u32, name: &Name, labels: &[Label]) -> Option<Breach>
    ensures { result ≡ least_of (spec.goto_breaches at name.now labels.now) }
{
    misplaced_if(!leads(at, name, labels), at)
}

/// What a label breaks in a function that has these: a name labels one statement (C99 6.8.1p3).
pub fn labeled(at: u32, name: &Name, every: &[Label]) -> Option<Breach>
    ensures { result ≡ least_of (spec.label_breaches at name.now every.now) }
{
    misplaced_if(stood_before(at, name, every), at)
}
