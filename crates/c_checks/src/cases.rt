//! The cases of a `switch` (C99 6.8.4.2).

ghost use Rattle.std.specs.Prelude.{◌≡◌, [], IfOk};
ghost use Rattle.c_means.specs.Statements as statements;
ghost use Rattle.c_checks.specs.Refusals.{least_of};

use crate::order::lesser;
use crate::statements::misplaced_if;
use c_means::Breach;
use plain_data::Items;
use std::alloc::{AllocError, Global};
use std::marker::Model;

/// A `case` of a value, or `default`, by its offset.
#[derive(Drop)]
pub struct Case {
    pub at: u32,
    pub value: Option<i128>,
}

impl Model for Case {
    ghost use Rattle.c_means.specs.Items.{Case as Spec};

    ghost Value = { Spec };

    ghost view = { λ x. record { at = x.at; value = x.value } };
}

fn is_same(x: Option<i128>, y: Option<i128>) -> bool
    ensures { result ≡ statements.same_case x y }
{
    match (x, y) {
        (None, None) => true,
        (Some(x), Some(y)) => x == y,
        (None, Some(_)) => false,
        (Some(_), None) => false,
    }
}

fn is_among(value: Option<i128>, cases: &[Case]) -> bool
    ensures { result ≡ statements.is_among value cases.now }
{
    for case in cases {
        if is_same(value, case.value) {
            return true;
        }
    }
    false
}

/// What the cases of a `switch` break together: each value stands once, and one `default` (C99 6.8.4.2p3). It fails for
/// want of memory alone.
pub fn repeated_cases(alloc: Global, cases: &[Case]) -> Result<Option<Breach>, AllocError>
    ensures { IfOk result (λ b. b ≡ least_of (statements.repeated_cases [] cases.now)) }
{
    let mut found = None;
    let mut before = Items::new(alloc);
    for case in cases {
        let repeated = is_among(case.value, before.as_slice());
        found = lesser(found, misplaced_if(repeated, case.at));
        before.push(Case {
            at: case.at,
            value: case.value,
        })?;
    }
    Ok(found)
}
