//! What prints see of a watched variable: each number with the truth that it is seen.
ghost use Rattle.std.specs.Prelude.{◌≡◌, length, IfOk};
ghost use Rattle.term_bank.specs.Terms.{IsTerm};
ghost use Rattle.term_bank.specs.declared.sort.Sort.TheVariants.{Truth};
ghost use Rattle.run_formula.specs.Sighted.{AreObserved, AreTruths, OrOther, ShowsOther};

use crate::seen::{Seen, number_at, sees_other};
use plain_data::Items;
use std::alloc::Global;
use term_bank::{Bank, BankFault, Connective, Node};

/// What some print sees of a watched variable, in every world whose run fits.
#[derive(Clone, Copy)]
pub struct Observation {
    /// The truth that some print by the variable's site that begins in its line sees this.
    pub happens: Node,
    /// The number that is seen; none where such a print shows no number in the variable's place.
    pub seen: Option<Seen>,
}

/// Of each list of numbers the one in a place, with the list's truth.
pub(crate) fn observed(
    alloc: Global,
    bank: &Bank,
    lists: &[u32],
    truths: &[Node],
    place: u32,
) -> Result<Items<Observation>, BankFault>
    requires { length truths.now ≡ length lists.now }
    ensures { IfOk result (AreObserved bank.now place lists.now truths.now) }
{
    let mut all = Items::new(alloc);
    'lists: for index in 0..lists.len() {
        let seen = number_at(alloc, bank, lists[index], place)?;
        all.push(Observation {
            happens: truths[index],
            seen,
        })?;
    }
    Ok(all)
}

/// One truth more: a list of numbers is shown, and lacks this value in the place.
fn or_other(
    alloc: Global,
    bank: &mut Bank,
    before: Node,
    list: u32,
    shown: Node,
    place: u32,
    value: &i128,
) -> Result<Node, BankFault>
    requires before { IsTerm bank.old Truth before }
    requires shown { IsTerm bank.old Truth shown }
    ensures { IfOk result (OrOther bank.old bank.new before list shown place value.now) }
{
    let other = sees_other(alloc, bank, list, place, value)?;
    let here = bank.connect(Connective::And, shown, other)?;
    let node = bank.connect(Connective::Or, before, here)?;
    Ok(node)
}

/// The truth that some list which is shown lacks this value in the place.
pub(crate) fn shows_other(
    alloc: Global,
    bank: &mut Bank,
    lists: &[u32],
    truths: &[Node],
    place: u32,
    value: &i128,
) -> Result<Node, BankFault>
    requires same { length truths.now ≡ length lists.now }
    requires truths { AreTruths bank.old truths.now }
    ensures { IfOk result (ShowsOther bank.old bank.new lists.now truths.now place value.now) }
{
    let mut any = bank.truth(false)?;
    'lists: for index in 0..lists.len() {
        any = or_other(alloc, bank, any, lists[index], truths[index], place, value)?;
    }
    Ok(any)
}
