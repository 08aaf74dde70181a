//! Truths made one, pair by pair.
ghost use Rattle.std.specs.Prelude.{◌≡◌, length, IfOk};
ghost use Rattle.term_bank.specs.Terms.{IsTerm};
ghost use Rattle.term_bank.specs.declared.sort.Sort.TheVariants.{Truth};
ghost use Rattle.run_formula.specs.Sighted.{AreTruths, IsJoining, Joins, JoinsAll, Nevers};

use plain_data::Items;
use std::alloc::Global;
use term_bank::{Bank, BankFault, Connective, Node, Sort};

/// How two truths become one.
#[derive(Clone, Copy)]
pub(crate) enum Joining {
    /// One of them holds.
    Either,
    /// The first where this condition holds, else the second.
    Chosen(Node),
    /// The first holds, or the second does where this guard holds.
    Guarded(Node),
}

/// Two truths made one.
fn joined(bank: &mut Bank, how: Joining, one: Node, other: Node) -> Result<Node, BankFault>
    requires how { IsJoining bank.old how }
    requires one { IsTerm bank.old Truth one }
    requires other { IsTerm bank.old Truth other }
    ensures { IfOk result (Joins bank.old bank.new how one other) }
{
    match how {
        Joining::Either => {
            let node = bank.connect(Connective::Or, one, other)?;
            Ok(node)
        }
        Joining::Chosen(condition) => {
            let node = bank.choose(Sort::Truth, condition, one, other)?;
            Ok(node)
        }
        Joining::Guarded(guard) => {
            let under = bank.connect(Connective::And, guard, other)?;
            let node = bank.connect(Connective::Or, one, under)?;
            Ok(node)
        }
    }
}

/// The truths of two lists made one, pair by pair.
pub(crate) fn join_all(
    alloc: Global,
    bank: &mut Bank,
    how: Joining,
    ones: &[Node],
    others: &[Node],
) -> Result<Items<Node>, BankFault>
    requires how { IsJoining bank.old how }
    requires ones { AreTruths bank.old ones.now }
    requires others { AreTruths bank.old others.now }
    requires same { length others.now ≡ length ones.now }
    ensures { IfOk result (JoinsAll bank.old bank.new how ones.now others.now) }
{
    let mut all = Items::new(alloc);
    'pairs: for index in 0..ones.len() {
        let node = joined(bank, how, ones[index], others[index])?;
        all.push(node)?;
    }
    Ok(all)
}

/// So many truths of which none holds.
pub(crate) fn nevers(alloc: Global, bank: &mut Bank, len: usize) -> Result<Items<Node>, BankFault>
    ensures { IfOk result (Nevers bank.old bank.new len) }
{
    let never = bank.truth(false)?;
    let mut all = Items::new(alloc);
    'nodes: for _index in 0..len {
        all.push(never)?;
    }
    Ok(all)
}
