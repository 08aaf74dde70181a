ghost use Rattle.std.specs.Prelude.{IfOk};
ghost use Rattle.term_bank.specs.Terms.{IsTerm};
ghost use Rattle.term_bank.specs.declared.sort.Sort.TheVariants.{Truth};
ghost use Rattle.path_states.specs.Ways.{Halves};

use term_bank::{Bank, BankFault, Connective, Node};

/// A guard where a truth holds, and where it doesn't.
#[derive(Clone, Copy)]
pub struct Sides {
    pub yes: Node,
    pub no: Node,
}

/// A guard where a truth holds, and where it doesn't. It fails for want of memory alone.
pub fn halve(bank: &mut Bank, guard: Node, truth: Node) -> Result<Sides, BankFault>
    requires guard { IsTerm bank.old Truth guard }
    requires truth { IsTerm bank.old Truth truth }
    ensures { IfOk result (λ s. Halves bank.old bank.new guard truth s.yes s.no) }
{
    let other = bank.not(truth)?;
    let yes = bank.connect(Connective::And, guard, truth)?;
    let no = bank.connect(Connective::And, guard, other)?;
    Ok(Sides { yes, no })
}
