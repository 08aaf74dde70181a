//! The objects of a block: alive from its entry to its exit (C99 6.2.4p5).
ghost use Rattle.std.specs.Prelude.{◌∷◌, [], ℕ, List, IfOk, Some};
ghost use Rattle.core_tree.specs.States.{along, born, dead};
ghost use Rattle.term_bank.specs.Terms.{IsTerm};
ghost use Rattle.term_bank.specs.declared.sort.Sort.TheVariants.{Memory};
ghost use Rattle.path_states.specs.States.{AreStates};
ghost use Rattle.path_states.specs.Ways.{Goes};
ghost use Rattle.path_arrows.specs.Arrows.{by_arrow};
ghost use Rattle.path_arrows.specs.Objects.{Places, Bears, Buries, Fit, made_at};

use c_store::ObjectKind;
use mem_terms::{ended, made};
use path_states::State;
use plain_data::{Items, Width};
use std::alloc::Global;
use term_bank::{Bank, BankFault, Node, WordOperator};

/// An automatic object: its declaration's offset in the source, how many places it is behind the base, and how many
/// bytes it has.
#[derive(Clone, Copy, PartialEq, Eq)]
pub struct Object {
    pub at: u32,
    pub offset: u64,
    pub size: u64,
}

/// The place that is so many behind the base. It fails for want of memory alone.
pub fn place(bank: &mut Bank, offset: u64) -> Result<Node, BankFault>
    ensures { IfOk result (λ n. Places bank.old bank.new n offset) }
{
    let base = bank.base()?;
    let more = bank.word(offset, Width::W64)?;
    let node = bank.binary(WordOperator::Add, Width::W64, base, more)?;
    Ok(node)
}

fn bear_one(bank: &mut Bank, object: Object, memory: Node) -> Result<Node, BankFault>
    requires { IsTerm bank.old Memory memory }
    ensures { IfOk result (λ n. Bears bank.old bank.new memory n (object ∷ [])) }
{
    let number = place(bank, object.offset)?;
    let size = bank.word(object.size, Width::W64)?;
    let node = made(bank, memory, ObjectKind::Automatic, number, size)?;
    Ok(node)
}

fn bury_one(bank: &mut Bank, object: Object, memory: Node) -> Result<Node, BankFault>
    requires { IsTerm bank.old Memory memory }
    ensures { IfOk result (λ n. Buries bank.old bank.new memory n (object ∷ [])) }
{
    let number = place(bank, object.offset)?;
    let node = ended(bank, memory, number)?;
    Ok(node)
}

fn bear_all(bank: &mut Bank, objects: &[Object], memory: Node) -> Result<Node, BankFault>
    requires { IsTerm bank.old Memory memory }
    ensures { IfOk result (λ n. Bears bank.old bank.new memory n objects.now) }
{
    let mut memory = memory;
    for object in objects {
        memory = bear_one(bank, *object, memory)?;
    }
    Ok(memory)
}

fn bury_all(bank: &mut Bank, objects: &[Object], memory: Node) -> Result<Node, BankFault>
    requires { IsTerm bank.old Memory memory }
    ensures { IfOk result (λ n. Buries bank.old bank.new memory n objects.now) }
{
    let mut memory = memory;
    for object in objects {
        memory = bury_one(bank, *object, memory)?;
    }
    Ok(memory)
}

/// The states with these objects made, in order. It fails for want of memory alone.
pub fn bear(
    alloc: Global,
    bank: &mut Bank,
    objects: &[Object],
    states: &[State],
) -> Result<Items<State>, BankFault>
    requires { AreStates bank.old states.now }
    ensures { IfOk result (λ ts. (room : ℕ) (log : List ℕ) → Fit room objects.now
        → Goes room bank.old bank.new states.now ts (by_arrow (λ e d. Some (born (along log) (made_at e.base objects.now) d)))) }
{
    let mut all = Items::new(alloc);
    for state in states {
        let memory = bear_all(bank, objects, state.memory)?;
        let mut next = state.copy(alloc)?;
        next.memory = memory;
        next.operands = Items::new(alloc);
        all.push(next)?;
    }
    Ok(all)
}

/// The states with these objects ended, in order. It fails for want of memory alone.
pub fn bury(
    alloc: Global,
    bank: &mut Bank,
    objects: &[Object],
    states: &[State],
) -> Result<Items<State>, BankFault>
    requires { AreStates bank.old states.now }
    ensures { IfOk result (λ ts. (room : ℕ) → Fit room objects.now
        → Goes room bank.old bank.new states.now ts (by_arrow (λ e d. Some (dead (made_at e.base objects.now) d)))) }
{
    let mut all = Items::new(alloc);
    for state in states {
        let memory = bury_all(bank, objects, state.memory)?;
        let mut next = state.copy(alloc)?;
        next.memory = memory;
        next.operands = Items::new(alloc);
        all.push(next)?;
    }
    Ok(all)
}
