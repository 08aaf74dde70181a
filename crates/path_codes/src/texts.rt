//! Texts as bytes of a memory, and of an object that is there (C99 6.4.5p5, 6.7.8p14, p21).
ghost use Rattle.std.specs.Prelude.{◌≡◌, IfOk};
ghost use Rattle.plain_data.specs.declared.width.Width.TheVariants.{W64};
ghost use Rattle.c_means.specs.Initials.{text_byte};
ghost use Rattle.term_bank.specs.declared.sort.Sort.TheVariants.{Memory, Word};
ghost use Rattle.term_bank.specs.Terms.{IsTerm};
ghost use Rattle.path_states.specs.States.{IsState, AreStates};
ghost use Rattle.path_codes.specs.Settings.{Lays, LaysAll, LaysAt, LaysOne, WritesByte};

use mem_terms::write;
use path_forms::WalkFault;
use path_numbers::address;
use path_states::State;
use path_steps::{Leaf, each, pop, then_each};
use plain_data::{Items, Width};
use std::alloc::Global;
use term_bank::{Bank, BankFault, Node, WordOperator};

/// A byte of a text, 0 behind its end.
fn byte_at(text: &[u8], at: usize) -> u8
    ensures { result ≡ text_byte text.now at }
{
    match text.get(at) {
        Some(byte) => *byte,
        None => 0,
    }
}

/// The memory in which a byte is written so many bytes behind an address.
fn write_byte(
    bank: &mut Bank,
    memory: Node,
    from: Node,
    at: u64,
    byte: u8,
) -> Result<Node, BankFault>
    requires memory { IsTerm bank.old Memory memory }
    requires from { IsTerm bank.old (Word W64) from }
    ensures { IfOk result (λ n. WritesByte bank.old bank.new memory from n at byte) }
{
    let more = bank.word(at, Width::W64)?;
    let to = bank.binary(WordOperator::Add, Width::W64, from, more)?;
    let value = bank.word(byte as u64, Width::W8)?;
    let node = write(bank, memory, to, Width::W8, value)?;
    Ok(node)
}

/// The memory in which so many bytes from an address on are a text's, and 0 behind its end. It fails for want of memory
/// alone.
pub fn lay_text(
    bank: &mut Bank,
    memory: Node,
    from: Node,
    size: u64,
    text: &[u8],
) -> Result<Node, BankFault>
    requires memory { IsTerm bank.old Memory memory }
    requires from { IsTerm bank.old (Word W64) from }
    ensures { IfOk result (λ n. Lays bank.old bank.new memory from n size (text_byte text.now)) }
{
    let mut laid = memory;
    let mut at: u64 = 0;
    'bytes: while at < size {
        let byte = byte_at(text, at as usize);
        laid = write_byte(bank, laid, from, at, byte)?;
        at += 1;
    }
    Ok(laid)
}

fn lay_one(
    alloc: Global,
    bank: &mut Bank,
    size: u64,
    text: &[u8],
    state: State,
) -> Result<State, BankFault>
    requires { IsState bank.old state }
    ensures { IfOk result (λ t. LaysOne bank.old bank.new size (text_byte text.now) state t) }
{
    let mut next = state;
    let operand = pop(bank, &mut next)?;
    let from = address(bank, operand)?;
    let memory = lay_text(bank, next.memory, from, size, text)?;
    next.memory = memory;
    next.operands = Items::new(alloc);
    Ok(next)
}

/// So many bytes from the address on top of the operands on are a text's; the states have no operands behind it.
fn lay_all(
    alloc: Global,
    bank: &mut Bank,
    size: u64,
    text: &[u8],
    states: &[State],
) -> Result<Items<State>, BankFault>
    requires { AreStates bank.old states.now }
    ensures { IfOk result (λ ts. LaysAll bank.old bank.new size (text_byte text.now) states.now ts) }
{
    let mut all = Items::new(alloc);
    for state in states {
        let copy = state.copy(alloc)?;
        let next = lay_one(alloc, bank, size, text, copy)?;
        all.push(next)?;
    }
    Ok(all)
}

/// So many bytes of the object of a place behind the base, from so many bytes behind its first on, are a text's, and 0
/// behind its end.
pub(crate) fn lay(
    alloc: Global,
    bank: &mut Bank,
    room: u64,
    object: u64,
    bytes: u64,
    size: u64,
    text: &[u8],
    states: &[State],
) -> Result<Items<State>, WalkFault>
    requires { AreStates bank.old states.now }
    ensures { IfOk result (λ ts. LaysAt room object bytes size (text_byte text.now) bank.old bank.new states.now ts) }
{
    if object >= room || size > 0xFFFF_FFFF || bytes > 0xFFFF_FFFF - size {
        return Err(WalkFault::Unplaced);
    }
    let placed = each(alloc, bank, Leaf::Local { offset: object }, states)?;
    let there = then_each(alloc, bank, Leaf::Offset { bytes }, placed)?;
    let laid = lay_all(alloc, bank, size, text, there.going.as_slice())?;
    Ok(laid)
}
