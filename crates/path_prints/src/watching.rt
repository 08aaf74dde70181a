//! The values of watched variables.
ghost use Rattle.std.specs.Prelude.{IfOk, IfSome, OnOk};
ghost use Rattle.core_tree.specs.Numbers.{value_of_bytes};
ghost use Rattle.term_bank.specs.Banks.{IsBank};
ghost use Rattle.term_bank.specs.Terms.{IsTerm};
ghost use Rattle.term_bank.specs.declared.sort.Sort.TheVariants.{Memory, Word};
ghost use Rattle.path_states.specs.States.{AreNumbers};
ghost use Rattle.path_numbers.specs.Answers.{Numbered};
ghost use Rattle.path_steps.specs.Memories.{IsScalar, width_of};
ghost use Rattle.path_prints.specs.Watches.{IsBehind, IsScalarOf, StandsAt, Sees, SeesAll};

use core_tree::{Holder, ValueType, Watched, WordType};
use mem_terms::read;
use path_forms::{Placed, WalkFault, place_of};
use path_numbers::{ADDRESS, flag, truth};
use path_states::Number;
use plain_data::{Items, Width};
use term_bank::{Bank, BankFault, Node, WordOperator};

/// The type of the byte that a `_Bool` has.
const BYTE: WordType = WordType {
    width: Width::W8,
    is_signed: false,
};

/// The first address of the object that is so many places behind the base.
fn local_address(bank: &mut Bank, offset: u64) -> Result<Node, BankFault>
    ensures { IfOk result (λ n. IsBehind bank.old bank.new offset n) }
{
    let base = bank.base()?;
    let more = bank.word(offset, Width::W64)?;
    let place = bank.binary(WordOperator::Add, Width::W64, base, more)?;
    let bits = bank.word(32, Width::W64)?;
    let node = bank.binary(WordOperator::Shl, Width::W64, place, bits)?;
    Ok(node)
}

/// The first address of the object of a variable.
fn address_of(bank: &mut Bank, frame: &[Placed], room: u64, x: &Watched) -> Result<Node, WalkFault>
    ensures { IfOk result (λ n. StandsAt bank.old bank.new frame.now room x.now n) }
{
    match x.holder {
        Holder::Local => match place_of(frame, room, x.at) {
            Some(offset) => {
                let node = local_address(bank, offset)?;
                Ok(node)
            }
            None => Err(WalkFault::Unplaced),
        },
        Holder::Fixed { place } => {
            if place >= 0x1_0000_0000 {
                return Err(WalkFault::Unplaced);
            }
            let node = bank.word(place * 0x1_0000_0000, Width::W64)?;
            Ok(node)
        }
    }
}

/// The scalar that a word spells which was read.
fn spelled(bank: &mut Bank, stored: ValueType, node: Node) -> Result<Number, BankFault>
    requires bank { IsBank bank.old }
    requires node { IsTerm bank.old (Word (width_of stored)) node }
    requires scalar { IsScalar stored }
    ensures { IfOk result (λ x. Numbered bank.old bank.new x (λ v. value_of_bytes stored (v node.index).word)) }
{
    match stored {
        ValueType::Word(word) => Ok(Number { node, word }),
        ValueType::Truth => {
            let byte = Number { node, word: BYTE };
            let truth = truth(bank, byte)?;
            let number = flag(bank, truth)?;
            Ok(number)
        }
        _ => Ok(Number {
            node,
            word: ADDRESS,
        }),
    }
}

/// How wide the word is in which a scalar is stored, if a type is one.
fn scalar_width(stored: ValueType) -> Option<Width>
    ensures { IfSome result (λ w. IsScalarOf stored w) }
{
    match stored {
        ValueType::Truth => Some(Width::W8),
        ValueType::Word(word) => Some(word.width),
        ValueType::Pointer => Some(Width::W64),
        ValueType::Void | ValueType::Block { .. } => None,
    }
}

/// The value of a variable in a memory. It fails for one that isn't a scalar, or whose object isn't known.
fn see(
    bank: &mut Bank,
    frame: &[Placed],
    room: u64,
    memory: Node,
    x: &Watched,
) -> Result<Number, WalkFault>
    requires { IsTerm bank.old Memory memory }
    ensures { IfOk result (λ y. Sees bank.old bank.new frame.now room memory x.now y) }
{
    let Some(width) = scalar_width(x.stored) else {
        return Err(WalkFault::Unwalked);
    };
    let address = address_of(bank, frame, room, x)?;
    let node = read(bank, memory, address, width)?;
    let number = spelled(bank, x.stored, node)?;
    Ok(number)
}

/// Puts the values of variables in a memory at the end.
pub(crate) fn see_all(
    bank: &mut Bank,
    frame: &[Placed],
    room: u64,
    memory: Node,
    watched: &[Watched],
    out: &mut Items<Number>,
) -> Result<(), WalkFault>
    requires memory { IsTerm bank.old Memory memory }
    requires out { AreNumbers bank.old out.old }
    ensures { OnOk result (SeesAll bank.old bank.new frame.now room memory watched.now out.old out.new) }
{
    let Some((x, rest)) = watched.split_first() else {
        return Ok(());
    };
    let value = see(bank, frame, room, memory, x)?;
    out.push(value)?;
    see_all(bank, frame, room, memory, rest, out)?;
    Ok(())
}
