ghost use Rattle.std.specs.Prelude.{◌≡◌, IfOk, not, cond, false};
ghost use Rattle.plain_data.specs.declared.run.Finish.TheVariants as finish;
ghost use Rattle.plain_data.specs.declared.run.Undefined.TheVariants.{Dereference, LiteralWrite};
ghost use Rattle.plain_data.specs.declared.width.Width.TheVariants.{W64};
ghost use Rattle.c_store.specs.Access.{can_access as may_access, can_write as may_write};
ghost use Rattle.core_tree.specs.Numbers.{value_of_bytes};
ghost use Rattle.term_bank.specs.Banks.{IsBank};
ghost use Rattle.term_bank.specs.Memories.{octets as octets_of};
ghost use Rattle.term_bank.specs.Terms.{IsTerm};
ghost use Rattle.term_bank.specs.declared.sort.Sort.TheVariants.{Word, Memory};
ghost use Rattle.path_numbers.specs.Answers.{Numbered};
ghost use Rattle.path_steps.specs.Memories.{IsScalar, width_of, Guards};

use crate::settling::Exit;
use core_tree::{ValueType, WordType};
use mem_terms::{can_access, can_write, octets};
use path_numbers::{ADDRESS, flag, truth};
use path_states::Number;
use plain_data::{Finish, Undefined, Width};
use term_bank::{Bank, BankFault, Node};

/// The type of the byte that a `_Bool` has.
const BYTE: WordType = WordType {
    width: Width::W8,
    is_signed: false,
};

/// How wide the word is in which a scalar is stored.
pub(crate) fn stored_width(stored: ValueType) -> Width
    ensures { result ≡ width_of stored }
{
    match stored {
        ValueType::Truth | ValueType::Void => Width::W8,
        ValueType::Word(word) => word.width,
        ValueType::Pointer | ValueType::Block { .. } => Width::W64,
    }
}

/// The scalar that a word spells which was read.
pub(crate) fn spelled(bank: &mut Bank, stored: ValueType, node: Node) -> Result<Number, BankFault>
    requires bank { IsBank bank.old }
    requires node { IsTerm bank.old (Word (width_of stored)) node }
    requires scalar { IsScalar stored }
    ensures { IfOk result (λ x. Numbered bank.old bank.new x (λ v. value_of_bytes stored (v node.index).word)) }
{
    match stored {
        ValueType::Word(word) => Ok(Number { node, word }),
        ValueType::Truth => {
            let byte = Number { node, word: BYTE };
            let truth = truth(bank, byte)?;
            let number = flag(bank, truth)?;
            Ok(number)
        }
        _ => Ok(Number {
            node,
            word: ADDRESS,
        }),
    }
}

/// The end at a token where so many bytes at an address may not be accessed (C99 6.5.3.2p4), if that is tested.
pub(crate) fn access_exit(
    bank: &mut Bank,
    is_tested: bool,
    at: u32,
    memory: Node,
    address: Node,
    width: Width,
) -> Result<Option<Exit>, BankFault>
    requires memory { IsTerm bank.old Memory memory }
    requires address { IsTerm bank.old (Word W64) address }
    ensures { IfOk result (λ x. Guards bank.old bank.new x (finish.Stopped Dereference at)
        (λ v. cond is_tested (not (may_access (v memory.index).store (v address.index).word (octets_of width))) false)) }
{
    if !is_tested {
        return Ok(None);
    }
    let length = bank.word(octets(width), Width::W64)?;
    let allowed = can_access(bank, memory, address, length)?;
    let truth = bank.not(allowed)?;
    Ok(Some(Exit {
        truth,
        finish: Finish::Stopped {
            kind: Undefined::Dereference,
            at,
        },
    }))
}

/// The end at a token where so many bytes at an address are of a string literal (C99 6.4.5p6), if that is tested.
pub(crate) fn literal_exit(
    bank: &mut Bank,
    is_tested: bool,
    at: u32,
    memory: Node,
    address: Node,
    width: Width,
) -> Result<Option<Exit>, BankFault>
    requires memory { IsTerm bank.old Memory memory }
    requires address { IsTerm bank.old (Word W64) address }
    ensures { IfOk result (λ x. Guards bank.old bank.new x (finish.Stopped LiteralWrite at)
        (λ v. cond is_tested (not (may_write (v memory.index).store (v address.index).word (octets_of width))) false)) }
{
    if !is_tested {
        return Ok(None);
    }
    let length = bank.word(octets(width), Width::W64)?;
    let allowed = can_write(bank, memory, address, length)?;
    let truth = bank.not(allowed)?;
    Ok(Some(Exit {
        truth,
        finish: Finish::Stopped {
            kind: Undefined::LiteralWrite,
            at,
        },
    }))
}
