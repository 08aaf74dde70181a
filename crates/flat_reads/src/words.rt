ghost use Rattle.std.specs.Prelude.{◌≡◌, ◌∷◌, ◌<◌, ◌%◌, [], OnOk};
ghost use Rattle.plain_data.specs.declared.width.Width.TheVariants.{W8, W64};
ghost use Rattle.term_bank.specs.Banks.{IsBank};
ghost use Rattle.term_bank.specs.Memories.{behind as behind_of, octets as octets_of, read};
ghost use Rattle.term_bank.specs.Shapes.{IsNode, memory as memory_node, word};
ghost use Rattle.term_bank.specs.Terms.{IsTerm};
ghost use Rattle.term_bank.specs.Values.{of_word};
ghost use Rattle.term_bank.specs.declared.sort.Sort.TheVariants.{Word};
ghost use Rattle.flat_reads.specs.Flats.{Gives};
ghost use Rattle.flat_reads.specs.Parts.{joined_of};
ghost use Rattle.flat_reads.specs.Answers.{AreAnswers};

use crate::answers::answer;
use crate::choices::{Found, asked};
use crate::parts::{behind, binary, constant, converted_to};
use mem_terms::octets;
use plain_data::Width;
use std::alloc::Global;
use std::collections::HashMap;
use term_bank::{Bank, BankFault, Node, Shape, Sort, WordOperator};

/// A byte as a word.
fn widened(bank: &mut Bank, byte: Node, width: Width) -> Result<Node, BankFault>
    requires bank { IsBank bank.old }
    requires byte { IsTerm bank.old (Word W8) byte }
    ensures { Gives bank.old bank.new (word W8 byte.index ∷ []) (Word width) (λ v. of_word (v byte.index).word) result }
{
    match width {
        Width::W8 => Ok(byte),
        _ => converted_to(bank, Width::W8, width, byte.index),
    }
}

/// A word with a byte below it.
fn joined(bank: &mut Bank, width: Width, high: Node, byte: Node) -> Result<Node, BankFault>
    requires bank { IsBank bank.old }
    requires high { IsTerm bank.old (Word width) high }
    requires byte { IsTerm bank.old (Word W8) byte }
    ensures { Gives bank.old bank.new (word width high.index ∷ (word W8 byte.index ∷ [])) (Word width)
        (λ v. of_word (joined_of width (v high.index).word (v byte.index).word)) result }
{
    let eight = constant(bank, 8, width)?;
    let up = binary(bank, WordOperator::Shl, width, high.index, eight.index)?;
    let low = widened(bank, byte, width)?;
    binary(bank, WordOperator::Or, width, up.index, low.index)
}

/// The address that is so many behind one.
fn place_at(bank: &mut Bank, address: u32, far: u64) -> Result<Node, BankFault>
    requires bank { IsBank bank.old }
    requires address { IsNode bank.old (word W64 address) }
    ensures { Gives bank.old bank.new (word W64 address ∷ []) (Word W64)
        (λ v. of_word (behind_of (v address).word far)) result }
{
    if far == 0 {
        return Ok(Node {
            index: address,
            sort: Sort::Word(Width::W64),
        });
    }
    let by = constant(bank, far, Width::W64)?;
    behind(bank, address, by.index)
}

/// The byte of a memory that is so many behind an address.
fn byte_at(
    alloc: Global,
    bank: &mut Bank,
    answers: &mut HashMap<Shape, Node>,
    memory: u32,
    address: u32,
    far: u64,
) -> Result<Node, BankFault>
    requires bank { IsBank bank.old }
    requires answers { AreAnswers bank.old answers.old }
    requires memory { IsNode bank.old (memory_node memory) }
    requires address { IsNode bank.old (word W64 address) }
    ensures byte { Gives bank.old bank.new (memory_node memory ∷ (word W64 address ∷ [])) (Word W8)
        (λ v. of_word ((v memory).store.bytes (behind_of (v address).word far) % 256)) result }
    ensures answers { OnOk result (AreAnswers bank.new answers.new) }
{
    let place = place_at(bank, address, far)?;
    match asked(bank, memory, place.index) {
        Found::Asked(question) => answer(alloc, bank, answers, question),
        Found::Known(node) => Ok(node),
    }
}

/// The word of a memory at an address, joined of its bytes, little endian.
pub(crate) fn word_at(
    alloc: Global,
    bank: &mut Bank,
    answers: &mut HashMap<Shape, Node>,
    memory: u32,
    address: u32,
    width: Width,
) -> Result<Node, BankFault>
    requires bank { IsBank bank.old }
    requires answers { AreAnswers bank.old answers.old }
    requires memory { IsNode bank.old (memory_node memory) }
    requires address { IsNode bank.old (word W64 address) }
    ensures word { Gives bank.old bank.new (memory_node memory ∷ (word W64 address ∷ [])) (Word width)
        (λ v. of_word (read (octets_of width) (v memory).store (v address).word)) result }
    ensures answers { OnOk result (AreAnswers bank.new answers.new) }
{
    let mut left = octets(width) - 1;
    let top = byte_at(alloc, bank, answers, memory, address, left)?;
    let mut word = widened(bank, top, width)?;
    'octets: while left > 0 {
        left -= 1;
        let byte = byte_at(alloc, bank, answers, memory, address, left)?;
        word = joined(bank, width, word, byte)?;
    }
    Ok(word)
}
