//! Buffers that functions outside fill with bytes of the world.
ghost use Rattle.std.specs.Prelude.{◌≡◌, ◌+◌, ◌<◌, ◌^◌, min, true, false, cond, not, IfOk};
ghost use Rattle.c_means.specs.Values.{address as address_of};
ghost use Rattle.core_tree.specs.Callees.{value_or_zero};
ghost use Rattle.core_tree.specs.declared.expr.OutsideAnswer.{OutsideAnswer as Answers};
ghost use Rattle.plain_data.specs.declared.width.Width.TheVariants.{W64};
ghost use Rattle.term_bank.specs.Terms.{IsTerm};
ghost use Rattle.term_bank.specs.declared.sort.Sort.TheVariants.{Truth, Word, Memory};
ghost use Rattle.path_states.specs.States.{AreNumbers, numbers_in};
ghost use Rattle.path_numbers.specs.Answers.{Truthful, Worded};
ghost use Rattle.path_calls.specs.Fills.{Asks, IsOdd as IsOddAt, Counts, Lays, Fills, CountsOrFails, RepliesFilled};

use crate::answering::argument;
use crate::outside_pointers::{Reply, answer_outside};
use crate::outside_words::outside_word;
use crate::placing::first_address;
use core_tree::{Fill, OutsideAnswer, WordType};
use mem_terms::{can_access, can_write, copy_range, initial};
use path_forms::WalkFault;
use path_numbers::address;
use path_states::Number;
use plain_data::{Bounds, Items, Width};
use term_bank::{Bank, BankFault, Connective, Node, Sort, WordOperator, WordTest};

/// The type of a count, or of -1.
const COUNT: WordType = WordType {
    width: Width::W64,
    is_signed: true,
};

/// What a function outside fills: how many bytes, the memory in which they are, and whether its buffer may be accessed
/// and written.
#[derive(Clone, Copy)]
pub(crate) struct Filling {
    pub count: Node,
    pub memory: Node,
    pub accessible: Node,
    pub writable: Node,
}

/// What a function outside that fills answers, and where it ends the run: where its buffer may not be accessed, and
/// where it may not be written.
#[derive(Clone, Copy)]
pub(crate) struct FillReply {
    pub reply: Reply,
    pub no_access: Node,
    pub no_write: Node,
}

/// The world's word at a place.
fn asked(bank: &mut Bank, place: u64) -> Result<Node, BankFault>
    ensures { IfOk result (λ n. Asks bank.old bank.new place n) }
{
    let word = outside_word(bank, place)?;
    let node = address(bank, word)?;
    Ok(node)
}

/// The address that an argument is.
fn address_at(bank: &mut Bank, arguments: &Items<Number>, index: u32) -> Result<Node, BankFault>
    requires { AreNumbers bank.old arguments.now }
    ensures { IfOk result (λ n. Worded bank.old bank.new W64 n
        (λ v. address_of (value_or_zero (numbers_in v arguments.now) index))) }
{
    let number = argument(bank, arguments, index)?;
    let node = address(bank, number)?;
    Ok(node)
}

/// The least of two words.
fn least(bank: &mut Bank, left: Node, right: Node) -> Result<Node, BankFault>
    requires left { IsTerm bank.old (Word W64) left }
    requires right { IsTerm bank.old (Word W64) right }
    ensures { IfOk result (λ n. Worded bank.old bank.new W64 n (λ v. min (v left.index).word (v right.index).word)) }
{
    let below = bank.test(WordTest::Below, Width::W64, left, right)?;
    let node = bank.choose(Sort::Word(Width::W64), below, left, right)?;
    Ok(node)
}

/// How many bytes are filled: the least of the word at a place, a length and the bound.
fn fill_count(bank: &mut Bank, bounds: &Bounds, place: u64, length: Node) -> Result<Node, BankFault>
    requires { IsTerm bank.old (Word W64) length }
    ensures { IfOk result (λ n. Counts bank.old bank.new bounds.now.heap place length n) }
{
    let word = asked(bank, place)?;
    let bound = bank.word(bounds.heap as u64, Width::W64)?;
    let most = least(bank, length, bound)?;
    let count = least(bank, word, most)?;
    Ok(count)
}

/// The memory with so many bytes of the world's at an address: the first ones of the object of a place.
fn lay_initial(
    bank: &mut Bank,
    place: u64,
    memory: Node,
    to: Node,
    count: Node,
) -> Result<Node, BankFault>
    requires memory { IsTerm bank.old Memory memory }
    requires to { IsTerm bank.old (Word W64) to }
    requires count { IsTerm bank.old (Word W64) count }
    ensures { IfOk result (λ n. Lays bank.old bank.new place memory to count n) }
{
    let source = initial(bank)?;
    let from = first_address(bank, place)?;
    let node = copy_range(bank, memory, to, source, from, count)?;
    Ok(node)
}

/// What a function outside fills whose first place is so many places behind the base.
fn fill_buffer(
    bank: &mut Bank,
    bounds: &Bounds,
    place: u64,
    fill: Fill,
    arguments: &Items<Number>,
    memory: Node,
) -> Result<Filling, BankFault>
    requires place { place + 4 < 2 ^ 64 }
    requires arguments { AreNumbers bank.old arguments.now }
    requires memory { IsTerm bank.old Memory memory }
    ensures { IfOk result (λ r. Fills bank.old bank.new bounds.now.heap fill place arguments.now memory r) }
{
    let buffer = address_at(bank, arguments, fill.buffer)?;
    let length = address_at(bank, arguments, fill.length)?;
    let count = fill_count(bank, bounds, place + 1, length)?;
    let accessible = can_access(bank, memory, buffer, count)?;
    let writable = can_write(bank, memory, buffer, count)?;
    let filled = lay_initial(bank, place + 2, memory, buffer, count)?;
    Ok(Filling {
        count,
        memory: filled,
        accessible,
        writable,
    })
}

/// Whether the world's word at a place is odd.
fn is_odd(bank: &mut Bank, place: u64) -> Result<Node, BankFault>
    ensures { IfOk result (λ n. IsOddAt bank.old bank.new place n) }
{
    let word = asked(bank, place)?;
    let one = bank.word(1, Width::W64)?;
    let bit = bank.binary(WordOperator::And, Width::W64, word, one)?;
    let node = bank.test(WordTest::Equal, Width::W64, bit, one)?;
    Ok(node)
}

/// A buffer is filled, and what is answered is as without it.
fn answer_filled(
    bank: &mut Bank,
    bounds: &Bounds,
    place: u64,
    answers: OutsideAnswer,
    fill: Fill,
    arguments: &Items<Number>,
    memory: Node,
) -> Result<FillReply, WalkFault>
    requires place { place + 4 < 2 ^ 64 }
    requires arguments { AreNumbers bank.old arguments.now }
    requires memory { IsTerm bank.old Memory memory }
    requires counts { fill.counts ≡ false }
    ensures { IfOk result (λ r. RepliesFilled bank.old bank.new bounds.now fill answers place arguments.now memory r) }
{
    let filling = fill_buffer(bank, bounds, place, fill, arguments, memory)?;
    let no_access = bank.not(filling.accessible)?;
    let no_write = bank.not(filling.writable)?;
    let reply = answer_outside(bank, bounds, place, answers, filling.memory)?;
    Ok(FillReply {
        reply,
        no_access,
        no_write,
    })
}

/// What is answered where a call may fail, and then nothing is filled: how many bytes were filled, or -1.
fn count_or_fail(
    bank: &mut Bank,
    fails: Node,
    filling: Filling,
    memory: Node,
) -> Result<Reply, BankFault>
    requires fails { IsTerm bank.old Truth fails }
    requires count { IsTerm bank.old (Word W64) filling.count }
    requires filled { IsTerm bank.old Memory filling.memory }
    requires memory { IsTerm bank.old Memory memory }
    ensures { IfOk result (λ r. CountsOrFails bank.old bank.new fails filling memory r) }
{
    let minus_one = bank.word(u64::MAX, Width::W64)?;
    let node = bank.choose(Sort::Word(Width::W64), fails, minus_one, filling.count)?;
    let memory = bank.choose(Sort::Memory, fails, memory, filling.memory)?;
    Ok(Reply {
        number: Number { node, word: COUNT },
        memory,
    })
}

/// Where neither of two truths holds.
fn neither(bank: &mut Bank, first: Node, second: Node) -> Result<Node, BankFault>
    requires first { IsTerm bank.old Truth first }
    requires second { IsTerm bank.old Truth second }
    ensures { IfOk result (λ n. Truthful bank.old bank.new n
        (λ v. cond (v first.index).truth false (not (v second.index).truth))) }
{
    let either = bank.connect(Connective::Or, first, second)?;
    let node = bank.not(either)?;
    Ok(node)
}

/// A buffer is filled, and what is answered is how many bytes were; where the word of the fourth place is odd nothing
/// is filled, and the answer is -1.
fn answer_count(
    bank: &mut Bank,
    bounds: &Bounds,
    place: u64,
    fill: Fill,
    arguments: &Items<Number>,
    memory: Node,
) -> Result<FillReply, BankFault>
    requires place { place + 4 < 2 ^ 64 }
    requires arguments { AreNumbers bank.old arguments.now }
    requires memory { IsTerm bank.old Memory memory }
    requires counts { fill.counts ≡ true }
    ensures { IfOk result (λ r. (answers : Answers) → RepliesFilled bank.old bank.new bounds.now fill answers place
        arguments.now memory r) }
{
    let filling = fill_buffer(bank, bounds, place, fill, arguments, memory)?;
    let fails = is_odd(bank, place + 3)?;
    let no_access = neither(bank, fails, filling.accessible)?;
    let no_write = neither(bank, fails, filling.writable)?;
    let reply = count_or_fail(bank, fails, filling, memory)?;
    Ok(FillReply {
        reply,
        no_access,
        no_write,
    })
}

/// What a function outside answers that fills a buffer, and whose first place is so many places behind the base. It
/// fails where no object has as many bytes as that of its pointer.
pub(crate) fn answer_fill(
    bank: &mut Bank,
    bounds: &Bounds,
    place: u64,
    answers: OutsideAnswer,
    fill: Fill,
    arguments: &Items<Number>,
    memory: Node,
) -> Result<FillReply, WalkFault>
    requires place { place + 4 < 2 ^ 64 }
    requires arguments { AreNumbers bank.old arguments.now }
    requires memory { IsTerm bank.old Memory memory }
    ensures { IfOk result (λ r. RepliesFilled bank.old bank.new bounds.now fill answers place arguments.now memory r) }
{
    if fill.counts {
        let reply = answer_count(bank, bounds, place, fill, arguments, memory)?;
        return Ok(reply);
    }
    let reply = answer_filled(bank, bounds, place, answers, fill, arguments, memory)?;
    Ok(reply)
}
