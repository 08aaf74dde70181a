//! What functions outside answer: nothing, a number of the world, or a pointer to an object that the call makes.
ghost use Rattle.std.specs.Prelude.{◌+◌, true, false, IfOk};
ghost use Rattle.c_store.specs.Store.{start, make, zero_range as zeroed};
ghost use Rattle.c_store.specs.declared.object.ObjectKind.TheVariants as kind;
ghost use Rattle.core_tree.specs.declared.expr.OutsideAnswer.TheVariants as answers;
ghost use Rattle.plain_data.specs.declared.width.Width.TheVariants.{W64};
ghost use Rattle.term_bank.specs.Terms.{IsTerm};
ghost use Rattle.term_bank.specs.declared.sort.Sort.TheVariants.{Word, Memory};
ghost use Rattle.path_calls.specs.Places.{Tells, Changes};
ghost use Rattle.path_calls.specs.Replies.{IsSizeOf, MakesObject, Replies, size_by, object_by};

use crate::outside_words::outside_word;
use crate::placing::{first_address, place_number};
use c_store::ObjectKind;
use core_tree::{OutsideAnswer, Pointee};
use mem_terms::{made, zero_range};
use path_forms::WalkFault;
use path_numbers::{ADDRESS, constant, truth};
use path_states::Number;
use plain_data::{Bounds, Width};
use term_bank::{Bank, BankFault, Node, Sort, WordOperator};

/// No object has so many bytes.
const NO_SIZE: u64 = 0x1_0000_0000;

/// What a function outside answers, and the memory that it leaves.
#[derive(Clone, Copy)]
pub(crate) struct Reply {
    pub number: Number,
    pub memory: Node,
}

/// How many bytes the object of a pointer from outside has. It fails where no object has so many.
fn size_of(bounds: &Bounds, pointee: Pointee) -> Result<u64, WalkFault>
    ensures { IfOk result (λ n. IsSizeOf bounds.now.outside pointee n) }
{
    match pointee {
        Pointee::Text => Ok(bounds.outside as u64 + 1),
        Pointee::Bytes { size } => {
            if size >= NO_SIZE {
                return Err(WalkFault::TooFar);
            }
            Ok(size)
        }
    }
}

/// The memory in which the object of a place lives.
fn new_object(bank: &mut Bank, place: u64, size: u64, memory: Node) -> Result<Node, BankFault>
    requires { IsTerm bank.old Memory memory }
    ensures { IfOk result (λ n. Changes bank.old bank.new place memory n
        (λ q s. make q (record { kind = kind.Outside; size = size }) s)) }
{
    let number = place_number(bank, place)?;
    let length = bank.word(size, Width::W64)?;
    let node = made(bank, memory, ObjectKind::Outside, number, length)?;
    Ok(node)
}

/// The memory in which the last byte of a text is 0, which is so many behind the first of the object of a place.
fn end_text(bank: &mut Bank, place: u64, last: u32, memory: Node) -> Result<Node, BankFault>
    requires memory { IsTerm bank.old Memory memory }
    ensures { IfOk result (λ n. Changes bank.old bank.new place memory n (λ q s. zeroed (start q + last) 1 s)) }
{
    let first = first_address(bank, place)?;
    let behind = bank.word(last as u64, Width::W64)?;
    let address = bank.binary(WordOperator::Add, Width::W64, first, behind)?;
    let length = bank.word(1, Width::W64)?;
    let node = zero_range(bank, memory, address, length)?;
    Ok(node)
}

/// The memory in which the object of a pointer from outside lives.
fn object(
    bank: &mut Bank,
    bounds: &Bounds,
    place: u64,
    pointee: Pointee,
    memory: Node,
) -> Result<Node, WalkFault>
    requires { IsTerm bank.old Memory memory }
    ensures { IfOk result (λ n. MakesObject bank.old bank.new bounds.now.outside pointee place memory n) }
{
    let size = size_of(bounds, pointee)?;
    let made = new_object(bank, place, size, memory)?;
    match pointee {
        Pointee::Bytes { .. } => Ok(made),
        Pointee::Text => {
            let ended = end_text(bank, place, bounds.outside, made)?;
            Ok(ended)
        }
    }
}

/// The pointer to an object that was made, or null where the word of its place is 0, and then the memory from before.
fn or_null(
    bank: &mut Bank,
    bounds: &Bounds,
    place: u64,
    pointee: Pointee,
    memory: Node,
) -> Result<Reply, WalkFault>
    requires { IsTerm bank.old Memory memory }
    ensures { IfOk result (λ r. Replies bank.old bank.new bounds.now.outside (answers.Pointer false pointee)
        place memory r) }
{
    let made = object(bank, bounds, place, pointee, memory)?;
    let first = first_address(bank, place)?;
    let word = outside_word(bank, place)?;
    let given = truth(bank, word)?;
    let null = bank.word(0, Width::W64)?;
    let node = bank.choose(Sort::Word(Width::W64), given, first, null)?;
    let memory = bank.choose(Sort::Memory, given, made, memory)?;
    Ok(Reply {
        number: Number {
            node,
            word: ADDRESS,
        },
        memory,
    })
}

/// The pointer to an object that is made.
fn never_null(
    bank: &mut Bank,
    bounds: &Bounds,
    place: u64,
    pointee: Pointee,
    memory: Node,
) -> Result<Reply, WalkFault>
    requires { IsTerm bank.old Memory memory }
    ensures { IfOk result (λ r. Replies bank.old bank.new bounds.now.outside (answers.Pointer true pointee)
        place memory r) }
{
    let memory = object(bank, bounds, place, pointee, memory)?;
    let node = first_address(bank, place)?;
    Ok(Reply {
        number: Number {
            node,
            word: ADDRESS,
        },
        memory,
    })
}

fn pointer(
    bank: &mut Bank,
    bounds: &Bounds,
    place: u64,
    is_never_null: bool,
    pointee: Pointee,
    memory: Node,
) -> Result<Reply, WalkFault>
    requires { IsTerm bank.old Memory memory }
    ensures { IfOk result (λ r. Replies bank.old bank.new bounds.now.outside (answers.Pointer is_never_null pointee)
        place memory r) }
{
    if is_never_null {
        let reply = never_null(bank, bounds, place, pointee, memory)?;
        return Ok(reply);
    }
    let reply = or_null(bank, bounds, place, pointee, memory)?;
    Ok(reply)
}

/// What a function outside answers whose first place is so many places behind the base. It fails where no object has as
/// many bytes as that of its pointer.
pub(crate) fn answer_outside(
    bank: &mut Bank,
    bounds: &Bounds,
    place: u64,
    answers: OutsideAnswer,
    memory: Node,
) -> Result<Reply, WalkFault>
    requires { IsTerm bank.old Memory memory }
    ensures { IfOk result (λ r. Replies bank.old bank.new bounds.now.outside answers place memory r) }
{
    match answers {
        OutsideAnswer::Nothing => {
            let number = constant(bank, 0)?;
            Ok(Reply { number, memory })
        }
        OutsideAnswer::Number => {
            let number = outside_word(bank, place)?;
            Ok(Reply { number, memory })
        }
        OutsideAnswer::Pointer {
            never_null,
            pointee,
        } => {
            let reply = pointer(bank, bounds, place, never_null, pointee, memory)?;
            Ok(reply)
        }
    }
}
