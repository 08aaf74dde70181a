//! What operators answer on two numbers, and where they are undefined (C99 6.5.5 to 6.5.12).
ghost use Rattle.std.specs.Prelude.{◌≡◌, IfOk, cond, pos, ◌+ℤ◌, ◌*ℤ◌};
ghost use Rattle.c_store.specs.Store.{Store};
ghost use Rattle.c_store.specs.Access.{in_one_object as in_one_object_of};
ghost use Rattle.plain_data.specs.declared.width.Width.TheVariants.{W64};
ghost use Rattle.c_means.specs.Values.{address as address_of};
ghost use Rattle.core_tree.specs.Memory.{moved as moved_in, apart as apart_in, ordered as ordered_in, operated as operated_by};
ghost use Rattle.core_tree.specs.Numbers.{worked as worked_in};
ghost use Rattle.core_tree.specs.States.{found, stop, or_stop};
ghost use Rattle.term_bank.specs.Terms.{IsTerm};
ghost use Rattle.term_bank.specs.Values.{Values};
ghost use Rattle.term_bank.specs.declared.sort.Sort.TheVariants.{Truth, Memory};
ghost use Rattle.path_states.specs.States.{IsNumber, number_in};
ghost use Rattle.path_numbers.specs.Answers.{Numbered, Truthful, Worded};
ghost use Rattle.path_steps.specs.Operators.{Operates, Between, is_measured, is_near, directed, by_direction, ordering};

use crate::addresses::natural;
use crate::settling::{Exit, exit_of};
use core_tree::{Arithmetic, Operator, Relation, WordType};
use mem_terms::in_one_object;
use path_numbers::{ADDRESS, address, constant, worked, wrapped};
use path_states::Number;
use plain_data::{Finish, Undefined, Width};
use term_bank::{Bank, BankFault, Connective, Node, WordTest};

/// The type of the distance between two pointers, `ptrdiff_t`.
const DISTANCE: WordType = WordType {
    width: Width::W64,
    is_signed: true,
};

/// No object has so many bytes.
const NO_SIZE: u64 = 0x1_0000_0000;

/// An operator's answer, unless the run leaves by one of two exits.
#[derive(Clone, Copy)]
pub(crate) struct Operated {
    pub number: Number,
    pub first: Option<Exit>,
    pub second: Option<Exit>,
}

/// An operator on two numbers in an integer type.
fn on_numbers(
    bank: &mut Bank,
    at: u32,
    operator: Arithmetic,
    word: WordType,
    left: Number,
    right: Number,
) -> Result<Operated, BankFault>
    requires left { IsNumber bank.old left }
    requires right { IsNumber bank.old right }
    ensures { IfOk result (λ x. (store : Values → Store) → Operates bank.old bank.new store x
        (λ v d. or_stop at (worked_in operator word (number_in v left) (number_in v right)) d)) }
{
    let tested = worked(bank, operator, word, left, right)?;
    Ok(Operated {
        number: tested.number,
        first: exit_of(at, tested.first),
        second: exit_of(at, tested.second),
    })
}

/// A number where a truth is true, else undefined behaviour at a token.
fn where_so(
    bank: &mut Bank,
    at: u32,
    kind: Undefined,
    allowed: Node,
    number: Number,
) -> Result<Operated, BankFault>
    requires allowed { IsTerm bank.old Truth allowed }
    requires number { IsNumber bank.old number }
    ensures { IfOk result (λ x. (store : Values → Store) → Operates bank.old bank.new store x
        (λ v d. cond (v allowed.index).truth (found (number_in v number) d) (stop at kind d))) }
{
    let truth = bank.not(allowed)?;
    let exit = Exit {
        truth,
        finish: Finish::Stopped { kind, at },
    };
    Ok(Operated {
        number,
        first: Some(exit),
        second: None,
    })
}

/// Whether so many elements of a size have fewer bytes than 2^32.
fn is_near(bank: &mut Bank, count: Number, size: u64) -> Result<Node, BankFault>
    requires { IsNumber bank.old count }
    ensures { IfOk result (λ n. Truthful bank.old bank.new n (λ v. is_near size (number_in v count))) }
{
    if size == 0 {
        let always = bank.truth(true)?;
        return Ok(always);
    }
    let steps = natural(bank, count)?;
    let most = bank.word((NO_SIZE - 1) / size, Width::W64)?;
    let far = bank.test(WordTest::Below, Width::W64, most, steps)?;
    let near = bank.not(far)?;
    Ok(near)
}

/// A size as a number.
fn number_of_size(bank: &mut Bank, size: u64) -> Result<Number, BankFault>
    ensures { IfOk result (λ x. Numbered bank.old bank.new x (λ v. pos size)) }
{
    let node = bank.word(size, Width::W64)?;
    Ok(Number {
        node,
        word: ADDRESS,
    })
}

/// The sum of an address and so many elements of a size, or the difference, modulo 2^64.
fn target(
    bank: &mut Bank,
    size: u64,
    from: Number,
    count: Number,
    back: bool,
) -> Result<Node, BankFault>
    requires from { IsNumber bank.old from }
    requires count { IsNumber bank.old count }
    ensures { IfOk result (λ n. Worded bank.old bank.new W64 n
        (λ v. address_of (pos (address_of (number_in v from)) +ℤ directed back (number_in v count) *ℤ pos size))) }
{
    let wide = number_of_size(bank, size)?;
    let bytes = worked(bank, Arithmetic::Multiply, ADDRESS, count, wide)?;
    let to = worked(bank, towards(back), ADDRESS, from, bytes.number)?;
    let node = address(bank, to.number)?;
    Ok(node)
}

fn towards(back: bool) -> Arithmetic
    ensures { result ≡ by_direction back }
{
    if back {
        Arithmetic::Subtract
    } else {
        Arithmetic::Add
    }
}

/// A pointer that is moved so many elements of a size further, or back (C99 6.5.6p8).
fn moved(
    bank: &mut Bank,
    memory: Node,
    at: u32,
    size: u64,
    from: Number,
    count: Number,
    back: bool,
) -> Result<Operated, BankFault>
    requires memory { IsTerm bank.old Memory memory }
    requires from { IsNumber bank.old from }
    requires count { IsNumber bank.old count }
    ensures { IfOk result (λ x. Operates bank.old bank.new (λ v. (v memory.index).store) x
        (λ v d. moved_in at size (directed back (number_in v count)) (address_of (number_in v from)) d)) }
{
    let start = address(bank, from)?;
    let end = target(bank, size, from, count, back)?;
    let inside = in_one_object(bank, memory, start, end)?;
    let near = is_near(bank, count, size)?;
    let allowed = bank.connect(Connective::And, near, inside)?;
    let number = Number {
        node: end,
        word: ADDRESS,
    };
    let operated = where_so(bank, at, Undefined::PointerRange, allowed, number)?;
    Ok(operated)
}

/// Whether an object can have elements of a size that has bytes.
fn is_measured(size: u64) -> bool
    ensures { result ≡ is_measured size }
{
    size > 0 && size < NO_SIZE
}

/// How many elements of a size are between two addresses of one object (C99 6.5.6p9).
fn elements(bank: &mut Bank, size: u64, left: Number, right: Number) -> Result<Number, BankFault>
    requires left { IsNumber bank.old left }
    requires right { IsNumber bank.old right }
    ensures { IfOk result (λ x. Between bank.old bank.new x left right size) }
{
    if !is_measured(size) {
        let none = constant(bank, 0)?;
        return Ok(none);
    }
    let difference = worked(bank, Arithmetic::Subtract, ADDRESS, left, right)?;
    let bytes = wrapped(bank, difference.number, DISTANCE)?;
    let wide = number_of_size(bank, size)?;
    let elements = worked(bank, Arithmetic::Divide, DISTANCE, bytes, wide)?;
    Ok(elements.number)
}

/// Whether two addresses are of one object.
fn are_together(
    bank: &mut Bank,
    memory: Node,
    left: Number,
    right: Number,
) -> Result<Node, BankFault>
    requires memory { IsTerm bank.old Memory memory }
    requires left { IsNumber bank.old left }
    requires right { IsNumber bank.old right }
    ensures { IfOk result (λ n. Truthful bank.old bank.new n (λ v. in_one_object_of (v memory.index).store
        (address_of (number_in v left)) (address_of (number_in v right)))) }
{
    let first = address(bank, left)?;
    let second = address(bank, right)?;
    let together = in_one_object(bank, memory, first, second)?;
    Ok(together)
}

/// The distance between two pointers, in elements of a size (C99 6.5.6p9).
fn apart(
    bank: &mut Bank,
    memory: Node,
    at: u32,
    size: u64,
    left: Number,
    right: Number,
) -> Result<Operated, BankFault>
    requires memory { IsTerm bank.old Memory memory }
    requires left { IsNumber bank.old left }
    requires right { IsNumber bank.old right }
    ensures { IfOk result (λ x. Operates bank.old bank.new (λ v. (v memory.index).store) x
        (λ v d. apart_in at size (address_of (number_in v left)) (address_of (number_in v right)) d)) }
{
    let together = are_together(bank, memory, left, right)?;
    let number = elements(bank, size, left, right)?;
    let operated = where_so(bank, at, Undefined::PointerOrder, together, number)?;
    Ok(operated)
}

fn ordering(relation: Relation) -> Arithmetic
    ensures { result ≡ ordering relation }
{
    match relation {
        Relation::Less => Arithmetic::Less,
        Relation::Greater => Arithmetic::Greater,
        Relation::LessEqual => Arithmetic::LessEqual,
        Relation::GreaterEqual => Arithmetic::GreaterEqual,
    }
}

/// Two pointers compared by order (C99 6.5.8p5).
fn ordered(
    bank: &mut Bank,
    memory: Node,
    at: u32,
    relation: Relation,
    left: Number,
    right: Number,
) -> Result<Operated, BankFault>
    requires memory { IsTerm bank.old Memory memory }
    requires left { IsNumber bank.old left }
    requires right { IsNumber bank.old right }
    ensures { IfOk result (λ x. Operates bank.old bank.new (λ v. (v memory.index).store) x
        (λ v d. ordered_in at relation (address_of (number_in v left)) (address_of (number_in v right)) d)) }
{
    let together = are_together(bank, memory, left, right)?;
    let tested = worked(bank, ordering(relation), ADDRESS, left, right)?;
    let operated = where_so(bank, at, Undefined::PointerOrder, together, tested.number)?;
    Ok(operated)
}

/// An operator on two numbers, for a run with this memory. It fails for want of memory alone.
pub(crate) fn operate(
    bank: &mut Bank,
    memory: Node,
    at: u32,
    operator: Operator,
    left: Number,
    right: Number,
) -> Result<Operated, BankFault>
    requires memory { IsTerm bank.old Memory memory }
    requires left { IsNumber bank.old left }
    requires right { IsNumber bank.old right }
    ensures { IfOk result (λ x. Operates bank.old bank.new (λ v. (v memory.index).store) x
        (λ v d. operated_by at operator (number_in v left) (number_in v right) d)) }
{
    match operator {
        Operator::Numbers(operator, word) => {
            let operated = on_numbers(bank, at, operator, word, left, right)?;
            Ok(operated)
        }
        Operator::Forward { size } => {
            let operated = moved(bank, memory, at, size, left, right, false)?;
            Ok(operated)
        }
        Operator::ForwardBy { size } => {
            let operated = moved(bank, memory, at, size, right, left, false)?;
            Ok(operated)
        }
        Operator::Back { size } => {
            let operated = moved(bank, memory, at, size, left, right, true)?;
            Ok(operated)
        }
        Operator::Distance { size } => {
            let operated = apart(bank, memory, at, size, left, right)?;
            Ok(operated)
        }
        Operator::Order(relation) => {
            let operated = ordered(bank, memory, at, relation, left, right)?;
            Ok(operated)
        }
        Operator::Same => {
            let operated = on_numbers(bank, at, Arithmetic::Equal, ADDRESS, left, right)?;
            Ok(operated)
        }
        Operator::Different => {
            let operated = on_numbers(bank, at, Arithmetic::NotEqual, ADDRESS, left, right)?;
            Ok(operated)
        }
    }
}
