//! What parts of expressions are in the core, and their values (C99 6.3.2.1).
ghost use Rattle.std.specs.Prelude.{◌≡◌, true, false, IfOk};
ghost use Rattle.c_language.specs.Typing.{used_told};
ghost use Rattle.core_tree.specs.declared.expr.Expr.TheVariants as expr;
ghost use Rattle.core_tree.specs.declared.types.ValueType.TheVariants as v;
ghost use Rattle.core_forms.specs.Nodes.{a_value, a_place, address_in, call_node, loaded, read_node, refused, worth_node, HasWorth};

use crate::types::{bytes_in, class_of};
use c_language::{Class, Tables, Told};
use c_type_forms as forms;
use core_tree::{Access, Callee, Expr, ValueType};
use elaborate::value_type;
use plain_data::{Items, Shared};
use std::alloc::{AllocError, Global};

/// A call, of which it isn't said yet whether its answer is used.
#[derive(Drop)]
pub struct Call {
    pub at: u32,
    pub arguments: Items<Shared<Expr>>,
    pub callee: Callee,
    pub answer: ValueType,
}

/// The core of a part: of its address, where it is an lvalue or a function, else of its value; or the call that it is.
#[derive(Drop)]
pub enum Node {
    Place(Shared<Expr>),
    Value(Shared<Expr>),
    Call(Call),
}

/// A part of an expression: what the types say of it, whether the root of the lvalue that it is is a name, and its
/// core.
#[derive(Drop)]
pub struct Built {
    pub told: Told,
    pub rooted: bool,
    pub node: Node,
}

/// A part as an operand: what the types say of its value (C99 6.3.2.1), and the core of that value.
#[derive(Drop)]
pub struct Used {
    pub told: Told,
    pub value: Shared<Expr>,
}

/// A part that is a value. It fails for want of memory alone.
pub(crate) fn valued(alloc: Global, told: Told, value: Expr) -> Result<Built, AllocError>
    ensures { IfOk result (λ y. y ≡ a_value told value) }
{
    let value = Shared::new(alloc, value)?;
    Ok(Built {
        told,
        rooted: false,
        node: Node::Value(value),
    })
}

/// A part that is an lvalue or a function, by its address. It fails for want of memory alone.
pub(crate) fn placed(
    alloc: Global,
    told: Told,
    rooted: bool,
    address: Expr,
) -> Result<Built, AllocError>
    ensures { IfOk result (λ y. y ≡ a_place told rooted address) }
{
    let address = Shared::new(alloc, address)?;
    Ok(Built {
        told,
        rooted,
        node: Node::Place(address),
    })
}

/// A value that is read at an address. It fails for want of memory alone.
fn load(
    alloc: Global,
    at: u32,
    stored: ValueType,
    rooted: bool,
    address: Shared<Expr>,
) -> Result<Shared<Expr>, AllocError>
    ensures { IfOk result (λ e. e ≡ loaded at stored rooted address) }
{
    let access = Access {
        at,
        stored,
        is_tested: !rooted,
    };
    Shared::new(alloc, Expr::Load { access, address })
}

/// What is evaluated, and worth nothing. It fails for want of memory alone.
pub(crate) fn voided(alloc: Global, operand: Shared<Expr>) -> Result<Shared<Expr>, AllocError>
    ensures { IfOk result (λ e. e ≡ expr.Convert v.Void operand) }
{
    Shared::new(
        alloc,
        Expr::Convert {
            to: ValueType::Void,
            operand,
        },
    )
}

/// Two operands, one behind the other, of which no value is made. It fails for want of memory alone.
pub(crate) fn left_out(
    alloc: Global,
    first: Shared<Expr>,
    second: Shared<Expr>,
) -> Result<Expr, AllocError>
    ensures { IfOk result (λ e. e ≡ refused first second) }
{
    let operand = Shared::new(alloc, Expr::Comma { first, second })?;
    Ok(Expr::Convert {
        to: ValueType::Void,
        operand,
    })
}

/// The value of what stands at an address: an array or a function is its address, and a void expression has no value.
/// It fails for want of memory alone.
fn read(
    alloc: Global,
    class: Class,
    bytes: u64,
    at: u32,
    rooted: bool,
    address: Shared<Expr>,
) -> Result<Shared<Expr>, AllocError>
    ensures { IfOk result (λ e. e ≡ read_node class bytes at rooted address) }
{
    match class {
        Class::Integer(_) => load(alloc, at, value_type(class, bytes), rooted, address),
        Class::Pointer => load(alloc, at, ValueType::Pointer, rooted, address),
        Class::Aggregate(_) => load(alloc, at, ValueType::Block { bytes }, rooted, address),
        Class::Array => Ok(address),
        Class::Function => Ok(address),
        Class::Void => voided(alloc, address),
        Class::Floating => load(alloc, at, ValueType::Block { bytes }, rooted, address),
        Class::Opaque => load(alloc, at, ValueType::Block { bytes }, rooted, address),
    }
}

/// The core of a call, whose answer is used or not. It fails for want of memory alone.
pub(crate) fn called(alloc: Global, call: Call, is_used: bool) -> Result<Shared<Expr>, AllocError>
    ensures { IfOk result (λ e. e ≡ call_node call is_used) }
{
    let Call {
        at,
        arguments,
        callee,
        answer,
    } = call;
    let node = Expr::Call {
        at,
        arguments,
        callee,
        answer,
        is_used,
    };
    Shared::new(alloc, node)
}

/// The core of a part's value, which is used or not. It fails for want of memory alone.
pub(crate) fn value_of(
    alloc: Global,
    tables: &Tables,
    told: &Told,
    rooted: bool,
    node: Node,
    is_used: bool,
) -> Result<Shared<Expr>, AllocError>
    ensures { IfOk result (λ e. e ≡ worth_node is_used tables.now told.now rooted node) }
{
    match node {
        Node::Value(value) => Ok(value),
        Node::Call(call) => called(alloc, call, is_used),
        Node::Place(address) => read(
            alloc,
            class_of(told),
            bytes_in(tables, told),
            told.at,
            rooted,
            address,
        ),
    }
}

/// The core of a part's address: of what has none 0, behind its value. It fails for want of memory alone.
pub(crate) fn address_of_node(alloc: Global, node: Node) -> Result<Shared<Expr>, AllocError>
    ensures { IfOk result (λ e. e ≡ address_in node) }
{
    match node {
        Node::Place(address) => Ok(address),
        Node::Value(value) => voided(alloc, value),
        Node::Call(call) => {
            let value = called(alloc, call, true)?;
            voided(alloc, value)
        }
    }
}

/// A part as an operand, in the names in force behind it (C99 6.3.2.1p2 to p4). It fails for want of memory alone.
pub fn operand(alloc: Global, tables: &Tables, x: Built) -> Result<Used, AllocError>
    ensures { IfOk result (λ y. HasWorth true tables.now x (used_told tables.now x.told) y) }
{
    let Built { told, rooted, node } = x;
    let value = value_of(alloc, tables, &told, rooted, node, true)?;
    let told = forms::used(alloc, tables, told)?;
    Ok(Used { told, value })
}

/// A part whose value isn't used, in the names in force behind it: what the types say of it as it stands. It fails for
/// want of memory alone.
pub fn discarded(alloc: Global, tables: &Tables, x: Built) -> Result<Used, AllocError>
    ensures { IfOk result (λ y. HasWorth false tables.now x x.told y) }
{
    let Built { told, rooted, node } = x;
    let value = value_of(alloc, tables, &told, rooted, node, false)?;
    Ok(Used { told, value })
}
