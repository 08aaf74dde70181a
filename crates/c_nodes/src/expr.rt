//! Expressions made of expressions, with their ranks and heights.
ghost use Rattle.std.specs.Prelude.{◌≡◌, ◌≤◌, ◌<◌, ◌+◌, IfOk, None, Some, max, map};
ghost use Rattle.c_grammar.specs.Grammar.{highest_shape, shape, type_name_of};
ghost use Rattle.c_language.specs.declared.expr.Expr.TheVariants as expr;

use crate::found::{FoundExpr, FoundOptional, FoundType};
use c_grammar::rank_of;
use c_language::{BinaryOperator, Expr, IntegerConstant, Name, PostfixOperator, UnaryOperator};
use plain_data::{Bytes, Items, Shared};
use std::alloc::{AllocError, Global};

/// The greater of two numbers.
pub fn most(a: u32, b: u32) -> u32
    ensures { result ≡ max a b }
{
    if a < b { b } else { a }
}

/// An expression that is left out.
pub fn absent() -> FoundOptional
    ensures tree { result.tree ≡ None }
    ensures height { result.height ≡ 0 }
{
    FoundOptional {
        tree: None,
        height: 0,
    }
}

/// An expression that may be left out, and is there.
pub fn present(alloc: Global, found: FoundExpr) -> Result<FoundOptional, AllocError>
    ensures tree { IfOk result (λ f. f.tree ≡ Some found.tree) }
    ensures height { IfOk result (λ f. f.height ≡ found.height) }
{
    let height = found.height;
    let tree = Shared::new(alloc, found.tree)?;
    Ok(FoundOptional {
        tree: Some(tree),
        height,
    })
}

/// An expression in parentheses.
#[tactic(auto, using(crate::proofs::ExprNodes::rank_parenthesized, crate::proofs::ExprNodes::height_parenthesized))]
pub fn parenthesized(alloc: Global, at: u32, inner: FoundExpr) -> Result<FoundExpr, AllocError>
    requires low_inner { inner.height < 1000 }
    ensures tree { IfOk result (λ f. f.tree ≡ expr.Parenthesized at inner.tree) }
    ensures height { IfOk result (λ f. f.height ≡ inner.height + 1) }
{
    let height = inner.height + 1;
    let inner = Shared::new(alloc, inner.tree)?;
    Ok(FoundExpr {
        tree: Expr::Parenthesized { at, inner },
        rank: 0,
        height,
    })
}

/// `array[index]`.
#[tactic(auto, using(crate::proofs::ExprNodes::rank_subscript, crate::proofs::ExprNodes::height_subscript))]
pub fn subscript(
    alloc: Global,
    at: u32,
    array: FoundExpr,
    index: FoundExpr,
) -> Result<FoundExpr, AllocError>
    requires low_array { array.height < 1000 }
    requires low_index { index.height < 1000 }
    ensures tree { IfOk result (λ f. f.tree ≡ expr.Subscript at array.tree index.tree) }
    ensures height { IfOk result (λ f. f.height ≡ (max array.height index.height) + 1) }
{
    let height = most(array.height, index.height) + 1;
    let array = Shared::new(alloc, array.tree)?;
    let index = Shared::new(alloc, index.tree)?;
    Ok(FoundExpr {
        tree: Expr::Subscript { at, array, index },
        rank: 1,
        height,
    })
}

/// `object.member`.
#[tactic(auto, using(crate::proofs::ExprNodes::rank_member, crate::proofs::ExprNodes::height_member))]
pub fn member(
    alloc: Global,
    at: u32,
    member: Name,
    object: FoundExpr,
) -> Result<FoundExpr, AllocError>
    requires low_object { object.height < 1000 }
    ensures tree { IfOk result (λ f. f.tree ≡ expr.Member at object.tree member) }
    ensures height { IfOk result (λ f. f.height ≡ object.height + 1) }
{
    let height = object.height + 1;
    let object = Shared::new(alloc, object.tree)?;
    Ok(FoundExpr {
        tree: Expr::Member { at, object, member },
        rank: 1,
        height,
    })
}

/// `pointer->member`.
#[tactic(auto, using(crate::proofs::ExprNodes::rank_arrow, crate::proofs::ExprNodes::height_arrow))]
pub fn arrow(
    alloc: Global,
    at: u32,
    member: Name,
    pointer: FoundExpr,
) -> Result<FoundExpr, AllocError>
    requires low_pointer { pointer.height < 1000 }
    ensures tree { IfOk result (λ f. f.tree ≡ expr.Arrow at pointer.tree member) }
    ensures height { IfOk result (λ f. f.height ≡ pointer.height + 1) }
{
    let height = pointer.height + 1;
    let pointer = Shared::new(alloc, pointer.tree)?;
    Ok(FoundExpr {
        tree: Expr::Arrow {
            at,
            pointer,
            member,
        },
        rank: 1,
        height,
    })
}

/// An operand and `++` or `--` behind it.
#[tactic(auto, using(crate::proofs::ExprNodes::rank_postfix, crate::proofs::ExprNodes::height_postfix))]
pub fn postfix(
    alloc: Global,
    at: u32,
    operator: PostfixOperator,
    operand: FoundExpr,
) -> Result<FoundExpr, AllocError>
    requires low_operand { operand.height < 1000 }
    ensures tree { IfOk result (λ f. f.tree ≡ expr.Postfix at operator operand.tree) }
    ensures height { IfOk result (λ f. f.height ≡ operand.height + 1) }
{
    let height = operand.height + 1;
    let operand = Shared::new(alloc, operand.tree)?;
    Ok(FoundExpr {
        tree: Expr::Postfix {
            at,
            operator,
            operand,
        },
        rank: 1,
        height,
    })
}

/// A unary operator and its operand.
#[tactic(auto, using(crate::proofs::ExprNodes::rank_unary, crate::proofs::ExprNodes::height_unary))]
pub fn unary(
    alloc: Global,
    at: u32,
    operator: UnaryOperator,
    operand: FoundExpr,
) -> Result<FoundExpr, AllocError>
    requires low_operand { operand.height < 1000 }
    ensures tree { IfOk result (λ f. f.tree ≡ expr.Unary at operator operand.tree) }
    ensures height { IfOk result (λ f. f.height ≡ operand.height + 1) }
{
    let height = operand.height + 1;
    let operand = Shared::new(alloc, operand.tree)?;
    Ok(FoundExpr {
        tree: Expr::Unary {
            at,
            operator,
            operand,
        },
        rank: 2,
        height,
    })
}

/// `sizeof operand`.
#[tactic(auto, using(crate::proofs::ExprNodes::rank_sizeof_expr, crate::proofs::ExprNodes::height_sizeof_expr))]
pub fn sizeof_expr(alloc: Global, at: u32, operand: FoundExpr) -> Result<FoundExpr, AllocError>
    requires low_operand { operand.height < 1000 }
    ensures tree { IfOk result (λ f. f.tree ≡ expr.SizeofExpr at operand.tree) }
    ensures height { IfOk result (λ f. f.height ≡ operand.height + 1) }
{
    let height = operand.height + 1;
    let operand = Shared::new(alloc, operand.tree)?;
    Ok(FoundExpr {
        tree: Expr::SizeofExpr { at, operand },
        rank: 2,
        height,
    })
}

/// A binary operator and its operands.
#[tactic(auto, using(crate::proofs::ExprNodes::rank_binary, crate::proofs::ExprNodes::height_binary))]
pub fn binary(
    alloc: Global,
    at: u32,
    operator: BinaryOperator,
    left: FoundExpr,
    right: FoundExpr,
) -> Result<FoundExpr, AllocError>
    requires low_left { left.height < 1000 }
    requires low_right { right.height < 1000 }
    ensures tree { IfOk result (λ f. f.tree ≡ expr.Binary at operator left.tree right.tree) }
    ensures height { IfOk result (λ f. f.height ≡ (max left.height right.height) + 1) }
{
    let height = most(left.height, right.height) + 1;
    let left = Shared::new(alloc, left.tree)?;
    let right = Shared::new(alloc, right.tree)?;
    Ok(FoundExpr {
        tree: Expr::Binary {
            at,
            operator,
            left,
            right,
        },
        rank: rank_of(operator),
        height,
    })
}

/// `condition ? positive : negative`.
#[tactic(auto, using(crate::proofs::ExprNodes::rank_conditional, crate::proofs::ExprNodes::height_conditional))]
pub fn conditional(
    alloc: Global,
    at: u32,
    condition: FoundExpr,
    positive: FoundExpr,
    negative: FoundExpr,
) -> Result<FoundExpr, AllocError>
    requires low_condition { condition.height < 1000 }
    requires low_positive { positive.height < 1000 }
    requires low_negative { negative.height < 1000 }
    ensures tree { IfOk result (λ f. f.tree ≡ expr.Conditional at condition.tree positive.tree negative.tree) }
    ensures height { IfOk result (λ f. f.height ≡ (max condition.height (max positive.height negative.height)) + 1) }
{
    let height = most(condition.height, most(positive.height, negative.height)) + 1;
    let condition = Shared::new(alloc, condition.tree)?;
    let positive = Shared::new(alloc, positive.tree)?;
    let negative = Shared::new(alloc, negative.tree)?;
    Ok(FoundExpr {
        tree: Expr::Conditional {
            at,
            condition,
            positive,
            negative,
        },
        rank: 14,
        height,
    })
}

/// An assignment.
#[tactic(auto, using(crate::proofs::ExprNodes::rank_assign, crate::proofs::ExprNodes::height_assign))]
pub fn assign(
    alloc: Global,
    at: u32,
    operator: Option<BinaryOperator>,
    target: FoundExpr,
    value: FoundExpr,
) -> Result<FoundExpr, AllocError>
    requires low_target { target.height < 1000 }
    requires low_value { value.height < 1000 }
    ensures tree { IfOk result (λ f. f.tree ≡ expr.Assign at operator target.tree value.tree) }
    ensures height { IfOk result (λ f. f.height ≡ (max target.height value.height) + 1) }
{
    let height = most(target.height, value.height) + 1;
    let target = Shared::new(alloc, target.tree)?;
    let value = Shared::new(alloc, value.tree)?;
    Ok(FoundExpr {
        tree: Expr::Assign {
            at,
            operator,
            target,
            value,
        },
        rank: 15,
        height,
    })
}

/// `left, right`.
#[tactic(auto, using(crate::proofs::ExprNodes::rank_comma, crate::proofs::ExprNodes::height_comma))]
pub fn comma(
    alloc: Global,
    at: u32,
    left: FoundExpr,
    right: FoundExpr,
) -> Result<FoundExpr, AllocError>
    requires low_left { left.height < 1000 }
    requires low_right { right.height < 1000 }
    ensures tree { IfOk result (λ f. f.tree ≡ expr.Comma at left.tree right.tree) }
    ensures height { IfOk result (λ f. f.height ≡ (max left.height right.height) + 1) }
{
    let height = most(left.height, right.height) + 1;
    let left = Shared::new(alloc, left.tree)?;
    let right = Shared::new(alloc, right.tree)?;
    Ok(FoundExpr {
        tree: Expr::Comma { at, left, right },
        rank: 16,
        height,
    })
}

/// An integer constant.
#[tactic(auto, using(crate::proofs::ExprNodes::rank_integer, crate::proofs::ExprNodes::height_integer))]
pub fn integer(at: u32, constant: IntegerConstant) -> FoundExpr
    ensures tree { result.tree ≡ expr.Integer at constant }
    ensures height { result.height ≡ 1 }
{
    FoundExpr {
        tree: Expr::Integer { at, constant },
        rank: 0,
        height: 1,
    }
}

/// A floating constant.
#[tactic(auto, using(crate::proofs::ExprNodes::rank_floating, crate::proofs::ExprNodes::height_floating))]
pub fn floating(at: u32) -> FoundExpr
    ensures tree { result.tree ≡ expr.Floating at }
    ensures height { result.height ≡ 1 }
{
    FoundExpr {
        tree: Expr::Floating { at },
        rank: 0,
        height: 1,
    }
}

/// A character constant.
#[tactic(auto, using(crate::proofs::ExprNodes::rank_character, crate::proofs::ExprNodes::height_character))]
pub fn character(at: u32, value: i32) -> FoundExpr
    ensures tree { result.tree ≡ expr.Character at value }
    ensures height { result.height ≡ 1 }
{
    FoundExpr {
        tree: Expr::Character { at, value },
        rank: 0,
        height: 1,
    }
}

/// `__func__`.
#[tactic(auto, using(crate::proofs::ExprNodes::rank_function_name, crate::proofs::ExprNodes::height_function_name))]
pub fn function_name(at: u32) -> FoundExpr
    ensures tree { result.tree ≡ expr.FunctionName at }
    ensures height { result.height ≡ 1 }
{
    FoundExpr {
        tree: Expr::FunctionName { at },
        rank: 0,
        height: 1,
    }
}

/// A name.
#[tactic(auto, using(crate::proofs::ExprNodes::rank_identifier, crate::proofs::ExprNodes::height_identifier))]
pub fn identifier(at: u32, name: Name) -> FoundExpr
    ensures tree { result.tree ≡ expr.Identifier at name }
    ensures height { result.height ≡ 1 }
{
    FoundExpr {
        tree: Expr::Identifier { at, name },
        rank: 0,
        height: 1,
    }
}

/// Adjacent string literals.
#[tactic(auto, using(crate::proofs::ExprNodes::rank_string_literal, crate::proofs::ExprNodes::height_string_literal))]
pub fn string_literal(at: u32, pieces: Items<Shared<Bytes>>) -> FoundExpr
    ensures tree { result.tree ≡ expr.StringLiteral at pieces }
    ensures height { result.height ≡ 1 }
{
    FoundExpr {
        tree: Expr::StringLiteral { at, pieces },
        rank: 0,
        height: 1,
    }
}

/// `callee(arguments)`, whose highest argument has this height.
#[tactic(auto, using(crate::proofs::ExprNodes::rank_call, crate::proofs::ExprNodes::height_call))]
pub fn call(
    alloc: Global,
    at: u32,
    callee: FoundExpr,
    arguments: Items<Shared<Expr>>,
    highest: u32,
) -> Result<FoundExpr, AllocError>
    requires low_callee { callee.height < 1000 }
    requires highest { highest ≡ highest_shape (map shape arguments) }
    requires low { highest < 1000 }
    ensures tree { IfOk result (λ f. f.tree ≡ expr.Call at callee.tree arguments) }
    ensures height { IfOk result (λ f. f.height ≡ max callee.height highest + 1) }
{
    let height = most(callee.height, highest) + 1;
    let callee = Shared::new(alloc, callee.tree)?;
    Ok(FoundExpr {
        tree: Expr::Call {
            at,
            callee,
            arguments,
        },
        rank: 1,
        height,
    })
}

/// `sizeof (type)`.
#[tactic(auto, using(crate::proofs::ExprNodes::rank_sizeof_type, crate::proofs::ExprNodes::height_sizeof_type))]
pub fn sizeof_type(alloc: Global, at: u32, type_name: FoundType) -> Result<FoundExpr, AllocError>
    requires low { type_name.height < 1000 }
    ensures tree { IfOk result (λ f. f.tree ≡ expr.SizeofType at type_name.tree) }
    ensures height { IfOk result (λ f. f.height ≡ type_name.height + 1) }
{
    let height = type_name.height + 1;
    let type_name = Shared::new(alloc, type_name.tree)?;
    Ok(FoundExpr {
        tree: Expr::SizeofType { at, type_name },
        rank: 2,
        height,
    })
}

/// `(type)operand`.
#[tactic(auto, using(crate::proofs::ExprNodes::rank_cast, crate::proofs::ExprNodes::height_cast))]
pub fn cast(
    alloc: Global,
    at: u32,
    type_name: FoundType,
    operand: FoundExpr,
) -> Result<FoundExpr, AllocError>
    requires low_type { type_name.height < 1000 }
    requires low_operand { operand.height < 1000 }
    ensures tree { IfOk result (λ f. f.tree ≡ expr.Cast at type_name.tree operand.tree) }
    ensures height { IfOk result (λ f. f.height ≡ (max type_name.height operand.height) + 1) }
{
    let height = most(type_name.height, operand.height) + 1;
    let type_name = Shared::new(alloc, type_name.tree)?;
    let operand = Shared::new(alloc, operand.tree)?;
    Ok(FoundExpr {
        tree: Expr::Cast {
            at,
            type_name,
            operand,
        },
        rank: 3,
        height,
    })
}
