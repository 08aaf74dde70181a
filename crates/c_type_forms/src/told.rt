//! What an expression says, apart from the scope behind it, and what a node says over its parts.
ghost use Rattle.std.specs.Prelude.{◌≡◌, ◌++◌, IfOk};
ghost use Rattle.c_language.specs.Types as types;
ghost use Rattle.c_language.specs.Typing as spec;

use crate::aggregates::{element, member_shown_of, pointed_member};
use crate::assigning::{assigned, cast_to, choice_of, compound, stepped};
use crate::operators::operated;
use crate::turning::{address, indirection, negated, promoted_by, size_in};
use crate::values::{some_value, value_of};
use c_language::{
    BinaryOperator, CType, Class, Fault, Name, Rule, Shown, Tables, Told, UnaryOperator,
};
use plain_data::Items;
use std::alloc::{AllocError, Global};

/// A node that shows nothing.
pub fn typeless(at: u32, faults: Items<Fault>) -> Told
    ensures { result ≡ spec.typeless at faults }
{
    Told {
        at,
        shown: None,
        faults,
    }
}

/// A node that shows nothing, since it breaks a rule. It fails for want of memory alone.
pub fn refused(at: u32, rule: Rule, faults: Items<Fault>) -> Result<Told, AllocError>
    ensures { IfOk result (λ x. x ≡ spec.refused at rule faults) }
{
    let mut faults = faults;
    faults.push(Fault { at, rule })?;
    Ok(typeless(at, faults))
}

/// Whether this is a floating type.
pub fn is_floating(ctype: &CType) -> bool
    ensures { result ≡ types.is_floating ctype.now }
{
    matches!(ctype.class(), Class::Floating)
}

/// A node that shows what was judged. It fails for want of memory alone.
pub fn node(at: u32, judged: Result<Shown, Rule>, faults: Items<Fault>) -> Result<Told, AllocError>
    ensures { IfOk result (λ x. x ≡ spec.node at judged faults) }
{
    match judged {
        Err(rule) => refused(at, rule, faults),
        Ok(shown) => {
            if is_floating(&shown.ctype) {
                refused(at, Rule::FloatUsed, faults)
            } else {
                Ok(Told {
                    at,
                    shown: Some(shown),
                    faults,
                })
            }
        }
    }
}

/// A part as a value. It fails for want of memory alone.
pub fn used(alloc: Global, tables: &Tables, x: Told) -> Result<Told, AllocError>
    ensures { IfOk result (λ y. y ≡ spec.used_told tables.now x) }
{
    let Told { at, shown, faults } = x;
    match shown {
        Some(shown) => node(at, value_of(alloc, tables, shown)?, faults),
        None => Ok(typeless(at, faults)),
    }
}

pub fn joined(first: Items<Fault>, second: Items<Fault>) -> Result<Items<Fault>, AllocError>
    ensures { IfOk result (λ faults. faults ≡ first ++ second) }
{
    let mut faults = first;
    faults.append(second)?;
    Ok(faults)
}

/// A binary operator over values. It fails for want of memory alone.
pub fn binary(
    alloc: Global,
    tables: &Tables,
    at: u32,
    operator: BinaryOperator,
    x: Told,
    y: Told,
) -> Result<Told, AllocError>
    ensures { IfOk result (λ z. z ≡ spec.node_over_two at x.shown y.shown (spec.operated tables.now operator) (x.faults ++ y.faults)) }
{
    let Told {
        shown: left,
        faults,
        ..
    } = x;
    let Told {
        shown: right,
        faults: more,
        ..
    } = y;
    let faults = joined(faults, more)?;
    match (left, right) {
        (Some(left), Some(right)) => {
            node(
                at,
                operated(alloc, tables, operator, &left, &right)?,
                faults,
            )
        }
        _ => Ok(typeless(at, faults)),
    }
}

/// The operand of a unary operator: `&`, `++` and `--` take it as it stands, the others its value.
pub fn operand(
    alloc: Global,
    tables: &Tables,
    operator: UnaryOperator,
    x: Told,
) -> Result<Told, AllocError>
    ensures { IfOk result (λ y. y ≡ spec.operand_told tables.now operator x) }
{
    match operator {
        UnaryOperator::Address => Ok(x),
        UnaryOperator::Increment => Ok(x),
        UnaryOperator::Decrement => Ok(x),
        UnaryOperator::Indirection => used(alloc, tables, x),
        UnaryOperator::Plus => used(alloc, tables, x),
        UnaryOperator::Minus => used(alloc, tables, x),
        UnaryOperator::Complement => used(alloc, tables, x),
        UnaryOperator::Not => used(alloc, tables, x),
    }
}

fn unary_judged(
    alloc: Global,
    tables: &Tables,
    operator: UnaryOperator,
    x: &Shown,
) -> Result<Result<Shown, Rule>, AllocError>
    ensures { IfOk result (λ j. j ≡ spec.unary_judged tables.now operator x.now) }
{
    match operator {
        UnaryOperator::Address => address(alloc, x),
        UnaryOperator::Indirection => indirection(alloc, x),
        UnaryOperator::Plus => Ok(promoted_by(alloc, operator, x)),
        UnaryOperator::Minus => Ok(promoted_by(alloc, operator, x)),
        UnaryOperator::Complement => Ok(promoted_by(alloc, operator, x)),
        UnaryOperator::Not => Ok(negated(alloc, x)),
        UnaryOperator::Increment => stepped(alloc, tables, x),
        UnaryOperator::Decrement => stepped(alloc, tables, x),
    }
}

/// A unary operator over its operand. It fails for want of memory alone.
pub fn unary(
    alloc: Global,
    tables: &Tables,
    at: u32,
    operator: UnaryOperator,
    x: Told,
) -> Result<Told, AllocError>
    ensures { IfOk result (λ y. y ≡ spec.node_over at x.shown (spec.unary_judged tables.now operator) x.faults) }
{
    let Told { shown, faults, .. } = x;
    match shown {
        Some(shown) => node(at, unary_judged(alloc, tables, operator, &shown)?, faults),
        None => Ok(typeless(at, faults)),
    }
}

/// A postfix operator over its operand. It fails for want of memory alone.
pub fn postfix(alloc: Global, tables: &Tables, at: u32, x: Told) -> Result<Told, AllocError>
    ensures { IfOk result (λ y. y ≡ spec.node_over at x.shown (spec.stepped tables.now) x.faults) }
{
    let Told { shown, faults, .. } = x;
    match shown {
        Some(shown) => node(at, stepped(alloc, tables, &shown)?, faults),
        None => Ok(typeless(at, faults)),
    }
}

/// The size of an expression's type. It fails for want of memory alone.
pub fn size_of_expression(
    alloc: Global,
    tables: &Tables,
    at: u32,
    x: Told,
) -> Result<Told, AllocError>
    ensures { IfOk result (λ y. y ≡ spec.node_over at x.shown (spec.size_shown tables.now) x.faults) }
{
    let Told { shown, faults, .. } = x;
    match shown {
        Some(shown) => node(at, size_in(alloc, tables, &shown.ctype), faults),
        None => Ok(typeless(at, faults)),
    }
}

/// The size of a named type. It fails for want of memory alone.
pub fn size_of_type(
    alloc: Global,
    tables: &Tables,
    at: u32,
    named: Option<Result<CType, Rule>>,
    faults: Items<Fault>,
) -> Result<Told, AllocError>
    ensures { IfOk result (λ y. y ≡ spec.over_named at named (spec.size_in tables.now) faults) }
{
    match named {
        Some(Ok(ctype)) => node(at, size_in(alloc, tables, &ctype), faults),
        Some(Err(rule)) => refused(at, rule, faults),
        None => Ok(typeless(at, faults)),
    }
}

fn cast_shown(
    alloc: Global,
    at: u32,
    to: &CType,
    shown: Option<Shown>,
    faults: Items<Fault>,
) -> Result<Told, AllocError>
    ensures { IfOk result (λ y. y ≡ spec.node_over at shown (spec.cast_to to.now) faults) }
{
    match shown {
        Some(shown) => node(at, cast_to(alloc, to, &shown)?, faults),
        None => Ok(typeless(at, faults)),
    }
}

/// A cast of a value, behind the faults of its type name. It fails for want of memory alone.
pub fn cast(
    alloc: Global,
    at: u32,
    named: Option<Result<CType, Rule>>,
    faults: Items<Fault>,
    x: Told,
) -> Result<Told, AllocError>
    ensures { IfOk result (λ y. y ≡ spec.cast_over at named x.shown (faults ++ x.faults)) }
{
    let Told {
        shown,
        faults: more,
        ..
    } = x;
    let faults = joined(faults, more)?;
    match named {
        Some(Ok(ctype)) => cast_shown(alloc, at, &ctype, shown, faults),
        Some(Err(rule)) => refused(at, rule, faults),
        None => Ok(typeless(at, faults)),
    }
}

/// A subscript of values. It fails for want of memory alone.
pub fn subscript(
    alloc: Global,
    tables: &Tables,
    at: u32,
    x: Told,
    y: Told,
) -> Result<Told, AllocError>
    ensures { IfOk result (λ z. z ≡ spec.node_over_two at x.shown y.shown (spec.element tables.now) (x.faults ++ y.faults)) }
{
    let Told {
        shown: left,
        faults,
        ..
    } = x;
    let Told {
        shown: right,
        faults: more,
        ..
    } = y;
    let faults = joined(faults, more)?;
    match (left, right) {
        (Some(left), Some(right)) => node(at, element(alloc, tables, &left, &right)?, faults),
        _ => Ok(typeless(at, faults)),
    }
}

/// A member of an object. It fails for want of memory alone.
pub fn member(
    alloc: Global,
    tables: &Tables,
    at: u32,
    name: &Name,
    x: Told,
) -> Result<Told, AllocError>
    ensures { IfOk result (λ y. y ≡ spec.node_over at x.shown (spec.member_shown_of tables.now name.now) x.faults) }
{
    let Told { shown, faults, .. } = x;
    match shown {
        Some(shown) => node(at, member_shown_of(alloc, tables, name, &shown)?, faults),
        None => Ok(typeless(at, faults)),
    }
}

/// A member of what a value points to. It fails for want of memory alone.
pub fn arrow(
    alloc: Global,
    tables: &Tables,
    at: u32,
    name: &Name,
    x: Told,
) -> Result<Told, AllocError>
    ensures { IfOk result (λ y. y ≡ spec.node_over at x.shown (spec.pointed_member tables.now name.now) x.faults) }
{
    let Told { shown, faults, .. } = x;
    match shown {
        Some(shown) => node(at, pointed_member(alloc, tables, name, &shown)?, faults),
        None => Ok(typeless(at, faults)),
    }
}

fn choice_shown(
    alloc: Global,
    at: u32,
    condition: Option<Shown>,
    x: Option<Shown>,
    y: Option<Shown>,
    faults: Items<Fault>,
) -> Result<Told, AllocError>
    ensures { IfOk result (λ z. z ≡ spec.choice_over at condition x y faults) }
{
    match (condition, x, y) {
        (Some(condition), Some(x), Some(y)) => {
            node(at, choice_of(alloc, &condition, &x, &y)?, faults)
        }
        _ => Ok(typeless(at, faults)),
    }
}

/// The conditional operator over values. It fails for want of memory alone.
pub fn choice(alloc: Global, at: u32, condition: Told, x: Told, y: Told) -> Result<Told, AllocError>
    ensures { IfOk result (λ z. z ≡ spec.choice_over at condition.shown x.shown y.shown (condition.faults ++ x.faults ++ y.faults)) }
{
    let Told {
        shown: condition,
        faults: first,
        ..
    } = condition;
    let Told {
        shown: left,
        faults: second,
        ..
    } = x;
    let Told {
        shown: right,
        faults: third,
        ..
    } = y;
    let faults = joined(first, joined(second, third)?)?;
    choice_shown(alloc, at, condition, left, right, faults)
}

fn assignment_judged(
    alloc: Global,
    tables: &Tables,
    operator: Option<BinaryOperator>,
    x: &Shown,
    y: &Shown,
) -> Result<Result<Shown, Rule>, AllocError>
    ensures { IfOk result (λ j. j ≡ spec.assignment_judged tables.now operator x.now y.now) }
{
    match operator {
        Some(operator) => compound(alloc, tables, operator, x, y),
        None => assigned(alloc, x, y),
    }
}

/// An assignment of a value to a target. It fails for want of memory alone.
pub fn assignment(
    alloc: Global,
    tables: &Tables,
    at: u32,
    operator: Option<BinaryOperator>,
    x: Told,
    y: Told,
) -> Result<Told, AllocError>
    ensures { IfOk result (λ z. z ≡ spec.node_over_two at x.shown y.shown (spec.assignment_judged tables.now operator) (x.faults ++ y.faults)) }
{
    let Told {
        shown: left,
        faults,
        ..
    } = x;
    let Told {
        shown: right,
        faults: more,
        ..
    } = y;
    let faults = joined(faults, more)?;
    match (left, right) {
        (Some(left), Some(right)) => {
            node(
                at,
                assignment_judged(alloc, tables, operator, &left, &right)?,
                faults,
            )
        }
        _ => Ok(typeless(at, faults)),
    }
}

fn second_of(shown: Shown) -> Result<Shown, Rule>
    ensures { result ≡ spec.second_judged shown }
{
    let Shown { ctype, .. } = shown;
    Ok(some_value(ctype))
}

/// The comma operator, with the value of its right side. It fails for want of memory alone.
pub fn comma(at: u32, x: Told, y: Told) -> Result<Told, AllocError>
    ensures { IfOk result (λ z. z ≡ spec.node_over_two at x.shown y.shown (λ a b. spec.second_judged b) (x.faults ++ y.faults)) }
{
    let Told {
        shown: left,
        faults,
        ..
    } = x;
    let Told {
        shown: right,
        faults: more,
        ..
    } = y;
    let faults = joined(faults, more)?;
    match (left, right) {
        (Some(_), Some(right)) => node(at, second_of(right), faults),
        _ => Ok(typeless(at, faults)),
    }
}
