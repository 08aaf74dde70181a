//! What stands at the tokens of expressions, each behind what was found before.
ghost use Rattle.std.specs.Prelude.{◌≡◌, ◌++◌, OnOk};
ghost use Rattle.core_marks.specs.Marks as marks;

use crate::callees::put_call;
use crate::mark::Mark;
use crate::operators::{
    put_operator, put_operator_unless, put_read, put_sides, put_turning_unless, put_written,
};
use core_tree::Expr;
use plain_data::{Items, Shared};
use std::alloc::{AllocError, Global};

/// Puts what stands at the tokens of an expression at the end. It fails for want of memory alone.
#[cycle(marking)]
pub(crate) fn put_value(alloc: Global, e: &Expr, out: &mut Items<Mark>) -> Result<(), AllocError>
    ensures { OnOk result (out.new ≡ out.old ++ marks.value_marks e.now) }
{
    match e {
        Expr::Constant { .. } => Ok(()),
        Expr::Fixed { .. } => Ok(()),
        Expr::Local { .. } => Ok(()),
        Expr::Load { access, address } => {
            put_read(access, out)?;
            put_value(alloc, address.get(), out)?;
            Ok(())
        }
        Expr::Target { operand } => {
            put_value(alloc, operand.get(), out)?;
            Ok(())
        }
        Expr::Pointer { operand } => {
            put_value(alloc, operand.get(), out)?;
            Ok(())
        }
        Expr::Offset { operand, .. } => {
            put_value(alloc, operand.get(), out)?;
            Ok(())
        }
        Expr::Extract { operand, .. } => {
            put_value(alloc, operand.get(), out)?;
            Ok(())
        }
        Expr::Convert { operand, .. } => {
            put_value(alloc, operand.get(), out)?;
            Ok(())
        }
        Expr::Cast { operand, .. } => {
            put_value(alloc, operand.get(), out)?;
            Ok(())
        }
        Expr::Turn {
            at,
            operator,
            word,
            is_constant,
            operand,
        } => {
            put_turning_unless(*at, *operator, *word, *is_constant, out)?;
            put_value(alloc, operand.get(), out)?;
            Ok(())
        }
        Expr::Not { operand } => {
            put_value(alloc, operand.get(), out)?;
            Ok(())
        }
        Expr::Operate {
            at,
            operator,
            is_constant,
            left,
            right,
        } => {
            put_operator_unless(*at, *operator, *is_constant, out)?;
            put_value(alloc, left.get(), out)?;
            put_value(alloc, right.get(), out)?;
            Ok(())
        }
        Expr::And { at, left, right } => {
            put_sides(*at, out)?;
            put_value(alloc, left.get(), out)?;
            put_value(alloc, right.get(), out)?;
            Ok(())
        }
        Expr::Or { at, left, right } => {
            put_sides(*at, out)?;
            put_value(alloc, left.get(), out)?;
            put_value(alloc, right.get(), out)?;
            Ok(())
        }
        Expr::Choose {
            at,
            condition,
            positive,
            negative,
        } => {
            put_sides(*at, out)?;
            put_value(alloc, condition.get(), out)?;
            put_value(alloc, positive.get(), out)?;
            put_value(alloc, negative.get(), out)?;
            Ok(())
        }
        Expr::Store {
            at,
            access,
            target,
            value,
        } => {
            put_written(*at, access, out)?;
            put_value(alloc, target.get(), out)?;
            put_value(alloc, value.get(), out)?;
            Ok(())
        }
        Expr::Update {
            at,
            operator,
            access,
            target,
            value,
        } => {
            put_operator(*at, *operator, out)?;
            put_written(*at, access, out)?;
            put_value(alloc, target.get(), out)?;
            put_value(alloc, value.get(), out)?;
            Ok(())
        }
        Expr::Step {
            at,
            operator,
            access,
            target,
            ..
        } => {
            put_operator(*at, *operator, out)?;
            put_written(*at, access, out)?;
            put_value(alloc, target.get(), out)?;
            Ok(())
        }
        Expr::Comma { first, second } => {
            put_value(alloc, first.get(), out)?;
            put_value(alloc, second.get(), out)?;
            Ok(())
        }
        Expr::Call {
            at,
            arguments,
            callee,
            ..
        } => {
            put_call(alloc, *at, callee, out)?;
            put_values(alloc, arguments.as_slice(), out)?;
            Ok(())
        }
    }
}

/// Puts what stands at the tokens of expressions at the end. It fails for want of memory alone.
#[cycle(marking)]
pub(crate) fn put_values(
    alloc: Global,
    items: &[Shared<Expr>],
    out: &mut Items<Mark>,
) -> Result<(), AllocError>
    ensures { OnOk result (out.new ≡ out.old ++ marks.values_marks items.now) }
{
    for item in items {
        put_value(alloc, item.get(), out)?;
    }
    Ok(())
}
