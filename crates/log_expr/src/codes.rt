//! Where code leads along a log.
ghost use Rattle.std.specs.Prelude.{◌≡◌, map, IfOk};
ghost use Rattle.core_tree.specs.Codes as core;
ghost use Rattle.log_expr.specs.Below.{Finds};
ghost use Rattle.log_expr.specs.CodeWalks.{WalksCode};

use crate::callees::Walk;
use crate::course::Course;
use crate::stage::Stage;
use crate::steps::{step_return, step_settings, step_step, step_test, step_value};
use crate::table::{EndTable, Ends};
use core_tree::Code;
use plain_data::Shared;
use std::alloc::{AllocError, Global};

/// Where code leads. It fails for want of memory alone.
#[cycle(codes)]
pub fn walk_code<
    'a,
    L: Stage,
    K: Fn(Global, &L, u32, usize, &mut EndTable) -> Result<Ends, AllocError>,
>(
    walk: &Walk<'a, L, K>,
    c: &Code,
    course: &mut Course,
    table: &mut EndTable,
) -> Result<(), AllocError>
    requires { Finds L.site K.Fn walk.now.stage walk.now.call.now }
    ensures { IfOk result (λ _. WalksCode (L.site walk.now.stage.now) table.old table.new
        (core.code c.now) course.old course.new) }
{
    match c {
        Code::Nothing { .. } => Ok(()),
        Code::Static { .. } => Ok(()),
        Code::Value { value, .. } => {
            step_value(walk, value.get(), course, table)?;
            Ok(())
        }
        Code::Declare { settings, .. } => {
            step_settings(walk, settings.as_slice(), course, table)?;
            Ok(())
        }
        Code::Block { items, .. } => {
            course.enter(walk.alloc)?;
            walk_codes(walk, items.as_slice(), course, table)?;
            course.leave()?;
            Ok(())
        }
        Code::Label { body, .. } => {
            course.at.pass_label()?;
            walk_code(walk, body.get(), course, table)?;
            Ok(())
        }
        Code::Case { body, .. } => {
            course.at.pass_choice()?;
            walk_code(walk, body.get(), course, table)?;
            Ok(())
        }
        Code::Default { body } => {
            course.at.pass_choice()?;
            walk_code(walk, body.get(), course, table)?;
            Ok(())
        }
        Code::If {
            condition,
            positive,
            negative,
            ..
        } => {
            step_value(walk, condition.get(), course, table)?;
            course.enter(walk.alloc)?;
            walk_code(walk, positive.get(), course, table)?;
            course.begin_again(walk.alloc)?;
            walk_code(walk, negative.get(), course, table)?;
            course.leave()?;
            Ok(())
        }
        Code::Switch { value, items, .. } => {
            step_value(walk, value.get(), course, table)?;
            course.enter(walk.alloc)?;
            course.at.choose(walk.alloc)?;
            walk_codes(walk, items.as_slice(), course, table)?;
            course.at.pass_switch(walk.alloc)?;
            course.leave()?;
            Ok(())
        }
        Code::Loop {
            test,
            step,
            body,
            ..
        } => {
            course.enter(walk.alloc)?;
            let mut left = walk.stage.turns();
            'turns: while left > 0 {
                step_test(walk, test, course, table)?;
                walk_code(walk, body.get(), course, table)?;
                course.end_body(walk.alloc)?;
                step_step(walk, step, course, table)?;
                left = course.begin_turn(walk.alloc, left - 1)?;
            }
            step_test(walk, test, course, table)?;
            course.at.end(walk.alloc)?;
            course.leave()?;
            Ok(())
        }
        Code::Repeat { test, body, .. } => {
            course.enter(walk.alloc)?;
            let mut left = walk.stage.turns();
            'rounds: while left > 0 {
                walk_code(walk, body.get(), course, table)?;
                course.end_body(walk.alloc)?;
                step_value(walk, test.get(), course, table)?;
                course.pass()?;
                left = course.begin_turn(walk.alloc, left - 1)?;
            }
            course.at.end(walk.alloc)?;
            course.leave()?;
            Ok(())
        }
        Code::Goto { .. } => {
            course.at.jump_to(walk.alloc)?;
            Ok(())
        }
        Code::Continue => {
            course.at.jump_on(walk.alloc)?;
            Ok(())
        }
        Code::Break => {
            course.at.jump_out(walk.alloc)?;
            Ok(())
        }
        Code::Return { value } => {
            step_return(walk, value, course, table)?;
            Ok(())
        }
    }
}

/// Where items lead, one behind the other. It fails for want of memory alone.
#[cycle(codes)]
pub fn walk_codes<
    'a,
    L: Stage,
    K: Fn(Global, &L, u32, usize, &mut EndTable) -> Result<Ends, AllocError>,
>(
    walk: &Walk<'a, L, K>,
    cs: &[Shared<Code>],
    course: &mut Course,
    table: &mut EndTable,
) -> Result<(), AllocError>
    requires { Finds L.site K.Fn walk.now.stage walk.now.call.now }
    ensures { IfOk result (λ _. WalksCode (L.site walk.now.stage.now) table.old table.new
        (core.in_turn (map core.code cs.now)) course.old course.new) }
{
    for c in cs {
        walk_code(walk, c.get(), course, table)?;
    }
    Ok(())
}
