//! Where expressions that stand in code lead.
ghost use Rattle.std.specs.Prelude.{◌≡◌, option_map, IfOk};
ghost use Rattle.core_tree.specs.Codes as form;
ghost use Rattle.core_tree.specs.Values.{value, value as worth};
ghost use Rattle.log_expr.specs.Below.{Finds};
ghost use Rattle.log_expr.specs.CodeWalks.{Evaluates, WalksAction, WalksTest, WalksStep};
ghost use Rattle.log_expr.specs.CodeWalks.{WalksSetting, WalksSettings, WalksCode};

use crate::callees::Walk;
use crate::course::Course;
use crate::flow::Flow;
use crate::stage::Stage;
use crate::table::{EndTable, Ends};
use crate::trail::Trail;
use crate::values::walk_value;
use core_tree::{Expr, Setting};
use plain_data::{Items, Shared};
use positions::Positions;
use std::alloc::{AllocError, Global};

/// Where an expression leads runs that are running. It fails for want of memory alone.
fn evaluate<'a, L: Stage, K: Fn(Global, &L, u32, usize, &mut EndTable) -> Result<Ends, AllocError>>(
    walk: &Walk<'a, L, K>,
    e: &Expr,
    at: &mut Flow,
    table: &mut EndTable,
) -> Result<(), AllocError>
    requires { Finds L.site K.Fn walk.now.stage walk.now.call.now }
    ensures { IfOk result (λ _. Evaluates (L.site walk.now.stage.now) table.old table.new (value e.now)
        at.old at.new) }
{
    let running = at.take_running(walk.alloc);
    let ended = std::mem::replace(&mut at.ended, Positions::new(walk.alloc));
    let mut trail = Trail {
        at: running,
        ended,
        aside: Items::new(walk.alloc),
    };
    walk_value(walk, e, &mut trail, table)?;
    let Trail {
        at: running,
        ended,
        ..
    } = trail;
    at.running = running;
    at.ended = ended;
    Ok(())
}

/// Where an expression leads whose value isn't used. It fails for want of memory alone.
pub(crate) fn step_value<
    'a,
    L: Stage,
    K: Fn(Global, &L, u32, usize, &mut EndTable) -> Result<Ends, AllocError>,
>(
    walk: &Walk<'a, L, K>,
    e: &Expr,
    course: &mut Course,
    table: &mut EndTable,
) -> Result<(), AllocError>
    requires { Finds L.site K.Fn walk.now.stage walk.now.call.now }
    ensures { IfOk result (λ _. WalksAction (L.site walk.now.stage.now) table.old table.new (value e.now)
        course.old course.new) }
{
    evaluate(walk, e, &mut course.at, table)
}

/// Where the test of a loop leads: to what is behind it, and past that. A test that is missing leads there alone (C99
/// 6.8.5.3p2). It fails for want of memory alone.
pub(crate) fn step_test<
    'a,
    L: Stage,
    K: Fn(Global, &L, u32, usize, &mut EndTable) -> Result<Ends, AllocError>,
>(
    walk: &Walk<'a, L, K>,
    test: &Option<Shared<Expr>>,
    course: &mut Course,
    table: &mut EndTable,
) -> Result<(), AllocError>
    requires { Finds L.site K.Fn walk.now.stage walk.now.call.now }
    ensures { IfOk result (λ _. WalksTest (L.site walk.now.stage.now)
        table.old table.new (option_map value test.now) course.old course.new) }
{
    match test {
        Some(test) => {
            step_value(walk, test.get(), course, table)?;
            course.pass()?;
            Ok(())
        }
        None => Ok(()),
    }
}

/// Where the step of a `for` leads, which may be missing. It fails for want of memory alone.
pub(crate) fn step_step<
    'a,
    L: Stage,
    K: Fn(Global, &L, u32, usize, &mut EndTable) -> Result<Ends, AllocError>,
>(
    walk: &Walk<'a, L, K>,
    step: &Option<Shared<Expr>>,
    course: &mut Course,
    table: &mut EndTable,
) -> Result<(), AllocError>
    requires { Finds L.site K.Fn walk.now.stage walk.now.call.now }
    ensures { IfOk result (λ _. WalksStep (L.site walk.now.stage.now)
        table.old table.new (option_map value step.now) course.old course.new) }
{
    match step {
        Some(step) => {
            step_value(walk, step.get(), course, table)?;
            Ok(())
        }
        None => Ok(()),
    }
}

/// Where what a declaration sets leads. It fails for want of memory alone.
fn step_setting<
    'a,
    L: Stage,
    K: Fn(Global, &L, u32, usize, &mut EndTable) -> Result<Ends, AllocError>,
>(
    walk: &Walk<'a, L, K>,
    setting: &Setting,
    course: &mut Course,
    table: &mut EndTable,
) -> Result<(), AllocError>
    requires { Finds L.site K.Fn walk.now.stage walk.now.call.now }
    ensures { IfOk result (λ _. WalksSetting (L.site walk.now.stage.now) table.old table.new setting.now
        course.old course.new) }
{
    match setting {
        Setting::Value { value, .. } => {
            step_value(walk, value.get(), course, table)?;
            Ok(())
        }
        Setting::Text { .. } => Ok(()),
    }
}

/// Where all that a declaration sets leads, in order. It fails for want of memory alone.
pub(crate) fn step_settings<
    'a,
    L: Stage,
    K: Fn(Global, &L, u32, usize, &mut EndTable) -> Result<Ends, AllocError>,
>(
    walk: &Walk<'a, L, K>,
    settings: &[Setting],
    course: &mut Course,
    table: &mut EndTable,
) -> Result<(), AllocError>
    requires { Finds L.site K.Fn walk.now.stage walk.now.call.now }
    ensures { IfOk result (λ _. WalksSettings (L.site walk.now.stage.now)
        table.old table.new settings.now course.old course.new) }
{
    'settings: for setting in settings {
        step_setting(walk, setting, course, table)?;
    }
    Ok(())
}

/// Where the value of a `return` leads. It fails for want of memory alone.
pub(crate) fn step_return<
    'a,
    L: Stage,
    K: Fn(Global, &L, u32, usize, &mut EndTable) -> Result<Ends, AllocError>,
>(
    walk: &Walk<'a, L, K>,
    value: &Option<Shared<Expr>>,
    course: &mut Course,
    table: &mut EndTable,
) -> Result<(), AllocError>
    requires { Finds L.site K.Fn walk.now.stage walk.now.call.now }
    ensures { IfOk result (λ _. WalksCode (L.site walk.now.stage.now) table.old table.new
        (form.return_of (option_map worth value.now)) course.old course.new) }
{
    match value {
        Some(value) => {
            step_value(walk, value.get(), course, table)?;
            course.at.jump_back(walk.alloc)?;
            Ok(())
        }
        None => {
            course.at.jump_back(walk.alloc)?;
            Ok(())
        }
    }
}
