//! What stands at the tokens of statements and declarations, each behind what was found before.
ghost use Rattle.std.specs.Prelude.{◌≡◌, ◌++◌, OnOk};
ghost use Rattle.core_marks.specs.Marks as marks;

use crate::mark::Mark;
use crate::operators::{put_sides, put_switch};
use crate::values::{put_value, put_values};
use core_tree::{Code, Expr, Setting};
use plain_data::{Items, Shared};
use std::alloc::{AllocError, Global};

/// An expression that may be missing.
fn put_option(
    alloc: Global,
    e: &Option<Shared<Expr>>,
    out: &mut Items<Mark>,
) -> Result<(), AllocError>
    ensures { OnOk result (out.new ≡ out.old ++ marks.option_marks e.now) }
{
    match e {
        None => Ok(()),
        Some(e) => put_value(alloc, e.get(), out),
    }
}

/// The condition of a loop, which may be missing.
fn put_test(
    alloc: Global,
    at: u32,
    e: &Option<Shared<Expr>>,
    out: &mut Items<Mark>,
) -> Result<(), AllocError>
    ensures { OnOk result (out.new ≡ out.old ++ marks.test_marks at e.now) }
{
    match e {
        None => Ok(()),
        Some(e) => {
            put_sides(at, out)?;
            put_value(alloc, e.get(), out)
        }
    }
}

fn put_setting(alloc: Global, setting: &Setting, out: &mut Items<Mark>) -> Result<(), AllocError>
    ensures { OnOk result (out.new ≡ out.old ++ marks.setting_marks setting.now) }
{
    match setting {
        Setting::Value { value, .. } => put_value(alloc, value.get(), out),
        Setting::Text { .. } => Ok(()),
    }
}

fn put_settings(
    alloc: Global,
    settings: &[Setting],
    out: &mut Items<Mark>,
) -> Result<(), AllocError>
    ensures { OnOk result (out.new ≡ out.old ++ marks.settings_marks settings.now) }
{
    'settings: for setting in settings {
        put_setting(alloc, setting, out)?;
    }
    Ok(())
}

/// Puts what stands at the tokens of code at the end. It fails for want of memory alone.
#[cycle(marking)]
fn put_code(alloc: Global, code: &Code, out: &mut Items<Mark>) -> Result<(), AllocError>
    ensures { OnOk result (out.new ≡ out.old ++ marks.code_marks code.now) }
{
    match code {
        Code::Nothing { .. } => Ok(()),
        Code::Value { value, .. } => {
            put_value(alloc, value.get(), out)?;
            Ok(())
        }
        Code::Declare { settings, .. } => {
            put_settings(alloc, settings.as_slice(), out)?;
            Ok(())
        }
        Code::Static { values, .. } => {
            put_values(alloc, values.as_slice(), out)?;
            Ok(())
        }
        Code::Block { items, .. } => {
            put_items(alloc, items.as_slice(), out)?;
            Ok(())
        }
        Code::Label { body, .. } => {
            put_code(alloc, body.get(), out)?;
            Ok(())
        }
        Code::Case { label, body, .. } => {
            put_value(alloc, label.get(), out)?;
            put_code(alloc, body.get(), out)?;
            Ok(())
        }
        Code::Default { body } => {
            put_code(alloc, body.get(), out)?;
            Ok(())
        }
        Code::If {
            at,
            condition,
            positive,
            negative,
        } => {
            put_sides(*at, out)?;
            put_value(alloc, condition.get(), out)?;
            put_code(alloc, positive.get(), out)?;
            put_code(alloc, negative.get(), out)?;
            Ok(())
        }
        Code::Switch {
            at,
            cases,
            value,
            items,
            ..
        } => {
            put_switch(*at, cases.as_slice(), out)?;
            put_value(alloc, value.get(), out)?;
            put_items(alloc, items.as_slice(), out)?;
            Ok(())
        }
        Code::Loop {
            at,
            test,
            step,
            body,
        } => {
            put_test(alloc, *at, test, out)?;
            put_option(alloc, step, out)?;
            put_code(alloc, body.get(), out)?;
            Ok(())
        }
        Code::Repeat { at, test, body } => {
            put_sides(*at, out)?;
            put_value(alloc, test.get(), out)?;
            put_code(alloc, body.get(), out)?;
            Ok(())
        }
        Code::Goto { .. } => Ok(()),
        Code::Continue => Ok(()),
        Code::Break => Ok(()),
        Code::Return { value } => {
            put_option(alloc, value, out)?;
            Ok(())
        }
    }
}

/// Puts what stands at the tokens of items at the end. It fails for want of memory alone.
#[cycle(marking)]
pub(crate) fn put_items(
    alloc: Global,
    items: &[Shared<Code>],
    out: &mut Items<Mark>,
) -> Result<(), AllocError>
    ensures { OnOk result (out.new ≡ out.old ++ marks.items_marks items.now) }
{
    for item in items {
        put_code(alloc, item.get(), out)?;
    }
    Ok(())
}
